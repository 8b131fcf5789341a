ghost use Rattle.std.specs.Prelude.{◌≡◌, ◌++◌, OnOk, string_bytes};
ghost use Rattle.rtps_report.specs.Talk as talk_spec;
ghost use Rattle.rtps_check.specs.TalkText as talk_text;

use crate::unmatched_block::end_by;
use rtps_lines::sentences::block as said;
use rtps_parts::{Part, Words, render};
use rtps_policies::{OneWay, participant_of};
use rtps_report::Talk;
use std::alloc::AllocError;

/// Appends the lines of a participant that never answers, and of the one that names it.
fn push_one_way(text: &mut String, one: OneWay, talk: &Talk<'_>) -> Result<(), AllocError>
    ensures { OnOk result (string_bytes text.new ≡ string_bytes text.old ++ talk_text.one_way_lines (talk_spec.talk_value talk.now).ends one) }
{
    let silent = end_by(talk, participant_of(one.naming.dest));
    let talking = end_by(talk, participant_of(one.naming.source));
    let words = Words {
        one: "datagram",
        many: "datagrams",
    };
    write!(
        text,
        "  participant {silent} never answers\n  participant {talking}, which names it in "
    )?;
    render(
        text,
        &[Part::Amount(u128::from(one.count), words), Part::Text("\n")],
    )
}

/// Appends who talks one way, if someone does.
pub(crate) fn push_one_way_block(text: &mut String, talk: &Talk<'_>) -> Result<(), AllocError>
    ensures { OnOk result (string_bytes text.new ≡ string_bytes text.old ++ talk_text.one_way_block (talk_spec.talk_value talk.now)) }
{
    if talk.one_way.is_empty() {
        return Ok(());
    }
    let words = Words {
        one: said::ONE_WAY_ONE,
        many: said::ONE_WAY_MANY,
    };
    let head = [
        Part::Text("\n"),
        Part::Amount(talk.one_way.len() as u128, words),
        Part::Text("\n"),
    ];
    render(text, &head)?;
    for one in &talk.one_way {
        push_one_way(text, *one, talk)?;
    }
    writeln!(text, "  -> {}", said::ONE_WAY_REMEDY)
}
