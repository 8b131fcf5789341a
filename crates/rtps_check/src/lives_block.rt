ghost use Rattle.std.specs.Prelude.{◌≡◌, ◌++◌, OnOk, string_bytes};
ghost use Rattle.rtps_report.specs.Talk as talk_spec;
ghost use Rattle.rtps_check.specs.DiscoveryText as discovery_text;

use crate::unmatched_block::end_by;
use rtps_evidence::Times;
use rtps_lines::sentences::block as said;
use rtps_lines::{SecondsText, lives_words, sent_second};
use rtps_parts::{Part, render};
use rtps_report::{Talk, TwoLives};
use std::alloc::AllocError;

/// Appends the line of a participant with two lives.
fn push_lives(
    text: &mut String,
    one: TwoLives,
    talk: &Talk<'_>,
    times: &Times,
) -> Result<(), AllocError>
    ensures { OnOk result (string_bytes text.new ≡ string_bytes text.old ++ discovery_text.lives_line times.now (talk_spec.talk_value talk.now) one) }
{
    let participant = end_by(talk, one.participant);
    let first = SecondsText(sent_second(times, one.sent.0));
    let other = SecondsText(sent_second(times, one.sent.1));
    writeln!(
        text,
        "  participant {participant}, announced by one number at {first} s and at {other} s of its clock"
    )
}

/// Appends who has two lives under one GUID, if someone has.
pub(crate) fn push_lives_block(
    text: &mut String,
    talk: &Talk<'_>,
    times: &Times,
) -> Result<(), AllocError>
    ensures { OnOk result (string_bytes text.new ≡ string_bytes text.old ++ discovery_text.lives_block times.now (talk_spec.talk_value talk.now)) }
{
    if talk.lives.is_empty() {
        return Ok(());
    }
    let head = [
        Part::Text("\n"),
        Part::Amount(talk.lives.len() as u128, lives_words()),
        Part::Text("\n"),
    ];
    render(text, &head)?;
    for one in &talk.lives {
        push_lives(text, *one, talk, times)?;
    }
    writeln!(text, "  -> {}", said::LIVES_REMEDY)
}
