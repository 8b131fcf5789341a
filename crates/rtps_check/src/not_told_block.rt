ghost use Rattle.std.specs.Prelude.{◌≡◌, ◌++◌, OnOk, map, string_bytes};
ghost use Rattle.rtps_report.specs.NotTold as not_told;
ghost use Rattle.rtps_report.specs.Talk as talk_spec;
ghost use Rattle.rtps_check.specs.DiscoveryText as discovery_text;

use crate::unmatched_block::end_by;
use rtps_lines::sentences::block as said;
use rtps_lines::{NotToldAdvice, called, endpoint_words};
use rtps_parts::{Part, render};
use rtps_report::{NotTold, Talk, TopicEnd};
use std::alloc::AllocError;

/// Appends the line of an endpoint that a participant was never told of.
fn push_end(
    text: &mut String,
    one: &NotTold<'_>,
    side: &str,
    by: (TopicEnd<'_>, &Talk<'_>),
) -> Result<(), AllocError>
    ensures { OnOk result (string_bytes text.new ≡ string_bytes text.old
        ++ discovery_text.end_line (talk_spec.talk_value by.entry.1.now) (not_told.not_told_value one.now) side.now (not_told.topic_end_value by.entry.0)) }
{
    let (end, talk) = by;
    let told = called(talk, one.to.prefix);
    write!(text, "  {told}{side}")?;
    render(text, &[Part::TopicName(end.topic), Part::Text(" ")])?;
    writeln!(text, "{}", end_by(talk, end.guid))
}

/// Appends the lines of these endpoints.
fn push_ends(
    text: &mut String,
    one: &NotTold<'_>,
    side: &str,
    by: (&[TopicEnd<'_>], &Talk<'_>),
) -> Result<(), AllocError>
    ensures { OnOk result (string_bytes text.new ≡ string_bytes text.old
        ++ discovery_text.end_lines (talk_spec.talk_value by.entry.1.now) (not_told.not_told_value one.now) side.now (map not_told.topic_end_value by.entry.0.now)) }
{
    let (ends, talk) = by;
    for end in ends {
        push_end(text, one, side, (*end, talk))?;
    }
    Ok(())
}

/// Appends how many more a participant was never told of; nothing where there are none.
fn push_unnamed(text: &mut String, one: &NotTold<'_>, talk: &Talk<'_>) -> Result<(), AllocError>
    ensures { OnOk result (string_bytes text.new ≡ string_bytes text.old ++ discovery_text.unnamed_line (talk_spec.talk_value talk.now) (not_told.not_told_value one.now)) }
{
    if one.unnamed == 0 {
        return Ok(());
    }
    let told = called(talk, one.to.prefix);
    let from = called(talk, one.from.prefix);
    write!(text, "  {told} was never told of ")?;
    render(
        text,
        &[Part::Amount(u128::from(one.unnamed), endpoint_words())],
    )?;
    writeln!(text, " of {from} that this recording does not name")
}

/// Appends what a participant was never told of another, and what to do.
fn push_not_told(text: &mut String, one: &NotTold<'_>, talk: &Talk<'_>) -> Result<(), AllocError>
    ensures { OnOk result (string_bytes text.new ≡ string_bytes text.old ++ discovery_text.not_told_lines (talk_spec.talk_value talk.now) (not_told.not_told_value one.now)) }
{
    let writer = said::NOT_TOLD_WRITER;
    let reader = said::NOT_TOLD_READER;
    push_ends(text, one, writer, (&one.writers, talk))?;
    push_ends(text, one, reader, (&one.readers, talk))?;
    push_unnamed(text, one, talk)?;
    let address = talk.address_behind(one.from, one.to);
    writeln!(text, "  -> {}", NotToldAdvice(address))
}

/// Appends who was never told of which endpoints, if someone was not.
pub(crate) fn push_not_told_block(text: &mut String, talk: &Talk<'_>) -> Result<(), AllocError>
    ensures { OnOk result (string_bytes text.new ≡ string_bytes text.old ++ discovery_text.not_told_block (talk_spec.talk_value talk.now)) }
{
    if talk.not_told.is_empty() {
        return Ok(());
    }
    text.push_str("\ndiscovery is not complete\n")?;
    for one in &talk.not_told {
        push_not_told(text, one, talk)?;
    }
    Ok(())
}
