ghost use Rattle.std.specs.Prelude.{◌≡◌, ◌++◌, OnOk, flat_map, map, option_copied, string_bytes};
ghost use Rattle.rtps_lines.specs.Lines as lines;
ghost use Rattle.rtps_text.specs.WhyText as why_text;

use rtps_evidence::{InSpan, Outcomes, Times};
use rtps_lines::{LateText, WaitText, push_field, silence_lines};
use rtps_report::{LateMatch, Silences};
use std::alloc::{AllocError, Global};

fn push_outcome(text: &mut String, name: &str, count: u64) -> Result<(), AllocError>
    ensures { OnOk result (string_bytes text.new ≡ string_bytes text.old ++ why_text.outcome_line name.now count) }
{
    if count == 0 {
        return Ok(());
    }
    push_field(text, name, count)?;
    text.push_str("\n")
}

/// Appends how many numbers have each outcome but received and missed, of those that some have.
pub(crate) fn push_outcomes(text: &mut String, outcomes: Outcomes) -> Result<(), AllocError>
    ensures { OnOk result (string_bytes text.new ≡ string_bytes text.old ++ why_text.outcome_lines outcomes) }
{
    push_outcome(text, "  arrived ", outcomes.arrived)?;
    push_outcome(text, "  likely ", outcomes.likely)?;
    push_outcome(text, "  unsent ", outcomes.unsent)?;
    push_outcome(text, "  unanswered ", outcomes.unanswered)?;
    push_outcome(text, "  unconfirmed ", outcomes.unconfirmed)
}

/// Appends the longest that the reader of a row let the writer wait, where that is told.
pub(crate) fn push_wait(
    text: &mut String,
    in_span: Option<&InSpan>,
    times: &Times,
) -> Result<(), AllocError>
    ensures { OnOk result (string_bytes text.new ≡ string_bytes text.old ++ why_text.wait_line times.now (option_copied in_span.entry)) }
{
    match in_span {
        Some(
            InSpan {
                wait: Some(wait),
                ..
            },
        ) => writeln!(text, "  {}", WaitText(times, *wait)),
        _ => Ok(()),
    }
}

/// Appends where the two of a row matched late, if they did.
pub(crate) fn push_late(
    text: &mut String,
    late: Option<LateMatch>,
    times: &Times,
) -> Result<(), AllocError>
    ensures { OnOk result (string_bytes text.new ≡ string_bytes text.old ++ why_text.late_line times.now late) }
{
    match late {
        Some(late) => writeln!(text, "  {}", LateText(times, late)),
        None => Ok(()),
    }
}

fn push_sentences(text: &mut String, sentences: &[String]) -> Result<(), AllocError>
    ensures { OnOk result (string_bytes text.new ≡ string_bytes text.old ++ flat_map why_text.sentence_line (map string_bytes sentences.now)) }
{
    for sentence in sentences {
        writeln!(text, "  {sentence}")?;
    }
    Ok(())
}

/// Appends since when the participants of a row are silent, of those that are.
pub(crate) fn push_silences(
    alloc: Global,
    text: &mut String,
    silences: Silences,
    times: &Times,
) -> Result<(), AllocError>
    ensures { OnOk result (string_bytes text.new ≡ string_bytes text.old ++ flat_map why_text.sentence_line (lines.silence_lines times.now silences)) }
{
    let sentences = silence_lines(alloc, times, silences)?;
    push_sentences(text, &sentences)
}
