ghost use Rattle.std.specs.Prelude.{◌≡◌, IfOk, map};
ghost use Rattle.std.specs.String.{string_bytes};
ghost use Rattle.rtps_lines.specs.Lines as lines_spec;

use crate::fields::{SecondText, side_name};
use rtps_discovery::Side;
use rtps_evidence::Times;
use rtps_report::Silences;
use std::alloc::{AllocError, Global};

/// That the participant of a writer or a reader is silent since this datagram.
fn silence_line(alloc: Global, times: &Times, side: Side, last: u64) -> Result<String, AllocError>
    ensures { IfOk result (λ line. string_bytes line ≡ lines_spec.silence_line times.now side last) }
{
    let mut line = String::new(alloc);
    let (name, second) = (side_name(side), SecondText(times, last));
    write!(
        line,
        "the {name}'s participant is silent since datagram {last}{second}, and did not leave: it was killed, or cut off"
    )?;
    Ok(line)
}

/// Who is silent of the two of a pair: the writer's participant, and then the reader's.
pub fn silence_lines(
    alloc: Global,
    times: &Times,
    silences: Silences,
) -> Result<Vec<String>, AllocError>
    ensures { IfOk result (λ lines. map string_bytes lines.items ≡ lines_spec.silence_lines times.now silences) }
{
    let mut lines = Vec::new(alloc);
    if let Some(last) = silences.writer {
        lines.push(silence_line(alloc, times, Side::Writer, last)?)?;
    }
    if let Some(last) = silences.reader {
        lines.push(silence_line(alloc, times, Side::Reader, last)?)?;
    }
    Ok(lines)
}
