ghost use Rattle.std.specs.Prelude.{◌≡◌, ◌≤◌, [], true, List, Option, ℕ, length, MatchResult};
ghost use Rattle.std.specs.Io.KnownBytes.{Consumes};
ghost use Rattle.rtps_capture.specs.Course as course;
ghost use Rattle.rtps_capture.specs.declared.captures.Captures.{Captures as CapturesValue};
ghost use Rattle.rtps_tool.specs.CaptureBlocks as capture_blocks;
ghost use Rattle.rtps_tool.specs.Forms as forms;
ghost use Rattle.rtps_tool.specs.Runs as runs;

use crate::faults::{RecFault, RunFault};
use crate::form::collected::Collected;
use crate::form::taking::Take;
use crate::form::whole_capture::WholeCapture;
use crate::runs::Limits;
use crate::streams::{read_on, zeros};
use rtps_capture::laws::course_is_told;
use rtps_capture::{CaptureFault, CaptureReader, Captures, Opened, ReadFault, Wanted};
use rtps_report::Recording;
use std::alloc::Global;
use std::io::Read;

/// How many octets are asked for at once.
const PIECE: usize = 1 << 16;

/// Where a capture has a fault: so many octets of the input were read, and whether it ended there.
#[derive(Clone, Copy)]
pub(crate) struct Stop {
    read: u64,
    ended: bool,
    fault: CaptureFault,
}

/// How recordings are read.
#[derive(Clone, Copy)]
pub(crate) struct CaptureTerms {
    pub(crate) alloc: Global,
    /// How large they may be.
    pub(crate) limits: Limits,
    /// Those that are read.
    pub(crate) captures: Captures,
}

/// Reads the recording that is a capture, of which these octets were read: they begin it.
pub(crate) fn read_capture<R: Read>(
    alloc: Global,
    limits: Limits,
    captures: Captures,
    input: &mut R,
    begun: &[u8],
) -> Result<Recording, RunFault>
    requires begun { 4 ≤ length begun.now }
    requires form { forms.begins_capture captures begun.now ≡ true }
    ensures { (before : Option (List ℕ)) → Consumes before (R.remaining input.old) begun.now
        → MatchResult result (runs.ReadsRecording limits captures before (R.remaining input.new)) (runs.FailsReading limits captures before (R.remaining input.new)) }
{
    course_is_told();
    let terms = CaptureTerms {
        alloc,
        limits,
        captures,
    };
    let mut collected = Collected::new(alloc);
    let whole = take_capture(terms, input, begun, &mut collected)?;
    Ok(collected.recording(alloc, captures, whole.summary)?)
}

/// Tells a taker the datagrams of a capture, of which these octets were read: they begin it. After an `Err` the taker is of no use.
pub(crate) fn take_capture<R: Read, T: Take>(
    terms: CaptureTerms,
    input: &mut R,
    begun: &[u8],
    taker: &mut T,
) -> Result<WholeCapture, RunFault>
    requires begun { 4 ≤ length begun.now }
    requires form { forms.begins_capture terms.captures begun.now ≡ true }
    ensures { (before : Option (List ℕ)) → Consumes before (R.remaining input.old) begun.now
        → MatchResult result
        (capture_blocks.TakesAll terms.limits terms.captures before (R.remaining input.new) (λ datagrams. (start : T) → T.has_taken start [] taker.old → T.has_taken start datagrams taker.new))
        (runs.FailsReading terms.limits terms.captures before (R.remaining input.new)) }
{
    let wanted = Wanted {
        captures: terms.captures,
        most: terms.limits.datagrams,
        block: PIECE,
    };
    match CaptureReader::open(terms.alloc, wanted, begun, input)? {
        Opened::Capture(mut reader) => take_whole(terms, input, &mut reader, taker),
        Opened::Other { read, ended } => {
            let fault = CaptureFault::BadCapture;
            let stop = Stop { read, ended, fault };
            Err(fault_behind(terms.alloc, terms.limits, input, stop))
        }
    }
}

/// Tells a taker the datagrams of a capture that are left to be read.
fn take_whole<R: Read, T: Take>(
    terms: CaptureTerms,
    input: &mut R,
    reader: &mut CaptureReader,
    taker: &mut T,
) -> Result<WholeCapture, RunFault>
    ensures { (before : Option (List ℕ)) → capture_blocks.CameSo terms.limits terms.captures before (R.remaining input.old) reader.old []
        → MatchResult result
        (capture_blocks.TakesAll terms.limits terms.captures before (R.remaining input.new) (λ datagrams. (start : T) → T.has_taken start [] taker.old → T.has_taken start datagrams taker.new))
        (runs.FailsReading terms.limits terms.captures before (R.remaining input.new)) }
{
    let limits = terms.limits;
    match take_all(limits, input, reader, taker) {
        Ok(()) if reader.octets_read() > limits.octets => Err(RunFault::Recording(
            RecFault::TooMany,
        )),
        Ok(()) => Ok(WholeCapture {
            summary: reader.summary(),
            octets: reader.octets_read(),
        }),
        Err(fault) => Err(fault_told(terms.alloc, limits, input, reader, fault)),
    }
}

/// What is told where a capture is not read on.
fn fault_told<R: Read>(
    alloc: Global,
    limits: Limits,
    input: &mut R,
    reader: &CaptureReader,
    fault: ReadFault,
) -> RunFault
    ensures { (captures : CapturesValue) (before : Option (List ℕ)) → capture_blocks.FailsTaking limits captures before (R.remaining input.old) reader.now fault
        → runs.FailsReading limits captures before (R.remaining input.new) result }
{
    let fault = match fault {
        ReadFault::Input => return RunFault::Input,
        ReadFault::Capture(fault) => fault,
    };
    if is_memory(fault) {
        return RunFault::Memory;
    }
    let stop = Stop {
        read: reader.octets_read(),
        ended: reader.has_ended(),
        fault,
    };
    fault_behind(alloc, limits, input, stop)
}

/// Whether memory was refused, which says nothing of the capture.
fn is_memory(fault: CaptureFault) -> bool
    ensures { result ≡ capture_blocks.is_memory fault }
{
    matches!(fault, CaptureFault::Memory)
}

/// Tells a taker the datagrams of a capture, to its end or past the most octets that it may have.
fn take_all<R: Read, T: Take>(
    limits: Limits,
    input: &mut R,
    reader: &mut CaptureReader,
    taker: &mut T,
) -> Result<(), ReadFault>
    ensures { (captures : CapturesValue) (before : Option (List ℕ)) (datagrams : List course.DatagramValue)
        → capture_blocks.CameSo limits captures before (R.remaining input.old) reader.old datagrams
        → MatchResult result
        (λ _. capture_blocks.Takes limits captures before (R.remaining input.new) reader.new (λ more. (start : T) → T.has_taken start datagrams taker.old → T.has_taken start more taker.new))
        (capture_blocks.FailsTaking limits captures before (R.remaining input.new) reader.new) }
{
    'datagrams: while reader.octets_read() <= limits.octets {
        let found = reader.advance(input)?;
        if !found {
            return Ok(());
        }
        if let Some(datagram) = reader.datagram() {
            taker.take(&datagram)?;
        }
    }
    Ok(())
}

/// What is told where a capture has a fault: its input is read on to the end, or past the most octets that it may have, since these are
/// looked at before any other fault.
fn fault_behind<R: Read>(alloc: Global, limits: Limits, input: &mut R, stop: Stop) -> RunFault
    ensures { (captures : CapturesValue) (before : Option (List ℕ)) → capture_blocks.StopsAt limits captures before (R.remaining input.old) stop
        → runs.FailsReading limits captures before (R.remaining input.new) result }
{
    course_is_told();
    match read_rest(alloc, limits, input, stop) {
        Ok(total) if total > limits.octets as u128 => RunFault::Recording(RecFault::TooMany),
        Ok(_) => RunFault::from(RecFault::from(stop.fault)),
        Err(fault) => fault,
    }
}

/// Reads on from there, and answers how many octets there are then.
fn read_rest<R: Read>(
    alloc: Global,
    limits: Limits,
    input: &mut R,
    stop: Stop,
) -> Result<u128, RunFault>
    ensures { MatchResult result
        (capture_blocks.ReadsRest limits.octets (R.remaining input.old) (R.remaining input.new) stop)
        capture_blocks.IsNoRecFault }
{
    let read = u128::from(stop.read);
    if stop.ended || stop.read > limits.octets {
        return Ok(read);
    }
    let mut piece = zeros(alloc, PIECE)?;
    read_on(limits, input, &mut piece, read)
}
