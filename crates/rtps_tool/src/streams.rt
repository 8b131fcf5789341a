ghost use Rattle.std.specs.Prelude.{◌≡◌, [], false, ◌+◌, ◌≤◌, ◌<◌, ℕ, List, Option, length, take, vec_len, MatchResult, IfErr, IfOk};
ghost use Rattle.std.specs.Io.KnownBytes.{Appends, Consumes, IsAtEnd};
ghost use Rattle.rtps_tool.specs.Forms as forms;
ghost use Rattle.rtps_capture.specs.declared.captures.Captures.{Captures as CapturesValue};
ghost use Rattle.rtps_tool.specs.Passes as passes_spec;
ghost use Rattle.rtps_tool.specs.Runs as runs;
ghost use Rattle.rtps_tool.specs.Unfinished as unfinished;
ghost use Rattle.rtps_tool.specs.declared.faults.RunFault.TheVariants.{Input};

use crate::faults::{RecFault, RunFault};
use crate::form::capture_blocks::{CaptureTerms, read_capture};
use crate::form::either::{begins_capture, read_recording_within};
use crate::form::hex_lines::take_lines;
use crate::form::line_reader::{KEPT_MAX, LineReader};
use crate::form::taking::Take;
use crate::runs::Limits;
use rtps_capture::Captures;
use rtps_report::{DatagramList, Recording};
use std::alloc::{AllocError, Global};
use std::io::{Read, Write};

/// How many octets are asked for at once.
const PIECE: usize = 1 << 16;

/// How many octets are held of a text: an unfinished line, and what is read behind it.
pub(crate) const HELD: usize = KEPT_MAX + PIECE;

/// How many octets tell the form of an input.
pub(crate) const FORM: usize = 4;

/// Reads the recording that is all the input, a text or a capture of those that are read, within limits. The input is read to
/// its end, or past the most octets that it may have.
///
/// An `Err` is the first fault of the input, or [`RunFault::Input`] where a read failed, or [`RunFault::Memory`]. How much was
/// read is open after the last two.
pub fn read_input<R: Read>(
    alloc: Global,
    limits: Limits,
    captures: Captures,
    input: &mut R,
) -> Result<Recording, RunFault>
    ensures { MatchResult result
        (runs.ReadsRecording limits captures (R.remaining input.old) (R.remaining input.new))
        (runs.FailsReading limits captures (R.remaining input.old) (R.remaining input.new)) }
{
    let mut held = zeros(alloc, HELD)?;
    let start = read_start(input, &mut held)?;
    if start < FORM {
        return read_short(alloc, limits, &held[..start]);
    }
    if !begins_capture(captures, &held[..start]) {
        let terms = CaptureTerms {
            alloc,
            limits,
            captures,
        };
        return read_text_input(terms, input, &mut held, start);
    }
    read_capture(alloc, limits, captures, input, &held[..start])
}

pub(crate) fn zeros(alloc: Global, size: usize) -> Result<Vec<u8>, AllocError>
    ensures { IfOk result (λ zeros. vec_len zeros ≡ size) }
{
    vec![in alloc; 0u8; size]
}

/// Reads the first octets of the input, as many as tell its form and perhaps more, or all where there are fewer.
pub(crate) fn read_start<R: Read>(input: &mut R, held: &mut [u8]) -> Result<usize, RunFault>
    requires room { length held.old ≡ 196607 }
    ensures { MatchResult result
        (λ start. (start ≤ 65539) × Consumes (R.remaining input.old) (R.remaining input.new) (take start held.new)
        × (start < 4 → IsAtEnd (R.remaining input.new)))
        (λ fault. fault ≡ Input) }
{
    let mut start = 0;
    'start: while start < FORM {
        let Ok(got) = input.read(&mut held[start..start + PIECE]) else {
            return Err(RunFault::Input);
        };
        if got == 0 {
            return Ok(start);
        }
        start += got;
    }
    Ok(start)
}

/// Reads the recording that is these octets, which are all the input and too few to begin a capture.
fn read_short(alloc: Global, limits: Limits, octets: &[u8]) -> Result<Recording, RunFault>
    requires { length octets.now < 4 }
    ensures { (captures : CapturesValue) (old new : Option (List ℕ)) → Consumes old new octets.now → IsAtEnd new
        → MatchResult result (runs.ReadsRecording limits captures old new) (runs.FailsReading limits captures old new) }
{
    Ok(read_recording_within(alloc, limits, octets)?)
}

/// Reads the recording that is a text, of which so many octets were read.
fn read_text_input<R: Read>(
    terms: CaptureTerms,
    input: &mut R,
    held: &mut [u8],
    start: usize,
) -> Result<Recording, RunFault>
    requires room { length held.old ≡ 196607 }
    requires begun { (4 ≤ start) × (start ≤ 65539) }
    ensures { (before : Option (List ℕ))
        → forms.begins_capture terms.captures (take start held.old) ≡ false → Consumes before (R.remaining input.old) (take start held.old)
        → MatchResult result
        (runs.ReadsRecording terms.limits terms.captures before (R.remaining input.new))
        (runs.FailsReading terms.limits terms.captures before (R.remaining input.new)) }
{
    let mut list = DatagramList::new(terms.alloc);
    let _ = take_text(terms, input, held, start, &mut list)?;
    Ok(Recording::of_text(terms.alloc, list))
}

/// Tells a taker the datagrams of a text of these octets, which are all the input and too few to begin a capture. Answers how many octets
/// there are. After an `Err` the taker is of no use.
pub(crate) fn take_short<T: Take>(
    terms: CaptureTerms,
    octets: &[u8],
    taker: &mut T,
) -> Result<u64, RunFault>
    requires { length octets.now < 4 }
    ensures told { (before now : Option (List ℕ)) (first : T) → Consumes before now octets.now → IsAtEnd now → T.has_taken first [] taker.old
        → MatchResult result
        (unfinished.TakesText terms.limits terms.captures before now (λ datagrams. T.has_taken first datagrams taker.new))
        (runs.FailsReading terms.limits terms.captures before now) }
    ensures fault { IfErr result passes_spec.IsReadFault }
{
    let size = octets.len() as u64;
    if size > terms.limits.octets {
        return Err(RunFault::Recording(RecFault::TooMany));
    }
    take_lines(terms.alloc, terms.limits.datagrams, octets, taker)?;
    Ok(size)
}

/// Tells a taker the datagrams of a text, by way of what is held of it: so many octets were read. Answers how many octets there are. After an
/// `Err` the taker is of no use.
pub(crate) fn take_text<R: Read, T: Take>(
    terms: CaptureTerms,
    input: &mut R,
    held: &mut [u8],
    start: usize,
    taker: &mut T,
) -> Result<u64, RunFault>
    requires room { length held.old ≡ 196607 }
    requires begun { (4 ≤ start) × (start ≤ 65539) }
    ensures told { (before : Option (List ℕ)) (first : T)
        → forms.begins_capture terms.captures (take start held.old) ≡ false → Consumes before (R.remaining input.old) (take start held.old) → T.has_taken first [] taker.old
        → MatchResult result
        (unfinished.TakesText terms.limits terms.captures before (R.remaining input.new) (λ datagrams. T.has_taken first datagrams taker.new))
        (runs.FailsReading terms.limits terms.captures before (R.remaining input.new)) }
    ensures fault { IfErr result passes_spec.IsReadFault }
{
    let mut reader = LineReader::new(terms.alloc);
    let mut total = start as u128;
    let mut kept = 0;
    let mut got = start;
    'pieces: while total <= terms.limits.octets as u128 {
        match reader.feed(terms.limits.datagrams, &mut held[..kept + got], kept, taker) {
            Ok(left) => kept = left,
            Err(RecFault::Memory) => return Err(RunFault::Memory),
            Err(fault) => {
                let total = read_on(terms.limits, input, held, total)?;
                let first = if total > terms.limits.octets as u128 {
                    RecFault::TooMany
                } else {
                    fault
                };
                return Err(RunFault::from(first));
            }
        }
        got = match input.read(&mut held[kept..kept + PIECE]) {
            Ok(got) => got,
            Err(_) => return Err(RunFault::Input),
        };
        if got == 0 {
            reader.finish(terms.limits.datagrams, &held[..kept], taker)?;
            return Ok(total as u64);
        }
        total += got as u128;
    }
    Err(RunFault::Recording(RecFault::TooMany))
}

/// Reads on from so many octets, and answers how many there are then.
pub(crate) fn read_on<R: Read>(
    limits: Limits,
    input: &mut R,
    piece: &mut [u8],
    from: u128,
) -> Result<u128, RunFault>
    requires room { 0 < length piece.old }
    requires within { from ≤ limits.octets }
    ensures { MatchResult result
        (unfinished.ReadsOn limits.octets (R.remaining input.old) (R.remaining input.new) from)
        (λ fault. fault ≡ Input) }
{
    let mut total = from;
    'rest: while total <= limits.octets as u128 {
        let Ok(got) = input.read(piece) else {
            return Err(RunFault::Input);
        };
        if got == 0 {
            return Ok(total);
        }
        total += got as u128;
    }
    Ok(total)
}

/// Writes this text.
pub(crate) fn write_text<W: Write>(text: &[u8], output: &mut W) -> Result<(), RunFault>
    ensures { MatchResult result
        (λ _. Appends (W.contents output.old) (W.contents output.new) text.now)
        (runs.FailsWriting (W.contents output.old) (W.contents output.new) text.now) }
{
    let mut written = 0;
    'writes: while written < text.len() {
        match output.write(&text[written..]) {
            Ok(0) | Err(_) => {
                return Err(RunFault::Output {
                    written: written as u64,
                });
            }
            Ok(taken) => written += taken,
        }
    }
    Ok(())
}
