ghost use Rattle.std.specs.Prelude.{◌≡◌, ◌≤◌, [], ℕ, List, length, take, is_ok, None, Ok, IfOk, IsTrue, MatchResult};
ghost use Rattle.std.specs.List.{position};
ghost use Rattle.std.specs.Str.Lines.{strip_carriage_return};
ghost use Rattle.hex.specs.Hex.{decode_of};
ghost use Rattle.rtps_digits.specs.Pairs as pairs;
ghost use Rattle.rtps_tool.specs.Outcomes as outcomes;
ghost use Rattle.rtps_tool.specs.Lines as lines;
ghost use Rattle.rtps_tool.specs.RecordingText as recording_text;
ghost use Rattle.rtps_tool.specs.Sums as sums;

use crate::faults::RecFault;
use crate::form::line_reader::LineReader;
use crate::form::taking::Take;
use rtps_capture::Datagram;
use rtps_ids::Memory;
use rtps_report::{DatagramList, Recording};
use std::alloc::{AllocError, Global};

/// The most digits of a datagram: two for each of 65,535 octets, as UDP carries no more.
pub(crate) const DIGITS_MAX: usize = 131_070;

/// The place of the first line feed.
pub(crate) fn line_end(text: &[u8]) -> Option<usize>
    ensures { result ≡ position lines.is_line_feed text.now }
{
    memchr::memchr(b'\n', text)
}

/// The place of the first line feed of a text in front of which so much has none.
pub(crate) fn line_end_behind(text: &[u8], known: usize) -> Option<usize>
    requires within { known ≤ length text.now }
    requires none { position lines.is_line_feed (take known text.now) ≡ None }
    ensures { result ≡ position lines.is_line_feed text.now }
{
    Some(known + line_end(&text[known..])?)
}

/// The line without the one carriage return at its end, if it has one.
pub(crate) fn without_return(line: &[u8]) -> &[u8]
    ensures { result.now ≡ strip_carriage_return line.now }
{
    match line {
        [front @ .., b'\r'] => front,
        _ => line,
    }
}

/// Reads a recording of so many datagrams at most from a text: one datagram a line, in hexadecimal digits of either case.
pub(crate) fn read_text(alloc: Global, most: u64, text: &[u8]) -> Result<Recording, RecFault>
    ensures { MatchResult result
        (λ recording. recording_text.recording_of_text most text.now ≡ Ok recording)
        (outcomes.IsFaultOf (recording_text.recording_of_text most text.now)) }
{
    let mut list = DatagramList::new(alloc);
    take_lines(alloc, most, text, &mut list)?;
    Ok(Recording::of_text(alloc, list))
}

/// Tells a taker the datagrams of a text, of which there may be so many. After an `Err` the taker is of no use.
pub(crate) fn take_lines<T: Take>(
    alloc: Global,
    most: u64,
    text: &[u8],
    taker: &mut T,
) -> Result<(), RecFault>
    ensures { (first : T) → T.has_taken first [] taker.old
        → let defined = recording_text.recording_of_lines most 1 0 (lines.lines_of text.now) in MatchResult result
        (λ _. (all : List (List ℕ)) × (defined ≡ Ok all) × T.has_taken first (recording_text.untimed all) taker.new)
        (outcomes.IsFaultOf defined) }
{
    let mut reader = LineReader::new(alloc);
    let from = reader.read_complete(most, text, 0, taker)?;
    reader.finish(most, &text[from..], taker)
}

impl Take for DatagramList {
    ghost has_taken = { λ start datagrams list. start ≡ [] → list ≡ sums.octets_of datagrams };

    fn take(&mut self, datagram: &Datagram<'_>) -> Result<(), Memory> {
        self.push(datagram.octets)?;
        Ok(())
    }
}

/// Whether a line stands for a datagram.
pub(crate) fn is_datagram_line(line: &[u8]) -> bool
    ensures { result ≡ recording_text.is_datagram_line line.now }
{
    !line.is_empty() && line[0] != b'#'
}

/// Puts the octets that these digits stand for in place of those that are there, and answers whether they stand for any.
pub(crate) fn decode_line(octets: &mut Vec<u8>, digits: &[u8]) -> Result<bool, AllocError>
    ensures found { IfOk result (λ found. found ≡ is_ok (decode_of digits.now)) }
    ensures octets { IfOk result (λ found. IsTrue found → octets.new.items ≡ pairs.octets_of digits.now) }
{
    octets.resize(digits.len() / 2, 0)?;
    Ok(rtps_digits::decode(octets.as_mut_slice(), digits))
}
