ghost use Rattle.std.specs.Prelude.{◌≡◌, ◌+◌, ◌^◌, ◌<◌, ◌≤◌, ◌∷◌, ◌++◌, [], ℕ, List, None, Ok, length, take, drop, IfOk, MatchResult};
ghost use Rattle.std.specs.List.{position};
ghost use Rattle.rtps_tool.specs.Outcomes as outcomes;
ghost use Rattle.rtps_tool.specs.Lines as lines_spec;
ghost use Rattle.rtps_tool.specs.RecordingText as recording_text;
ghost use Rattle.rtps_tool.specs.Unfinished as unfinished;

use crate::faults::RecFault;
use crate::form::hex_lines::{
    DIGITS_MAX, decode_line, is_datagram_line, line_end_behind, without_return,
};
use crate::form::taking::Take;
use rtps_capture::Datagram;
use std::alloc::Global;

/// The most octets of a line that are kept while it is unfinished: its digits and a carriage return.
pub(crate) const KEPT_MAX: usize = DIGITS_MAX + 1;

/// What was read of the lines of a text that comes in pieces. Each call is told the most datagrams that there may be, and the taker that is
/// told them, which is of no use after an `Err`.
#[derive(Drop)]
pub(crate) struct LineReader {
    // Those of the line that was read last.
    octets: Vec<u8>,
    // How many datagrams the lines gave that were read.
    found: u64,
    // How many lines were read.
    lines: u64,
}

impl LineReader {
    /// No line was read.
    pub(crate) fn new(alloc: Global) -> LineReader
        ensures { (result.found ≡ 0) × (result.lines ≡ 0) }
    {
        LineReader {
            octets: Vec::new(alloc),
            found: 0,
            lines: 0,
        }
    }

    /// Reads what comes next of a text, of which so much at the front has no end of a line, and answers how much of its
    /// end is to be put in front of what comes then: that stands at the front of `text` now, and has none either.
    pub(crate) fn feed<T: Take>(
        &mut self,
        most: u64,
        text: &mut [u8],
        known: usize,
        taker: &mut T,
    ) -> Result<usize, RecFault>
        requires in_range { self.old.lines + length text.old < 2 ^ 64 }
        requires within { known ≤ length text.old }
        requires goes_on { position lines_spec.is_line_feed (take known text.old) ≡ None }
        ensures kept { IfOk result (λ kept. (kept ≤ 131071) × (kept ≤ length text.new) × unfinished.LeavesLine self.old text.old self.new (take kept text.new)) }
        ensures told { (done : List (List ℕ)) (start : T) → unfinished.HasTold (λ told. T.has_taken start told taker.old) self.old done
            → MatchResult result
            (λ kept. unfinished.IsReadUpTo most done self.old text.old (λ told. T.has_taken start told taker.new) self.new (take kept text.new))
            (unfinished.IsFaultWithin most done self.old text.old) }
    {
        let from = self.read_complete(most, text, known, taker)?;
        let kept = self.kept_of(most, &text[from..])?;
        if from > 0 {
            text.copy_within(from..from + kept, 0);
        }
        Ok(kept)
    }

    /// Reads the end of a text: its last line, where that has no end.
    pub(crate) fn finish<T: Take>(
        &mut self,
        most: u64,
        left: &[u8],
        taker: &mut T,
    ) -> Result<(), RecFault>
        requires in_range { self.old.lines + length left.now < 2 ^ 64 }
        requires goes_on { position lines_spec.is_line_feed left.now ≡ None }
        ensures { (done : List (List ℕ)) (start : T) → unfinished.HasTold (λ told. T.has_taken start told taker.old) self.old done
            → MatchResult result
            (λ _. unfinished.IsReadWhole most done self.old left.now (λ told. T.has_taken start told taker.new))
            (outcomes.IsFaultOf (unfinished.recording_behind most done self.old.lines left.now)) }
    {
        if left.is_empty() {
            return Ok(());
        }
        self.read_line(most, without_return(left), taker)
    }

    /// Reads the lines of a text that have an end, and answers where the rest begins. So much at the front has none.
    pub(crate) fn read_complete<T: Take>(
        &mut self,
        most: u64,
        text: &[u8],
        known: usize,
        taker: &mut T,
    ) -> Result<usize, RecFault>
        requires in_range { self.old.lines + length text.now < 2 ^ 64 }
        requires within { known ≤ length text.now }
        requires goes_on { position lines_spec.is_line_feed (take known text.now) ≡ None }
        ensures rest { IfOk result (λ from. (from ≤ length text.now) × unfinished.LeavesLine self.old text.now self.new (drop from text.now)) }
        ensures told { (done : List (List ℕ)) (start : T) → unfinished.HasTold (λ told. T.has_taken start told taker.old) self.old done
            → MatchResult result
            (λ from. unfinished.IsReadUpTo most done self.old text.now (λ told. T.has_taken start told taker.new) self.new (drop from text.now))
            (unfinished.IsFaultWithin most done self.old text.now) }
    {
        let mut from = 0;
        let mut known = known;
        'lines: while let Some(end) = line_end_behind(&text[from..], known) {
            let line = without_return(&text[from..from + end]);
            self.read_line(most, line, taker)?;
            from += end + 1;
            known = 0;
        }
        Ok(from)
    }

    /// Reads one line more: the taker is told the datagram that it stands for, if it stands for one.
    fn read_line<T: Take>(&mut self, most: u64, line: &[u8], taker: &mut T) -> Result<(), RecFault>
        requires in_range { self.old.lines + 1 < 2 ^ 64 }
        ensures counted { self.new.lines ≡ self.old.lines + 1 }
        ensures told { (done : List (List ℕ)) (start : T) → unfinished.HasTold (λ told. T.has_taken start told taker.old) self.old done
            → let defined = recording_text.recording_of_lines most (self.old.lines + 1) (length done) (line.now ∷ []) in MatchResult result
            (λ _. (found : List (List ℕ)) × (defined ≡ Ok found) × unfinished.HasTold (λ told. T.has_taken start told taker.new) self.new (done ++ found))
            (outcomes.IsFaultOf defined) }
    {
        self.lines += 1;
        if !is_datagram_line(line) {
            return Ok(());
        }
        if self.found >= most {
            return Err(RecFault::TooMany);
        }
        let line_number = self.lines;
        if line.len() > DIGITS_MAX {
            return Err(RecFault::TooLong { line: line_number });
        }
        if !decode_line(&mut self.octets, line)? {
            return Err(RecFault::BadHex { line: line_number });
        }
        taker.take(&Datagram {
            octets: &self.octets,
            time: None,
            frame: 0,
        })?;
        self.found += 1;
        Ok(())
    }

    /// How much is to be kept of a line that goes on: all of it, unless it is too long, and of a long comment its first
    /// octet.
    fn kept_of(&self, most: u64, line: &[u8]) -> Result<usize, RecFault>
        requires goes_on { position lines_spec.is_line_feed line.now ≡ None }
        requires in_range { self.now.lines + length line.now < 2 ^ 64 }
        ensures kept { IfOk result (λ kept. (kept ≤ 131071) × (kept ≤ length line.now) × unfinished.LeavesLine self.now line.now self.now (take kept line.now)) }
        ensures told { (done : List (List ℕ)) → self.now.found ≡ length done
            → MatchResult result
            (λ kept. (later : List ℕ) → unfinished.recording_behind most done self.now.lines (take kept line.now ++ later) ≡ unfinished.recording_behind most done self.now.lines (line.now ++ later))
            (unfinished.IsFaultWithin most done self.now line.now) }
    {
        if line.len() <= KEPT_MAX {
            return Ok(line.len());
        }
        if line[0] == b'#' {
            return Ok(1);
        }
        if self.found >= most {
            return Err(RecFault::TooMany);
        }
        Err(RecFault::TooLong {
            line: self.lines + 1,
        })
    }
}
