//! A recording is judged by each judge of the libraries: by the audit, by the judge with each kind of set, by the index,
//! and with the evidence. All have to give the same, for all numbers and for those from 2 on.

use crate::fault::Fault;
use crate::recording::{PAIR, datagrams, read, second};
use bumpalo::Bump;
use rtps_audit::{
    Index, MergedRanges, PlainRanges, Unwatched, Verdict, audit_from, judge, judge_by, judge_from,
};
use rtps_discovery::Pair;
use rtps_evidence::{Evidence, Extent, explain_from};
use rtps_ids::SeqNum;
use std::alloc::Global;
use std::fmt::Write;

/// Judges each recording of a text; an empty line stands between two. Appends how many rows the audit of each has.
pub(crate) fn judge_each(alloc: Global, input: &str, text: &mut String) -> Result<(), Fault> {
    for recording in input.split("\n\n") {
        let arena = Bump::new(alloc);
        let octets = read(alloc, recording)?;
        let recording = datagrams(alloc, &octets)?;
        let rows = count_rows(alloc, &recording, &arena)?;
        writeln!(text, "{rows}")?;
    }
    Ok(())
}

/// The rows of the audit of all numbers. Each verdict has to be the same by each judge, also that of `PAIR`, which need not
/// match.
fn count_rows<'a>(alloc: Global, recording: &[&'a [u8]], arena: &'a Bump) -> Result<usize, Fault> {
    let index = Index::build(alloc, recording)?;
    let ways = Ways {
        alloc,
        recording,
        index: &index,
        arena,
    };
    ways.hold_pair(PAIR, second(), index.judge_from(PAIR, second())?)?;
    ways.hold_whole()?;
    ways.hold_rows(second())?;
    ways.hold_rows(SeqNum::first())
}

/// The ways to judge a recording.
#[derive(Clone, Copy)]
struct Ways<'r, 'a> {
    alloc: Global,
    recording: &'r [&'a [u8]],
    index: &'r Index<'a>,
    arena: &'a Bump,
}

impl Ways<'_, '_> {
    /// The calls without a first number have to answer as with the first of all.
    fn hold_whole(self) -> Result<(), Fault> {
        let (alloc, recording) = (self.alloc, self.recording);
        let wanted = self.index.judge(PAIR)?;
        hold(judge(alloc, recording, PAIR)?, wanted)?;
        hold(judge_by::<PlainRanges>(alloc, recording, PAIR)?, wanted)?;
        hold(
            Evidence::of(alloc, self.index, self.arena, PAIR)?.verdict,
            wanted,
        )?;
        hold(self.index.judge_from(PAIR, SeqNum::first())?, wanted)
    }

    /// Judges a pair by the numbers from `from` on. Each way has to give this verdict.
    fn hold_pair(self, pair: Pair, from: SeqNum, wanted: Verdict) -> Result<(), Fault> {
        let (alloc, recording) = (self.alloc, self.recording);
        hold(
            judge_from::<PlainRanges>(alloc, recording, pair, from)?,
            wanted,
        )?;
        hold(
            judge_from::<MergedRanges>(alloc, recording, pair, from)?,
            wanted,
        )?;
        hold(
            Evidence::of_from(alloc, self.index, self.arena, pair, from)?.verdict,
            wanted,
        )?;
        hold(self.index.judge_from(pair, from)?, wanted)
    }

    /// Counts the rows of the audit by the numbers from `from` on, which have to be those that are explained.
    fn hold_rows(self, from: SeqNum) -> Result<usize, Fault> {
        let report = audit_from(self.alloc, self.recording, from)?;
        let extent = Extent {
            from,
            in_spans: false,
        };
        let explained = explain_from(
            self.alloc,
            self.arena,
            self.recording,
            extent,
            &mut Unwatched,
        )?;
        for (row, other) in report.rows.iter().zip(explained.rows.iter()) {
            self.hold_pair(row.pair, from, row.verdict)?;
            hold(other.evidence.verdict, row.verdict)?;
        }
        Ok(report.rows.len())
    }
}

/// Two ways have to give the same verdict.
fn hold(found: Verdict, wanted: Verdict) -> Result<(), Fault> {
    if found != wanted {
        return Err(Fault::Differs("a verdict is another by another way"));
    }
    Ok(())
}
