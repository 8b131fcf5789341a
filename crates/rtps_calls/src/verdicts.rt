//! Pairs are judged one by one, with the samples that come in fragments.

use crate::fault::Fault;
use bumpalo::Bump;
use rtps_audit::Verdict;
use rtps_discovery::Pair;
use rtps_fragments::{Fragments, index_as, judge_with_samples};
use rtps_ids::SeqNum;
use rtps_report::datagrams_of;
use rtps_tool::Recording;
use std::alloc::Global;
use std::fmt::Write;

/// The word for a verdict.
fn verdict_word(verdict: &Verdict) -> &'static str {
    match verdict {
        Verdict::Complete { .. } => "complete",
        Verdict::Open { .. } => "open",
        Verdict::Conflict { .. } => "conflict",
        Verdict::Unfounded { .. } => "unfounded",
    }
}

/// Appends the verdict on each of these pairs.
pub(crate) fn push_verdicts(
    alloc: Global,
    recording: &Recording,
    pairs: &[Pair],
    text: &mut String,
) -> Result<(), Fault> {
    let datagrams = datagrams_of(alloc, recording)?;
    let arena = Bump::new(alloc);
    let indexed = index_as(alloc, &datagrams, Fragments::Read, &arena)?;
    for pair in pairs {
        let verdict = judge_with_samples(alloc, &indexed.index, *pair, SeqNum::first())?;
        let (writer, reader) = (pair.writer, pair.reader);
        writeln!(text, "-- {writer} {reader} {}", verdict_word(&verdict))?;
    }
    Ok(())
}
