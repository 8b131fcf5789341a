ghost use Rattle.std.specs.Prelude.{ℕ, ◌≡◌, true, false, filter, All, IfOk, IfSome, List};
ghost use Rattle.rtps_receiver.specs.Values as values;
ghost use Rattle.rtps_audit.specs.Index as index_spec;
ghost use Rattle.rtps_audit.specs.Intake as intake;
ghost use Rattle.rtps_audit.specs.Placed as placed;
ghost use Rattle.rtps_audit.specs.Report as report;
ghost use Rattle.rtps_audit.specs.RunVerdict as run_verdict;
ghost use Rattle.rtps_audit.specs.Said as said_spec;
ghost use Rattle.rtps_audit.specs.Speech as speech;
ghost use Rattle.rtps_fragments.specs.Hearing as hearing;
ghost use Rattle.rtps_evidence.specs.Evidence as evidence;
ghost use Rattle.rtps_evidence.specs.ReaderNotes as reader_notes;
ghost use Rattle.rtps_evidence.specs.Spans as spans;

use crate::exchange::{Exchange, Extent};
use crate::reader_notes::ReaderNotes;
use crate::span::Span;
use rtps_audit::{FirstAsked, Index, Row, Verdict};
use rtps_discovery::Pair;
use rtps_ids::{Memory, SeqNum};
use std::alloc::Global;

/// What the row of a pair is by, and what is known of its verdict.
#[derive(Clone, Copy)]
pub(crate) struct Judgement {
    pub(crate) pair: Pair,
    /// The span of the pair, where rows are in spans, or else the whole recording.
    pub(crate) span: Span,
    pub(crate) in_spans: bool,
    /// By the acts as they are sent in the span, where it is known.
    pub(crate) known: Option<Verdict>,
    /// Whether the reader is known to send no fragments.
    pub(crate) is_plain: bool,
}

/// What pairs are judged by, beside the recordings.
#[derive(Clone, Copy)]
pub(crate) struct Basis<'k> {
    /// Rows of a report by the same numbers: what they say need not be found again.
    pub(crate) known: &'k [Row],
    pub(crate) readers: &'k ReaderNotes,
    pub(crate) extent: Extent,
}

/// What the row of a pair is by: its span, where rows are in spans, or else the whole recording.
pub(crate) fn span_of(index: &Index<'_>, readers: &ReaderNotes, pair: Pair, extent: &Extent) -> Span
    ensures { (intake : intake.Intake) → index_spec.IsIndexBy intake index.now → reader_notes.AreNotes intake readers.now.notes → spans.IsExtent extent.now.in_spans extent.now.from pair intake result }
{
    if extent.in_spans {
        Span::of(index, readers, pair, extent.from)
    } else {
        Span::whole(index, pair, extent.from)
    }
}

/// The row of a pair, if it is among these. They are looked through fastest where they are in order.
fn row_among(known: &[Row], pair: Pair) -> Option<Row>
    ensures pair { IfSome result (λ row. row.pair ≡ pair) }
    ensures judged { (from : ℕ) (acts : List (List values.ActValue)) → All (report.IsJudgedFrom from acts) known.now → IfSome result (report.IsJudgedFrom from acts) }
{
    let place = known.partition_point(|row| row.pair < pair);
    if place < known.len() && known[place].pair == pair {
        return Some(known[place]);
    }
    None
}

/// The verdict on a row's pair in its span, where the row is by the whole recording and the numbers from `from` on. None where the span is
/// another.
fn verdict_in(span: &Span, row: Row, from: SeqNum) -> Option<Verdict>
    ensures { (acts : List (List values.ActValue)) → report.IsJudgedFrom from acts row → IfSome result (evidence.IsVerdictIn span.now row.pair acts) }
{
    if span.from == FirstAsked::of(from) && span.until.is_none() {
        Some(row.verdict)
    } else {
        None
    }
}

/// The verdict on a pair in its span, where one of these rows by the numbers from `from` on tells it.
fn known_in(span: &Span, known: &[Row], pair: Pair, from: SeqNum) -> Option<Verdict>
    ensures { (acts : List (List values.ActValue)) → All (report.IsJudgedFrom from acts) known.now → IfSome result (evidence.IsVerdictIn span.now pair acts) }
{
    match row_among(known, pair) {
        Some(row) => verdict_in(span, row, from),
        None => None,
    }
}

impl Judgement {
    /// What the row of a pair is by.
    pub(crate) fn of(index: &Index<'_>, pair: Pair, basis: &Basis<'_>) -> Judgement
        ensures pair { result.pair ≡ pair }
        ensures in_spans { result.in_spans ≡ basis.now.extent.in_spans }
        ensures extent { (intake : intake.Intake) → index_spec.IsIndexBy intake index.now → reader_notes.AreNotes intake basis.now.readers.now.notes
            → spans.IsExtent basis.now.extent.in_spans basis.now.extent.from pair intake result.span }
        ensures known { (acts : List (List values.ActValue)) → All (report.IsJudgedFrom basis.now.extent.from acts) basis.now.known.now → IfSome result.known (evidence.IsVerdictIn result.span pair acts) }
        ensures plain { result.is_plain ≡ true → (intake : intake.Intake) → reader_notes.AreNotes intake basis.now.readers.now.notes
            → hearing.have_fragments (filter (placed.is_from pair.reader) (placed.placed_in intake.acts)) ≡ false }
    {
        let extent = &basis.extent;
        let span = span_of(index, basis.readers, pair, extent);
        let known = known_in(&span, basis.known, pair, extent.from);
        Judgement {
            pair,
            span,
            in_spans: extent.in_spans,
            known,
            is_plain: basis.readers.is_plain(pair.reader),
        }
    }
}

/// The verdict by what a pair said as it is sent in its span, where it may be known. `Memory` is answered where what is kept of that cannot grow.
pub(crate) fn verdict_of(
    alloc: Global,
    exchange: &Exchange<'_, '_>,
    known: Option<Verdict>,
) -> Result<Verdict, Memory>
    ensures { (recording : List (List values.ActValue)) → said_spec.IsSaid exchange.now.pair recording exchange.now.said
        → IfSome known (run_verdict.IsVerdictFrom exchange.now.span.from (speech.speech_by exchange.now.pair.writer exchange.now.pair.reader recording))
        → IfOk result (run_verdict.IsVerdictFrom exchange.now.span.from (speech.speech_by exchange.now.pair.writer exchange.now.pair.reader recording)) }
{
    match known {
        Some(verdict) => Ok(verdict),
        None => exchange
            .said
            .judge_from(alloc, exchange.pair, exchange.span.from),
    }
}
