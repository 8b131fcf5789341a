ghost use Rattle.std.specs.Prelude.{◌≡◌, ◌≤◌, length, map, IfOk};
ghost use Rattle.std.specs.List.{AllWithin};
ghost use Rattle.rtps_audit.specs.Delivered as delivered;
ghost use Rattle.rtps_audit.specs.Index as index_spec;
ghost use Rattle.rtps_audit.specs.Intake as intake;
ghost use Rattle.rtps_audit.specs.Account as account;

use crate::index::Index;
use crate::judging::rows_of_writer;
use crate::tallies::Tallies;
use crate::verdict::Verdict;
use rtps_discovery::Pair;
use rtps_ids::{Guid, Memory, SeqNum};
use std::alloc::Global;

/// The verdict on a pair.
#[derive(Clone, Copy, PartialEq, Eq, Debug)]
pub struct Row {
    pub pair: Pair,
    pub verdict: Verdict,
}

/// What was counted of a recording. own: what a verdict cannot speak of is counted, so that it is not overlooked.
#[derive(Clone, Copy, PartialEq, Eq, Debug)]
pub struct Counts {
    /// All datagrams.
    pub datagrams: u64,
    /// Datagrams that are refused at any place.
    pub refused: u64,
    /// Submessages that are skipped and are no fragments.
    pub skipped: u128,
    /// Where fragments are skipped, all NACK_FRAG, HEARTBEAT_FRAG and DATA_FRAG. Where samples are put together, the
    /// DATA_FRAG that have no fragments that can be used, and those of a number of which no sample is whole.
    pub fragments: u128,
    /// ACKNACKs for everyone, which answer nobody.
    pub undirected: u128,
    /// GUIDs whose announcements disagree, which are in no pair.
    pub unsettled: u64,
}

/// What an audit says of a recording. own: a row for each pair of which discovery says that it is reliable.
#[derive(Drop)]
pub struct Report {
    /// By writer and then by reader.
    pub rows: Vec<Row>,
    pub counts: Counts,
}

/// Is told how far an audit is, to tell a person. Nothing that an audit answers depends on it.
pub trait Watch {
    /// So many of all pairs are judged.
    fn judged(&mut self, done: usize, all: usize);

    /// Of so many of all pairs it is known what their verdict rests on.
    fn explained(&mut self, done: usize, all: usize);
}

/// Tells nobody.
#[derive(Drop)]
pub struct Unwatched;

impl Watch for Unwatched {
    fn judged(&mut self, _done: usize, _all: usize) {}

    fn explained(&mut self, _done: usize, _all: usize) {}
}

/// The first place from this one on whose pair is of another writer; the end, where none is.
fn writer_end(pairs: &[Pair], start: usize, writer: Guid) -> usize
    requires { start ≤ length pairs.now }
    ensures onward { start ≤ result }
    ensures within { result ≤ length pairs.now }
    ensures of_writer { AllWithin (λ pair. pair.writer ≡ writer) pairs.now start result }
{
    for place in start..pairs.len() {
        let pair = pairs[place];
        if pair.writer != writer {
            return place;
        }
    }
    pairs.len()
}

/// Judges each of these pairs by the numbers from `from` on, those of one writer at once, and tells how far it is.
fn rows_of<P: Watch>(
    index: &Index<'_>,
    pairs: &[Pair],
    from: SeqNum,
    watch: &mut P,
) -> Result<Vec<Row>, Memory>
    ensures { (intake : intake.Intake) → index_spec.IsIndexBy intake index.now → IfOk result (λ rows. account.AreRowsOf from intake.acts pairs.now rows.items) }
{
    let mut rows = Vec::new(index.alloc);
    let mut start = 0;
    'writers: while start < pairs.len() {
        let first = pairs[start];
        let end = writer_end(pairs, start + 1, first.writer);
        let more = rows_of_writer(index, first.writer, &pairs[start..end], from)?;
        rows.extend_from_slice(&more)?;
        start = end;
        watch.judged(start, pairs.len());
    }
    Ok(rows)
}

impl<'a> Index<'a> {
    ghost use Rattle.std.specs.Prelude.{IfOk};

    /// The report on what was taken in by the numbers from `from` on, as [`audit_from`] answers it. It tells how far it is.
    pub fn report_from<P: Watch>(&self, from: SeqNum, watch: &mut P) -> Result<Report, Memory>
        ensures { (intake : intake.Intake) → index_spec.IsIndexBy intake self.now → IfOk result (delivered.IsExactReportBy from intake) }
    {
        let pairs = self.directory.pairs()?;
        let rows = rows_of(self, &pairs, from, watch)?;
        Ok(Report {
            rows,
            counts: self.tallies.counts(self.directory.unsettled()),
        })
    }
}

impl Tallies {
    /// The counts by these sums, where so many GUIDs are unsettled.
    pub fn counts(&self, unsettled: usize) -> Counts
        ensures { result ≡ index_spec.counts_with self.now unsettled }
    {
        Counts {
            datagrams: self.datagrams,
            refused: self.refused,
            skipped: self.skipped,
            fragments: self.fragments,
            undirected: self.undirected,
            unsettled: unsettled as u64,
        }
    }
}

/// Audits a recording as [`audit_from`] does, and tells how far it is.
pub fn audit_watched<P: Watch>(
    alloc: Global,
    recording: &[&[u8]],
    from: SeqNum,
    watch: &mut P,
) -> Result<Report, Memory>
    ensures { IfOk result (delivered.IsExactReportFrom from (map (λ datagram. datagram.now) recording.now)) }
{
    let index = Index::build(alloc, recording)?;
    let report = index.report_from(from, watch)?;
    Ok(report)
}

/// Audits a recording, any datagrams, well formed or not, by the numbers from `from` on.
///
/// It is [`audit`], but that smaller numbers are not asked for, whatever is said of them. A pair is complete exactly where
/// a run exists and every run ends with each number from `from` on that the writer announced received with its one recorded
/// payload or told gone. Of the premises, the second speaks of numbers from `from` on alone: the reader acknowledges one
/// of them only when it has a word for it.
pub fn audit_from(alloc: Global, recording: &[&[u8]], from: SeqNum) -> Result<Report, Memory>
    ensures { IfOk result (delivered.IsExactReportFrom from (map (λ datagram. datagram.now) recording.now)) }
{
    audit_watched(alloc, recording, from, &mut Unwatched)
}

/// Audits a recording, any datagrams, well formed or not.
///
/// It reports exactly the matched reliable pairs, and reports a pair complete exactly where a run exists and every run
/// of a conforming reader over a losing, repeating, reordering network, whose sent datagrams are exactly the
/// recording, ends with each number announced by the writer received with its one recorded payload or told gone by
/// GAP or HEARTBEAT. The other verdicts are exact too, each with its numbers.
///
/// What a row says of a test rests on these premises:
/// - the recording holds all datagrams that were sent, no others, in the order of sending;
/// - the reader acknowledges a number only when it has a word for it: its payload, or that it will not come;
/// - it learns of numbers by DATA, GAP and HEARTBEAT alone;
/// - memory was found: the answer is `Ok`.
///
/// Nothing is assumed of the writer.
pub fn audit(alloc: Global, recording: &[&[u8]]) -> Result<Report, Memory>
    ensures { IfOk result (delivered.IsExactReport (map (λ datagram. datagram.now) recording.now)) }
{
    audit_from(alloc, recording, SeqNum::first())
}
