ghost use Rattle.std.specs.Prelude.{◌≡◌, ◌<◌, ◌≤◌, ◌++◌, ◌∷◌, [], length, map, All, IfOk, List, OnOk};
ghost use Rattle.rtps_discovery.specs.Directory as directory_spec;
ghost use Rattle.rtps_discovery.specs.declared.matching.Pair.{Pair as PairValue};
ghost use Rattle.rtps_audit.specs.Intake as intake;
ghost use Rattle.rtps_audit.specs.Report as report;
ghost use Rattle.rtps_evidence.specs.Explanation as explanation;
ghost use Rattle.rtps_evidence.specs.Kinds as kinds;
ghost use Rattle.rtps_evidence.specs.OtherSide as other_side;
ghost use Rattle.rtps_evidence.specs.ReaderNotes as reader_notes;
ghost use Rattle.rtps_evidence.specs.Together as together;

use crate::case::Case;
use crate::docket::Docket;
use crate::evidence::{Evidence, Found};
use crate::exchange::Extent;
use crate::judgement::{Basis, Judgement};
use crate::kinds::LostNumbers;
use crate::leaving_ear::LeavingEar;
use crate::other_side::Sides;
use crate::reader_notes::ReaderNotes;
use crate::times::Times;
use crate::together::{are_plain, heard_together};
use bumpalo::Bump;
use rtps_audit::{Counts, Index, Row, Watch};
use rtps_discovery::laws::one_map;
use rtps_discovery::{Directory, Pair};
use rtps_ids::{Guid, Memory};
use std::alloc::Global;

/// A writer and a reader, and why they have their verdict.
#[derive(Clone, Copy)]
pub struct Explanation<'a> {
    pub pair: Pair,
    /// The topic of both.
    pub topic: &'a [u8],
    /// The type of the writer.
    pub type_name: &'a [u8],
    pub evidence: Evidence<'a>,
    /// Which of the rows it is, from 0 on.
    pub place: usize,
}

/// The rows of a report, by writer and then by reader, each explained, and its counts. Names and payloads are parts of the
/// recording's datagrams.
#[derive(Drop)]
pub struct Explained<'a> {
    pub rows: Vec<Explanation<'a>>,
    /// Which numbers of each row are lost, or look so, in the order of the rows; none of a row by the whole recording.
    pub lost: Vec<LostNumbers>,
    pub counts: Counts,
}

/// Rows that are explained, and which numbers of each are lost, or look so.
#[derive(Drop)]
pub struct ExplainedRows<'a> {
    pub rows: Vec<Explanation<'a>>,
    pub lost: Vec<LostNumbers>,
}

/// The topic of a GUID's endpoint and its type; empty where it has none.
fn names_of<'a>(directory: &Directory<'a>, guid: Guid) -> (&'a [u8], &'a [u8])
    ensures topic { result.0.now ≡ explanation.topic_of (directory_spec.settled_at directory.now.endpoints guid) }
    ensures type_name { result.1.now ≡ explanation.type_of (directory_spec.settled_at directory.now.endpoints guid) }
{
    match directory.endpoint(guid) {
        Some(endpoint) => (endpoint.topic, endpoint.type_name),
        None => (&[], &[]),
    }
}

/// A pair, with its names and its evidence, in its place among the rows.
fn explanation_of<'a>(
    directory: &Directory<'a>,
    pair: Pair,
    evidence: Evidence<'a>,
    place: usize,
) -> Explanation<'a>
    ensures pair { result.pair ≡ pair }
    ensures evidence { result.evidence ≡ evidence.entry }
    ensures place { result.place ≡ place }
    ensures named { explanation.IsNamed directory.now.endpoints result }
{
    let (topic, type_name) = names_of(directory, pair.writer);
    Explanation {
        pair,
        topic,
        type_name,
        evidence,
        place,
    }
}

impl<'a> ExplainedRows<'a> {
    /// Adds the row of one pair more. After `Memory` they are of no use.
    fn add(&mut self, directory: &Directory<'a>, pair: Pair, found: Found<'a>) -> Result<(), Memory>
        ensures { OnOk result ((setting : together.Setting) (pairs : List PairValue) → directory_spec.IsMapOf (intake.acts_together setting.intake.announcing) directory.now
            → together.AreRows setting pairs self.old → together.IsFound setting pair found.entry → together.AreRows setting (pairs ++ pair ∷ []) self.new) }
    {
        // What an index took in announces one directory.
        one_map();
        let Found { evidence, lost } = found;
        self.rows
            .push(explanation_of(directory, pair, evidence, self.rows.len()))?;
        self.lost.push(lost)?;
        Ok(())
    }

    /// Adds the rows of pairs, each judged alone. After `Memory` they are of no use.
    fn add_alone(
        &mut self,
        alloc: Global,
        sides: &Sides<'_, 'a, '_, '_>,
        dockets: &[Docket],
    ) -> Result<(), Memory>
        ensures { OnOk result ((setting : together.Setting) (pairs : List PairValue) → together.AreSidesIn setting sides.now → All (together.IsDocket setting) dockets.now
            → together.AreRows setting pairs self.old → together.AreRows setting (pairs ++ map (λ docket. docket.judgement.pair) dockets.now) self.new) }
    {
        let directory = sides.index.directory();
        for docket in dockets {
            let found = Evidence::of_docket(alloc, sides, docket)?;
            self.add(directory, docket.judgement.pair, found)?;
        }
        Ok(())
    }

    /// Adds the rows of cases whose acts are all heard again. After `Memory` they are of no use.
    fn add_cases(
        &mut self,
        alloc: Global,
        directory: &Directory<'a>,
        cases: Vec<LeavingEar<Case<'_, 'a>>>,
    ) -> Result<(), Memory>
        ensures { OnOk result ((setting : together.Setting) (pairs : List PairValue) → directory_spec.IsMapOf (intake.acts_together setting.intake.announcing) directory.now
            → All (together.IsClosed setting) cases.entry.items
            → together.AreRows setting pairs self.old → together.AreRows setting (pairs ++ map together.case_pair cases.entry.items) self.new) }
    {
        for case in cases {
            let pair = case.ear.brief.exchange.pair;
            let found = case.ear.found(alloc)?;
            self.add(directory, pair, found)?;
        }
        Ok(())
    }

    /// Adds the rows of pairs: of one writer and without fragments together, and else each alone. After `Memory` they are of no use.
    fn add_dockets(
        &mut self,
        alloc: Global,
        sides: &Sides<'_, 'a, '_, '_>,
        dockets: &[Docket],
    ) -> Result<(), Memory>
        ensures { OnOk result ((setting : together.Setting) (pairs : List PairValue) → together.AreSidesIn setting sides.now → All (together.IsDocket setting) dockets.now
            → together.AreRows setting pairs self.old → together.AreRows setting (pairs ++ map (λ docket. docket.judgement.pair) dockets.now) self.new) }
    {
        if dockets.is_empty() {
            return Ok(());
        }
        let writer = dockets[0].judgement.pair.writer;
        if !are_plain(sides.index, writer, dockets) {
            return self.add_alone(alloc, sides, dockets);
        }
        let acts = sides.index.acts_of(writer);
        let cases = heard_together(alloc, sides, dockets, acts)?;
        self.add_cases(alloc, sides.index.directory(), cases)?;
        Ok(())
    }
}

/// The first place behind this one whose pair has another writer; the end, where none has.
fn writer_end(pairs: &[Pair], start: usize) -> usize
    requires { start < length pairs.now }
    ensures onward { start < result }
    ensures within { result ≤ length pairs.now }
{
    let writer = pairs[start].writer;
    for place in start + 1..pairs.len() {
        if pairs[place].writer != writer {
            return place;
        }
    }
    pairs.len()
}

/// The dockets of pairs.
fn dockets_of(
    alloc: Global,
    sides: &Sides<'_, '_, '_, '_>,
    basis: &Basis<'_>,
    pairs: &[Pair],
) -> Result<Vec<Docket>, Memory>
    ensures pairs { IfOk result (λ dockets. map (λ docket. docket.judgement.pair) dockets.items ≡ pairs.now) }
    ensures dockets { (setting : together.Setting) → together.AreSidesIn setting sides.now → setting.spans ≡ basis.now.extent.in_spans → setting.from ≡ basis.now.extent.from
        → reader_notes.AreNotes setting.intake basis.now.readers.now.notes → All (report.IsJudgedFrom setting.from setting.intake.acts) basis.now.known.now → IfOk result (λ dockets. All (together.IsDocket setting) dockets.items) }
{
    let mut dockets = Vec::with_capacity(alloc, pairs.len())?;
    for pair in pairs {
        let judgement = Judgement::of(sides.index, *pair, basis);
        let docket = Docket::of(alloc, sides, judgement)?;
        dockets.push(docket)?;
    }
    Ok(dockets)
}

/// Explains each of these pairs, of whatever writers and readers, in their order, by the numbers of an extent, as [`explain_index`] explains
/// those of its report. Pairs of one writer that stand together are judged together, and then it tells how far it is. `known` are rows by the
/// same numbers and the acts as they are sent: what they say of pairs without fragments need not be found again. They are looked through fastest
/// where they are in order. `Memory` is answered where what is kept cannot grow.
pub fn explain_pairs<'a, P: Watch>(
    alloc: Global,
    sides: &Sides<'_, 'a, '_, '_>,
    pairs: &[Pair],
    known: &[Row],
    extent: Extent,
    watch: &mut P,
) -> Result<ExplainedRows<'a>, Memory>
    ensures { (intake : intake.Intake) (beside : other_side.Beside) → other_side.AreSides intake beside sides.now
        → All (report.IsJudgedFrom extent.from intake.acts) known.now
        → IfOk result (λ found. explanation.AreExplained extent.in_spans extent.from beside intake pairs.now found.rows.items (map kinds.lost_value found.lost.items)) }
{
    let readers = ReaderNotes::of(alloc, sides.index, pairs)?;
    let basis = Basis {
        known,
        readers: &readers,
        extent,
    };
    let rows = Vec::with_capacity(alloc, pairs.len())?;
    let lost = Vec::with_capacity(alloc, pairs.len())?;
    let mut explained = ExplainedRows { rows, lost };
    let mut start = 0;
    'writers: while start < pairs.len() {
        let end = writer_end(pairs, start);
        let run = &pairs[start..end];
        let dockets = dockets_of(alloc, sides, &basis, run)?;
        explained.add_dockets(alloc, sides, &dockets)?;
        watch.explained(end, pairs.len());
        start = end;
    }
    Ok(explained)
}

/// The pairs of rows.
fn pairs_of(alloc: Global, rows: &[Row]) -> Result<Vec<Pair>, Memory>
    ensures { IfOk result (λ pairs. pairs.items ≡ map (λ row. row.pair) rows.now) }
{
    let mut pairs = Vec::with_capacity(alloc, rows.len())?;
    for row in rows {
        pairs.push(row.pair)?;
    }
    Ok(pairs)
}

/// Reports on what an index took in, and says of each row why it has its verdict. The report is by the extent's numbers; where rows
/// are in spans, the verdict of each and what it rests on are by the span of its pair, its outcomes are held against the other recording,
/// where there is one, and it has the longest wait. It tells how far it is. `Memory` is answered where what is kept cannot grow.
pub fn explain_index<'a, P: Watch>(
    alloc: Global,
    sides: &Sides<'_, 'a, '_, '_>,
    extent: Extent,
    watch: &mut P,
) -> Result<Explained<'a>, Memory>
    ensures { (intake : intake.Intake) (beside : other_side.Beside) → other_side.AreSides intake beside sides.now
        → IfOk result (explanation.IsExplainedBy extent.in_spans extent.from beside intake) }
{
    let report = sides.index.report_from(extent.from, watch)?;
    let pairs = pairs_of(alloc, &report.rows)?;
    let found = explain_pairs(alloc, sides, &pairs, &report.rows, extent, watch)?;
    Ok(Explained {
        rows: found.rows,
        lost: found.lost,
        counts: report.counts,
    })
}

/// The same of a recording alone, any datagrams in the order of sending, whose fragments are skipped.
pub fn explain_from<'a, P: Watch>(
    alloc: Global,
    arena: &'a Bump,
    recording: &[&'a [u8]],
    extent: Extent,
    watch: &mut P,
) -> Result<Explained<'a>, Memory>
    ensures { IfOk result (explanation.IsExplainedFrom extent.in_spans extent.from (map (λ datagram. datagram.now) recording.now)) }
{
    let index = Index::build(alloc, recording)?;
    let times = Times::none(alloc);
    let sides = Sides {
        index: &index,
        other: None,
        times: &times,
        arena,
    };
    let explained = explain_index(alloc, &sides, extent, watch)?;
    Ok(explained)
}
