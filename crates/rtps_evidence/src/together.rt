ghost use Rattle.std.specs.Prelude.{◌≡◌, true, filter, map, All, IfOk, List};
ghost use Rattle.rtps_ids.specs.declared.identity.Guid.{Guid as GuidValue};
ghost use Rattle.rtps_audit.specs.Index as index_spec;
ghost use Rattle.rtps_audit.specs.Placed as placed_spec;
ghost use Rattle.rtps_evidence.specs.Together as together;

use crate::case::Case;
use crate::docket::Docket;
use crate::ear::tell_all;
use crate::hearer::Hearer;
use crate::judgement::verdict_of;
use crate::leaving_ear::LeavingEar;
use crate::other_side::Sides;
use rtps_audit::{Index, Placed};
use rtps_fragments::have_fragments;
use rtps_fragments::laws::{pairs_are_heard_without_fragments, verdicts_stay_without_fragments};
use rtps_ids::{Guid, Memory};
use std::alloc::Global;

/// Whether a docket is of a pair of a writer, and its reader is known to send no fragments.
fn is_plain(writer: Guid, docket: &Docket) -> bool
    ensures writer { result ≡ true → docket.now.judgement.pair.writer ≡ writer }
    ensures plain { result ≡ true → docket.now.judgement.is_plain ≡ true }
{
    docket.judgement.is_plain && docket.judgement.pair.writer == writer
}

/// Whether all these are so, and the writer sends no fragments.
pub(crate) fn are_plain(index: &Index<'_>, writer: Guid, dockets: &[Docket]) -> bool
    ensures sends { result ≡ true → (setting : together.Setting) → index_spec.IsIndexBy setting.intake index.now → together.is_plain setting writer }
    ensures writer { result ≡ true → All (λ docket. docket.judgement.pair.writer ≡ writer) dockets.now }
    ensures plain { result ≡ true → (setting : together.Setting) → All (together.IsDocket setting) dockets.now
        → All (λ docket. together.is_plain setting docket.judgement.pair.reader) dockets.now }
{
    if have_fragments(index.acts_of(writer)) {
        return false;
    }
    for docket in dockets {
        if !is_plain(writer, docket) {
            return false;
        }
    }
    true
}

/// The reader of a pair, where neither of the two sends fragments. It heard nothing yet.
fn reader_of<'s, 'a>(
    alloc: Global,
    sides: &Sides<'s, 'a, '_, '_>,
    docket: &'s Docket,
) -> Result<LeavingEar<Hearer<'s, 'a>>, Memory>
    ensures pair { IfOk result (λ leaving. together.reader_pair leaving ≡ docket.now.judgement.pair) }
    ensures ready { (setting : together.Setting) → together.AreSidesIn setting sides.now → together.IsDocket setting docket.now
        → together.is_plain setting docket.now.judgement.pair.writer → together.is_plain setting docket.now.judgement.pair.reader
        → IfOk result (together.IsReady setting docket.now.judgement.pair.writer) }
{
    // What is sent without fragments is heard as it is, and judged alike.
    pairs_are_heard_without_fragments();
    verdicts_stay_without_fragments();
    let exchange = docket.exchange(sides);
    let verdict = verdict_of(alloc, &exchange, docket.judgement.known)?;
    let ear = Hearer::new(alloc, &exchange, verdict)?;
    Ok(LeavingEar {
        until: docket.judgement.span.until,
        ear,
    })
}

/// Those of pairs of a writer.
fn readers_of<'s, 'a>(
    alloc: Global,
    sides: &Sides<'s, 'a, '_, '_>,
    dockets: &'s [Docket],
) -> Result<Vec<LeavingEar<Hearer<'s, 'a>>>, Memory>
    ensures pairs { IfOk result (λ readers. map together.reader_pair readers.items ≡ map (λ docket. docket.judgement.pair) dockets.now) }
    ensures ready { (setting : together.Setting) (writer : GuidValue) → together.AreSidesIn setting sides.now → All (together.IsDocket setting) dockets.now
        → All (λ docket. docket.judgement.pair.writer ≡ writer) dockets.now → together.is_plain setting writer
        → All (λ docket. together.is_plain setting docket.judgement.pair.reader) dockets.now
        → IfOk result (λ readers. All (together.IsReady setting writer) readers.items) }
{
    let mut readers = Vec::with_capacity(alloc, dockets.len())?;
    for docket in dockets {
        let reader = reader_of(alloc, sides, docket)?;
        readers.push(reader)?;
    }
    Ok(readers)
}

/// A case of a reader that heard all that it is judged by.
fn case_of<'s, 'a>(
    alloc: Global,
    reader: LeavingEar<Hearer<'s, 'a>>,
) -> Result<LeavingEar<Case<'s, 'a>>, Memory>
    ensures pair { IfOk result (λ case. together.case_pair case ≡ together.reader_pair reader.entry) }
    ensures opened { (setting : together.Setting) (writer : GuidValue) → together.IsTold setting writer reader.entry → IfOk result (together.IsOpened setting writer) }
{
    let LeavingEar { until, ear } = reader;
    let ear = Case::of(alloc, ear)?;
    Ok(LeavingEar { until, ear })
}

/// Those of readers.
fn cases_of<'s, 'a>(
    alloc: Global,
    readers: Vec<LeavingEar<Hearer<'s, 'a>>>,
) -> Result<Vec<LeavingEar<Case<'s, 'a>>>, Memory>
    ensures pairs { IfOk result (λ cases. map together.case_pair cases.items ≡ map together.reader_pair readers.entry.items) }
    ensures opened { (setting : together.Setting) (writer : GuidValue) → All (together.IsTold setting writer) readers.entry.items
        → IfOk result (λ cases. All (together.IsOpened setting writer) cases.items) }
{
    let mut cases = Vec::with_capacity(alloc, readers.len())?;
    for reader in readers {
        let case = case_of(alloc, reader)?;
        cases.push(case)?;
    }
    Ok(cases)
}

/// The cases of pairs of one writer, where none of them sends fragments, and these are the acts of the writer. The acts are gone through once for
/// all readers, and once more for what each of them lacks.
pub(crate) fn heard_together<'s, 'a>(
    alloc: Global,
    sides: &Sides<'s, 'a, '_, '_>,
    dockets: &'s [Docket],
    acts: &[Placed<'_>],
) -> Result<Vec<LeavingEar<Case<'s, 'a>>>, Memory>
    ensures pairs { IfOk result (λ cases. map together.case_pair cases.items ≡ map (λ docket. docket.judgement.pair) dockets.now) }
    ensures closed { (setting : together.Setting) (writer : GuidValue) → together.AreSidesIn setting sides.now → All (together.IsDocket setting) dockets.now
        → map placed_spec.placed_value acts.now ≡ filter (placed_spec.is_from writer) (placed_spec.placed_in setting.intake.acts)
        → All (λ docket. docket.judgement.pair.writer ≡ writer) dockets.now → together.is_plain setting writer
        → All (λ docket. together.is_plain setting docket.judgement.pair.reader) dockets.now
        → IfOk result (λ cases. All (together.IsClosed setting) cases.items) }
{
    let mut readers = readers_of(alloc, sides, dockets)?;
    tell_all(&mut readers, acts)?;
    let mut cases = cases_of(alloc, readers)?;
    tell_all(&mut cases, acts)?;
    Ok(cases)
}
