ghost use Rattle.std.specs.Prelude.{ℕ, ◌≡◌, ◌-◌, ◌<◌, ◌^◌, ◌++◌, ◌∷◌, [], map, max, IfOk, List, OnOk};
ghost use Rattle.rtps_audit.specs.Delivery as delivery;
ghost use Rattle.rtps_audit.specs.Index as index_spec;
ghost use Rattle.rtps_audit.specs.Intake as intake;
ghost use Rattle.rtps_audit.specs.Placed as placed_spec;
ghost use Rattle.rtps_coverage.specs.Stretches as stretches;
ghost use Rattle.rtps_evidence.specs.Amount as amount;
ghost use Rattle.rtps_evidence.specs.OtherSide as other_side;
ghost use Rattle.rtps_evidence.specs.Recorded as recorded_spec;

use crate::amount::{AskedNumbers, push_number};
use crate::exchange::Extent;
use crate::first_numbers::FirstNumbers;
use crate::judgement::span_of;
use crate::other_side::{Arrivals, Sides};
use crate::reader_notes::ReaderNotes;
use crate::said_to::said_to;
use crate::way::Way;
use bumpalo::Bump;
use rtps_audit::{FirstAsked, Index, Placed, Said};
use rtps_coverage::Stretch;
use rtps_coverage::stretches::count_of;
use rtps_discovery::Pair;
use rtps_fragments::heard_said;
use rtps_ids::{Guid, Memory, SeqNum};
use std::alloc::Global;

/// Of a pair of best effort: how many numbers its writer sent, to whomever, and of how many of them the recording has a payload
/// that its reader hears.
#[derive(Clone, Copy)]
pub struct Recorded {
    pub numbers: u64,
    pub recorded: u64,
}

/// Of a pair of best effort that is held against another recording: what arrived of the same numbers.
#[derive(Clone, Copy)]
pub struct ArrivedNumbers {
    /// Of how many of them the other recording has a payload that the reader hears.
    pub arrived: u64,
    /// The first of those of which it has none.
    pub lacking: FirstNumbers,
}

/// What another recording tells of a pair of best effort.
#[derive(Clone, Copy)]
pub struct Arrived {
    /// Which way round the two recordings are for the pair; None where there is no other one, or it has no act whose source is the
    /// reader's participant and whose destination is the writer's.
    pub way: Option<Way>,
    /// What arrived of the numbers; None where the pair is not held against the other recording.
    pub numbers: Option<ArrivedNumbers>,
}

/// The number of which the writer sends a payload, or a part of one, by an act, to whomever; 0 where it sends none.
fn number_sent(placed: &Placed<'_>, writer: Guid) -> u64
    ensures value { result ≡ recorded_spec.number_sent writer (placed_spec.placed_value placed.now) }
    ensures in_range { result < 2 ^ 63 }
{
    if placed.act.spoken_by(writer) {
        placed.act.said().brought.unwrap_or(0)
    } else {
        0
    }
}

/// The greatest of these numbers, or 0, with one act more.
pub(crate) fn greatest_with(greatest: u64, placed: &Placed<'_>, writer: Guid) -> u64
    ensures value { (acts : List placed_spec.PlacedValue) → greatest ≡ delivery.greatest (map (recorded_spec.number_sent writer) acts)
        → result ≡ delivery.greatest (map (recorded_spec.number_sent writer) (acts ++ placed_spec.placed_value placed.now ∷ [])) }
    ensures in_range { greatest < 2 ^ 63 → result < 2 ^ 63 }
{
    greatest.max(number_sent(placed, writer))
}

/// The greatest of these numbers, or 0.
fn greatest_sent(acts: &[Placed<'_>], writer: Guid) -> u64
    ensures value { result ≡ delivery.greatest (map (recorded_spec.number_sent writer) (map placed_spec.placed_value acts.now)) }
    ensures in_range { result < 2 ^ 63 }
{
    let mut greatest = 0u64;
    for placed in acts {
        greatest = greatest_with(greatest, placed, writer);
    }
    greatest
}

/// Adds the number of which the pair's reader hears a payload from its writer by an act. After `Memory` the numbers are of no use.
pub(crate) fn note_sent(
    sent: &mut Vec<Stretch>,
    placed: &Placed<'_>,
    pair: Pair,
) -> Result<(), Memory>
    ensures { OnOk result ((acts : List placed_spec.PlacedValue) (n : ℕ) → stretches.stretches_have sent.old.items n ≡ amount.is_sent pair.writer pair.reader acts n
        → stretches.stretches_have sent.new.items n ≡ amount.is_sent pair.writer pair.reader (acts ++ placed_spec.placed_value placed.now ∷ []) n) }
{
    push_number(sent, said_to(placed, pair).told)
}

/// The numbers of which the pair's reader hears a payload from its writer by these acts.
pub(crate) fn sent_among(
    alloc: Global,
    acts: &[Placed<'_>],
    pair: Pair,
) -> Result<Vec<Stretch>, Memory>
    ensures { IfOk result (λ sent. (n : ℕ) → stretches.stretches_have sent.items n ≡ amount.is_sent pair.writer pair.reader (map placed_spec.placed_value acts.now) n) }
{
    let mut sent = Vec::new(alloc);
    for placed in acts {
        note_sent(&mut sent, placed, pair)?;
    }
    Ok(sent)
}

/// What a recording has of a writer and a reader, any two GUIDs, in their span where rows are in spans, from the first number on
/// that a row of the two would be by. `Memory` is answered where what is kept of that cannot grow.
pub fn recorded_of(
    alloc: Global,
    index: &Index<'_>,
    pair: Pair,
    extent: Extent,
) -> Result<Recorded, Memory>
    ensures { (intake : intake.Intake) → index_spec.IsIndexBy intake index.now → IfOk result (recorded_spec.IsRecordedBy extent.in_spans extent.from pair intake) }
{
    let readers = ReaderNotes::none(alloc);
    let span = span_of(index, &readers, pair, &extent);
    let sent = Said::until(index, pair, span.until);
    let from = span.from.get();
    let behind = greatest_sent(sent.acts, pair.writer) + 1;
    let arena = Bump::new(alloc);
    let heard = heard_said(alloc, &arena, sent, pair)?;
    let mut told = sent_among(alloc, heard.acts, pair)?;
    let recorded = count_of(&mut told, from, behind.max(from))?;
    Ok(Recorded {
        numbers: behind.saturating_sub(from),
        recorded,
    })
}

/// The numbers from `from` on, up to the greatest that the writer sends by these acts, to whomever.
fn sent_from(from: FirstAsked, acts: &[Placed<'_>], writer: Guid) -> AskedNumbers
    ensures from { result.from ≡ from }
    ensures last { result.last ≡ max (delivery.greatest (map (recorded_spec.number_sent writer) (map placed_spec.placed_value acts.now))) (from - 1) }
{
    let before = from.get() - 1;
    let last = greatest_sent(acts, writer).max(before);
    AskedNumbers { from, last }
}

/// What arrived of the same numbers by the other recording, where the pair is held against it, and which way round the two are.
pub fn arrived_of(
    alloc: Global,
    sides: &Sides<'_, '_, '_, '_>,
    pair: Pair,
    extent: Extent,
) -> Result<Arrived, Memory>
    ensures { (intake : intake.Intake) (beside : other_side.Beside) → other_side.AreSides intake beside sides.now
        → IfOk result (recorded_spec.IsArrivedBy extent.in_spans extent.from beside.other pair intake) }
{
    let readers = ReaderNotes::none(alloc);
    let span = span_of(sides.index, &readers, pair, &extent);
    let mut arrivals = Arrivals::of(alloc, sides, pair)?;
    let way = arrivals.way;
    if !arrivals.is_held {
        return Ok(Arrived { way, numbers: None });
    }
    let said = Said::until(sides.index, pair, span.until);
    let asked = sent_from(span.from, said.acts, pair.writer);
    let from = asked.from.get();
    let arrived = count_of(&mut arrivals.numbers, from, asked.last + 1)?;
    let lacking = FirstNumbers::outside(alloc, &mut arrivals.numbers, &asked)?;
    let numbers = Some(ArrivedNumbers { arrived, lacking });
    Ok(Arrived { way, numbers })
}
