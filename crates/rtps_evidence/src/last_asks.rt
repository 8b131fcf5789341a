ghost use Rattle.std.specs.Prelude.{ℕ, ◌≡◌, ◌==◌, ◌≤◌, ◌&&◌, nat_le, nat_lt, if◌then◌else◌, map, IfOk, OnOk, Some, None};
ghost use Rattle.std.specs.BTreeMap.{get};
ghost use Rattle.std.specs.Option.{option_or};
ghost use Rattle.std.specs.Ordering.{nat_cmp};
ghost use Rattle.rtps_receiver.specs.Said as said;
ghost use Rattle.rtps_audit.specs.Placed as placed_spec;
ghost use Rattle.rtps_coverage.specs.Rising as rising;
ghost use Rattle.rtps_coverage.specs.Stretches as stretches;
ghost use Rattle.rtps_evidence.specs.LastAsks as last_asks;
ghost use Rattle.rtps_evidence.specs.Locations as locations;
ghost use Rattle.rtps_evidence.specs.LostAnswers as lost_answers;

use crate::location::{Location, location_of};
use rtps_audit::Placed;
use rtps_coverage::Stretch;
use rtps_coverage::rising::end_at;
use rtps_discovery::Pair;
use rtps_ids::Memory;
use rtps_receiver::{ActBody, Numbers, SpokenBody};
use std::alloc::Global;
use std::collections::BTreeMap;
use std::ops::Range;

/// The last answer by which a reader asks for a number.
#[derive(Clone, Copy, Drop)]
pub(crate) struct LastAsk {
    pub(crate) place: Location,
    /// The answers behind it claim the numbers below this one.
    pub(crate) below: u64,
}

/// Whose asks are looked for, and for which numbers.
#[derive(Clone, Copy)]
struct Wanted<'n> {
    pair: Pair,
    numbers: &'n [Stretch],
}

/// The base by which an act of the pair's reader answers its writer, or 0.
fn base_of(placed: &Placed<'_>, pair: Pair) -> u64
    ensures { result ≡ locations.base_said pair.writer pair.reader (placed_spec.placed_value placed.now) }
{
    if !placed.act.answers(pair.reader, pair.writer) {
        return 0;
    }
    match &placed.act.body {
        SpokenBody::Act(ActBody::AckNack(ack_nack)) => ack_nack.set.base().cast_unsigned(),
        SpokenBody::Act(ActBody::Data(_)) => 0,
        SpokenBody::Act(ActBody::Heartbeat(_)) => 0,
        SpokenBody::Act(ActBody::Gap(_)) => 0,
        SpokenBody::DataFrag(_) => 0,
        SpokenBody::NackFrag(_) => 0,
    }
}

/// Notes who asks for a number, where it is among these numbers and nobody is noted. After `Memory` the asks are of no use.
fn note_number(
    asks: &mut BTreeMap<u64, LastAsk>,
    number: u64,
    ask: LastAsk,
    numbers: &[Stretch],
) -> Result<(), Memory>
    requires { rising.AreRising numbers.now }
    ensures { OnOk result ((n : ℕ) → get nat_cmp asks.new n
        ≡ option_or (get nat_cmp asks.old n) (if (number == n) && stretches.stretches_have numbers.now n then Some ask else None)) }
{
    if end_at(numbers, number) <= number {
        return Ok(());
    }
    if asks.contains_key(&number) {
        return Ok(());
    }
    asks.insert(number, ask)?;
    Ok(())
}

/// The same of the numbers of a range.
fn note_range(
    asks: &mut BTreeMap<u64, LastAsk>,
    range: &Range<u64>,
    ask: LastAsk,
    numbers: &[Stretch],
) -> Result<(), Memory>
    requires rising { rising.AreRising numbers.now }
    requires ordered { range.now.start ≤ range.now.end }
    ensures { OnOk result ((n : ℕ) → get nat_cmp asks.new n
        ≡ option_or (get nat_cmp asks.old n) (if (nat_le range.now.start n && nat_lt n range.now.end) && stretches.stretches_have numbers.now n then Some ask else None)) }
{
    for number in range.start..range.end {
        note_number(asks, number, ask, numbers)?;
    }
    Ok(())
}

/// The same of numbers that an act names.
fn note_numbers(
    asks: &mut BTreeMap<u64, LastAsk>,
    named: &Numbers<'_>,
    ask: LastAsk,
    numbers: &[Stretch],
) -> Result<(), Memory>
    requires { rising.AreRising numbers.now }
    ensures { OnOk result ((n : ℕ) → get nat_cmp asks.new n
        ≡ option_or (get nat_cmp asks.old n) (if said.numbers_have named.now n && stretches.stretches_have numbers.now n then Some ask else None)) }
{
    let mut at = 0;
    'apart: while let Some(range) = named.range_from(at) {
        note_range(asks, &range, ask, numbers)?;
        at = range.end;
    }
    Ok(())
}

/// The same of the numbers that an act of the pair's reader asks for, if it answers its writer. After `Memory` the asks are of no use.
fn note_act(
    asks: &mut BTreeMap<u64, LastAsk>,
    placed: &Placed<'_>,
    below: u64,
    wanted: &Wanted<'_>,
) -> Result<(), Memory>
    requires { rising.AreRising wanted.now.numbers.now }
    ensures { OnOk result ((n : ℕ) → get nat_cmp asks.new n
        ≡ option_or (get nat_cmp asks.old n) (if lost_answers.lacks_by_answer wanted.now.pair.writer wanted.now.pair.reader n (placed_spec.placed_value placed.now) && stretches.stretches_have wanted.now.numbers.now n
        then Some (last_asks.ask_at below (placed_spec.placed_value placed.now)) else None)) }
{
    if !placed.act.answers(wanted.pair.reader, wanted.pair.writer) {
        return Ok(());
    }
    let ask = LastAsk {
        place: location_of(placed),
        below,
    };
    let said = placed.act.said();
    note_numbers(asks, &said.lacked, ask, wanted.numbers)
}

/// Of each of these numbers the last of these acts of the pair's reader that answers its writer and asks for it.
pub(crate) fn last_asks(
    alloc: Global,
    acts: &[Placed<'_>],
    pair: Pair,
    numbers: &[Stretch],
) -> Result<BTreeMap<u64, LastAsk>, Memory>
    requires { rising.AreRising numbers.now }
    ensures { IfOk result (λ asks. (n : ℕ) → get nat_cmp asks n ≡ (if stretches.stretches_have numbers.now n then last_asks.last_ask pair (map placed_spec.placed_value acts.now) n else None)) }
{
    let wanted = Wanted { pair, numbers };
    let mut asks = BTreeMap::new(alloc);
    let mut below = 0u64;
    for last in 0..acts.len() {
        let placed = &acts[acts.len() - 1 - last];
        note_act(&mut asks, placed, below, &wanted)?;
        below = below.max(base_of(placed, pair));
    }
    Ok(asks)
}
