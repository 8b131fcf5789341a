ghost use Rattle.std.specs.Prelude.{ℕ, true, ◌≡◌, ◌≤◌, ◌&&◌, ◌++◌, ◌∷◌, [], map, not, filter, IfOk, OnOk, List, Option};
ghost use Rattle.std.specs.BTreeMap.{get};
ghost use Rattle.std.specs.List.{list_any};
ghost use Rattle.std.specs.Ordering.{nat_cmp};
ghost use Rattle.rtps_receiver.specs.Values as values;
ghost use Rattle.rtps_audit.specs.Placed as placed_spec;
ghost use Rattle.rtps_audit.specs.Said as said_spec;
ghost use Rattle.rtps_coverage.specs.Rising as rising;
ghost use Rattle.rtps_coverage.specs.Stretches as stretches;
ghost use Rattle.rtps_evidence.specs.LastAsks as last_asks_spec;
ghost use Rattle.rtps_evidence.specs.LostAnswers as lost_answers;
ghost use Rattle.rtps_evidence.specs.Missed as missed_spec;
ghost use Rattle.rtps_evidence.specs.declared.counted_answers.CountedAnswer.{CountedAnswer};
ghost use Rattle.rtps_evidence.specs.declared.last_asks.LastAsk.{LastAsk as LastAskValue};

use crate::amount::AskedNumbers;
use crate::exchange::Exchange;
use crate::kinds::without;
use crate::last_asks::{LastAsk, last_asks};
use crate::location::{is_behind, location_of};
use crate::lost_answers::LostAnswers;
use crate::questioned::push_if;
use crate::said_to::said_to;
use rtps_audit::{Placed, Said};
use rtps_coverage::Stretch;
use rtps_discovery::Pair;
use rtps_ids::Memory;
use std::alloc::Global;
use std::collections::BTreeMap;

/// Which numbers that a reader asks for a lost answer excuses, as far as the acts of its writer have come.
#[derive(Drop)]
struct Resends {
    /// The last answers that ask for numbers, of those numbers that are not sent again behind it so far.
    asks: BTreeMap<u64, LastAsk>,
    answers: LostAnswers,
    excused: Vec<Stretch>,
}

/// Whether an act of the pair's reader answers another writer.
fn is_to_another(placed: &Placed<'_>, pair: Pair) -> bool
    ensures { placed_spec.is_from pair.reader (placed_spec.placed_value placed.now) ≡ true → result ≡ lost_answers.answers_another pair.writer pair.reader (placed_spec.placed_value placed.now) }
{
    match placed.act.answered() {
        Some(writer) => writer != pair.writer,
        None => false,
    }
}

/// Whether one of the acts of the pair's reader does.
fn answers_another(acts: &[Placed<'_>], pair: Pair) -> bool
    ensures { (placed : List placed_spec.PlacedValue) → map placed_spec.placed_value acts.now ≡ filter (placed_spec.is_from pair.reader) placed
        → result ≡ list_any (lost_answers.answers_another pair.writer pair.reader) placed }
{
    for placed in acts {
        if is_to_another(placed, pair) {
            return true;
        }
    }
    false
}

/// The ask for a number, where an act stands behind it.
fn ask_before(asks: &BTreeMap<u64, LastAsk>, number: u64, placed: &Placed<'_>) -> Option<LastAsk>
    ensures { result ≡ last_asks_spec.asked_before (placed_spec.placed_value placed.now) (get nat_cmp asks.now number) }
{
    let ask = asks.get(&number)?;
    if is_behind(Some(ask.place), placed) {
        Some(*ask)
    } else {
        None
    }
}

impl Resends {
    /// Is told an act of the writer. After `Memory` they are of no use.
    fn hear(&mut self, placed: &Placed<'_>, pair: Pair) -> Result<(), Memory>
        ensures { OnOk result ((counted : List CountedAnswer) (asks : ℕ → Option LastAskValue) (acts : List placed_spec.PlacedValue)
            → last_asks_spec.AreResends pair counted asks acts self.old → last_asks_spec.AreResends pair counted asks (acts ++ placed_spec.placed_value placed.now ∷ []) self.new) }
    {
        let Some(number) = said_to(placed, pair).brought else {
            return Ok(());
        };
        let Some(ask) = ask_before(&self.asks, number, placed) else {
            return Ok(());
        };
        self.asks.remove(&number);
        let lacks = self.answers.lacks_around(location_of(placed));
        let hi = number + 1;
        push_if(
            &mut self.excused,
            lacks & (number < ask.below),
            Stretch { lo: number, hi },
        )
    }
}

/// Of these numbers: those that a lost answer excuses. Other numbers are not among them.
fn excused_of(
    alloc: Global,
    said: &Said<'_, '_>,
    pair: Pair,
    numbers: &[Stretch],
) -> Result<Vec<Stretch>, Memory>
    requires { rising.AreRising numbers.now }
    ensures { (recording : List (List values.ActValue)) → said_spec.IsSaid pair recording said.now
        → IfOk result (λ excused. (n : ℕ) → stretches.stretches_have excused.items n
        ≡ (stretches.stretches_have numbers.now n && missed_spec.is_excused pair.writer pair.reader (placed_spec.placed_in recording) n)) }
{
    let asks = said.asks;
    if answers_another(asks, pair) {
        return Ok(Vec::new(alloc));
    }
    let mut resends = Resends {
        asks: last_asks(alloc, asks, pair, numbers)?,
        answers: LostAnswers::of(alloc, asks, pair)?,
        excused: Vec::new(alloc),
    };
    for placed in said.acts {
        resends.hear(placed, pair)?;
    }
    Ok(resends.excused)
}

/// Of the numbers that are asked for: those of these that no lost answer excuses. Other numbers may be among them.
pub(crate) fn missed_of(
    alloc: Global,
    exchange: &Exchange<'_, '_>,
    unmet: &[Stretch],
    asked: &AskedNumbers,
) -> Result<Vec<Stretch>, Memory>
    requires { rising.AreRising unmet.now }
    ensures { (recording : List (List values.ActValue)) → said_spec.IsSaid exchange.now.pair recording exchange.now.said
        → IfOk result (λ missed. (n : ℕ) → asked.now.from ≤ n → n ≤ asked.now.last → stretches.stretches_have missed.items n
        ≡ (stretches.stretches_have unmet.now n && not (missed_spec.is_excused exchange.now.pair.writer exchange.now.pair.reader (placed_spec.placed_in recording) n))) }
{
    if unmet.is_empty() {
        return Ok(Vec::new(alloc));
    }
    let excused = excused_of(alloc, &exchange.said, exchange.pair, unmet)?;
    let missed = without(alloc, unmet, &excused, asked)?;
    Ok(missed)
}
