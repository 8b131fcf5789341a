ghost use Rattle.std.specs.Prelude.{ℕ, ◌≡◌, ◌+◌, ◌-◌, ◌<◌, ◌≤◌, ◌&&◌, ◌||◌, ◌^◌, nat_le, nat_lt, IfOk, IfSome, List, OnOk};
ghost use Rattle.rtps_coverage.specs.Counts as counts;
ghost use Rattle.rtps_receiver.specs.Said as said;
ghost use Rattle.rtps_audit.specs.Placed as placed_spec;
ghost use Rattle.rtps_coverage.specs.Stretches as stretches_spec;
ghost use Rattle.rtps_evidence.specs.Amount as amount;
ghost use Rattle.rtps_evidence.specs.Locations as locations;

use crate::said_to::said_to;
use rtps_audit::{FirstAsked, Placed};
use rtps_coverage::Stretch;
use rtps_coverage::stretches::{count_of, push};
use rtps_discovery::Pair;
use rtps_ids::Memory;
use rtps_receiver::Numbers;
use std::alloc::Global;

/// The numbers that are asked for: those from `from` to the last announced one. There are none where `last` is `from` - 1.
#[derive(Clone, Copy)]
pub(crate) struct AskedNumbers {
    pub(crate) from: FirstAsked,
    pub(crate) last: u64,
    ghost in_range: { (1 ≤ from) × (from - 1 ≤ last) × (last < 2 ^ 63) },
}

/// Of the numbers that are asked for: how many have a payload, are gone without one, and have no word.
#[derive(Clone, Copy)]
pub(crate) struct Amounts {
    pub(crate) payloads: u64,
    pub(crate) gone: u64,
    pub(crate) untold: u64,
}

/// The numbers that have a payload by what is heard, and those that are told gone. An answer claims what is told before it alone: so of both
/// those stand apart of which it is heard in a datagram up to which no answer claims the number.
#[derive(Drop)]
pub(crate) struct HeardNumbers {
    /// Those that have a payload before they are claimed.
    pub(crate) early: Vec<Stretch>,
    /// Those that have one behind that.
    pub(crate) late: Vec<Stretch>,
    /// Those that are told gone before they are claimed.
    pub(crate) gone: Vec<Stretch>,
    /// Those that are told gone behind that.
    pub(crate) gone_late: Vec<Stretch>,
}

/// Appends these numbers from `from` on, range by range. After `Memory` the stretches are of no use.
fn push_numbers(
    stretches: &mut Vec<Stretch>,
    numbers: &Numbers<'_>,
    from: u64,
) -> Result<(), Memory>
    ensures { OnOk result ((n : ℕ) → stretches_spec.stretches_have stretches.new.items n
        ≡ (stretches_spec.stretches_have stretches.old.items n || (nat_le from n && said.numbers_have numbers.now n))) }
{
    let mut at = from;
    'apart: while let Some(range) = numbers.range_from(at) {
        let (lo, hi) = (range.start, range.end);
        push(stretches, Stretch { lo, hi })?;
        at = hi;
    }
    Ok(())
}

/// Appends a number, if there is one. After `Memory` the stretches are of no use.
pub(crate) fn push_number(stretches: &mut Vec<Stretch>, number: Option<u64>) -> Result<(), Memory>
    requires { IfSome number (λ n. n < 2 ^ 63) }
    ensures { OnOk result ((n : ℕ) → stretches_spec.stretches_have stretches.new.items n ≡ (stretches_spec.stretches_have stretches.old.items n || said.is_at n number)) }
{
    let Some(lo) = number else {
        return Ok(());
    };
    push(stretches, Stretch { lo, hi: lo + 1 })
}

/// Appends these numbers below an end, range by range. After `Memory` the stretches are of no use.
fn push_below(stretches: &mut Vec<Stretch>, numbers: &Numbers<'_>, end: u64) -> Result<(), Memory>
    ensures { OnOk result ((n : ℕ) → stretches_spec.stretches_have stretches.new.items n
        ≡ (stretches_spec.stretches_have stretches.old.items n || (nat_lt n end && said.numbers_have numbers.now n))) }
{
    let mut at = 0;
    'apart: while let Some(range) = numbers.range_from(at) {
        if end <= range.start {
            return Ok(());
        }
        let (lo, hi) = (range.start, range.end.min(end));
        push(stretches, Stretch { lo, hi })?;
        at = range.end;
    }
    Ok(())
}

/// Adds numbers to others, and says how many of those that are asked for are among all of them. After `Memory` the numbers are of
/// no use.
pub(crate) fn count_with(
    numbers: &mut Vec<Stretch>,
    more: &[Stretch],
    asked: &AskedNumbers,
) -> Result<u64, Memory>
    ensures numbers { OnOk result ((n : ℕ) → stretches_spec.stretches_have numbers.new.items n ≡ (stretches_spec.stretches_have numbers.old.items n || stretches_spec.stretches_have more.now n)) }
    ensures count { IfOk result (λ count. count ≡ counts.count_in (λ n. stretches_spec.stretches_have numbers.old.items n || stretches_spec.stretches_have more.now n) asked.now.from (asked.now.last + 1)) }
{
    numbers.extend_from_slice(more)?;
    count_of(numbers, asked.from.get(), asked.last + 1)
}

/// The number, where it is from `from` on.
fn number_from(number: Option<u64>, from: u64) -> Option<u64>
    ensures same { (n : ℕ) → said.is_at n result ≡ (nat_le from n && said.is_at n number) }
    ensures in_range { IfSome number (λ n. n < 2 ^ 63) → IfSome result (λ n. n < 2 ^ 63) }
{
    match number {
        Some(number) => { if from <= number { Some(number) } else { None } }
        None => None,
    }
}

/// The number, where it is below an end.
fn number_below(number: Option<u64>, end: u64) -> Option<u64>
    ensures same { (n : ℕ) → said.is_at n result ≡ (nat_lt n end && said.is_at n number) }
    ensures in_range { IfSome number (λ n. n < 2 ^ 63) → IfSome result (λ n. n < 2 ^ 63) }
{
    match number {
        Some(number) => { if number < end { Some(number) } else { None } }
        None => None,
    }
}

impl HeardNumbers {
    ghost use Rattle.std.specs.Prelude.{[], Bool};
    ghost use Rattle.rtps_ids.specs.declared.identity.Guid.{Guid as GuidValue};
    ghost use Rattle.rtps_evidence.specs.Received as received;

    /// No numbers.
    pub(crate) fn new(alloc: Global) -> Self
        ensures early { result.early.items ≡ [] }
        ensures late { result.late.items ≡ [] }
        ensures gone { result.gone.items ≡ [] }
        ensures gone_late { result.gone_late.items ≡ [] }
    {
        HeardNumbers {
            early: Vec::new(alloc),
            late: Vec::new(alloc),
            gone: Vec::new(alloc),
            gone_late: Vec::new(alloc),
        }
    }

    /// Adds those of an act that the pair's reader hears from its writer, where all below an end is claimed up to the act's datagram. After
    /// `Memory` they are of no use.
    pub(crate) fn note(
        &mut self,
        placed: &Placed<'_>,
        pair: Pair,
        claimed: u64,
    ) -> Result<(), Memory>
        ensures { OnOk result (amount.AreNumbers
            (λ n. amount.has_told self.old n || locations.tells pair.writer pair.reader n (placed_spec.placed_value placed.now))
            (λ n. amount.has_sent self.old n || locations.sends pair.writer pair.reader n (placed_spec.placed_value placed.now))
            (λ n. stretches_spec.stretches_have self.old.early.items n || (nat_le claimed n && locations.sends pair.writer pair.reader n (placed_spec.placed_value placed.now)))
            (λ n. stretches_spec.stretches_have self.old.gone.items n || (nat_le claimed n && received.withdraws pair.writer pair.reader n (placed_spec.placed_value placed.now))) self.new) }
    {
        let said = said_to(placed, pair);
        push_number(&mut self.early, number_from(said.told, claimed))?;
        push_number(&mut self.late, number_below(said.told, claimed))?;
        push_numbers(&mut self.gone, &said.gone, claimed)?;
        push_below(&mut self.gone_late, &said.gone, claimed)
    }

    /// The amounts of the numbers that are asked for. The stretches are of no use then.
    pub(crate) fn amounts(&mut self, asked: &AskedNumbers) -> Result<Amounts, Memory>
        ensures { (writer reader : GuidValue) (acts : List placed_spec.PlacedValue) (is_early is_gone : ℕ → Bool)
            → amount.AreNumbers (amount.is_told writer reader acts) (amount.is_sent writer reader acts) is_early is_gone self.old
            → IfOk result (amount.AreAmounts asked.now.from asked.now.last writer reader acts) }
    {
        if asked.last < asked.from.get() {
            return Ok(Amounts {
                payloads: 0,
                gone: 0,
                untold: 0,
            });
        }
        let payloads = count_with(&mut self.early, &self.late, asked)?;
        self.early.extend_from_slice(&self.gone)?;
        let told = count_with(&mut self.early, &self.gone_late, asked)?;
        Ok(Amounts {
            payloads,
            gone: told.saturating_sub(payloads),
            untold: asked.last + 1 - asked.from.get() - told,
        })
    }
}
