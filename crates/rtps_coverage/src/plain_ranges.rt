ghost use Rattle.std.specs.Prelude.{◌≡◌, ◌≤◌, ◌<◌, ◌^◌, false, nat_lt, All};
ghost use Rattle.std.specs.List.{filter, find};
ghost use Rattle.rtps_coverage.specs.Coverage as coverage;
ghost use Rattle.rtps_coverage.specs.Stretches as stretches_spec;

use crate::coverage::Coverage;
use crate::stretch::Stretch;
use rtps_ids::Memory;
use std::alloc::Global;

/// A set of sequence numbers as its front and the ranges beyond it, in no order. Each positive number below the front is
/// in the set.
///
/// A range that begins at the front or below takes no memory. An addition that moves the front goes through the ranges
/// that are kept.
#[derive(Drop)]
pub struct PlainRanges {
    front: u64,
    beyond: Vec<Stretch>,
    ghost front_in_range: { (1 ≤ front) × (front < 2 ^ 63) },
    ghost beyond_in_range: { All stretches_spec.IsBounded beyond.items },
    ghost front_outside: { stretches_spec.stretches_have beyond.items front ≡ false },
}

/// The first of the ranges that has the number.
fn stretch_of(stretches: &[Stretch], number: u64) -> Option<Stretch>
    ensures { result ≡ find (stretches_spec.stretch_has number) stretches.now }
{
    stretches
        .iter()
        .copied()
        .find(|stretch| stretch.lo <= number && number < stretch.hi)
}

/// The least number from `front` on that lies in none of the ranges.
fn reach(front: u64, stretches: &[Stretch]) -> u64
    requires front { front < 2 ^ 63 }
    requires stretches { All stretches_spec.IsBounded stretches.now }
    ensures { coverage.IsLeastFrom (stretches_spec.stretches_have stretches.now) front result }
{
    let mut reached = front;
    while let Some(stretch) = stretch_of(stretches, reached) {
        reached = stretch.hi;
    }
    reached
}

/// Keeps the ranges that begin past the front.
fn keep_past(stretches: &mut Vec<Stretch>, front: u64)
    ensures { stretches.new.items ≡ filter (λ stretch. nat_lt front stretch.lo) stretches.old.items }
{
    stretches.retain(|stretch| front < stretch.lo);
}

impl Coverage for PlainRanges {
    ghost use Rattle.std.specs.Prelude.{ℤ, ◌≤ℤ◌, pos, IsOk, OnOk, OnErr};
    ghost use Rattle.rtps_coverage.specs.PlainRanges as plain_ranges;

    ghost covered = { plain_ranges.covered_of };

    ghost in_range = { plain_ranges.covered_in_range };

    fn empty(alloc: Global) -> Self {
        PlainRanges {
            front: 1,
            beyond: Vec::new(alloc),
        }
    }

    /// Joins each number from `lo` on and below `hi`. After `Memory` the set is the same. A range that begins at the front
    /// or below takes no memory.
    fn add(&mut self, lo: i64, hi: i64) -> Result<(), Memory>
        requires positive { pos 1 ≤ℤ lo }
        requires ordered { lo ≤ℤ hi }
        ensures ok { OnOk result (coverage.JoinsRange (plain_ranges.covered_of self.old) (plain_ranges.covered_of self.new) lo hi) }
        ensures err { OnErr result (coverage.IsSameSet (plain_ranges.covered_of self.old) (plain_ranges.covered_of self.new)) }
        ensures in_order { (front : ℤ) → coverage.IsFront (plain_ranges.covered_of self.old) front → lo ≤ℤ front
            → IsOk result }
    {
        let lo = lo.cast_unsigned();
        let hi = hi.cast_unsigned();
        if hi <= lo || hi <= self.front {
            return Ok(());
        }
        if lo > self.front {
            self.beyond.push(Stretch { lo, hi })?;
            return Ok(());
        }
        self.front = reach(hi, &self.beyond);
        keep_past(&mut self.beyond, self.front);
        Ok(())
    }

    fn front(&self) -> i64 {
        self.front.cast_signed()
    }

    fn covers(&self, n: i64) -> bool {
        if n < 1 {
            return false;
        }
        let n = n.cast_unsigned();
        n < self.front || stretch_of(&self.beyond, n).is_some()
    }
}
