ghost use Rattle.std.specs.Prelude.{◌≡◌, ◌≤◌, ◌<◌, ◌^◌, false};
ghost use Rattle.rtps_coverage.specs.MergedRanges as merged_ranges;

use rtps_coverage::{Coverage, MergedRanges};
use rtps_ids::Memory;
use std::alloc::Global;

/// A set of sequence numbers as its front and merged ranges beyond it. Each positive number below the front is in the set.
///
/// Numbers that come in order raise the front. That takes no memory, and the same time however many they are.
#[derive(Drop)]
pub struct FrontRanges {
    front: u64,
    beyond: MergedRanges,
    ghost front_in_range: { (1 ≤ front) × (front < 2 ^ 63) },
    ghost front_outside: { merged_ranges.covered_of beyond front ≡ false },
}

impl FrontRanges {
    ghost use Rattle.std.specs.Prelude.{ℕ, ◌≡◌, ◌<◌, ◌^◌, ◌&&◌, ◌||◌, nat_le, nat_lt, OnOk, OnErr};
    ghost use Rattle.rtps_coverage.specs.Coverage as coverage;
    ghost use Rattle.rtps_audit.specs.FrontRanges as front_ranges;

    /// Joins each number below this one, which is past the front. After `Memory` the set is the same.
    fn raise(&mut self, end: u64) -> Result<(), Memory>
        requires past { self.old.front < end }
        requires in_range { end < 2 ^ 63 }
        ensures ok { OnOk result ((n : ℕ) → front_ranges.front_has self.new n ≡ (front_ranges.front_has self.old n || (nat_le 1 n && nat_lt n end))) }
        ensures err { OnErr result (coverage.IsSameSet (front_ranges.front_has self.old) (front_ranges.front_has self.new)) }
    {
        if self.beyond.covers(end.cast_signed()) {
            self.beyond.add(1, end.cast_signed())?;
            self.front = self.beyond.front().cast_unsigned();
        } else {
            self.front = end;
        }
        Ok(())
    }
}

impl Coverage for FrontRanges {
    ghost use Rattle.rtps_audit.specs.FrontRanges as front_ranges;

    ghost covered = { front_ranges.front_has };

    ghost in_range = { front_ranges.front_has_in_range };

    fn empty(alloc: Global) -> Self {
        FrontRanges {
            front: 1,
            beyond: MergedRanges::empty(alloc),
        }
    }

    fn add(&mut self, lo: i64, hi: i64) -> Result<(), Memory> {
        let end = hi.cast_unsigned();
        if hi <= lo || end <= self.front {
            return Ok(());
        }
        if self.front < lo.cast_unsigned() {
            return self.beyond.add(lo, hi);
        }
        self.raise(end)
    }

    fn front(&self) -> i64 {
        self.front.cast_signed()
    }

    fn covers(&self, n: i64) -> bool {
        if n < 1 {
            return false;
        }
        n.cast_unsigned() < self.front || self.beyond.covers(n)
    }
}
