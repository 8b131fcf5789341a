ghost use Rattle.std.specs.Prelude.{ℕ, ◌≡◌, ◌==◌, ◌≤◌, ◌<◌, ◌^◌, MatchOption, false};
ghost use Rattle.std.proofs.Props.{props};
ghost use Rattle.rtps_coverage.specs.Ranges as ranges_spec;
ghost use Rattle.rtps_coverage.specs.Leaves as leaves_spec;

use crate::coverage::Coverage;
use crate::leaves::{count_of, join_leaves, range_with};
use crate::stretch::Stretch;
use rtps_ids::Memory;
use std::alloc::Global;

/// A set of sequence numbers as ranges of which no two overlap or touch.
///
/// The ranges stand in small arrays, in the order of their numbers. Only a range that is apart from all others needs
/// memory. The number that follows the last one is added with no search. Another addition takes time in proportion to the
/// logarithm of the number of ranges, and to those ranges that it joins into one.
#[derive(Drop)]
pub struct MergedRanges {
    leaves: Vec<Vec<Stretch>>,
    alloc: Global,
    ghost kept: { leaves_spec.AreKept leaves.items } by { Prim.hlevel (props, ranges_spec.are_apart_prop) },
}

impl MergedRanges {
    ghost use Rattle.rtps_coverage.specs.Coverage as coverage;
    ghost use Rattle.rtps_coverage.specs.MergedRanges as merged_ranges;

    /// The end of the range that has a number.
    pub(crate) fn end_of(&self, n: u64) -> Option<u64>
        requires { n < 2 ^ 63 }
        ensures { MatchOption result (merged_ranges.covered_of self.now n ≡ false) (λ end. (n < end) × coverage.IsLeastFrom (merged_ranges.covered_of self.now) n end) }
    {
        Some(range_with(&self.leaves, n)?.hi)
    }

    /// How many ranges the set has.
    pub fn len(&self) -> usize
        ensures { result ≡ merged_ranges.count_of self.now }
    {
        count_of(&self.leaves)
    }

    /// Whether the set has no range, and so no number.
    pub fn is_empty(&self) -> bool
        ensures { result ≡ (merged_ranges.count_of self.now == 0) }
    {
        self.len() == 0
    }
}

impl Coverage for MergedRanges {
    ghost use Rattle.std.specs.Prelude.{ℕ, ◌≡◌, ◌≤◌, ◌+◌, ◌≤ℤ◌, pos, false, IsOk, OnOk, OnErr};
    ghost use Rattle.rtps_coverage.specs.Coverage as coverage;
    ghost use Rattle.rtps_coverage.specs.MergedRanges as merged_ranges;

    ghost covered = { merged_ranges.covered_of };

    ghost in_range = { merged_ranges.covered_in_range };

    fn empty(alloc: Global) -> Self
        ensures none { (n : ℕ) → merged_ranges.covered_of result n ≡ false }
        ensures len { merged_ranges.count_of result ≡ 0 }
    {
        MergedRanges {
            leaves: Vec::new(alloc),
            alloc,
        }
    }

    /// Joins each number from `lo` on and below `hi`. After `Memory` the set is the same. It keeps at most one range more,
    /// and needs memory only for a range that no kept one overlaps or touches.
    fn add(&mut self, lo: i64, hi: i64) -> Result<(), Memory>
        requires positive { pos 1 ≤ℤ lo }
        requires ordered { lo ≤ℤ hi }
        ensures ok { OnOk result (coverage.JoinsRange (merged_ranges.covered_of self.old) (merged_ranges.covered_of self.new) lo hi) }
        ensures err { OnErr result (coverage.IsSameSet (merged_ranges.covered_of self.old) (merged_ranges.covered_of self.new) × (merged_ranges.count_of self.new ≡ merged_ranges.count_of self.old)) }
        ensures len { merged_ranges.count_of self.new ≤ merged_ranges.count_of self.old + 1 }
        ensures nothing { hi ≤ℤ lo → IsOk result × (merged_ranges.count_of self.new ≡ merged_ranges.count_of self.old) }
        ensures touching { merged_ranges.Touches (merged_ranges.covered_of self.old) lo hi → IsOk result × (merged_ranges.count_of self.new ≤ merged_ranges.count_of self.old) }
    {
        if hi <= lo {
            return Ok(());
        }
        join_leaves(
            self.alloc,
            &mut self.leaves,
            lo.cast_unsigned(),
            hi.cast_unsigned(),
        )
    }

    fn front(&self) -> i64 {
        self.end_of(1).unwrap_or(1).cast_signed()
    }

    fn covers(&self, n: i64) -> bool {
        if n < 1 {
            return false;
        }
        self.end_of(n.cast_unsigned()).is_some()
    }
}
