ghost use Rattle.std.specs.Prelude.{ℕ, true, false, ◌≡◌, ◌≤◌, ◌<◌, ◌^◌, ◌↔◌, ◌⊎◌, MatchOption, OnOk};
ghost use Rattle.rtps_evidence.specs.GoneRanges as gone_ranges;

use rtps_ids::Memory;
use std::alloc::Global;
use std::collections::BTreeMap;
use std::ops::Bound;

/// The first entry past a key.
pub(crate) fn first_past(entries: &BTreeMap<u64, u64>, key: u64) -> Option<(u64, u64)>
    ensures { MatchOption result (gone_ranges.HasNonePast entries.now key) (λ first. gone_ranges.IsFirstPast entries.now key first.0 first.1) }
{
    let (first, value) = entries
        .range((Bound::Excluded(key), Bound::Unbounded))
        .next()?;
    Some((*first, *value))
}

/// Takes out the ranges that end past `lo` and up to `hi`, and those that overlap them so. The result is where the first of them begins,
/// or `lo` where that is less.
fn take_out(ranges: &mut BTreeMap<u64, u64>, lo: u64, hi: u64) -> u64
    requires in_order { gone_ranges.AreInOrder ranges.old }
    requires ordered { lo < hi }
    requires in_range { hi ≤ 2 ^ 63 }
    ensures in_order { gone_ranges.AreInOrder ranges.new }
    ensures taken { gone_ranges.IsTakenOut ranges.old ranges.new lo hi result }
{
    let mut begin = lo;
    'overlapping: while let Some((end, first)) = first_past(ranges, begin) {
        if hi < end {
            return begin;
        }
        ranges.remove(&end);
        begin = begin.min(first);
    }
    begin
}

/// Adds a range where it lies in order with the others. After `Memory` they are as they were.
fn put(ranges: &mut BTreeMap<u64, u64>, begin: u64, end: u64) -> Result<(), Memory>
    requires in_order { gone_ranges.AreInOrder ranges.old }
    requires room { gone_ranges.HasRoom ranges.old begin end }
    ensures in_order { gone_ranges.AreInOrder ranges.new }
    ensures numbers { OnOk result ((n : ℕ) → gone_ranges.IsIn ranges.new n ↔ (gone_ranges.IsIn ranges.old n ⊎ ((begin ≤ n) × (n < end)))) }
{
    ranges.insert(end, begin)?;
    Ok(())
}

/// The numbers that were told gone, as ranges by their ends.
#[derive(Drop)]
pub(crate) struct GoneRanges {
    by_end: BTreeMap<u64, u64>,
    ghost in_order: { gone_ranges.AreInOrder by_end },
}

impl GoneRanges {
    /// No numbers.
    pub(crate) fn new(alloc: Global) -> GoneRanges
        ensures { (n : ℕ) → gone_ranges.IsIn result.by_end n → ⊥ }
    {
        GoneRanges {
            by_end: BTreeMap::new(alloc),
        }
    }

    /// Whether a number was told gone, and up to where the numbers behind it are alike.
    pub(crate) fn alike(&self, number: u64) -> (bool, u64)
        requires { number < 2 ^ 63 }
        ensures onward { number < result.1 }
        ensures gone { result.0 ≡ true → (n : ℕ) → number ≤ n → n < result.1 → gone_ranges.IsIn self.now.by_end n }
        ensures left { result.0 ≡ false → (n : ℕ) → number ≤ n → n < result.1 → gone_ranges.IsIn self.now.by_end n → ⊥ }
    {
        match first_past(&self.by_end, number) {
            Some((end, begin)) if begin <= number => (true, end),
            Some((_, begin)) => (false, begin),
            None => (false, u64::MAX),
        }
    }

    /// Adds the numbers from `lo` on and below `hi`. After `Memory` they are of no use.
    pub(crate) fn add(&mut self, lo: u64, hi: u64) -> Result<(), Memory>
        requires { hi ≤ 2 ^ 63 }
        ensures { OnOk result ((n : ℕ) → gone_ranges.IsIn self.new.by_end n ↔ (gone_ranges.IsIn self.old.by_end n ⊎ ((lo ≤ n) × (n < hi)))) }
    {
        if hi <= lo {
            return Ok(());
        }
        let begin = take_out(&mut self.by_end, lo, hi);
        match first_past(&self.by_end, begin) {
            Some((_, first)) if first <= begin => Ok(()),
            _ => put(&mut self.by_end, begin, hi),
        }
    }

    /// Forgets the numbers below an end, where no other is among them.
    pub(crate) fn forget(&mut self, end: u64)
        ensures kept { (n : ℕ) → gone_ranges.IsIn self.old.by_end n → gone_ranges.IsIn self.new.by_end n ⊎ (n < end) }
        ensures no_more { (n : ℕ) → gone_ranges.IsIn self.new.by_end n → gone_ranges.IsIn self.old.by_end n }
    {
        if first_past(&self.by_end, end).is_none() {
            self.by_end.clear();
        }
    }
}
