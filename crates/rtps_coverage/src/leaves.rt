//! Many ranges, in leaves: small arrays of them, none of which is empty, in the order of their numbers.

ghost use Rattle.std.specs.Prelude.{ℕ, ◌≡◌, ◌≤◌, ◌<◌, ◌+◌, ◌^◌, ◌||◌, ◌&&◌, ◌∷◌, [], true, false, nat_le, nat_lt, IsOk, length, take, drop, MatchOption, IfOk, OnOk, OnErr};
ghost use Rattle.std.specs.List.{HoldsAt};
ghost use Rattle.rtps_coverage.specs.Stretches as stretches;
ghost use Rattle.rtps_coverage.specs.Ranges as ranges_spec;
ghost use Rattle.rtps_coverage.specs.Leaves as leaves_spec;

use crate::ranges::{absorb, begin_of, end_of, join, place_for};
use crate::stretch::Stretch;
use rtps_ids::Memory;
use std::alloc::Global;

/// A leaf of so many ranges is halved.
const MOST_RANGES: usize = 128;

/// How many of the leaves end before a number.
fn count_before(leaves: &[Vec<Stretch>], number: u64) -> usize
    requires { leaves_spec.AreKept leaves.now }
    ensures within { result ≤ length leaves.now }
    ensures before { ranges_spec.EndBefore number (leaves_spec.ranges_in (take result leaves.now)) }
    ensures past { result < length leaves.now → HoldsAt (λ leaf. number ≤ ranges_spec.end_of leaf.items) leaves.now result }
{
    leaves.partition_point(|leaf| end_of(leaf) < number)
}

/// The leaf for a number: all before it end before the number, and it does not, or it is the last one. The last one is
/// tried first, since numbers mostly come in order.
fn leaf_for(leaves: &[Vec<Stretch>], number: u64) -> usize
    requires kept { leaves_spec.AreKept leaves.now }
    requires some { 0 < length leaves.now }
    ensures { leaves_spec.IsLeafFor number leaves.now result }
{
    let last = leaves.len() - 1;
    if begin_of(&leaves[last]) <= number {
        return last;
    }
    count_before(leaves, number)
}

/// Takes out the ranges of the leaves from a place on that begin up to `hi`. The result is where the last of them ends, or
/// `hi` where it does not end past that.
fn absorb_leaves(leaves: &mut Vec<Vec<Stretch>>, place: usize, hi: u64) -> u64
    requires place { place ≤ length leaves.old.items }
    requires filled { leaves_spec.AreFilled leaves.old.items }
    requires apart { ranges_spec.AreApart (leaves_spec.ranges_in (drop place leaves.old.items)) }
    ensures front { take place leaves.new.items ≡ take place leaves.old.items }
    ensures filled { leaves_spec.AreFilled leaves.new.items }
    ensures absorbs { ranges_spec.Absorbs (leaves_spec.ranges_in (drop place leaves.old.items)) (leaves_spec.ranges_in (drop place leaves.new.items)) hi result }
    ensures past { ranges_spec.BeginPast result (leaves_spec.ranges_in (drop place leaves.new.items)) }
{
    let mut end = hi;
    'later: while place < leaves.len() {
        end = absorb(&mut leaves[place], 0, end);
        if !leaves[place].is_empty() {
            return end;
        }
        leaves.remove(place);
    }
    end
}

/// The ranges from a place on.
fn ranges_from(alloc: Global, ranges: &[Stretch], place: usize) -> Result<Vec<Stretch>, Memory>
    requires { place ≤ length ranges.now }
    ensures { IfOk result (λ upper. upper.items ≡ drop place ranges.now) }
{
    let mut upper = Vec::with_capacity(alloc, MOST_RANGES)?;
    upper.extend_from_slice(&ranges[place..])?;
    Ok(upper)
}

/// Halves a leaf, where there is memory for one more.
fn halve(alloc: Global, leaves: &mut Vec<Vec<Stretch>>, place: usize)
    requires filled { leaves_spec.AreFilled leaves.old.items }
    requires place { place < length leaves.old.items }
    requires many { HoldsAt (λ leaf. 1 < length leaf.items) leaves.old.items place }
    ensures filled { leaves_spec.AreFilled leaves.new.items }
    ensures same { leaves_spec.ranges_in leaves.new.items ≡ leaves_spec.ranges_in leaves.old.items }
{
    let half = leaves[place].len() / 2;
    let Ok(upper) = ranges_from(alloc, &leaves[place], half) else {
        return;
    };
    if leaves.insert(place + 1, upper).is_ok() {
        leaves[place].truncate(half);
    }
}

/// How many ranges the leaves have.
pub(crate) fn count_of(leaves: &[Vec<Stretch>]) -> usize
    requires { leaves_spec.AreKept leaves.now }
    ensures { result ≡ length (leaves_spec.ranges_in leaves.now) }
{
    let mut count = 0;
    for leaf in leaves {
        count += leaf.len();
    }
    count
}

/// Makes the first leaf, of one range.
fn begin(alloc: Global, leaves: &mut Vec<Vec<Stretch>>, range: Stretch) -> Result<(), Memory>
    requires none { length leaves.old.items ≡ 0 }
    requires range { ranges_spec.IsRange range }
    ensures kept { leaves_spec.AreKept leaves.new.items }
    ensures ok { OnOk result (leaves_spec.ranges_in leaves.new.items ≡ range ∷ []) }
    ensures err { OnErr result (leaves.new.items ≡ leaves.old.items) }
{
    let mut leaf = Vec::new(alloc);
    leaf.push(range)?;
    leaves.push(leaf)?;
    Ok(())
}

/// Joins the numbers from `lo` on and below `hi` in the leaf for `lo`. After `Memory` the ranges are the same.
fn join_at(leaves: &mut Vec<Vec<Stretch>>, place: usize, lo: u64, hi: u64) -> Result<(), Memory>
    requires kept { leaves_spec.AreKept leaves.old.items }
    requires place { leaves_spec.IsLeafFor lo leaves.old.items place }
    requires joined { ranges_spec.IsRange (record { lo = lo; hi = hi }) }
    ensures place { place < length leaves.new.items }
    ensures filled { leaves_spec.AreFilled leaves.new.items }
    ensures joins { OnOk result (ranges_spec.Joins (leaves_spec.ranges_in leaves.old.items) (leaves_spec.ranges_in leaves.new.items) lo hi) }
    ensures counts { OnOk result (ranges_spec.Counts (leaves_spec.ranges_in leaves.old.items) (leaves_spec.ranges_in leaves.new.items) lo hi) }
    ensures same { OnErr result (leaves_spec.ranges_in leaves.new.items ≡ leaves_spec.ranges_in leaves.old.items) }
    ensures clear { OnErr result (ranges_spec.AreClear lo hi (leaves_spec.ranges_in leaves.old.items)) }
{
    let end = absorb_leaves(leaves, place + 1, hi);
    join(&mut leaves[place], lo, end)
}

/// Joins the numbers from `lo` on and below `hi`. After `Memory` the ranges are the same.
pub(crate) fn join_leaves(
    alloc: Global,
    leaves: &mut Vec<Vec<Stretch>>,
    lo: u64,
    hi: u64,
) -> Result<(), Memory>
    requires kept { leaves_spec.AreKept leaves.old.items }
    requires positive { 1 ≤ lo }
    requires ordered { lo < hi }
    requires bounded { hi < 2 ^ 63 }
    ensures kept { leaves_spec.AreKept leaves.new.items }
    ensures ok { OnOk result ((n : ℕ) → stretches.stretches_have (leaves_spec.ranges_in leaves.new.items) n ≡ (stretches.stretches_have (leaves_spec.ranges_in leaves.old.items) n || (nat_le lo n && nat_lt n hi))) }
    ensures err { OnErr result (leaves_spec.ranges_in leaves.new.items ≡ leaves_spec.ranges_in leaves.old.items) }
    ensures len { length (leaves_spec.ranges_in leaves.new.items) ≤ length (leaves_spec.ranges_in leaves.old.items) + 1 }
    ensures touching { (n : ℕ) → stretches.stretches_have (leaves_spec.ranges_in leaves.old.items) n ≡ true → lo ≤ n + 1 → n ≤ hi
        → IsOk result × (length (leaves_spec.ranges_in leaves.new.items) ≤ length (leaves_spec.ranges_in leaves.old.items)) }
{
    if leaves.is_empty() {
        return begin(alloc, leaves, Stretch { lo, hi });
    }
    let place = leaf_for(leaves, lo);
    join_at(leaves, place, lo, hi)?;
    if leaves[place].len() >= MOST_RANGES {
        halve(alloc, leaves, place);
    }
    Ok(())
}

/// The range that has a number.
pub(crate) fn range_with(leaves: &[Vec<Stretch>], number: u64) -> Option<Stretch>
    requires kept { leaves_spec.AreKept leaves.now }
    requires in_range { number < 2 ^ 63 }
    ensures { MatchOption result (stretches.stretches_have (leaves_spec.ranges_in leaves.now) number ≡ false) (ranges_spec.IsRangeWith (leaves_spec.ranges_in leaves.now) number) }
{
    if leaves.is_empty() {
        return None;
    }
    let leaf = &leaves[leaf_for(leaves, number + 1)];
    let place = place_for(leaf, number + 1);
    if place == leaf.len() {
        return None;
    }
    let range = leaf[place];
    if number < range.lo { None } else { Some(range) }
}
