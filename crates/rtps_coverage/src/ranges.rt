//! Ranges in a small array, in the order of their numbers, of which no two overlap or touch.

ghost use Rattle.std.specs.Prelude.{◌≡◌, ◌≤◌, ◌<◌, ◌+◌, length, take, drop, MatchOption, OnOk, OnErr};
ghost use Rattle.std.specs.List.{HoldsAt};
ghost use Rattle.rtps_coverage.specs.Ranges as ranges_spec;

use crate::stretch::Stretch;
use rtps_ids::Memory;

/// Where the last of these ranges ends; 0 where there is none.
pub(crate) fn end_of(ranges: &[Stretch]) -> u64
    ensures { result ≡ ranges_spec.end_of ranges.now }
{
    match ranges.last() {
        Some(last) => last.hi,
        None => 0,
    }
}

/// Where the first of these ranges begins; 0 where there is none.
pub(crate) fn begin_of(ranges: &[Stretch]) -> u64
    ensures { result ≡ ranges_spec.begin_of ranges.now }
{
    match ranges.first() {
        Some(first) => first.lo,
        None => 0,
    }
}

/// How many of these ranges end before a number.
fn count_before(ranges: &[Stretch], number: u64) -> usize
    requires { ranges_spec.AreApart ranges.now }
    ensures { ranges_spec.AreParted number ranges.now result }
{
    ranges.partition_point(|range| range.hi < number)
}

/// How many of these ranges end before a number. The last range is tried first, since numbers mostly come in order.
pub(crate) fn place_for(ranges: &[Stretch], number: u64) -> usize
    requires { ranges_spec.AreApart ranges.now }
    ensures { ranges_spec.AreParted number ranges.now result }
{
    let count = ranges.len();
    if count == 0 {
        return 0;
    }
    let last = ranges[count - 1];
    if last.hi < number {
        return count;
    }
    if last.lo <= number {
        return count - 1;
    }
    count_before(ranges, number)
}

/// The range at a place, where it begins up to a number.
fn begun_at(ranges: &[Stretch], place: usize, number: u64) -> Option<Stretch>
    requires place { place ≤ length ranges.now }
    requires apart { ranges_spec.AreApart (drop place ranges.now) }
    ensures { MatchOption result (ranges_spec.BeginPast number (drop place ranges.now)) (ranges_spec.IsBegun number (drop place ranges.now) (drop (place + 1) ranges.now)) }
{
    if place == ranges.len() {
        return None;
    }
    let range = ranges[place];
    if number < range.lo { None } else { Some(range) }
}

/// Takes out the ranges from a place on that begin up to `hi`. The result is where the last of them ends, or `hi` where it
/// does not end past that.
pub(crate) fn absorb(ranges: &mut Vec<Stretch>, place: usize, hi: u64) -> u64
    requires place { place ≤ length ranges.old.items }
    requires apart { ranges_spec.AreApart (drop place ranges.old.items) }
    ensures front { take place ranges.new.items ≡ take place ranges.old.items }
    ensures absorbs { ranges_spec.Absorbs (drop place ranges.old.items) (drop place ranges.new.items) hi result }
    ensures past { ranges_spec.BeginPast result (drop place ranges.new.items) }
{
    let mut end = hi;
    while let Some(next) = begun_at(ranges, place, end) {
        ranges.remove(place);
        end = end.max(next.hi);
    }
    end
}

/// Joins the numbers from `lo` on and below `hi` to the range at a place, which they overlap or touch. It takes no memory.
fn grow(ranges: &mut Vec<Stretch>, place: usize, lo: u64, hi: u64)
    requires apart { ranges_spec.AreApart ranges.old.items }
    requires place { place < length ranges.old.items }
    requires parted { ranges_spec.AreParted lo ranges.old.items place }
    requires begins { HoldsAt (λ range. range.lo ≤ hi) ranges.old.items place }
    requires joined { ranges_spec.IsRange (record { lo = lo; hi = hi }) }
    ensures joins { ranges_spec.Joins ranges.old.items ranges.new.items lo hi }
    ensures len { length ranges.new.items ≤ length ranges.old.items }
{
    let range = ranges[place];
    if range.lo <= lo && hi <= range.hi {
        return;
    }
    let end = absorb(ranges, place + 1, hi.max(range.hi));
    ranges[place] = Stretch {
        lo: lo.min(range.lo),
        hi: end,
    };
}

/// Joins the numbers from `lo` on and below `hi`. After `Memory` the ranges are the same.
pub(crate) fn join(ranges: &mut Vec<Stretch>, lo: u64, hi: u64) -> Result<(), Memory>
    requires apart { ranges_spec.AreApart ranges.old.items }
    requires joined { ranges_spec.IsRange (record { lo = lo; hi = hi }) }
    ensures joins { OnOk result (ranges_spec.Joins ranges.old.items ranges.new.items lo hi) }
    ensures counts { OnOk result (ranges_spec.Counts ranges.old.items ranges.new.items lo hi) }
    ensures same { OnErr result (ranges.new.items ≡ ranges.old.items) }
    ensures clear { OnErr result (ranges_spec.AreClear lo hi ranges.old.items) }
{
    let place = place_for(ranges, lo);
    match begun_at(ranges, place, hi) {
        Some(_) => {
            grow(ranges, place, lo, hi);
            Ok(())
        }
        None => {
            ranges.insert(place, Stretch { lo, hi })?;
            Ok(())
        }
    }
}
