//! The numbers of lists of stretches. A number may be in several of them; a list has it once.

ghost use Rattle.std.specs.Prelude.{ℕ, true, false, ◌≡◌, ◌<◌, ◌≤◌, ◌||◌, not, IfOk, IfSome, OnOk};
ghost use Rattle.std.specs.List.Sorted.{IsNonDecreasingBy};
ghost use Rattle.rtps_coverage.specs.Counts as counts;
ghost use Rattle.rtps_coverage.specs.Stretches as stretches_spec;

use crate::stretch::Stretch;
use rtps_ids::Memory;
use std::alloc::Global;

/// How many of the numbers from `from` on and below `end` lie in these stretches, which stand in the order of their
/// beginnings.
fn count_in_order(stretches: &[Stretch], from: u64, end: u64) -> u64
    requires sorted { IsNonDecreasingBy (λ stretch. stretch.lo) stretches.now }
    requires ordered { from ≤ end }
    ensures { result ≡ counts.count_in (stretches_spec.stretches_have stretches.now) from end }
{
    let mut reached = from;
    let mut count = 0;
    for stretch in stretches {
        let lo = stretch.lo.max(reached);
        let hi = stretch.hi.min(end);
        if lo < hi {
            count += hi - lo;
            reached = hi;
        }
    }
    count
}

/// How many of the numbers from `from` on and below `end` lie in these stretches. It puts them in another order.
/// `Memory` is answered where there is none to sort them.
pub fn count_of(stretches: &mut Vec<Stretch>, from: u64, end: u64) -> Result<u64, Memory>
    requires { from ≤ end }
    ensures count { IfOk result (λ count. count ≡ counts.count_in (stretches_spec.stretches_have stretches.old.items) from end) }
    ensures same { OnOk result ((n : ℕ) → stretches_spec.stretches_have stretches.new.items n ≡ stretches_spec.stretches_have stretches.old.items n) }
{
    stretches.sort_by_key(|stretch| stretch.lo)?;
    Ok(count_in_order(stretches, from, end))
}

/// The least number from `from` on and below `end` that a stretch has, or `end`.
pub fn least_inside(stretches: &[Stretch], from: u64, end: u64) -> u64
    requires { from ≤ end }
    ensures onward { from ≤ result }
    ensures within { result ≤ end }
    ensures below { (n : ℕ) → from ≤ n → n < result → stretches_spec.stretches_have stretches.now n ≡ false }
    ensures inside { result < end → stretches_spec.stretches_have stretches.now result ≡ true }
{
    let mut least = end;
    for stretch in stretches {
        let lo = stretch.lo.max(from);
        if lo < stretch.hi && lo < least {
            least = lo;
        }
    }
    least
}

/// The stretch that two make, where the second begins in the first or at its end.
fn joined(first: Stretch, second: Stretch) -> Option<Stretch>
    ensures { IfSome result (λ whole. (n : ℕ) → stretches_spec.stretch_has n whole ≡ (stretches_spec.stretch_has n first || stretches_spec.stretch_has n second)) }
{
    if second.lo < first.lo || first.hi < second.lo {
        return None;
    }
    Some(Stretch {
        lo: first.lo,
        hi: first.hi.max(second.hi),
    })
}

/// Appends a stretch, or joins it to the last one. `Memory` is answered where the stretches cannot grow; after it they are of
/// no use.
pub fn push(stretches: &mut Vec<Stretch>, stretch: Stretch) -> Result<(), Memory>
    ensures { OnOk result ((n : ℕ) → stretches_spec.stretches_have stretches.new.items n ≡ (stretches_spec.stretches_have stretches.old.items n || stretches_spec.stretch_has n stretch)) }
{
    let Some(last) = stretches.pop() else {
        stretches.push(stretch)?;
        return Ok(());
    };
    if let Some(whole) = joined(last, stretch) {
        stretches.push(whole)?;
        return Ok(());
    }
    stretches.push(last)?;
    stretches.push(stretch)?;
    Ok(())
}

/// The numbers of these stretches in order, in as few stretches as they make. It puts these in another order. `Memory` is
/// answered where there is none for the new stretches, or none to sort these.
pub fn in_order(alloc: Global, stretches: &mut Vec<Stretch>) -> Result<Vec<Stretch>, Memory>
    ensures { IfOk result (λ few. (n : ℕ) → stretches_spec.stretches_have few.items n ≡ stretches_spec.stretches_have stretches.old.items n) }
{
    stretches.sort_by_key(|stretch| stretch.lo)?;
    let few = push_all(alloc, stretches)?;
    Ok(few)
}

/// The numbers of these stretches, each joined to the one before where they meet.
fn push_all(alloc: Global, stretches: &[Stretch]) -> Result<Vec<Stretch>, Memory>
    ensures { IfOk result (λ few. (n : ℕ) → stretches_spec.stretches_have few.items n ≡ stretches_spec.stretches_have stretches.now n) }
{
    let mut few = Vec::new(alloc);
    for stretch in stretches {
        push(&mut few, *stretch)?;
    }
    Ok(few)
}

/// The numbers from `from` on and below `end` that none of these stretches has, which stand in the order of their
/// beginnings. Other numbers may be among them. `Memory` is answered where there is none for the new stretches.
pub fn outside(
    alloc: Global,
    stretches: &[Stretch],
    from: u64,
    end: u64,
) -> Result<Vec<Stretch>, Memory>
    requires { IsNonDecreasingBy (λ stretch. stretch.lo) stretches.now }
    ensures { IfOk result (λ rest. (n : ℕ) → from ≤ n → n < end → stretches_spec.stretches_have rest.items n ≡ not (stretches_spec.stretches_have stretches.now n)) }
{
    let mut rest = Vec::new(alloc);
    let mut at = from;
    for stretch in stretches {
        rest.push(Stretch {
            lo: at,
            hi: stretch.lo,
        })?;
        at = at.max(stretch.lo).max(stretch.hi);
    }
    rest.push(Stretch { lo: at, hi: end })?;
    Ok(rest)
}
