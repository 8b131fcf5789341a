//! Stretches whose beginnings and ends rise, so that one look finds how far those reach that begin up to a key.

ghost use Rattle.std.specs.Prelude.{ℕ, ◌≡◌, ◌<◌, ◌^◌, nat_lt, IfOk};
ghost use Rattle.std.specs.List.Sorted.{IsNonDecreasingBy};
ghost use Rattle.rtps_coverage.specs.Rising as rising_spec;

use crate::stretch::Stretch;
use rtps_ids::Memory;
use std::alloc::Global;

/// Stretches that reach as far as these from each key on, with ends that rise, too.
fn rise(alloc: Global, stretches: &[Stretch]) -> Result<Vec<Stretch>, Memory>
    requires { IsNonDecreasingBy (λ stretch. stretch.lo) stretches.now }
    ensures rising { IfOk result (λ rising. rising_spec.AreRising rising.items) }
    ensures same { IfOk result (λ rising. (key n : ℕ) → rising_spec.some_reaches rising.items key n ≡ rising_spec.some_reaches stretches.now key n) }
{
    let mut rising = Vec::with_capacity(alloc, stretches.len())?;
    let mut hi = 0;
    for stretch in stretches {
        hi = stretch.hi.max(hi);
        rising.push(Stretch { lo: stretch.lo, hi })?;
    }
    Ok(rising)
}

/// Stretches that reach as far as these from each key on, and rise. It puts these in another order. `Memory` is
/// answered where there is none for the new stretches, or none to sort these.
pub fn rising(alloc: Global, stretches: &mut Vec<Stretch>) -> Result<Vec<Stretch>, Memory>
    ensures rising { IfOk result (λ rising. rising_spec.AreRising rising.items) }
    ensures same { IfOk result (λ rising. (key n : ℕ) → rising_spec.some_reaches rising.items key n ≡ rising_spec.some_reaches stretches.old.items key n) }
{
    stretches.sort_by_key(|stretch| stretch.lo)?;
    let rising = rise(alloc, stretches)?;
    Ok(rising)
}

/// The greatest end of those stretches that begin up to a key, or 0.
pub fn end_at(stretches: &[Stretch], key: u64) -> u64
    requires { rising_spec.AreRising stretches.now }
    ensures reach { (n : ℕ) → nat_lt n result ≡ rising_spec.some_reaches stretches.now key n }
    ensures in_range { result < 2 ^ 64 }
{
    let place = stretches.partition_point(|stretch| stretch.lo <= key);
    if place == 0 {
        return 0;
    }
    stretches[place - 1].hi
}
