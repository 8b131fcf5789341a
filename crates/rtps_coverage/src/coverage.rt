ghost use Rattle.std.specs.Prelude.{ℕ, Bool, true, false, ◌≡◌, ◌≤◌, ◌<◌, ◌-◌, ◌^◌, ◌≤ℤ◌, pos, OnOk, OnErr};
ghost use Rattle.rtps_coverage.specs.Coverage as coverage;

use rtps_ids::Memory;
use std::alloc::Global;

/// A growing set of sequence numbers from 1 to 2^63 - 2.
///
/// No set has 2^63 - 1 (own: an answer claims the numbers below its base, and no base is greater than that).
pub trait Coverage: Sized + Drop {
    /// Whether the set has a number.
    ghost covered: { Self → ℕ → Bool };

    /// The empty set. It takes no memory.
    fn empty(alloc: Global) -> Self
        ensures { (n : ℕ) → covered result n ≡ false };

    /// Joins each number from `lo` on and below `hi`. `Memory` is answered only where a growth was refused, and leaves the
    /// set as it was.
    fn add(&mut self, lo: i64, hi: i64) -> Result<(), Memory>
        requires positive { pos 1 ≤ℤ lo }
        requires ordered { lo ≤ℤ hi }
        ensures ok { OnOk result (coverage.JoinsRange (covered self.old) (covered self.new) lo hi) }
        ensures err { OnErr result (coverage.IsSameSet (covered self.old) (covered self.new)) };

    /// The least positive number that is not in the set.
    fn front(&self) -> i64
        ensures { coverage.IsFront (covered self.now) result };

    /// Whether the set has the number. It has none below 1.
    fn covers(&self, n: i64) -> bool
        ensures { result ≡ coverage.has (covered self.now) n };

    /// Each number in a set lies from 1 to 2^63 - 2.
    ghost in_range: { (set : Self) (n : ℕ) → covered set n ≡ true
        → (1 ≤ n) × (n < 2 ^ 63 - 1) };
}
