ghost use Rattle.std.specs.Prelude.{ℕ, true, ◌≡◌, ◌||◌, OnOk};
ghost use Rattle.rtps_audit.specs.Placed as placed_spec;
ghost use Rattle.rtps_coverage.specs.Rising as rising;
ghost use Rattle.rtps_coverage.specs.Stretches as stretches;
ghost use Rattle.rtps_evidence.specs.Missed as missed;

use crate::listener::{Listener, number_behind};
use rtps_audit::Placed;
use rtps_coverage::Stretch;
use rtps_coverage::rising::end_at;
use rtps_coverage::stretches::push;
use rtps_ids::Memory;

/// Appends the number that an act brings the reader since it is there, where it lacks it. After `Memory` the numbers are of no
/// use.
pub(crate) fn push_brought(
    brought: &mut Vec<Stretch>,
    placed: &Placed<'_>,
    listener: &Listener,
    lacking: &[Stretch],
) -> Result<(), Memory>
    requires { rising.AreRising lacking.now }
    ensures { OnOk result ((n : ℕ) → stretches.stretches_have lacking.now n ≡ true → stretches.stretches_have brought.new.items n ≡ (stretches.stretches_have brought.old.items n
        || missed.brings_behind listener.now.since listener.now.pair.writer listener.now.pair.reader n (placed_spec.placed_value placed.now))) }
{
    let Some(number) = number_behind(placed, listener) else {
        return Ok(());
    };
    if number < end_at(lacking, number) {
        let hi = number + 1;
        push(brought, Stretch { lo: number, hi })?;
    }
    Ok(())
}
