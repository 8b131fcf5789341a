ghost use Rattle.std.specs.Prelude.{◌<◌, ◌^◌, ◌++◌, ◌∷◌, [], length, map, List, OnOk};
ghost use Rattle.rtps_audit.specs.Placed as placed_spec;
ghost use Rattle.rtps_evidence.specs.Ears as ears_spec;

use rtps_audit::Placed;
use rtps_ids::Memory;

/// Is told acts, one after another.
pub(crate) trait Ear {
    /// From what it was at first, it has heard these acts and is what it is.
    ghost has_heard: { Self → List placed_spec.PlacedValue → Self → Type 0 };

    /// Hears one act more. After `Memory` it is of no use.
    fn hear(&mut self, placed: &Placed<'_>) -> Result<(), Memory>
        ensures { OnOk result ((start : Self) (acts : List placed_spec.PlacedValue) → has_heard start acts self.old
            → has_heard start (acts ++ placed_spec.placed_value placed.now ∷ []) self.new) };

    /// At first it has heard nothing.
    ghost begins: { (ear : Self) → has_heard ear [] ear };
}

/// Tells an act to each of these ears. After `Memory` they are of no use.
fn tell<E: Ear>(ears: &mut [E], placed: &Placed<'_>) -> Result<(), Memory>
    ensures { OnOk result ((starts : List E) (acts : List placed_spec.PlacedValue) → ears_spec.HaveHeard E.has_heard starts acts ears.old
        → ears_spec.HaveHeard E.has_heard starts (acts ++ placed_spec.placed_value placed.now ∷ []) ears.new) }
{
    for place in 0..ears.len() {
        ears[place].hear(placed)?;
    }
    Ok(())
}

/// Tells acts to an ear in their order. After `Memory` it is of no use.
pub(crate) fn hear_all<E: Ear>(ear: &mut E, acts: &[Placed<'_>]) -> Result<(), Memory>
    ensures few { length acts.now < 2 ^ 64 }
    ensures heard { OnOk result (E.has_heard ear.old (map placed_spec.placed_value acts.now) ear.new) }
{
    for placed in acts {
        ear.hear(placed)?;
    }
    Ok(())
}

/// Tells acts in their order, each of them to each of these ears. After `Memory` they are of no use.
pub(crate) fn tell_all<E: Ear>(ears: &mut [E], acts: &[Placed<'_>]) -> Result<(), Memory>
    ensures few { length acts.now < 2 ^ 64 }
    ensures heard { OnOk result (ears_spec.HaveHeard E.has_heard ears.old (map placed_spec.placed_value acts.now) ears.new) }
{
    for placed in acts {
        tell(ears, placed)?;
    }
    Ok(())
}
