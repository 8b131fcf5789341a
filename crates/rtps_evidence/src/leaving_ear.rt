ghost use Rattle.std.specs.Prelude.{◌≡◌, filter, refl};
ghost use Rattle.rtps_audit.specs.Placed as placed_spec;
ghost use Rattle.rtps_evidence.specs.Ears as ears_spec;

use crate::ear::Ear;
use rtps_audit::Placed;
use rtps_ids::Memory;

/// An ear that hears the acts before a datagram, in which it leaves.
#[derive(Drop)]
pub(crate) struct LeavingEar<E> {
    /// The datagram, counted from 1; None where it stays to the end.
    pub(crate) until: Option<u64>,
    pub(crate) ear: E,
}

/// Whether an act stands before a datagram, where there is one.
fn is_until(placed: &Placed<'_>, until: Option<u64>) -> bool
    ensures { result ≡ ears_spec.is_until until (placed_spec.placed_value placed.now) }
{
    match until {
        Some(datagram) => (placed.datagram as u64) < datagram,
        None => true,
    }
}

impl<E: Ear + Drop> Ear for LeavingEar<E> {
    ghost has_heard = { λ start acts leaving. (leaving.until ≡ start.until) × E.has_heard start.ear (filter (ears_spec.is_until start.until) acts) leaving.ear };

    fn hear(&mut self, placed: &Placed<'_>) -> Result<(), Memory> {
        if !is_until(placed, self.until) {
            return Ok(());
        }
        self.ear.hear(placed)
    }

    ghost begins = { λ ear. (refl, E.begins ear.ear) };
}
