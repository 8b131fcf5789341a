ghost use Rattle.std.specs.Prelude.{ℕ, ◌≡◌, ◌<◌, ◌^◌, is_some, IfSome};
ghost use Rattle.rtps_audit.specs.Placed as placed_spec;
ghost use Rattle.rtps_receiver.specs.Said as said;
ghost use Rattle.rtps_evidence.specs.Missed as missed;

use crate::location::{Location, is_behind};
use crate::said_to::said_to;
use rtps_audit::Placed;
use rtps_discovery::Pair;

/// A writer and a reader, and the place behind which the reader is there; None where it always is.
#[derive(Clone, Copy)]
pub(crate) struct Listener {
    pub(crate) pair: Pair,
    pub(crate) since: Option<Location>,
}

/// The number of the payload that the pair's reader hears by an act since it is there, or of which it hears fragments.
pub(crate) fn number_behind(placed: &Placed<'_>, listener: &Listener) -> Option<u64>
    ensures in_range { IfSome result (λ number. number < 2 ^ 63) }
    ensures some { is_some result ≡ missed.brings_some listener.now.since listener.now.pair.writer listener.now.pair.reader (placed_spec.placed_value placed.now) }
    ensures brought { (n : ℕ) → missed.brings_behind listener.now.since listener.now.pair.writer listener.now.pair.reader n (placed_spec.placed_value placed.now) ≡ said.is_at n result }
{
    if is_behind(listener.since, placed) {
        said_to(placed, listener.pair).brought
    } else {
        None
    }
}

/// Whether the reader hears, by an act, a payload for the number, or a fragment of one.
pub(crate) fn brings(placed: &Placed<'_>, pair: Pair, number: u64) -> bool
    ensures { result ≡ missed.brings pair.writer pair.reader number (placed_spec.placed_value placed.now) }
{
    said_to(placed, pair).brought == Some(number)
}
