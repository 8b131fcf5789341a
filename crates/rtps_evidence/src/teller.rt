ghost use Rattle.std.specs.Prelude.{◌≡◌, ◌<◌, ◌^◌, ◌++◌, ◌∷◌, [], map, List};
ghost use Rattle.rtps_audit.specs.Placed as placed_spec;
ghost use Rattle.rtps_evidence.specs.Locations as locations;

use crate::location::{Kind, Location, kind_of, location_of};
use crate::said_to::said_to;
use rtps_audit::Placed;
use rtps_discovery::Pair;

/// The submessage that tells the reader of a number first: of its payload, or that it will not come.
#[derive(Clone, Copy)]
pub struct Teller {
    /// DATA, HEARTBEAT or GAP.
    pub kind: Kind,
    pub place: Location,
}

/// Whether the reader hears a word for the number from the writer by an act.
fn tells(placed: &Placed<'_>, pair: Pair, number: u64) -> bool
    requires { number < 2 ^ 63 }
    ensures { result ≡ locations.tells pair.writer pair.reader number (placed_spec.placed_value placed.now) }
{
    let said = said_to(placed, pair);
    said.gone.has(number) || said.told == Some(number)
}

/// An act as one that tells a number.
pub(crate) fn teller_at(placed: &Placed<'_>) -> Teller
    ensures { result ≡ locations.teller_at (placed_spec.placed_value placed.now) }
{
    Teller {
        kind: kind_of(&placed.act.body),
        place: location_of(placed),
    }
}

/// The first act by which the reader hears a word for the number from the writer, with one act more.
pub(crate) fn teller_with(
    found: Option<Teller>,
    placed: &Placed<'_>,
    pair: Pair,
    number: u64,
) -> Option<Teller>
    requires { number < 2 ^ 63 }
    ensures { (acts : List placed_spec.PlacedValue) → found ≡ locations.teller_of pair.writer pair.reader number acts
        → result ≡ locations.teller_of pair.writer pair.reader number (acts ++ placed_spec.placed_value placed.now ∷ []) }
{
    if found.is_some() {
        return found;
    }
    if tells(placed, pair, number) {
        return Some(teller_at(placed));
    }
    found
}

/// The first of these acts by which the reader hears a word for the number from the writer.
pub(crate) fn find_teller(acts: &[Placed<'_>], pair: Pair, number: u64) -> Option<Teller>
    requires { number < 2 ^ 63 }
    ensures { result ≡ locations.teller_of pair.writer pair.reader number (map placed_spec.placed_value acts.now) }
{
    let mut found = None;
    for placed in acts {
        found = teller_with(found, placed, pair, number);
        if found.is_some() {
            return found;
        }
    }
    found
}
