ghost use Rattle.std.specs.Prelude.{◌≡◌, false, filter, length, nat_le, IfOk, MatchOption};
ghost use Rattle.rtps_audit.specs.Placed as placed_spec;
ghost use Rattle.rtps_evidence.specs.Locations as locations;
ghost use Rattle.rtps_evidence.specs.WayRound as way_round;
ghost use Rattle.rtps_evidence.specs.declared.location.Location.{Location as Place};

use crate::location::{Location, location_of};
use rtps_audit::Placed;
use rtps_ids::Memory;

/// How many acts that both recordings have stand before and behind the window.
const MARGIN: usize = 5;

/// What stands in the midst of the places of acts that both recordings have: behind the fifth, and before the fifth from the end.
#[derive(Clone, Copy)]
pub(crate) struct Window {
    pub(crate) lo: Location,
    pub(crate) hi: Location,
}

/// The window of these places; None where they are too few. It puts them in their order.
pub(crate) fn window_of(places: &mut Vec<Location>) -> Result<Option<Window>, Memory>
    ensures { IfOk result (λ window. MatchOption window
        ((place : Place) → nat_le 5 (length (filter (way_round.goes_before place) places.old.items)) ≡ false)
        (λ window. way_round.IsWindow places.old.items window.lo window.hi)) }
{
    places.sort()?;
    let count = places.len();
    if count < MARGIN {
        return Ok(None);
    }
    Ok(Some(Window {
        lo: places[MARGIN - 1],
        hi: places[count - MARGIN],
    }))
}

impl Window {
    /// Whether an act stands in it.
    pub(crate) fn has(&self, placed: &Placed<'_>) -> bool
        ensures { result ≡ way_round.is_within self.now.lo self.now.hi (locations.location_of (placed_spec.placed_value placed.now)) }
    {
        let place = location_of(placed);
        self.lo < place && place < self.hi
    }
}
