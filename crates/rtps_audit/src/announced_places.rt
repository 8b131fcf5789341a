ghost use Rattle.std.specs.Prelude.{◌≡◌, [], ◌∷◌, cond, map, Some, None, MatchOption, OnOk};
ghost use Rattle.std.specs.Ordering.{is_eq};
ghost use Rattle.rtps_ids.specs.declared.identity.Guid.{Guid as GuidValue};
ghost use Rattle.rtps_discovery.specs.GuidOrder as guid_order;
ghost use Rattle.rtps_receiver.specs.Values as values;
ghost use Rattle.rtps_audit.specs.Placed as placed;

use crate::groups::Groups;
use rtps_discovery::announced_endpoint;
use rtps_ids::{Guid, Memory};
use rtps_receiver::Spoken;

/// Where an act announces an endpoint: the datagram that it stands in, counted from 1, and the place of its first octet there,
/// from 0.
#[derive(Clone, Copy, PartialEq, Eq, Debug)]
pub struct AnnouncedPlace {
    pub datagram: usize,
    pub at: usize,
}

/// The GUID of the endpoint that an act of a datagram announces, and where. None where it announces none.
fn announced_in(datagram: usize, act: &Spoken<'_>) -> Option<(Guid, AnnouncedPlace)>
    ensures { MatchOption result
        ((guid : GuidValue) → placed.announced_of guid (record { datagram = datagram; act = values.spoken_value act.now }) ≡ None)
        (λ found. (guid : GuidValue) → placed.announced_of guid (record { datagram = datagram; act = values.spoken_value act.now })
        ≡ cond (is_eq (guid_order.guid_cmp guid found.0)) (Some found.1) None) }
{
    match announced_endpoint(act) {
        Some(endpoint) => {
            let place = AnnouncedPlace {
                datagram,
                at: act.at,
            };
            Some((endpoint.guid, place))
        }
        None => None,
    }
}

/// Adds where an act of a datagram announces an endpoint, if it does. After `Memory` the places are of no use.
fn note_place(
    places: &mut Groups<Guid, AnnouncedPlace>,
    datagram: usize,
    act: &Spoken<'_>,
) -> Result<(), Memory>
    ensures { OnOk result (placed.AddsAnnounced places.old.map places.new.map (placed.placed_at datagram (values.spoken_value act.now ∷ []))) }
{
    if let Some((guid, place)) = announced_in(datagram, act) {
        places.push(guid, place)?;
    }
    Ok(())
}

/// Adds where the acts of a datagram announce endpoints. After `Memory` the places are of no use.
pub(crate) fn note_places(
    places: &mut Groups<Guid, AnnouncedPlace>,
    datagram: usize,
    acts: &[Spoken<'_>],
) -> Result<(), Memory>
    ensures { OnOk result (placed.AddsAnnounced places.old.map places.new.map (placed.placed_at datagram (map values.spoken_value acts.now))) }
{
    for act in acts {
        note_place(places, datagram, act)?;
    }
    Ok(())
}
