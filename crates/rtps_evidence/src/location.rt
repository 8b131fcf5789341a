ghost use Rattle.std.specs.Prelude.{◌≡◌};
ghost use Rattle.rtps_receiver.specs.Values as values;
ghost use Rattle.rtps_audit.specs.Placed as placed_spec;
ghost use Rattle.rtps_evidence.specs.Locations as locations;
ghost use Rattle.rtps_evidence.specs.Waits as waits;

use rtps_audit::Placed;
use rtps_receiver::{ActBody, SpokenBody};

/// The place of a submessage in a recording: its datagram, and where it stands in that.
#[derive(Clone, Copy, PartialEq, Eq, PartialOrd, Ord)]
pub struct Location {
    /// Its datagram, counted from 1.
    pub datagram: u64,
    /// The place of its first octet in the datagram, from 0.
    pub at: usize,
}

/// Which submessage an act is.
#[derive(Clone, Copy)]
pub enum Kind {
    Data,
    Heartbeat,
    AckNack,
    Gap,
    DataFrag,
    NackFrag,
}

/// Where an act stands.
pub(crate) fn location_of(placed: &Placed<'_>) -> Location
    ensures { result ≡ locations.location_of (placed_spec.placed_value placed.now) }
{
    Location {
        datagram: placed.datagram as u64,
        at: placed.act.at,
    }
}

/// Whether an act stands behind a place: in a later datagram, or as a later submessage of the same one. Behind no place stands
/// all.
pub(crate) fn is_behind(place: Option<Location>, placed: &Placed<'_>) -> bool
    ensures { result ≡ locations.is_behind place (placed_spec.placed_value placed.now) }
{
    let Some(place) = place else {
        return true;
    };
    let datagram = placed.datagram as u64;
    place.datagram < datagram || (place.datagram == datagram && place.at < placed.act.at)
}

/// Whether an act stands before a place: in an earlier datagram, or as an earlier submessage of the same one.
pub(crate) fn is_before(place: Location, placed: &Placed<'_>) -> bool
    ensures { result ≡ locations.is_before place (placed_spec.placed_value placed.now) }
{
    let datagram = placed.datagram as u64;
    datagram < place.datagram || (datagram == place.datagram && placed.act.at < place.at)
}

/// Whether a place stands before another: in an earlier datagram, or further to the front of the same one.
pub(crate) fn precedes(one: Location, other: Location) -> bool
    ensures { result ≡ waits.precedes one other }
{
    one.datagram < other.datagram || (one.datagram == other.datagram && one.at < other.at)
}

/// Whether an act is a GAP.
pub(crate) fn is_gap(body: &SpokenBody<'_>) -> bool
    ensures { result ≡ locations.is_gap (values.spoken_body_value body.now) }
{
    matches!(body, SpokenBody::Act(ActBody::Gap(_)))
}

/// Which submessage an act is.
pub(crate) fn kind_of(body: &SpokenBody<'_>) -> Kind
    ensures { result ≡ locations.kind_of (values.spoken_body_value body.now) }
{
    match body {
        SpokenBody::Act(ActBody::Data(_)) => Kind::Data,
        SpokenBody::Act(ActBody::Heartbeat(_)) => Kind::Heartbeat,
        SpokenBody::Act(ActBody::AckNack(_)) => Kind::AckNack,
        SpokenBody::NackFrag(_) => Kind::NackFrag,
        SpokenBody::Act(ActBody::Gap(_)) => Kind::Gap,
        SpokenBody::DataFrag(_) => Kind::DataFrag,
    }
}
