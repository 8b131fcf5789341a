//! Where acts stand in a recording.

ghost use Rattle.std.specs.Prelude.{◌≡◌};
ghost use Rattle.rtps_known.specs.Places as places_spec;

/// The place of an act in a recording, and when its datagram came.
#[derive(Clone, Copy)]
pub struct Place {
    /// Its datagram, counted from 1.
    pub datagram: u64,
    /// The place of its first octet in the datagram, from 0.
    pub at: usize,
    /// In nanoseconds since 1970 began, if that is known.
    pub time: Option<u64>,
}

/// Whether the first place stands before the second one.
pub(crate) fn precedes(one: Place, other: Place) -> bool
    ensures { result ≡ places_spec.precedes one other }
{
    one.datagram < other.datagram || (one.datagram == other.datagram && one.at < other.at)
}

/// The later of two places.
fn later(one: Place, other: Place) -> Place
    ensures { result ≡ places_spec.later one other }
{
    if precedes(one, other) { other } else { one }
}

/// The later of two places, where there are both.
pub(crate) fn later_known(one: Option<Place>, other: Option<Place>) -> Option<Place>
    ensures { result ≡ places_spec.later_of one other }
{
    Some(later(one?, other?))
}
