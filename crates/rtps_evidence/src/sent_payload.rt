ghost use Rattle.std.specs.Prelude.{◌≡◌, ◌++◌, ◌∷◌, [], IfOk, List, map};
ghost use Rattle.std.specs.Option.{option_map};
ghost use Rattle.rtps_wire.specs.Values as values;
ghost use Rattle.rtps_audit.specs.Placed as placed_spec;
ghost use Rattle.rtps_evidence.specs.Locations as locations;

use crate::location::{Location, location_of};
use crate::said_to::said_to;
use bumpalo::Bump;
use rtps_audit::Placed;
use rtps_discovery::Pair;
use rtps_ids::Memory;
use rtps_wire::Payload;

/// A payload that was sent for a number, and the DATA that it stands in.
#[derive(Clone, Copy)]
pub struct Sent<'a> {
    pub payload: Payload<'a>,
    pub place: Location,
}

/// The payloads that were sent for a number, as far as the acts of its writer have come.
#[derive(Clone, Copy)]
pub(crate) struct SentPayloads<'a> {
    /// The first of all.
    pub(crate) first: Option<Sent<'a>>,
    /// The first that is another one.
    pub(crate) other: Option<Sent<'a>>,
}

/// A payload, with its octets in an arena.
fn payload_kept<'k>(payload: Payload<'_>, arena: &'k Bump) -> Result<Payload<'k>, Memory>
    ensures { IfOk result (λ kept. values.payload_value kept ≡ values.payload_value payload.entry) }
{
    match payload {
        Payload::Absent => Ok(Payload::Absent),
        Payload::Whole(octets) => Ok(Payload::Whole(arena.try_alloc_slice_copy(octets)?)),
        Payload::Key(octets) => Ok(Payload::Key(arena.try_alloc_slice_copy(octets)?)),
    }
}

/// A payload that was sent, if there is one, with its octets in an arena.
pub(crate) fn sent_kept<'k>(
    sent: Option<Sent<'_>>,
    arena: &'k Bump,
) -> Result<Option<Sent<'k>>, Memory>
    ensures { IfOk result (λ kept. option_map locations.sent_value kept ≡ option_map locations.sent_value sent.entry) }
{
    match sent {
        Some(sent) => Ok(Some(Sent {
            payload: payload_kept(sent.payload, arena)?,
            place: sent.place,
        })),
        None => Ok(None),
    }
}

/// The payload that the reader hears for the number from the writer by an act.
fn payload_for<'a>(placed: &Placed<'a>, pair: Pair, number: u64) -> Option<Payload<'a>>
    ensures { option_map values.payload_value result ≡ locations.payload_for pair.writer pair.reader number (placed_spec.placed_value placed.now) }
{
    let said = said_to(placed, pair);
    if said.told == Some(number) {
        said.payload.copied()
    } else {
        None
    }
}

/// Whether two payloads are equal in kind and octets.
fn is_same(one: Payload<'_>, other: Payload<'_>) -> bool
    ensures { result ≡ locations.is_same (values.payload_value one.entry) (values.payload_value other.entry) }
{
    match (one, other) {
        (Payload::Absent, Payload::Absent) => true,
        (Payload::Whole(one), Payload::Whole(other)) => one == other,
        (Payload::Key(one), Payload::Key(other)) => one == other,
        _ => false,
    }
}

impl<'a> SentPayloads<'a> {
    ghost use Rattle.std.specs.Prelude.{ℕ};
    ghost use Rattle.rtps_discovery.specs.declared.matching.Pair.{Pair as PairValue};

    /// The writer said nothing yet.
    fn none() -> SentPayloads<'a>
        ensures { (pair : PairValue) (number : ℕ) → locations.AreSent pair.writer pair.reader number [] (option_map locations.sent_value result.first) (option_map locations.sent_value result.other) }
    {
        SentPayloads {
            first: None,
            other: None,
        }
    }

    /// The same with the next act of the writer.
    pub(crate) fn with(&self, placed: &Placed<'a>, pair: Pair, number: u64) -> SentPayloads<'a>
        ensures { (acts : List placed_spec.PlacedValue)
            → locations.AreSent pair.writer pair.reader number acts (option_map locations.sent_value self.now.first) (option_map locations.sent_value self.now.other)
            → locations.AreSent pair.writer pair.reader number (acts ++ placed_spec.placed_value placed.now ∷ []) (option_map locations.sent_value result.first) (option_map locations.sent_value result.other) }
    {
        if self.other.is_some() {
            return *self;
        }
        let Some(payload) = payload_for(placed, pair, number) else {
            return *self;
        };
        let place = location_of(placed);
        let sent = Sent { payload, place };
        let Some(first) = self.first else {
            return SentPayloads {
                first: Some(sent),
                other: None,
            };
        };
        if is_same(first.payload, payload) {
            return *self;
        }
        SentPayloads {
            first: self.first,
            other: Some(sent),
        }
    }

    /// By these acts of the writer.
    pub(crate) fn of(acts: &[Placed<'a>], pair: Pair, number: u64) -> SentPayloads<'a>
        ensures { locations.AreSent pair.writer pair.reader number (map placed_spec.placed_value acts.now) (option_map locations.sent_value result.first) (option_map locations.sent_value result.other) }
    {
        let mut sent = SentPayloads::none();
        for placed in acts {
            sent = sent.with(placed, pair, number);
            if sent.other.is_some() {
                return sent;
            }
        }
        sent
    }
}
