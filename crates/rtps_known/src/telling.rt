//! What an act tells of the numbers of a built-in writer of endpoints.

ghost use Rattle.std.specs.Prelude.{ℕ, ◌≡◌, ◌==◌};
ghost use Rattle.rtps_coverage.specs.Stretches as stretches;
ghost use Rattle.rtps_receiver.specs.Values as receiver_values;
ghost use Rattle.rtps_wire.specs.Values as wire_values;
ghost use Rattle.rtps_known.specs.Tellings as tellings;

use crate::layout::{entity, status};
use rtps_coverage::Stretch;
use rtps_discovery::announced_endpoint;
use rtps_ids::{EntityId, Guid, GuidPrefix, SeqNum};
use rtps_receiver::{ActBody, Spoken, SpokenBody};
use rtps_wire::DataBody;

/// Numbers that are told to a participant, or to everyone: those from the first on and below the second.
#[derive(Clone, Copy, PartialEq, Eq, PartialOrd, Ord)]
pub(crate) struct Telling {
    pub(crate) dest: Option<GuidPrefix>,
    pub(crate) lo: u64,
    pub(crate) hi: u64,
}

/// An endpoint that a number announces.
#[derive(Clone, Copy, PartialEq, Eq, PartialOrd, Ord)]
pub(crate) struct Announcement {
    pub(crate) number: u64,
    pub(crate) endpoint: Guid,
}

/// A number as a stretch.
fn one(number: SeqNum) -> Stretch
    ensures { (n : ℕ) → stretches.stretch_has n result ≡ (number == n) }
{
    let lo = number.get().cast_unsigned();
    Stretch { lo, hi: lo + 1 }
}

/// The numbers that an act tells.
pub(crate) fn numbers_told(act: &Spoken<'_>) -> Stretch
    ensures { (n : ℕ) → stretches.stretch_has n result ≡ tellings.tells (receiver_values.spoken_value act.now).body n }
{
    match &act.body {
        SpokenBody::Act(ActBody::Data(data)) => one(data.number),
        SpokenBody::DataFrag(fragment) => one(fragment.number),
        SpokenBody::Act(ActBody::Heartbeat(heartbeat)) => Stretch {
            lo: heartbeat.first.get().cast_unsigned(),
            hi: heartbeat.last.max(0).cast_unsigned() + 1,
        },
        _ => Stretch { lo: 0, hi: 0 },
    }
}

/// Whether a DATA says that what it is of is disposed or unregistered.
fn is_ending(body: &DataBody<'_>) -> bool
    ensures { result ≡ tellings.says_ended (wire_values.data_value body.now) }
{
    let Some(list) = &body.qos else {
        return false;
    };
    match list.first(status::PID) {
        Some(value) => value.len() == status::SIZE && value[status::FLAGS] % status::ENDS != 0,
        None => false,
    }
}

/// The number of a DATA that says so.
pub(crate) fn number_ended(act: &Spoken<'_>) -> Option<u64>
    ensures { result ≡ tellings.number_ended (receiver_values.spoken_value act.now).body }
{
    match &act.body {
        SpokenBody::Act(ActBody::Data(data)) if is_ending(data) => {
            Some(data.number.get().cast_unsigned())
        }
        _ => None,
    }
}

/// The number of a DATA.
fn number_sent(act: &Spoken<'_>) -> Option<u64>
    ensures { result ≡ tellings.number_sent (receiver_values.spoken_value act.now).body }
{
    match &act.body {
        SpokenBody::Act(ActBody::Data(data)) => Some(data.number.get().cast_unsigned()),
        _ => None,
    }
}

/// Whether this is one of the two built-in writers of endpoints, and that its reader.
fn are_built_in(writer: EntityId, reader: EntityId) -> bool
    ensures { result ≡ tellings.are_built_in writer reader }
{
    (writer == entity::PUBLICATIONS && reader == entity::PUBLICATIONS_READER)
        || (writer == entity::SUBSCRIPTIONS && reader == entity::SUBSCRIPTIONS_READER)
}

/// Whether this is one of the two built-in writers of endpoints.
fn is_built_in(writer: EntityId) -> bool
    ensures { result ≡ tellings.is_built_in writer }
{
    writer == entity::PUBLICATIONS || writer == entity::SUBSCRIPTIONS
}

/// Numbers below a base that a participant acknowledges to a writer.
#[derive(Clone, Copy)]
pub(crate) struct Acknowledgement {
    pub(crate) writer: Guid,
    pub(crate) base: u64,
}

/// What an act acknowledges to a built-in writer of endpoints.
pub(crate) fn acknowledged(act: &Spoken<'_>) -> Option<Acknowledgement>
    ensures { result ≡ tellings.acknowledgement_in (receiver_values.spoken_value act.now) }
{
    let SpokenBody::Act(ActBody::AckNack(ack_nack)) = &act.body else {
        return None;
    };
    if !are_built_in(ack_nack.writer, ack_nack.reader) {
        return None;
    }
    let writer = Guid {
        prefix: act.dest?,
        entity: ack_nack.writer,
    };
    let base = ack_nack.set.base().cast_unsigned();
    Some(Acknowledgement { writer, base })
}

/// The built-in writer of endpoints that an act is from.
fn teller(act: &Spoken<'_>) -> Option<Guid>
    ensures { result ≡ tellings.teller_of (receiver_values.spoken_value act.now) }
{
    let origin = act.origin();
    if is_built_in(origin.entity) {
        Some(origin)
    } else {
        None
    }
}

/// The endpoint that an act announces, with its number.
pub(crate) fn number_announced(act: &Spoken<'_>) -> Option<Announcement>
    ensures { result ≡ tellings.announcement_in (receiver_values.spoken_value act.now) }
{
    let number = number_sent(act)?;
    let endpoint = announced_endpoint(act)?.guid;
    Some(Announcement { number, endpoint })
}

/// The built-in writer of endpoints that an act is about: the one that it acknowledges something to, or else the one that it is from.
pub(crate) fn subject(act: &Spoken<'_>) -> Option<Guid>
    ensures { result ≡ tellings.subject_of (receiver_values.spoken_value act.now) }
{
    match acknowledged(act) {
        Some(told) => Some(told.writer),
        None => teller(act),
    }
}
