ghost use Rattle.std.specs.Prelude.{◌≡◌, true};
ghost use Rattle.std.specs.Option.{option_copied, option_map};
ghost use Rattle.rtps_params.specs.Lists as lists;
ghost use Rattle.rtps_receiver.specs.Speech as speech;
ghost use Rattle.rtps_receiver.specs.Values as receiver_values;
ghost use Rattle.rtps_wire.specs.Values as wire_values;
ghost use Rattle.rtps_discovery.specs.Leaving as leaving;
ghost use Rattle.rtps_discovery.specs.Notice as notice;

use crate::announcement::{fields_of, guid_in};
use crate::endpoint::Side;
use crate::layout::pid::{ENDPOINT_GUID, KEY_HASH, PARTICIPANT_GUID, STATUS_INFO};
use crate::layout::{entity, status};
use crate::notice::{Subject, subject_of};
use rtps_ids::Guid;
use rtps_params::ParamList;
use rtps_receiver::{ActBody, Spoken, SpokenBody};
use rtps_wire::{DataBody, Payload};

/// The value of a parameter of one sample alone.
fn inline_value<'a>(qos: &Option<ParamList<'a>>, pid: u16) -> Option<&'a [u8]>
    ensures { option_copied result ≡ leaving.inline_value pid (option_map lists.list_value qos.now) }
{
    match qos {
        Some(list) => list.first(pid),
        None => None,
    }
}

/// Whether a status says that what has the key is disposed or unregistered.
fn is_ending(value: Option<&[u8]>) -> bool
    ensures { result ≡ leaving.is_ending (option_copied value.entry) }
{
    match value {
        Some(value) => value.len() == status::SIZE && value[status::FLAGS] % status::ENDS != 0,
        None => false,
    }
}

/// The GUID under an id in a payload, a whole one or a key.
fn guid_in_payload(payload: &Payload<'_>, pid: u16) -> Option<Guid>
    ensures { result ≡ leaving.guid_in_payload pid (wire_values.payload_value payload.now) }
{
    let octets = match payload {
        Payload::Whole(octets) => *octets,
        Payload::Key(octets) => *octets,
        Payload::Absent => return None,
    };
    match fields_of(octets) {
        Ok(list) => guid_in(list.first(pid)),
        Err(_) => None,
    }
}

/// The GUID under an id in the payload of a DATA, or else the one in its key hash.
fn key_of(body: &DataBody<'_>, pid: u16) -> Option<Guid>
    ensures { result ≡ leaving.key_of pid (wire_values.data_value body.now) }
{
    match guid_in_payload(&body.payload, pid) {
        Some(guid) => Some(guid),
        None => guid_in(inline_value(&body.qos, KEY_HASH)),
    }
}

/// Whether a DATA of what announces readers, or participants, has the key of the reader, or of its participant.
fn has_key_of(body: &DataBody<'_>, reader: Guid) -> bool
    ensures { result ≡ leaving.has_key_of reader (notice.subject_of body.now.writer) (wire_values.data_value body.now) }
{
    match subject_of(body.writer) {
        Some(Subject::Participant) => match key_of(body, PARTICIPANT_GUID) {
            Some(key) => key.prefix == reader.prefix,
            None => false,
        },
        Some(Subject::Endpoint(Side::Reader)) => match key_of(body, ENDPOINT_GUID) {
            Some(key) => key.prefix == reader.prefix && key.entity == reader.entity,
            None => false,
        },
        Some(Subject::Endpoint(Side::Writer)) => false,
        None => false,
    }
}

/// Whether an act says that this reader leaves: its participant disposes or unregisters the reader, or itself, to whomever
/// (DDSI-RTPS 2.5, 9.6.4.9 "StatusInfo_t (PID_STATUS_INFO)").
pub fn leaves(act: &Spoken<'_>, reader: Guid) -> bool
    ensures { result ≡ leaving.leaves reader (receiver_values.spoken_value act.now) }
{
    if act.source != reader.prefix {
        return false;
    }
    match &act.body {
        // Most DATA have no status.
        SpokenBody::Act(ActBody::Data(data)) => {
            is_ending(inline_value(&data.qos, STATUS_INFO)) && has_key_of(data, reader)
        }
        SpokenBody::Act(ActBody::Heartbeat(_)) => false,
        SpokenBody::Act(ActBody::AckNack(_)) => false,
        SpokenBody::Act(ActBody::Gap(_)) => false,
        SpokenBody::DataFrag(_) => false,
        SpokenBody::NackFrag(_) => false,
    }
}

/// The built-in writers of a reader's participant: of its readers, and of itself. No other says that the reader leaves.
#[tactic(auto, using(crate::proofs::Leavers::left_by_one))]
pub fn leaving_writers(reader: Guid) -> (Guid, Guid)
    ensures { (act : receiver_values.ActValue) → leaving.leaves reader act ≡ true → leaving.is_one_of result.0 result.1 (speech.origin_of act) ≡ true }
{
    let readers = Guid {
        prefix: reader.prefix,
        entity: entity::SUBSCRIPTIONS,
    };
    let participants = Guid {
        prefix: reader.prefix,
        entity: entity::PARTICIPANTS,
    };
    (readers, participants)
}
