ghost use Rattle.std.specs.Prelude.{◌≡◌, ◌≤◌, length, option_and_then, option_copied};
ghost use Rattle.rtps_params.specs.Values as values;
ghost use Rattle.rtps_discovery.specs.Announcement as announcement;
ghost use Rattle.rtps_discovery.specs.Endpoint as endpoint;
ghost use Rattle.rtps_discovery.specs.Fields as fields;

use crate::endpoint::{Durability, Endpoint, Reliability, Side};
use crate::endpoint_parameters::EndpointParameters;
use crate::fault::NoticeFault;
use crate::layout::pid::PARTICIPANT_GUID;
use crate::layout::{durability, reliability, representation};
use rtps_ids::{Guid, Order};
use rtps_params::{ParamList, read_guid, read_text, read_u32};

/// The GUID of the participant that a payload announces, or the first fault of the payload: one of the first four
/// (DDSI-RTPS 2.5, 8.5.3 "The Simple Participant Discovery Protocol"). It takes no memory.
#[tactic(auto, unfolding(crate::specs::Announcement::participant_in))]
pub fn read_participant(payload: &[u8]) -> Result<Guid, NoticeFault>
    ensures { announcement.ReadsOrFaults (λ guid. guid) result (announcement.participant_of payload.now) }
{
    match fields_of(payload) {
        Ok(list) => guid_in(list.first(PARTICIPANT_GUID)).ok_or(NoticeFault::NoGuid),
        Err(fault) => Err(fault),
    }
}

/// The endpoint of this side that a payload announces, or the first fault of the payload (DDSI-RTPS 2.5, 8.5.4 "The
/// Simple Endpoint Discovery Protocol"). Its names are parts of the payload. It takes no memory.
pub fn read_endpoint(payload: &[u8], side: Side) -> Result<Endpoint<'_>, NoticeFault>
    ensures { announcement.ReadsOrFaults endpoint.endpoint_value result (announcement.endpoint_of side payload.now) }
{
    match fields_of(payload) {
        Ok(list) => endpoint_of(&list, side),
        Err(fault) => Err(fault),
    }
}

/// The parameter list of a payload. It comes after two octets of representation and two of options. The representation
/// gives the order of its numbers (DDSI-RTPS 2.5, 10 "Serialized Payload Representation"). What follows its sentinel is
/// ignored.
#[tactic(auto, unfolding(crate::specs::Announcement::fields_of))]
pub(crate) fn fields_of(payload: &[u8]) -> Result<ParamList<'_>, NoticeFault>
    ensures { announcement.ReadsOrFaults fields.fields_value result (announcement.fields_of payload.now) }
{
    if payload.len() < representation::SIZE {
        return Err(NoticeFault::CutRepresentation);
    }
    let Some(order) = payload_order(payload) else {
        return Err(NoticeFault::Representation);
    };
    match ParamList::read(&payload[representation::SIZE..], order) {
        Ok((list, _)) => Ok(list),
        Err(_) => Err(NoticeFault::List),
    }
}

/// The order that the representation of a payload gives, if it is that of parameter lists.
fn payload_order(payload: &[u8]) -> Option<Order>
    requires { 4 ≤ length payload.now }
    ensures { result ≡ announcement.order_of payload.now }
{
    let id = &payload[..representation::ID_SIZE];
    if id == representation::PL_CDR_BE.as_slice() {
        Some(Order::Big)
    } else if id == representation::PL_CDR_LE.as_slice() {
        Some(Order::Little)
    } else {
        None
    }
}

/// The endpoint that a parameter list describes.
#[tactic(auto, unfolding(crate::specs::Announcement::endpoint_in))]
fn endpoint_of<'a>(list: &ParamList<'a>, side: Side) -> Result<Endpoint<'a>, NoticeFault>
    ensures { announcement.ReadsOrFaults endpoint.endpoint_value result (announcement.endpoint_in side (fields.fields_value list.now)) }
{
    let order = list.order();
    let told = EndpointParameters::of(list);
    let Some(guid) = guid_in(told.guid) else {
        return Err(NoticeFault::NoGuid);
    };
    let Some(topic) = told.topic else {
        return Err(NoticeFault::NoTopic);
    };
    let Some(type_name) = told.type_name else {
        return Err(NoticeFault::NoType);
    };
    let (Some(topic), Some(type_name)) = (read_text(topic, order), read_text(type_name, order))
    else {
        return Err(NoticeFault::BadText);
    };
    let Some(reliability) = reliability_in(told.reliability, order, side) else {
        return Err(NoticeFault::BadReliability);
    };
    let Some(durability) = durability_in(told.durability, order) else {
        return Err(NoticeFault::BadDurability);
    };
    Ok(Endpoint {
        guid,
        side,
        topic,
        type_name,
        reliability,
        durability,
    })
}

/// The GUID in the value of a parameter, or None if there is no value or it is cut.
pub(crate) fn guid_in(value: Option<&[u8]>) -> Option<Guid>
    ensures { result ≡ option_and_then values.guid_of (option_copied value.entry) }
{
    match value {
        Some(value) => read_guid(value),
        None => None,
    }
}

/// The reliability in the value of a parameter, or the default of this side if there is no value. None if the value is
/// cut or its kind is unknown.
fn reliability_in(value: Option<&[u8]>, order: Order, side: Side) -> Option<Reliability>
    ensures { result
        ≡ announcement.kind_in order announcement.reliability_of_kind (announcement.default_reliability side) (option_copied value.entry) }
{
    let Some(value) = value else {
        return Some(match side {
            Side::Writer => Reliability::Reliable,
            Side::Reader => Reliability::BestEffort,
        });
    };
    match read_u32(value, order) {
        Some(reliability::BEST_EFFORT) => Some(Reliability::BestEffort),
        Some(reliability::RELIABLE) => Some(Reliability::Reliable),
        _ => None,
    }
}

/// The durability in the value of a parameter, or the default if there is no value. None if the value is cut or its
/// kind is unknown.
fn durability_in(value: Option<&[u8]>, order: Order) -> Option<Durability>
    ensures { result ≡ announcement.kind_in order announcement.durability_of_kind Durability.Volatile (option_copied value.entry) }
{
    let Some(value) = value else {
        return Some(Durability::Volatile);
    };
    match read_u32(value, order) {
        Some(durability::VOLATILE) => Some(Durability::Volatile),
        Some(durability::TRANSIENT_LOCAL) => Some(Durability::TransientLocal),
        Some(durability::TRANSIENT) => Some(Durability::Transient),
        Some(durability::PERSISTENT) => Some(Durability::Persistent),
        _ => None,
    }
}
