ghost use Rattle.std.specs.Prelude.{◌≡◌, ◌≤◌, ◌++◌, ◌^◌, length, take, vec_len, MatchOption, OnOk, ◌<◌, ◌+◌, vec_capacity, OnErr};
ghost use Rattle.rtps_write.specs.WrittenBodies as written_bodies;
ghost use Rattle.rtps_ids.specs.declared.order.Order.{Order};
ghost use Rattle.rtps_write.specs.Held as held;
ghost use Rattle.rtps_wire.specs.Values as values;

use crate::fields::{entity_size, number_size, put_entities};
use rtps_ids::{Memory, Order, put_number, put_u16};
use rtps_wire::layout::data;
use rtps_wire::{DataBody, Payload};

/// Whether the inline QoS has another order than this.
pub(crate) fn is_other_order(order: Order, body: &DataBody<'_>) -> bool
    ensures { result ≡ written_bodies.is_other_order order (values.data_value body.now).qos }
{
    match body.qos {
        Some(list) => list.order() != order,
        None => false,
    }
}

/// The flags of a DATA.
pub(crate) fn flags(body: &DataBody<'_>) -> u8
    ensures { result ≡ written_bodies.data_flags (values.data_value body.now) }
{
    let qos = match body.qos {
        Some(_) => data::Q,
        None => 0,
    };
    qos | payload_flag(&body.payload)
}

/// The flag for a payload's kind.
fn payload_flag(payload: &Payload<'_>) -> u8
    ensures { result ≡ written_bodies.payload_flag (values.payload_value payload.now) }
{
    match payload {
        Payload::Absent => 0,
        Payload::Whole(_) => data::D,
        Payload::Key(_) => data::K,
    }
}

/// The octets of a payload.
fn payload_octets<'a>(payload: &Payload<'a>) -> &'a [u8]
    ensures { result.now ≡ written_bodies.payload_octets (values.payload_value payload.now) }
{
    match payload {
        Payload::Absent => &[],
        Payload::Whole(octets) | Payload::Key(octets) => octets,
    }
}

/// The size of the body of a DATA, or None if it is too large for octetsToNextHeader.
pub(crate) fn size(body: &DataBody<'_>) -> Option<u16>
    ensures held { held.IsHeldData (values.data_value body.now) }
    ensures size { (order : Order) → MatchOption result (2 ^ 16 ≤ length (written_bodies.data_octets order (values.data_value body.now))) (λ size. length (written_bodies.data_octets order (values.data_value body.now)) ≡ size) }
{
    let fields = data::READER
        + entity_size(body.reader)
        + entity_size(body.writer)
        + number_size(body.number);
    let qos = match body.qos {
        Some(list) => list.octets().len(),
        None => 0,
    };
    let payload = payload_octets(&body.payload).len();
    let size = fields.saturating_add(qos).saturating_add(payload);
    u16::try_from(size).ok()
}

/// Appends the body of a DATA.
pub(crate) fn data(order: Order, body: &DataBody<'_>, out: &mut Vec<u8>) -> Result<(), Memory>
    ensures written { OnOk result (out.new.items ≡ out.old.items ++ written_bodies.data_octets order (values.data_value body.now)) }
    ensures kept { take (vec_len out.old) out.new.items ≡ out.old.items }
    ensures full { OnErr result (vec_capacity out.old < vec_len out.old + length (written_bodies.data_octets order (values.data_value body.now))) }
    ensures room { vec_capacity out.old ≤ vec_capacity out.new }
{
    put_fields(order, body, out)?;
    if let Some(list) = body.qos {
        out.extend_from_slice(list.octets())?;
    }
    out.extend_from_slice(payload_octets(&body.payload))?;
    Ok(())
}

/// Appends the fields of a DATA. Its inline QoS comes right after them.
#[tactic(auto, using(crate::proofs::WrittenFields::lengths))]
fn put_fields(order: Order, body: &DataBody<'_>, out: &mut Vec<u8>) -> Result<(), Memory>
    ensures written { OnOk result (out.new.items ≡ out.old.items ++ written_bodies.field_octets order (values.data_value body.now)) }
    ensures kept { take (vec_len out.old) out.new.items ≡ out.old.items }
    ensures full { OnErr result (vec_capacity out.old < vec_len out.old + length (written_bodies.field_octets order (values.data_value body.now))) }
    ensures room { vec_capacity out.old ≤ vec_capacity out.new }
{
    out.extend_from_slice(&[0, 0])?;
    put_u16(order, (data::SIZE - data::QOS_FROM) as u16, out)?;
    put_entities(&body.reader, &body.writer, out)?;
    put_number(order, body.number.get(), out)
}
