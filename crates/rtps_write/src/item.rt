ghost use Rattle.std.specs.Prelude.{◌≡◌, ◌≤◌, ◌<◌, ◌++◌, ◌^◌, length, take, vec_len, MatchOption, OnOk, ◌+◌, vec_capacity, OnErr};
ghost use Rattle.rtps_ids.specs.declared.order.Order.{Order};
ghost use Rattle.rtps_write.specs.Held as held;
ghost use Rattle.rtps_wire.specs.Values as values;
ghost use Rattle.rtps_write.specs.Writable as writable;
ghost use Rattle.rtps_write.specs.Written as written_spec;

use crate::fields::order_flag;
use crate::write_fault::WriteFault;
use crate::{ack_nack, data, gap, heartbeat, info};
use rtps_ids::{Memory, Order, put_u16};
use rtps_wire::layout::{id, submessage};
use rtps_wire::{Body, Item};

/// Whether no submessage of this order can have this body.
fn is_not_writable(order: Order, body: &Body<'_>) -> bool
    ensures { result ≡ writable.is_not_writable order (values.body_value body.now) }
{
    match body {
        Body::Skipped { .. } => true,
        Body::Heartbeat(body) => heartbeat::is_bad_range(body),
        Body::Gap(body) => gap::is_bad_list(body),
        Body::Data(body) => data::is_other_order(order, body),
        _ => false,
    }
}

/// The size of a body, or None if it is too large for octetsToNextHeader.
pub(crate) fn size(body: &Body<'_>) -> Option<u16>
    ensures held { held.IsHeldBody (values.body_value body.now) }
    ensures size { (order : Order) → MatchOption result (2 ^ 16 ≤ length (written_spec.written_body order (values.body_value body.now))) (λ size. length (written_spec.written_body order (values.body_value body.now)) ≡ size) }
{
    match body {
        Body::Data(body) => data::size(body),
        Body::Heartbeat(body) => Some(heartbeat::size(*body)),
        Body::AckNack(body) => Some(ack_nack::size(*body)),
        Body::Gap(body) => Some(gap::size(*body)),
        Body::InfoTs(time) => Some(info::info_ts_size(*time)),
        Body::InfoDst(prefix) => Some(info::info_dst_size(*prefix)),
        Body::InfoSrc {
            version,
            vendor,
            prefix,
        } => Some(info::info_src_size(*version, *vendor, *prefix)),
        Body::Skipped { .. } => Some(0),
    }
}

/// Why an item is not written, if it is not. It matters whether it is the last one.
pub(crate) fn refusal(item: &Item<'_>, is_last: bool) -> Option<WriteFault>
    ensures fault { result ≡ writable.item_fault is_last (values.item_value item.now) }
    ensures held { held.IsHeldItem (values.item_value item.now) }
{
    let size = size(&item.body);
    if is_not_writable(item.order, &item.body) {
        return Some(WriteFault::NotWritable);
    }
    let Some(size) = size else {
        return Some(WriteFault::TooLong);
    };
    if !is_last && size % submessage::ALIGNMENT != 0 {
        return Some(WriteFault::Unaligned);
    }
    None
}

/// The id of the submessage of a body.
fn id_of(body: &Body<'_>) -> u8
    ensures { result ≡ written_spec.written_id (values.body_value body.now) }
{
    match body {
        Body::Data(_) => id::DATA,
        Body::Heartbeat(_) => id::HEARTBEAT,
        Body::AckNack(_) => id::ACKNACK,
        Body::Gap(_) => id::GAP,
        Body::InfoTs(_) => id::INFO_TS,
        Body::InfoDst(_) => id::INFO_DST,
        Body::InfoSrc { .. } => id::INFO_SRC,
        Body::Skipped { id } => *id,
    }
}

/// The flags of a body, except flag E.
fn own_flags(body: &Body<'_>) -> u8
    ensures { result ≡ written_spec.own_flags (values.body_value body.now) }
{
    match body {
        Body::Data(body) => data::flags(body),
        Body::Heartbeat(body) => heartbeat::flags(body),
        Body::AckNack(body) => ack_nack::flags(body),
        Body::InfoTs(time) => info::info_ts_flags(time),
        _ => 0,
    }
}

/// Appends a body.
fn put_body(order: Order, body: &Body<'_>, out: &mut Vec<u8>) -> Result<(), Memory>
    ensures written { OnOk result (out.new.items ≡ out.old.items ++ written_spec.written_body order (values.body_value body.now)) }
    ensures kept { take (vec_len out.old) out.new.items ≡ out.old.items }
    ensures full { OnErr result (vec_capacity out.old < vec_len out.old + length (written_spec.written_body order (values.body_value body.now))) }
    ensures room { vec_capacity out.old ≤ vec_capacity out.new }
{
    match body {
        Body::Data(body) => data::data(order, body, out),
        Body::Heartbeat(body) => heartbeat::heartbeat(order, body, out),
        Body::AckNack(body) => ack_nack::ack_nack(order, body, out),
        Body::Gap(body) => gap::gap(order, body, out),
        Body::InfoTs(time) => info::info_ts(order, time, out),
        Body::InfoDst(prefix) => info::info_dst(prefix, out),
        Body::InfoSrc {
            version,
            vendor,
            prefix,
        } => info::info_src(*version, vendor, prefix, out),
        Body::Skipped { .. } => Ok(()),
    }
}

/// Appends an item, whose body is not too long.
#[tactic(auto, using(crate::proofs::WrittenFields::lengths))]
pub(crate) fn put_item(item: &Item<'_>, out: &mut Vec<u8>) -> Result<(), Memory>
    requires { length (written_spec.written_body item.now.order (values.body_value item.now.body)) < 2 ^ 16 }
    ensures written { OnOk result (out.new.items ≡ out.old.items ++ written_spec.item_octets (values.item_value item.now)) }
    ensures kept { take (vec_len out.old) out.new.items ≡ out.old.items }
    ensures full { OnErr result (vec_capacity out.old < vec_len out.old + length (written_spec.item_octets (values.item_value item.now))) }
    ensures room { vec_capacity out.old ≤ vec_capacity out.new }
{
    let flags = order_flag(item.order) | own_flags(&item.body);
    let size = size(&item.body).unwrap_or(0);
    out.extend_from_slice(&[id_of(&item.body), flags])?;
    put_u16(item.order, size, out)?;
    put_body(item.order, &item.body, out)
}
