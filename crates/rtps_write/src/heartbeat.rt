ghost use Rattle.std.specs.Prelude.{◌≡◌, ◌++◌, length, take, vec_len, OnOk, ◌<◌, ◌≤◌, ◌+◌, vec_capacity, OnErr};
ghost use Rattle.rtps_ids.specs.declared.order.Order.{Order};
ghost use Rattle.rtps_write.specs.Held as held;
ghost use Rattle.rtps_write.specs.WrittenBodies as written_bodies;

use crate::fields::{flag, put_entities};
use rtps_ids::{Memory, Order, put_number, put_u32};
use rtps_wire::HeartbeatBody;
use rtps_wire::layout::heartbeat;

/// Whether no HEARTBEAT can have these numbers.
pub(crate) fn is_bad_range(body: &HeartbeatBody) -> bool
    ensures { result ≡ written_bodies.is_bad_range body.now }
{
    body.last < 0 || body.last < body.first.get() - 1
}

/// The flags of a HEARTBEAT.
pub(crate) fn flags(body: &HeartbeatBody) -> u8
    ensures { result ≡ written_bodies.heartbeat_flags body.now }
{
    flag(body.is_final, heartbeat::FINAL) | flag(body.live, heartbeat::LIVELINESS)
}

/// How many octets the body of a HEARTBEAT has.
#[tactic(auto, using(crate::proofs::WrittenHeartbeat::heartbeat_long))]
pub(crate) fn size(body: HeartbeatBody) -> u16
    ensures held { held.IsHeldHeartbeat body }
    ensures size { (order : Order) → length (written_bodies.heartbeat_octets order body) ≡ result }
{
    // Called only because its contract gives the range of the number.
    let _first = body.first.get();
    heartbeat::SIZE as u16
}

/// Appends the body of a HEARTBEAT.
#[tactic(auto, using(crate::proofs::WrittenFields::lengths))]
pub(crate) fn heartbeat(order: Order, body: &HeartbeatBody, out: &mut Vec<u8>) -> Result<(), Memory>
    ensures written { OnOk result (out.new.items ≡ out.old.items ++ written_bodies.heartbeat_octets order body.now) }
    ensures kept { take (vec_len out.old) out.new.items ≡ out.old.items }
    ensures full { OnErr result (vec_capacity out.old < vec_len out.old + length (written_bodies.heartbeat_octets order body.now)) }
    ensures room { vec_capacity out.old ≤ vec_capacity out.new }
{
    put_entities(&body.reader, &body.writer, out)?;
    put_number(order, body.first.get(), out)?;
    put_number(order, body.last, out)?;
    put_u32(order, body.count, out)
}
