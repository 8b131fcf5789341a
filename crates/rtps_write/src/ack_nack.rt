ghost use Rattle.std.specs.Prelude.{◌≡◌, ◌++◌, length, take, vec_len, OnOk, ◌<◌, ◌≤◌, ◌+◌, vec_capacity, OnErr};
ghost use Rattle.rtps_ids.specs.declared.order.Order.{Order};
ghost use Rattle.rtps_write.specs.Held as held;
ghost use Rattle.rtps_write.specs.WrittenBodies as written_bodies;

use crate::fields::{flag, put_entities, put_set, set_size};
use rtps_ids::layout::set;
use rtps_ids::{Memory, Order, put_u32};
use rtps_wire::AckNackBody;
use rtps_wire::layout::ack_nack;

/// The flags of an ACKNACK.
pub(crate) fn flags(body: &AckNackBody) -> u8
    ensures { result ≡ written_bodies.ack_nack_flags body.now }
{
    flag(body.is_final, ack_nack::FINAL)
}

/// How many octets the body of an ACKNACK has.
#[tactic(auto, using(crate::proofs::WrittenAckNack::ack_nack_long))]
pub(crate) fn size(body: AckNackBody) -> u16
    ensures held { held.IsHeldAckNack body }
    ensures size { (order : Order) → length (written_bodies.ack_nack_octets order body) ≡ result }
{
    (ack_nack::LEAST - set::WORDS) as u16 + set_size(body.set)
}

/// Appends the body of an ACKNACK.
#[tactic(auto, using(crate::proofs::WrittenFields::lengths))]
pub(crate) fn ack_nack(order: Order, body: &AckNackBody, out: &mut Vec<u8>) -> Result<(), Memory>
    ensures written { OnOk result (out.new.items ≡ out.old.items ++ written_bodies.ack_nack_octets order body.now) }
    ensures kept { take (vec_len out.old) out.new.items ≡ out.old.items }
    ensures full { OnErr result (vec_capacity out.old < vec_len out.old + length (written_bodies.ack_nack_octets order body.now)) }
    ensures room { vec_capacity out.old ≤ vec_capacity out.new }
{
    put_entities(&body.reader, &body.writer, out)?;
    put_set(order, &body.set, out)?;
    put_u32(order, body.count, out)
}
