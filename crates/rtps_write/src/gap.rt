ghost use Rattle.std.specs.Prelude.{◌≡◌, ◌==◌, ◌++◌, length, take, vec_len, OnOk, ◌<◌, ◌≤◌, ◌+◌, vec_capacity, OnErr};
ghost use Rattle.rtps_ids.specs.declared.order.Order.{Order};
ghost use Rattle.rtps_write.specs.Held as held;
ghost use Rattle.rtps_write.specs.WrittenBodies as written_bodies;

use crate::fields::{put_entities, put_set, set_size};
use rtps_ids::{Memory, Order, put_number};
use rtps_wire::GapBody;
use rtps_wire::layout::gap;

/// Whether no GAP can have this list.
pub(crate) fn is_bad_list(body: &GapBody) -> bool
    ensures { result ≡ (body.now.list.base == 0) }
{
    body.list.base() == 0
}

/// How many octets the body of a GAP has.
#[tactic(auto, using(crate::proofs::WrittenGap::gap_long))]
pub(crate) fn size(body: GapBody) -> u16
    ensures held { held.IsHeldGap body }
    ensures size { (order : Order) → length (written_bodies.gap_octets order body) ≡ result }
{
    // Called only because its contract gives the range of the number.
    let _start = body.start.get();
    gap::LIST as u16 + set_size(body.list)
}

/// Appends the body of a GAP.
#[tactic(auto, using(crate::proofs::WrittenFields::lengths))]
pub(crate) fn gap(order: Order, body: &GapBody, out: &mut Vec<u8>) -> Result<(), Memory>
    ensures written { OnOk result (out.new.items ≡ out.old.items ++ written_bodies.gap_octets order body.now) }
    ensures kept { take (vec_len out.old) out.new.items ≡ out.old.items }
    ensures full { OnErr result (vec_capacity out.old < vec_len out.old + length (written_bodies.gap_octets order body.now)) }
    ensures room { vec_capacity out.old ≤ vec_capacity out.new }
{
    put_entities(&body.reader, &body.writer, out)?;
    put_number(order, body.start.get(), out)?;
    put_set(order, &body.list, out)
}
