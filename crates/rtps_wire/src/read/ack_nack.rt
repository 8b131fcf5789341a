ghost use Rattle.rtps_wire.specs.AckNack as ack_nack_spec;
ghost use Rattle.rtps_wire.specs.Fault as fault;

use super::fields::{entity_at, set_at};
use crate::body::AckNackBody;
use crate::fault::WireFault;
use crate::layout::ack_nack;
use rtps_ids::{Order, u32_at};

/// Reads the body of an ACKNACK.
pub(crate) fn ack_nack(order: Order, flags: u8, body: &[u8]) -> Result<AckNackBody, WireFault>
    ensures { fault.ReadsOrFaults (λ ack_nack. ack_nack) result (ack_nack_spec.ack_nack_fault order body.now) (ack_nack_spec.ack_nack_of order flags body.now) }
{
    if body.len() < ack_nack::LEAST {
        return Err(WireFault::ShortBody);
    }
    let (set, used) = set_at(order, body, ack_nack::SET)?;
    let Some(count) = u32_at(order, body, ack_nack::SET + used) else {
        return Err(WireFault::ShortBody);
    };
    Ok(AckNackBody {
        reader: entity_at(body, ack_nack::READER),
        writer: entity_at(body, ack_nack::WRITER),
        set,
        count,
        is_final: flags & ack_nack::FINAL != 0,
    })
}
