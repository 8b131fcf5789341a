ghost use Rattle.rtps_wire.specs.Fault as fault;
ghost use Rattle.rtps_wire.specs.Heartbeat as heartbeat_spec;

use super::fields::entity_at;
use crate::body::HeartbeatBody;
use crate::fault::WireFault;
use crate::layout::heartbeat;
use rtps_ids::{Order, SeqNum, number_at, u32_at};

/// Reads the body of a HEARTBEAT.
#[inline]
pub(crate) fn heartbeat(order: Order, flags: u8, body: &[u8]) -> Result<HeartbeatBody, WireFault>
    ensures { fault.ReadsOrFaults (λ heartbeat. heartbeat) result (heartbeat_spec.heartbeat_fault order body.now) (heartbeat_spec.heartbeat_of order flags body.now) }
{
    let (Some(first), Some(last), Some(count)) = (
        number_at(order, body, heartbeat::FIRST),
        number_at(order, body, heartbeat::LAST),
        u32_at(order, body, heartbeat::COUNT),
    ) else {
        return Err(WireFault::ShortBody);
    };
    let Some(first) = SeqNum::new(first) else {
        return Err(WireFault::BadNumber);
    };
    if last < 0 {
        return Err(WireFault::BadNumber);
    }
    if last < first.get() - 1 {
        return Err(WireFault::BadRange);
    }
    Ok(HeartbeatBody {
        reader: entity_at(body, heartbeat::READER),
        writer: entity_at(body, heartbeat::WRITER),
        first,
        last,
        count,
        is_final: flags & heartbeat::FINAL != 0,
        live: flags & heartbeat::LIVELINESS != 0,
    })
}
