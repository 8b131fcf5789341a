ghost use Rattle.std.specs.Prelude.{◌≤◌, drop, length};
ghost use Rattle.rtps_ids.specs.NumberSet as number_set;
ghost use Rattle.rtps_wire.specs.Fault as fault;
ghost use Rattle.rtps_wire.specs.Gap as gap_spec;
ghost use Rattle.rtps_wire.specs.declared.layout.gap.TheConstants.{LEAST, LIST};

use super::fields::{entity_at, set_at};
use crate::body::GapBody;
use crate::fault::WireFault;
use crate::layout::gap;
use rtps_ids::{NumberSet, Order, SeqNum, number_at};

/// Reads the body of a GAP.
pub(crate) fn gap(order: Order, body: &[u8]) -> Result<GapBody, WireFault>
    ensures { fault.ReadsOrFaults (λ gap. gap) result (gap_spec.gap_fault order body.now) (gap_spec.gap_of order body.now) }
{
    if body.len() < gap::LEAST {
        return Err(WireFault::ShortBody);
    }
    let Some(start) = number_at(order, body, gap::START) else {
        return Err(WireFault::ShortBody);
    };
    let Some(start) = SeqNum::new(start) else {
        return Err(WireFault::BadNumber);
    };
    Ok(GapBody {
        reader: entity_at(body, gap::READER),
        writer: entity_at(body, gap::WRITER),
        start,
        list: list(order, body)?,
    })
}

/// Reads the list of a GAP.
fn list(order: Order, body: &[u8]) -> Result<NumberSet, WireFault>
    requires { LEAST ≤ length body.now }
    ensures { fault.ReadsOrFaults (λ list. list) result (gap_spec.list_fault order body.now) (number_set.spelled_set order (drop LIST body.now)) }
{
    let (list, _) = set_at(order, body, gap::LIST)?;
    if list.base() == 0 {
        return Err(WireFault::BadSet);
    }
    Ok(list)
}
