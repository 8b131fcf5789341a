ghost use Rattle.std.specs.Prelude.{◌≡◌, MatchResult};
ghost use Rattle.rtps_wire.specs.Data as data_spec;
ghost use Rattle.rtps_wire.specs.Fault as fault;
ghost use Rattle.rtps_wire.specs.InlineQos as inline_qos;
ghost use Rattle.rtps_wire.specs.Values as values;

use super::fields::{entity_at, rest_at};
use crate::body::{DataBody, Payload};
use crate::fault::WireFault;
use crate::flags::DataFlags;
use crate::layout::data;
use bitflags::Flags;
use rtps_ids::{Order, SeqNum, number_at, u16_at};
use rtps_params::ParamList;

/// Reads the body of a DATA.
#[inline(always)]
pub(crate) fn data(order: Order, flags: u8, body: &[u8]) -> Result<DataBody<'_>, WireFault>
    ensures { fault.ReadsOrFaults values.data_value result (data_spec.data_fault order flags body.now) (data_spec.data_of order flags body.now) }
{
    let flags = DataFlags::from_bits_retain(flags);
    let (Some(offset), Some(number)) = (
        u16_at(order, body, data::OCTETS_TO_QOS),
        number_at(order, body, data::NUMBER),
    ) else {
        return Err(WireFault::ShortBody);
    };
    if flags.contains(DataFlags::D) && flags.contains(DataFlags::K) {
        return Err(WireFault::BadFlags);
    }
    let start = data::QOS_FROM + offset as usize;
    if start < data::SIZE || start > body.len() {
        return Err(WireFault::BadOffset);
    }
    let Some(number) = SeqNum::new(number) else {
        return Err(WireFault::BadNumber);
    };
    let (qos, octets) = match inline_qos(flags, order, rest_at(body, start)) {
        Ok(found) => found,
        Err(fault) => return Err(fault),
    };
    Ok(DataBody {
        reader: entity_at(body, data::READER),
        writer: entity_at(body, data::WRITER),
        number,
        qos,
        payload: payload(flags, octets),
    })
}

/// The inline QoS at the beginning of these octets, if the flags say that there is one, and the octets after it.
#[inline(always)]
pub(super) fn inline_qos(
    flags: DataFlags,
    order: Order,
    octets: &[u8],
) -> Result<(Option<ParamList<'_>>, &[u8]), WireFault>
    ensures { MatchResult result (inline_qos.HasQos order flags.0 octets.now) (inline_qos.LacksQos order flags.0 octets.now) }
{
    if !flags.contains(DataFlags::Q) {
        return Ok((None, octets));
    }
    match ParamList::read(octets, order) {
        Ok((list, used)) => Ok((Some(list), rest_at(octets, used))),
        Err(_) => Err(WireFault::BadInlineQos),
    }
}

/// The payload, which is all of these octets.
#[inline(always)]
fn payload(flags: DataFlags, octets: &[u8]) -> Payload<'_>
    ensures { values.payload_value result ≡ data_spec.payload_of flags.0 octets.now }
{
    if flags.contains(DataFlags::D) {
        Payload::Whole(octets)
    } else if flags.contains(DataFlags::K) {
        Payload::Key(octets)
    } else {
        Payload::Absent
    }
}
