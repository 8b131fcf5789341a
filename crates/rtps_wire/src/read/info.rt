ghost use Rattle.rtps_wire.specs.Fault as fault;
ghost use Rattle.rtps_wire.specs.Info as info;

use super::fields::{prefix_at, vendor_at};
use crate::fault::WireFault;
use crate::header::Header;
use crate::layout::{header, info_dst, info_ts};
use rtps_ids::{GuidPrefix, Order, Stamp, Version, u32_at};

/// Reads the body of an INFO_TS.
pub(crate) fn info_ts(order: Order, flags: u8, body: &[u8]) -> Result<Option<Stamp>, WireFault>
    ensures { fault.ReadsOrFaults (λ stamp. stamp) result (info.info_ts_fault flags body.now) (info.info_ts_of order flags body.now) }
{
    if flags & info_ts::INVALIDATE != 0 {
        return Ok(None);
    }
    let (Some(seconds), Some(fraction)) = (
        u32_at(order, body, info_ts::SECONDS),
        u32_at(order, body, info_ts::FRACTION),
    ) else {
        return Err(WireFault::ShortBody);
    };
    Ok(Some(Stamp { seconds, fraction }))
}

/// Reads the body of an INFO_DST.
pub(crate) fn info_dst(body: &[u8]) -> Result<GuidPrefix, WireFault>
    ensures { fault.ReadsOrFaults (λ prefix. prefix) result (info.info_dst_fault body.now) (info.info_dst_of body.now) }
{
    if body.len() < info_dst::SIZE {
        return Err(WireFault::ShortBody);
    }
    Ok(prefix_at(body, info_dst::PREFIX))
}

/// Reads the body of an INFO_SRC, which has the fields of a header.
pub(crate) fn info_src(body: &[u8]) -> Result<Header, WireFault>
    ensures { fault.ReadsOrFaults (λ source. source) result (info.info_src_fault body.now) (info.info_src_of body.now) }
{
    if body.len() < header::SIZE {
        return Err(WireFault::ShortBody);
    }
    Ok(Header {
        version: Version {
            major: body[header::MAJOR],
            minor: body[header::MINOR],
        },
        vendor: vendor_at(body, header::VENDOR),
        prefix: prefix_at(body, header::PREFIX),
    })
}
