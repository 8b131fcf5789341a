ghost use Rattle.std.specs.Prelude.{◌≡◌, ◌++◌, length, take, vec_len, OnOk, ◌<◌, ◌≤◌, ◌+◌, vec_capacity, OnErr};
ghost use Rattle.rtps_ids.specs.declared.order.Order.{Order};
ghost use Rattle.rtps_write.specs.Held as held;
ghost use Rattle.rtps_write.specs.WrittenBodies as written_bodies;

use rtps_ids::{GuidPrefix, Memory, Order, Stamp, Vendor, Version, put_u32};
use rtps_wire::layout::{header, info_dst, info_ts};

/// The flags of an INFO_TS.
pub(crate) fn info_ts_flags(time: &Option<Stamp>) -> u8
    ensures { result ≡ written_bodies.info_ts_flags time.now }
{
    match time {
        None => info_ts::INVALIDATE,
        Some(_) => 0,
    }
}

/// How many octets the body of an INFO_TS has.
#[tactic(auto, using(crate::proofs::WrittenInfo::info_ts_long))]
pub(crate) fn info_ts_size(time: Option<Stamp>) -> u16
    ensures held { held.IsHeldTime time }
    ensures size { (order : Order) → length (written_bodies.info_ts_octets order time) ≡ result }
{
    match time {
        None => 0,
        Some(_stamp) => info_ts::SIZE as u16,
    }
}

/// Appends the body of an INFO_TS.
#[tactic(auto, using(crate::proofs::WrittenFields::lengths))]
pub(crate) fn info_ts(order: Order, time: &Option<Stamp>, out: &mut Vec<u8>) -> Result<(), Memory>
    ensures written { OnOk result (out.new.items ≡ out.old.items ++ written_bodies.info_ts_octets order time.now) }
    ensures kept { take (vec_len out.old) out.new.items ≡ out.old.items }
    ensures full { OnErr result (vec_capacity out.old < vec_len out.old + length (written_bodies.info_ts_octets order time.now)) }
    ensures room { vec_capacity out.old ≤ vec_capacity out.new }
{
    let Some(stamp) = time else {
        return Ok(());
    };
    put_u32(order, stamp.seconds, out)?;
    put_u32(order, stamp.fraction, out)
}

/// How many octets the body of an INFO_DST has.
pub(crate) fn info_dst_size(prefix: GuidPrefix) -> u16
    ensures held { length prefix.0 ≡ 12 }
    ensures size { length (written_bodies.info_dst_octets prefix) ≡ result }
{
    info_dst::SIZE as u16
}

/// Appends the body of an INFO_DST.
pub(crate) fn info_dst(prefix: &GuidPrefix, out: &mut Vec<u8>) -> Result<(), Memory>
    ensures written { OnOk result (out.new.items ≡ out.old.items ++ written_bodies.info_dst_octets prefix.now) }
    ensures kept { take (vec_len out.old) out.new.items ≡ out.old.items }
    ensures full { OnErr result (vec_capacity out.old < vec_len out.old + length (written_bodies.info_dst_octets prefix.now)) }
    ensures room { vec_capacity out.old ≤ vec_capacity out.new }
{
    out.extend_from_slice(&prefix.0)?;
    Ok(())
}

/// How many octets the body of an INFO_SRC has.
pub(crate) fn info_src_size(version: Version, vendor: Vendor, prefix: GuidPrefix) -> u16
    ensures held { (length vendor.0 ≡ 2) × (length prefix.0 ≡ 12) }
    ensures size { length (written_bodies.info_src_octets version vendor prefix) ≡ result }
{
    header::SIZE as u16
}

/// Appends the body of an INFO_SRC, whose first four octets are not used.
pub(crate) fn info_src(
    version: Version,
    vendor: &Vendor,
    prefix: &GuidPrefix,
    out: &mut Vec<u8>,
) -> Result<(), Memory>
    ensures written { OnOk result (out.new.items ≡ out.old.items ++ written_bodies.info_src_octets version vendor.now prefix.now) }
    ensures kept { take (vec_len out.old) out.new.items ≡ out.old.items }
    ensures full { OnErr result (vec_capacity out.old < vec_len out.old + length (written_bodies.info_src_octets version vendor.now prefix.now)) }
    ensures room { vec_capacity out.old ≤ vec_capacity out.new }
{
    out.extend_from_slice(&[0, 0, 0, 0, version.major, version.minor])?;
    out.extend_from_slice(&vendor.0)?;
    out.extend_from_slice(&prefix.0)?;
    Ok(())
}
