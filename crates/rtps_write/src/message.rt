ghost use Rattle.std.specs.Prelude.{◌≡◌, ◌==◌, ◌++◌, drop, map, take, vec_len, unwrap_or, All, IfErr, OnErr, IfNone, OnOk, None, ◌<◌, ◌≤◌, ◌+◌, length, vec_capacity};
ghost use Rattle.std.specs.List.{flat_map};
ghost use Rattle.rtps_write.specs.Written as written;
ghost use Rattle.rtps_write.specs.Held as held;
ghost use Rattle.rtps_wire.specs.Reading as reading;
ghost use Rattle.rtps_wire.specs.Values as values;
ghost use Rattle.rtps_write.specs.Writable as writable_spec;
ghost use Rattle.rtps_wire.specs.declared.layout.header.TheConstants.{SIZE, VERSION};

use crate::item;
use crate::write_fault::WriteFault;
use rtps_ids::Memory;
use rtps_wire::layout::{header, submessage};
use rtps_wire::{Header, Item};

/// Appends a message: the header, and the items in order. The places of the items are not used. `Items` reads the
/// header and the items back from what was appended, each item at its new place, without a refusal (DDSI-RTPS 2.5,
/// 8.3.3 "The Overall Structure of an RTPS Message", 9.4.4 "Mapping of the RTPS Header" and 9.4.5 "Mapping of the RTPS
/// Submessages"). Flags that have no field here, and parts that are ignored, are written as 0, octetsToInlineQos as 16,
/// and octetsToNextHeader as the length of the body.
///
/// The error is the first fault of the header and then of the items in order: of each `NotWritable`, else `TooLong`,
/// else `Unaligned`. If there is no such fault, it is `Memory`. After any error `out` is as it was.
pub fn write_message(
    header: &Header,
    items: &[Item<'_>],
    out: &mut Vec<u8>,
) -> Result<(), WriteFault>
    ensures written { OnOk result (out.new.items ≡ out.old.items ++ written.message_octets header.now (map values.item_value items.now)) }
    // What was appended reads back.
    ensures reads_back { OnOk result (reading.reading_of (drop (vec_len out.old) out.new.items) ≡ written.clean_reading header.now (map values.item_value items.now)) }
    ensures writable { OnOk result (writable_spec.write_fault header.now (map values.item_value items.now) ≡ None) }
    ensures fault { IfErr result (λ fault. fault ≡ unwrap_or (writable_spec.write_fault header.now (map values.item_value items.now)) WriteFault.Memory) }
    ensures unchanged { OnErr result (out.new.items ≡ out.old.items) }
    ensures full { writable_spec.write_fault header.now (map values.item_value items.now) ≡ None → OnErr result
        (vec_capacity out.old < vec_len out.old + length (written.message_octets header.now (map values.item_value items.now))) }
    ensures room { vec_capacity out.old ≤ vec_capacity out.new }
{
    if let Some(fault) = refusal(header, items) {
        return Err(fault);
    }
    let before = out.len();
    match put_message(header, items, out) {
        Ok(()) => Ok(()),
        Err(Memory) => {
            out.truncate(before);
            Err(WriteFault::Memory)
        }
    }
}

/// The first fault of a message, if it has one.
fn refusal(header: &Header, items: &[Item<'_>]) -> Option<WriteFault>
    ensures fault { result ≡ writable_spec.write_fault header.now (map values.item_value items.now) }
    ensures header { held.IsHeldHeader header.now }
    ensures items { IfNone result (All held.IsHeldItem (map values.item_value items.now)) }
{
    let is_good = has_version(*header);
    if !is_good {
        return Some(WriteFault::NotWritable);
    }
    items_refusal(items)
}

/// Whether the header is of the version that is read.
fn has_version(header: Header) -> bool
    ensures version { result ≡ (header.version.major == VERSION) }
    ensures held { held.IsHeldHeader header }
{
    header.version.major == header::VERSION
}

/// The first fault of items, if they have one.
fn items_refusal(items: &[Item<'_>]) -> Option<WriteFault>
    ensures fault { result ≡ writable_spec.items_fault (map values.item_value items.now) }
    ensures held { IfNone result (All held.IsHeldItem (map values.item_value items.now)) }
{
    for (i, item) in items.iter().enumerate() {
        if let Some(fault) = item::refusal(item, i + 1 == items.len()) {
            return Some(fault);
        }
    }
    None
}

/// Appends a message that has no fault.
fn put_message(header: &Header, items: &[Item<'_>], out: &mut Vec<u8>) -> Result<(), Memory>
    requires held { held.IsHeldHeader header.now }
    requires good { writable_spec.items_fault (map values.item_value items.now) ≡ None }
    ensures written { OnOk result (out.new.items ≡ out.old.items ++ written.message_octets header.now (map values.item_value items.now)) }
    ensures kept { take (vec_len out.old) out.new.items ≡ out.old.items }
    ensures full { OnErr result (vec_capacity out.old < vec_len out.old + length (written.message_octets header.now (map values.item_value items.now))) }
    ensures room { vec_capacity out.old ≤ vec_capacity out.new }
{
    out.reserve(room_for(items))?;
    put_header(header, out)?;
    put_items(items, out)
}

/// How many octets to reserve for a message of these items: no more than it has.
fn room_for(items: &[Item<'_>]) -> usize
    ensures { result ≤ SIZE + length (flat_map written.item_octets (map values.item_value items.now)) }
{
    let mut room = header::SIZE;
    for item in items {
        let size = item::size(&item.body).unwrap_or(0);
        room = room.saturating_add(submessage::SIZE + usize::from(size));
    }
    room
}

/// Appends a header.
fn put_header(header: &Header, out: &mut Vec<u8>) -> Result<(), Memory>
    ensures written { OnOk result (out.new.items ≡ out.old.items ++ written.header_octets header.now) }
    ensures kept { take (vec_len out.old) out.new.items ≡ out.old.items }
    ensures full { OnErr result (vec_capacity out.old < vec_len out.old + length (written.header_octets header.now)) }
    ensures room { vec_capacity out.old ≤ vec_capacity out.new }
{
    let version = header.version;
    out.extend_from_slice(&header::PROTOCOL)?;
    out.extend_from_slice(&[version.major, version.minor])?;
    out.extend_from_slice(&header.vendor.0)?;
    out.extend_from_slice(&header.prefix.0)?;
    Ok(())
}

/// Appends items that have no fault.
fn put_items(items: &[Item<'_>], out: &mut Vec<u8>) -> Result<(), Memory>
    requires { writable_spec.items_fault (map values.item_value items.now) ≡ None }
    ensures written { OnOk result (out.new.items ≡ out.old.items ++ flat_map written.item_octets (map values.item_value items.now)) }
    ensures kept { take (vec_len out.old) out.new.items ≡ out.old.items }
    ensures full { OnErr result (vec_capacity out.old < vec_len out.old + length (flat_map written.item_octets (map values.item_value items.now))) }
    ensures room { vec_capacity out.old ≤ vec_capacity out.new }
{
    for item in items {
        item::put_item(item, out)?;
    }
    Ok(())
}
