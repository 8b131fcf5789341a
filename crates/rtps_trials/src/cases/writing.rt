//! Lists and messages that are written, and some that cannot be.

use crate::fault::Fault;
use crate::words::{Words, order_of, push_octets};
use rtps_ids::{EntityId, GuidPrefix, NumberSet, Order, SeqNum, Vendor, Version};
use rtps_params::write_list;
use rtps_wire::{Body, DataBody, GapBody, Header, HeartbeatBody, Item, Payload};
use rtps_write::write_message;
use std::alloc::Global;
use std::fmt::Write;

const READER: EntityId = EntityId([0, 0, 0, 0]);

const WRITER: EntityId = EntityId([0, 0, 1, 3]);

/// ORDER PID OCTETS: what is written after an octet of ff, for this parameter and one without octets
pub(super) fn list(alloc: Global, mut words: Words<'_>, text: &mut String) -> Result<(), Fault> {
    let order = order_of(words.word());
    let pid = (words.number() & 0xffff) as u16;
    let value = words.octets(alloc)?;
    let mut out = Vec::from_slice(alloc, &[0xff])?;
    match write_list(&[(pid, value.as_slice()), (5, b"")], order, &mut out) {
        Ok(()) => push_octets(&out, text),
        Err(fault) => Ok(write!(text, "{fault} {}", out.len())?),
    }
}

// An item to be written. Its place is not used.
macro_rules! big {
    ($body:expr) => {
        Item {
            at: 0,
            order: Order::Big,
            body: $body,
        }
    };
}

/// MAJOR FIRST LAST OCTETS: the message of this item, and of an INFO_TS behind it for `data_first`
pub(super) fn message(
    alloc: Global,
    call: &str,
    mut words: Words<'_>,
    text: &mut String,
) -> Result<(), Fault> {
    let major = (words.number() & 0xff) as u8;
    let (first, last) = (words.number(), words.number());
    let payload = words.octets(alloc)?;
    let header = Header {
        version: Version { major, minor: 5 },
        vendor: Vendor([0, 0]),
        prefix: GuidPrefix([0xaa; 12]),
    };
    let number = SeqNum::new(first).ok_or(Fault::Words)?;
    let data = big!(Body::Data(DataBody {
        reader: READER,
        writer: WRITER,
        number,
        qos: None,
        payload: Payload::Whole(payload.as_slice()),
    }));
    match call {
        "info_ts" => answered(alloc, &header, &[big!(Body::InfoTs(None))], text),
        "skipped" => answered(alloc, &header, &[big!(Body::Skipped { id: 0x80 })], text),
        "heartbeat" => {
            let body = heartbeat(number, last);
            answered(alloc, &header, &[big!(Body::Heartbeat(body))], text)
        }
        "gap" => {
            let body = gap(number, last)?;
            answered(alloc, &header, &[big!(Body::Gap(body))], text)
        }
        "data" => answered(alloc, &header, &[data], text),
        "data_first" => answered(alloc, &header, &[data, big!(Body::InfoTs(None))], text),
        _ => Err(Fault::Words),
    }
}

fn heartbeat(first: SeqNum, last: i64) -> HeartbeatBody {
    HeartbeatBody {
        reader: READER,
        writer: WRITER,
        first,
        last,
        count: 1,
        is_final: false,
        live: false,
    }
}

/// A GAP whose list is empty, with this base.
fn gap(start: SeqNum, base: i64) -> Result<GapBody, Fault> {
    let list = NumberSet::new(base, 0, [0; 8]).ok_or(Fault::Words)?;
    Ok(GapBody {
        reader: READER,
        writer: WRITER,
        start,
        list,
    })
}

/// What is written, or the fault and how many octets are written with it.
fn answered(
    alloc: Global,
    header: &Header,
    items: &[Item<'_>],
    text: &mut String,
) -> Result<(), Fault> {
    let mut out = Vec::new(alloc);
    match write_message(header, items, &mut out) {
        Ok(()) => push_octets(&out, text),
        Err(fault) => Ok(write!(text, "{fault} {}", out.len())?),
    }
}
