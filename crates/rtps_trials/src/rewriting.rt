//! Messages are read, and written again from their items. The contract says that what is written reads back as the items.

use crate::fault::Fault;
use crate::recording::read;
use rtps_wire::{Header, Item, Items, Refusal};
use rtps_write::write_message;
use std::alloc::Global;
use std::fmt::Write;
use std::slice;

/// What is read of a datagram: the header and all items, or the refusal.
type Read<'a> = Result<(Header, Vec<Item<'a>>), Refusal>;

/// The header and the items of a datagram.
pub(crate) fn items_of<'a>(alloc: Global, datagram: &'a [u8]) -> Result<Read<'a>, Fault> {
    let (header, found) = match Items::open(datagram) {
        Ok(opened) => opened,
        Err(refusal) => return Ok(Err(refusal)),
    };
    let mut items = Vec::new(alloc);
    for item in found {
        match item {
            Ok(item) => items.extend_from_slice(slice::from_ref(&item))?,
            Err(refusal) => return Ok(Err(refusal)),
        }
    }
    Ok(Ok((header, items)))
}

/// Appends for each message whether the same octets are written again.
pub(crate) fn rewrite_each(alloc: Global, input: &str, text: &mut String) -> Result<(), Fault> {
    let recording = read(alloc, input)?;
    for datagram in &recording {
        rewrite(alloc, datagram, text)?;
    }
    Ok(())
}

fn rewrite(alloc: Global, datagram: &[u8], text: &mut String) -> Result<(), Fault> {
    let (header, items) = match items_of(alloc, datagram)? {
        Ok(found) => found,
        Err(refusal) => return Ok(writeln!(text, "not read, {}", refusal.fault)?),
    };
    let mut written = Vec::new(alloc);
    match write_message(&header, &items, &mut written) {
        Ok(()) if written.as_slice() == datagram => writeln!(text, "the same octets")?,
        Ok(()) => writeln!(text, "other octets")?,
        Err(fault) => writeln!(text, "not written, {fault}")?,
    }
    Ok(())
}

/// Reads or writes each message that can be read so many times, so that the time can be measured. Appends how many octets
/// were written.
pub(crate) fn repeat(
    alloc: Global,
    (mode, times): (&str, &str),
    input: &str,
    text: &mut String,
) -> Result<(), Fault> {
    let recording = read(alloc, input)?;
    let times = times.parse::<u32>().unwrap_or(0);
    let mut octets = 0u64;
    for datagram in &recording {
        let more = match mode {
            "read" => read_many(datagram, times),
            _ => write_many(alloc, datagram, times)?,
        };
        octets = octets.saturating_add(more);
    }
    writeln!(text, "{octets}")?;
    Ok(())
}

/// The sum of the places of the last item.
fn read_many(datagram: &[u8], times: u32) -> u64 {
    let mut octets = 0u64;
    for _ in 0..times {
        if let Ok((_, items)) = Items::open(datagram) {
            let last = items.last();
            octets = octets.saturating_add(match last {
                Some(Ok(item)) => item.at as u64,
                _ => 0,
            });
        }
    }
    octets
}

/// Writes each time over what was written before.
fn write_many(alloc: Global, datagram: &[u8], times: u32) -> Result<u64, Fault> {
    let Ok((header, items)) = items_of(alloc, datagram)? else {
        return Ok(0);
    };
    let mut written = Vec::new(alloc);
    let mut octets = 0u64;
    for _ in 0..times {
        written.clear();
        if write_message(&header, &items, &mut written).is_ok() {
            octets = octets.saturating_add(written.len() as u64);
        }
    }
    Ok(octets)
}
