//! Calls that may be refused memory, and that no run of the program makes. Each is made once with enough memory. Then it is
//! made with its requests for memory counted, and one of them may be refused. If one is refused, the call is made a third
//! time: it has to return what it returned first, and the refusal must have changed nothing.

use crate::fault::Fault;
use crate::recording::{PAIR, datagrams, read, second};
use crate::rewriting::items_of;
use rtps_audit::{MergedRanges, PlainRanges, Verdict, judge_from};
use rtps_ids::{Memory, Order};
use rtps_params::write_list;
use rtps_wire::{Header, Item};
use rtps_write::write_message;
use std::alloc::{AllocError, Global};
use std::fmt::Write;

/// All calls that can be tried.
const CALLS: [&str; 4] = ["judge_plain", "judge_merged", "write_list", "write_message"];

/// The octets before a call that appends.
const BEFORE: &[u8] = b"before";

/// Parameters with values of several sizes.
const PARAMETERS: [(u16, &[u8]); 4] = [
    (0x0005, b"pose"),
    (0x0007, b"\x05\0\0\0Pose\0\0\0\0"),
    (0x001a, b"\x02\0\0\0\0\0\0\0\0\0\0\0"),
    (0x8001, &[7; 60]),
];

/// `tests/refuse_requests.c` counts the requests between a request of this size and the next one of this size. Nothing
/// else asks for so much.
const MARK: usize = 7_654_321;

/// Begins or ends the counting of requests: it is enough to ask for so much.
fn mark(alloc: Global) {
    let _room: Result<Vec<u8>, AllocError> = Vec::with_capacity(alloc, MARK);
}

/// Makes each call. None is refused memory.
pub(crate) fn refuse_none(alloc: Global, input: &str, text: &mut String) -> Result<(), Fault> {
    for call in CALLS {
        refuse(alloc, call, input, text)?;
    }
    Ok(())
}

/// Makes a call, and tells whether it was refused memory.
pub(crate) fn refuse(
    alloc: Global,
    call: &str,
    input: &str,
    text: &mut String,
) -> Result<(), Fault> {
    let octets = read(alloc, input)?;
    let recording = datagrams(alloc, &octets)?;
    let told = match is_refused(alloc, call, &recording)? {
        true => "Memory, and then as if it were the first",
        false => "as with ample memory",
    };
    writeln!(text, "{call}: {told}")?;
    Ok(())
}

/// Whether a call was refused memory.
fn is_refused(alloc: Global, call: &str, recording: &[&[u8]]) -> Result<bool, Fault> {
    match call {
        "judge_plain" | "judge_merged" => is_verdict_refused(alloc, call, recording),
        "write_list" | "write_message" => {
            let datagram = recording.get(0).ok_or(Fault::Words)?;
            let Ok((header, items)) = items_of(alloc, datagram)? else {
                return Err(Fault::Words);
            };
            is_append_refused(alloc, call, &header, &items)
        }
        _ => Err(Fault::Words),
    }
}

/// The verdict on the pair by the numbers from 2 on, with this kind of set.
fn verdict(alloc: Global, call: &str, recording: &[&[u8]]) -> Result<Verdict, Memory> {
    match call {
        "judge_plain" => judge_from::<PlainRanges>(alloc, recording, PAIR, second()),
        _ => judge_from::<MergedRanges>(alloc, recording, PAIR, second()),
    }
}

fn is_verdict_refused(alloc: Global, call: &str, recording: &[&[u8]]) -> Result<bool, Fault> {
    let wanted = verdict(alloc, call, recording)?;
    for refused in [false, true] {
        mark(alloc);
        let found = verdict(alloc, call, recording);
        mark(alloc);
        match found {
            Ok(found) if found == wanted => return Ok(refused),
            Ok(_) => return Err(Fault::Differs("the answer is another after a refusal")),
            Err(Memory) => {}
        }
    }
    Err(Fault::Memory)
}

/// Appends to octets, and returns whether that fails.
fn fails(call: &str, header: &Header, items: &[Item<'_>], out: &mut Vec<u8>) -> bool {
    match call {
        "write_list" => write_list(&PARAMETERS, Order::Little, out).is_err(),
        _ => write_message(header, items, out).is_err(),
    }
}

/// Whether a call that appends was refused memory. Then it has to leave the octets as they were.
fn is_append_refused(
    alloc: Global,
    call: &str,
    header: &Header,
    items: &[Item<'_>],
) -> Result<bool, Fault> {
    let mut wanted = Vec::from_slice(alloc, BEFORE)?;
    let mut tried = Vec::from_slice(alloc, BEFORE)?;
    let _ = fails(call, header, items, &mut wanted);
    for refused in [false, true] {
        mark(alloc);
        let failed = fails(call, header, items, &mut tried);
        mark(alloc);
        if !failed && tried == wanted {
            return Ok(refused);
        }
        if !failed || tried.as_slice() != BEFORE {
            return Err(Fault::Differs("a refusal changes the octets"));
        }
    }
    Err(Fault::Memory)
}
