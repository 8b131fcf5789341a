//! Lists of parameters, announcements and sets of numbers.

use crate::fault::Fault;
use crate::words::{Words, order_of, push_octets};
use rtps_coverage::{Coverage, MergedRanges};
use rtps_discovery::{Endpoint, Side, read_endpoint, read_participant};
use rtps_params::ParamList;
use std::alloc::Global;
use std::fmt::Write;

/// ORDER OCTETS: how many octets the list at their beginning has, and its parameters
pub(super) fn list(alloc: Global, mut words: Words<'_>, text: &mut String) -> Result<(), Fault> {
    let order = order_of(words.word());
    let octets = words.octets(alloc)?;
    match ParamList::read(&octets, order) {
        Ok((list, _)) => push_list(&list, text)?,
        Err(fault) => write!(text, "{fault}")?,
    }
    Ok(())
}

fn push_list(list: &ParamList<'_>, text: &mut String) -> Result<(), Fault> {
    write!(text, "{}", list.octets().len())?;
    for (pid, value) in list.params() {
        write!(text, " {pid:04x}=")?;
        push_octets(value, text)?;
    }
    Ok(())
}

/// SIDE OCTETS: the first fault, or the endpoint
pub(super) fn endpoint(
    alloc: Global,
    mut words: Words<'_>,
    text: &mut String,
) -> Result<(), Fault> {
    let side = match words.word() {
        "writer" => Side::Writer,
        _ => Side::Reader,
    };
    let payload = words.octets(alloc)?;
    match read_endpoint(&payload, side) {
        Ok(endpoint) => push_endpoint(&endpoint, text)?,
        Err(fault) => write!(text, "{fault}")?,
    }
    Ok(())
}

fn push_endpoint(endpoint: &Endpoint<'_>, text: &mut String) -> Result<(), Fault> {
    write!(
        text,
        "{} {:?} {:?}",
        endpoint.guid, endpoint.reliability, endpoint.durability
    )?;
    for name in [endpoint.topic, endpoint.type_name] {
        write!(text, " ")?;
        push_octets(name, text)?;
    }
    Ok(())
}

/// OCTETS: the first fault, or the GUID
pub(super) fn participant(
    alloc: Global,
    mut words: Words<'_>,
    text: &mut String,
) -> Result<(), Fault> {
    let payload = words.octets(alloc)?;
    match read_participant(&payload) {
        Ok(guid) => write!(text, "{guid}")?,
        Err(fault) => write!(text, "{fault}")?,
    }
    Ok(())
}

/// LO HI ..: in how many ranges the set of these ranges keeps its numbers
pub(super) fn merged(alloc: Global, mut words: Words<'_>, text: &mut String) -> Result<(), Fault> {
    let mut set = MergedRanges::empty(alloc);
    for _ in 0..64u8 {
        let (lo, hi) = (words.number(), words.number());
        if 1 <= lo && lo <= hi {
            set.add(lo, hi)?;
        }
    }
    write!(text, "{}", set.len())?;
    Ok(())
}
