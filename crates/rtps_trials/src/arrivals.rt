//! Recordings with times.

use crate::fault::Fault;
use std::alloc::Global;

/// A datagram, and when it came, in nanoseconds.
#[derive(Drop)]
pub(crate) struct Arrival {
    pub(crate) time: Option<u64>,
    pub(crate) octets: Vec<u8>,
}

/// Those of the lines of a text. A line is a time, or a dash, and a datagram.
pub(crate) fn arrivals_of(alloc: Global, text: &str) -> Result<Vec<Arrival>, Fault> {
    let mut arrivals = Vec::new(alloc);
    for line in text.split("\n") {
        if line.is_empty() {
            continue;
        }
        let (time, digits) = line.split_once(" ").ok_or(Fault::Words)?;
        let Ok(octets) = hex::decode(alloc, digits.as_bytes()) else {
            return Err(Fault::Words);
        };
        let time = time.parse::<u64>().ok();
        arrivals.push(Arrival { time, octets })?;
    }
    Ok(arrivals)
}
