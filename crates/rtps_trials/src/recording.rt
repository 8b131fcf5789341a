use crate::fault::Fault;
use rtps_discovery::Pair;
use rtps_ids::{EntityId, Guid, GuidPrefix, SeqNum};
use std::alloc::Global;

/// The pair that most recordings announce.
pub(crate) const PAIR: Pair = Pair {
    writer: Guid {
        prefix: GuidPrefix([0xaa; 12]),
        entity: EntityId([0, 0, 1, 3]),
    },
    reader: Guid {
        prefix: GuidPrefix([0xbb; 12]),
        entity: EntityId([0, 0, 1, 4]),
    },
};

/// The number from which on reports are made.
pub(crate) fn second() -> SeqNum {
    SeqNum::new(2).unwrap_or(SeqNum::first())
}

/// The octets of the lines of a text that are no comments.
pub(crate) fn read(alloc: Global, text: &str) -> Result<Vec<Vec<u8>>, Fault> {
    let mut datagrams = Vec::new(alloc);
    for line in text.split("\n") {
        if !line.is_empty() && !line.starts_with("#") {
            let Ok(octets) = hex::decode(alloc, line.as_bytes()) else {
                return Err(Fault::Words);
            };
            datagrams.push(octets)?;
        }
    }
    Ok(datagrams)
}

/// The datagrams of a recording.
pub(crate) fn datagrams(alloc: Global, recording: &[Vec<u8>]) -> Result<Vec<&[u8]>, Fault> {
    let mut datagrams = Vec::new(alloc);
    for datagram in recording {
        datagrams.push(datagram.as_slice())?;
    }
    Ok(datagrams)
}
