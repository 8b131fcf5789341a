ghost use Rattle.std.specs.Prelude.{◌≤◌, length, IfOk};
ghost use Rattle.rtps_wire.specs.Fault as fault;
ghost use Rattle.rtps_wire.specs.Header as header_spec;
ghost use Rattle.rtps_wire.specs.declared.layout.header.TheConstants.{SIZE};

use crate::fault::WireFault;
use crate::layout::header;
use crate::read::fields::{prefix_at, vendor_at};
use rtps_ids::{GuidPrefix, Vendor, Version};

/// The header of a message: the version of the protocol, and who sent the message (DDSI-RTPS 2.5, 8.3.6 "The RTPS
/// Header").
#[derive(Clone, Copy, PartialEq, Eq, Debug)]
pub struct Header {
    pub version: Version,
    pub vendor: Vendor,
    pub prefix: GuidPrefix,
}

/// Reads the header at the beginning of a datagram.
#[tactic(auto, unfolding(crate::specs::Header::header_fault, crate::specs::Header::header_of))]
pub(crate) fn read_header(bytes: &[u8]) -> Result<Header, WireFault>
    ensures header { fault.ReadsOrFaults (λ header. header) result (header_spec.header_fault bytes.now) (header_spec.header_of bytes.now) }
    ensures size { IfOk result (λ header. SIZE ≤ length bytes.now) }
{
    if bytes.len() < header::SIZE {
        return Err(WireFault::Short);
    }
    let [r, t, p, s] = header::PROTOCOL;
    if bytes[0] != r || bytes[1] != t || bytes[2] != p || bytes[3] != s {
        return Err(WireFault::NotRtps);
    }
    if bytes[header::MAJOR] != header::VERSION {
        return Err(WireFault::BadVersion);
    }
    Ok(Header {
        version: Version {
            major: bytes[header::MAJOR],
            minor: bytes[header::MINOR],
        },
        vendor: vendor_at(bytes, header::VENDOR),
        prefix: prefix_at(bytes, header::PREFIX),
    })
}
