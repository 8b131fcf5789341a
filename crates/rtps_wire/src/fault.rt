ghost use Rattle.std.specs.Prelude.{◌≡◌, Some};
ghost use Rattle.rtps_wire.specs.FaultText as fault_text;

use std::error::Error;
use std::fmt;

/// Why a datagram is refused, or a submessage and all that follows it. If several of these hold of one submessage, one
/// is named: their order is fixed, and the first is named.
#[derive(Clone, Copy, PartialEq, Eq, Debug)]
pub enum WireFault {
    /// Fewer octets than a header has.
    Short = 1,
    /// The first four octets are not `RTPS`.
    NotRtps = 2,
    /// The major version is not 2.
    BadVersion = 3,
    /// One to three octets where a submessage header begins.
    CutHeader = 4,
    /// octetsToNextHeader is more than the octets that are left.
    Overrun = 5,
    /// The body ends before its fields do.
    ShortBody = 6,
    /// A DATA with both flag D, which says that it has data, and flag K, which says that it has a key.
    BadFlags = 7,
    /// A DATA whose octetsToInlineQos points into its fields or past the end of its body.
    BadOffset = 8,
    /// A sequence number below 1, or a lastSN below 0.
    BadNumber = 9,
    /// A lastSN below firstSN - 1.
    BadRange = 10,
    /// A set with a base and a count that no set has, or a GAP whose list has base 0.
    BadSet = 11,
    /// An inline QoS that is no parameter list.
    BadInlineQos = 12,
}

impl WireFault {
    /// Its number, from 1 on.
    pub fn number(self) -> u8
        ensures { result ≡ fault_text.fault_number self }
    {
        self as u8
    }
}

impl fmt::Display for WireFault {
    ghost output = { λ fault. Some (fault_text.fault_name fault) };

    /// Its name.
    #[tactic(auto, unfolding(crate::specs::FaultText::fault_name))]
    fn fmt<W: fmt::Write>(&self, f: &mut fmt::Formatter<W>) -> fmt::Result {
        let name = match self {
            WireFault::Short => "Short",
            WireFault::NotRtps => "NotRtps",
            WireFault::BadVersion => "BadVersion",
            WireFault::CutHeader => "CutHeader",
            WireFault::Overrun => "Overrun",
            WireFault::ShortBody => "ShortBody",
            WireFault::BadFlags => "BadFlags",
            WireFault::BadOffset => "BadOffset",
            WireFault::BadNumber => "BadNumber",
            WireFault::BadRange => "BadRange",
            WireFault::BadSet => "BadSet",
            WireFault::BadInlineQos => "BadInlineQos",
        };
        f.write_str(name)
    }
}

impl Error for WireFault {}

/// Where a datagram is refused: the place of the submessage's first octet (0 for the header), and why.
#[derive(Clone, Copy, PartialEq, Eq, Debug)]
pub struct Refusal {
    pub at: usize,
    pub fault: WireFault,
}
