ghost use Rattle.std.specs.Prelude.{◌≡◌, Some};
ghost use Rattle.rtps_write.specs.FaultText as fault_text;

use std::error::Error;
use std::fmt;

/// Why a message is not written. The header comes first, and then the items in order; the first fault of these is
/// named.
#[derive(Clone, Copy, PartialEq, Eq, Debug)]
pub enum WriteFault {
    /// A header whose major version is not 2; a submessage that was skipped; a HEARTBEAT whose last is below 0 or below
    /// its first - 1; a GAP whose list has base 0; or an inline QoS in another order than its submessage's.
    NotWritable = 13,
    /// A body of more than 65,535 octets.
    TooLong = 14,
    /// A body that is no multiple of 4 octets and is not the last.
    Unaligned = 15,
    /// There was no memory.
    Memory = 16,
}

impl WriteFault {
    /// Its number, from 13 on, after those of `WireFault` of `rtps_wire`.
    pub fn number(self) -> u8
        ensures { result ≡ fault_text.write_fault_number self }
    {
        self as u8
    }
}

impl fmt::Display for WriteFault {
    ghost output = { λ fault. Some (fault_text.write_fault_name fault) };

    /// Its name.
    #[tactic(auto, unfolding(crate::specs::FaultText::write_fault_name))]
    fn fmt<W: fmt::Write>(&self, f: &mut fmt::Formatter<W>) -> fmt::Result {
        let name = match self {
            WriteFault::NotWritable => "NotWritable",
            WriteFault::TooLong => "TooLong",
            WriteFault::Unaligned => "Unaligned",
            WriteFault::Memory => "Memory",
        };
        f.write_str(name)
    }
}

impl Error for WriteFault {}
