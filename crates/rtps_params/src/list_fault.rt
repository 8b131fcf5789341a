ghost use Rattle.std.specs.Prelude.{◌≡◌, Some};
ghost use Rattle.rtps_params.specs.FaultText as fault_text;

use std::error::Error;
use std::fmt;

/// Why a parameter list is not written (DDSI-RTPS 2.5, 9.4.2.11 "ParameterList").
#[derive(Clone, Copy, PartialEq, Eq, Debug)]
pub enum ListFault {
    /// A value has more than 65,532 octets, the greatest multiple of 4 that a length can spell.
    ValueTooLong = 3,
    /// The size of a value is no multiple of 4.
    ValueUnaligned = 4,
    /// An id is that of a pad or of the sentinel.
    PidReserved = 5,
    /// There is no room for the octets.
    Memory = 6,
}

impl ListFault {
    /// Its number, from 3 on, after those of `ParamFault`.
    pub fn number(self) -> u8
        ensures { result ≡ fault_text.list_fault_number self }
    {
        self as u8
    }
}

impl fmt::Display for ListFault {
    ghost output = { λ fault. Some (fault_text.list_fault_name fault) };

    /// Its name.
    #[tactic(auto, unfolding(crate::specs::FaultText::list_fault_name))]
    fn fmt<W: fmt::Write>(&self, f: &mut fmt::Formatter<W>) -> fmt::Result {
        let name = match self {
            ListFault::ValueTooLong => "ValueTooLong",
            ListFault::ValueUnaligned => "ValueUnaligned",
            ListFault::PidReserved => "PidReserved",
            ListFault::Memory => "Memory",
        };
        f.write_str(name)
    }
}

impl Error for ListFault {}
