ghost use Rattle.std.specs.Prelude.{◌≡◌, Some};
ghost use Rattle.rtps_ids.specs.SetFaultText as set_fault_text;

use std::error::Error;
use std::fmt;

/// Why octets begin with no set of sequence numbers.
#[derive(Clone, Copy, PartialEq, Eq, Debug)]
pub enum SetFault {
    /// A base below 0, more than 256 bits, bits although the base is 0, or a number above 2^63 - 1.
    BadSet = 1,
    /// The octets end before the set does.
    CutWords = 2,
}

impl SetFault {
    /// Its number, from 1 on.
    pub fn number(self) -> u8
        ensures { result ≡ set_fault_text.fault_number self }
    {
        self as u8
    }
}

impl fmt::Display for SetFault {
    ghost output = { λ fault. Some (set_fault_text.fault_name fault) };

    /// Its name.
    #[tactic(auto, unfolding(crate::specs::SetFaultText::fault_name))]
    fn fmt<W: fmt::Write>(&self, f: &mut fmt::Formatter<W>) -> fmt::Result {
        let name = match self {
            SetFault::BadSet => "BadSet",
            SetFault::CutWords => "CutWords",
        };
        f.write_str(name)
    }
}

impl Error for SetFault {}
