ghost use Rattle.std.specs.Prelude.{◌≡◌, Some};
ghost use Rattle.rtps_params.specs.FaultText as fault_text;

use std::error::Error;
use std::fmt;

/// Why octets begin with no parameter list (DDSI-RTPS 2.5, 9.4.2.11 "ParameterList").
#[derive(Clone, Copy, PartialEq, Eq, Debug)]
pub enum ParamFault {
    /// Fewer than four octets are left, and there was no sentinel before.
    CutHeader = 1,
    /// The length of a parameter is more than the octets that are left.
    CutValue = 2,
}

impl ParamFault {
    /// Its number, from 1 on.
    pub fn number(self) -> u8
        ensures { result ≡ fault_text.fault_number self }
    {
        self as u8
    }
}

impl fmt::Display for ParamFault {
    ghost output = { λ fault. Some (fault_text.fault_name fault) };

    /// Its name.
    #[tactic(auto, unfolding(crate::specs::FaultText::fault_name))]
    fn fmt<W: fmt::Write>(&self, f: &mut fmt::Formatter<W>) -> fmt::Result {
        let name = match self {
            ParamFault::CutHeader => "CutHeader",
            ParamFault::CutValue => "CutValue",
        };
        f.write_str(name)
    }
}

impl Error for ParamFault {}
