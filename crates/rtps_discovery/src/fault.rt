ghost use Rattle.std.specs.Prelude.{◌≡◌, Some};
ghost use Rattle.rtps_discovery.specs.FaultText as fault_text;

use std::error::Error;
use std::fmt;

/// Why a payload announces nothing: the first of these, in this order, that holds (DDSI-RTPS 2.5, 10 "Serialized
/// Payload Representation" and 9.6 "Mapping of the RTPS Protocol"). For a participant only the first four can be.
#[derive(Clone, Copy, PartialEq, Eq, Debug)]
pub enum NoticeFault {
    /// Fewer than four octets: the representation is cut.
    CutRepresentation = 1,
    /// A representation other than PL_CDR_BE and PL_CDR_LE.
    Representation = 2,
    /// No parameter list after the representation.
    List = 3,
    /// No GUID, or one of fewer than 16 octets.
    NoGuid = 4,
    /// No topic name.
    NoTopic = 5,
    /// No type name.
    NoType = 6,
    /// A topic name or a type name that is no text.
    BadText = 7,
    /// A reliability of fewer than four octets, or of an unknown kind.
    BadReliability = 8,
    /// A durability of fewer than four octets, or of an unknown kind.
    BadDurability = 9,
}

impl NoticeFault {
    /// Its number, from 1 on.
    pub fn number(self) -> u8
        ensures { result ≡ fault_text.fault_number self }
    {
        self as u8
    }
}

impl fmt::Display for NoticeFault {
    ghost output = { λ fault. Some (fault_text.fault_name fault) };

    /// Its name.
    #[tactic(auto, unfolding(crate::specs::FaultText::fault_name))]
    fn fmt<W: fmt::Write>(&self, f: &mut fmt::Formatter<W>) -> fmt::Result {
        let name = match self {
            NoticeFault::CutRepresentation => "CutRepresentation",
            NoticeFault::Representation => "Representation",
            NoticeFault::List => "List",
            NoticeFault::NoGuid => "NoGuid",
            NoticeFault::NoTopic => "NoTopic",
            NoticeFault::NoType => "NoType",
            NoticeFault::BadText => "BadText",
            NoticeFault::BadReliability => "BadReliability",
            NoticeFault::BadDurability => "BadDurability",
        };
        f.write_str(name)
    }
}

impl Error for NoticeFault {}
