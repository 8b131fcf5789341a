ghost use Rattle.std.specs.Prelude.{◌≡◌};
ghost use Rattle.rtps_capture.specs.LinkTypes as link_types;

use crate::captures::Captures;
use crate::layout::link_type;

/// What the frames of an interface are, of those that are read from any capture.
#[derive(Clone, Copy)]
pub enum LinkType {
    /// Four octets, and behind them a packet of IP.
    Loopback,
    Ethernet,
    /// Packets of IP, of version 4 or 6.
    Raw,
    RawIpv4,
    RawIpv6,
    /// Linux cooked frames.
    Cooked1,
    Cooked2,
}

/// What the frames of this link type are, if they are read: the number is one of the registry of link types.
pub fn link_type_numbered(number: u32) -> Option<LinkType>
    ensures { result ≡ link_types.link_type_numbered number }
{
    match number {
        link_type::LOOPBACK | link_type::LOOP => Some(LinkType::Loopback),
        link_type::ETHERNET => Some(LinkType::Ethernet),
        link_type::RAW => Some(LinkType::Raw),
        link_type::RAW_IPV4 => Some(LinkType::RawIpv4),
        link_type::RAW_IPV6 => Some(LinkType::RawIpv6),
        link_type::COOKED_1 => Some(LinkType::Cooked1),
        link_type::COOKED_2 => Some(LinkType::Cooked2),
        _ => None,
    }
}

/// What the frames of this link type are, if they are read from these captures.
pub(crate) fn link_read(captures: Captures, number: u32) -> Option<LinkType>
    ensures { result ≡ link_types.link_read captures number }
{
    match captures {
        Captures::Classic if number != link_type::ETHERNET && number != link_type::RAW => None,
        Captures::Classic | Captures::Any => link_type_numbered(number),
    }
}
