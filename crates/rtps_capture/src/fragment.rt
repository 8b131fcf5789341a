ghost use Rattle.std.specs.Prelude.{◌≡◌, ◌≤◌, ◌<◌, ◌+◌, ◌^◌, length};
ghost use Rattle.rtps_capture.specs.Packets as packets_spec;
ghost use Rattle.rtps_capture.specs.Recent as recent;

use crate::byte_range::ByteRange;
use crate::layout::{extension, packet, packet_6};
use crate::octet_number::{four_octets, two_octets};
use crate::packet::Contents;
use byteorder::{BigEndian, ByteOrder};
use rtps_ids::Order;

/// A part of a packet that was sent in several (RFC 791, 2.3 "Function Description"; RFC 8200, 4.5 "Fragment Header").
#[derive(Clone, Copy)]
pub(crate) struct Fragment {
    pub(crate) key: FragmentKey,
    /// Where its octets begin among those of the packet.
    pub(crate) start: usize,
    /// Whether the packet has more octets behind these.
    pub(crate) more: bool,
    /// Where its octets stand in the frame.
    pub(crate) range: ByteRange,
}

/// What the fragments of one packet have in common, beside the protocol, which is UDP.
#[derive(Clone, Copy)]
pub(crate) struct FragmentKey {
    pub(crate) identification: u32,
    pub(crate) version: u8,
    /// The octets of an address as one number.
    pub(crate) source: u128,
    pub(crate) destination: u128,
}

/// What the keys have in common of packets that one host sends to another.
#[derive(Clone, Copy, PartialEq, Eq, PartialOrd, Ord)]
pub(crate) struct FragmentHosts {
    pub(crate) version: u8,
    /// The octets of an address as one number.
    pub(crate) source: u128,
    pub(crate) destination: u128,
}

impl FragmentKey {
    pub(crate) fn hosts(&self) -> FragmentHosts
        ensures { result ≡ recent.hosts_of self.now }
    {
        FragmentHosts {
            version: self.version,
            source: self.source,
            destination: self.destination,
        }
    }
}

#[inline]
pub(crate) fn fragment_of(fragment: Fragment) -> Contents
    requires ordered { fragment.range.from ≤ fragment.range.to }
    requires small { fragment.start < 2 ^ 32 }
    requires few { fragment.range.to < 2 ^ 63 }
    ensures contents { result ≡ packets_spec.fragment_of fragment }
    ensures within { packets_spec.StandsIn fragment.range.to result }
{
    let size = fragment.range.to - fragment.range.from;
    if fragment.start + size > packet::MOST {
        return Contents::Other;
    }
    if fragment.more && (size == 0 || size % packet::UNIT != 0) {
        return Contents::Other;
    }
    Contents::Fragment(fragment)
}

pub(crate) fn key_4_of(octets: &[u8]) -> FragmentKey
    requires { 20 ≤ length octets.now }
    ensures { result ≡ packets_spec.key_4 octets.now }
{
    FragmentKey {
        identification: u32::from(two_octets(Order::Big, octets, packet::IDENTIFICATION)),
        version: packet::VERSION,
        source: u128::from(four_octets(Order::Big, octets, packet::SOURCE)),
        destination: u128::from(four_octets(Order::Big, octets, packet::DESTINATION)),
    }
}

#[tactic(auto, unfolding(rtps_ids::specs::Octets::number_of))]
pub(crate) fn key_6_of(octets: &[u8], at: usize) -> FragmentKey
    requires packet { 40 ≤ length octets.now }
    requires header { at + 8 ≤ length octets.now }
    ensures { result ≡ packets_spec.key_6 octets.now at }
{
    FragmentKey {
        identification: four_octets(Order::Big, octets, at + extension::IDENTIFICATION),
        version: packet_6::VERSION,
        source: BigEndian::read_u128(&octets[packet_6::SOURCE..]),
        destination: BigEndian::read_u128(&octets[packet_6::DESTINATION..]),
    }
}
