ghost use Rattle.std.specs.Prelude.{◌≡◌, ◌≤◌, ◌+◌, ◌-◌, ◌^◌, length};
ghost use Rattle.rtps_capture.specs.Packets as packets;

use crate::byte_range::ByteRange;
use crate::captures::Captures;
use crate::fragment::{Fragment, fragment_of, key_4_of, key_6_of};
use crate::layout::{
    cooked_1, cooked_2, ethernet, extension, loopback, packet, packet_6, tag, udp,
};
use crate::link_type::LinkType;
use crate::octet_number::two_octets;
use crate::passed::{Header, behind_extensions, behind_tags};
use rtps_ids::Order;

/// What a frame contains.
#[derive(Clone, Copy)]
pub(crate) enum Contents {
    /// A UDP datagram in one packet, which stands there in the frame.
    Datagram(ByteRange),
    /// A part of a packet that was sent in several.
    Fragment(Fragment),
    /// The captured octets end before the packet does.
    Cut,
    /// No UDP over IP.
    Other,
}

/// Where the packet begins that a frame carries.
#[derive(Clone, Copy)]
enum Carried {
    Ipv4(usize),
    Ipv6(usize),
    /// The frame ends before its packet begins.
    Unfinished,
    /// Another thing than a packet of IP.
    Foreign,
}

/// What a frame contains. Its headers are read from the front, the fields of a header before its lengths, and what is met
/// first decides: that it is no UDP over IP or cannot be, or that the captured octets end.
#[tactic(auto, unfolding(crate::specs::Packets::contents_read))]
#[inline]
pub(crate) fn contents_read(captures: Captures, link: LinkType, frame: &[u8]) -> Contents
    ensures contents { result ≡ packets.contents_read captures link frame.now }
    ensures within { packets.StandsIn (length frame.now) result }
{
    match captures {
        Captures::Any => match packet_of(link, frame) {
            Carried::Ipv4(at) => moved(at, contents_of_ipv4(&frame[at..])),
            Carried::Ipv6(at) => moved(at, contents_of_ipv6(&frame[at..])),
            Carried::Unfinished => Contents::Cut,
            Carried::Foreign => Contents::Other,
        },
        Captures::Classic => match packet_of(link, frame) {
            Carried::Ipv4(at) if at == size_in_front(link) => {
                match moved(at, contents_of_ipv4(&frame[at..])) {
                    Contents::Datagram(range) => Contents::Datagram(range),
                    _ => Contents::Other,
                }
            }
            _ => Contents::Other,
        },
    }
}

fn size_in_front(link: LinkType) -> usize
    ensures { result ≡ packets.size_in_front link }
{
    match link {
        LinkType::Ethernet => ethernet::SIZE,
        _ => 0,
    }
}

/// Contents of a packet that begins at this place, with their places counted as this one is.
#[inline]
pub(crate) fn moved(by: usize, contents: Contents) -> Contents
    requires { packets.StandsIn (2 ^ 63 - by) contents }
    ensures { result ≡ packets.moved_contents by contents }
{
    match contents {
        Contents::Datagram(range) => Contents::Datagram(ByteRange {
            from: by + range.from,
            to: by + range.to,
        }),
        Contents::Fragment(fragment) => Contents::Fragment(Fragment {
            range: ByteRange {
                from: by + fragment.range.from,
                to: by + fragment.range.to,
            },
            ..fragment
        }),
        Contents::Cut => Contents::Cut,
        Contents::Other => Contents::Other,
    }
}

#[tactic(auto, unfolding(crate::specs::Packets::packet_of))]
fn packet_of(link: LinkType, frame: &[u8]) -> Carried
    ensures carried { result ≡ packets.packet_of link frame.now }
    ensures within { packets.is_within (length frame.now) result }
{
    match link {
        LinkType::Ethernet => carried_behind(ethernet::TYPE, ethernet::SIZE, frame),
        LinkType::Cooked1 => carried_behind(cooked_1::TYPE, cooked_1::SIZE, frame),
        LinkType::Cooked2 => carried_behind(cooked_2::TYPE, cooked_2::SIZE, frame),
        LinkType::Loopback => carried_at(frame, loopback::SIZE, None),
        LinkType::Raw => carried_at(frame, 0, None),
        LinkType::RawIpv4 => carried_at(frame, 0, Some(packet::VERSION)),
        LinkType::RawIpv6 => carried_at(frame, 0, Some(packet_6::VERSION)),
    }
}

/// The packet that begins there, of the version that the high half of its first octet tells, if it may be of that one.
#[inline]
fn carried_at(frame: &[u8], at: usize, only: Option<u8>) -> Carried
    ensures carried { result ≡ packets.carried_at frame.now at only }
    ensures within { packets.is_within (length frame.now) result }
{
    if frame.len() <= at {
        return Carried::Unfinished;
    }
    let version = frame[at] / 16;
    if version != only.unwrap_or(version) {
        return Carried::Foreign;
    }
    match version {
        packet::VERSION => Carried::Ipv4(at),
        packet_6::VERSION => Carried::Ipv6(at),
        _ => Carried::Foreign,
    }
}

/// The packet behind a header of this size, whose type stands there, and behind its tags.
#[inline]
fn carried_behind(type_at: usize, size: usize, frame: &[u8]) -> Carried
    requires { type_at + 2 ≤ size }
    ensures carried { result ≡ packets.carried_behind type_at size frame.now }
    ensures within { packets.is_within (length frame.now) result }
{
    if frame.len() < size {
        return Carried::Unfinished;
    }
    let first = Header {
        kind: two_octets(Order::Big, frame, type_at),
        at: size,
    };
    let last = behind_tags(first, frame);
    match last.kind {
        ethernet::IPV4 => Carried::Ipv4(last.at),
        ethernet::IPV6 => Carried::Ipv6(last.at),
        tag::CUSTOMER | tag::SERVICE | tag::OLDER => Carried::Unfinished,
        _ => Carried::Foreign,
    }
}

/// What a packet of version 4 contains (RFC 791, 3.1 "Internet Header Format").
#[tactic(auto, unfolding(crate::specs::Packets::contents_of_ipv4))]
fn contents_of_ipv4(octets: &[u8]) -> Contents
    ensures contents { result ≡ packets.contents_of_ipv4 octets.now }
    ensures within { packets.StandsIn (length octets.now) result }
{
    if octets.len() < packet::LEAST {
        return Contents::Cut;
    }
    let header = usize::from(octets[0] % 16) * 4;
    let total = usize::from(two_octets(Order::Big, octets, packet::TOTAL));
    if octets[0] / 16 != packet::VERSION || header < packet::LEAST {
        return Contents::Other;
    }
    if octets[packet::PROTOCOL] != packet::UDP || total < header {
        return Contents::Other;
    }
    if octets.len() < total {
        return Contents::Cut;
    }
    let range = ByteRange {
        from: header,
        to: total,
    };
    let fragment = two_octets(Order::Big, octets, packet::FRAGMENT);
    if fragment % packet::FRAGMENT_BITS == 0 {
        return udp_within(octets, range);
    }
    fragment_of(Fragment {
        key: key_4_of(octets),
        start: usize::from(fragment % packet::OFFSETS) * packet::UNIT,
        more: fragment / packet::OFFSETS % 2 == 1,
        range,
    })
}

/// What a packet of version 6 contains (RFC 8200, 3 "IPv6 Header Format").
#[tactic(auto, unfolding(crate::specs::Packets::contents_of_ipv6))]
fn contents_of_ipv6(octets: &[u8]) -> Contents
    ensures contents { result ≡ packets.contents_of_ipv6 octets.now }
    ensures within { packets.StandsIn (length octets.now) result }
{
    if octets.len() < packet_6::SIZE {
        return Contents::Cut;
    }
    let leads_on = match u16::from(octets[packet_6::NEXT]) {
        extension::HOP_BY_HOP | extension::ROUTING | extension::DESTINATION => true,
        next => next == u16::from(packet::UDP) || next == extension::FRAGMENT,
    };
    if octets[0] / 16 != packet_6::VERSION || !leads_on {
        return Contents::Other;
    }
    let size = packet_6::SIZE + usize::from(two_octets(Order::Big, octets, packet_6::PAYLOAD));
    if octets.len() < size {
        return Contents::Cut;
    }
    contents_of_whole(&octets[..size])
}

/// What a whole packet of version 6 contains, which has nothing behind it.
#[tactic(auto, unfolding(crate::specs::Packets::contents_of_whole))]
fn contents_of_whole(octets: &[u8]) -> Contents
    requires { 40 ≤ length octets.now }
    ensures contents { result ≡ packets.contents_of_whole octets.now }
    ensures within { packets.StandsIn (length octets.now) result }
{
    let first = Header {
        kind: u16::from(octets[packet_6::NEXT]),
        at: packet_6::SIZE,
    };
    let last = behind_extensions(first, octets);
    if last.kind == u16::from(packet::UDP) {
        return udp_within(
            octets,
            ByteRange {
                from: last.at,
                to: octets.len(),
            },
        );
    }
    let has_header = octets.len() - last.at >= extension::SIZE;
    if last.kind != extension::FRAGMENT || !has_header || octets[last.at] != packet::UDP {
        return Contents::Other;
    }
    let offset = two_octets(Order::Big, octets, last.at + extension::OFFSET);
    fragment_of(Fragment {
        key: key_6_of(octets, last.at),
        start: usize::from(offset / 8) * packet::UNIT,
        more: offset % 2 == 1,
        range: ByteRange {
            from: last.at + extension::SIZE,
            to: octets.len(),
        },
    })
}

/// The datagram whose UDP header begins a range of a packet, if that has all of it (RFC 768, "Format").
#[tactic(auto, unfolding(crate::specs::Packets::udp_within))]
#[inline]
pub(crate) fn udp_within(octets: &[u8], range: ByteRange) -> Contents
    requires ordered { range.from ≤ range.to }
    requires within { range.to ≤ length octets.now }
    ensures contents { result ≡ packets.udp_within octets.now range }
    ensures within { packets.StandsIn (length octets.now) result }
{
    if range.to - range.from < udp::SIZE {
        return Contents::Other;
    }
    let size = usize::from(two_octets(Order::Big, octets, range.from + udp::LENGTH));
    if size < udp::SIZE || size > range.to - range.from {
        return Contents::Other;
    }
    Contents::Datagram(ByteRange {
        from: range.from + udp::SIZE,
        to: range.from + size,
    })
}
