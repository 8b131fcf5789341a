ghost use Rattle.std.specs.Prelude.{◌≡◌, ◌≤◌, ◌<◌, IfSome, length};
ghost use Rattle.rtps_capture.specs.Passed as passed_spec;

use crate::layout::{extension, tag};
use crate::octet_number::two_octets;
use rtps_ids::Order;

/// A header of a frame or packet: what it is, by the number that the header before it has, and where it begins.
#[derive(Clone, Copy)]
pub(crate) struct Header {
    pub(crate) kind: u16,
    pub(crate) at: usize,
}

/// What stands behind a tag of a frame (IEEE 802.1Q, 9 "Tag formats"). None where it is no tag, or is cut.
#[inline]
fn tag_passed(frame: &[u8], header: Header) -> Option<Header>
    requires { header.at ≤ length frame.now }
    ensures passed { result ≡ passed_spec.tag_passed frame.now header }
    ensures onward { IfSome result (λ behind. (header.at < behind.at) × (behind.at ≤ length frame.now)) }
{
    let is_tag = matches!(header.kind, tag::CUSTOMER | tag::SERVICE | tag::OLDER);
    if !is_tag || frame.len() - header.at < tag::SIZE {
        return None;
    }
    Some(Header {
        kind: two_octets(Order::Big, frame, header.at + tag::TYPE),
        at: header.at + tag::SIZE,
    })
}

pub(crate) fn behind_tags(first: Header, frame: &[u8]) -> Header
    requires { first.at ≤ length frame.now }
    ensures last { result ≡ passed_spec.last_within (passed_spec.tag_passed frame.now) (length frame.now) first }
    ensures within { result.at ≤ length frame.now }
{
    let mut header = first;
    while let Some(behind) = tag_passed(frame, header) {
        header = behind;
    }
    header
}

/// What stands behind an extension header of a packet of version 6 (RFC 8200, 4.3, 4.4 and 4.6). None where it is none that is
/// passed, or reaches past the packet. A fragment header is passed where the packet is no fragment (RFC 6946 "Processing of
/// IPv6 \"Atomic\" Fragments").
#[inline]
fn extension_passed(packet: &[u8], header: Header) -> Option<Header>
    requires { header.at ≤ length packet.now }
    ensures passed { result ≡ passed_spec.extension_passed packet.now header }
    ensures onward { IfSome result (λ behind. (header.at < behind.at) × (behind.at ≤ length packet.now)) }
{
    let room = packet.len() - header.at;
    if room < extension::SIZE {
        return None;
    }
    let offset = two_octets(Order::Big, packet, header.at + extension::OFFSET);
    let size = match header.kind {
        extension::HOP_BY_HOP | extension::ROUTING | extension::DESTINATION => {
            extension::SIZE + extension::SIZE * usize::from(packet[header.at + extension::LENGTH])
        }
        extension::FRAGMENT if offset / 8 == 0 && offset % 2 == 0 => extension::SIZE,
        _ => return None,
    };
    if size > room {
        return None;
    }
    Some(Header {
        kind: u16::from(packet[header.at]),
        at: header.at + size,
    })
}

pub(crate) fn behind_extensions(first: Header, packet: &[u8]) -> Header
    requires { first.at ≤ length packet.now }
    ensures last { result ≡ passed_spec.last_within (passed_spec.extension_passed packet.now) (length packet.now) first }
    ensures within { result.at ≤ length packet.now }
{
    let mut header = first;
    while let Some(behind) = extension_passed(packet, header) {
        header = behind;
    }
    header
}
