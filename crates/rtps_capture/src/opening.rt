ghost use Rattle.std.specs.Prelude.{◌≡◌};
ghost use Rattle.rtps_capture.specs.Opening as opening;

use crate::blocks::{block_needed, is_pcapng};
use crate::captures::Captures;
use crate::layout::file;
use crate::link_type::link_read;
use rtps_ids::{Order, u16_at, u32_at};

/// How many octets of a capture tell whether it is one that is read: those of its header.
pub const CAPTURE_HEADER_SIZE: usize = file::SIZE;

/// How many octets tell the form of a file.
const FORM: usize = 4;

/// The order of the numbers in the headers of a capture, by its first four octets; None where they begin no capture
/// (PCAP Capture File Format, 4 "File Header").
#[tactic(auto, unfolding(crate::specs::Opening::order_of))]
pub fn capture_order(octets: &[u8]) -> Option<Order>
    ensures { result ≡ opening.order_of octets.now }
{
    let start = octets.get(..4)?;
    let big = u32_at(Order::Big, start, 0)?;
    match (big, u32_at(Order::Little, start, 0)?) {
        (file::MICROSECONDS | file::NANOSECONDS, _) => Some(Order::Big),
        (_, file::MICROSECONDS | file::NANOSECONDS) => Some(Order::Little),
        _ => None,
    }
}

/// The link type of a classic capture, where it is none that [`Captures::Classic`] reads: whoever refuses the capture can name it. None where the octets begin no
/// capture of major version 2, or do not reach to its header's end, and where its frames are read (PCAP Capture File Format, 4
/// "File Header").
pub fn unread_link_type(octets: &[u8]) -> Option<u32>
    ensures { result ≡ opening.unread_link_type_of octets.now }
{
    let number = link_type_in(capture_order(octets)?, octets)?;
    match link_read(Captures::Classic, number) {
        Some(_) => None,
        None => Some(number),
    }
}

/// How many octets decide whether these begin a capture, and which, of those that are read.
pub(crate) fn opening_needed(captures: Captures, octets: &[u8]) -> usize
    ensures { result ≡ opening.opening_needed captures octets.now }
{
    if octets.len() < FORM {
        return FORM;
    }
    if capture_order(octets).is_some() {
        return file::SIZE;
    }
    match captures {
        Captures::Classic => FORM,
        Captures::Any if is_pcapng(octets) => block_needed(Order::Big, octets, 0),
        Captures::Any => FORM,
    }
}

#[tactic(auto, unfolding(crate::specs::Opening::link_type_in))]
pub(crate) fn link_type_in(order: Order, octets: &[u8]) -> Option<u32>
    ensures { result ≡ opening.link_type_in order octets.now }
{
    if octets.len() < file::SIZE {
        return None;
    }
    if u16_at(order, octets, file::MAJOR)? != file::VERSION {
        return None;
    }
    Some(u32_at(order, octets, file::LINK)? % file::LINKS)
}
