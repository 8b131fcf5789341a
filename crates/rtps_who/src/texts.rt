ghost use Rattle.std.specs.Prelude.{◌≡◌, ◌<◌, IfSome, length};
ghost use Rattle.std.specs.Option.{option_map};
ghost use Rattle.rtps_who.specs.Texts as texts;

use crate::layout::sequence::{ALIGNMENT, LENGTH_SIZE};
use rtps_ids::Order;
use rtps_params::{read_text, read_u32};

/// The text at the beginning of octets, and what is from the next item on. None if it cannot be read (DDSI-RTPS 2.5, 10.2 "RTPS
/// Serialized Payload").
pub(crate) fn front_text(octets: &[u8], order: Order) -> Option<(&[u8], &[u8])>
    ensures { option_map (λ found. (found.0.now, found.1.now)) result ≡ texts.front_text order octets.now }
{
    let text = read_text(octets, order)?;
    let size = read_u32(octets, order)? as usize;
    let room = (LENGTH_SIZE + size + (ALIGNMENT - 1)) / ALIGNMENT * ALIGNMENT;
    let behind = if room < octets.len() {
        &octets[room..]
    } else {
        &[]
    };
    Some((text, behind))
}

/// How many octets stand before the first such octet, or None where there is none.
pub(crate) fn place_of(octets: &[u8], mark: u8) -> Option<usize>
    ensures place { result ≡ texts.place_of mark octets.now }
    ensures within { IfSome result (λ place. place < length octets.now) }
{
    for place in 0..octets.len() {
        if octets[place] == mark {
            return Some(place);
        }
    }
    None
}

/// The octets before the first such octet, and those behind it. None where there is none.
pub(crate) fn front_piece(octets: &[u8], mark: u8) -> Option<(&[u8], &[u8])>
    ensures { option_map (λ found. (found.0.now, found.1.now)) result ≡ texts.front_piece mark octets.now }
{
    let place = place_of(octets, mark)?;
    Some((&octets[..place], &octets[place + 1..]))
}
