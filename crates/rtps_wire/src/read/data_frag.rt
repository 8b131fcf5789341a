ghost use Rattle.std.specs.Prelude.{◌≡◌, ◌+◌, ◌-◌, ◌*◌, ◌&&◌, nat_le, false, length, take, true, MatchOption};
ghost use Rattle.std.specs.Option.{option_map};
ghost use Rattle.rtps_wire.specs.DataFrag as data_frag_spec;

use super::data::inline_qos;
use super::fields::{entity_at, rest_at};
use crate::data_frag::{DataFrag, Shape};
use crate::flags::DataFlags;
use crate::layout::{data, data_frag};
use bitflags::Flags;
use rtps_ids::{Order, SeqNum, number_at, u16_at, u32_at};

/// Reads the body of a DATA_FRAG, if it has fragments that can be used.
pub(crate) fn data_frag(order: Order, flags: u8, body: &[u8]) -> Option<DataFrag<'_>>
    ensures { option_map data_frag_spec.data_frag_value result ≡ data_frag_spec.data_frag_in order flags body.now }
{
    let number = SeqNum::new(number_at(order, body, data_frag::NUMBER)?)?;
    let first = u32_at(order, body, data_frag::FIRST)?;
    let count = u16_at(order, body, data_frag::COUNT)?;
    let shape = Shape {
        sample: u32_at(order, body, data_frag::SAMPLE)?,
        fragment: u16_at(order, body, data_frag::FRAGMENT)?,
        is_key: flags & data_frag::K != 0,
    };
    let start = data::QOS_FROM + u16_at(order, body, data::OCTETS_TO_QOS)? as usize;
    if start < data_frag::SIZE || start > body.len() {
        return None;
    }
    let flags = DataFlags::from_bits_retain(flags);
    let Ok((qos, behind)) = inline_qos(flags, order, rest_at(body, start)) else {
        return None;
    };
    let Some(octets) = fragments(shape, first, count, behind) else {
        return None;
    };
    Some(DataFrag {
        order,
        reader: entity_at(body, data_frag::READER),
        writer: entity_at(body, data_frag::WRITER),
        number,
        qos,
        first,
        count,
        shape,
        octets,
    })
}

/// Whether a sample has room for a fragment, and so many fragments have room for these octets.
fn have_room(shape: Shape, count: u16, octets: &[u8]) -> bool
    ensures { result ≡ (nat_le shape.fragment shape.sample && nat_le (length octets.now) (count * shape.fragment)) }
{
    let most = u64::from(count) * u64::from(shape.fragment);
    u32::from(shape.fragment) <= shape.sample && octets.len() as u64 <= most
}

/// The fragments at the beginning of these octets, from the fragment `first` on. None if the sample does not have them, if octets
/// of them are absent, or if there are more octets than so many fragments may have.
fn fragments(shape: Shape, first: u32, count: u16, octets: &[u8]) -> Option<&[u8]>
    ensures { MatchOption result (data_frag_spec.begins_with_fragments shape first count octets.now ≡ false)
        (λ found. (data_frag_spec.begins_with_fragments shape first count octets.now ≡ true) × (found.now ≡ take (data_frag_spec.fragments_length shape first (first + count - 1)) octets.now)) }
{
    if shape.fragment == 0 || first == 0 || count == 0 || !have_room(shape, count, octets) {
        return None;
    }
    let before = u64::from(first) - 1;
    let last = before + u64::from(count);
    if last > shape.last_fragment() {
        return None;
    }
    let fragment = u64::from(shape.fragment);
    let end = (last * fragment).min(u64::from(shape.sample));
    octets.get(..(end - before * fragment) as usize)
}
