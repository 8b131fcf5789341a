ghost use Rattle.std.specs.Prelude.{◌≡◌, ◌≤◌, ◌<◌, ◌+◌, ◌++◌, drop, length, vec_capacity, vec_len, OnOk, OnErr};
ghost use Rattle.rtps_ids.specs.Octets as octets_spec;

use crate::memory::Memory;
use crate::order::Order;
use byteorder::{BigEndian, ByteOrder, LittleEndian};

/// The number that the two octets at offset `at` spell, or None if there are too few octets.
#[tactic(auto, unfolding(crate::specs::Octets::number_of))]
#[inline]
pub fn u16_at(order: Order, bytes: &[u8], at: usize) -> Option<u16>
    ensures { result ≡ octets_spec.read_at (octets_spec.number_of order 2) 2 bytes.now at }
{
    let field = bytes.get(at..)?;
    if field.len() < 2 {
        return None;
    }
    Some(match order {
        Order::Big => BigEndian::read_u16(field),
        Order::Little => LittleEndian::read_u16(field),
    })
}

/// The number that the four octets at offset `at` spell, or None if there are too few octets.
#[tactic(auto, unfolding(crate::specs::Octets::number_of))]
#[inline]
pub fn u32_at(order: Order, bytes: &[u8], at: usize) -> Option<u32>
    ensures { result ≡ octets_spec.read_at (octets_spec.number_of order 4) 4 bytes.now at }
{
    let field = bytes.get(at..)?;
    if field.len() < 4 {
        return None;
    }
    Some(match order {
        Order::Big => BigEndian::read_u32(field),
        Order::Little => LittleEndian::read_u32(field),
    })
}

/// The sequence number that the eight octets at offset `at` spell, or None if there are too few octets. Its high part
/// has a sign and comes first; its low part has none.
#[tactic(auto, unfolding(crate::specs::Octets::number_of, crate::specs::Octets::sequence_number_of))]
#[inline]
pub fn number_at(order: Order, bytes: &[u8], at: usize) -> Option<i64>
    ensures { result ≡ octets_spec.read_at (octets_spec.sequence_number_of order) 8 bytes.now at }
{
    let field = bytes.get(at..)?;
    if field.len() < 8 {
        return None;
    }
    let high = u32_at(order, field, 0)?;
    let low = u32_at(order, field, 4)?;
    Some(((u64::from(high) << 32) | u64::from(low)).cast_signed())
}

/// Appends the two octets of a number. It returns `Memory` only if `out` has no room for them; then `out` keeps what it
/// had.
#[tactic(auto, unfolding(crate::specs::Octets::octets_of))]
pub fn put_u16(order: Order, value: u16, out: &mut Vec<u8>) -> Result<(), Memory>
    ensures ok { OnOk result (out.new.items ≡ out.old.items ++ octets_spec.octets_of order 2 value) }
    ensures err { OnErr result (out.new.items ≡ out.old.items) }
    ensures full { OnErr result (vec_capacity out.old < vec_len out.old + 2) }
    ensures room { vec_capacity out.old ≤ vec_capacity out.new }
{
    let mut octets = [0; 2];
    match order {
        Order::Big => BigEndian::write_u16(&mut octets, value),
        Order::Little => LittleEndian::write_u16(&mut octets, value),
    }
    out.extend_from_slice(&octets)?;
    Ok(())
}

/// Appends the four octets of a number. It returns `Memory` only if `out` has no room for them; then `out` keeps what
/// it had.
pub fn put_u32(order: Order, value: u32, out: &mut Vec<u8>) -> Result<(), Memory>
    ensures ok { OnOk result (out.new.items ≡ out.old.items ++ octets_spec.octets_of order 4 value) }
    ensures err { OnErr result (out.new.items ≡ out.old.items) }
    ensures full { OnErr result (vec_capacity out.old < vec_len out.old + 4) }
    ensures room { vec_capacity out.old ≤ vec_capacity out.new }
{
    let mut octets = [0; 4];
    write_u32(order, value, &mut octets);
    out.extend_from_slice(&octets)?;
    Ok(())
}

/// Appends the eight octets of a sequence number. Its high part has a sign and comes first; its low part has none. It
/// returns `Memory` only if `out` has no room for them; then `out` keeps what it had.
pub fn put_number(order: Order, value: i64, out: &mut Vec<u8>) -> Result<(), Memory>
    ensures ok { OnOk result (out.new.items ≡ out.old.items ++ octets_spec.sequence_number_octets order value) }
    ensures err { OnErr result (out.new.items ≡ out.old.items) }
    ensures full { OnErr result (vec_capacity out.old < vec_len out.old + 8) }
    ensures room { vec_capacity out.old ≤ vec_capacity out.new }
{
    let bits = value.cast_unsigned();
    let mut octets = [0; 8];
    write_u32(order, (bits >> 32) as u32, &mut octets);
    write_u32(order, (bits % (1 << 32)) as u32, &mut octets[4..]);
    out.extend_from_slice(&octets)?;
    Ok(())
}

/// Writes the four octets of a number in place of the first four.
#[tactic(auto, unfolding(crate::specs::Octets::octets_of))]
fn write_u32(order: Order, value: u32, octets: &mut [u8])
    requires { 4 ≤ length octets.old }
    ensures { octets.new ≡ octets_spec.octets_of order 4 value ++ drop 4 octets.old }
{
    match order {
        Order::Big => BigEndian::write_u32(octets, value),
        Order::Little => LittleEndian::write_u32(octets, value),
    }
}
