ghost use Rattle.std.specs.Prelude.{◌≡◌, ◌+◌, ◌≤◌, ◌++◌, take, vec_len, OnOk, ◌<◌, length, vec_capacity, OnErr};
ghost use Rattle.rtps_ids.specs.NumberSet as number_set;
ghost use Rattle.rtps_write.specs.Held as held;
ghost use Rattle.std.specs.List.{flat_map};
ghost use Rattle.rtps_ids.specs.Octets as octets;
ghost use Rattle.rtps_write.specs.Flags as flags;
ghost use Rattle.rtps_write.specs.WrittenBodies as written_bodies;

use rtps_ids::layout::set::{WORD_BITS, WORD_SIZE, WORDS};
use rtps_ids::{EntityId, Memory, NumberSet, Order, SeqNum, put_number, put_u32};
use rtps_wire::layout::submessage;

/// The flag if it is set, and else 0.
#[inline(always)]
pub(crate) fn flag(is_set: bool, flag: u8) -> u8
    ensures { result ≡ flags.flag_if is_set flag }
{
    if is_set { flag } else { 0 }
}

/// The flag for an order.
#[inline(always)]
pub(crate) fn order_flag(order: Order) -> u8
    ensures { result ≡ flags.order_flag order }
{
    match order {
        Order::Big => 0,
        Order::Little => submessage::E,
    }
}

/// How many octets an entity id takes.
pub(crate) fn entity_size(entity: EntityId) -> usize
    ensures held { held.IsHeldEntity entity }
    ensures size { result ≡ 4 }
{
    entity.0.len()
}

/// How many octets a sequence number takes.
pub(crate) fn number_size(number: SeqNum) -> usize
    ensures held { held.IsHeldNumber number }
    ensures size { result ≡ 8 }
{
    // Called only because its contract gives the range of the number.
    let _value = number.get();
    8
}

/// How many octets a sequence number set takes.
pub(crate) fn set_size(set: NumberSet) -> u16
    ensures held { held.IsHeldSet set }
    ensures size { result ≡ number_set.octets_of_count set.count }
    ensures small { result ≤ 44 }
{
    (WORDS + WORD_SIZE * set.count().div_ceil(WORD_BITS) as usize) as u16
}

/// Appends the ids of a reader and of a writer.
pub(crate) fn put_entities(
    reader: &EntityId,
    writer: &EntityId,
    out: &mut Vec<u8>,
) -> Result<(), Memory>
    ensures written { OnOk result (out.new.items ≡ out.old.items ++ (reader.now.0 ++ writer.now.0)) }
    ensures kept { take (vec_len out.old) out.new.items ≡ out.old.items }
    ensures full { OnErr result (vec_capacity out.old < vec_len out.old + length (reader.now.0 ++ writer.now.0)) }
    ensures room { vec_capacity out.old ≤ vec_capacity out.new }
{
    out.extend_from_slice(&reader.0)?;
    out.extend_from_slice(&writer.0)?;
    Ok(())
}

/// Appends a sequence number set.
#[tactic(auto, using(crate::proofs::WrittenFields::lengths))]
pub(crate) fn put_set(order: Order, set: &NumberSet, out: &mut Vec<u8>) -> Result<(), Memory>
    ensures written { OnOk result (out.new.items ≡ out.old.items ++ written_bodies.set_octets order set.now) }
    ensures kept { take (vec_len out.old) out.new.items ≡ out.old.items }
    ensures full { OnErr result (vec_capacity out.old < vec_len out.old + length (written_bodies.set_octets order set.now)) }
    ensures room { vec_capacity out.old ≤ vec_capacity out.new }
{
    put_number(order, set.base(), out)?;
    put_u32(order, set.count(), out)?;
    put_words(order, set, out)
}

/// Appends as many words of a set as hold its bits.
fn put_words(order: Order, set: &NumberSet, out: &mut Vec<u8>) -> Result<(), Memory>
    ensures written { OnOk result (out.new.items ≡ out.old.items ++ flat_map (octets.octets_of order 4) (take (number_set.words_of_count set.now.count) set.now.words)) }
    ensures kept { take (vec_len out.old) out.new.items ≡ out.old.items }
    ensures full { OnErr result (vec_capacity out.old < vec_len out.old + length (flat_map (octets.octets_of order 4) (take (number_set.words_of_count set.now.count) set.now.words))) }
    ensures room { vec_capacity out.old ≤ vec_capacity out.new }
{
    for i in 0..set.count().div_ceil(WORD_BITS) as usize {
        put_u32(order, set.word(i), out)?;
    }
    Ok(())
}
