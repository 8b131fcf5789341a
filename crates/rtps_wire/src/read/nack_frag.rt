ghost use Rattle.std.specs.Prelude.{◌≡◌};
ghost use Rattle.rtps_wire.specs.NackFrag as nack_frag_spec;

use super::fields::entity_at;
use crate::layout::nack_frag;
use crate::nack_frag::NackFrag;
use rtps_ids::layout::set;
use rtps_ids::{NumberSet, Order, SeqNum, number_at, u32_at};

/// Reads the body of a NACK_FRAG, if it can be read.
pub(crate) fn nack_frag(order: Order, body: &[u8]) -> Option<NackFrag>
    ensures { result ≡ nack_frag_spec.nack_frag_in order body.now }
{
    let number = SeqNum::new(number_at(order, body, nack_frag::NUMBER)?)?;
    let base = u32_at(order, body, nack_frag::BASE)?;
    let bits = u32_at(order, body, nack_frag::BITS)?;
    if base == 0 {
        return None;
    }
    let Some(set) = NumberSet::new(i64::from(base), bits, words_at(order, body)) else {
        return None;
    };
    let words = set::WORD_SIZE * bits.div_ceil(set::WORD_BITS) as usize;
    let count = u32_at(order, body, nack_frag::WORDS + words)?;
    Some(NackFrag {
        reader: entity_at(body, nack_frag::READER),
        writer: entity_at(body, nack_frag::WRITER),
        number,
        set,
        count,
    })
}

/// The words of a set of fragment numbers.
fn words_at(order: Order, body: &[u8]) -> [u32; 8]
    ensures { result ≡ nack_frag_spec.fragment_words order body.now }
{
    let mut words = [0; 8];
    for i in 0..8 {
        words[i] = u32_at(order, body, nack_frag::WORDS + set::WORD_SIZE * i).unwrap_or(0);
    }
    words
}
