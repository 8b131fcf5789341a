ghost use Rattle.std.specs.Prelude.{ℕ, ◌≡◌, ◌≤◌, ◌<◌, ◌-◌, length};
ghost use Rattle.std.specs.Int.{bit_at};
ghost use Rattle.rtps_ids.specs.NumberSet as number_set;
ghost use Rattle.rtps_ids.specs.Ranges as ranges;
ghost use Rattle.rtps_ids.specs.declared.layout.set.TheConstants.{MOST_BITS, WORD_BITS};

use crate::layout::set;

/// The first bit from `from` on that is set, or `WORD_BITS` if there is none. Bits are counted from the highest.
fn first_one(word: u32, from: u32) -> u32
    requires { from < WORD_BITS }
    ensures onward { from ≤ result }
    ensures within { result ≤ WORD_BITS }
    ensures found { result < WORD_BITS → bit_at word (WORD_BITS - 1 - result) ≡ 1 }
    ensures passed { (i : ℕ) → from ≤ i → i < result → bit_at word (WORD_BITS - 1 - i) ≡ 0 }
{
    let rest = u64::from(word) % (1 << (set::WORD_BITS - from));
    rest.leading_zeros() - set::WORD_BITS
}

/// The first bit from `from` on that is set if `wanted`, and clear if not; `WORD_BITS` if there is none. Bits are
/// counted from the highest.
fn first_in_word(word: u32, from: u32, wanted: bool) -> u32
    requires { from < WORD_BITS }
    ensures onward { from ≤ result }
    ensures within { result ≤ WORD_BITS }
    ensures found { result < WORD_BITS → bit_at word (WORD_BITS - 1 - result) ≡ ranges.wanted_bit wanted }
    ensures passed { (i : ℕ) → from ≤ i → i < result → bit_at word (WORD_BITS - 1 - i) ≡ 1 - ranges.wanted_bit wanted }
{
    if wanted {
        first_one(word, from)
    } else {
        first_one(!word, from)
    }
}

/// The first bit from `from` on that is set if `wanted`, and clear if not; `MOST_BITS` if there is none. Bits are
/// counted from the highest of the first word.
pub(crate) fn first_bit(words: &[u32], from: usize, wanted: bool) -> usize
    requires eight { length words.now ≡ 8 }
    requires from { from ≤ MOST_BITS }
    ensures onward { from ≤ result }
    ensures within { result ≤ MOST_BITS }
    ensures found { result < MOST_BITS → number_set.bit_of words.now result ≡ ranges.wanted_bit wanted }
    ensures passed { (i : ℕ) → from ≤ i → i < result → number_set.bit_of words.now i ≡ 1 - ranges.wanted_bit wanted }
{
    let in_word = set::WORD_BITS as usize;
    let mut bit = from;
    while bit < set::MOST_BITS as usize {
        let place = first_in_word(words[bit / in_word], (bit % in_word) as u32, wanted);
        if place < set::WORD_BITS {
            return bit / in_word * in_word + place as usize;
        }
        bit = (bit / in_word + 1) * in_word;
    }
    set::MOST_BITS as usize
}
