ghost use Rattle.std.specs.Prelude.{◌≡◌, ◌<◌, ◌≤◌, ◌^◌, ◌/◌, length, ◌↔◌, ◌<ℤ◌, ℤ, pos, true, false, None, Some, All, IsTrue, IfSome, MatchOption, MatchResult, slice_index};
ghost use Rattle.rtps_ids.specs.NumberSet as number_set;
ghost use Rattle.rtps_ids.specs.Ranges as ranges;
ghost use Rattle.rtps_ids.specs.declared.layout.set.TheConstants.{WORD_BITS};

use crate::bits::first_bit;
use crate::layout::set;
use crate::octets::{number_at, u32_at};
use crate::order::Order;
use crate::set_fault::SetFault;
use std::marker::Model;
use std::ops::Range;

/// A set of sequence numbers. It has a bit for each of up to 256 numbers from a base on, and a number is in the set if
/// its bit is set (DDSI-RTPS 2.5, 8.3.5.5 "SequenceNumberSet" and 9.4.2.6 "SequenceNumberSet").
#[derive(Clone, Copy, PartialEq, Eq, Debug)]
pub struct NumberSet {
    base: u64,
    count: u32,
    words: [u32; 8],
}

impl Model for NumberSet {
    ghost use Rattle.rtps_ids.specs.NumberSet as number_set;

    ghost Value = { number_set.NumberSetValue };

    ghost view = { λ s. record { base = s.base; count = s.count; words = s.words } };

    ghost invariant = { λ s. number_set.IsKeptSet (record { base = s.base; count = s.count; words = s.words }) };

    ghost inverse = { λ v. record { base = v.base; count = v.count; words = v.words } };
}

impl NumberSet {
    /// The set with this base whose bits are the first `count` bits of the words. The bit of the base is the highest of
    /// the first word. Later bits are cleared. None if the base is below 0, if the count is above 256, if the base is 0
    /// and the count is not, or if the last number is above 2^63 - 1.
    pub fn new(base: i64, count: u32, words: [u32; 8]) -> Option<NumberSet>
        ensures exists { MatchOption result (number_set.is_bad base count ≡ true) (λ set. number_set.is_bad base count ≡ false) }
        ensures base { IfSome result (λ set. pos set.base ≡ base) }
        ensures count { IfSome result (λ set. set.count ≡ count) }
        ensures words { IfSome result (λ set. set.words ≡ number_set.cleared_words count (λ i. slice_index words i)) }
    {
        if is_bad(base, count) {
            return None;
        }
        let mut cleared_words = [0; 8];
        for i in 0..8 {
            cleared_words[i] = cleared(count, words[i], i);
        }
        Some(set_of(base, count, cleared_words))
    }

    /// Reads the set at the beginning of the octets, and says how many octets it takes. The fault is `CutWords` if the
    /// octets end before the count does; else `BadSet` if `new` gives None; else `CutWords` if the octets end before
    /// the words do.
    #[tactic(auto, unfolding(crate::specs::NumberSet::set_fault))]
    pub fn read(order: Order, bytes: &[u8]) -> Result<(NumberSet, usize), SetFault>
        ensures { MatchResult result
            (λ found. (number_set.set_fault order bytes.now ≡ None) × (found.0 ≡ number_set.spelled_set order bytes.now) × (found.1 ≡ number_set.octets_of_count found.0.count))
            (λ fault. number_set.set_fault order bytes.now ≡ Some fault) }
    {
        let (Some(base), Some(count)) = (
            number_at(order, bytes, 0),
            u32_at(order, bytes, set::COUNT),
        ) else {
            return Err(SetFault::CutWords);
        };
        if is_bad(base, count) {
            return Err(SetFault::BadSet);
        }
        let used = set::WORDS + set::WORD_SIZE * count.div_ceil(set::WORD_BITS) as usize;
        if bytes.len() < used {
            return Err(SetFault::CutWords);
        }
        let words = read_words(order, bytes, count);
        Ok((set_of(base, count, words), used))
    }

    /// The number of the first bit, 0 or above.
    pub fn base(&self) -> i64
        ensures { result ≡ pos self.now.base }
    {
        self.base.cast_signed()
    }

    /// How many numbers have a bit, 0 to 256.
    pub fn count(&self) -> u32
        ensures count { result ≡ self.now.count }
        // What is true of every set.
        ensures kept { number_set.IsKeptSet self.now }
        ensures words { All (λ word. word < 2 ^ 32) self.now.words }
    {
        words_fit(self.words);
        self.count
    }

    /// Word `i` of 32 bits, counted from 0. It is 0 if `i` is 8 or more.
    pub fn word(&self, i: usize) -> u32
        ensures { result ≡ slice_index self.now.words i }
    {
        if i < 8 { self.words[i] } else { 0 }
    }

    /// Whether this number is in the set. Only numbers from 1 to 2^63 - 1 can be.
    pub fn contains(&self, n: i64) -> bool
        ensures member { IsTrue result ↔ number_set.IsMember self.now n }
        ensures range { (number : ℤ) → number_set.IsMember self.now number → (pos 0 <ℤ number) × (number <ℤ pos (2 ^ 63)) }
    {
        let n = n.cast_unsigned();
        if n < self.base || n - self.base >= u64::from(self.count) {
            return false;
        }
        is_set(&self.words, (n - self.base) as usize)
    }

    /// The first range of numbers of the set from `from` on. The end of the range is the number after its last, so it
    /// may be 2^63. None if the set has no number from `from` on. To get all ranges, call it again with the end of
    /// each.
    pub fn range_from(&self, from: u64) -> Option<Range<u64>>
        ensures range { MatchOption result (ranges.HasNoneFrom self.now from) (λ range. ranges.IsRangeFrom self.now from range.start range.end) }
        ensures in_range { IfSome result (λ range. (1 ≤ range.start) × (range.end ≤ 2 ^ 63)) }
    {
        let start = from.saturating_sub(self.base);
        if start >= u64::from(self.count) {
            return None;
        }
        let first = first_bit(&self.words, start as usize, true);
        if first >= self.count as usize {
            return None;
        }
        let past = first_bit(&self.words, first, false).min(self.count as usize);
        Some(self.base + first as u64..self.base + past as u64)
    }
}

/// A word of 32 bits is below 2^32, as its type says.
fn words_fit(words: [u32; 8])
    ensures { All (λ word. word < 2 ^ 32) words }
{
    let _ = words;
}

/// Whether this bit is set, counted from the highest of the first word.
fn is_set(words: &[u32], bit: usize) -> bool
    requires { bit / WORD_BITS < length words.now }
    ensures { IsTrue result ↔ (number_set.bit_of words.now bit ≡ 1) }
{
    let in_word = set::WORD_BITS as usize;
    (words[bit / in_word] >> (in_word - 1 - bit % in_word)) & 1 == 1
}

/// Whether no set has this base and count.
#[tactic(auto, unfolding(crate::specs::NumberSet::is_bad))]
fn is_bad(base: i64, count: u32) -> bool
    ensures { result ≡ number_set.is_bad base count }
{
    if base < 0 || count > set::MOST_BITS {
        return true;
    }
    if base == 0 {
        return count > 0;
    }
    base.cast_unsigned() + u64::from(count) > 1 << 63
}

/// Word `i` without the bits past `count`.
fn cleared(count: u32, word: u32, i: usize) -> u32
    requires { i < 8 }
    ensures { result ≡ number_set.cleared count word i }
{
    let before = set::WORD_BITS * i as u32;
    if before >= count {
        return 0;
    }
    let dropped = set::WORD_BITS - (count - before).min(set::WORD_BITS);
    ((u64::from(word) >> dropped) << dropped) as u32
}

/// The set of this base and count. Its words have no bit past the count.
#[tactic(auto, unfolding(crate::specs::NumberSet::is_bad))]
fn set_of(base: i64, count: u32, words: [u32; 8]) -> NumberSet
    requires good { number_set.is_bad base count ≡ false }
    requires clear { words ≡ number_set.cleared_words count (λ i. slice_index words i) }
    ensures base { pos result.base ≡ base }
    ensures count { result.count ≡ count }
    ensures words { result.words ≡ words }
{
    NumberSet {
        base: base.cast_unsigned(),
        count,
        words,
    }
}

/// Word `i` of the set at the beginning of the octets, without the bits past the count.
fn word_at(order: Order, bytes: &[u8], count: u32, i: usize) -> u32
    requires place { i < 8 }
    requires whole { number_set.octets_of_count count ≤ length bytes.now }
    ensures { result ≡ number_set.cleared count (number_set.spelled_word order bytes.now i) i }
{
    let Some(word) = u32_at(order, bytes, set::WORDS + set::WORD_SIZE * i) else {
        return 0;
    };
    cleared(count, word, i)
}

/// The words of a set of `count` bits at the beginning of the octets, without the bits past the count.
fn read_words(order: Order, bytes: &[u8], count: u32) -> [u32; 8]
    requires { number_set.octets_of_count count ≤ length bytes.now }
    ensures { result ≡ number_set.cleared_words count (λ i. number_set.spelled_word order bytes.now i) }
{
    let mut words = [0; 8];
    for i in 0..8 {
        words[i] = word_at(order, bytes, count, i);
    }
    words
}
