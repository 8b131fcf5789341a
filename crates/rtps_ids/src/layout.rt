//! The layout of a set of sequence numbers: sizes and offsets. The code that reads, the code that writes and the
//! definitions all use these names.

/// A set of sequence numbers (DDSI-RTPS 2.5, 9.4.2.6 "SequenceNumberSet"). Its base is at offset 0, and its words come
/// last.
pub mod set {
    /// The offset of the number of its bits, after the base.
    pub const COUNT: usize = 8;
    /// The offset of its words. It is also the size of a set that has no words.
    pub const WORDS: usize = 12;
    /// The size of a word, in octets.
    pub const WORD_SIZE: usize = 4;
    /// The number of bits in a word.
    pub const WORD_BITS: u32 = 32;
    /// The most bits that a set can have.
    pub const MOST_BITS: u32 = 256;
}
