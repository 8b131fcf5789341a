//! The sum over datagrams: of each one its size, and its octets by words of eight.

ghost use Rattle.std.specs.Prelude.{◌≡◌, slice_index};
ghost use Rattle.std.specs.List.{fold};
ghost use Rattle.rtps_tool.specs.Sums as sums;

/// The sum over no datagrams.
pub(crate) const INITIAL: u64 = 0x243F_6A88_85A3_08D3;

const FACTOR: u64 = 0x9E37_79B9_7F4A_7C15;

/// A sum with the octets of one datagram more.
pub(crate) fn sum_octets(start: u64, octets: &[u8]) -> u64
    ensures { result ≡ sums.sum_octets start octets.now }
{
    let (words, rest) = octets.as_chunks::<8>();
    let sized = sum_word(start, octets.len() as u64);
    let sum = sum_words(sized, words);
    sum_word(sum, last_word(rest))
}

/// A sum with these words more.
fn sum_words(start: u64, words: &[[u8; 8]]) -> u64
    ensures { result ≡ fold (λ sum word. sums.sum_word sum (sums.word_of word)) start words.now }
{
    let mut sum = start;
    for word in words {
        sum = sum_word(sum, u64::from_le_bytes(*word));
    }
    sum
}

/// A sum with one word more.
#[tactic(auto, unfolding(crate::specs::Sums::sum_word))]
fn sum_word(sum: u64, word: u64) -> u64
    ensures { result ≡ sums.sum_word sum word }
{
    (sum ^ word.wrapping_mul(FACTOR))
        .rotate_left(29)
        .wrapping_mul(5)
}

/// The word of the octets that are left, fewer than eight.
fn last_word(octets: &[u8]) -> u64
    ensures { result ≡ sums.word_of octets.now }
{
    u64::from_le_bytes([
        octet_at(octets, 0),
        octet_at(octets, 1),
        octet_at(octets, 2),
        octet_at(octets, 3),
        octet_at(octets, 4),
        octet_at(octets, 5),
        octet_at(octets, 6),
        octet_at(octets, 7),
    ])
}

/// The octet at a place, and 0 behind the last one.
fn octet_at(octets: &[u8], at: usize) -> u8
    ensures { result ≡ slice_index octets.now at }
{
    octets.get(at).copied().unwrap_or(0)
}
