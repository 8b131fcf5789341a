//! Decodes hexadecimal digits to octets, and encodes octets as digits, 32 digits at a time. The crate `hex` defines
//! what a digit is and what digits mean.
#![tactic(auto)]

ghost use Rattle.std.specs.Prelude.{bit_and, ◌≡◌, ◌-◌, ◌*◌, ◌/◌, ◌≤◌, ◌&&◌, ◌++◌, length, map, take, drop, is_ok, IsTrue};
ghost use Rattle.std.specs.List.{list_all};
ghost use Rattle.hex.specs.Hex.{decode_of, encode_lower, is_hex_digit};
ghost use Rattle.rtps_digits.specs.Pairs as pairs;

use std::simd::prelude::*;

/// The value of each digit, and 16 or more for what is no digit.
#[inline(always)]
fn lane_values(digits: u8x32) -> u8x32
    ensures { result ≡ map pairs.lane_value digits }
{
    let decimal = digits - u8x32::splat(b'0');
    // The bit that makes a letter lower case is cleared.
    let letter = (digits & u8x32::splat(0xdf)) - u8x32::splat(b'A');
    decimal.simd_lt(u8x32::splat(10)).select(
        decimal,
        letter.simd_min(u8x32::splat(6)) + u8x32::splat(10),
    )
}

/// The octets of the values of pairs of digits.
#[inline(always)]
fn join_pairs(values: u8x32) -> u8x16
    ensures { result ≡ pairs.pairs_with pairs.join values }
{
    let front: u8x16 = values.extract::<0, 16>();
    let back: u8x16 = values.extract::<16, 16>();
    let (high, low) = front.deinterleave(back);
    high * u8x16::splat(16) + low
}

/// The greater of each two lanes.
#[inline(always)]
fn worse(a: u8x32, b: u8x32) -> u8x32
    ensures { list_all pairs.is_low result ≡ (list_all pairs.is_low a && list_all pairs.is_low b) }
{
    a.simd_max(b)
}

#[inline(always)]
fn are_low(values: u8x32) -> bool
    ensures { result ≡ list_all pairs.is_low values }
{
    u8x32::splat(16).simd_le(values).to_bitmask() == 0
}

/// Decodes the digits that fill whole vectors, from the first on. Returns whether all of them are digits.
fn decode_vectors(octets: &mut [u8], digits: &[u8]) -> bool
    requires { length digits.now ≡ 2 * length octets.old }
    ensures found { result ≡ list_all is_hex_digit (take (32 * (length octets.old / 16)) digits.now) }
    ensures octets { IsTrue result → take (16 * (length octets.old / 16)) octets.new
        ≡ pairs.pairs_of (take (32 * (length octets.old / 16)) digits.now) }
{
    let mut worst = u8x32::splat(0);
    'vectors: for k in 0..octets.len() / 16 {
        let values = lane_values(u8x32::from_slice(&digits[32 * k..]));
        join_pairs(values).copy_to_slice(&mut octets[16 * k..]);
        worst = worse(worst, values);
    }
    are_low(worst)
}

/// Decodes the last 32 digits. Returns whether all of them are digits.
fn decode_last(octets: &mut [u8], digits: &[u8]) -> bool
    requires size { length digits.now ≡ 2 * length octets.old }
    requires long { 16 ≤ length octets.old }
    ensures found { result ≡ list_all is_hex_digit (drop (length digits.now - 32) digits.now) }
    ensures octets { IsTrue result → octets.new
        ≡ take (length octets.old - 16) octets.old ++ pairs.pairs_of (drop (length digits.now - 32) digits.now) }
{
    let from = octets.len() - 16;
    let values = lane_values(u8x32::from_slice(&digits[2 * from..]));
    join_pairs(values).copy_to_slice(&mut octets[from..]);
    are_low(values)
}

/// Decodes 32 digits or more. If whole vectors leave some digits over, the last 32 are decoded once more.
fn decode_long(octets: &mut [u8], digits: &[u8]) -> bool
    requires size { length digits.now ≡ 2 * length octets.old }
    requires long { 16 ≤ length octets.old }
    ensures found { result ≡ is_ok (decode_of digits.now) }
    ensures octets { IsTrue result → octets.new ≡ pairs.octets_of digits.now }
{
    let found = decode_vectors(octets, digits);
    let found_last = decode_last(octets, digits);
    found && found_last
}

/// Writes the octets that these digits stand for, two digits for each, of either case. Returns false if one is no digit
/// or if their number is odd; then what was written means nothing.
pub fn decode(octets: &mut [u8], digits: &[u8]) -> bool
    requires { length octets.old ≡ length digits.now / 2 }
    ensures found { result ≡ is_ok (decode_of digits.now) }
    ensures octets { IsTrue result → octets.new ≡ pairs.octets_of digits.now }
{
    if digits.len() % 2 == 0 && octets.len() >= 16 {
        decode_long(octets, digits)
    } else {
        hex::decode_to_slice(digits, octets).is_ok()
    }
}

/// The digits of the low halves of octets, in lower case.
#[inline(always)]
fn low_digits(halves: u8x16) -> u8x16
    ensures { result ≡ map pairs.half_digit halves }
{
    halves.simd_lt(u8x16::splat(10)).select(
        halves + u8x16::splat(b'0'),
        halves + u8x16::splat(b'a' - 10),
    )
}

/// The first digit of each octet.
#[inline(always)]
fn first_digits(octets: u8x16) -> u8x16
    ensures { result ≡ map (λ octet. pairs.half_digit (octet / 16)) octets }
{
    low_digits(octets >> u8x16::splat(4))
}

/// The second digit of each octet.
#[inline(always)]
fn second_digits(octets: u8x16) -> u8x16
    ensures { result ≡ map (λ octet. pairs.half_digit (bit_and octet 15)) octets }
{
    low_digits(octets & u8x16::splat(15))
}

/// The digits of octets, two each: those of the first eight, and those of the others.
#[inline(always)]
fn digits_of(octets: u8x16) -> (u8x16, u8x16)
    ensures digits { result.0 ++ result.1 ≡ encode_lower octets }
    ensures size { (length result.0 ≡ 16) × (length result.1 ≡ 16) }
{
    first_digits(octets).interleave(second_digits(octets))
}

/// The digits of 16 octets in lower case, two each.
#[inline(always)]
pub fn encode(octets: [u8; 16]) -> [u8; 32]
    ensures { result ≡ encode_lower octets }
{
    let (front, back) = digits_of(u8x16::from_array(octets));
    let mut digits = [0; 32];
    front.copy_to_slice(&mut digits);
    back.copy_to_slice(&mut digits[16..]);
    digits
}
