ghost use Rattle.std.specs.Prelude.{◌≡◌, ◌^◌, ◌<◌, SomeIff, true};
ghost use Rattle.rtps_who.specs.Digits as digits_spec;

use crate::layout::mark::{NINE, ZERO};

/// Whether an octet is a decimal digit.
fn is_digit(octet: u8) -> bool
    ensures { result ≡ digits_spec.is_digit octet }
{
    ZERO <= octet && octet <= NINE
}

/// A number with one digit more, if it is below 2^32.
fn with_digit(value: u32, digit: u8) -> Option<u32>
    requires { digits_spec.is_digit digit ≡ true }
    ensures { SomeIff result (digits_spec.digit_more value digit < 2 ^ 32) (digits_spec.digit_more value digit) }
{
    let more = u64::from(value) * 10 + u64::from(digit - ZERO);
    u32::try_from(more).ok()
}

/// The number below 2^32 that a text spells: decimal digits alone, one at least. None of any other text.
pub(crate) fn number_in(octets: &[u8]) -> Option<u32>
    ensures { result ≡ digits_spec.number_in octets.now }
{
    let mut value = 0;
    for octet in octets {
        if !is_digit(*octet) {
            return None;
        }
        value = with_digit(value, *octet)?;
    }
    if octets.is_empty() {
        return None;
    }
    Some(value)
}
