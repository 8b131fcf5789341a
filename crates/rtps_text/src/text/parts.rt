//! Appends the parts of a line to a growing text. Nothing is formatted on the way: a part is copied once.

ghost use Rattle.std.specs.Prelude.{◌≡◌, ◌++◌, ◌∷◌, [], ◌*◌, ◌≤◌, codes, length, take, IsAscii, OnOk, string_bytes};
ghost use Rattle.hex.specs.Hex.{encode_lower};
ghost use Rattle.rtps_text.specs.ShowText as show_text;

use rtps_ids::{GuidPrefix, NumberSet, Order, Stamp, Version};
use rtps_lines::{push_decimal, push_field};
use rtps_receiver::State;
use std::alloc::AllocError;

static DIGITS: [u8; 16] = *b"0123456789abcdef";

#[inline(always)]
pub(crate) fn push_digits(text: &mut String, octets: &[u8]) -> Result<(), AllocError>
    requires { length octets.now ≤ 16 }
    ensures { OnOk result (string_bytes text.new ≡ string_bytes text.old ++ encode_lower octets.now) }
{
    let digits = digits_from(octets);
    text.push_str(text_of(&digits[..2 * octets.len()]))
}

/// The digits of octets, and behind them others, since a vector is filled.
#[inline(always)]
fn digits_from(octets: &[u8]) -> [u8; 32]
    requires { length octets.now ≤ 16 }
    ensures { take (2 * length octets.now) result ≡ encode_lower octets.now }
{
    let mut filled = [0; 16];
    filled[..octets.len()].copy_from_slice(octets);
    rtps_digits::encode(filled)
}

fn text_of(digits: &[u8]) -> &str
    requires { IsAscii digits.now }
    ensures { result.now ≡ digits.now }
{
    unsafe { str::from_utf8_unchecked(digits) }
}

/// Appends the end of a line: an id. It is one copy, since lines that end so can be very many.
#[inline(always)]
pub(crate) fn push_id(text: &mut String, id: u8) -> Result<(), AllocError>
    ensures { OnOk result (string_bytes text.new
        ≡ string_bytes text.old ++ (codes " id " ++ (encode_lower (id ∷ []) ++ codes "\n"))) }
{
    text.push_str(text_of(&id_field(id)))
}

/// The end of a line that says an id.
#[tactic(auto, unfolding(hex::specs::Hex::encode_with))]
#[inline(always)]
fn id_field(id: u8) -> [u8; 7]
    ensures { result ≡ codes " id " ++ (encode_lower (id ∷ []) ++ codes "\n") }
{
    let [high, low] = digit_pair(id);
    [b' ', b'i', b'd', b' ', high, low, b'\n']
}

/// The digits of one octet, for which a vector is too much.
#[tactic(auto, unfolding(hex::specs::Hex::encode_with))]
#[inline(always)]
fn digit_pair(octet: u8) -> [u8; 2]
    ensures { result ≡ encode_lower (octet ∷ []) }
{
    [DIGITS[(octet / 16) as usize], DIGITS[(octet % 16) as usize]]
}

/// The name of an order of octets.
#[tactic(auto, unfolding(crate::specs::ShowText::order_text))]
#[inline(always)]
pub(crate) fn order_name(order: Order) -> &'static str
    ensures { result.now ≡ show_text.order_text order }
{
    match order {
        Order::Big => "be",
        Order::Little => "le",
    }
}

#[tactic(auto, unfolding(crate::specs::ShowText::digit_of))]
#[inline(always)]
pub(crate) fn push_flag(text: &mut String, name: &str, flag: bool) -> Result<(), AllocError>
    ensures { OnOk result (string_bytes text.new ≡ string_bytes text.old ++ (name.now ++ show_text.digit_of flag)) }
{
    text.push_str(name)?;
    text.push_str(if flag { "1" } else { "0" })
}

#[tactic(auto, unfolding(crate::specs::ShowText::version_text))]
pub(crate) fn push_version(text: &mut String, version: Version) -> Result<(), AllocError>
    ensures { OnOk result (string_bytes text.new ≡ string_bytes text.old ++ show_text.version_text version) }
{
    push_decimal(text, version.major)?;
    push_field(text, ".", version.minor)
}

#[tactic(auto, unfolding(crate::specs::ShowText::time_text))]
pub(crate) fn push_time(text: &mut String, time: Option<Stamp>) -> Result<(), AllocError>
    ensures { OnOk result (string_bytes text.new ≡ string_bytes text.old ++ show_text.time_text time) }
{
    let Some(stamp) = time else {
        return text.push_str("none");
    };
    push_decimal(text, stamp.seconds)?;
    push_field(text, " ", stamp.fraction)
}

#[tactic(auto, unfolding(crate::specs::ShowText::destination_text))]
fn push_destination(text: &mut String, dest: Option<GuidPrefix>) -> Result<(), AllocError>
    ensures { OnOk result (string_bytes text.new ≡ string_bytes text.old ++ show_text.destination_text dest) }
{
    match dest {
        None => text.push_str("all"),
        Some(prefix) => push_digits(text, &prefix.0),
    }
}

/// Appends the end of a line: from whom, for whom and when an act in this state is. It is one copy, since many acts can
/// stand in one state: the tail is that end, or empty where none was made since the state last changed.
pub(crate) fn push_tail(
    text: &mut String,
    tail: &mut String,
    state: &State,
) -> Result<(), AllocError>
    requires { show_text.IsTailIn state.now (string_bytes tail.old) }
    ensures line { OnOk result (string_bytes text.new ≡ string_bytes text.old ++ show_text.tail_text state.now) }
    ensures tail { OnOk result (show_text.IsTailIn state.now (string_bytes tail.new)) }
{
    make_tail(tail, state)?;
    text.push_str(tail)
}

/// Makes the tail where there is none.
#[inline(always)]
fn make_tail(tail: &mut String, state: &State) -> Result<(), AllocError>
    requires { show_text.IsTailIn state.now (string_bytes tail.old) }
    ensures { OnOk result (string_bytes tail.new ≡ show_text.tail_text state.now) }
{
    if !tail.is_empty() {
        return Ok(());
    }
    push_state(tail, state)
}

#[tactic(auto, unfolding(crate::specs::ShowText::state_text))]
fn push_state(text: &mut String, state: &State) -> Result<(), AllocError>
    ensures { OnOk result (string_bytes text.new ≡ string_bytes text.old ++ (codes " " ++ (show_text.state_text state.now ++ codes "\n"))) }
{
    text.push_str(" from ")?;
    push_digits(text, &state.source.prefix.0)?;
    text.push_str(" to ")?;
    push_destination(text, state.dest)?;
    text.push_str(" time ")?;
    push_time(text, state.stamp)?;
    text.push_str("\n")
}

pub(crate) fn push_bitmap(text: &mut String, set: &NumberSet) -> Result<(), AllocError>
    ensures { OnOk result (string_bytes text.new ≡ string_bytes text.old ++ show_text.bitmap_text set.now) }
{
    if set.count() == 0 {
        return text.push_str("-");
    }
    for i in 0..set.count().div_ceil(32) as usize {
        push_digits(text, &set.word(i).to_be_bytes())?;
    }
    Ok(())
}
