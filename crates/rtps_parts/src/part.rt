ghost use Rattle.std.specs.Prelude.{◌≡◌, ◌++◌, ◌∷◌, [], OnOk, IsAscii, map, replicate};
ghost use Rattle.std.specs.List.{flat_map};
ghost use Rattle.std.specs.String.{string_bytes};
ghost use Rattle.rtps_parts.specs.Parts as parts_spec;

use crate::name::NameOctets;
use crate::ros::{TopicText, TypeText};
use itoa::Buffer;
use std::alloc::{AllocError, Global};

/// Words for one of what is counted, and for another number of it.
#[derive(Clone, Copy)]
pub struct Words {
    pub one: &'static str,
    pub many: &'static str,
}

/// A part of a text.
#[derive(Clone, Copy)]
pub enum Part<'a> {
    /// These words.
    Text(&'a str),
    /// The octets of a name that was recorded.
    Name(&'a [u8]),
    /// The name that ROS 2 gives a topic.
    TopicName(&'a [u8]),
    /// The name that ROS 2 gives a type.
    TypeName(&'a [u8]),
    /// A number in decimal, with commas between threes.
    Grouped(u128),
    /// A number of a greater one, both with commas.
    Share(u128, u128),
    /// A number with commas, and the words for so many.
    Amount(u128, Words),
    /// So many spaces.
    Spaces(usize),
}

/// Appends parts.
pub fn render(text: &mut String, parts: &[Part<'_>]) -> Result<(), AllocError>
    ensures { OnOk result (string_bytes text.new ≡ string_bytes text.old ++ flat_map parts_spec.part_text parts.now) }
{
    for part in parts {
        push_part(text, *part)?;
    }
    Ok(())
}

/// Appends a text of these parts to texts.
pub fn push_rendered(
    alloc: Global,
    texts: &mut Vec<String>,
    parts: &[Part<'_>],
) -> Result<(), AllocError>
    ensures { OnOk result (map string_bytes texts.new.items ≡ map string_bytes texts.old.items ++ flat_map parts_spec.part_text parts.now ∷ []) }
{
    let mut text = String::new(alloc);
    render(&mut text, parts)?;
    texts.push(text)?;
    Ok(())
}

/// Appends texts with a separator between each two.
pub fn push_joined(text: &mut String, separator: &str, texts: &[String]) -> Result<(), AllocError>
    ensures { OnOk result (string_bytes text.new ≡ string_bytes text.old ++ parts_spec.joined separator.now (map string_bytes texts.now)) }
{
    let Some((first, others)) = texts.split_first() else {
        return Ok(());
    };
    text.push_str(first)?;
    for other in others {
        text.push_str(separator)?;
        text.push_str(other)?;
    }
    Ok(())
}

pub(crate) fn push_part(text: &mut String, part: Part<'_>) -> Result<(), AllocError>
    ensures { OnOk result (string_bytes text.new ≡ string_bytes text.old ++ parts_spec.part_text part.entry) }
{
    match part {
        Part::Text(words) => text.push_str(words),
        Part::Name(octets) => write!(text, "{}", NameOctets(octets)),
        Part::TopicName(topic) => write!(text, "{}", TopicText(topic)),
        Part::TypeName(kind) => write!(text, "{}", TypeText(kind)),
        Part::Grouped(number) => push_grouped(text, number),
        Part::Share(some, whole) => {
            push_grouped(text, some)?;
            text.push_str(" of ")?;
            push_grouped(text, whole)
        }
        Part::Amount(number, words) => {
            push_grouped(text, number)?;
            text.push_str(" ")?;
            text.push_str(words_for(number, words))
        }
        Part::Spaces(count) => push_spaces(text, count),
    }
}

/// The words for so many.
pub fn words_for(number: u128, words: Words) -> &'static str
    ensures { result.now ≡ parts_spec.words_for number (parts_spec.words_value words) }
{
    if number == 1 { words.one } else { words.many }
}

fn push_spaces(text: &mut String, count: usize) -> Result<(), AllocError>
    ensures { OnOk result (string_bytes text.new ≡ string_bytes text.old ++ replicate count 32) }
{
    for place in 0..count {
        let _ = place;
        text.push_str(" ")?;
    }
    Ok(())
}

fn push_grouped(text: &mut String, number: u128) -> Result<(), AllocError>
    ensures { OnOk result (string_bytes text.new ≡ string_bytes text.old ++ parts_spec.grouped number) }
{
    push_with_commas(text, Buffer::new().format(number).as_bytes())
}

fn push_with_commas(text: &mut String, digits: &[u8]) -> Result<(), AllocError>
    requires { IsAscii digits.now }
    ensures { OnOk result (string_bytes text.new ≡ string_bytes text.old ++ parts_spec.with_commas digits.now) }
{
    let mut rest = digits;
    'digits: while let Some((digit, more)) = rest.split_first() {
        text.push(char::from(*digit))?;
        push_comma(text, more.len())?;
        rest = more;
    }
    Ok(())
}

fn push_comma(text: &mut String, digits: usize) -> Result<(), AllocError>
    ensures { OnOk result (string_bytes text.new ≡ string_bytes text.old ++ parts_spec.comma_before digits) }
{
    if digits > 0 && digits % 3 == 0 {
        text.push_str(",")
    } else {
        Ok(())
    }
}
