//! Writes values of JSON. After an `Err` what was written is of no use.

ghost use Rattle.std.specs.Prelude.{◌≡◌, ◌++◌, ◌∷◌, [], OnOk, decimal, map};
ghost use Rattle.std.specs.String.{string_bytes};
ghost use Rattle.json.specs.Json.{string};
ghost use Rattle.json.specs.Token.{number as number_token, string as string_token};
ghost use Rattle.json.specs.Tree.{json_tokens};
ghost use Rattle.rtps_lines.specs.Lines.{seconds_text};
ghost use Rattle.rtps_json.specs.JsonText.{array_of, numbers_json, object_of, tokens_of, tokens_of_member};
ghost use Rattle.rtps_json.specs.Values.{items_json, member_json, members_json, value_json};
ghost use Rattle.rtps_parts.specs.Names.{guid_text};

use crate::values::{Member, Members, Value};
use itoa::Buffer;
use json::Writer;
use rtps_evidence::Seconds;
use rtps_ids::Guid;
use rtps_lines::SecondsText;
use std::alloc::AllocError;

fn push_total(writer: &mut Writer, total: u128) -> Result<(), AllocError>
    ensures tokens { OnOk result (writer.new.tokens ≡ writer.old.tokens ++ number_token (decimal total) ∷ []) }
    ensures before { writer.new.before ≡ writer.old.before }
{
    let mut buffer = Buffer::new();
    writer.number(buffer.format(total))
}

/// Writes a time with three places, to `text` first.
pub fn push_second(
    writer: &mut Writer,
    text: &mut String,
    second: Seconds,
) -> Result<(), AllocError>
    ensures tokens { OnOk result (writer.new.tokens ≡ writer.old.tokens ++ number_token (seconds_text second) ∷ []) }
    ensures before { writer.new.before ≡ writer.old.before }
{
    text.clear();
    write!(text, "{}", SecondsText(second))?;
    writer.number(text)
}

/// Writes a GUID, to `text` first.
pub fn push_guid(writer: &mut Writer, text: &mut String, guid: Guid) -> Result<(), AllocError>
    ensures tokens { OnOk result (writer.new.tokens ≡ writer.old.tokens ++ string_token (guid_text guid) ∷ []) }
    ensures before { writer.new.before ≡ writer.old.before }
{
    text.clear();
    write!(text, "{guid}")?;
    writer.string(text)
}

fn push_counts(writer: &mut Writer, counts: &[u64]) -> Result<(), AllocError>
    ensures tokens { OnOk result (writer.new.tokens ≡ writer.old.tokens ++ json_tokens (numbers_json counts.now)) }
    ensures before { writer.new.before ≡ writer.old.before }
{
    writer.begin_array()?;
    for count in counts {
        writer.u64(*count)?;
    }
    writer.end_array()
}

fn push_texts(writer: &mut Writer, texts: &[String]) -> Result<(), AllocError>
    ensures tokens { OnOk result (writer.new.tokens
        ≡ writer.old.tokens ++ json_tokens (array_of (map string (map string_bytes texts.now)))) }
    ensures before { writer.new.before ≡ writer.old.before }
{
    writer.begin_array()?;
    for text in texts {
        writer.string(text)?;
    }
    writer.end_array()
}

/// Writes a value. GUIDs and times are written to `text` first.
#[cycle(value)]
pub fn push_value(writer: &mut Writer, text: &mut String, value: &Value) -> Result<(), AllocError>
    ensures tokens { OnOk result (writer.new.tokens ≡ writer.old.tokens ++ json_tokens (value_json value.now)) }
    ensures before { writer.new.before ≡ writer.old.before }
{
    match value {
        Value::Null => writer.null(),
        Value::Flag(flag) => writer.boolean(*flag),
        Value::Count(count) => writer.u64(*count),
        Value::Total(total) => push_total(writer, *total),
        Value::Number(number) => writer.i64(*number),
        Value::Second(second) => push_second(writer, text, *second),
        Value::Guid(guid) => push_guid(writer, text, *guid),
        Value::Word(word) => writer.string(word),
        Value::Text(told) => writer.string(told),
        Value::Counts(counts) => push_counts(writer, counts),
        Value::Texts(texts) => push_texts(writer, texts),
        Value::Array(values) => push_array(writer, text, values),
        Value::Object(members) => push_object(writer, text, members),
    }
}

#[cycle(value)]
fn push_array(writer: &mut Writer, text: &mut String, values: &Vec<Value>) -> Result<(), AllocError>
    ensures tokens { OnOk result (writer.new.tokens ≡ writer.old.tokens ++ json_tokens (array_of (items_json values.now.items))) }
    ensures before { writer.new.before ≡ writer.old.before }
{
    writer.begin_array()?;
    for value in values {
        push_value(writer, text, value)?;
    }
    writer.end_array()
}

#[cycle(value)]
fn push_object(writer: &mut Writer, text: &mut String, members: &Members) -> Result<(), AllocError>
    ensures tokens { OnOk result (writer.new.tokens ≡ writer.old.tokens ++ json_tokens (object_of (members_json members.now.items))) }
    ensures before { writer.new.before ≡ writer.old.before }
{
    writer.begin_object()?;
    push_members(writer, text, members)?;
    writer.end_object()
}

/// Writes members of an object.
#[cycle(value)]
pub fn push_members(
    writer: &mut Writer,
    text: &mut String,
    members: &Members,
) -> Result<(), AllocError>
    ensures tokens { OnOk result (writer.new.tokens ≡ writer.old.tokens ++ tokens_of (members_json members.now.items)) }
    ensures before { writer.new.before ≡ writer.old.before }
{
    for member in members {
        writer.key(member.0)?;
        push_value(writer, text, &member.1)?;
    }
    Ok(())
}

/// Writes a member of an object.
pub fn push_member(
    writer: &mut Writer,
    text: &mut String,
    member: &Member,
) -> Result<(), AllocError>
    ensures tokens { OnOk result (writer.new.tokens ≡ writer.old.tokens ++ tokens_of_member (member_json member.now)) }
    ensures before { writer.new.before ≡ writer.old.before }
{
    writer.key(member.0)?;
    push_value(writer, text, &member.1)
}
