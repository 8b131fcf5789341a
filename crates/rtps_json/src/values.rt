//! Values of JSON before they are written. Numbers, times and GUIDs have no text of their own yet.

ghost use Rattle.std.specs.Prelude.{◌≡◌, ◌++◌, IfOk};
ghost use Rattle.rtps_json.specs.JsonText.{array_of, name_json, object_of, second_json, until_json};
ghost use Rattle.rtps_json.specs.Values.{items_json, members_json, value_json};

use rtps_evidence::Seconds;
use rtps_ids::Guid;
use rtps_parts::NameOctets;
use std::alloc::{AllocError, Global};

/// A name and a value of an object.
pub type Member = (&'static str, Value);

/// Members of an object, in their order.
pub type Members = Vec<Member>;

/// What is made, or no memory for it.
pub type Made<T> = Result<T, AllocError>;

/// A value of JSON.
#[derive(Drop)]
pub enum Value {
    Null,
    Flag(bool),
    Count(u64),
    Total(u128),
    Number(i64),
    /// A time in seconds, with three places.
    Second(Seconds),
    Guid(Guid),
    Word(&'static str),
    Text(String),
    Counts(Vec<u64>),
    Texts(Vec<String>),
    Array(Vec<Value>),
    Object(Vec<Member>),
}

/// The name of a topic or a type, as `list` writes it between the quotes.
pub fn name(octets: &[u8], alloc: Global) -> Made<Value>
    ensures { IfOk result (λ value. value_json value ≡ name_json octets.now) }
{
    let mut text = String::new(alloc);
    write!(text, "{}", NameOctets(octets))?;
    Ok(Value::Text(text))
}

/// A number; null where there is none.
pub fn some_count(number: Option<u64>) -> Value
    ensures { value_json result ≡ until_json number }
{
    match number {
        Some(number) => Value::Count(number),
        None => Value::Null,
    }
}

/// A time; null where there is none.
pub fn some_second(second: Option<Seconds>) -> Value
    ensures { value_json result ≡ second_json second }
{
    match second {
        Some(second) => Value::Second(second),
        None => Value::Null,
    }
}

/// The array of values.
pub fn array(values: Vec<Value>) -> Value
    ensures { value_json result ≡ array_of (items_json values.items) }
{
    Value::Array(values)
}

/// The object of members.
pub fn object(members: Members) -> Value
    ensures { value_json result ≡ object_of (members_json members.entry.items) }
{
    Value::Object(members)
}

/// Members, and more behind them.
#[tactic(auto, using(crate::proofs::ValueLemmas::joined_members))]
pub fn joined(mut members: Members, mut more: Members) -> Made<Members>
    ensures { IfOk result (λ all. members_json all.items ≡ members_json members.entry.items ++ members_json more.entry.items) }
{
    members.append(&mut more)?;
    Ok(members)
}
