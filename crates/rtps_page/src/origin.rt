ghost use Rattle.std.specs.Prelude.{◌≡◌, IfOk};
ghost use Rattle.rtps_json.specs.Values as json_values;
ghost use Rattle.rtps_page.specs.Origin as origin_spec;

use rtps_evidence::Times;
use rtps_json::{Made, Member, Value, object};
use std::alloc::Global;

/// How many nanoseconds a millisecond has.
const MILLISECOND: u64 = 1_000_000;

/// What a page is told of its making, which no report has.
#[derive(Clone, Copy)]
pub struct Origin<'a> {
    /// The name of the recording, as it was given.
    pub name: &'a str,
    /// The version of the program.
    pub version: &'a str,
}

/// A moment in milliseconds; null where there is none.
fn moment(nanoseconds: Option<u64>) -> Value
    ensures { json_values.value_json result ≡ origin_spec.moment_json nanoseconds }
{
    match nanoseconds {
        Some(nanoseconds) => Value::Count(nanoseconds / MILLISECOND),
        None => Value::Null,
    }
}

/// Which recording the page is of.
pub(crate) fn recording_member(origin: Origin<'_>, times: &Times, alloc: Global) -> Made<Member>
    ensures { IfOk result (λ member. json_values.member_json member ≡ origin_spec.recording_member (origin_spec.origin_value origin.entry) times.now) }
{
    let name = String::from_str(alloc, origin.name)?;
    let version = String::from_str(alloc, origin.version)?;
    let members = vec![in alloc;
        ("name", Value::Text(name)),
        ("version", Value::Text(version)),
        ("begin", moment(times.of_datagram(1))),
        ("end", moment(times.of_last_frame())),
    ]?;
    Ok(("recording", object(members)))
}
