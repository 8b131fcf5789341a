ghost use Rattle.std.specs.Prelude.{◌≡◌, ◌++◌, map, IfOk, OnOk};
ghost use Rattle.json.specs.Tree.{json_tokens};
ghost use Rattle.rtps_evidence.specs.Explanation as explanation;
ghost use Rattle.rtps_json.specs.JsonText as json_text;
ghost use Rattle.rtps_json.specs.Values as json_values;
ghost use Rattle.rtps_page.specs.Joining as joining;

use json::Writer;
use rtps_evidence::{Explanation, Location};
use rtps_json::{Clock, Made, Value, array, push_value, some_second};
use std::alloc::AllocError;

/// Where the reader of a row joins; None where it does not, or was there before the recording.
fn joined_of(row: &Explanation<'_>) -> Option<Location>
    ensures { result ≡ joining.joined_in (explanation.explanation_value row.now).evidence.in_span }
{
    let Some(in_span) = &row.evidence.in_span else {
        return None;
    };
    if in_span.is_joined_here {
        in_span.joined
    } else {
        None
    }
}

fn joined_value(joined: Option<Location>, clock: Clock<'_>) -> Made<Value>
    ensures { IfOk result (λ value. json_values.value_json value ≡ joining.joined_json (json_text.clock_times clock.entry) joined) }
{
    let Some(place) = joined else {
        return Ok(Value::Null);
    };
    let values = vec![in clock.alloc;
        Value::Count(place.datagram),
        Value::Count(place.at as u64),
        some_second(clock.times.second(place.datagram)),
    ]?;
    Ok(array(values))
}

/// Appends where the reader of a row joins.
fn push_joined(
    writer: &mut Writer,
    text: &mut String,
    clock: Clock<'_>,
    row: &Explanation<'_>,
) -> Result<(), AllocError>
    ensures tokens { OnOk result (writer.new.tokens
        ≡ writer.old.tokens ++ json_tokens (joining.joining_json (json_text.clock_times clock.entry) (explanation.explanation_value row.now))) }
    ensures before { writer.new.before ≡ writer.old.before }
{
    let joined = joined_value(joined_of(row), clock)?;
    push_value(writer, text, &joined)
}

/// Appends where the reader of each row joins.
pub(crate) fn push_all_joined(
    writer: &mut Writer,
    text: &mut String,
    clock: Clock<'_>,
    rows: &[Explanation<'_>],
) -> Result<(), AllocError>
    ensures tokens { OnOk result (writer.new.tokens
        ≡ writer.old.tokens ++ json_text.tokens_of_member (joining.joined_member (json_text.clock_times clock.entry) (map explanation.explanation_value rows.now))) }
    ensures before { writer.new.before ≡ writer.old.before }
{
    writer.key("joined")?;
    writer.begin_array()?;
    for row in rows {
        push_joined(writer, text, clock, row)?;
    }
    writer.end_array()
}
