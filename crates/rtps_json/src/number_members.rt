//! Members on the numbers of a row that are lost, or look so.

ghost use Rattle.std.specs.Prelude.{◌≡◌, IfOk, map};
ghost use Rattle.rtps_evidence.specs.Explanation.{lost_at};
ghost use Rattle.rtps_evidence.specs.Kinds.{kind_value, lost_value};
ghost use Rattle.rtps_json.specs.JsonText.{array_of, clock_times, kind_json, object_of, range_json};
ghost use Rattle.rtps_json.specs.JsonText as json_text;
ghost use Rattle.rtps_json.specs.Values.{members_json, value_json};

use crate::json_members::{Clock, place_value};
use crate::values::{Made, Member, Members, Value, array, joined, object};
use rtps_evidence::{KindNumbers, LostNumbers, NumberRange};

fn range_value(range: NumberRange, clock: Clock<'_>) -> Made<Value>
    ensures { IfOk result (λ value. value_json value ≡ range_json (clock_times clock.entry) range) }
{
    let sent = place_value(range.sent, clock)?;
    let members = vec![in clock.alloc;
        ("first", Value::Count(range.first)),
        ("last", Value::Count(range.last)),
        ("sent", sent),
    ]?;
    Ok(object(members))
}

#[tactic(auto, using(crate::proofs::ValueLemmas::one_more))]
fn ranges_value(ranges: &[NumberRange], clock: Clock<'_>) -> Made<Value>
    ensures { IfOk result (λ value. value_json value ≡ array_of (map (range_json (clock_times clock.entry)) ranges.now)) }
{
    let mut values = Vec::new(clock.alloc);
    for range in ranges {
        values.push(range_value(*range, clock)?)?;
    }
    Ok(array(values))
}

fn kind_object(kind: &KindNumbers, clock: Clock<'_>) -> Made<Value>
    ensures { IfOk result (λ value. value_json value ≡ kind_json (clock_times clock.entry) (kind_value kind.now)) }
{
    let ranges = ranges_value(&kind.ranges, clock)?;
    Ok(object(vec![in clock.alloc;
        ("ranges", ranges),
        ("more", Value::Count(kind.more as u64)),
    ]?))
}

/// The ranges of a kind under its name; nothing where it has no number.
fn kind_members(name: &'static str, kind: &KindNumbers, clock: Clock<'_>) -> Made<Members>
    ensures { IfOk result (λ members. members_json members.items
        ≡ json_text.kind_members name.now (clock_times clock.entry) (kind_value kind.now)) }
{
    if kind.ranges.is_empty() {
        return Ok(Vec::new(clock.alloc));
    }
    Ok(vec![in clock.alloc; (name, kind_object(kind, clock)?)]?)
}

fn kinds_members(lost: &LostNumbers, clock: Clock<'_>) -> Made<Members>
    ensures { IfOk result (λ members. members_json members.items
        ≡ json_text.kinds_members (clock_times clock.entry) (lost_value lost.now)) }
{
    let missed = kind_members("missed", &lost.missed, clock)?;
    let unsent = kind_members("unsent", &lost.unsent, clock)?;
    let unanswered = kind_members("unanswered", &lost.unanswered, clock)?;
    let not_arrived = kind_members("not_arrived", &lost.not_arrived, clock)?;
    joined(missed, joined(unsent, joined(unanswered, not_arrived)?)?)
}

/// Those of the row of a place, if there is one.
fn kinds_members_at(lost: &[LostNumbers], place: usize, clock: Clock<'_>) -> Made<Members>
    ensures { IfOk result (λ members. members_json members.items
        ≡ json_text.kinds_members (clock_times clock.entry) (lost_at (map lost_value lost.now) place)) }
{
    match lost.get(place) {
        Some(numbers) => kinds_members(numbers, clock),
        None => Ok(Vec::new(clock.alloc)),
    }
}

/// Which numbers of the row of a place are lost, or look so.
pub(crate) fn lost_object(lost: &[LostNumbers], place: usize, clock: Clock<'_>) -> Made<Value>
    ensures { IfOk result (λ value. value_json value
        ≡ object_of (json_text.kinds_members (clock_times clock.entry) (lost_at (map lost_value lost.now) place))) }
{
    Ok(object(kinds_members_at(lost, place, clock)?))
}
