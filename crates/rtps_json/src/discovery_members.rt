//! Members of the object of a report on what discovery has told.

ghost use Rattle.std.specs.Prelude.{◌≡◌, IfOk, map};
ghost use Rattle.rtps_report.specs.FullReport.{report_value, rows_of};
ghost use Rattle.rtps_report.specs.LateRows.{late_row_value};
ghost use Rattle.rtps_report.specs.LateRows as late_rows_spec;
ghost use Rattle.rtps_report.specs.NotTold.{not_told_value, topic_end_value};
ghost use Rattle.rtps_report.specs.Talk.{talk_value};
ghost use Rattle.rtps_json.specs.DiscoveryMembers.{ends_json, late_json, lives_json, not_told_json, sent_json};
ghost use Rattle.rtps_json.specs.DiscoveryMembers as of_discovery;
ghost use Rattle.rtps_json.specs.JsonText.{clock_times};
ghost use Rattle.rtps_json.specs.Values.{member_json, members_json, value_json};

use crate::json_members::{Clock, place_value};
use crate::talk_members::address_value;
use crate::values::{Made, Member, Members, Value, array, name, object};
use rtps_evidence::Seconds;
use rtps_lines::sent_second;
use rtps_report::{FullReport, LateRow, NotTold, Talk, TopicEnd, TwoLives, late_rows};
use std::alloc::Global;

/// The GUIDs of endpoints.
#[tactic(auto, using(crate::proofs::ValueLemmas::one_more))]
fn ends_value(ends: &[TopicEnd<'_>], alloc: Global) -> Made<Value>
    ensures { IfOk result (λ value. value_json value ≡ ends_json (map topic_end_value ends.now)) }
{
    let mut values = Vec::new(alloc);
    for end in ends {
        values.push(Value::Guid(end.guid))?;
    }
    Ok(array(values))
}

fn not_told_object(one: &NotTold<'_>, alloc: Global) -> Made<Value>
    ensures { IfOk result (λ value. value_json value ≡ not_told_json (not_told_value one.now)) }
{
    let writers = ends_value(&one.writers, alloc)?;
    let readers = ends_value(&one.readers, alloc)?;
    let members = vec![in alloc;
        ("from", Value::Guid(one.from)),
        ("to", Value::Guid(one.to)),
        ("writers", writers),
        ("readers", readers),
        ("unnamed", Value::Count(one.unnamed)),
    ]?;
    Ok(object(members))
}

#[tactic(auto, using(crate::proofs::ValueLemmas::one_more))]
fn not_told_member(found: &[NotTold<'_>], alloc: Global) -> Made<Member>
    ensures { IfOk result (λ member. member_json member ≡ of_discovery.not_told_member (map not_told_value found.now)) }
{
    let mut values = Vec::new(alloc);
    for one in found {
        values.push(not_told_object(one, alloc)?)?;
    }
    Ok(("untold", array(values)))
}

fn late_object(one: &LateRow<'_>, clock: Clock<'_>) -> Made<Value>
    ensures { IfOk result (λ value. value_json value ≡ late_json (clock_times clock.entry) (late_row_value one.now)) }
{
    let matched = place_value(Some(one.late.place), clock)?;
    let topic = name(one.topic, clock.alloc)?;
    let members = vec![in clock.alloc;
        ("topic", topic),
        ("writer", Value::Guid(one.pair.writer)),
        ("reader", Value::Guid(one.pair.reader)),
        ("seconds", Value::Second(Seconds::of(one.late.delay))),
        ("matched", matched),
    ]?;
    Ok(object(members))
}

#[tactic(auto, using(crate::proofs::ValueLemmas::one_more))]
fn late_member(late: &[LateRow<'_>], clock: Clock<'_>) -> Made<Member>
    ensures { IfOk result (λ member. member_json member
        ≡ of_discovery.late_member (clock_times clock.entry) (map late_row_value late.now)) }
{
    let mut values = Vec::new(clock.alloc);
    for one in late {
        values.push(late_object(one, clock)?)?;
    }
    Ok(("late", array(values)))
}

/// The two source times of a participant with two lives.
fn sent_value(sent: (u64, u64), clock: Clock<'_>) -> Made<Value>
    ensures { IfOk result (λ value. value_json value ≡ sent_json (clock_times clock.entry) sent) }
{
    let first = sent_second(clock.times, sent.0);
    let other = sent_second(clock.times, sent.1);
    Ok(array(vec![in clock.alloc; Value::Second(first), Value::Second(other)]?))
}

fn lives_object(one: TwoLives, talk: &Talk<'_>, clock: Clock<'_>) -> Made<Value>
    ensures { IfOk result (λ value. value_json value ≡ lives_json (talk_value talk.now) (clock_times clock.entry) one) }
{
    let address = address_value(talk.end(one.participant).address, clock.alloc)?;
    let sent = sent_value(one.sent, clock)?;
    let members = vec![in clock.alloc;
        ("participant", Value::Guid(one.participant)),
        ("address", address),
        ("sent", sent),
    ]?;
    Ok(object(members))
}

#[tactic(auto, using(crate::proofs::ValueLemmas::one_more))]
fn lives_member(talk: &Talk<'_>, clock: Clock<'_>) -> Made<Member>
    ensures { IfOk result (λ member. member_json member
        ≡ of_discovery.lives_member (clock_times clock.entry) (talk_value talk.now)) }
{
    let mut values = Vec::new(clock.alloc);
    for one in &talk.lives {
        values.push(lives_object(*one, talk, clock)?)?;
    }
    Ok(("lives", array(values)))
}

/// Who was never told of which endpoints, which pairs matched late, and who has two lives.
pub(crate) fn discovery_members(report: &FullReport<'_>, clock: Clock<'_>) -> Made<Members>
    ensures { IfOk result (λ members. members_json members.items
        ≡ of_discovery.discovery_members (clock_times clock.entry) (talk_value report.now.talk) (late_rows_spec.late_rows (talk_value report.now.talk) (rows_of (report_value report.now)))) }
{
    let rows = late_rows(clock.alloc, &report.talk, &report.explained.rows)?;
    let not_told = not_told_member(&report.talk.not_told, clock.alloc)?;
    let late = late_member(&rows, clock)?;
    let lives = lives_member(&report.talk, clock)?;
    Ok(vec![in clock.alloc; not_told, late, lives]?)
}
