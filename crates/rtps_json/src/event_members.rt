//! The member on what makes rows unclean together.

ghost use Rattle.std.specs.Prelude.{◌≡◌, ◌++◌, ◌∷◌, [], IfOk, codes, map};
ghost use Rattle.json.specs.Json.{string};
ghost use Rattle.rtps_report.specs.Events.{event_value};
ghost use Rattle.rtps_report.specs.Talk.{talk_value};
ghost use Rattle.rtps_json.specs.EventMembers.{event_json, parties_json, party_json};
ghost use Rattle.rtps_json.specs.EventMembers as event_members;
ghost use Rattle.rtps_json.specs.JsonText.{clock_times};
ghost use Rattle.rtps_json.specs.Values.{member_json, members_json, value_json};

use crate::json_members::{Clock, place_value};
use crate::values::{Made, Member, Members, Value, array, joined, object};
use rtps_ids::GuidPrefix;
use rtps_lines::push_event_text;
use rtps_policies::participant_of;
use rtps_report::{Event, EventKey, Talk};
use std::alloc::Global;

/// What an event is of, in a word.
fn event_name(key: EventKey) -> &'static str
    ensures { result.now ≡ event_members.event_name key }
{
    match key.second {
        None => "silent",
        Some(_) => "between",
    }
}

/// The GUID of a participant.
fn party(prefix: GuidPrefix) -> Value
    ensures { value_json result ≡ party_json prefix }
{
    Value::Guid(participant_of(prefix))
}

/// The GUIDs of the participants of an event.
fn parties(key: EventKey, alloc: Global) -> Made<Value>
    ensures { IfOk result (λ value. value_json value ≡ parties_json key) }
{
    match key.second {
        None => Ok(array(vec![in alloc; party(key.first)]?)),
        Some(second) => Ok(array(vec![in alloc; party(key.first), party(second)]?)),
    }
}

/// The places of the rows of an event, and how many numbers they lost.
fn amounts_members(event: &Event, alloc: Global) -> Made<Members>
    ensures { IfOk result (λ members. members_json members.items ≡ event_members.amounts_members (event_value event.now)) }
{
    let pairs = Vec::from_slice(alloc, &event.places)?;
    Ok(vec![in alloc;
        ("pairs", Value::Counts(pairs)),
        ("numbers", Value::Total(event.numbers)),
    ]?)
}

/// Where the first and the last of these numbers were sent first, and where the silent participant was asked.
fn places_members(event: &Event, clock: Clock<'_>) -> Made<Members>
    ensures { IfOk result (λ members. members_json members.items
        ≡ event_members.places_members (clock_times clock.entry) (event_value event.now)) }
{
    let first = place_value(event.first, clock)?;
    let last = place_value(event.last, clock)?;
    let asked = place_value(event.asked, clock)?;
    Ok(vec![in clock.alloc; ("first", first), ("last", last), ("asked", asked)]?)
}

/// An event as a sentence.
fn sentence_member(event: &Event, talk: &Talk<'_>, clock: Clock<'_>) -> Made<Member>
    ensures { IfOk result (λ member. member_json member
        ≡ event_members.sentence_member (clock_times clock.entry) (talk_value talk.now) (event_value event.now)) }
{
    let mut text = String::new(clock.alloc);
    push_event_text(&mut text, event, talk, clock.times)?;
    Ok(("text", Value::Text(text)))
}

/// What an event is of, and its participants.
fn named_members(key: EventKey, alloc: Global) -> Made<Members>
    ensures { IfOk result (λ members. members_json members.items
        ≡ (codes "event", string (event_members.event_name key)) ∷ (codes "participants", parties_json key) ∷ []) }
{
    let participants = parties(key, alloc)?;
    Ok(vec![in alloc;
        ("event", Value::Word(event_name(key))),
        ("participants", participants),
    ]?)
}

/// Its places, and a sentence.
fn told_members(event: &Event, talk: &Talk<'_>, clock: Clock<'_>) -> Made<Members>
    ensures { IfOk result (λ members. members_json members.items
        ≡ event_members.places_members (clock_times clock.entry) (event_value event.now)
        ++ event_members.sentence_member (clock_times clock.entry) (talk_value talk.now) (event_value event.now) ∷ []) }
{
    let sentence = vec![in clock.alloc; sentence_member(event, talk, clock)?]?;
    joined(places_members(event, clock)?, sentence)
}

fn event_object(event: &Event, talk: &Talk<'_>, clock: Clock<'_>) -> Made<Value>
    ensures { IfOk result (λ value. value_json value
        ≡ event_json (clock_times clock.entry) (talk_value talk.now) (event_value event.now)) }
{
    let told = told_members(event, talk, clock)?;
    let members = joined(amounts_members(event, clock.alloc)?, told)?;
    Ok(object(joined(named_members(event.key, clock.alloc)?, members)?))
}

/// All events.
#[tactic(auto, using(crate::proofs::ValueLemmas::one_more))]
pub(crate) fn events_member(events: &[Event], talk: &Talk<'_>, clock: Clock<'_>) -> Made<Member>
    ensures { IfOk result (λ member. member_json member
        ≡ event_members.events_member (clock_times clock.entry) (talk_value talk.now) (map event_value events.now)) }
{
    let mut values = Vec::new(clock.alloc);
    for event in events {
        values.push(event_object(event, talk, clock)?)?;
    }
    Ok(("events", array(values)))
}
