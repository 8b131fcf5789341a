//! Members of what a row rests on, and the values that are made of them.

ghost use Rattle.std.specs.Prelude.{◌≡◌, ◌++◌, IfOk, Some};
ghost use Rattle.std.specs.Option.{option_map};
ghost use Rattle.rtps_evidence.specs.Locations.{sent_value};
ghost use Rattle.rtps_evidence.specs.Explanation.{evidence_value};
ghost use Rattle.rtps_wire.specs.Values.{payload_value};
ghost use Rattle.rtps_json.specs.JsonText.{announcement_json, claim_json, clock_times, not_received_json, object_of, place_json, sent_json, teller_json, wait_json, waited_json};
ghost use Rattle.rtps_json.specs.JsonText as json_text;
ghost use Rattle.rtps_json.specs.Values.{member_json, members_json, value_json};

use crate::values::{Made, Member, Members, Value, joined, object, some_count, some_second};
use rtps_evidence::{
    Announcement, Claim, Evidence, FirstMissed, Location, NotReceived, Seconds, Sent, Teller,
    Times, Wait,
};
use rtps_lines::kind_name;
use rtps_wire::Payload;
use std::alloc::Global;

/// By what seconds are told: the times of the recording, and memory for members.
#[derive(Clone, Copy)]
pub struct Clock<'t> {
    pub times: &'t Times,
    pub alloc: Global,
    /// Whether frames are told.
    pub framed: bool,
}

/// The second of a datagram, if there is one.
fn second_at(times: &Times, datagram: Option<u64>) -> Option<Seconds>
    ensures { result ≡ json_text.second_at times.now datagram }
{
    match datagram {
        Some(datagram) => times.second(datagram),
        None => None,
    }
}

/// The frame of a datagram, if there is one and frames are told.
fn frame_at(clock: Clock<'_>, datagram: Option<u64>) -> Option<u64>
    ensures { result ≡ json_text.frame_at (clock_times clock.entry) datagram }
{
    if !clock.framed {
        return None;
    }
    match datagram {
        Some(datagram) => clock.times.frame(datagram),
        None => None,
    }
}

/// The second of a datagram; null where it has no time, and where there is no datagram.
pub(crate) fn second_member(name: &'static str, datagram: Option<u64>, clock: Clock<'_>) -> Member
    ensures { member_json result ≡ json_text.second_member name.now (clock_times clock.entry) datagram }
{
    (name, some_second(second_at(clock.times, datagram)))
}

/// The frame of a datagram; null where it has none, and where there is no datagram.
pub(crate) fn frame_member(name: &'static str, datagram: Option<u64>, clock: Clock<'_>) -> Member
    ensures { member_json result ≡ json_text.frame_member name.now (clock_times clock.entry) datagram }
{
    (name, some_count(frame_at(clock, datagram)))
}

/// Members that stand only where the recording has times.
pub(crate) fn timed(members: Members, clock: Clock<'_>) -> Members
    ensures { members_json result.items ≡ json_text.timed_members (clock_times clock.entry) (members_json members.entry.items) }
{
    if clock.times.are_there() {
        members
    } else {
        Vec::new(clock.alloc)
    }
}

fn frame_members(frame: Option<u64>, alloc: Global) -> Made<Members>
    ensures { IfOk result (λ members. members_json members.items ≡ json_text.frame_members frame) }
{
    match frame {
        Some(frame) => Ok(vec![in alloc; ("frame", Value::Count(frame))]?),
        None => Ok(Vec::new(alloc)),
    }
}

fn place_members(place: Location, clock: Clock<'_>) -> Made<Members>
    ensures { IfOk result (λ members. members_json members.items ≡ json_text.place_members (clock_times clock.entry) place) }
{
    let datagram = Some(place.datagram);
    let position = vec![in clock.alloc;
        ("datagram", Value::Count(place.datagram)),
        ("at", Value::Count(place.at as u64)),
    ]?;
    let time = vec![in clock.alloc; second_member("time", datagram, clock)]?;
    let frame = frame_members(frame_at(clock, datagram), clock.alloc)?;
    joined(position, joined(timed(time, clock), frame)?)
}

/// The object of members, and of a place behind them.
fn placed(members: Members, place: Location, clock: Clock<'_>) -> Made<Value>
    ensures { IfOk result (λ value. value_json value
        ≡ object_of (members_json members.entry.items ++ json_text.place_members (clock_times clock.entry) place)) }
{
    Ok(object(joined(members, place_members(place, clock)?)?))
}

/// Where a submessage stands; null where there is none.
pub(crate) fn place_value(place: Option<Location>, clock: Clock<'_>) -> Made<Value>
    ensures { IfOk result (λ value. value_json value ≡ place_json (clock_times clock.entry) place) }
{
    match place {
        Some(place) => Ok(object(place_members(place, clock)?)),
        None => Ok(Value::Null),
    }
}

fn announcement_value(announcement: Option<Announcement>, clock: Clock<'_>) -> Made<Value>
    ensures { IfOk result (λ value. value_json value ≡ announcement_json (clock_times clock.entry) announcement) }
{
    let Some(announcement) = announcement else {
        return Ok(Value::Null);
    };
    let members = vec![in clock.alloc;
        ("number", Value::Number(announcement.number)),
        ("by", Value::Word(kind_name(announcement.kind))),
    ]?;
    placed(members, announcement.place, clock)
}

pub(crate) fn claim_value(claim: Option<Claim>, clock: Clock<'_>) -> Made<Value>
    ensures { IfOk result (λ value. value_json value ≡ claim_json (clock_times clock.entry) claim) }
{
    let Some(claim) = claim else {
        return Ok(Value::Null);
    };
    let members = vec![in clock.alloc; ("below", Value::Number(claim.below))]?;
    placed(members, claim.place, clock)
}

pub(crate) fn teller_value(teller: Option<Teller>, clock: Clock<'_>) -> Made<Value>
    ensures { IfOk result (λ value. value_json value ≡ teller_json (clock_times clock.entry) teller) }
{
    let Some(teller) = teller else {
        return Ok(Value::Null);
    };
    let members = vec![in clock.alloc; ("by", Value::Word(kind_name(teller.kind)))]?;
    placed(members, teller.place, clock)
}

fn waited_value(wait: Wait, clock: Clock<'_>) -> Made<Value>
    ensures { IfOk result (λ value. value_json value ≡ waited_json (clock_times clock.entry) wait) }
{
    let asked = place_value(Some(wait.asked), clock)?;
    let answered = place_value(wait.answered, clock)?;
    let members = vec![in clock.alloc;
        ("seconds", Value::Second(Seconds::of(wait.nanoseconds))),
        ("asked", asked),
        ("answered", answered),
    ]?;
    Ok(object(members))
}

fn wait_value(wait: Option<Wait>, clock: Clock<'_>) -> Made<Value>
    ensures { IfOk result (λ value. value_json value ≡ wait_json (clock_times clock.entry) wait) }
{
    match wait {
        Some(wait) => waited_value(wait, clock),
        None => Ok(Value::Null),
    }
}

/// For how long the reader of a row let its writer wait, null where that is not told; nothing where the recording has no times.
pub(crate) fn wait_members(wait: Option<Wait>, clock: Clock<'_>) -> Made<Members>
    ensures { IfOk result (λ members. members_json members.items ≡ json_text.wait_members (clock_times clock.entry) wait) }
{
    let members = vec![in clock.alloc; ("wait", wait_value(wait, clock)?)]?;
    Ok(timed(members, clock))
}

fn carried_members(kind: &'static str, octets: usize, alloc: Global) -> Made<Members>
    ensures { IfOk result (λ members. members_json members.items ≡ json_text.carried_members kind.now octets) }
{
    Ok(vec![in alloc;
        ("payload", Value::Word(kind)),
        ("octets", Value::Count(octets as u64)),
    ]?)
}

fn payload_members(payload: Payload<'_>, alloc: Global) -> Made<Members>
    ensures { IfOk result (λ members. members_json members.items ≡ json_text.payload_members (Some (payload_value payload.entry))) }
{
    match payload {
        Payload::Absent => carried_members("absent", 0, alloc),
        Payload::Whole(octets) => carried_members("whole", octets.len(), alloc),
        Payload::Key(octets) => carried_members("key", octets.len(), alloc),
    }
}

pub(crate) fn sent_place_value(sent: Option<Sent<'_>>, clock: Clock<'_>) -> Made<Value>
    ensures { IfOk result (λ value. value_json value ≡ sent_json (clock_times clock.entry) (option_map sent_value sent.entry)) }
{
    let Some(sent) = sent else {
        return Ok(Value::Null);
    };
    placed(
        payload_members(sent.payload, clock.alloc)?,
        sent.place,
        clock,
    )
}

pub(crate) fn evidence_members(evidence: &Evidence<'_>, clock: Clock<'_>) -> Made<Members>
    ensures { IfOk result (λ members. members_json members.items
        ≡ json_text.evidence_members (clock_times clock.entry) (evidence_value evidence.now)) }
{
    let announced = announcement_value(evidence.announcement, clock)?;
    let acknowledged = claim_value(evidence.acknowledgement, clock)?;
    let members = vec![in clock.alloc;
        ("announced", announced),
        ("acknowledged", acknowledged),
        ("payloads", Value::Count(evidence.payloads)),
        ("gone", Value::Count(evidence.gone)),
        ("untold", Value::Count(evidence.untold)),
    ]?;
    Ok(members)
}

fn not_received_value(kept: Option<NotReceived>, clock: Clock<'_>) -> Made<Value>
    ensures { IfOk result (λ value. value_json value ≡ not_received_json (clock_times clock.entry) kept) }
{
    let Some(kept) = kept else {
        return Ok(Value::Null);
    };
    let gone = teller_value(kept.gone, clock)?;
    let acknowledged = place_value(kept.acknowledged, clock)?;
    let members = vec![in clock.alloc;
        ("number", Value::Count(kept.number)),
        ("gone", gone),
        ("acknowledged", acknowledged),
    ]?;
    Ok(object(members))
}

fn first_missed_members(first: Option<FirstMissed>, clock: Clock<'_>) -> Made<Members>
    ensures { IfOk result (λ members. members_json members.items ≡ json_text.first_missed_members (clock_times clock.entry) first) }
{
    let Some(first) = first else {
        return Ok(Vec::new(clock.alloc));
    };
    let asked = place_value(Some(first.asked), clock)?;
    let again = place_value(first.again, clock)?;
    let gone = teller_value(first.gone, clock)?;
    let members = vec![in clock.alloc;
        ("number", Value::Count(first.number)),
        ("asked", asked),
        ("again", again),
        ("gone", gone),
    ]?;
    Ok(vec![in clock.alloc; ("first_missed", object(members))]?)
}

pub(crate) fn delivery_members(evidence: &Evidence<'_>, clock: Clock<'_>) -> Made<Members>
    ensures { IfOk result (λ members. members_json members.items
        ≡ json_text.delivery_members (clock_times clock.entry) (evidence_value evidence.now)) }
{
    let not_received = not_received_value(evidence.not_received, clock)?;
    let members = vec![in clock.alloc;
        ("received", Value::Count(evidence.received)),
        ("not_received", not_received),
        ("missed", Value::Count(evidence.missed)),
    ]?;
    joined(members, first_missed_members(evidence.first_missed, clock)?)
}

/// How often an answer is asked for since the last one, and where last.
pub(crate) fn asked_members(
    asked_since: u64,
    last_asked: Option<Location>,
    clock: Clock<'_>,
) -> Made<Members>
    ensures { IfOk result (λ members. members_json members.items
        ≡ json_text.asked_members (clock_times clock.entry) asked_since last_asked) }
{
    let last = place_value(last_asked, clock)?;
    Ok(vec![in clock.alloc;
        ("asked_since", Value::Count(asked_since)),
        ("last_asked", last),
    ]?)
}
