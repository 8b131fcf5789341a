//! Members of the object of a report on who does not talk.

ghost use Rattle.std.specs.Prelude.{◌≡◌, ◌∷◌, [], IfOk, is_some, map};
ghost use Rattle.std.specs.Option.{option_map};
ghost use Rattle.json.specs.Json.{string};
ghost use Rattle.rtps_lines.specs.PolicyValues.{value_text};
ghost use Rattle.rtps_lines.specs.declared.policy_values.NameStyle.TheVariants.{Dds};
ghost use Rattle.rtps_policies.specs.Fitting.{profile_value};
ghost use Rattle.rtps_policies.specs.PolicyText.{policy_name};
ghost use Rattle.rtps_policies.specs.Unmatched.{unmatched_value};
ghost use Rattle.rtps_report.specs.BestEfforts.{best_effort_value, held_value};
ghost use Rattle.rtps_report.specs.FullReport.{report_value};
ghost use Rattle.rtps_report.specs.Talk.{left_out_value, talk_value};
ghost use Rattle.rtps_json.specs.JsonText.{clock_times};
ghost use Rattle.rtps_json.specs.AddressMembers.{address_json};
ghost use Rattle.rtps_json.specs.TalkMembers.{best_effort_json, held_json, one_way_json, participant_json, reasons_json, talking_json, unmatched_json, unobserved_json, values_json};
ghost use Rattle.rtps_json.specs.TalkMembers as of_talk;
ghost use Rattle.rtps_json.specs.Values.{member_json, members_json, value_json};

use crate::discovery_members::discovery_members;
use crate::end_members::{nodes_member, process_members};
use crate::json_members::{Clock, frame_member, second_member, timed};
use crate::values::{Made, Member, Members, Value, array, joined, name, object, some_count};
use rtps_lines::{NameStyle, PolicyValue};
use rtps_policies::{Address, OneWay, Policy, Profile, Silence, Unmatched, participant_of};
use rtps_report::{BestEffort, FullReport, HeldPair, LeftOut, Participant, Stay, Talk};
use std::alloc::Global;

/// The name of a policy.
fn reason(policy: Policy, alloc: Global) -> Made<Value>
    ensures { IfOk result (λ value. value_json value ≡ string (policy_name policy)) }
{
    let mut text = String::new(alloc);
    write!(text, "{policy}")?;
    Ok(Value::Text(text))
}

/// The names of policies.
#[tactic(auto, using(crate::proofs::ValueLemmas::one_more))]
fn reasons(policies: &[Policy], alloc: Global) -> Made<Value>
    ensures { IfOk result (λ value. value_json value ≡ reasons_json policies.now) }
{
    let mut values = Vec::new(alloc);
    for policy in policies {
        values.push(reason(*policy, alloc)?)?;
    }
    Ok(array(values))
}

/// What an endpoint has of a policy.
fn policy_value(policy: Policy, profile: &Profile<'_>, alloc: Global) -> Made<Value>
    ensures { IfOk result (λ value. value_json value ≡ string (value_text Dds policy (profile_value profile.now))) }
{
    let value = PolicyValue {
        policy,
        profile,
        naming: NameStyle::Dds,
    };
    let mut text = String::new(alloc);
    write!(text, "{value}")?;
    Ok(Value::Text(text))
}

/// What an endpoint has of policies.
#[tactic(auto, using(crate::proofs::ValueLemmas::one_more))]
fn policy_values(policies: &[Policy], profile: &Profile<'_>, alloc: Global) -> Made<Value>
    ensures { IfOk result (λ value. value_json value ≡ values_json policies.now (profile_value profile.now)) }
{
    let mut values = Vec::new(alloc);
    for policy in policies {
        values.push(policy_value(*policy, profile, alloc)?)?;
    }
    Ok(array(values))
}

fn unmatched_object(one: &Unmatched<'_>, alloc: Global) -> Made<Value>
    ensures { IfOk result (λ value. value_json value ≡ unmatched_json (unmatched_value one.now)) }
{
    let because = reasons(&one.reasons, alloc)?;
    let offered = policy_values(&one.reasons, &one.writer, alloc)?;
    let requested = policy_values(&one.reasons, &one.reader, alloc)?;
    let topic = name(one.writer.endpoint.topic, alloc)?;
    let members = vec![in alloc;
        ("topic", topic),
        ("writer", Value::Guid(one.writer.endpoint.guid)),
        ("reader", Value::Guid(one.reader.endpoint.guid)),
        ("because", because),
        ("offered", offered),
        ("requested", requested),
    ]?;
    Ok(object(members))
}

#[tactic(auto, using(crate::proofs::ValueLemmas::one_more))]
fn unmatched_member(unmatched: &[Unmatched<'_>], alloc: Global) -> Made<Member>
    ensures { IfOk result (λ member. member_json member ≡ of_talk.unmatched_member (map unmatched_value unmatched.now)) }
{
    let mut values = Vec::new(alloc);
    for one in unmatched {
        values.push(unmatched_object(one, alloc)?)?;
    }
    Ok(("unmatched", array(values)))
}

fn talking_object(one: &Unmatched<'_>, alloc: Global) -> Made<Value>
    ensures { IfOk result (λ value. value_json value ≡ talking_json (unmatched_value one.now)) }
{
    let because = reasons(&one.reasons, alloc)?;
    let topic = name(one.writer.endpoint.topic, alloc)?;
    let members = vec![in alloc;
        ("topic", topic),
        ("writer", Value::Guid(one.writer.endpoint.guid)),
        ("reader", Value::Guid(one.reader.endpoint.guid)),
        ("because", because),
    ]?;
    Ok(object(members))
}

#[tactic(auto, using(crate::proofs::ValueLemmas::one_more))]
fn talking_member(talking: &[Unmatched<'_>], alloc: Global) -> Made<Member>
    ensures { IfOk result (λ member. member_json member ≡ of_talk.talking_member (map unmatched_value talking.now)) }
{
    let mut values = Vec::new(alloc);
    for one in talking {
        values.push(talking_object(one, alloc)?)?;
    }
    Ok(("talking", array(values)))
}

/// Why a pair is silent, in a word.
#[tactic(auto, unfolding(crate::specs::TalkMembers::silence_name))]
fn silence_name(silence: Silence) -> &'static str
    ensures { result.now ≡ of_talk.silence_name silence }
{
    match silence {
        Silence::OneParticipant => "one participant",
        Silence::TwoDomains => "two domains",
        Silence::OneWay => "one way",
        Silence::Silent => "silent",
    }
}

fn unobserved_object(one: &LeftOut<'_>, silence: Silence, alloc: Global) -> Made<Value>
    ensures { IfOk result (λ value. value_json value ≡ unobserved_json silence (left_out_value one.now)) }
{
    let topic = name(one.topic, alloc)?;
    let members = vec![in alloc;
        ("topic", topic),
        ("writer", Value::Guid(one.pair.writer)),
        ("reader", Value::Guid(one.pair.reader)),
        ("because", Value::Word(silence_name(silence))),
    ]?;
    Ok(object(members))
}

#[tactic(auto, using(crate::proofs::ValueLemmas::one_more))]
fn unobserved_member(talk: &Talk<'_>, alloc: Global) -> Made<Member>
    ensures { IfOk result (λ member. member_json member ≡ of_talk.unobserved_member (talk_value talk.now).silence (talk_value talk.now).left_out) }
{
    let mut values = Vec::new(alloc);
    for one in &talk.left_out {
        values.push(unobserved_object(one, talk.silence(one.pair), alloc)?)?;
    }
    Ok(("unobserved", array(values)))
}

fn one_way_object(one: OneWay, alloc: Global) -> Made<Value>
    ensures { IfOk result (λ value. value_json value ≡ one_way_json one) }
{
    let members = vec![in alloc;
        ("from", Value::Guid(participant_of(one.naming.source))),
        ("to", Value::Guid(participant_of(one.naming.dest))),
        ("named", Value::Count(one.count)),
    ]?;
    Ok(object(members))
}

#[tactic(auto, using(crate::proofs::ValueLemmas::one_more))]
fn one_way_member(one_way: &[OneWay], alloc: Global) -> Made<Member>
    ensures { IfOk result (λ member. member_json member ≡ of_talk.one_way_member one_way.now) }
{
    let mut values = Vec::new(alloc);
    for one in one_way {
        values.push(one_way_object(*one, alloc)?)?;
    }
    Ok(("one_way", array(values)))
}

fn best_effort_object(sum: &BestEffort<'_>, alloc: Global) -> Made<Value>
    ensures { IfOk result (λ value. value_json value ≡ best_effort_json (best_effort_value sum.now)) }
{
    let topic = name(sum.topic, alloc)?;
    let members = vec![in alloc;
        ("topic", topic),
        ("pairs", Value::Count(sum.pairs)),
        ("numbers", Value::Total(sum.numbers)),
        ("recorded", Value::Total(sum.recorded)),
    ]?;
    Ok(object(members))
}

#[tactic(auto, using(crate::proofs::ValueLemmas::one_more))]
fn best_effort_member(sums: &[BestEffort<'_>], alloc: Global) -> Made<Member>
    ensures { IfOk result (λ member. member_json member ≡ of_talk.best_effort_member (map best_effort_value sums.now)) }
{
    let mut values = Vec::new(alloc);
    for sum in sums {
        values.push(best_effort_object(sum, alloc)?)?;
    }
    Ok(("best_effort", array(values)))
}

fn held_object(one: &HeldPair<'_>, alloc: Global) -> Made<Value>
    ensures { IfOk result (λ value. value_json value ≡ held_json (held_value one.now)) }
{
    let topic = name(one.topic, alloc)?;
    let lacking = Vec::from_slice(alloc, one.arrived.lacking.as_slice())?;
    let members = vec![in alloc;
        ("topic", topic),
        ("writer", Value::Guid(one.pair.writer)),
        ("reader", Value::Guid(one.pair.reader)),
        ("numbers", Value::Count(one.numbers)),
        ("arrived", Value::Count(one.arrived.arrived)),
        ("not_arrived", Value::Counts(lacking)),
    ]?;
    Ok(object(members))
}

#[tactic(auto, using(crate::proofs::ValueLemmas::one_more))]
fn held_member(held: &[HeldPair<'_>], alloc: Global) -> Made<Member>
    ensures { IfOk result (λ member. member_json member ≡ of_talk.held_member (map held_value held.now)) }
{
    let mut values = Vec::new(alloc);
    for one in held {
        values.push(held_object(one, alloc)?)?;
    }
    Ok(("arrived", array(values)))
}

/// What arrived of pairs of best effort, where there is another recording.
fn held_members(held: &[HeldPair<'_>], has_other: bool, alloc: Global) -> Made<Members>
    ensures { IfOk result (λ members. members_json members.items ≡ of_talk.held_members has_other (map held_value held.now)) }
{
    if !has_other {
        return Ok(Vec::new(alloc));
    }
    Ok(vec![in alloc; held_member(held, alloc)?]?)
}

/// An address; null where none is known.
pub(crate) fn address_value(address: Option<Address>, alloc: Global) -> Made<Value>
    ensures { IfOk result (λ value. value_json value ≡ address_json address) }
{
    let Some(address) = address else {
        return Ok(Value::Null);
    };
    let mut text = String::new(alloc);
    write!(text, "{address}")?;
    Ok(Value::Text(text))
}

/// The number of a domain.
fn domain_number(domain: Option<u32>) -> Option<u64>
    ensures { result ≡ domain }
{
    match domain {
        Some(domain) => Some(u64::from(domain)),
        None => None,
    }
}

/// From which datagram on there is something of a participant.
fn first_of(stay: Option<Stay>) -> Option<u64>
    ensures { result ≡ option_map (λ stay. stay.first) stay }
{
    match stay {
        Some(stay) => Some(stay.first),
        None => None,
    }
}

/// Up to which datagram there is something of a participant.
fn last_of(stay: Option<Stay>) -> Option<u64>
    ensures { result ≡ option_map (λ stay. stay.last) stay }
{
    match stay {
        Some(stay) => Some(stay.last),
        None => None,
    }
}

/// When the datagrams came of which it is told, and whether the participant is silent; nothing where the recording has no times.
fn stay_times(participant: &Participant, clock: Clock<'_>) -> Made<Members>
    ensures { IfOk result (λ members. members_json members.items ≡ of_talk.stay_times (clock_times clock.entry) participant.now) }
{
    let first = first_of(participant.stay);
    let last = last_of(participant.stay);
    let members = vec![in clock.alloc;
        second_member("first_time", first, clock),
        second_member("last_time", last, clock),
        second_member("left_time", participant.left, clock),
        frame_member("first_frame", first, clock),
        frame_member("last_frame", last, clock),
        frame_member("left_frame", participant.left, clock),
        ("silent", Value::Flag(participant.silent)),
    ]?;
    Ok(timed(members, clock))
}

/// From when to when there is something of a participant, and where it leaves.
fn stay_members(participant: &Participant, clock: Clock<'_>) -> Made<Members>
    ensures { IfOk result (λ members. members_json members.items ≡ of_talk.stay_members (clock_times clock.entry) participant.now) }
{
    let members = vec![in clock.alloc;
        ("first", some_count(first_of(participant.stay))),
        ("last", some_count(last_of(participant.stay))),
        ("left", some_count(participant.left)),
    ]?;
    joined(members, stay_times(participant, clock)?)
}

/// The process of a participant, and its nodes.
fn named_members(participant: &Participant, talk: &Talk<'_>, alloc: Global) -> Made<Members>
    ensures { IfOk result (λ members. members_json members.items ≡ of_talk.named_members (talk_value talk.now) participant.now) }
{
    let end = talk.end(participant.guid);
    let nodes = talk.nodes(alloc, participant.guid.prefix)?;
    let named = vec![in alloc; nodes_member(&nodes, alloc)?]?;
    joined(process_members(&end.process, alloc)?, named)
}

/// Where a participant is, and when there is something of it.
fn placed_members(participant: &Participant, clock: Clock<'_>) -> Made<Members>
    ensures { IfOk result (λ members. members_json members.items ≡ of_talk.placed_members (clock_times clock.entry) participant.now) }
{
    let address = address_value(participant.host.address, clock.alloc)?;
    let members = vec![in clock.alloc;
        ("guid", Value::Guid(participant.guid)),
        ("address", address),
        ("domain", some_count(domain_number(participant.host.domain))),
    ]?;
    joined(members, stay_members(participant, clock)?)
}

fn participant_object(participant: &Participant, talk: &Talk<'_>, clock: Clock<'_>) -> Made<Value>
    ensures { IfOk result (λ value. value_json value ≡ participant_json (talk_value talk.now) (clock_times clock.entry) participant.now) }
{
    let named = named_members(participant, talk, clock.alloc)?;
    Ok(object(joined(placed_members(participant, clock)?, named)?))
}

#[tactic(auto, using(crate::proofs::ValueLemmas::one_more))]
fn participants_member(talk: &Talk<'_>, clock: Clock<'_>) -> Made<Member>
    ensures { IfOk result (λ member. member_json member ≡ of_talk.participants_member (clock_times clock.entry) (talk_value talk.now)) }
{
    let mut values = Vec::new(clock.alloc);
    for participant in &talk.participants {
        values.push(participant_object(participant, talk, clock)?)?;
    }
    Ok(("participants", array(values)))
}

/// Whether there is another recording.
pub(crate) fn has_other(report: &FullReport<'_>) -> bool
    ensures { result ≡ is_some (report_value report.now).arrived }
{
    report.arrived.is_some()
}

/// Who does not match, who talks all the same, and of whom the recording cannot speak.
fn silent_members(talk: &Talk<'_>, alloc: Global) -> Made<Members>
    ensures { IfOk result (λ members. members_json members.items
        ≡ of_talk.unmatched_member (talk_value talk.now).unmatched ∷ of_talk.talking_member (talk_value talk.now).talking
        ∷ of_talk.unobserved_member (talk_value talk.now).silence (talk_value talk.now).left_out ∷ of_talk.one_way_member (talk_value talk.now).one_way ∷ []) }
{
    let unmatched = unmatched_member(&talk.unmatched, alloc)?;
    let talking = talking_member(&talk.talking, alloc)?;
    let unobserved = unobserved_member(talk, alloc)?;
    let one_way = one_way_member(&talk.one_way, alloc)?;
    Ok(vec![in alloc; unmatched, talking, unobserved, one_way]?)
}

/// Who does not talk.
pub(crate) fn talk_members(report: &FullReport<'_>, clock: Clock<'_>) -> Made<Members>
    ensures { IfOk result (λ members. members_json members.items ≡ of_talk.talk_members (clock_times clock.entry) (report_value report.now)) }
{
    let alloc = clock.alloc;
    let talk = &report.talk;
    let members = vec![in alloc; participants_member(talk, clock)?]?;
    let members = joined(held_members(&talk.held, has_other(report), alloc)?, members)?;
    let best_effort = vec![in alloc; best_effort_member(&talk.best_effort, alloc)?]?;
    let members = joined(best_effort, members)?;
    let members = joined(discovery_members(report, clock)?, members)?;
    joined(silent_members(talk, alloc)?, members)
}
