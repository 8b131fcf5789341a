ghost use Rattle.std.specs.Prelude.{◌≡◌, ◌++◌, IfOk, OnOk, None, map, option_copied, string_bytes};
ghost use Rattle.rtps_policies.specs.Unmatched as unmatched_spec;
ghost use Rattle.rtps_report.specs.Ends as ends;
ghost use Rattle.rtps_report.specs.Talk as talk_spec;
ghost use Rattle.rtps_check.specs.TalkText as talk_text;

use rtps_ids::Guid;
use rtps_lines::sentences::block as said;
use rtps_lines::{EndText, NameStyle, PolicyValue, unmatched_words, words_of_policy};
use rtps_parts::{Part, render};
use rtps_policies::{Policy, Unmatched};
use rtps_report::{LeftOut, Talk};
use std::alloc::{AllocError, Global};

/// An end, by what people know it.
pub(crate) fn end_by<'a>(talk: &Talk<'a>, guid: Guid) -> EndText<'a>
    ensures guid { result.0 ≡ guid }
    ensures end { ends.end_value result.1 ≡ (talk_spec.talk_value talk.now).ends guid }
{
    EndText(guid, talk.end(guid))
}

/// Two each that do not match, by topic, octet by octet. Those of one topic stay in their order.
pub(crate) fn unmatched_by_topic<'u, 'a>(
    alloc: Global,
    unmatched: &'u [Unmatched<'a>],
) -> Result<Vec<&'u Unmatched<'a>>, AllocError>
    ensures { IfOk result (λ sorted. talk_text.AreByTopic (map unmatched_spec.unmatched_value unmatched.now) (map (λ one. unmatched_spec.unmatched_value one.now) sorted.items)) }
{
    let mut sorted = Vec::with_capacity(alloc, unmatched.len())?;
    for one in unmatched {
        sorted.push(one)?;
    }
    sorted.sort_by_key(|one| one.writer.endpoint.topic)?;
    Ok(sorted)
}

/// Pairs that are left out, by topic, octet by octet. Those of one topic stay in their order.
pub(crate) fn left_by_topic<'a>(
    alloc: Global,
    left: &[LeftOut<'a>],
) -> Result<Vec<LeftOut<'a>>, AllocError>
    ensures { IfOk result (λ sorted. talk_text.AreLeftByTopic (map talk_spec.left_out_value left.now) (map talk_spec.left_out_value sorted.items)) }
{
    let mut sorted = Vec::from_slice(alloc, left)?;
    sorted.sort_by_key(|one| one.topic)?;
    Ok(sorted)
}

/// Appends what is offered of a policy, and what is asked for.
fn push_policy(text: &mut String, one: &Unmatched<'_>, policy: Policy) -> Result<(), AllocError>
    ensures { OnOk result (string_bytes text.new ≡ string_bytes text.old ++ talk_text.policy_line (unmatched_spec.unmatched_value one.now) policy) }
{
    let naming = NameStyle::Ros;
    let offered = PolicyValue {
        policy,
        profile: &one.writer,
        naming,
    };
    let requested = PolicyValue {
        policy,
        profile: &one.reader,
        naming,
    };
    let name = words_of_policy(policy);
    writeln!(text, "    {name}: offers {offered}; asks for {requested}")
}

/// Appends the lines of a writer and a reader.
fn push_pair(text: &mut String, one: &Unmatched<'_>, talk: &Talk<'_>) -> Result<(), AllocError>
    ensures { OnOk result (string_bytes text.new ≡ string_bytes text.old ++ talk_text.unmatched_pair (talk_spec.talk_value talk.now).ends (unmatched_spec.unmatched_value one.now)) }
{
    let writer = end_by(talk, one.writer.endpoint.guid);
    let reader = end_by(talk, one.reader.endpoint.guid);
    write!(text, "  writer {writer}\n  reader {reader}\n")?;
    for policy in &one.reasons {
        push_policy(text, one, *policy)?;
    }
    Ok(())
}

/// Appends the line of a topic, if it is not that of the pair before.
pub(crate) fn push_topic(
    text: &mut String,
    before: Option<&[u8]>,
    topic: &[u8],
) -> Result<(), AllocError>
    ensures { OnOk result (string_bytes text.new ≡ string_bytes text.old ++ talk_text.topic_line (option_copied before.entry) topic.now) }
{
    match before {
        Some(before) if before == topic => Ok(()),
        _ => render(text, &[Part::TopicName(topic), Part::Text("\n")]),
    }
}

fn push_pairs(
    text: &mut String,
    sorted: Vec<&Unmatched<'_>>,
    talk: &Talk<'_>,
) -> Result<(), AllocError>
    ensures { OnOk result (string_bytes text.new ≡ string_bytes text.old
        ++ talk_text.unmatched_pairs (talk_spec.talk_value talk.now).ends None (map (λ one. unmatched_spec.unmatched_value one.now) sorted.entry.items)) }
{
    let mut before = None;
    for one in sorted {
        let topic = one.writer.endpoint.topic;
        push_topic(text, before, topic)?;
        push_pair(text, one, talk)?;
        before = Some(topic);
    }
    Ok(())
}

/// Appends the writers and readers that do not match, if there are any.
pub(crate) fn push_unmatched_block(
    alloc: Global,
    text: &mut String,
    talk: &Talk<'_>,
) -> Result<(), AllocError>
    ensures { OnOk result (talk_text.IsUnmatchedBlock (talk_spec.talk_value talk.now) (string_bytes text.old) (string_bytes text.new)) }
{
    if talk.unmatched.is_empty() {
        return Ok(());
    }
    let head = [
        Part::Text("\n"),
        Part::Amount(talk.unmatched.len() as u128, unmatched_words()),
        Part::Text("\n"),
    ];
    let sorted = unmatched_by_topic(alloc, &talk.unmatched)?;
    render(text, &head)?;
    push_pairs(text, sorted, talk)?;
    writeln!(text, "  -> {}", said::UNMATCHED_REMEDY)
}
