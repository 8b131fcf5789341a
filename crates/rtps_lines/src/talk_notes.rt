ghost use Rattle.std.specs.Prelude.{◌≡◌, ◌++◌, OnOk, IfOk, None, flat_map, length, map, option_copied};
ghost use Rattle.std.specs.String.{string_bytes};
ghost use Rattle.rtps_parts.specs.Parts as parts;
ghost use Rattle.rtps_policies.specs.Unmatched as unmatched;
ghost use Rattle.rtps_report.specs.Talk as talk_spec;
ghost use Rattle.rtps_lines.specs.Notes as notes_spec;

use crate::notes::NotedRows;
use crate::policy_values::words_of_policy;
use crate::sentences::noted as said;
use rtps_parts::{Part, Words, push_rendered, render};
use rtps_policies::{Policy, Silence, Unmatched};
use rtps_report::{LeftOut, Talk};
use std::alloc::{AllocError, Global};

/// Why pairs are silent, and what that says of them.
#[tactic(auto, unfolding(crate::specs::Notes::silence_words))]
fn silence_words(silence: Silence) -> &'static str
    ensures { result.now ≡ notes_spec.silence_words silence }
{
    match silence {
        Silence::OneParticipant => said::ONE_PARTICIPANT,
        Silence::TwoDomains => said::TWO_DOMAINS,
        Silence::OneWay => said::ONE_WAY,
        Silence::Silent => said::SILENT,
    }
}

fn left_out_by(silence: Silence, pairs: usize, names: &str) -> [Part<'_>; 3]
    ensures { flat_map parts.part_text result ≡ notes_spec.left_out_by silence pairs names.now }
{
    let words = Words {
        one: said::LEFT_OUT_ONE,
        many: said::LEFT_OUT_MANY,
    };
    [
        Part::Amount(pairs as u128, words),
        Part::Text(silence_words(silence)),
        Part::Text(names),
    ]
}

/// Whether two reasons are the same.
fn is_same(one: Silence, other: Silence) -> bool
    ensures { result ≡ notes_spec.is_silence one other }
{
    one == other
}

/// Those of pairs that are left out which are silent for this reason.
fn silent_among<'a>(
    alloc: Global,
    pairs: &[LeftOut<'a>],
    talk: &Talk<'_>,
    silence: Silence,
) -> Result<Vec<LeftOut<'a>>, AllocError>
    ensures { IfOk result (λ found. map talk_spec.left_out_value found.items
        ≡ notes_spec.silent_in (talk_spec.talk_value talk.now).silence silence (map talk_spec.left_out_value pairs.now)) }
{
    let mut found = Vec::new(alloc);
    for one in pairs {
        if is_same(talk.silence(one.pair), silence) {
            found.push(*one)?;
        }
    }
    Ok(found)
}

/// Appends the name of a topic, if it is not that of the pair before.
fn push_name(names: &mut String, before: Option<&[u8]>, topic: &[u8]) -> Result<(), AllocError>
    ensures { OnOk result (string_bytes names.new ≡ string_bytes names.old ++ notes_spec.name_behind (option_copied before.entry) topic.now) }
{
    match before {
        None => render(names, &[Part::Text(": "), Part::TopicName(topic)]),
        Some(before) if before == topic => Ok(()),
        Some(_) => render(names, &[Part::Text(", "), Part::TopicName(topic)]),
    }
}

/// The names of the topics of pairs, which stand by topic, behind a colon; empty where there is no pair.
fn names_behind(alloc: Global, pairs: Vec<LeftOut<'_>>) -> Result<String, AllocError>
    ensures { IfOk result (λ names. string_bytes names ≡ notes_spec.names_behind None (map talk_spec.left_out_value pairs.entry.items)) }
{
    let mut names = String::new(alloc);
    let mut before = None;
    for one in pairs {
        push_name(&mut names, before, one.topic)?;
        before = Some(one.topic);
    }
    Ok(names)
}

/// The same where topics are named; empty where they are not.
fn left_names(alloc: Global, named: bool, pairs: Vec<LeftOut<'_>>) -> Result<String, AllocError>
    ensures { IfOk result (λ names. string_bytes names ≡ notes_spec.left_names named (map talk_spec.left_out_value pairs.entry.items)) }
{
    if named {
        names_behind(alloc, pairs)
    } else {
        Ok(String::new(alloc))
    }
}

/// Appends the note on pairs that are silent for this reason.
fn push_silent(
    alloc: Global,
    notes: &mut Vec<String>,
    told: NotedRows<'_, '_>,
    silence: Silence,
) -> Result<(), AllocError>
    ensures { OnOk result (map string_bytes notes.new.items ≡ map string_bytes notes.old.items
        ++ notes_spec.silent_note told.entry.named (talk_spec.talk_value told.entry.talk.now).silence (map talk_spec.left_out_value told.entry.left_out.now) silence) }
{
    let pairs = silent_among(alloc, told.left_out, told.talk, silence)?;
    if pairs.is_empty() {
        return Ok(());
    }
    let number = pairs.len();
    let names = left_names(alloc, told.named, pairs)?;
    push_rendered(alloc, notes, &left_out_by(silence, number, &names))
}

/// The reasons for which pairs are silent, in the order in which they are told.
const SILENCES: [Silence; 4] = [
    Silence::OneParticipant,
    Silence::TwoDomains,
    Silence::OneWay,
    Silence::Silent,
];

pub(crate) fn push_left_out(
    alloc: Global,
    notes: &mut Vec<String>,
    told: NotedRows<'_, '_>,
) -> Result<(), AllocError>
    ensures { OnOk result (map string_bytes notes.new.items ≡ map string_bytes notes.old.items
        ++ notes_spec.left_out_notes told.entry.named (talk_spec.talk_value told.entry.talk.now).silence (map talk_spec.left_out_value told.entry.left_out.now)) }
{
    for silence in &SILENCES {
        push_silent(alloc, notes, told, *silence)?;
    }
    Ok(())
}

/// Appends the names of policies.
fn push_policies(text: &mut String, policies: &[Policy]) -> Result<(), AllocError>
    ensures { OnOk result (string_bytes text.new ≡ string_bytes text.old ++ notes_spec.policies_text policies.now) }
{
    let Some((first, others)) = policies.split_first() else {
        return Ok(());
    };
    text.push_str(words_of_policy(*first))?;
    for other in others {
        render(
            text,
            &[Part::Text(", "), Part::Text(words_of_policy(*other))],
        )?;
    }
    Ok(())
}

/// Appends the name of the topic of two that talk though they do not match, and for which policies they do not.
fn push_talking_pair<'a>(
    text: &mut String,
    separator: &'a str,
    one: &Unmatched<'a>,
) -> Result<(), AllocError>
    ensures { OnOk result (string_bytes text.new ≡ string_bytes text.old ++ notes_spec.talking_text separator.now (unmatched.unmatched_value one.now)) }
{
    let head = [
        Part::Text(separator),
        Part::TopicName(one.writer.endpoint.topic),
        Part::Text(" ("),
    ];
    render(text, &head)?;
    push_policies(text, &one.reasons)?;
    text.push_str(")")
}

/// The names of those that talk though they do not match, behind a colon; empty where there are none.
pub fn talking_names(alloc: Global, talking: Vec<&Unmatched<'_>>) -> Result<String, AllocError>
    ensures { IfOk result (λ names. string_bytes names ≡ notes_spec.talking_names (map (λ one. unmatched.unmatched_value one.now) talking.entry.items)) }
{
    let mut names = String::new(alloc);
    let mut separator = ": ";
    for one in talking {
        push_talking_pair(&mut names, separator, one)?;
        separator = ", ";
    }
    Ok(names)
}

/// Appends how many pairs talk though they do not match, and behind that their names.
pub(crate) fn push_talking(
    alloc: Global,
    notes: &mut Vec<String>,
    talk: &Talk<'_>,
    names: &str,
) -> Result<(), AllocError>
    ensures { OnOk result (map string_bytes notes.new.items ≡ map string_bytes notes.old.items
        ++ notes_spec.talking_note (length (talk_spec.talk_value talk.now).talking) names.now) }
{
    if talk.talking.is_empty() {
        return Ok(());
    }
    let words = Words {
        one: said::TALKING_ONE,
        many: said::TALKING_MANY,
    };
    push_rendered(
        alloc,
        notes,
        &[
            Part::Amount(talk.talking.len() as u128, words),
            Part::Text(names),
        ],
    )
}
