ghost use Rattle.std.specs.Prelude.{◌≡◌, ◌++◌, IfOk, OnOk, None, filter, flat_map, map, string_bytes, sum_by};
ghost use Rattle.rtps_parts.specs.Parts as parts;
ghost use Rattle.rtps_report.specs.BestEfforts as best_efforts;
ghost use Rattle.rtps_report.specs.Talk as talk_spec;
ghost use Rattle.rtps_check.specs.ArrivedText as arrived_text;

use crate::not_arrived::push_listed;
use crate::unmatched_block::{end_by, push_topic};
use rtps_discovery::Pair;
use rtps_lines::number_words;
use rtps_lines::sentences::block as said;
use rtps_parts::{Part, Words, render};
use rtps_report::{HeldPair, Talk};
use std::alloc::{AllocError, Global};

/// How many numbers of a pair did not arrive.
fn lost_of(one: &HeldPair<'_>) -> u64
    ensures { result ≡ arrived_text.lost_of (best_efforts.held_value one.now) }
{
    one.numbers.saturating_sub(one.arrived.arrived)
}

/// Those of these pairs of which not all numbers arrived, by topic, octet by octet. Those of one topic stay in their order.
fn lossy_by_topic<'h, 'a>(
    alloc: Global,
    held: &'h [HeldPair<'a>],
) -> Result<Vec<&'h HeldPair<'a>>, AllocError>
    ensures { IfOk result (λ sorted. arrived_text.AreByTopic (filter arrived_text.is_lossy (map best_efforts.held_value held.now)) (map (λ one. best_efforts.held_value one.now) sorted.items)) }
{
    let mut sorted = Vec::new(alloc);
    for one in held {
        if one.arrived.arrived < one.numbers {
            sorted.push(one)?;
        }
    }
    sorted.sort_by_key(|one| one.topic)?;
    Ok(sorted)
}

/// How many numbers of these pairs did not arrive.
fn lost_among(pairs: &[&HeldPair<'_>]) -> u128
    ensures { result ≡ sum_by arrived_text.lost_of (map (λ one. best_efforts.held_value one.now) pairs.now) }
{
    let mut lost = 0;
    for one in pairs {
        lost += u128::from(lost_of(one));
    }
    lost
}

fn lossy_head(lost: u128, pairs: usize) -> [Part<'static>; 5]
    ensures { flat_map parts.part_text result ≡ arrived_text.lossy_head lost pairs }
{
    let words = Words {
        one: "best-effort pair",
        many: "best-effort pairs",
    };
    [
        Part::Text("\n"),
        Part::Amount(lost, number_words()),
        Part::Text(" of "),
        Part::Amount(pairs as u128, words),
        Part::Text(" did not arrive\n"),
    ]
}

/// Appends the lines of a writer and a reader.
fn push_two(text: &mut String, pair: Pair, talk: &Talk<'_>) -> Result<(), AllocError>
    ensures { OnOk result (string_bytes text.new ≡ string_bytes text.old ++ arrived_text.two_lines (talk_spec.talk_value talk.now).ends pair) }
{
    let writer = end_by(talk, pair.writer);
    let reader = end_by(talk, pair.reader);
    write!(text, "  writer {writer}\n  reader {reader}\n")
}

/// How many numbers of a pair arrived, of how many.
fn arrived_share(one: &HeldPair<'_>) -> [Part<'static>; 3]
    ensures { flat_map parts.part_text result ≡ arrived_text.arrived_share (best_efforts.held_value one.now) }
{
    let arrived = u128::from(one.arrived.arrived);
    let numbers = u128::from(one.numbers);
    [
        Part::Text("    arrived "),
        Part::Share(arrived, numbers),
        Part::Text(", not "),
    ]
}

/// Appends the lines of a pair.
fn push_pair(text: &mut String, one: &HeldPair<'_>, talk: &Talk<'_>) -> Result<(), AllocError>
    ensures { OnOk result (string_bytes text.new ≡ string_bytes text.old ++ arrived_text.lossy_pair (talk_spec.talk_value talk.now).ends (best_efforts.held_value one.now)) }
{
    let first = one.arrived.lacking.as_slice();
    push_two(text, one.pair, talk)?;
    render(text, &arrived_share(one))?;
    push_listed(text, first, u128::from(lost_of(one)))?;
    text.push_str("\n")
}

fn push_pairs(
    text: &mut String,
    sorted: Vec<&HeldPair<'_>>,
    talk: &Talk<'_>,
) -> Result<(), AllocError>
    ensures { OnOk result (string_bytes text.new ≡ string_bytes text.old
        ++ arrived_text.lossy_pairs (talk_spec.talk_value talk.now).ends None (map (λ one. best_efforts.held_value one.now) sorted.entry.items)) }
{
    let mut before = None;
    for one in sorted {
        push_topic(text, before, one.topic)?;
        push_pair(text, one, talk)?;
        before = Some(one.topic);
    }
    Ok(())
}

/// Appends the pairs of best effort of which not all numbers arrived, if there are any.
pub(crate) fn push_arrived_block(
    alloc: Global,
    text: &mut String,
    talk: &Talk<'_>,
) -> Result<(), AllocError>
    ensures { OnOk result (arrived_text.IsArrivedBlock (talk_spec.talk_value talk.now) (string_bytes text.old) (string_bytes text.new)) }
{
    let sorted = lossy_by_topic(alloc, &talk.held)?;
    if sorted.is_empty() {
        return Ok(());
    }
    render(text, &lossy_head(lost_among(&sorted), sorted.len()))?;
    push_pairs(text, sorted, talk)?;
    writeln!(text, "  -> {}", said::LOST_REMEDY)
}
