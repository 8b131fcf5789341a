//! The topics with the longest tails.

ghost use Rattle.std.specs.Prelude.{◌≡◌, ◌≤◌, ◌++◌, flat_map, IfOk, OnOk, length, map, nat_lt};
ghost use Rattle.std.specs.List.{position_or_len};
ghost use Rattle.std.specs.String.{string_bytes};
ghost use Rattle.rtps_evidence.specs.Explanation as explanation;
ghost use Rattle.rtps_parts.specs.Parts as parts;
ghost use Rattle.rtps_lines.specs.TailNames as tail_names_spec;

use rtps_evidence::Explanation;
use rtps_parts::{Part, render};
use rtps_report::{outcomes_of, topics_of};
use std::alloc::{AllocError, Global};

/// So many topics are named.
const NAMED_TAILS: usize = 10;

/// A topic, and how many numbers the longest tail of its rows has.
#[derive(Clone, Copy)]
pub(crate) struct TopicTail<'a> {
    topic: &'a [u8],
    longest: u64,
}

/// How many numbers the longest tail of these rows has.
pub fn longest_tail(rows: &[Explanation<'_>]) -> u64
    ensures { result ≡ tail_names_spec.longest_tail (map explanation.explanation_value rows.now) }
{
    let mut longest = 0u64;
    for row in rows {
        longest = longest.max(outcomes_of(&row.evidence).unconfirmed);
    }
    longest
}

/// The tail of a topic's rows.
fn tail_in<'a>(rows: &[Explanation<'a>]) -> TopicTail<'a>
    ensures { tail_names_spec.tail_value result ≡ tail_names_spec.tail_in (map explanation.explanation_value rows.now) }
{
    let topic = match rows.first() {
        Some(row) => row.topic,
        None => &[],
    };
    TopicTail {
        topic,
        longest: longest_tail(rows),
    }
}

/// Where a tail of this length stands among others, of which the longest stand first.
fn place_among(tails: &[TopicTail<'_>], longest: u64) -> usize
    ensures place { result ≡ position_or_len (λ one. nat_lt one.longest longest) (map tail_names_spec.tail_value tails.now) }
    ensures within { result ≤ length tails.now }
{
    for place in 0..tails.len() {
        if tails[place].longest < longest {
            return place;
        }
    }
    tails.len()
}

/// Puts a tail among the longest.
fn keep<'a>(tails: &mut Vec<TopicTail<'a>>, tail: TopicTail<'a>) -> Result<(), AllocError>
    ensures { OnOk result (map tail_names_spec.tail_value tails.new.items ≡ tail_names_spec.with_tail (map tail_names_spec.tail_value tails.old.items) (tail_names_spec.tail_value tail.entry)) }
{
    let place = place_among(tails, tail.longest);
    tails.insert(place, tail)?;
    tails.truncate(NAMED_TAILS);
    Ok(())
}

/// The longest tails of topics, longest first.
fn longest_tails<'a>(
    alloc: Global,
    topics: &[&[Explanation<'a>]],
) -> Result<Vec<TopicTail<'a>>, AllocError>
    ensures { IfOk result (λ tails. map tail_names_spec.tail_value tails.items ≡ tail_names_spec.longest_tails (map (λ topic. map explanation.explanation_value topic.now) topics.now)) }
{
    let mut tails = Vec::new(alloc);
    for rows in topics {
        keep(&mut tails, tail_in(rows))?;
    }
    Ok(tails)
}

fn tail_parts<'a>(separator: &'static str, tail: &TopicTail<'a>) -> [Part<'a>; 4]
    ensures { flat_map parts.part_text result ≡ tail_names_spec.tail_text separator.now (tail_names_spec.tail_value tail.now) }
{
    [
        Part::Text(separator),
        Part::TopicName(tail.topic),
        Part::Text(" "),
        Part::Grouped(u128::from(tail.longest)),
    ]
}

fn push_tails(text: &mut String, tails: &[TopicTail<'_>]) -> Result<(), AllocError>
    ensures { OnOk result (string_bytes text.new ≡ string_bytes text.old ++ tail_names_spec.tails_text (map tail_names_spec.tail_value tails.now)) }
{
    let Some((first, others)) = tails.split_first() else {
        return Ok(());
    };
    render(text, &tail_parts(": ", first))?;
    for other in others {
        render(text, &tail_parts(", ", other))?;
    }
    Ok(())
}

fn push_more(text: &mut String, more: usize) -> Result<(), AllocError>
    ensures { OnOk result (string_bytes text.new ≡ string_bytes text.old ++ tail_names_spec.more_text more) }
{
    if more == 0 {
        return Ok(());
    }
    let parts = [
        Part::Text(", and "),
        Part::Grouped(more as u128),
        Part::Text(" more"),
    ];
    render(text, &parts)
}

/// The topics of rows with tails, which stand by topic: the longest, and how many more.
pub(crate) fn tail_names(alloc: Global, rows: &[Explanation<'_>]) -> Result<String, AllocError>
    ensures { IfOk result (λ names. string_bytes names ≡ tail_names_spec.tail_names (map explanation.explanation_value rows.now)) }
{
    let topics = topics_of(alloc, rows)?;
    let tails = longest_tails(alloc, &topics)?;
    let mut names = String::new(alloc);
    push_tails(&mut names, &tails)?;
    push_more(&mut names, topics.len().saturating_sub(NAMED_TAILS))?;
    Ok(names)
}
