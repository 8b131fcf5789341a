//! What becomes of a pair as a recording goes on: after each datagram, what a recording that ends there says of the two.

use crate::fault::Fault;
use crate::recording::{datagrams, read};
use bumpalo::Bump;
use rtps_audit::{Index, Unwatched, Verdict};
use rtps_discovery::Pair;
use rtps_evidence::{
    ExplainedRows, Extent, InSpan, KindNumbers, LostNumbers, Sides, Times, explain_pairs,
};
use rtps_fragments::{Fragments, index_as};
use rtps_ids::{EntityId, Guid, GuidPrefix, SeqNum};
use std::alloc::Global;
use std::fmt::Write;

/// Tells it of the pair of this name, a line where something changes. The name is the digits of the writer, `/` and those of the reader.
pub(crate) fn tell(alloc: Global, name: &str, input: &str, text: &mut String) -> Result<(), Fault> {
    let pair = pair_named(alloc, name)?;
    let octets = read(alloc, input)?;
    let mut last = String::new(alloc);
    for count in 1..=octets.len() {
        let arena = Bump::new(alloc);
        let line = state_of(alloc, &octets[..count], &arena, pair)?;
        if line != last {
            writeln!(text, "{count}: {line}")?;
            last = line;
        }
    }
    Ok(())
}

/// The pair of this name.
fn pair_named(alloc: Global, name: &str) -> Result<Pair, Fault> {
    let (writer, reader) = name.split_once("/").ok_or(Fault::Words)?;
    Ok(Pair {
        writer: guid_named(alloc, writer)?,
        reader: guid_named(alloc, reader)?,
    })
}

/// The GUID of these 32 digits.
fn guid_named(alloc: Global, digits: &str) -> Result<Guid, Fault> {
    let Ok(octets) = hex::decode(alloc, digits.as_bytes()) else {
        return Err(Fault::Words);
    };
    let (prefix, entity) = octets.split_first_chunk::<12>().ok_or(Fault::Words)?;
    let (entity, _) = entity.split_first_chunk::<4>().ok_or(Fault::Words)?;
    Ok(Guid {
        prefix: GuidPrefix(*prefix),
        entity: EntityId(*entity),
    })
}

/// What the recording of these datagrams says of a pair, in a line.
fn state_of<'a>(
    alloc: Global,
    octets: &'a [Vec<u8>],
    arena: &'a Bump,
    pair: Pair,
) -> Result<String, Fault> {
    let recording = datagrams(alloc, octets)?;
    let indexed = index_as(alloc, &recording, Fragments::Read, arena)?;
    line_of(alloc, &indexed.index, arena, pair)
}

/// What an index says of a pair, in a line.
fn line_of<'a>(
    alloc: Global,
    index: &Index<'a>,
    arena: &'a Bump,
    pair: Pair,
) -> Result<String, Fault> {
    let times = Times::none(alloc);
    let sides = Sides {
        index,
        other: None,
        times: &times,
        arena,
    };
    let extent = Extent {
        from: SeqNum::first(),
        in_spans: true,
    };
    let found = explain_pairs(alloc, &sides, &[pair], &[], extent, &mut Unwatched)?;
    let mut line = String::new(alloc);
    push_state(&found, &mut line)?;
    Ok(line)
}

/// Appends the verdict, what it rests on, and what became of the numbers.
fn push_state(found: &ExplainedRows<'_>, line: &mut String) -> Result<(), Fault> {
    let row = found
        .rows
        .first()
        .ok_or(Fault::Differs("a pair is not explained"))?;
    let evidence = &row.evidence;
    push_verdict(evidence.verdict, line)?;
    write!(
        line,
        ", payloads {}, gone {}",
        evidence.payloads, evidence.gone
    )?;
    write!(
        line,
        ", untold {}, received {}",
        evidence.untold, evidence.received
    )?;
    if let Some(in_span) = &evidence.in_span {
        push_outcomes(in_span, line)?;
    }
    match found.lost.first() {
        Some(lost) => push_lost(lost, line),
        None => Ok(()),
    }
}

/// Appends a verdict with its numbers.
fn push_verdict(verdict: Verdict, line: &mut String) -> Result<(), Fault> {
    match verdict {
        Verdict::Complete { last } => write!(line, "complete {last}")?,
        Verdict::Open { number } => write!(line, "open {number}")?,
        Verdict::Conflict { number } => write!(line, "conflict {number}")?,
        Verdict::Unfounded { datagram, number } => write!(line, "unfounded {datagram} {number}")?,
    }
    Ok(())
}

/// Appends the span and how many numbers have each outcome.
fn push_outcomes(in_span: &InSpan, line: &mut String) -> Result<(), Fault> {
    let outcomes = &in_span.outcomes;
    write!(line, ", from {}, base {}", in_span.from, in_span.base)?;
    write!(
        line,
        ", missed {}, unsent {}",
        outcomes.missed, outcomes.unsent
    )?;
    write!(line, ", unanswered {}", outcomes.unanswered)?;
    write!(line, ", likely {}", outcomes.likely)?;
    write!(line, ", unconfirmed {}", outcomes.unconfirmed)?;
    if let Some(until) = in_span.until {
        write!(line, ", left in {until}")?;
    }
    Ok(())
}

/// Appends which numbers are lost.
fn push_lost(lost: &LostNumbers, line: &mut String) -> Result<(), Fault> {
    push_numbers("missed", &lost.missed, line)?;
    push_numbers("unsent", &lost.unsent, line)?;
    push_numbers("unanswered", &lost.unanswered, line)
}

/// Appends the numbers of a kind, where there are some.
fn push_numbers(kind: &str, numbers: &KindNumbers, line: &mut String) -> Result<(), Fault> {
    if numbers.ranges.is_empty() {
        return Ok(());
    }
    write!(line, "; {kind}")?;
    for range in &numbers.ranges {
        write!(line, " {}..{}", range.first, range.last)?;
    }
    Ok(())
}
