ghost use Rattle.std.specs.Prelude.{◌≡◌, ◌++◌, OnOk, Some, map, take};
ghost use Rattle.std.specs.String.{string_bytes};
ghost use Rattle.rtps_evidence.specs.Explanation as explanation;
ghost use Rattle.rtps_evidence.specs.Kinds as kinds;
ghost use Rattle.rtps_lines.specs.NumberRanges as number_ranges;

use crate::fields::{SecondsText, push_decimal, push_field};
use rtps_evidence::{KindNumbers, Location, LostNumbers, NumberRange, Seconds, Times};
use rtps_parts::{Part, render};
use std::alloc::AllocError;
use std::fmt;

/// So many ranges of a kind are told.
const TOLD: usize = 10;

/// Appends that there are so many more, where there are some.
pub fn push_more(text: &mut String, more: u128) -> Result<(), AllocError>
    ensures { OnOk result (string_bytes text.new ≡ string_bytes text.old ++ number_ranges.more_text more) }
{
    if more == 0 {
        return Ok(());
    }
    let parts = [
        Part::Text(" and "),
        Part::Grouped(more),
        Part::Text(" more"),
    ];
    render(text, &parts)
}

/// A second and a frame in brackets; nothing where there is none.
#[derive(Drop)]
pub(crate) struct Bracketed(pub(crate) Option<Seconds>, pub(crate) Option<u64>);

impl fmt::Display for Bracketed {
    ghost output = { λ text. Some (number_ranges.bracketed text.0 text.1) };

    #[tactic(auto, unfolding(crate::specs::NumberRanges::bracketed))]
    fn fmt<W: fmt::Write>(&self, f: &mut fmt::Formatter<W>) -> fmt::Result {
        match (self.0, self.1) {
            (Some(second), Some(frame)) => {
                write!(f, " ({} s, frame {frame})", SecondsText(second))
            }
            (Some(second), None) => write!(f, " ({} s)", SecondsText(second)),
            (None, Some(frame)) => write!(f, " (frame {frame})"),
            (None, None) => Ok(()),
        }
    }
}

/// The second of a place, if there is one.
pub(crate) fn place_second(times: &Times, place: Option<Location>) -> Option<Seconds>
    ensures { result ≡ number_ranges.place_second times.now place }
{
    match place {
        Some(place) => times.second(place.datagram),
        None => None,
    }
}

/// The frame of a place, if there is one.
fn place_frame(times: &Times, place: Option<Location>) -> Option<u64>
    ensures { result ≡ number_ranges.place_frame times.now place }
{
    match place {
        Some(place) => times.frame(place.datagram),
        None => None,
    }
}

fn push_to(text: &mut String, first: u64, last: u64) -> Result<(), AllocError>
    ensures { OnOk result (string_bytes text.new ≡ string_bytes text.old ++ number_ranges.to_text first last) }
{
    if first == last {
        return Ok(());
    }
    push_field(text, "-", last)
}

fn push_range(text: &mut String, range: NumberRange, times: &Times) -> Result<(), AllocError>
    ensures { OnOk result (string_bytes text.new ≡ string_bytes text.old ++ number_ranges.range_text times.now range) }
{
    push_decimal(text, range.first)?;
    push_to(text, range.first, range.last)?;
    let second = place_second(times, range.sent);
    let frame = place_frame(times, range.sent);
    write!(text, "{}", Bracketed(second, frame))
}

/// Appends ranges, with a comma between each two.
fn push_ranges(text: &mut String, ranges: &[NumberRange], times: &Times) -> Result<(), AllocError>
    ensures { OnOk result (string_bytes text.new ≡ string_bytes text.old ++ number_ranges.ranges_text times.now ranges.now) }
{
    let Some((first, others)) = ranges.split_first() else {
        return Ok(());
    };
    push_range(text, *first, times)?;
    for other in others {
        text.push_str(", ")?;
        push_range(text, *other, times)?;
    }
    Ok(())
}

/// The ranges of a kind that are told.
fn first_ranges(kind: &KindNumbers) -> &[NumberRange]
    ensures { result.now ≡ take 10 (kinds.kind_value kind.now).ranges }
{
    let count = TOLD.min(kind.ranges.len());
    &kind.ranges[..count]
}

/// How many more there are.
fn more_ranges(kind: &KindNumbers) -> u128
    ensures { result ≡ number_ranges.more_ranges (kinds.kind_value kind.now) }
{
    let count = kind.ranges.len() as u128 + kind.more as u128;
    count.saturating_sub(TOLD as u128)
}

/// Appends the line of numbers of a kind behind its name; nothing where there is none.
fn push_kind(
    text: &mut String,
    name: &str,
    kind: &KindNumbers,
    times: &Times,
) -> Result<(), AllocError>
    ensures { OnOk result (string_bytes text.new ≡ string_bytes text.old ++ number_ranges.kind_line name.now times.now (kinds.kind_value kind.now)) }
{
    if kind.ranges.is_empty() {
        return Ok(());
    }
    text.push_str(name)?;
    push_ranges(text, first_ranges(kind), times)?;
    push_more(text, more_ranges(kind))?;
    text.push_str("\n")
}

/// Appends the lines of numbers that are lost, or look so, a kind in each.
fn push_lost(text: &mut String, lost: &LostNumbers, times: &Times) -> Result<(), AllocError>
    ensures { OnOk result (string_bytes text.new ≡ string_bytes text.old ++ number_ranges.lost_lines times.now (kinds.lost_value lost.now)) }
{
    push_kind(text, "    missed ", &lost.missed, times)?;
    push_kind(text, "    unsent ", &lost.unsent, times)?;
    push_kind(text, "    unanswered ", &lost.unanswered, times)?;
    push_kind(text, "    not arrived ", &lost.not_arrived, times)
}

/// Numbers of rows that are lost, or look so, by the places of the rows, and when datagrams came.
#[derive(Clone, Copy)]
pub struct LostRows<'t> {
    pub rows: &'t [LostNumbers],
    pub times: &'t Times,
}

/// Appends those of the row of a place; nothing where there is no such row.
pub fn push_lost_lines(
    text: &mut String,
    lost: LostRows<'_>,
    place: usize,
) -> Result<(), AllocError>
    ensures { OnOk result (string_bytes text.new
        ≡ string_bytes text.old ++ number_ranges.lost_lines lost.entry.times.now (explanation.lost_at (map kinds.lost_value lost.entry.rows.now) place)) }
{
    match lost.rows.get(place) {
        Some(numbers) => push_lost(text, numbers, lost.times),
        None => Ok(()),
    }
}
