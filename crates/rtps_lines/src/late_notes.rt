//! The pairs that matched late.

ghost use Rattle.std.specs.Prelude.{◌≡◌, ◌≤◌, ◌++◌, IfOk, OnOk, Some, flat_map, length, map, nat_lt};
ghost use Rattle.std.specs.List.{position_or_len};
ghost use Rattle.std.specs.String.{string_bytes};
ghost use Rattle.rtps_parts.specs.Parts as parts;
ghost use Rattle.rtps_report.specs.LateRows as late_rows;
ghost use Rattle.rtps_lines.specs.LateNotes as late_notes;

use crate::advice_text::sentence_of;
use crate::fields::{PlaceText, SecondsText};
use crate::number_ranges::Bracketed;
use crate::sentences::noted as said;
use rtps_evidence::{Seconds, Times};
use rtps_parts::{Part, Words, push_rendered, render};
use rtps_report::{Advice, LateMatch, LateRow};
use std::alloc::{AllocError, Global};
use std::fmt;

/// So many pairs are named.
const NAMED_LATE: usize = 5;

/// By how much two matched late.
#[derive(Drop)]
struct DelayText(LateMatch);

impl fmt::Display for DelayText {
    ghost output = { λ text. Some (late_notes.delay_text text.0) };

    fn fmt<W: fmt::Write>(&self, f: &mut fmt::Formatter<W>) -> fmt::Result {
        let seconds = SecondsText(Seconds::of(self.0.delay));
        write!(f, "matched {seconds} s after both were there")
    }
}

/// By how much two matched late, and where.
#[derive(Drop)]
pub struct LateText<'t>(pub &'t Times, pub LateMatch);

impl fmt::Display for LateText<'_> {
    ghost output = { λ text. Some (late_notes.late_text text.0.now text.1) };

    fn fmt<W: fmt::Write>(&self, f: &mut fmt::Formatter<W>) -> fmt::Result {
        let delay = DelayText(self.1);
        let place = PlaceText(self.0, self.1.place);
        write!(f, "{delay}, {place}")
    }
}

/// Where a pair stands among others, of which the latest stand first, that is late by so much.
fn place_among(rows: &[LateRow<'_>], delay: u64) -> usize
    ensures place { result ≡ position_or_len (λ one. nat_lt one.late.delay delay) (map late_rows.late_row_value rows.now) }
    ensures within { result ≤ length rows.now }
{
    for place in 0..rows.len() {
        if rows[place].late.delay < delay {
            return place;
        }
    }
    rows.len()
}

/// Puts a pair among the latest.
fn keep<'a>(rows: &mut Vec<LateRow<'a>>, row: LateRow<'a>) -> Result<(), AllocError>
    ensures { OnOk result (map late_rows.late_row_value rows.new.items ≡ late_notes.with_late (map late_rows.late_row_value rows.old.items) (late_rows.late_row_value row.entry)) }
{
    let place = place_among(rows, row.late.delay);
    rows.insert(place, row)?;
    rows.truncate(NAMED_LATE);
    Ok(())
}

/// The latest of these, the latest first.
fn latest_rows<'a>(alloc: Global, rows: &[LateRow<'a>]) -> Result<Vec<LateRow<'a>>, AllocError>
    ensures { IfOk result (λ latest. map late_rows.late_row_value latest.items ≡ late_notes.latest_rows (map late_rows.late_row_value rows.now)) }
{
    let mut latest = Vec::new(alloc);
    for row in rows {
        keep(&mut latest, *row)?;
    }
    Ok(latest)
}

fn push_late_row(text: &mut String, row: &LateRow<'_>, times: &Times) -> Result<(), AllocError>
    ensures { OnOk result (string_bytes text.new ≡ string_bytes text.old ++ late_notes.late_row_text times.now (late_rows.late_row_value row.now)) }
{
    let datagram = row.late.place.datagram;
    let delay = DelayText(row.late);
    let when = Bracketed(times.second(datagram), times.frame(datagram));
    render(text, &[Part::Text("\n  "), Part::TopicName(row.topic)])?;
    write!(text, ": {delay}{when}")
}

fn push_more_late(text: &mut String, more: usize) -> Result<(), AllocError>
    ensures { OnOk result (string_bytes text.new ≡ string_bytes text.old ++ late_notes.more_late more) }
{
    if more == 0 {
        return Ok(());
    }
    let parts = [
        Part::Text("\n  and "),
        Part::Grouped(more as u128),
        Part::Text(" more"),
    ];
    render(text, &parts)
}

/// The latest of these pairs, each in a line of its own, and how many more.
pub fn late_lines(alloc: Global, rows: &[LateRow<'_>], times: &Times) -> Result<String, AllocError>
    ensures { IfOk result (λ lines. string_bytes lines ≡ late_notes.late_lines times.now (map late_rows.late_row_value rows.now)) }
{
    let latest = latest_rows(alloc, rows)?;
    let mut lines = String::new(alloc);
    for row in &latest {
        push_late_row(&mut lines, row, times)?;
    }
    push_more_late(&mut lines, rows.len().saturating_sub(NAMED_LATE))?;
    Ok(lines)
}

/// What to do, behind an arrow, where numbers stand before so many of these pairs.
fn late_remedy(before: u64, arrow: &str) -> [Part<'_>; 2]
    ensures text { flat_map parts.part_text result ≡ late_notes.late_remedy arrow.now before }
    ensures both { length result ≡ 2 }
{
    if before > 0 {
        [
            Part::Text(arrow),
            Part::Text(sentence_of(Advice::MatchedLate)),
        ]
    } else {
        [Part::Text(""), Part::Text("")]
    }
}

/// Pairs that matched late: how many, before how many of them numbers stand, and the lines of the latest.
#[derive(Clone, Copy)]
pub(crate) struct MatchedLate<'t> {
    pub(crate) pairs: usize,
    pub(crate) before: u64,
    pub(crate) lines: &'t str,
}

/// Appends how many pairs matched late, and behind that the lines of them.
pub(crate) fn push_matched<'t>(
    alloc: Global,
    notes: &mut Vec<String>,
    told: MatchedLate<'t>,
    arrow: &'t str,
) -> Result<(), AllocError>
    ensures { OnOk result (map string_bytes notes.new.items ≡ map string_bytes notes.old.items
        ++ late_notes.matched_note arrow.now told.entry.pairs told.entry.before told.entry.lines.now) }
{
    if told.pairs == 0 {
        return Ok(());
    }
    let words = Words {
        one: said::MATCHED_LATE_ONE,
        many: said::MATCHED_LATE_MANY,
    };
    let remedy = late_remedy(told.before, arrow);
    let parts = [
        Part::Amount(told.pairs as u128, words),
        Part::Text(told.lines),
        remedy[0],
        remedy[1],
    ];
    push_rendered(alloc, notes, &parts)
}
