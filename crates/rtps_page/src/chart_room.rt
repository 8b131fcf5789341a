ghost use Rattle.std.specs.Prelude.{◌≡◌, filter, length, map, IfOk, IfSome};
ghost use Rattle.rtps_evidence.specs.Explanation as explanation;
ghost use Rattle.rtps_audit.specs.Index as index_spec;
ghost use Rattle.rtps_audit.specs.Intake as intake;
ghost use Rattle.rtps_audit.specs.Placed as placed;
ghost use Rattle.rtps_page.specs.ChartEntries as chart_entries;
ghost use Rattle.rtps_page.specs.ChartRoom as chart_room;

use crate::entry_counts::{entries_of_answers, entries_of_writer};
use crate::pair_answers::answer_acts;
use crate::tellings::Said;
use rtps_audit::Index;
use rtps_discovery::Pair;
use rtps_evidence::Explanation;
use rtps_ids::{Guid, Memory};
use rtps_report::is_clean;
use std::alloc::{AllocError, Global};

/// How many entries a page has room for.
const ENTRIES: u128 = 200_000;

/// Rows that are not clean come first, on the page and where room is given.
#[derive(Clone, Copy)]
pub(crate) enum Turn {
    Unclean,
    Clean,
}

fn is_turn(turn: Turn, clean: bool) -> bool
    ensures { result ≡ chart_room.is_turn turn clean }
{
    match turn {
        Turn::Unclean => !clean,
        Turn::Clean => clean,
    }
}

/// What a row takes of the room.
#[derive(Clone, Copy)]
pub(crate) struct Need {
    pub(crate) pair: Pair,
    pub(crate) clean: bool,
    /// How many entries its writer has.
    pub(crate) acts: u128,
    /// How many entries the answers of its reader have.
    pub(crate) answers: u128,
    pub(crate) charted: bool,
}

/// How much room is used, and the writer of the row that was given room last.
#[derive(Clone, Copy)]
pub(crate) struct Room {
    pub(crate) used: u128,
    pub(crate) last: Option<Guid>,
}

/// How many entries a writer has.
#[derive(Clone, Copy)]
struct Known {
    writer: Guid,
    entries: u128,
}

/// How many entries a writer has, where they may be known from the row before.
fn entries_known(
    alloc: Global,
    said: Said<'_, '_>,
    before: Option<Known>,
    writer: Guid,
) -> Result<Known, Memory>
    ensures writer { IfOk result (λ known. known.writer ≡ writer) }
    ensures entries { (intake : intake.Intake) → index_spec.IsIndexBy intake said.entry.index.now
        → IfSome before (λ known. known.entries ≡ length (chart_entries.entries_by said.entry.pairs.now known.writer (placed.placed_in intake.acts)))
        → IfOk result (λ known. known.entries ≡ length (chart_entries.entries_by said.entry.pairs.now writer (placed.placed_in intake.acts))) }
{
    if let Some(known) = before {
        if known.writer == writer {
            return Ok(known);
        }
    }
    let tellings = said.tellings_of(alloc, writer)?;
    Ok(Known {
        writer,
        entries: entries_of_writer(said.index.acts_of(writer), &tellings),
    })
}

/// How many entries the answers of a pair's reader to its writer have.
fn entries_answered(alloc: Global, index: &Index<'_>, pair: Pair) -> Result<u128, AllocError>
    ensures { (intake : intake.Intake) → index_spec.IsIndexBy intake index.now
        → IfOk result (λ entries. entries ≡ length (chart_entries.numbers_answered pair (placed.placed_in intake.acts))) }
{
    let answers = answer_acts(alloc, index, pair)?;
    Ok(entries_of_answers(&answers))
}

fn needs_of(
    alloc: Global,
    said: Said<'_, '_>,
    tail: u64,
    rows: &[Explanation<'_>],
) -> Result<Vec<Need>, Memory>
    ensures { (intake : intake.Intake) → index_spec.IsIndexBy intake said.entry.index.now
        → IfOk result (λ needs. needs.items ≡ map (λ row. chart_room.need_of tail (placed.placed_in intake.acts) said.entry.pairs.now (explanation.explanation_value row)) rows.now) }
{
    let mut needs = Vec::with_capacity(alloc, rows.len())?;
    let mut before = None;
    for row in rows {
        let known = entries_known(alloc, said, before, row.pair.writer)?;
        before = Some(known);
        needs.push(Need {
            pair: row.pair,
            clean: is_clean(tail, &row.evidence),
            acts: known.entries,
            answers: entries_answered(alloc, said.index, row.pair)?,
            charted: false,
        })?;
    }
    Ok(needs)
}

/// The pairs of all rows.
pub(crate) fn pairs_in(alloc: Global, rows: &[Explanation<'_>]) -> Result<Vec<Pair>, AllocError>
    ensures { IfOk result (λ pairs. pairs.items ≡ chart_room.pairs_of (map explanation.explanation_value rows.now)) }
{
    let mut pairs = Vec::with_capacity(alloc, rows.len())?;
    for row in rows {
        pairs.push(row.pair)?;
    }
    Ok(pairs)
}

pub(crate) fn is_last(last: Option<Guid>, writer: Guid) -> bool
    ensures { result ≡ chart_room.is_last last writer }
{
    match last {
        Some(last) => last == writer,
        None => false,
    }
}

/// How much room is used behind a row; None where there is not so much.
fn used_behind(room: Room, need: &Need) -> Option<u128>
    ensures { result ≡ chart_room.used_behind room need.now }
{
    let acts = if is_last(room.last, need.pair.writer) {
        0
    } else {
        need.acts
    };
    let left = ENTRIES.saturating_sub(room.used);
    if room.used > ENTRIES || need.answers > left || acts > left - need.answers {
        return None;
    }
    Some(room.used + (need.answers + acts))
}

/// Gives a row room, if it is its turn and there is room for it.
fn give_one(turn: Turn, room: Room, need: &Need) -> (Room, Need)
    ensures room { result.0 ≡ chart_room.room_behind turn room need.now }
    ensures need { result.1 ≡ chart_room.need_behind turn room need.now }
{
    if !is_turn(turn, need.clean) {
        return (room, *need);
    }
    let Some(used) = used_behind(room, need) else {
        return (room, *need);
    };
    let room = Room {
        used,
        last: Some(need.pair.writer),
    };
    let need = Need {
        charted: true,
        ..*need
    };
    (room, need)
}

/// Gives room to the rows whose turn it is, from this room on.
fn give_all(
    alloc: Global,
    turn: Turn,
    room: Room,
    needs: &[Need],
) -> Result<(Room, Vec<Need>), AllocError>
    ensures room { IfOk result (λ given. given.0 ≡ (chart_room.given_from turn room needs.now).room) }
    ensures needs { IfOk result (λ given. given.1.items ≡ (chart_room.given_from turn room needs.now).needs) }
{
    let mut left = room;
    let mut given = Vec::with_capacity(alloc, needs.len())?;
    for need in needs {
        let (behind, one) = give_one(turn, left, need);
        left = behind;
        given.push(one)?;
    }
    Ok((left, given))
}

/// The pairs of the rows that have a chart.
fn pairs_of(alloc: Global, needs: &[Need]) -> Result<Vec<Pair>, AllocError>
    ensures { IfOk result (λ pairs. pairs.items ≡ map (λ need. need.pair) (filter (λ need. need.charted) needs.now)) }
{
    let mut pairs = Vec::new(alloc);
    for need in needs {
        if need.charted {
            pairs.push(need.pair)?;
        }
    }
    Ok(pairs)
}

/// Which of all rows have a chart, where a tail may have so many numbers: their pairs, in the order of the rows.
pub(crate) fn pairs_with_charts(
    alloc: Global,
    said: Said<'_, '_>,
    tail: u64,
    rows: &[Explanation<'_>],
) -> Result<Vec<Pair>, Memory>
    requires { said.pairs.now ≡ chart_room.pairs_of (map explanation.explanation_value rows.now) }
    ensures { (intake : intake.Intake) → index_spec.IsIndexBy intake said.entry.index.now
        → IfOk result (λ pairs. pairs.items ≡ chart_room.charted_pairs tail (placed.placed_in intake.acts) (map explanation.explanation_value rows.now)) }
{
    let needs = needs_of(alloc, said, tail, rows)?;
    let room = Room {
        used: 0,
        last: None,
    };
    let (room, needs) = give_all(alloc, Turn::Unclean, room, &needs)?;
    let (_, needs) = give_all(alloc, Turn::Clean, room, &needs)?;
    let pairs = pairs_of(alloc, &needs)?;
    Ok(pairs)
}
