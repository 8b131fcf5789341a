ghost use Rattle.std.specs.Prelude.{◌≡◌, ◌++◌, OnOk, IfOk, map};
ghost use Rattle.std.specs.List.{flat_map};
ghost use Rattle.std.specs.String.{string_bytes};
ghost use Rattle.rtps_evidence.specs.Explanation as explanation;
ghost use Rattle.rtps_report.specs.BestEfforts as best_efforts;
ghost use Rattle.rtps_lines.specs.Notes as notes_spec;

use crate::notes::{NotedRows, Weakness, names_if, number_words, pair_words, shares_if};
use crate::sentences::noted as said;
use crate::way_notes::push_ways;
use rtps_evidence::Explanation;
use rtps_parts::{Part, Words, push_rendered, words_for};
use rtps_report::{BestEffort, SideFacts, absent_of, way_of};
use std::alloc::{AllocError, Global};

/// Appends how many numbers of all pairs of best effort arrived, and behind that the text on their topics.
fn push_held(
    alloc: Global,
    notes: &mut Vec<String>,
    total: &BestEffort<'_>,
    shares: &str,
) -> Result<(), AllocError>
    ensures { OnOk result (map string_bytes notes.new.items ≡ map string_bytes notes.old.items ++ notes_spec.held_note (best_efforts.best_effort_value total.now) shares.now) }
{
    if total.pairs == 0 {
        return Ok(());
    }
    let pairs = Words {
        one: said::BEST_EFFORT_ONE,
        many: said::BEST_EFFORT_MANY,
    };
    let numbers = Words {
        one: said::HELD_ONE,
        many: said::HELD_MANY,
    };
    let parts = [
        Part::Amount(u128::from(total.pairs), pairs),
        Part::Share(total.recorded, total.numbers),
        Part::Text(words_for(total.numbers, numbers)),
        Part::Text(shares),
    ];
    push_rendered(alloc, notes, &parts)
}

/// Those of rows of which the other recording has nothing.
fn alone_among<'a>(
    alloc: Global,
    rows: &[Explanation<'a>],
) -> Result<Vec<Explanation<'a>>, AllocError>
    ensures { IfOk result (λ alone. map explanation.explanation_value alone.items ≡ notes_spec.alone_in (map explanation.explanation_value rows.now)) }
{
    let mut alone = Vec::new(alloc);
    for row in rows {
        if way_of(&row.evidence).is_none() {
            alone.push(*row)?;
        }
    }
    Ok(alone)
}

/// Those of rows of which numbers are received for certain though the other recording has none of them.
fn absent_among<'a>(
    alloc: Global,
    rows: &[Explanation<'a>],
) -> Result<Vec<Explanation<'a>>, AllocError>
    ensures { IfOk result (λ absent. map explanation.explanation_value absent.items ≡ notes_spec.absent_rows (map explanation.explanation_value rows.now)) }
{
    let mut absent = Vec::new(alloc);
    for row in rows {
        if absent_of(&row.evidence) > 0 {
            absent.push(*row)?;
        }
    }
    Ok(absent)
}

/// Appends of how many rows the other recording has nothing, and behind that the names of their topics.
fn push_alone<'t>(
    alloc: Global,
    notes: &mut Vec<String>,
    told: (u64, &'t str),
    arrow: &'t str,
) -> Result<(), AllocError>
    ensures { OnOk result (map string_bytes notes.new.items ≡ map string_bytes notes.old.items ++ notes_spec.alone_note arrow.now told.entry.0 told.entry.1.now) }
{
    let (alone, names) = told;
    if alone == 0 {
        return Ok(());
    }
    let pairs = Words {
        one: said::ALONE_ONE,
        many: said::ALONE_MANY,
    };
    let parts = [
        Part::Amount(u128::from(alone), pairs),
        Part::Text(names),
        Part::Text(arrow),
        Part::Text(said::ALONE_REMEDY),
    ];
    push_rendered(alloc, notes, &parts)
}

/// Appends how many numbers are received for certain though the other recording has none of them, and behind that the names of their
/// topics.
fn push_absent<'t>(
    alloc: Global,
    notes: &mut Vec<String>,
    told: (&SideFacts, &'t str),
    arrow: &'t str,
) -> Result<(), AllocError>
    ensures { OnOk result (map string_bytes notes.new.items ≡ map string_bytes notes.old.items ++ notes_spec.absent_note arrow.now told.entry.0.now told.entry.1.now) }
{
    let (side, names) = told;
    if side.absent_pairs == 0 {
        return Ok(());
    }
    let numbers = Words {
        one: said::ABSENT_ONE,
        many: said::ABSENT_MANY,
    };
    let parts = [
        Part::Amount(side.absent, numbers),
        Part::Text(" "),
        Part::Amount(u128::from(side.absent_pairs), pair_words()),
        Part::Text(said::ABSENT),
        Part::Text(names),
        Part::Text(arrow),
        Part::Text(said::ABSENT_REMEDY),
    ];
    push_rendered(alloc, notes, &parts)
}

/// What of the other recording was not read: how much, the words for it, and what to do.
#[derive(Clone, Copy)]
struct Unread {
    number: u64,
    words: Words,
    remedy: &'static str,
}

/// Frames of the other recording that gave no datagram.
fn unread_there(side: &SideFacts) -> [Unread; 3]
    ensures { map notes_spec.unread_value result ≡ notes_spec.unread_there side.now }
{
    [
        Unread {
            number: side.pieces,
            words: Weakness::Pieces.words(),
            remedy: said::PIECES_THERE,
        },
        Unread {
            number: side.cut,
            words: Weakness::Cut.words(),
            remedy: said::CUT_THERE,
        },
        Unread {
            number: side.links.number,
            words: Weakness::Links(side.links.first).words(),
            remedy: said::LINKS_THERE,
        },
    ]
}

fn push_unread(
    alloc: Global,
    notes: &mut Vec<String>,
    unread: Unread,
    arrow: &str,
) -> Result<(), AllocError>
    ensures { OnOk result (map string_bytes notes.new.items ≡ map string_bytes notes.old.items ++ notes_spec.unread_note arrow.now (notes_spec.unread_value unread)) }
{
    if unread.number == 0 {
        return Ok(());
    }
    let parts = [
        Part::Text(said::THERE),
        Part::Amount(u128::from(unread.number), unread.words),
        Part::Text(arrow),
        Part::Text(unread.remedy),
    ];
    push_rendered(alloc, notes, &parts)
}

fn push_all_unread(
    alloc: Global,
    notes: &mut Vec<String>,
    side: &SideFacts,
    arrow: &str,
) -> Result<(), AllocError>
    ensures { OnOk result (map string_bytes notes.new.items ≡ map string_bytes notes.old.items ++ flat_map (notes_spec.unread_note arrow.now) (notes_spec.unread_there side.now)) }
{
    for unread in &unread_there(side) {
        push_unread(alloc, notes, *unread, arrow)?;
    }
    Ok(())
}

/// The names of the topics of rows of which the other recording has nothing, where topics are named.
fn alone_names(alloc: Global, told: NotedRows<'_, '_>) -> Result<String, AllocError>
    ensures { IfOk result (λ names. string_bytes names ≡ notes_spec.names_if told.entry.named (notes_spec.alone_in (map explanation.explanation_value told.entry.rows.now))) }
{
    let alone = alone_among(alloc, told.rows)?;
    names_if(alloc, told.named, &alone)
}

/// The names of the topics of rows of which numbers are received for certain though the other recording has none of them.
fn absent_names(alloc: Global, told: NotedRows<'_, '_>) -> Result<String, AllocError>
    ensures { IfOk result (λ names. string_bytes names ≡ notes_spec.names_if told.entry.named (notes_spec.absent_rows (map explanation.explanation_value told.entry.rows.now))) }
{
    let absent = absent_among(alloc, told.rows)?;
    names_if(alloc, told.named, &absent)
}

/// Appends what another recording shows.
pub(crate) fn push_beside(
    alloc: Global,
    notes: &mut Vec<String>,
    told: NotedRows<'_, '_>,
    arrow: &str,
) -> Result<(), AllocError>
    ensures { OnOk result (map string_bytes notes.new.items ≡ map string_bytes notes.old.items ++ notes_spec.side_notes arrow.now (notes_spec.noted_value told.entry) told.entry.side) }
{
    let Some(side) = told.side else {
        return Ok(());
    };
    let alone = alone_names(alloc, told)?;
    let absent = absent_names(alloc, told)?;
    let shares = shares_if(alloc, told.named, &told.talk.held_sums)?;
    push_held(alloc, notes, &told.talk.held_total, &shares)?;
    push_alone(alloc, notes, (side.alone, &alone), arrow)?;
    push_absent(alloc, notes, (&side, &absent), arrow)?;
    push_all_unread(alloc, notes, &side, arrow)?;
    push_ways(alloc, notes, &side.order, arrow)
}
