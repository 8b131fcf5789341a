ghost use Rattle.std.specs.Prelude.{◌≡◌, ◌++◌, OnOk, map};
ghost use Rattle.std.specs.String.{string_bytes};
ghost use Rattle.rtps_parts.specs.Parts as parts;
ghost use Rattle.rtps_lines.specs.WayNotes as way_notes_spec;

use crate::sentences::ways as said;
use rtps_parts::{Part, Words, push_rendered};
use rtps_report::Order;
use std::alloc::{AllocError, Global};

/// The words for pairs that are the wrong way round.
fn wrong_words() -> Words
    ensures { parts.words_value result ≡ way_notes_spec.wrong_words }
{
    Words {
        one: said::WRONG_ONE,
        many: said::WRONG_MANY,
    }
}

/// That the two recordings look swapped, by so many pairs.
fn swapped_parts(pairs: u128) -> [Part<'static>; 2]
    ensures { map parts.part_text result ≡ way_notes_spec.swapped_parts pairs }
{
    [
        Part::Text(said::SWAPPED),
        Part::Amount(pairs, wrong_words()),
    ]
}

/// Appends the same as a reason; nothing where there is no such pair.
pub(crate) fn push_swapped_cause(
    alloc: Global,
    causes: &mut Vec<String>,
    pairs: u128,
) -> Result<(), AllocError>
    ensures { OnOk result (map string_bytes causes.new.items ≡ map string_bytes causes.old.items ++ way_notes_spec.swapped_cause pairs) }
{
    if pairs == 0 {
        return Ok(());
    }
    let swapped = swapped_parts(pairs);
    push_rendered(alloc, causes, &[swapped[0], swapped[1]])
}

/// Appends that one recording was given twice, as a reason, if it was.
pub(crate) fn push_twice_cause(
    alloc: Global,
    causes: &mut Vec<String>,
    twice: bool,
) -> Result<(), AllocError>
    ensures { OnOk result (map string_bytes causes.new.items ≡ map string_bytes causes.old.items ++ way_notes_spec.twice_cause twice) }
{
    if twice {
        push_rendered(alloc, causes, &[Part::Text(said::TWICE)])
    } else {
        Ok(())
    }
}

/// Appends that the two recordings look swapped, and what to do; nothing where no pair tells that.
fn push_swapped(
    alloc: Global,
    notes: &mut Vec<String>,
    pairs: u128,
    arrow: &str,
) -> Result<(), AllocError>
    ensures { OnOk result (map string_bytes notes.new.items ≡ map string_bytes notes.old.items ++ way_notes_spec.swapped_note arrow.now pairs) }
{
    if pairs == 0 {
        return Ok(());
    }
    let swapped = swapped_parts(pairs);
    let parts = [
        swapped[0],
        swapped[1],
        Part::Text(arrow),
        Part::Text(said::SWAPPED_REMEDY),
    ];
    push_rendered(alloc, notes, &parts)
}

/// The words for pairs that are the wrong way round, where others are the right way round.
fn mixed_words() -> Words
    ensures { parts.words_value result ≡ way_notes_spec.mixed_words }
{
    Words {
        one: said::MIXED_ONE,
        many: said::MIXED_MANY,
    }
}

/// Appends how many such pairs there are, and what to do; nothing where there is none.
fn push_mixed(
    alloc: Global,
    notes: &mut Vec<String>,
    pairs: u128,
    arrow: &str,
) -> Result<(), AllocError>
    ensures { OnOk result (map string_bytes notes.new.items ≡ map string_bytes notes.old.items ++ way_notes_spec.mixed_note arrow.now pairs) }
{
    if pairs == 0 {
        return Ok(());
    }
    let parts = [
        Part::Amount(pairs, mixed_words()),
        Part::Text(arrow),
        Part::Text(said::MIXED_REMEDY),
    ];
    push_rendered(alloc, notes, &parts)
}

/// Appends that nothing tells the two recordings apart, if it is so.
fn push_untold(alloc: Global, notes: &mut Vec<String>, untold: bool) -> Result<(), AllocError>
    ensures { OnOk result (map string_bytes notes.new.items ≡ map string_bytes notes.old.items ++ way_notes_spec.untold_note untold) }
{
    if !untold {
        return Ok(());
    }
    let parts = [Part::Text(said::UNTOLD)];
    push_rendered(alloc, notes, &parts)
}

/// Appends what is told of the order in which two recordings were given.
pub(crate) fn push_ways(
    alloc: Global,
    notes: &mut Vec<String>,
    order: &Order,
    arrow: &str,
) -> Result<(), AllocError>
    ensures { OnOk result (map string_bytes notes.new.items ≡ map string_bytes notes.old.items ++ way_notes_spec.way_notes arrow.now order.now) }
{
    push_swapped(alloc, notes, order.swapped(), arrow)?;
    push_mixed(alloc, notes, order.mixed(), arrow)?;
    push_untold(alloc, notes, order.is_untold())
}
