ghost use Rattle.std.specs.Prelude.{◌≡◌, ◌++◌, ◌∷◌, IfOk, OnOk, map, string_bytes};
ghost use Rattle.rtps_evidence.specs.Explanation as explanation;
ghost use Rattle.rtps_parts.specs.Parts as parts;
ghost use Rattle.rtps_check.specs.CheckText as check_text;

use rtps_evidence::Explanation;
use rtps_lines::topic_name;
use rtps_parts::{Part, push_table};
use rtps_report::{Scope, Totals, totals_of};
use std::alloc::{AllocError, Global};

fn table_head<'a>() -> [Part<'a>; 11]
    ensures { map parts.part_text result ≡ check_text.table_head }
{
    [
        Part::Text("topic"),
        Part::Text("pairs"),
        Part::Text("clean"),
        Part::Text("before"),
        Part::Text("received"),
        Part::Text("arrived"),
        Part::Text("likely"),
        Part::Text("missed"),
        Part::Text("unsent"),
        Part::Text("unanswered"),
        Part::Text("unconfirmed"),
    ]
}

fn topic_row<'a>(rows: &[Explanation<'a>], scope: Scope) -> [Part<'a>; 11]
    ensures { map parts.part_text result ≡ check_text.topic_row scope (map explanation.explanation_value rows.now) }
{
    let totals = totals_of(rows, scope);
    [
        topic_name(rows),
        Part::Grouped(u128::from(totals.pairs)),
        Part::Grouped(u128::from(totals.clean_pairs)),
        Part::Grouped(totals.before),
        Part::Grouped(totals.received),
        Part::Grouped(totals.arrived),
        Part::Grouped(totals.likely),
        Part::Grouped(totals.missed),
        Part::Grouped(totals.unsent),
        Part::Grouped(totals.unanswered),
        Part::Grouped(totals.unconfirmed),
    ]
}

fn table_rows<'a>(
    alloc: Global,
    topics: &[&[Explanation<'a>]],
    scope: Scope,
) -> Result<Vec<Vec<Part<'a>>>, AllocError>
    ensures { IfOk result (λ rows. map (λ row. map parts.part_text row.items) rows.items
        ≡ check_text.table_head ∷ map (check_text.topic_row scope) (map (λ topic. map explanation.explanation_value topic.now) topics.now)) }
{
    let mut rows = Vec::new(alloc);
    rows.push(Vec::from_array(alloc, table_head())?)?;
    for topic in topics {
        rows.push(Vec::from_array(alloc, topic_row(topic, scope))?)?;
    }
    Ok(rows)
}

/// Appends the place of a column, if some entry of it is above 0.
fn push_place(places: &mut Vec<usize>, place: usize, sum: u128) -> Result<(), AllocError>
    ensures { OnOk result (places.new.items ≡ places.old.items ++ check_text.shown_where place sum) }
{
    if sum > 0 {
        places.push(place)?;
    }
    Ok(())
}

/// The places of the columns that are shown, by the sums of their entries.
fn shown_places(alloc: Global, totals: &Totals) -> Result<Vec<usize>, AllocError>
    ensures { IfOk result (λ places. places.items ≡ check_text.shown_places totals.now) }
{
    let mut places = Vec::from_array(alloc, [0, 1, 2, 3])?;
    push_place(&mut places, 4, totals.received)?;
    push_place(&mut places, 5, totals.arrived)?;
    push_place(&mut places, 6, totals.likely)?;
    push_place(&mut places, 7, totals.missed)?;
    push_place(&mut places, 8, totals.unsent)?;
    push_place(&mut places, 9, totals.unanswered)?;
    push_place(&mut places, 10, totals.unconfirmed)?;
    Ok(places)
}

/// Appends the table of topics, of whose rows this is counted.
pub(crate) fn push_topic_table(
    alloc: Global,
    text: &mut String,
    topics: &[&[Explanation<'_>]],
    counted: (&Totals, Scope),
) -> Result<(), AllocError>
    ensures { OnOk result (string_bytes text.new
        ≡ string_bytes text.old ++ check_text.topic_table counted.entry.1 counted.entry.0.now (map (λ topic. map explanation.explanation_value topic.now) topics.now)) }
{
    if topics.is_empty() {
        return Ok(());
    }
    let rows = table_rows(alloc, topics, counted.1)?;
    let places = shown_places(alloc, counted.0)?;
    text.push_str("\n")?;
    push_table(alloc, text, &places, &rows)
}
