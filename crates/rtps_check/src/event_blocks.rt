ghost use Rattle.std.specs.Prelude.{◌≡◌, ◌++◌, IfOk, OnOk, flat_map, map, string_bytes};
ghost use Rattle.rtps_evidence.specs.Explanation as explanation;
ghost use Rattle.rtps_report.specs.Events as events_spec;
ghost use Rattle.rtps_check.specs.CheckText as check_text;

use crate::sections::{RowTelling, push_sections};
use rtps_evidence::Explanation;
use rtps_lines::push_event_text;
use rtps_report::{Event, EventRows, topics_of};
use std::alloc::{AllocError, Global};

/// Appends the line of an event behind an empty one.
fn push_event_head(
    text: &mut String,
    event: &Event,
    told: RowTelling<'_, '_>,
) -> Result<(), AllocError>
    ensures { OnOk result (string_bytes text.new ≡ string_bytes text.old ++ check_text.event_head (check_text.row_told told.entry) (events_spec.event_value event.now)) }
{
    text.push_str("\n")?;
    push_event_text(text, event, told.talk, told.lost.times)?;
    text.push_str("\n")
}

/// Rows that are borrowed, one after another.
fn copied<'a>(alloc: Global, rows: &[&Explanation<'a>]) -> Result<Vec<Explanation<'a>>, AllocError>
    ensures { IfOk result (λ copies. map explanation.explanation_value copies.items ≡ events_spec.rows_value rows.now) }
{
    let mut copies = Vec::with_capacity(alloc, rows.len())?;
    for row in rows {
        copies.push(**row)?;
    }
    Ok(copies)
}

/// Appends the lines of an event, of which these are the rows, by topic.
fn push_event(
    alloc: Global,
    text: &mut String,
    event: &Event,
    rows: &[&Explanation<'_>],
    told: RowTelling<'_, '_>,
) -> Result<(), AllocError>
    ensures { OnOk result (string_bytes text.new ≡ string_bytes text.old ++ check_text.event_lines (check_text.row_told told.entry) (events_spec.event_value event.now) (events_spec.rows_value rows.now)) }
{
    push_event_head(text, event, told)?;
    let rows = copied(alloc, rows)?;
    let topics = topics_of(alloc, &rows)?;
    push_sections(alloc, text, &topics, told)
}

/// Appends the lines of events, whose rows are among these, which stand by topic.
pub(crate) fn push_events(
    alloc: Global,
    text: &mut String,
    events: &[Event],
    rows: &[Explanation<'_>],
    told: RowTelling<'_, '_>,
) -> Result<(), AllocError>
    ensures { OnOk result (string_bytes text.new
        ≡ string_bytes text.old ++ flat_map (check_text.event_block (check_text.row_told told.entry) (map explanation.explanation_value rows.now)) (map events_spec.event_value events.now)) }
{
    let kept = EventRows::of(alloc, told.talk, told.scope.tail, rows)?;
    for event in events {
        let own = kept.rows(alloc, event.key)?;
        push_event(alloc, text, event, &own, told)?;
    }
    Ok(())
}
