ghost use Rattle.std.specs.Prelude.{◌≡◌, ◌++◌, IfOk, OnOk, length, map};
ghost use Rattle.std.specs.String.{string_bytes};
ghost use Rattle.rtps_parts.specs.Parts as parts;
ghost use Rattle.rtps_parts.specs.Table as table_spec;

use crate::part::{Part, push_part, render};
use std::alloc::{AllocError, Global};

/// A column: which entry of each row stands in it, and how wide it is.
#[derive(Clone, Copy)]
pub(crate) struct Column {
    pub(crate) place: usize,
    pub(crate) width: usize,
}

fn push_entry(text: &mut String, row: &[Part<'_>], place: usize) -> Result<(), AllocError>
    ensures { OnOk result (string_bytes text.new ≡ string_bytes text.old ++ table_spec.entry (map parts.part_text row.now) place) }
{
    match row.get(place) {
        Some(part) => push_part(text, *part),
        None => Ok(()),
    }
}

fn entry_len(alloc: Global, row: &[Part<'_>], place: usize) -> Result<usize, AllocError>
    ensures { IfOk result (λ size. size ≡ length (table_spec.entry (map parts.part_text row.now) place)) }
{
    let mut text = String::new(alloc);
    push_entry(&mut text, row, place)?;
    Ok(text.len())
}

fn column_of(alloc: Global, rows: &[Vec<Part<'_>>], place: usize) -> Result<Column, AllocError>
    ensures { IfOk result (λ column. column ≡ table_spec.column_of (map (λ row. map parts.part_text row.items) rows.now) place) }
{
    let mut width = 0;
    for row in rows {
        width = width.max(entry_len(alloc, row, place)?);
    }
    Ok(Column { place, width })
}

fn push_cell(
    alloc: Global,
    text: &mut String,
    row: &[Part<'_>],
    column: Column,
) -> Result<(), AllocError>
    ensures { OnOk result (string_bytes text.new ≡ string_bytes text.old ++ table_spec.cell (map parts.part_text row.now) column) }
{
    let size = entry_len(alloc, row, column.place)?;
    let rest = Part::Spaces(column.width.saturating_sub(size));
    if column.place == 0 {
        push_entry(text, row, 0)?;
        push_part(text, rest)
    } else {
        render(text, &[Part::Text("  "), rest])?;
        push_entry(text, row, column.place)
    }
}

fn push_line(
    alloc: Global,
    text: &mut String,
    row: &[Part<'_>],
    columns: &[Column],
) -> Result<(), AllocError>
    ensures { OnOk result (string_bytes text.new ≡ string_bytes text.old ++ table_spec.line columns.now (map parts.part_text row.now)) }
{
    for column in columns {
        push_cell(alloc, text, row, *column)?;
    }
    text.push_str("\n")
}

fn columns_of(
    alloc: Global,
    rows: &[Vec<Part<'_>>],
    places: &[usize],
) -> Result<Vec<Column>, AllocError>
    ensures { IfOk result (λ columns. columns.items ≡ map (table_spec.column_of (map (λ row. map parts.part_text row.items) rows.now)) places.now) }
{
    let mut columns = Vec::new(alloc);
    for place in places {
        columns.push(column_of(alloc, rows, *place)?)?;
    }
    Ok(columns)
}

/// Appends rows, of which these places are shown.
pub fn push_table(
    alloc: Global,
    text: &mut String,
    places: &[usize],
    rows: &[Vec<Part<'_>>],
) -> Result<(), AllocError>
    ensures { OnOk result (string_bytes text.new ≡ string_bytes text.old ++ table_spec.table places.now (map (λ row. map parts.part_text row.items) rows.now)) }
{
    let columns = columns_of(alloc, rows, places)?;
    for row in rows {
        push_line(alloc, text, row, &columns)?;
    }
    Ok(())
}
