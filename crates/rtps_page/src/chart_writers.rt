ghost use Rattle.std.specs.Prelude.{◌≡◌, ◌++◌, ◌∷◌, [], codes, flat_map, map, IfOk, List, None, OnOk};
ghost use Rattle.json.specs.Token.{key};
ghost use Rattle.json.specs.Tree.{json_tokens};
ghost use Rattle.rtps_ids.specs.declared.identity.Guid.{Guid as GuidValue};
ghost use Rattle.rtps_audit.specs.Index as index_spec;
ghost use Rattle.rtps_audit.specs.Intake as intake;
ghost use Rattle.rtps_audit.specs.Placed as placed;
ghost use Rattle.rtps_json.specs.JsonText as json_text;
ghost use Rattle.rtps_page.specs.ChartEntries as chart_entries;
ghost use Rattle.rtps_page.specs.ChartRoom as chart_room;
ghost use Rattle.rtps_page.specs.Page as page;

use crate::chart_entries::{push_entries, push_told};
use crate::chart_room::is_last;
use crate::tellings::{Said, Tellings, Told};
use json::Writer;
use rtps_audit::Placed;
use rtps_discovery::Pair;
use rtps_ids::{Guid, Memory};
use rtps_json::push_guid;
use std::alloc::{AllocError, Global};

/// The writers of these pairs that follow one another, each once.
pub(crate) fn writers_of(alloc: Global, pairs: &[Pair]) -> Result<Vec<Guid>, AllocError>
    ensures { IfOk result (λ writers. writers.items ≡ chart_room.writers_behind None pairs.now) }
{
    let mut writers = Vec::new(alloc);
    let mut last = None;
    for pair in pairs {
        if !is_last(last, pair.writer) {
            writers.push(pair.writer)?;
        }
        last = Some(pair.writer);
    }
    Ok(writers)
}

/// Appends the entries of these acts, and of the samples that they tell by what is counted of them.
fn push_acts(
    writer: &mut Writer,
    text: &mut String,
    acts: &[Placed<'_>],
    tellings: &Tellings,
) -> Result<(), AllocError>
    ensures tokens { (readers : List GuidValue) → chart_entries.AreTellings readers (map placed.placed_value acts.now) tellings.now
        → OnOk result (writer.new.tokens ≡ writer.old.tokens ++ flat_map json_tokens (chart_entries.entries_behind readers [] (map placed.placed_value acts.now))) }
    ensures before { writer.new.before ≡ writer.old.before }
{
    for at in 0..acts.len() {
        let placed = &acts[at];
        push_entries(writer, text, placed)?;
        push_told(writer, text, Told { tellings, at }, placed)?;
    }
    Ok(())
}

fn push_writer(
    alloc: Global,
    writer: &mut Writer,
    said: Said<'_, '_>,
    guid: Guid,
) -> Result<(), Memory>
    ensures tokens { (intake : intake.Intake) → index_spec.IsIndexBy intake said.entry.index.now
        → OnOk result (writer.new.tokens ≡ writer.old.tokens ++ json_tokens (page.writer_json (placed.placed_in intake.acts) said.entry.pairs.now guid)) }
    ensures before { writer.new.before ≡ writer.old.before }
{
    let mut text = String::new(alloc);
    let tellings = said.tellings_of(alloc, guid)?;
    writer.begin_object()?;
    writer.key("guid")?;
    push_guid(writer, &mut text, guid)?;
    writer.key("acts")?;
    writer.begin_array()?;
    push_acts(writer, &mut text, said.index.acts_of(guid), &tellings)?;
    writer.end_array()?;
    writer.end_object()?;
    Ok(())
}

/// Appends what the writers of these pairs say.
pub(crate) fn push_writers(
    alloc: Global,
    writer: &mut Writer,
    said: Said<'_, '_>,
    pairs: &[Pair],
) -> Result<(), Memory>
    ensures tokens { (intake : intake.Intake) → index_spec.IsIndexBy intake said.entry.index.now
        → OnOk result (writer.new.tokens ≡ writer.old.tokens ++ key (codes "writers")
        ∷ json_tokens (json_text.array_of (map (page.writer_json (placed.placed_in intake.acts) said.entry.pairs.now) (chart_room.writers_behind None pairs.now)))) }
    ensures before { writer.new.before ≡ writer.old.before }
{
    let guids = writers_of(alloc, pairs)?;
    writer.key("writers")?;
    writer.begin_array()?;
    for guid in &guids {
        push_writer(alloc, writer, said, *guid)?;
    }
    writer.end_array()?;
    Ok(())
}
