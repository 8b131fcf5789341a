ghost use Rattle.std.specs.Prelude.{ℕ, ◌≡◌, false, true, filter, map, IfOk, OnOk};
ghost use Rattle.std.specs.List.{list_any};
ghost use Rattle.rtps_ids.specs.declared.identity.Guid.{Guid as GuidValue};
ghost use Rattle.rtps_audit.specs.Index as index_spec;
ghost use Rattle.rtps_audit.specs.Intake as intake;
ghost use Rattle.rtps_audit.specs.Placed as placed_spec;
ghost use Rattle.rtps_evidence.specs.Missed as missed;
ghost use Rattle.rtps_evidence.specs.ReaderNotes as reader_notes;

use rtps_audit::{Index, Placed};
use rtps_discovery::Pair;
use rtps_fragments::have_fragments;
use rtps_ids::{Guid, Memory};
use std::alloc::Global;
use std::collections::BTreeMap;

/// What the acts of a reader are looked through for, whoever its writers are.
#[derive(Clone, Copy)]
pub(crate) struct ReaderNote {
    /// Whether it sends fragments.
    sends_fragments: bool,
    /// Whether it asks for some number.
    asks: bool,
}

/// Notes of readers, so that the acts of a reader are gone through once, and not once for each of its writers.
#[derive(Drop)]
pub(crate) struct ReaderNotes {
    notes: BTreeMap<Guid, ReaderNote>,
}

/// Whether an act asks for some number.
fn asks_for_some(placed: &Placed<'_>) -> bool
    ensures { result ≡ false → (writer reader : GuidValue) (n : ℕ) → missed.asks_for writer reader n (placed_spec.placed_value placed.now) ≡ false }
{
    placed.act.said().lacked.range_from(0).is_some()
}

/// Whether one of these acts does.
fn ask_for_some(acts: &[Placed<'_>]) -> bool
    ensures { result ≡ false → (writer reader : GuidValue) (n : ℕ) → list_any (missed.asks_for writer reader n) (map placed_spec.placed_value acts.now) ≡ false }
{
    for placed in acts {
        if asks_for_some(placed) {
            return true;
        }
    }
    false
}

/// The note of a reader whose acts these are.
fn note_of(acts: &[Placed<'_>]) -> ReaderNote
    ensures { reader_notes.IsNoteOf (map placed_spec.placed_value acts.now) result }
{
    ReaderNote {
        sends_fragments: have_fragments(acts),
        asks: ask_for_some(acts),
    }
}

/// Notes a reader, where it is not noted yet. After `Memory` nothing has changed.
fn note_reader(
    notes: &mut BTreeMap<Guid, ReaderNote>,
    index: &Index<'_>,
    reader: Guid,
) -> Result<(), Memory>
    ensures { OnOk result ((intake : intake.Intake) → index_spec.IsIndexBy intake index.now → reader_notes.AreNotes intake notes.old → reader_notes.AreNotes intake notes.new) }
{
    if !notes.contains_key(&reader) {
        notes.insert(reader, note_of(index.acts_of(reader)))?;
    }
    Ok(())
}

impl ReaderNotes {
    ghost use Rattle.rtps_fragments.specs.Hearing as hearing;

    /// Of no readers. It takes no memory.
    pub(crate) fn none(alloc: Global) -> ReaderNotes
        ensures { (intake : intake.Intake) → reader_notes.AreNotes intake result.notes }
    {
        ReaderNotes {
            notes: BTreeMap::new(alloc),
        }
    }

    /// Of the readers of pairs. `Memory` is answered where the notes cannot grow.
    pub(crate) fn of(
        alloc: Global,
        index: &Index<'_>,
        pairs: &[Pair],
    ) -> Result<ReaderNotes, Memory>
        ensures { (intake : intake.Intake) → index_spec.IsIndexBy intake index.now → IfOk result (λ found. reader_notes.AreNotes intake found.notes) }
    {
        let mut notes = BTreeMap::new(alloc);
        for pair in pairs {
            note_reader(&mut notes, index, pair.reader)?;
        }
        Ok(ReaderNotes { notes })
    }

    /// Whether a reader is known to send no fragments.
    pub(crate) fn is_plain(&self, reader: Guid) -> bool
        ensures { result ≡ true → (intake : intake.Intake) → reader_notes.AreNotes intake self.now.notes
            → hearing.have_fragments (filter (placed_spec.is_from reader) (placed_spec.placed_in intake.acts)) ≡ false }
    {
        match self.notes.get(&reader) {
            Some(note) => !note.sends_fragments,
            None => false,
        }
    }

    /// Whether a reader is known to ask for no number.
    pub(crate) fn asks_for_none(&self, reader: Guid) -> bool
        ensures { result ≡ true → (intake : intake.Intake) → reader_notes.AreNotes intake self.now.notes
            → (writer : GuidValue) (n : ℕ) → list_any (missed.asks_for writer reader n) (filter (placed_spec.is_from reader) (placed_spec.placed_in intake.acts)) ≡ false }
    {
        match self.notes.get(&reader) {
            Some(note) => !note.asks,
            None => false,
        }
    }
}
