ghost use Rattle.std.specs.Prelude.{ℕ, ◌≡◌, ◌≤◌, ◌<◌, ◌++◌, ◌∷◌, [], false, true, cond, length, map, slice_index_or, All, IfOk, IfSome, List, None, OnOk, Some};
ghost use Rattle.std.specs.List.Sorted.{IsStrictlySortedBy};
ghost use Rattle.std.specs.Ordering.{is_eq};
ghost use Rattle.rtps_ids.specs.declared.identity.Guid.{Guid as GuidValue};
ghost use Rattle.rtps_receiver.specs.Values as values;
ghost use Rattle.rtps_discovery.specs.GuidOrder as guid_order;
ghost use Rattle.rtps_discovery.specs.Listings as listings;
ghost use Rattle.rtps_audit.specs.Placed as placed_spec;

use rtps_audit::{Accounts, Answer, Ask, FirstAsked, FrontRanges};
use rtps_discovery::Pair;
use rtps_ids::{Guid, Memory};
use rtps_receiver::Spoken;
use std::alloc::Global;

/// The accounts of a writer with each of its readers.
#[derive(Drop)]
pub(crate) struct JudgedWriter {
    pub(crate) writer: Guid,
    /// In the order of their GUIDs, as their accounts stand.
    readers: Vec<Guid>,
    pub(crate) accounts: Accounts<FrontRanges>,
    /// Whether no act was heard in part.
    is_whole: bool,
    ghost counted: { is_whole ≡ true → length accounts.accounts.items ≡ length readers.items },
}

/// The readers of pairs.
fn readers_of(alloc: Global, pairs: &[Pair]) -> Result<Vec<Guid>, Memory>
    ensures { IfOk result (λ readers. readers.items ≡ map (λ pair. pair.reader) pairs.now) }
{
    let mut readers = Vec::with_capacity(alloc, pairs.len())?;
    for pair in pairs {
        readers.push(pair.reader)?;
    }
    Ok(readers)
}

impl JudgedWriter {
    ghost use Rattle.rtps_passes.specs.Judging as judging;

    /// Of a writer and its pairs, before all datagrams. The numbers from `from` on are asked for.
    pub(crate) fn of(
        alloc: Global,
        writer: Guid,
        pairs: &[Pair],
        from: FirstAsked,
    ) -> Result<Self, Memory>
        requires { All (λ pair. pair.writer ≡ writer) pairs.now }
        ensures writer { IfOk result (λ judged. judged.writer ≡ writer) }
        ensures pairs { IfOk result (λ judged. judging.pairs_of judged ≡ pairs.now) }
        ensures taken { IsStrictlySortedBy listings.pair_cmp pairs.now → IfOk result (judging.HasTakenIn from 0 [] []) }
    {
        Ok(JudgedWriter {
            writer,
            readers: readers_of(alloc, pairs)?,
            accounts: Accounts::new(alloc, writer, pairs, from)?,
            is_whole: true,
        })
    }

    /// The place of a reader among those of the writer.
    fn place_of(&self, reader: Guid) -> Option<usize>
        ensures within { IfSome result (λ place. place < length self.now.readers.items) }
        ensures found { IsStrictlySortedBy guid_order.guid_cmp self.now.readers.items → (place : ℕ) (d : GuidValue) → place < length self.now.readers.items
            → is_eq (guid_order.guid_cmp (slice_index_or self.now.readers.items place d) reader) ≡ judging.is_found result place }
    {
        self.readers.binary_search(&reader).ok()
    }

    /// Notes the answer of a reader to the writer, where all acts in earlier datagrams are heard and none in that of the answer. `Memory`
    /// is answered where an act was heard in part.
    pub(crate) fn note(&mut self, reader: Guid, answer: Answer) -> Result<(), Memory>
        ensures writer { self.new.writer ≡ self.old.writer }
        ensures readers { self.new.readers ≡ self.old.readers }
        ensures taken { OnOk result ((from : ℕ) (asked heard : List placed_spec.PlacedValue) (act : placed_spec.PlacedValue)
            → 1 ≤ answer.datagram → All (λ at. at.datagram < answer.datagram) heard
            → ((other : GuidValue) → placed_spec.answer_of (judging.pair_with self.old.writer other) act ≡ cond (is_eq (guid_order.guid_cmp other reader)) (Some answer) None)
            → judging.HasTakenIn from answer.datagram asked heard self.old
            → judging.HasTakenIn from answer.datagram (asked ++ act ∷ []) heard self.new) }
    {
        if !self.is_whole {
            return Err(Memory);
        }
        if let Some(place) = self.place_of(reader) {
            self.accounts.note(Ask { place, answer });
        }
        Ok(())
    }

    /// Hears the next act of the writer. After `Memory` it hears no act more, and notes no answer.
    pub(crate) fn hear(&mut self, act: &Spoken<'_>) -> Result<(), Memory>
        ensures writer { self.new.writer ≡ self.old.writer }
        ensures readers { self.new.readers ≡ self.old.readers }
        ensures taken { OnOk result ((from datagram : ℕ) (asked heard : List placed_spec.PlacedValue)
            → placed_spec.is_from self.old.writer (record { datagram = datagram; act = values.spoken_value act.now }) ≡ true
            → judging.HasTakenIn from datagram asked heard self.old
            → judging.HasTakenIn from datagram asked (heard ++ record { datagram = datagram; act = values.spoken_value act.now } ∷ []) self.new) }
    {
        if !self.is_whole {
            return Err(Memory);
        }
        self.is_whole = false;
        self.accounts.hear(act)?;
        self.is_whole = true;
        Ok(())
    }
}
