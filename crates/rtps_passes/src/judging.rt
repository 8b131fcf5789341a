ghost use Rattle.std.specs.Prelude.{ℕ, ◌≡◌, ◌≢◌, ◌≤◌, ◌<◌, ◌++◌, ◌∷◌, [], false, length, map, slice_index_or, All, IfOk, IfSome, List, OnOk};
ghost use Rattle.std.specs.List.{AllWithin, HoldsAt};
ghost use Rattle.std.specs.List.Sorted.{IsStrictlySortedBy};
ghost use Rattle.std.specs.Ordering.{is_eq};
ghost use Rattle.rtps_receiver.specs.Values as values;
ghost use Rattle.rtps_discovery.specs.Directory as directory_spec;
ghost use Rattle.rtps_discovery.specs.GuidOrder as guid_order;
ghost use Rattle.rtps_discovery.specs.Listings as listings;
ghost use Rattle.rtps_discovery.specs.declared.matching.Pair.{Pair as PairValue};
ghost use Rattle.rtps_audit.specs.Placed as placed_spec;
ghost use Rattle.rtps_passes.specs.Judging as judging_spec;
ghost use Rattle.rtps_passes.specs.declared.judged_writer.JudgedWriter.{JudgedWriter as JudgedValue};

use crate::judged_writer::JudgedWriter;
use rtps_audit::{FirstAsked, answer_in};
use rtps_discovery::laws::in_order;
use rtps_discovery::{Directory, Pair};
use rtps_ids::{Guid, Memory, SeqNum};
use rtps_receiver::Spoken;
use std::alloc::Global;

/// The second pass over a recording: an account of each reliable pair. It grows with the pairs, and with what readers lack in between,
/// and not with the datagrams.
#[derive(Drop)]
pub struct Judging {
    /// In the order of their GUIDs.
    pub(crate) writers: Vec<JudgedWriter>,
    datagrams: usize,
    /// The place of the writer of the last act, which is mostly that of the next one.
    latest: usize,
}

/// The place of a writer. That of this number is tried first.
pub(crate) fn place_of(writers: &[JudgedWriter], writer: Guid, first: usize) -> Option<usize>
    ensures within { IfSome result (λ place. place < length writers.now) }
    ensures found { IsStrictlySortedBy guid_order.guid_cmp (map (λ judged. judged.writer) writers.now) → (place : ℕ) (d : JudgedValue) → place < length writers.now
        → is_eq (guid_order.guid_cmp (slice_index_or writers.now place d).writer writer) ≡ judging_spec.is_found result place }
{
    if first < writers.len() && writers[first].writer == writer {
        return Some(first);
    }
    writers
        .binary_search_by_key(&writer, |judged| judged.writer)
        .ok()
}

/// The first place from this one on whose pair is of another writer; the end, where none is.
fn writer_end(pairs: &[Pair], start: usize, writer: Guid) -> usize
    requires { start ≤ length pairs.now }
    ensures onward { start ≤ result }
    ensures within { result ≤ length pairs.now }
    ensures of_writer { AllWithin (λ pair. pair.writer ≡ writer) pairs.now start result }
    ensures end { result < length pairs.now → HoldsAt (λ pair. pair.writer ≢ writer) pairs.now result }
{
    for place in start..pairs.len() {
        let pair = pairs[place];
        if pair.writer != writer {
            return place;
        }
    }
    pairs.len()
}

/// The accounts of pairs in order, before all datagrams. The numbers from `from` on are asked for.
fn writers_of(alloc: Global, pairs: &[Pair], from: FirstAsked) -> Result<Vec<JudgedWriter>, Memory>
    ensures { IsStrictlySortedBy listings.pair_cmp pairs.now → IfOk result (λ writers. judging_spec.HaveTakenIn from 0 pairs.now [] [] writers.items) }
{
    let mut writers = Vec::new(alloc);
    let mut start = 0;
    'writers: while start < pairs.len() {
        let first = pairs[start];
        let end = writer_end(pairs, start + 1, first.writer);
        writers.push(JudgedWriter::of(alloc, first.writer, &pairs[start..end], from)?)?;
        start = end;
    }
    Ok(writers)
}

impl Judging {
    /// Before all datagrams: the accounts of the reliable pairs of a directory, by the numbers from `from` on. `Memory` is answered where
    /// there is none for them.
    pub fn of(alloc: Global, directory: &Directory<'_>, from: SeqNum) -> Result<Judging, Memory>
        ensures { (acts : List values.ActValue) → directory_spec.IsMapOf acts directory.now → IfOk result (judging_spec.IsJudgingBy from (judging_spec.pairs_in directory.now) []) }
    {
        in_order();
        let pairs = directory.pairs()?;
        let writers = writers_of(alloc, &pairs, FirstAsked::of(from))?;
        Ok(Judging {
            writers,
            datagrams: 0,
            latest: 0,
        })
    }

    /// Notes the answer that an act is, if it is of some pair. It stands in the datagram that is counted last, of which no act is heard yet.
    fn note_answer(&mut self, act: &Spoken<'_>) -> Result<(), Memory>
        ensures datagrams { self.new.datagrams ≡ self.old.datagrams }
        ensures taken { OnOk result ((from : ℕ) (pairs : List PairValue) (asked heard : List placed_spec.PlacedValue)
            → 1 ≤ self.old.datagrams → All (λ at. at.datagram < self.old.datagrams) heard
            → judging_spec.HaveTakenIn from self.old.datagrams pairs asked heard self.old.writers.items
            → judging_spec.HaveTakenIn from self.old.datagrams pairs (asked ++ record { datagram = self.old.datagrams; act = values.spoken_value act.now } ∷ []) heard self.new.writers.items) }
    {
        let Some((pair, answer)) = answer_in(self.datagrams, act) else {
            return Ok(());
        };
        if let Some(place) = place_of(&self.writers, pair.writer, self.latest) {
            self.latest = place;
            self.writers[place].note(pair.reader, answer)?;
        }
        Ok(())
    }

    /// Notes the answers among acts of the datagram that is counted last.
    fn note_answers(&mut self, acts: &[Spoken<'_>]) -> Result<(), Memory>
        ensures datagrams { self.new.datagrams ≡ self.old.datagrams }
        ensures taken { OnOk result ((from : ℕ) (pairs : List PairValue) (asked heard : List placed_spec.PlacedValue)
            → 1 ≤ self.old.datagrams → All (λ at. at.datagram < self.old.datagrams) heard
            → judging_spec.HaveTakenIn from self.old.datagrams pairs asked heard self.old.writers.items
            → judging_spec.HaveTakenIn from self.old.datagrams pairs (asked ++ placed_spec.placed_at self.old.datagrams (map values.spoken_value acts.now)) heard self.new.writers.items) }
    {
        for act in acts {
            self.note_answer(act)?;
        }
        Ok(())
    }

    /// Hears an act, if it is of a writer of some pair.
    fn hear(&mut self, act: &Spoken<'_>) -> Result<(), Memory>
        ensures datagrams { self.new.datagrams ≡ self.old.datagrams }
        ensures taken { OnOk result ((from datagram : ℕ) (pairs : List PairValue) (asked heard : List placed_spec.PlacedValue)
            → judging_spec.HaveTakenIn from datagram pairs asked heard self.old.writers.items
            → judging_spec.HaveTakenIn from datagram pairs asked (heard ++ record { datagram = datagram; act = values.spoken_value act.now } ∷ []) self.new.writers.items) }
    {
        if let Some(place) = place_of(&self.writers, act.origin(), self.latest) {
            self.latest = place;
            self.writers[place].hear(act)?;
        }
        Ok(())
    }

    /// Hears the acts of a datagram.
    fn hear_all(&mut self, acts: &[Spoken<'_>]) -> Result<(), Memory>
        ensures datagrams { self.new.datagrams ≡ self.old.datagrams }
        ensures taken { OnOk result ((from datagram : ℕ) (pairs : List PairValue) (asked heard : List placed_spec.PlacedValue)
            → judging_spec.HaveTakenIn from datagram pairs asked heard self.old.writers.items
            → judging_spec.HaveTakenIn from datagram pairs asked (heard ++ placed_spec.placed_at datagram (map values.spoken_value acts.now)) self.new.writers.items) }
    {
        for act in acts {
            self.hear(act)?;
        }
        Ok(())
    }

    /// Takes in the acts of the next datagram. Its answers are noted before its acts are heard, since an answer is founded on earlier
    /// datagrams alone. `Memory` is answered where an account cannot grow, and past 2^64 - 1 datagrams; then the accounts are of no use.
    pub fn note(&mut self, acts: &[Spoken<'_>]) -> Result<(), Memory>
        ensures { OnOk result ((from : ℕ) (pairs : List PairValue) (recording : List (List values.ActValue))
            → judging_spec.IsJudgingBy from pairs recording self.old → judging_spec.IsJudgingBy from pairs (recording ++ map values.spoken_value acts.now ∷ []) self.new) }
    {
        if self.datagrams == usize::MAX {
            return Err(Memory);
        }
        self.datagrams += 1;
        self.note_answers(acts)?;
        self.hear_all(acts)?;
        Ok(())
    }

    /// Whether payloads have to be compared. Where they have not, no third pass is needed.
    pub fn has_questions(&self) -> bool
        ensures { result ≡ false → All judging_spec.HasNoQuestions self.now.writers.items }
    {
        for judged in &self.writers {
            if judged.accounts.has_questions() {
                return true;
            }
        }
        false
    }
}
