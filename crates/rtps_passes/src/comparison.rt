ghost use Rattle.std.specs.Prelude.{ℕ, Bool, ◌≡◌, ◌≢◌, ◌<◌, ◌++◌, ◌∷◌, [], true, length, map, slice_index_or, All, IfOk, List, OnOk};
ghost use Rattle.std.specs.List.Sorted.{IsStrictlySortedBy};
ghost use Rattle.rtps_receiver.specs.Values as values;
ghost use Rattle.rtps_discovery.specs.GuidOrder as guid_order;
ghost use Rattle.rtps_discovery.specs.declared.matching.Pair.{Pair as PairValue};
ghost use Rattle.rtps_audit.specs.Account as account;
ghost use Rattle.rtps_audit.specs.Delivered as delivered;
ghost use Rattle.rtps_audit.specs.Intake as intake_spec;
ghost use Rattle.rtps_audit.specs.PayloadConflict as payload_conflict;
ghost use Rattle.rtps_audit.specs.Placed as placed_spec;
ghost use Rattle.rtps_passes.specs.Comparison as comparison;
ghost use Rattle.rtps_passes.specs.Judging as judging_spec;
ghost use Rattle.rtps_passes.specs.Survey as survey_spec;
ghost use Rattle.rtps_passes.specs.declared.judged_writer.JudgedWriter.{JudgedWriter as JudgedValue};

use crate::judging::{Judging, place_of};
use crate::kept_payloads::{KeptPayloads, entries_of};
use crate::survey::Survey;
use bumpalo::Bump;
use rtps_audit::{AddressedPayload, PayloadConflicts, Report, Row, addressed};
use rtps_ids::Memory;
use rtps_receiver::Spoken;
use std::alloc::Global;

/// The third pass over a recording: the payloads of numbers of which one came again. A payload that came again and is the same takes no
/// memory.
#[derive(Drop)]
pub struct Comparison<'j, 'p> {
    judging: &'j Judging,
    /// Of the writers, in their order, up to the last one of which something is kept.
    kept: Vec<KeptPayloads<'p>>,
    /// The place of the writer of the last act.
    latest: usize,
    alloc: Global,
}

impl<'j, 'p> Comparison<'j, 'p> {
    /// Before all datagrams, where the accounts have taken in all of them. It takes no memory. Where the accounts have no questions, it is
    /// as if it had taken in all of them.
    pub fn of(alloc: Global, judging: &'j Judging) -> Comparison<'j, 'p>
        ensures begun { (from : ℕ) (pairs : List PairValue) (recording : List (List values.ActValue))
            → judging_spec.IsJudgingBy from pairs recording judging.now → comparison.IsComparisonBy from pairs recording [] result }
        ensures unquestioned { All judging_spec.HasNoQuestions judging.now.writers.items → (from : ℕ) (pairs : List PairValue) (recording : List (List values.ActValue))
            → judging_spec.IsJudgingBy from pairs recording judging.now → comparison.IsComparisonBy from pairs recording recording result }
    {
        Comparison {
            judging,
            kept: Vec::new(alloc),
            latest: 0,
            alloc,
        }
    }

    /// Makes room for what is kept of the writer at a place.
    fn reach(&mut self, place: usize) -> Result<(), Memory>
        ensures judging { self.new.judging ≡ self.old.judging }
        ensures reached { OnOk result (place < length self.new.kept.items) }
        ensures same { OnOk result ((other : ℕ) → comparison.kept_at self.new.kept.items other ≡ comparison.kept_at self.old.kept.items other) }
    {
        'places: while self.kept.len() <= place {
            self.kept.push(KeptPayloads::new(self.alloc))?;
        }
        Ok(())
    }

    /// Keeps an entry of the writer at a place.
    fn keep(
        &mut self,
        place: usize,
        entry: &AddressedPayload<'_, '_>,
        payloads: &'p Bump,
    ) -> Result<(), Memory>
        requires { payload_conflict.IsInRange entry.now }
        ensures judging { self.new.judging ≡ self.old.judging }
        ensures others { OnOk result ((other : ℕ) → other ≢ place → comparison.kept_at self.new.kept.items other ≡ comparison.kept_at self.old.kept.items other) }
        ensures kept { OnOk result ((wanted : ℕ → Bool) (placed : List placed_spec.PlacedValue) (at : placed_spec.PlacedValue)
            → payload_conflict.IsSentBy at.act entry.now → wanted entry.now.number ≡ true
            → comparison.AreKept wanted placed (comparison.kept_at self.old.kept.items place) → comparison.AreKept wanted (placed ++ at ∷ []) (comparison.kept_at self.new.kept.items place)) }
    {
        self.reach(place)?;
        self.kept[place].keep(entry, payloads)?;
        Ok(())
    }

    /// Keeps the payload that an act tells, where it is of a number in question.
    fn note_act(&mut self, act: &Spoken<'_>, payloads: &'p Bump) -> Result<(), Memory>
        ensures judging { self.new.judging ≡ self.old.judging }
        ensures kept { OnOk result ((datagram : ℕ) (placed : List placed_spec.PlacedValue)
            → IsStrictlySortedBy guid_order.guid_cmp (map (λ judged. judged.writer) self.old.judging.now.writers.items)
            → comparison.HaveKept self.old.judging.now.writers.items placed self.old.kept.items
            → comparison.HaveKept self.old.judging.now.writers.items (placed ++ record { datagram = datagram; act = values.spoken_value act.now } ∷ []) self.new.kept.items) }
    {
        let Some(place) = place_of(&self.judging.writers, act.origin(), self.latest) else {
            return Ok(());
        };
        self.latest = place;
        let questions = self.judging.writers[place].accounts.questions();
        let Some(entry) = addressed(act, questions) else {
            return Ok(());
        };
        self.keep(place, &entry, payloads)?;
        Ok(())
    }

    /// Takes in the acts of the next datagram. Payloads of numbers in question are copied into an arena. After `Memory` the comparison is of
    /// no use.
    pub fn note(&mut self, acts: &[Spoken<'_>], payloads: &'p Bump) -> Result<(), Memory>
        ensures { OnOk result ((from : ℕ) (pairs : List PairValue) (recording compared : List (List values.ActValue))
            → comparison.IsComparisonBy from pairs recording compared self.old
            → comparison.IsComparisonBy from pairs recording (compared ++ map values.spoken_value acts.now ∷ []) self.new) }
    {
        for act in acts {
            self.note_act(act, payloads)?;
        }
        Ok(())
    }

    /// The entries of what is kept of the writer at a place.
    fn entries_at(&self, place: usize) -> Result<Vec<AddressedPayload<'_, 'p>>, Memory>
        ensures sent { (wanted : ℕ → Bool) (placed : List placed_spec.PlacedValue) → comparison.AreKept wanted placed (comparison.kept_at self.now.kept.items place)
            → IfOk result (λ entries. payload_conflict.AreSentIn wanted placed entries.items) }
        ensures in_range { IfOk result (λ entries. All payload_conflict.IsInRange entries.items) }
    {
        match self.kept.get(place) {
            Some(kept) => entries_of(self.alloc, &kept.payloads),
            None => Ok(Vec::new(self.alloc)),
        }
    }

    /// The rows of the pairs of the writer at a place.
    fn rows_at(&self, place: usize) -> Result<Vec<Row>, Memory>
        requires { place < length self.now.judging.now.writers.items }
        ensures { (from : ℕ) (pairs : List PairValue) (recording : List (List values.ActValue)) (d : JudgedValue) → comparison.IsComparisonBy from pairs recording recording self.now
            → IfOk result (λ rows. account.AreRowsOf from recording (judging_spec.pairs_of (slice_index_or self.now.judging.now.writers.items place d)) rows.items) }
    {
        let mut entries = self.entries_at(place)?;
        entries.sort_by_key(|entry| entry.number)?;
        let conflicts = PayloadConflicts::among(self.alloc, &entries)?;
        let rows = self.judging.writers[place].accounts.rows_by(&conflicts)?;
        Ok(rows)
    }

    /// The rows of all pairs, by writer and then by reader.
    fn rows(&self) -> Result<Vec<Row>, Memory>
        ensures { (from : ℕ) (pairs : List PairValue) (recording : List (List values.ActValue)) → comparison.IsComparisonBy from pairs recording recording self.now
            → IfOk result (λ rows. account.AreRowsOf from recording pairs rows.items) }
    {
        let mut rows = Vec::new(self.alloc);
        for place in 0..self.judging.writers.len() {
            let more = self.rows_at(place)?;
            rows.extend_from_slice(&more)?;
        }
        Ok(rows)
    }

    /// The report on the recording, of which the three passes have taken in all.
    pub fn report(&self, survey: &Survey<'_>) -> Result<Report, Memory>
        ensures { (intake : intake_spec.Intake) (from : ℕ) → survey_spec.IsSurveyBy intake survey.now
            → comparison.IsComparisonBy from (judging_spec.pairs_in survey.now.directory) intake.acts intake.acts self.now
            → IfOk result (delivered.IsExactReportBy from intake) }
    {
        let rows = self.rows()?;
        Ok(Report {
            rows,
            counts: survey.tallies.counts(survey.directory.unsettled()),
        })
    }
}
