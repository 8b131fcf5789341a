ghost use Rattle.std.specs.Prelude.{◌≡◌, ◌≤◌, ◌<◌, ◌^◌, length};
ghost use Rattle.std.specs.List.{AllWithin, HoldsAt};

use crate::account::Account;
use crate::ask::Ask;
use crate::first_asked::FirstAsked;
use crate::payload_conflict::{PayloadConflicts, Questions};
use crate::placed::Placed;
use crate::report::Row;
use crate::word::{add_range, announced_number};
use rtps_coverage::{Coverage, MergedRanges};
use rtps_discovery::Pair;
use rtps_ids::{Guid, Memory};
use rtps_receiver::Spoken;
use std::alloc::Global;

/// The accounts of pairs of one writer, as far as a recording has come, and what of the writer is for all of them.
#[derive(Drop)]
pub struct Accounts<C> {
    pub(crate) writer: Guid,
    /// The first number that is asked for.
    pub(crate) from: u64,
    pub(crate) accounts: Vec<Account<C>>,
    /// The numbers of which a payload came to some reader that was told of them before: of these payloads are compared.
    pub(crate) again: MergedRanges,
    /// The last number that the writer announces, whoever hears it, or 0.
    pub(crate) last: u64,
    alloc: Global,
    ghost in_range: { last < 2 ^ 63 },
}

/// The first place from this one on whose act stands in the datagram or behind it; the end, where none does.
fn end_before(acts: &[Placed<'_>], start: usize, datagram: usize) -> usize
    requires { start ≤ length acts.now }
    ensures onward { start ≤ result }
    ensures within { result ≤ length acts.now }
    ensures before { AllWithin (λ at. at.datagram < datagram) acts.now start result }
    ensures end { result < length acts.now → HoldsAt (λ at. datagram ≤ at.datagram) acts.now result }
{
    for place in start..acts.len() {
        if acts[place].datagram >= datagram {
            return place;
        }
    }
    acts.len()
}

impl<C: Coverage> Accounts<C> {
    ghost use Rattle.std.specs.Prelude.{ℕ, ◌≡◌, ◌≤◌, ◌<◌, ◌-◌, ◌^◌, ◌++◌, ◌∷◌, [], false, true, length, map, slice_index_or, List, IfOk, OnOk};
    ghost use Rattle.std.specs.List.{All};
    ghost use Rattle.std.specs.List.Sorted.{IsNonDecreasingBy};
    ghost use Rattle.rtps_ids.specs.declared.identity.Guid.{Guid as GuidValue};
    ghost use Rattle.rtps_receiver.specs.Values as values;
    ghost use Rattle.rtps_coverage.specs.MergedRanges as merged_ranges;
    ghost use Rattle.rtps_audit.specs.Account as account;
    ghost use Rattle.rtps_audit.specs.PayloadConflict as payload_conflict;
    ghost use Rattle.rtps_audit.specs.Placed as placed_spec;
    ghost use Rattle.rtps_audit.specs.declared.account.Account.{Account as AccountValue};
    ghost use Rattle.rtps_audit.specs.declared.ask.Ask.{Ask as AskValue};
    ghost use Rattle.rtps_discovery.specs.declared.matching.Pair.{Pair as PairValue};

    /// Before all datagrams. The numbers from `from` on are asked for. `Memory` is answered where there is none for the accounts.
    pub fn new(
        alloc: Global,
        writer: Guid,
        pairs: &[Pair],
        from: FirstAsked,
    ) -> Result<Self, Memory>
        ensures { IfOk result (account.AllStand C.covered from writer pairs.now [] []) }
    {
        let mut accounts = Vec::with_capacity(alloc, pairs.len())?;
        for pair in pairs {
            accounts.push(Account::new(alloc, *pair, from)?)?;
        }
        Ok(Accounts {
            writer,
            from: from.get(),
            accounts,
            again: MergedRanges::empty(alloc),
            last: 0,
            alloc,
        })
    }

    /// Tells each reader that hears it what an act of the writer says. The result is whether one of them is told the payload
    /// of a number that it was told of before. After `Memory` the accounts are of no use.
    fn tell(&mut self, act: &Spoken<'_>) -> Result<bool, Memory>
        ensures writer { self.new.writer ≡ self.old.writer }
        ensures from { self.new.from ≡ self.old.from }
        ensures set { self.new.again ≡ self.old.again }
        ensures last { self.new.last ≡ self.old.last }
        ensures heard { OnOk result (account.AllHear C.covered (values.spoken_value act.now) self.old.accounts.items self.new.accounts.items) }
        ensures again { IfOk result (λ again. (place : ℕ) (d : AccountValue C) (n : ℕ) → place < length self.old.accounts.items
            → account.ComesAgain C.covered (values.spoken_value act.now) (slice_index_or self.old.accounts.items place d) n → again ≡ true) }
    {
        let said = act.said();
        let mut again = false;
        for place in 0..self.accounts.len() {
            if self.accounts[place].hear(act, &said)? {
                again = true;
            }
        }
        Ok(again)
    }

    /// Tells the readers the next act of the writer, and keeps what of it is for all of them. After `Memory` the accounts are of no use.
    fn take(&mut self, act: &Spoken<'_>) -> Result<(), Memory>
        ensures { OnOk result (account.TakesIn C.covered (values.spoken_value act.now) self.old self.new) }
    {
        self.last = self.last.max(announced_number(act, self.writer));
        if !self.tell(act)? {
            return Ok(());
        }
        if let Some(number) = act.said().told {
            add_range(&mut self.again, number, number + 1)?;
        }
        Ok(())
    }

    /// Takes in the next act of the writer. After `Memory` the accounts are of no use.
    pub fn hear(&mut self, act: &Spoken<'_>) -> Result<(), Memory>
        ensures counted { OnOk result (length self.new.accounts.items ≡ length self.old.accounts.items) }
        ensures stand { OnOk result ((from datagram : ℕ) (writer : GuidValue) (pairs : List PairValue) (placed : List placed_spec.PlacedValue) (asks : List AskValue)
            → placed_spec.is_from writer (record { datagram = datagram; act = values.spoken_value act.now }) ≡ true → All (λ ask. ask.answer.datagram ≤ datagram) asks
            → account.AllStand C.covered from writer pairs placed asks self.old
            → account.AllStand C.covered from writer pairs (placed ++ record { datagram = datagram; act = values.spoken_value act.now } ∷ []) asks self.new) }
    {
        self.take(act)?;
        Ok(())
    }

    /// Takes in the next acts of the writer. After `Memory` the accounts are of no use.
    fn hear_all(&mut self, acts: &[Placed<'_>]) -> Result<(), Memory>
        ensures counted { OnOk result (length self.new.accounts.items ≡ length self.old.accounts.items) }
        ensures stand { OnOk result ((from since : ℕ) (writer : GuidValue) (pairs : List PairValue) (placed : List placed_spec.PlacedValue) (asks : List AskValue)
            → All (account.IsSince writer since) acts.now → All (λ ask. ask.answer.datagram ≤ since) asks
            → account.AllStand C.covered from writer pairs placed asks self.old
            → account.AllStand C.covered from writer pairs (placed ++ map placed_spec.placed_value acts.now) asks self.new) }
    {
        for placed in acts {
            self.hear(&placed.act)?;
        }
        Ok(())
    }

    /// Notes an answer, where all acts in earlier datagrams are heard and none in that of the answer.
    pub fn note(&mut self, ask: Ask)
        requires { ask.place < length self.old.accounts.items }
        ensures counted { length self.new.accounts.items ≡ length self.old.accounts.items }
        ensures stand { (from : ℕ) (writer : GuidValue) (pairs : List PairValue) (placed : List placed_spec.PlacedValue) (asks : List AskValue)
            → 1 ≤ ask.answer.datagram → All (λ at. at.datagram < ask.answer.datagram) placed
            → account.AllStand C.covered from writer pairs placed asks self.old
            → account.AllStand C.covered from writer pairs placed (asks ++ ask ∷ []) self.new }
    {
        self.accounts[ask.place].note(ask.answer);
    }

    /// Takes in all that the writer and the readers said: the acts of the writer, and the answers in the order of their
    /// datagrams. After `Memory` the accounts are of no use.
    pub(crate) fn take_in(&mut self, acts: &[Placed<'_>], asks: &[Ask]) -> Result<(), Memory>
        requires { All (λ ask. ask.place < length self.old.accounts.items) asks.now }
        ensures counted { OnOk result (length self.new.accounts.items ≡ length self.old.accounts.items) }
        ensures stand { OnOk result ((from : ℕ) (writer : GuidValue) (pairs : List PairValue)
            → All (account.IsSince writer 0) acts.now → IsNonDecreasingBy (λ at. at.datagram) acts.now
            → All (λ ask. 1 ≤ ask.answer.datagram) asks.now → IsNonDecreasingBy (λ ask. ask.answer.datagram) asks.now
            → account.AllStand C.covered from writer pairs [] [] self.old
            → account.AllStand C.covered from writer pairs (map placed_spec.placed_value acts.now) asks.now self.new) }
    {
        let mut place = 0;
        for ask in asks {
            let end = end_before(acts, place, ask.answer.datagram);
            self.hear_all(&acts[place..end])?;
            self.note(*ask);
            place = end;
        }
        self.hear_all(&acts[place..])?;
        Ok(())
    }

    /// The numbers whose payloads are compared.
    pub fn questions(&self) -> Questions<'_>
        ensures from { result.from ≡ self.now.from }
        ensures again { result.again.now ≡ self.now.again }
    {
        Questions {
            from: self.from,
            again: &self.again,
        }
    }

    /// Whether some number may have payloads that are compared: one of which a payload came again, or the greatest number, which no set
    /// has.
    pub fn has_questions(&self) -> bool
        ensures again { result ≡ false → (n : ℕ) → merged_ranges.covered_of self.now.again n ≡ false }
        ensures last { result ≡ false → self.now.last < 2 ^ 63 - 1 }
    {
        self.last == i64::MAX.cast_unsigned() || !self.again.is_empty()
    }

    /// The rows of the pairs, where all that the writer and the readers said is taken in, and these are the conflicts among the payloads of
    /// the numbers that are compared. `Memory` is answered where there is none for the rows.
    pub fn rows_by(&self, conflicts: &PayloadConflicts<'_, '_>) -> Result<Vec<Row>, Memory>
        ensures counted { IfOk result (λ rows. length rows.items ≡ length self.now.accounts.items) }
        ensures rows { IfOk result (λ rows. (from : ℕ) (writer : GuidValue) (pairs : List PairValue) (asks : List AskValue) (recording : List (List values.ActValue)) (placed : List placed_spec.PlacedValue)
            → 1 ≤ from → account.AreSaid writer recording pairs placed asks
            → account.AllStand C.covered from writer pairs placed asks self.now
            → payload_conflict.AreConflictsOf (payload_conflict.is_in_question self.now.from (merged_ranges.covered_of self.now.again)) conflicts.now.payloads.items placed
            → account.AreRowsOf from recording pairs rows.items) }
    {
        let mut rows = Vec::with_capacity(self.alloc, self.accounts.len())?;
        for account in &self.accounts {
            rows.push(Row {
                pair: account.pair,
                verdict: account
                    .claims
                    .verdict_on(account.pair, conflicts, self.last),
            })?;
        }
        Ok(rows)
    }

    /// The rows of the pairs, where all that the writer and the readers said is taken in, and these are the acts of the writer.
    pub(crate) fn rows(&self, acts: &[Placed<'_>]) -> Result<Vec<Row>, Memory>
        ensures counted { IfOk result (λ rows. length rows.items ≡ length self.now.accounts.items) }
        ensures rows { IfOk result (λ rows. (from : ℕ) (writer : GuidValue) (pairs : List PairValue) (asks : List AskValue) (recording : List (List values.ActValue))
            → 1 ≤ from → account.AreSaid writer recording pairs (map placed_spec.placed_value acts.now) asks
            → account.AllStand C.covered from writer pairs (map placed_spec.placed_value acts.now) asks self.now
            → account.AreRowsOf from recording pairs rows.items) }
    {
        let conflicts = PayloadConflicts::of(self.alloc, acts, self.questions())?;
        let rows = self.rows_by(&conflicts)?;
        Ok(rows)
    }
}
