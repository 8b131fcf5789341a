use crate::answer::Answer;
use crate::first_asked::FirstAsked;
use crate::verdict::Claims;
use crate::word::{add_range, add_told};
use rtps_coverage::Coverage;
use rtps_discovery::Pair;
use rtps_ids::Memory;
use rtps_receiver::{SaidNumbers, Spoken};
use std::alloc::Global;

/// What one reader has of one writer, as far as a recording has come: what it was told, and what its answers claim.
///
/// What a datagram tells counts only for answers in later ones. So of each datagram the answers are noted first.
#[derive(Drop)]
pub(crate) struct Account<C> {
    pub(crate) pair: Pair,
    /// The numbers that the reader was told of, and all that are not asked for.
    pub(crate) told: C,
    pub(crate) claims: Claims,
}

impl<C: Coverage> Account<C> {
    ghost use Rattle.std.specs.Prelude.{ℕ, ◌≡◌, ◌≤◌, ◌<◌, ◌++◌, ◌∷◌, [], true, List, IfOk, OnOk};
    ghost use Rattle.std.specs.List.{All};
    ghost use Rattle.rtps_ids.specs.declared.identity.Guid.{Guid as GuidValue};
    ghost use Rattle.rtps_receiver.specs.Said as said_spec;
    ghost use Rattle.rtps_receiver.specs.Values as values;
    ghost use Rattle.rtps_audit.specs.Account as account_spec;
    ghost use Rattle.rtps_audit.specs.Placed as placed;
    ghost use Rattle.rtps_audit.specs.declared.answer.Answer.{Answer as AnswerValue};

    /// Before all datagrams. The numbers from `from` on are asked for.
    pub(crate) fn new(alloc: Global, pair: Pair, from: FirstAsked) -> Result<Self, Memory>
        ensures pair { IfOk result (λ account. account.pair ≡ pair) }
        ensures stands { IfOk result (λ account. (writer : GuidValue) → account_spec.Stands C.covered from writer [] [] account) }
    {
        let mut told = C::empty(alloc);
        add_range(&mut told, 1, from.get())?;
        Ok(Account {
            pair,
            told,
            claims: Claims::new(from),
        })
    }

    /// Notes an answer of the reader, where all acts in earlier datagrams are heard and none in that of the answer.
    pub(crate) fn note(&mut self, answer: Answer)
        ensures pair { self.new.pair ≡ self.old.pair }
        ensures told { self.new.told ≡ self.old.told }
        ensures stands { (from : ℕ) (writer : GuidValue) (placed : List placed.PlacedValue) (answers : List AnswerValue)
            → 1 ≤ answer.datagram → All (λ at. at.datagram < answer.datagram) placed
            → account_spec.Stands C.covered from writer placed answers self.old
            → account_spec.Stands C.covered from writer placed (answers ++ answer ∷ []) self.new }
    {
        let front = self.told.front();
        self.claims.note_answer(answer, front);
    }

    /// Whether an act that says this has a payload of a number that the reader was told of.
    fn had_payload_of(&self, said: &SaidNumbers<'_, '_>) -> bool
        ensures { (act : values.ActValue) (n : ℕ) → said_spec.Says (said_spec.said act.body) said.now → account_spec.ComesAgain C.covered act self.now n → result ≡ true }
    {
        match said.told {
            Some(number) => self.told.covers(number.cast_signed()),
            None => false,
        }
    }

    /// Tells the reader what an act of the writer says, if it hears it. The result is whether it is told the payload of a
    /// number that it was told of before. After `Memory` the account is of no use.
    pub(crate) fn hear(
        &mut self,
        act: &Spoken<'_>,
        said: &SaidNumbers<'_, '_>,
    ) -> Result<bool, Memory>
        requires { said_spec.Says (said_spec.said (values.spoken_value act.now).body) said.now }
        ensures heard { OnOk result (account_spec.Hears C.covered (values.spoken_value act.now) self.old self.new) }
        ensures again { IfOk result (λ again. (n : ℕ) → account_spec.ComesAgain C.covered (values.spoken_value act.now) self.old n → again ≡ true) }
    {
        if !act.heard_by(self.pair.reader) {
            return Ok(false);
        }
        let again = self.had_payload_of(said);
        add_told(&mut self.told, said)?;
        Ok(again)
    }
}
