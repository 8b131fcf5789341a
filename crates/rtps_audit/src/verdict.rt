ghost use Rattle.std.specs.Prelude.{◌≤◌, ◌<◌, ◌^◌};

use crate::answer::Answer;
use crate::first_asked::FirstAsked;
use crate::payload_conflict::PayloadConflicts;
use rtps_discovery::Pair;

/// What a recording says of one writer and one reader, by all runs of the reader (DDSI-RTPS 2.5, 8.4 "Behavior Module").
/// Where it says so of the numbers from some number on, `from`, smaller ones are not asked for; else `from` is 1.
#[derive(Clone, Copy, PartialEq, Eq, Debug)]
pub enum Verdict {
    /// The recording is not that of a conforming reader: this datagram, counted from 1, is the first that
    /// could not have been sent, and the number is the least from `from` on that it claims and no earlier datagram tells.
    Unfounded { datagram: u64, number: i64 },
    /// Two different payloads were spoken for the number, the least such from `from` on.
    Conflict { number: i64 },
    /// The reader may have missed the number, the least such from `from` to the last announced number.
    Open { number: i64 },
    /// The reader was told of each number from `from` to `last`, the last announced number; `last` is `from` - 1 where no
    /// number from there on is announced.
    Complete { last: i64 },
}

/// A number that an answer in a datagram, counted from 1, claims and no earlier datagram tells.
#[derive(Clone, Copy, Debug)]
pub(crate) struct Untold {
    pub(crate) datagram: u64,
    pub(crate) number: i64,
}

/// What answers claim so far.
#[derive(Clone, Copy, Debug)]
pub(crate) struct Claims {
    /// The first number that is asked for.
    pub(crate) from: u64,
    pub(crate) untold: Option<Untold>,
    /// The least number that is asked for and that no answer claims.
    pub(crate) base: u64,
    ghost in_range: { (1 ≤ from) × (from ≤ 2 ^ 63) × (base ≤ 2 ^ 63) },
}

impl Claims {
    ghost use Rattle.std.specs.Prelude.{ℕ, ◌≡◌, ◌-◌, ◌≤◌, ◌<◌, ◌^◌, ◌∷◌, ◌++◌, [], max, List, None, IfSome};
    ghost use Rattle.rtps_ids.specs.declared.identity.Guid.{Guid as GuidValue};
    ghost use Rattle.rtps_receiver.specs.Values as values;
    ghost use Rattle.rtps_audit.specs.Answered as answered;
    ghost use Rattle.rtps_audit.specs.Placed as placed;
    ghost use Rattle.rtps_audit.specs.RunVerdict as run_verdict;
    ghost use Rattle.rtps_audit.specs.Speech as speech;
    ghost use Rattle.rtps_audit.specs.Account as account;
    ghost use Rattle.rtps_audit.specs.declared.answer.Answer.{Answer as AnswerValue};

    /// Nothing is claimed. The numbers from `from` on are asked for.
    pub(crate) fn new(from: FirstAsked) -> Self
        ensures from { result.from ≡ from }
        ensures untold { result.untold ≡ None }
        ensures base { result.base ≡ from }
    {
        let from = from.get();
        Claims {
            from,
            untold: None,
            base: from,
        }
    }

    /// Notes an answer of this base in a datagram. The front is the least number that no earlier datagram tells. Where it is
    /// claimed, it is kept, unless one of the same or an earlier datagram is.
    fn note_base(&mut self, base: u64, datagram: u64, front: i64)
        requires { base < 2 ^ 63 }
        ensures from { self.new.from ≡ self.old.from }
        ensures untold { answered.FindsUntold self.old.untold self.new.untold datagram front base }
        ensures base { self.new.base ≡ max self.old.base base }
    {
        let is_first = match self.untold {
            None => true,
            Some(untold) => datagram < untold.datagram,
        };
        if is_first && front < base.cast_signed() {
            self.untold = Some(Untold {
                datagram,
                number: front,
            });
        }
        self.base = self.base.max(base);
    }

    /// Notes an answer more. The front is the least number that no datagram before that of the answer tells.
    pub(crate) fn note_answer(&mut self, answer: Answer, front: i64)
        ensures { (from : ℕ) (writer reader : GuidValue) (placed : List placed.PlacedValue) (answers : List AnswerValue)
            → answered.IsFrontBy from writer reader placed (answer.datagram - 1) front → account.AreClaimsOf from writer reader placed answers self.old
            → account.AreClaimsOf from writer reader placed (answers ++ answer ∷ []) self.new }
    {
        self.note_base(answer.natural_base(), answer.datagram as u64, front);
    }

    /// The verdict: the first of the four that holds, where this is the last number that is announced. The conflict is the
    /// least number that two payloads are spoken for.
    fn verdict(&self, conflict: Option<u64>, last: u64) -> Verdict
        requires conflict { IfSome conflict (λ n. n < 2 ^ 63) }
        requires last { last < 2 ^ 63 }
        ensures { result ≡ answered.verdict_by self.now.untold conflict self.now.base (max (self.now.from - 1) last) }
    {
        let last = last.max(self.from - 1);
        if let Some(untold) = self.untold {
            return Verdict::Unfounded {
                datagram: untold.datagram,
                number: untold.number,
            };
        }
        if let Some(number) = conflict {
            return Verdict::Conflict {
                number: number.cast_signed(),
            };
        }
        if self.base <= last {
            Verdict::Open {
                number: self.base.cast_signed(),
            }
        } else {
            Verdict::Complete {
                last: last.cast_signed(),
            }
        }
    }

    /// The verdict on a pair, where all its answers are noted, this is the last number that its writer announces, and these
    /// are the conflicts among the writer's payloads.
    pub(crate) fn verdict_on(
        &self,
        pair: Pair,
        conflicts: &PayloadConflicts<'_, '_>,
        last: u64,
    ) -> Verdict
        requires { last < 2 ^ 63 }
        ensures { (from : ℕ) (recording : List (List values.ActValue)) → 1 ≤ from → account.IsAllKnown from recording pair conflicts.now last self.now
            → run_verdict.IsVerdictFrom from (speech.speech_by pair.writer pair.reader recording) result }
    {
        self.verdict(conflicts.least_for(pair.reader), last)
    }
}
