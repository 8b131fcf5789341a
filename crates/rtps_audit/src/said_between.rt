ghost use Rattle.std.specs.Prelude.{◌≡◌, ◌<◌, ◌≤◌, filter, length, nat_lt, slice_index_or, take};
ghost use Rattle.rtps_audit.specs.declared.answer.Answer.{Answer as AnswerValue};
ghost use Rattle.rtps_audit.specs.declared.placed.Placed.{Placed as PlacedAct};

use crate::answer::Answer;
use crate::first_asked::FirstAsked;
use crate::front_ranges::FrontRanges;
use crate::index::Index;
use crate::judging::judge_said;
use crate::placed::Placed;
use crate::verdict::Verdict;
use rtps_discovery::Pair;
use rtps_ids::Memory;
use std::alloc::Global;

/// What a writer and a reader said in a recording, or in its first datagrams: the acts of the writer, the answers, and the acts of
/// the reader.
#[derive(Clone, Copy, Debug)]
pub struct Said<'r, 'a> {
    pub acts: &'r [Placed<'a>],
    pub answers: &'r [Answer],
    pub asks: &'r [Placed<'a>],
}

/// Whether an act stands before a datagram.
fn is_act_before(placed: &Placed<'_>, datagram: u64) -> bool
    ensures { result ≡ nat_lt placed.now.datagram datagram }
{
    (placed.datagram as u64) < datagram
}

/// Whether an answer does.
fn is_answer_before(answer: &Answer, datagram: u64) -> bool
    ensures { result ≡ nat_lt answer.now.datagram datagram }
{
    (answer.datagram as u64) < datagram
}

/// How many of these acts come up to the first one that does not stand before a datagram.
fn acts_before(acts: &[Placed<'_>], datagram: u64) -> usize
    ensures within { result ≤ length acts.now }
    ensures kept { filter (λ at. nat_lt at.datagram datagram) (take result acts.now) ≡ take result acts.now }
    ensures next { (d : PlacedAct) → result < length acts.now → datagram ≤ (slice_index_or acts.now result d).datagram }
{
    for place in 0..acts.len() {
        if !is_act_before(&acts[place], datagram) {
            return place;
        }
    }
    acts.len()
}

/// How many of these answers come up to the first one that does not stand before a datagram.
fn answers_before(answers: &[Answer], datagram: u64) -> usize
    ensures within { result ≤ length answers.now }
    ensures kept { filter (λ at. nat_lt at.datagram datagram) (take result answers.now) ≡ take result answers.now }
    ensures next { (d : AnswerValue) → result < length answers.now → datagram ≤ (slice_index_or answers.now result d).datagram }
{
    for place in 0..answers.len() {
        if !is_answer_before(&answers[place], datagram) {
            return place;
        }
    }
    answers.len()
}

impl<'r, 'a> Said<'r, 'a> {
    ghost use Rattle.rtps_audit.specs.Index as index_spec;
    ghost use Rattle.rtps_audit.specs.Intake as intake;
    ghost use Rattle.std.specs.Prelude.{IfOk, List};
    ghost use Rattle.rtps_receiver.specs.Values as values;
    ghost use Rattle.rtps_audit.specs.Delivered as delivered;
    ghost use Rattle.rtps_audit.specs.Said as said;
    ghost use Rattle.rtps_audit.specs.Speech as speech;

    /// What a pair said in the datagrams before this one, which is counted from 1; in all, where there is none. It takes no memory.
    pub fn until(index: &'r Index<'a>, pair: Pair, until: Option<u64>) -> Said<'r, 'a>
        ensures { (intake : intake.Intake) → index_spec.IsIndexBy intake index.now → said.IsSaid pair (said.datagrams_until until intake.acts) result }
    {
        let acts = index.acts_of(pair.writer);
        let answers = index.answers_of(pair);
        let asks = index.acts_of(pair.reader);
        match until {
            Some(datagram) => Said {
                acts: &acts[..acts_before(acts, datagram)],
                answers: &answers[..answers_before(answers, datagram)],
                asks: &asks[..acts_before(asks, datagram)],
            },
            None => Said {
                acts,
                answers,
                asks,
            },
        }
    }

    /// Judges what the pair said, of the writer's numbers from `from` on, as [`Index::judge_from`] does. `Memory` is answered where what is
    /// kept of that cannot grow.
    pub fn judge_from(&self, alloc: Global, pair: Pair, from: FirstAsked) -> Result<Verdict, Memory>
        ensures { (recording : List (List values.ActValue)) → said.IsSaid pair recording self.now
            → IfOk result (delivered.IsExactVerdictFrom from (speech.speech_by pair.writer pair.reader recording)) }
    {
        judge_said::<FrontRanges>(alloc, self, pair, from)
    }
}
