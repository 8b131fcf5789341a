ghost use Rattle.std.specs.Prelude.{◌≡◌, find, slice_get, take, filter, map, IfOk, List, None};
ghost use Rattle.std.specs.List.{last_or};
ghost use Rattle.rtps_receiver.specs.Values as values;
ghost use Rattle.rtps_audit.specs.Placed as placed;
ghost use Rattle.rtps_evidence.specs.CountedAnswers as counted_answers_spec;

use crate::counted_answers::{CountedAnswer, counted_answers, lacks_between};
use crate::location::{Location, precedes};
use rtps_audit::Placed;
use rtps_discovery::Pair;
use rtps_ids::Memory;
use std::alloc::Global;
use std::marker::Model;

/// The first of these answers that stands behind a place, where those before this one do not.
fn pass_counted(answers: &[CountedAnswer], passed: usize, place: Location) -> usize
    requires { counted_answers_spec.HasPassedCounted answers.now passed place }
    ensures passed { counted_answers_spec.HasPassedCounted answers.now result place }
    ensures next { find (counted_answers_spec.stands_behind place) answers.now ≡ slice_get answers.now result }
{
    for next in passed..answers.len() {
        if precedes(place, answers[next].place) {
            return next;
        }
    }
    answers.len()
}

/// Whether an answer lacks between this one and the one in front of it, where there are both.
#[tactic(auto, using(crate::proofs::LackLemmas::none_in_front_of, crate::proofs::LackLemmas::none_at, crate::proofs::LackLemmas::both_at))]
fn lacks_before(answers: &[CountedAnswer], next: usize) -> bool
    ensures { result ≡ counted_answers_spec.lacks_counted (last_or None (take next answers.now)) (slice_get answers.now next) }
{
    if next == 0 || answers.len() <= next {
        return false;
    }
    lacks_between(&answers[next - 1], &answers[next])
}

/// A walk over the answers of a reader to a writer, which tells where one lacks. It is seen as the list of them.
#[derive(Drop)]
pub(crate) struct LostAnswers {
    answers: Vec<CountedAnswer>,
    /// So many of them do not stand behind the place that was asked for at last.
    passed: usize,
    place: Location,
}

impl Model for LostAnswers {
    ghost use Rattle.std.specs.Prelude.{List};
    ghost use Rattle.rtps_evidence.specs.declared.counted_answers.CountedAnswer.{CountedAnswer as CountedValue};
    ghost use Rattle.rtps_evidence.specs.CountedAnswers as counted_answers_spec;

    ghost Value = { List CountedValue };

    ghost view = { λ lost. lost.answers.items };

    ghost invariant = { λ lost. counted_answers_spec.HasPassedCounted lost.answers.items lost.passed lost.place };
}

impl LostAnswers {
    /// The walk over those of a pair among the acts of its reader. It stands in front of all.
    pub(crate) fn of(alloc: Global, acts: &[Placed<'_>], pair: Pair) -> Result<LostAnswers, Memory>
        ensures { (recording : List (List values.ActValue)) → map placed.placed_value acts.now ≡ filter (placed.is_from pair.reader) (placed.placed_in recording)
            → IfOk result (λ lost. lost ≡ counted_answers_spec.counted_among pair (map placed.placed_value acts.now)) }
    {
        Ok(LostAnswers {
            answers: counted_answers(alloc, acts, pair)?,
            passed: 0,
            place: Location { datagram: 0, at: 0 },
        })
    }

    /// Whether an answer lacks around a place: between the first one behind it and the one in front of that. The walk goes on to it, where the
    /// place does not stand before the one that was asked for at last; else it begins anew.
    pub(crate) fn lacks_around(&mut self, place: Location) -> bool
        ensures lacks { result ≡ counted_answers_spec.lacks_among self.old place }
        ensures same { self.new ≡ self.old }
    {
        let passed = if precedes(place, self.place) {
            0
        } else {
            self.passed
        };
        self.passed = pass_counted(&self.answers, passed, place);
        self.place = place;
        lacks_before(&self.answers, self.passed)
    }
}
