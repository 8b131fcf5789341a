ghost use Rattle.std.specs.Prelude.{◌≡◌, find, slice_get, List, None};
ghost use Rattle.rtps_audit.specs.Placed as placed_spec;
ghost use Rattle.rtps_evidence.specs.Waits as waits_spec;

use crate::exchange::Exchange;
use crate::location::{Location, location_of, precedes};
use crate::questions::{asks_behind, place_of};
use crate::times::Times;
use rtps_audit::{Answer, Placed};
use std::marker::Model;

/// A wait that is not longer than this is not told.
const MOST_WAIT: u64 = 1_000_000_000;

/// How long a reader let a writer wait for an answer.
#[derive(Clone, Copy)]
pub struct Wait {
    pub nanoseconds: u64,
    /// Where the writer asks.
    pub asked: Location,
    /// Where the reader answers; None where the row ends first.
    pub answered: Option<Location>,
}

impl Wait {
    /// Whether it is longer than a second.
    fn is_told(&self) -> bool
        ensures { result ≡ waits_spec.is_told self.now }
    {
        MOST_WAIT < self.nanoseconds
    }
}

/// A wait, where there is one that is longer than a second.
fn told(wait: Option<Wait>) -> Option<Wait>
    ensures { result ≡ waits_spec.told_of wait }
{
    match wait {
        Some(wait) => { if wait.is_told() { Some(wait) } else { None } }
        None => None,
    }
}

/// The longer of two waits, where there are two; of equal ones the first.
fn longer(one: Option<Wait>, other: Option<Wait>) -> Option<Wait>
    ensures { result ≡ waits_spec.longer_of one other }
{
    match (one, other) {
        (Some(one), Some(other)) => {
            if one.nanoseconds < other.nanoseconds {
                Some(other)
            } else {
                Some(one)
            }
        }
        (Some(one), None) => Some(one),
        (None, other) => other,
    }
}

/// The first of these answers that stands behind a place, where those before this one do not.
fn pass_answers(answers: &[Answer], passed: usize, place: Location) -> usize
    requires { waits_spec.HasPassed answers.now passed place }
    ensures passed { waits_spec.HasPassed answers.now result place }
    ensures next { find (waits_spec.answers_behind place) answers.now ≡ slice_get answers.now result }
{
    for next in passed..answers.len() {
        if precedes(place, place_of(&answers[next])) {
            return next;
        }
    }
    answers.len()
}

/// A walk over the answers of a reader to a writer. It is seen as the list of them.
#[derive(Drop)]
struct AnswerWalk<'s> {
    answers: &'s [Answer],
    /// So many of them do not stand behind the place that was asked for at last.
    passed: usize,
    place: Location,
}

impl<'s> Model for AnswerWalk<'s> {
    ghost use Rattle.std.specs.Prelude.{List};
    ghost use Rattle.rtps_audit.specs.declared.answer.Answer.{Answer as AnswerValue};
    ghost use Rattle.rtps_evidence.specs.Waits as waits_spec;

    ghost Value = { List AnswerValue };

    ghost view = { λ walk. walk.answers.now };

    ghost invariant = { λ walk. waits_spec.HasPassed walk.answers.now walk.passed walk.place };
}

impl<'s> AnswerWalk<'s> {
    /// The walk stands in front of all answers.
    fn new(answers: &'s [Answer]) -> AnswerWalk<'s>
        ensures { result ≡ answers.now }
    {
        AnswerWalk {
            answers,
            passed: 0,
            place: Location { datagram: 0, at: 0 },
        }
    }

    /// Where the first answer behind a place stands. The walk goes on to it, where the place does not stand before the one
    /// that was asked for at last; else it begins anew.
    fn first_behind(&mut self, place: Location) -> Option<Location>
        ensures place { result ≡ waits_spec.answered_at place self.old }
        ensures same { self.new ≡ self.old }
    {
        let passed = if precedes(place, self.place) {
            0
        } else {
            self.passed
        };
        self.passed = pass_answers(self.answers, passed, place);
        self.place = place;
        if self.passed == self.answers.len() {
            return None;
        }
        Some(place_of(&self.answers[self.passed]))
    }
}

/// The wait from a place to that of the answer, or to the end where there is none. There is none where a time is wanting.
fn wait_between(
    times: &Times,
    end: Option<u64>,
    asked: Location,
    answered: Option<Location>,
) -> Option<Wait>
    ensures { result ≡ waits_spec.wait_between times.now.of_datagrams end asked answered }
{
    let since = times.of_datagram(asked.datagram)?;
    let until = match answered {
        Some(place) => times.of_datagram(place.datagram)?,
        None => end?,
    };
    Some(Wait {
        nanoseconds: until.saturating_sub(since),
        asked,
        answered,
    })
}

/// The longest that a reader let its writer wait, as far as a recording has come.
#[derive(Drop)]
pub(crate) struct Waiting<'s> {
    answers: AnswerWalk<'s>,
    longest: Option<Wait>,
}

impl<'s> Waiting<'s> {
    ghost use Rattle.std.specs.Prelude.{◌++◌, ◌∷◌, []};
    ghost use Rattle.rtps_evidence.specs.Heard as heard;

    /// Nothing was said, but for these answers of the reader.
    pub(crate) fn new(answers: &'s [Answer]) -> Waiting<'s>
        ensures answers { result.answers ≡ answers.now }
        ensures none { result.longest ≡ None }
    {
        Waiting {
            answers: AnswerWalk::new(answers),
            longest: None,
        }
    }

    /// The reader hears an act of the writer.
    pub(crate) fn hear(&mut self, placed: &Placed<'_>, exchange: &Exchange<'_, '_>)
        ensures { (acts : List placed_spec.PlacedValue) → heard.IsLongest exchange.now acts self.old → heard.IsLongest exchange.now (acts ++ placed_spec.placed_value placed.now ∷ []) self.new }
    {
        let listener = exchange.listener();
        if !asks_behind(placed, listener.pair, listener.since) {
            return;
        }
        let asked = location_of(placed);
        let answered = self.answers.first_behind(asked);
        let times = exchange.times;
        let end = times.end_until(exchange.span.until);
        self.longest = longer(self.longest, wait_between(times, end, asked, answered));
    }

    /// The longest wait, where it is longer than a second.
    pub(crate) fn told(&self) -> Option<Wait>
        ensures { result ≡ waits_spec.told_of self.now.longest }
    {
        told(self.longest)
    }
}
