ghost use Rattle.std.specs.Prelude.{◌≡◌, ◌≤◌, ◌<◌, [], ◌∷◌, cond, length, map, Some, None, All, IfOk, IfSome, MatchOption, OnOk};
ghost use Rattle.std.specs.List.{slice_range};
ghost use Rattle.std.specs.Ordering.{is_eq};
ghost use Rattle.rtps_receiver.specs.Speech as speech;
ghost use Rattle.rtps_discovery.specs.Listings as listings;
ghost use Rattle.rtps_discovery.specs.declared.matching.Pair.{Pair as PairValue};
ghost use Rattle.rtps_receiver.specs.Values as values;
ghost use Rattle.rtps_audit.specs.Placed as placed;

use crate::groups::Groups;
use crate::placed::run_end;
use rtps_discovery::Pair;
use rtps_ids::{Guid, Memory};
use rtps_receiver::{ActBody, Spoken, SpokenBody};
use std::alloc::Global;
use std::collections::BTreeMap;

/// An answer of a reader to a writer: the datagram that it stands in, counted from 1, the place of its first octet there,
/// from 0, and its base, by which the reader claims each number below it.
#[derive(Clone, Copy, PartialEq, Eq, Debug)]
pub struct Answer {
    pub datagram: usize,
    pub at: usize,
    pub base: i64,
}

impl Answer {
    ghost use Rattle.std.specs.Prelude.{◌<◌, ◌^◌};
    ghost use Rattle.rtps_receiver.specs.Said as said;

    /// The base as a number; 0 for one below it.
    pub fn natural_base(&self) -> u64
        ensures value { result ≡ said.natural self.now.base }
        ensures in_range { result < 2 ^ 63 }
    {
        self.base.max(0).cast_unsigned()
    }
}

/// Answers by pair: of each reader those to each writer. A reader answers many writers in one datagram, so its answers
/// stand near one another.
#[derive(Drop)]
pub(crate) struct Answers {
    pub(crate) readers: BTreeMap<Guid, Groups<Guid, Answer>>,
    alloc: Global,
}

impl Answers {
    ghost use Rattle.std.specs.Prelude.{◌≡◌, [], map, All, OnOk};
    ghost use Rattle.rtps_discovery.specs.declared.matching.Pair.{Pair as PairValue};

    /// No answers.
    pub(crate) fn new(alloc: Global) -> Self
        ensures { (pair : PairValue) → placed.answers_kept result.readers pair ≡ [] }
    {
        Answers {
            readers: BTreeMap::new(alloc),
            alloc,
        }
    }

    /// Adds the answers among acts of a reader in a datagram. After `Memory` the answers are of no use.
    fn note_run(&mut self, reader: Guid, datagram: usize, run: &[Spoken<'_>]) -> Result<(), Memory>
        requires { All (λ act. speech.origin_of (values.spoken_value act) ≡ reader) run.now }
        ensures { OnOk result (placed.AddsAnswers self.old.readers self.new.readers (placed.placed_at datagram (map values.spoken_value run.now))) }
    {
        let found = self
            .readers
            .entry(reader)?
            .or_insert(Groups::new(self.alloc));
        note_answers_of(found, reader, datagram, run)?;
        Ok(())
    }

    /// The answers of a pair, in the order in which they came.
    pub(crate) fn of(&self, pair: Pair) -> &[Answer]
        ensures { result.now ≡ placed.answers_kept self.now.readers pair }
    {
        match self.readers.get(&pair.reader) {
            Some(answers) => answers.of(pair.writer),
            None => &[],
        }
    }
}

/// The answer that an act of a datagram is, and the pair that it is of. None where the act answers nobody.
pub fn answer_in(datagram: usize, act: &Spoken<'_>) -> Option<(Pair, Answer)>
    ensures answer { MatchOption result
        ((pair : PairValue) → placed.answer_of pair (record { datagram = datagram; act = values.spoken_value act.now }) ≡ None)
        (λ found. (pair : PairValue) → placed.answer_of pair (record { datagram = datagram; act = values.spoken_value act.now })
        ≡ cond (is_eq (listings.pair_cmp pair found.0)) (Some found.1) None) }
    ensures reader { IfSome result (λ found. found.0.reader ≡ speech.origin_of (values.spoken_value act.now)) }
{
    let SpokenBody::Act(ActBody::AckNack(ack_nack)) = &act.body else {
        return None;
    };
    let pair = Pair {
        writer: act.answered()?,
        reader: act.origin(),
    };
    let answer = Answer {
        datagram,
        at: act.at,
        base: ack_nack.set.base(),
    };
    Some((pair, answer))
}

/// Adds the answer that an act of a datagram is, if it is one, to those of its reader. After `Memory` they are of no use.
fn note_answer(
    answers: &mut Groups<Guid, Answer>,
    datagram: usize,
    act: &Spoken<'_>,
) -> Result<(), Memory>
    ensures { OnOk result (placed.AddsAnswersOf (speech.origin_of (values.spoken_value act.now)) answers.old.map answers.new.map
        (placed.placed_at datagram (values.spoken_value act.now ∷ []))) }
{
    if let Some((pair, answer)) = answer_in(datagram, act) {
        answers.push(pair.writer, answer)?;
    }
    Ok(())
}

/// Adds the answers among acts of a reader in a datagram to those of the reader. After `Memory` they are of no use.
fn note_answers_of(
    answers: &mut Groups<Guid, Answer>,
    reader: Guid,
    datagram: usize,
    run: &[Spoken<'_>],
) -> Result<(), Memory>
    requires { All (λ act. speech.origin_of (values.spoken_value act) ≡ reader) run.now }
    ensures { OnOk result (placed.AddsAnswersOf reader answers.old.map answers.new.map (placed.placed_at datagram (map values.spoken_value run.now))) }
{
    for act in run {
        note_answer(answers, datagram, act)?;
    }
    Ok(())
}

/// Adds the answers among the acts from this place on that are from one GUID, and says where these end. An act that is
/// no answer is passed alone. After `Memory` the answers are of no use.
fn note_next(
    answers: &mut Answers,
    datagram: usize,
    acts: &[Spoken<'_>],
    start: usize,
) -> Result<usize, Memory>
    requires { start < length acts.now }
    ensures end { IfOk result (λ end. (start < end) × (end ≤ length acts.now)) }
    ensures added { IfOk result (λ end. placed.AddsAnswers answers.old.readers answers.new.readers
        (placed.placed_at datagram (map values.spoken_value (slice_range acts.now start end)))) }
{
    let Some((pair, _)) = answer_in(datagram, &acts[start]) else {
        return Ok(start + 1);
    };
    let end = run_end(acts, start + 1, pair.reader);
    answers.note_run(pair.reader, datagram, &acts[start..end])?;
    Ok(end)
}

/// Adds the answers among the acts of a datagram. Those of one reader that follow one another are added at once. After
/// `Memory` the answers are of no use.
pub(crate) fn note_answers(
    answers: &mut Answers,
    datagram: usize,
    acts: &[Spoken<'_>],
) -> Result<(), Memory>
    ensures { OnOk result (placed.AddsAnswers answers.old.readers answers.new.readers (placed.placed_at datagram (map values.spoken_value acts.now))) }
{
    let mut start = 0;
    'runs: while start < acts.len() {
        start = note_next(answers, datagram, acts, start)?;
    }
    Ok(())
}
