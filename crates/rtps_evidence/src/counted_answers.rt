ghost use Rattle.std.specs.Prelude.{◌≡◌, ◌+◌, ◌-◌, ◌<◌, ◌≤◌, ◌^◌, ◌++◌, ◌∷◌, [], true, if◌then◌else◌, map, filter, IfOk, OnOk, List};
ghost use Rattle.rtps_discovery.specs.declared.matching.Pair.{Pair as PairValue};
ghost use Rattle.rtps_receiver.specs.Speech as speech;
ghost use Rattle.rtps_receiver.specs.Values as values;
ghost use Rattle.rtps_audit.specs.Placed as placed_spec;
ghost use Rattle.rtps_evidence.specs.CountedAnswers as counted_answers;
ghost use Rattle.rtps_evidence.specs.LostAnswers as lost_answers;

use crate::location::{Location, location_of};
use rtps_audit::Placed;
use rtps_discovery::Pair;
use rtps_ids::Memory;
use rtps_receiver::{ActBody, SpokenBody};
use std::alloc::Global;

/// Counts of answers go round at this number.
const COUNTS: u64 = 1 << 32;

/// Where as many counts are left out, they go back.
const HALF_OF_COUNTS: u64 = 1 << 31;

/// An answer of a reader to a writer, with its count.
#[derive(Clone, Copy)]
pub(crate) struct CountedAnswer {
    pub(crate) place: Location,
    pub(crate) count: u32,
    /// In so many datagrams before its own the reader asks for fragments, and sends no ACKNACK.
    pub(crate) alone: u64,
}

/// In which datagrams a reader asks its writer for fragments and sends no ACKNACK, as far as its acts have come.
#[derive(Clone, Copy)]
struct FragmentRequests {
    /// The datagram of the last act.
    datagram: u64,
    /// A NACK_FRAG to the writer stands in it.
    asks: bool,
    /// An ACKNACK stands in it.
    answers: bool,
    /// So many datagrams before it are such.
    alone: u64,
}

/// The count of an ACKNACK; 0 of another act.
fn count_of(body: &SpokenBody<'_>) -> u32
    ensures { result ≡ lost_answers.count_of (values.spoken_body_value body.now) }
{
    match body {
        SpokenBody::Act(ActBody::AckNack(ack_nack)) => ack_nack.count,
        SpokenBody::Act(ActBody::Data(_)) => 0,
        SpokenBody::Act(ActBody::Heartbeat(_)) => 0,
        SpokenBody::Act(ActBody::Gap(_)) => 0,
        SpokenBody::DataFrag(_) => 0,
        SpokenBody::NackFrag(_) => 0,
    }
}

/// Whether an act is an ACKNACK.
fn is_ack_nack(body: &SpokenBody<'_>) -> bool
    ensures { result ≡ speech.is_ack_nack (values.spoken_body_value body.now) }
{
    matches!(body, SpokenBody::Act(ActBody::AckNack(_)))
}

/// Whether an act is a NACK_FRAG of the pair's reader to its writer.
fn asks_for_fragments(placed: &Placed<'_>, pair: Pair) -> bool
    ensures { result ≡ lost_answers.asks_for_fragments pair.writer pair.reader (placed_spec.placed_value placed.now) }
{
    placed.act.asks(pair.reader, pair.writer) && !is_ack_nack(&placed.act.body)
}

impl FragmentRequests {
    /// The reader said nothing yet.
    #[tactic(auto, using(crate::proofs::CountedLemmas::none_requested))]
    fn none() -> FragmentRequests
        ensures { (pair : PairValue) → counted_answers.AreRequests pair [] result }
    {
        FragmentRequests {
            datagram: 0,
            asks: false,
            answers: false,
            alone: 0,
        }
    }

    /// How many datagrams up to that of the last act are such, where that ends with it.
    fn ended(&self) -> u64
        ensures { self.now.alone + 1 < 2 ^ 64 → result ≡ counted_answers.with_alone self.now.asks self.now.answers self.now.alone }
    {
        if self.asks && !self.answers {
            self.alone.saturating_add(1)
        } else {
            self.alone
        }
    }

    /// The same with the next act of the reader.
    fn with(&self, placed: &Placed<'_>, pair: Pair) -> FragmentRequests
        ensures { (acts : List placed_spec.PlacedValue) → self.now.datagram ≤ placed.now.datagram → placed_spec.is_from pair.reader (placed_spec.placed_value placed.now) ≡ true
            → counted_answers.AreRequests pair acts self.now → counted_answers.AreRequests pair (acts ++ placed_spec.placed_value placed.now ∷ []) result }
    {
        let datagram = placed.datagram as u64;
        let asks = asks_for_fragments(placed, pair);
        let answers = is_ack_nack(&placed.act.body);
        if datagram == self.datagram {
            return FragmentRequests {
                datagram,
                asks: self.asks | asks,
                answers: self.answers | answers,
                alone: self.alone,
            };
        }
        FragmentRequests {
            datagram,
            asks,
            answers,
            alone: self.ended(),
        }
    }
}

/// An answer of the pair's reader, where so many datagrams before its own ask for fragments alone.
fn counted_at(placed: &Placed<'_>, alone: u64) -> CountedAnswer
    ensures { result ≡ counted_answers.counted_with alone (placed_spec.placed_value placed.now) }
{
    CountedAnswer {
        place: location_of(placed),
        count: count_of(&placed.act.body),
        alone,
    }
}

/// Appends the answer that an act of the pair's reader is, if it answers its writer. After `Memory` the answers are of no use.
fn push_answer(
    counted: &mut Vec<CountedAnswer>,
    placed: &Placed<'_>,
    pair: Pair,
    alone: u64,
) -> Result<(), Memory>
    ensures { OnOk result (counted.new.items
        ≡ counted.old.items ++ (if lost_answers.answers pair.writer pair.reader (placed_spec.placed_value placed.now) then counted_answers.counted_with alone (placed_spec.placed_value placed.now) ∷ [] else [])) }
{
    if placed.act.answers(pair.reader, pair.writer) {
        counted.push(counted_at(placed, alone))?;
    }
    Ok(())
}

/// The answers of the pair's reader to its writer among the acts of the reader.
pub(crate) fn counted_answers(
    alloc: Global,
    acts: &[Placed<'_>],
    pair: Pair,
) -> Result<Vec<CountedAnswer>, Memory>
    ensures { (recording : List (List values.ActValue)) → map placed_spec.placed_value acts.now ≡ filter (placed_spec.is_from pair.reader) (placed_spec.placed_in recording)
        → IfOk result (λ counted. counted.items ≡ counted_answers.counted_among pair (map placed_spec.placed_value acts.now)) }
{
    let mut counted = Vec::new(alloc);
    let mut requests = FragmentRequests::none();
    for placed in acts {
        requests = requests.with(placed, pair);
        push_answer(&mut counted, placed, pair, requests.alone)?;
    }
    Ok(counted)
}

/// How many counts are left out between one and another behind it.
fn left_out(one: u32, other: u32) -> u64
    ensures { result ≡ lost_answers.left_out one other }
{
    (other as u64 + (COUNTS - 1) - one as u64) % COUNTS
}

/// Whether so many counts are left out that an answer lacks, where there are so many datagrams in between that ask for fragments alone.
pub(crate) fn lacks_between(one: &CountedAnswer, other: &CountedAnswer) -> bool
    ensures { result ≡ lost_answers.is_more (other.now.alone - one.now.alone) (lost_answers.left_out one.now.count other.now.count) }
{
    let left = left_out(one.count, other.count);
    other.alone.saturating_sub(one.alone) < left && left < HALF_OF_COUNTS
}
