ghost use Rattle.std.specs.Prelude.{◌≡◌, IfOk, OnOk, map};
ghost use Rattle.rtps_report.specs.BestEfforts as best_efforts;

use rtps_discovery::Pair;
use rtps_evidence::{Arrived, ArrivedNumbers, Recorded};
use rtps_ids::Memory;
use std::alloc::Global;

/// A pair of best effort, and what the recording has of it.
#[derive(Clone, Copy)]
pub(crate) struct Counted<'a> {
    pub(crate) topic: &'a [u8],
    pub(crate) pair: Pair,
    pub(crate) recorded: Recorded,
    /// What another recording has of it.
    pub(crate) arrived: Arrived,
}

/// A pair of best effort that is held against another recording.
#[derive(Clone, Copy)]
pub struct HeldPair<'a> {
    pub topic: &'a [u8],
    pub pair: Pair,
    /// How many numbers its writer sent, from the first one of the pair on.
    pub numbers: u64,
    /// What arrived of them by the other recording.
    pub arrived: ArrivedNumbers,
}

/// Pairs of best effort, those of a topic or all: how many numbers their writers sent, and how many of them came to their readers.
#[derive(Clone, Copy)]
pub struct BestEffort<'a> {
    pub topic: &'a [u8],
    pub pairs: u64,
    pub numbers: u128,
    /// How many of them the recording has for the readers. In sums of pairs that are held, how many arrived by the other recording.
    pub recorded: u128,
}

/// The same without their topic.
#[derive(Clone, Copy)]
pub struct BestEffortNumbers {
    pub pairs: u64,
    pub numbers: u128,
    pub recorded: u128,
}

impl BestEffort<'_> {
    /// How many pairs there are, how many numbers they have, and how many of these are recorded.
    pub fn told(&self) -> BestEffortNumbers
        ensures { result ≡ best_efforts.numbers_told (best_efforts.best_effort_value self.now) }
    {
        BestEffortNumbers {
            pairs: self.pairs,
            numbers: self.numbers,
            recorded: self.recorded,
        }
    }
}

/// One pair more.
fn with_counted<'a>(sum: BestEffort<'a>, one: &Counted<'a>) -> BestEffort<'a>
    requires { best_efforts.IsWithin (best_efforts.best_effort_value sum) }
    ensures sum { best_efforts.best_effort_value result ≡ best_efforts.with_counted (best_efforts.best_effort_value sum.entry) (best_efforts.counted_value one.now) }
    ensures small { best_efforts.IsSmall (best_efforts.counted_value one.now) }
{
    BestEffort {
        topic: sum.topic,
        pairs: sum.pairs + 1,
        numbers: sum.numbers + u128::from(one.recorded.numbers),
        recorded: sum.recorded + u128::from(one.recorded.recorded),
    }
}

/// The sums of a topic of which no pair is counted.
fn no_pairs(topic: &[u8]) -> BestEffort<'_>
    ensures { best_efforts.best_effort_value result ≡ record { topic = topic.now; pairs = 0; numbers = 0; recorded = 0 } }
{
    BestEffort {
        topic,
        pairs: 0,
        numbers: 0,
        recorded: 0,
    }
}

/// Adds a pair to the last of these topics where it is of that, and else to one of its own.
fn add_counted<'a>(sums: &mut Vec<BestEffort<'a>>, one: &Counted<'a>) -> Result<(), Memory>
    requires { best_efforts.AreWithin (map best_efforts.best_effort_value sums.old.items) }
    ensures added { OnOk result (map best_efforts.best_effort_value sums.new.items ≡ best_efforts.added_to (map best_efforts.best_effort_value sums.old.items) (best_efforts.counted_value one.now)) }
    ensures small { OnOk result (best_efforts.IsSmall (best_efforts.counted_value one.now)) }
{
    let Some(last) = sums.pop() else {
        sums.push(with_counted(no_pairs(one.topic), one))?;
        return Ok(());
    };
    if one.topic == last.topic {
        sums.push(with_counted(last, one))?;
        return Ok(());
    }
    sums.push(last)?;
    sums.push(with_counted(no_pairs(one.topic), one))?;
    Ok(())
}

/// The sums of all these pairs.
pub(crate) fn total_of(counted: &[Counted<'_>]) -> BestEffort<'static>
    ensures { best_efforts.best_effort_value result ≡ best_efforts.total_of (map best_efforts.counted_value counted.now) }
{
    let mut total = no_pairs(&[]);
    for one in counted {
        total = BestEffort {
            topic: &[],
            pairs: total.pairs + 1,
            numbers: total.numbers + u128::from(one.recorded.numbers),
            recorded: total.recorded + u128::from(one.recorded.recorded),
        };
    }
    total
}

/// The pairs by topic, octet by octet.
pub(crate) fn sums_of<'a>(
    alloc: Global,
    counted: &mut Vec<Counted<'a>>,
) -> Result<Vec<BestEffort<'a>>, Memory>
    ensures { IfOk result (λ sums. best_efforts.AreSumsOf (map best_efforts.counted_value counted.old.items) (map best_efforts.best_effort_value sums.items)) }
{
    counted.sort_by_key(|one| one.topic)?;
    let mut sums = Vec::new(alloc);
    for one in counted.as_slice() {
        add_counted(&mut sums, one)?;
    }
    Ok(sums)
}

/// Those of these pairs that are held.
pub(crate) fn held_among<'a>(
    alloc: Global,
    counted: &[Counted<'a>],
) -> Result<Vec<HeldPair<'a>>, Memory>
    ensures { IfOk result (λ held. map best_efforts.held_value held.items ≡ best_efforts.held_among (map best_efforts.counted_value counted.now)) }
{
    let mut held = Vec::new(alloc);
    for one in counted {
        if let Some(arrived) = one.arrived.numbers {
            held.push(HeldPair {
                topic: one.topic,
                pair: one.pair,
                numbers: one.recorded.numbers,
                arrived,
            })?;
        }
    }
    Ok(held)
}

/// Those of these pairs that are held, each counted by what arrived of its numbers.
pub(crate) fn arrived_among<'a>(
    alloc: Global,
    counted: &[Counted<'a>],
) -> Result<Vec<Counted<'a>>, Memory>
    ensures { IfOk result (λ held. map best_efforts.counted_value held.items ≡ best_efforts.arrived_among (map best_efforts.counted_value counted.now)) }
{
    let mut held = Vec::new(alloc);
    for one in counted {
        if let Some(arrived) = one.arrived.numbers {
            let recorded = Recorded {
                numbers: one.recorded.numbers,
                recorded: arrived.arrived,
            };
            held.push(Counted { recorded, ..*one })?;
        }
    }
    Ok(held)
}
