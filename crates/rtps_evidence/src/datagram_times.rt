//! The times of datagrams, kept in 8 octets each.

ghost use Rattle.std.specs.Prelude.{◌≡◌, ◌<◌, [], length, slice_index_or, take, IfOk};
ghost use Rattle.rtps_evidence.specs.DatagramTimes as datagram_times;
ghost use Rattle.rtps_evidence.specs.Times as times_spec;

use rtps_ids::Memory;
use std::alloc::Global;
use std::marker::Model;

/// So many datagrams have one greatest time that is kept.
const BLOCK: usize = 1024;

/// What stands for no time.
const UNTIMED: u64 = u64::MAX;

/// The later of two times, where there are two.
pub(crate) fn later(one: Option<u64>, other: Option<u64>) -> Option<u64>
    ensures { result ≡ times_spec.later_of one other }
{
    match (one, other) {
        (Some(one), Some(other)) => Some(one.max(other)),
        (Some(one), None) => Some(one),
        (None, other) => other,
    }
}

/// The time that a number stands for.
fn time_kept(number: u64) -> Option<u64>
    ensures { result ≡ datagram_times.time_kept number }
{
    if number < UNTIMED { Some(number) } else { None }
}

/// The number that stands for a time. None where none does.
fn number_of(time: Option<u64>) -> Option<u64>
    ensures { result ≡ datagram_times.number_of time }
{
    match time {
        Some(time) => { if time < UNTIMED { Some(time) } else { None } }
        None => Some(UNTIMED),
    }
}

/// When datagrams came, in the order of sending.
#[derive(Drop)]
pub(crate) struct DatagramTimes {
    /// The numbers that stand for the times of the first ones.
    numbers: Vec<u64>,
    /// The times from the first one on for which no number stands.
    rest: Vec<Option<u64>>,
    /// The greatest of all times.
    latest: Option<u64>,
    /// The greatest of the times before each block.
    ends: Vec<Option<u64>>,
}

impl Model for DatagramTimes {
    ghost use Rattle.std.specs.Prelude.{ℕ, List, Option};
    ghost use Rattle.rtps_evidence.specs.DatagramTimes as datagram_times;
    ghost use Rattle.rtps_evidence.specs.Times as times_spec;

    ghost Value = { List (Option ℕ) };

    ghost view = { λ times. datagram_times.times_kept times.numbers.items times.rest.items };

    ghost invariant = { λ times. datagram_times.HasEnds (datagram_times.times_kept times.numbers.items times.rest.items) times.latest times.ends.items };
}

/// The greatest of all times, and of those before each block.
fn ends_of(alloc: Global, times: &[Option<u64>]) -> Result<(Option<u64>, Vec<Option<u64>>), Memory>
    ensures { IfOk result (λ ends. datagram_times.HasEnds times.now ends.0 ends.1.items) }
{
    let mut ends = Vec::new(alloc);
    let mut latest = None;
    let mut left = 0usize;
    for time in times {
        if left == 0 {
            ends.push(latest)?;
            left = BLOCK;
        }
        left -= 1;
        latest = later(latest, *time);
    }
    Ok((latest, ends))
}

/// Numbers that stand for the first of these times, as long as some do, and the times behind them.
fn kept_of(alloc: Global, times: &[Option<u64>]) -> Result<(Vec<u64>, Vec<Option<u64>>), Memory>
    ensures { IfOk result (λ kept. datagram_times.times_kept kept.0.items kept.1.items ≡ times.now) }
{
    let mut numbers = Vec::with_capacity(alloc, times.len())?;
    let mut rest = Vec::new(alloc);
    for time in times {
        match number_of(*time) {
            Some(number) if rest.is_empty() => numbers.push(number)?,
            _ => rest.push(*time)?,
        }
    }
    Ok((numbers, rest))
}

impl DatagramTimes {
    /// No datagram. It takes no memory.
    pub(crate) fn none(alloc: Global) -> DatagramTimes
        ensures { result ≡ [] }
    {
        DatagramTimes {
            numbers: Vec::new(alloc),
            rest: Vec::new(alloc),
            latest: None,
            ends: Vec::new(alloc),
        }
    }

    /// These times. `Memory` is answered where what is kept of them cannot grow.
    pub(crate) fn of(alloc: Global, times: &[Option<u64>]) -> Result<DatagramTimes, Memory>
        ensures { IfOk result (λ kept. kept ≡ times.now) }
    {
        let (numbers, rest) = kept_of(alloc, times)?;
        let (latest, ends) = ends_of(alloc, times)?;
        Ok(DatagramTimes {
            numbers,
            rest,
            latest,
            ends,
        })
    }

    /// How many datagrams there are.
    pub(crate) fn len(&self) -> usize
        ensures { result ≡ length self.now }
    {
        self.numbers.len() + self.rest.len()
    }

    /// The time of the datagram in this place, counted from 0. None past the last.
    pub(crate) fn at(&self, place: usize) -> Option<u64>
        ensures { result ≡ slice_index_or self.now place None }
    {
        if place < self.numbers.len() {
            return time_kept(self.numbers[place]);
        }
        match self.rest.get(place - self.numbers.len()) {
            Some(time) => *time,
            None => None,
        }
    }

    /// The greatest of the first `count` times, which are not all. It takes as many steps as a block has datagrams.
    fn end_before(&self, count: usize) -> Option<u64>
        requires { count < length self.now }
        ensures { result ≡ times_spec.end_of (take count self.now) }
    {
        let block = count / BLOCK;
        let mut latest = self.ends[block];
        for place in block * BLOCK..count {
            latest = later(latest, self.at(place));
        }
        latest
    }

    /// The greatest of the first `count` times, or of all where there are no more.
    pub(crate) fn end(&self, count: usize) -> Option<u64>
        ensures { result ≡ times_spec.end_of (take count self.now) }
    {
        if count < self.len() {
            self.end_before(count)
        } else {
            self.latest
        }
    }
}
