ghost use Rattle.std.specs.Prelude.{◌≡◌, take, IfOk};
ghost use Rattle.rtps_audit.specs.Said as said;
ghost use Rattle.rtps_evidence.specs.Times as times_spec;

use crate::datagram_times::{DatagramTimes, later};
use crate::frame_numbers::FrameNumbers;
use rtps_ids::Memory;
use std::alloc::Global;
use std::marker::Model;

/// How many nanoseconds a millisecond has.
const MILLISECOND: u64 = 1_000_000;

/// How many nanoseconds are long between a question and the end of what is asked about: 100 ms.
const LONG: u64 = 100_000_000;

/// A time as it is said, in milliseconds: cut off towards zero, with its sign. 0 has none.
#[derive(Clone, Copy)]
pub struct Seconds {
    pub negative: bool,
    pub milliseconds: u64,
}

impl Seconds {
    /// So many nanoseconds, as they are said.
    pub fn of(nanoseconds: u64) -> Seconds
        ensures { result ≡ times_spec.seconds_of nanoseconds }
    {
        Seconds {
            negative: false,
            milliseconds: nanoseconds / MILLISECOND,
        }
    }

    /// How long behind the start a time is, as it is said.
    pub fn between(start: u64, time: u64) -> Seconds
        ensures { result ≡ times_spec.seconds_between start time }
    {
        let milliseconds = time.abs_diff(start) / MILLISECOND;
        Seconds {
            negative: time < start && 0 < milliseconds,
            milliseconds,
        }
    }
}

/// When the datagrams of a capture came, in nanoseconds since 1970 began.
#[derive(Drop)]
pub struct Times {
    /// The time of the first frame of the capture that has one, whether it gave a datagram or not.
    start: Option<u64>,
    /// The greatest time of a frame of the capture, whether it gave a datagram or not.
    end: Option<u64>,
    /// The time of each datagram. There are none of a text.
    of_datagrams: DatagramTimes,
    /// The number of the frame that gave or completed each datagram, counted from 1. There are none of a text.
    frames: FrameNumbers,
}

impl Model for Times {
    ghost use Rattle.rtps_evidence.specs.Times as times_spec;

    ghost Value = { times_spec.TimesValue };

    ghost view = { λ times. record { start = times.start; end = times.end; of_datagrams = times.of_datagrams; frames = times.frames } };
}

/// By how much a time is before an earlier one, where there are both.
fn back(earlier: Option<u64>, time: Option<u64>) -> u64
    ensures { result ≡ times_spec.back_from earlier time }
{
    match (earlier, time) {
        (Some(earlier), Some(time)) => earlier.saturating_sub(time),
        (Some(_), None) => 0,
        (None, _) => 0,
    }
}

/// The same as [`Times::of`], by what is lent.
fn kept_of(
    alloc: Global,
    bounds: (Option<u64>, Option<u64>),
    of_datagrams: &[Option<u64>],
    frames: &[u64],
) -> Result<Times, Memory>
    ensures { IfOk result (λ times. times ≡ record { start = bounds.0; end = bounds.1; of_datagrams = of_datagrams.now; frames = frames.now }) }
{
    let of_datagrams = DatagramTimes::of(alloc, of_datagrams)?;
    let frames = FrameNumbers::of(alloc, frames)?;
    Ok(Times {
        start: bounds.0,
        end: bounds.1,
        of_datagrams,
        frames,
    })
}

impl Times {
    /// No times, as of a text. It takes no memory.
    pub fn none(alloc: Global) -> Times
        ensures { result ≡ times_spec.no_times }
    {
        Times {
            start: None,
            end: None,
            of_datagrams: DatagramTimes::none(alloc),
            frames: FrameNumbers::none(alloc),
        }
    }

    /// The start and the end of a capture, and the time and the frame of each of its datagrams, in the order of sending. `Memory` is
    /// answered where what is kept of them cannot grow.
    pub fn of(
        alloc: Global,
        bounds: (Option<u64>, Option<u64>),
        of_datagrams: Vec<Option<u64>>,
        frames: Vec<u64>,
    ) -> Result<Times, Memory>
        ensures { IfOk result (λ times. times ≡ record { start = bounds.0; end = bounds.1; of_datagrams = of_datagrams.items; frames = frames.items }) }
    {
        kept_of(alloc, bounds, &of_datagrams, &frames)
    }

    /// The number of the frame that gave or completed a datagram. Both count from 1: it is None of 0, past the last, and of a text.
    pub fn frame(&self, datagram: u64) -> Option<u64>
        ensures { result ≡ times_spec.frame_of self.now.frames datagram }
    {
        if datagram == 0 {
            return None;
        }
        self.frames.get(datagram as usize - 1)
    }

    /// The time of the first frame of the capture that has one. None of a text, and where no frame has a time.
    pub fn of_first_frame(&self) -> Option<u64>
        ensures { result ≡ self.now.start }
    {
        self.start
    }

    /// The greatest time of a frame of the capture. None of a text, and where no frame has a time.
    pub fn of_last_frame(&self) -> Option<u64>
        ensures { result ≡ self.now.end }
    {
        self.end
    }

    /// Whether some datagram has a time.
    pub fn are_there(&self) -> bool
        ensures { result ≡ times_spec.are_there self.now.of_datagrams }
    {
        self.end(self.of_datagrams.len()).is_some()
    }

    /// The time of a datagram. They count from 1: it is None of 0, and past the last.
    pub fn of_datagram(&self, number: u64) -> Option<u64>
        ensures { result ≡ times_spec.time_of self.now.of_datagrams number }
    {
        if number == 0 {
            return None;
        }
        self.of_datagrams.at(number as usize - 1)
    }

    /// Whether the second of two datagrams came 100 ms or more behind the first; so it is said where one of them has no time.
    pub(crate) fn is_long(&self, earlier: u64, later: u64) -> bool
        ensures { result ≡ times_spec.is_long_between self.now.of_datagrams earlier later }
    {
        match (self.of_datagram(earlier), self.of_datagram(later)) {
            (Some(earlier), Some(later)) => LONG <= later.saturating_sub(earlier),
            (Some(_), None) => true,
            (None, _) => true,
        }
    }

    /// The greatest time among the first `count` datagrams, or among all where there are no more.
    pub fn end(&self, count: usize) -> Option<u64>
        ensures { result ≡ times_spec.end_of (take count self.now.of_datagrams) }
    {
        self.of_datagrams.end(count)
    }

    /// The greatest time among the datagrams before this one, which is counted from 1; among all, where there is none.
    pub fn end_until(&self, until: Option<u64>) -> Option<u64>
        ensures { result ≡ times_spec.end_of (said.datagrams_until until self.now.of_datagrams) }
    {
        match until {
            Some(datagram) => self.end(datagram.saturating_sub(1) as usize),
            None => self.end(self.of_datagrams.len()),
        }
    }

    /// By how much times go back, in nanoseconds: how much the time of a datagram is before that of an earlier one, the
    /// greatest of all pairs that have times; or 0.
    pub fn step_back(&self) -> u64
        ensures { result ≡ times_spec.step_back self.now.of_datagrams }
    {
        let mut step = 0u64;
        let mut latest = None;
        for place in 0..self.of_datagrams.len() {
            let time = self.of_datagrams.at(place);
            step = step.max(back(latest, time));
            latest = later(latest, time);
        }
        step
    }

    /// How long behind the start of the capture a datagram came, as it is said. None where it has no time.
    pub fn second(&self, datagram: u64) -> Option<Seconds>
        ensures { result ≡ times_spec.second_of self.now.start (times_spec.time_of self.now.of_datagrams datagram) }
    {
        match (self.start, self.of_datagram(datagram)) {
            (Some(start), Some(time)) => Some(Seconds::between(start, time)),
            (Some(_), None) => None,
            (None, _) => None,
        }
    }
}
