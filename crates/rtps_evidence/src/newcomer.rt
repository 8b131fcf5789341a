ghost use Rattle.std.specs.Prelude.{◌≡◌, ◌≤◌, ◌<◌, ◌^◌, ◌++◌, ◌∷◌, [], map, IfSome, List};
ghost use Rattle.std.specs.List.{list_any};
ghost use Rattle.std.specs.Option.{ForSome};
ghost use Rattle.rtps_receiver.specs.Said as said;
ghost use Rattle.rtps_audit.specs.Placed as placed_spec;
ghost use Rattle.rtps_evidence.specs.Missed as missed;
ghost use Rattle.rtps_evidence.specs.Spans as spans;

use crate::listener::{Listener, number_behind};
use crate::location::{Location, is_before, is_behind, is_gap};
use crate::said_to::said_to;
use rtps_audit::{FirstAsked, Placed, announced_number};
use rtps_discovery::Pair;
use rtps_ids::Guid;
use rtps_receiver::Numbers;

/// A reader that joins in a recording, and the writer of which it is told.
#[derive(Clone, Copy)]
pub(crate) struct Newcomer {
    pub(crate) pair: Pair,
    /// Where the reader joins: the first act that announces it.
    pub(crate) place: Location,
    /// What stands before this number is not asked for.
    pub(crate) from: FirstAsked,
    /// Whether the reader asks for nothing that was written before it joined.
    pub(crate) is_volatile: bool,
}

/// What a writer tells a newcomer gone in front of all that it sends it, as far as its acts have come.
#[derive(Clone, Copy)]
struct GoneFirst {
    /// One more than the greatest number; 0 where there is none.
    end: u64,
    /// Whether the newcomer is sent anything.
    is_sent: bool,
    ghost in_range: { end ≤ 2 ^ 63 },
}

/// From which number on a writer owes to a newcomer, as far as its acts have come.
#[derive(Clone, Copy)]
pub(crate) struct Owing {
    /// The greatest number that is announced before the newcomer joins, or 0.
    announced: u64,
    gone: GoneFirst,
    /// The least number that may be owed and that the newcomer is brought; None where there is none.
    least: Option<u64>,
    /// Whether more was announced behind that: its datagram has acts that do not stand by their places. Then the least is another one.
    is_late: bool,
    ghost in_range: { announced < 2 ^ 63 },
    ghost least_in_range: { ForSome least (λ number. (1 ≤ number) × (number < 2 ^ 63)) },
}

/// The number that the writer announces by an act before a place, or 0.
fn number_before(placed: &Placed<'_>, writer: Guid, place: Location) -> u64
    ensures value { result ≡ spans.number_before place writer (placed_spec.placed_value placed.now) }
    ensures in_range { result < 2 ^ 63 }
{
    if is_before(place, placed) {
        announced_number(&placed.act, writer)
    } else {
        0
    }
}

/// The lesser of two numbers, where there are two.
pub(crate) fn lesser(one: Option<u64>, other: Option<u64>) -> Option<u64>
    ensures { result ≡ spans.lesser_of one other }
{
    match (one, other) {
        (Some(one), Some(other)) => Some(one.min(other)),
        (Some(one), None) => Some(one),
        (None, other) => other,
    }
}

/// The number of which an act behind the reader's joining brings a payload, or a fragment, if it is from `lo` on.
fn brought_from(placed: &Placed<'_>, listener: &Listener, lo: u64) -> Option<u64>
    ensures least { spans.IsLeastFrom (λ n. missed.brings_behind listener.now.since listener.now.pair.writer listener.now.pair.reader n (placed_spec.placed_value placed.now)) lo result }
    ensures in_range { IfSome result (λ number. number < 2 ^ 63) }
{
    match number_behind(placed, listener) {
        Some(number) => { if lo <= number { Some(number) } else { None } }
        None => None,
    }
}

/// One more than the greatest of these numbers; 0 where there is none.
fn end_of(numbers: &Numbers<'_>) -> u64
    ensures end { spans.IsEndOf (said.numbers_have numbers.now) result }
    ensures in_range { result ≤ 2 ^ 63 }
{
    let mut end = 0;
    'apart: while let Some(range) = numbers.range_from(end) {
        end = range.end;
    }
    end
}

/// The same of the numbers that an act tells gone, where it is a GAP that the listener hears; 0 where it is none.
fn gap_end(placed: &Placed<'_>, listener: &Listener) -> u64
    ensures end { spans.IsEndOf (λ n. spans.gaps_behind listener.now.since listener.now.pair.writer listener.now.pair.reader n (placed_spec.placed_value placed.now)) result }
    ensures in_range { result ≤ 2 ^ 63 }
{
    if is_behind(listener.since, placed) && is_gap(&placed.act.body) {
        end_of(&said_to(placed, listener.pair).gone)
    } else {
        0
    }
}

/// Whether there is a number that is below this one.
fn is_below(number: Option<u64>, end: u64) -> bool
    ensures { result ≡ spans.is_below end number }
{
    match number {
        Some(number) => number < end,
        None => false,
    }
}

impl Newcomer {
    ghost use Rattle.rtps_evidence.specs.Newcomers as newcomers;

    /// The pair, and the place behind which its reader is there.
    fn listener(&self) -> Listener
        ensures { result ≡ newcomers.listener_of self.now }
    {
        Listener {
            pair: self.pair,
            since: Some(self.place),
        }
    }

    /// The least number that may be owed, where so much is announced before the newcomer joins, and so much told gone first.
    fn owed(&self, announced: u64, gone: u64) -> u64
        requires announced { announced < 2 ^ 63 }
        requires gone { gone ≤ 2 ^ 63 }
        ensures owed { result ≡ spans.least_owed self.now.from self.now.is_volatile announced gone }
        ensures positive { 1 ≤ result }
        ensures in_range { result ≤ 2 ^ 63 }
    {
        let from = self.from.get();
        if self.is_volatile {
            from.max(announced + 1).max(gone)
        } else {
            from
        }
    }
}

impl GoneFirst {
    ghost use Rattle.rtps_evidence.specs.Newcomers as newcomers;

    /// The same with the next act of the writer.
    fn with(&self, placed: &Placed<'_>, listener: &Listener) -> GoneFirst
        ensures gone { (acts : List placed_spec.PlacedValue) → newcomers.AreGone listener.now acts self.now → newcomers.AreGone listener.now (acts ++ placed_spec.placed_value placed.now ∷ []) result }
        ensures rises { self.now.end ≤ result.end }
    {
        if self.is_sent {
            return *self;
        }
        let end = self.end;
        if number_behind(placed, listener).is_some() {
            return GoneFirst { end, is_sent: true };
        }
        GoneFirst {
            end: end.max(gap_end(placed, listener)),
            is_sent: false,
        }
    }
}

impl Owing {
    ghost use Rattle.rtps_evidence.specs.Newcomers as newcomers;
    ghost use Rattle.rtps_evidence.specs.declared.newcomer.Newcomer.{Newcomer as NewcomerValue};

    /// The writer said nothing yet.
    pub(crate) fn new() -> Owing
        ensures { (newcomer : NewcomerValue) → newcomers.IsOwing newcomer [] result }
    {
        Owing {
            announced: 0,
            gone: GoneFirst {
                end: 0,
                is_sent: false,
            },
            least: None,
            is_late: false,
        }
    }

    /// Is told the next act of the writer.
    pub(crate) fn hear(&mut self, placed: &Placed<'_>, newcomer: &Newcomer)
        ensures { (acts : List placed_spec.PlacedValue) → newcomers.IsOwing newcomer.now acts self.old → newcomers.IsOwing newcomer.now (acts ++ placed_spec.placed_value placed.now ∷ []) self.new }
    {
        let listener = newcomer.listener();
        let before = number_before(placed, newcomer.pair.writer, newcomer.place);
        let announced = self.announced.max(before);
        let gone = self.gone.with(placed, &listener);
        let owed = newcomer.owed(announced, gone.end);
        let brought = brought_from(placed, &listener, owed);
        *self = Owing {
            announced,
            gone,
            least: lesser(self.least, brought),
            is_late: self.is_late | is_below(self.least, owed),
        };
    }

    /// The least number that may be owed, by what was told.
    pub(crate) fn owed(&self, newcomer: &Newcomer) -> u64
        ensures owed { result ≡ newcomers.owed_to newcomer.now self.now }
        ensures positive { 1 ≤ result }
        ensures in_range { result ≤ 2 ^ 63 }
    {
        newcomer.owed(self.announced, self.gone.end)
    }

    /// The least number from that one on that the newcomer is brought by these acts, all of which were told.
    pub(crate) fn brought(&self, acts: &[Placed<'_>], newcomer: &Newcomer) -> Option<u64>
        ensures least { newcomers.IsOwing newcomer.now (map placed_spec.placed_value acts.now) self.now
            → spans.IsLeastFrom (newcomers.is_brought (newcomers.listener_of newcomer.now) (map placed_spec.placed_value acts.now)) (newcomers.owed_to newcomer.now self.now) result }
        ensures in_range { IfSome result (λ number. (1 ≤ number) × (number < 2 ^ 63)) }
    {
        if self.is_late {
            least_brought(acts, &newcomer.listener(), self.owed(newcomer))
        } else {
            self.least
        }
    }
}

/// The least number from `lo` on that one of these acts brings behind the reader's joining.
fn least_brought(acts: &[Placed<'_>], listener: &Listener, lo: u64) -> Option<u64>
    ensures least { spans.IsLeastFrom (λ n. list_any (missed.brings_behind listener.now.since listener.now.pair.writer listener.now.pair.reader n) (map placed_spec.placed_value acts.now)) lo result }
    ensures in_range { IfSome result (λ number. number < 2 ^ 63) }
{
    let mut least = None;
    for placed in acts {
        least = lesser(least, brought_from(placed, listener, lo));
    }
    least
}
