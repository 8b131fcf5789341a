ghost use Rattle.std.specs.Option.{ForSome};
ghost use Rattle.std.specs.Prelude.{◌<◌, ◌≤◌, ◌^◌};

use crate::act::ActBody;
use crate::spoken::{Spoken, SpokenBody};
use rtps_ids::{NumberSet, SeqNum};
use rtps_wire::{GapBody, Payload};
use std::ops::Range;

/// Numbers that an act names: those from `start` on and below `end`, and those of a list behind them.
#[derive(Clone, Copy, Debug)]
pub struct Numbers<'x> {
    start: u64,
    end: u64,
    list: Option<&'x NumberSet>,
    ghost in_range: { end ≤ 2 ^ 63 },
    ghost behind: { ForSome list (λ list. end ≤ list.now.base) },
}

/// What an act says of numbers. It borrows from the act.
#[derive(Clone, Copy, Debug)]
pub struct SaidNumbers<'x, 'a> {
    /// The numbers that will not come.
    pub gone: Numbers<'x>,
    /// The numbers that the reader lacks.
    pub lacked: Numbers<'x>,
    /// The number of which there is a payload, or fragments of one.
    pub brought: Option<u64>,
    /// The number whose payload is told.
    pub told: Option<u64>,
    /// That payload.
    pub payload: Option<&'x Payload<'a>>,
    /// The number that is announced, or 0.
    pub announced: u64,
    ghost brought_in_range: { ForSome brought (λ n. (1 ≤ n) × (n < 2 ^ 63)) },
    ghost told_in_range: { ForSome told (λ n. (1 ≤ n) × (n < 2 ^ 63)) },
    ghost announced_in_range: { announced < 2 ^ 63 },
}

impl<'x> Numbers<'x> {
    ghost use Rattle.std.specs.Prelude.{ℕ, ◌≡◌, ◌==◌, ◌≤◌, ◌<◌, ◌^◌, false, nat_lt, IfSome, MatchOption};
    ghost use Rattle.rtps_ids.specs.NumberSet as number_set;
    ghost use Rattle.rtps_receiver.specs.Said as said_spec;

    /// No numbers.
    #[inline]
    fn none() -> Numbers<'x>
        ensures { (n : ℕ) → said_spec.numbers_have result n ≡ false }
    {
        Numbers {
            start: 0,
            end: 0,
            list: None,
        }
    }

    /// Those below a number.
    fn below(number: SeqNum) -> Numbers<'x>
        ensures { (n : ℕ) → said_spec.numbers_have result n ≡ nat_lt n number }
    {
        Numbers {
            start: 0,
            end: number.get().cast_unsigned(),
            list: None,
        }
    }

    /// Those of a set.
    fn of_set(set: &'x NumberSet) -> Numbers<'x>
        ensures { (n : ℕ) → said_spec.numbers_have result n ≡ number_set.is_member set.now n }
    {
        Numbers {
            start: 0,
            end: 0,
            list: Some(set),
        }
    }

    /// This number alone.
    fn one(number: SeqNum) -> Numbers<'x>
        ensures { (n : ℕ) → said_spec.numbers_have result n ≡ (number == n) }
    {
        let start = number.get().cast_unsigned();
        Numbers {
            start,
            end: start + 1,
            list: None,
        }
    }

    /// Those of a GAP.
    fn of_gap(gap: &'x GapBody) -> Numbers<'x>
        ensures { (n : ℕ) → said_spec.numbers_have result n ≡ said_spec.is_in_gap gap.now n }
    {
        Numbers {
            start: gap.start.get().cast_unsigned(),
            end: gap.list.base().cast_unsigned(),
            list: Some(&gap.list),
        }
    }

    /// Whether a number is among them.
    #[inline]
    pub fn has(&self, n: u64) -> bool
        requires { n < 2 ^ 63 }
        ensures { result ≡ said_spec.numbers_have self.now n }
    {
        if self.start <= n && n < self.end {
            return true;
        }
        match self.list {
            Some(list) => list.contains(n.cast_signed()),
            None => false,
        }
    }

    /// The first range of them from `at` on; None if there is none. To get all ranges, call it again with the end of each.
    #[inline]
    pub fn range_from(&self, at: u64) -> Option<Range<u64>>
        ensures range { MatchOption result ((n : ℕ) → at ≤ n → said_spec.numbers_have self.now n ≡ false) (λ range. said_spec.IsRangeOf self.now at range.start range.end) }
        ensures in_range { IfSome result (λ range. range.end ≤ 2 ^ 63) }
    {
        let start = at.max(self.start);
        if start < self.end {
            return Some(start..self.end);
        }
        self.list?.range_from(at)
    }
}

impl<'x, 'a> SaidNumbers<'x, 'a> {
    ghost use Rattle.std.specs.Prelude.{Some};
    ghost use Rattle.std.specs.Option.{option_map};
    ghost use Rattle.rtps_wire.specs.Values as wire_values;
    ghost use Rattle.rtps_receiver.specs.Said as said_spec;

    /// Nothing of any number.
    #[inline]
    pub fn none() -> SaidNumbers<'x, 'a>
        ensures { said_spec.Says said_spec.nothing result }
    {
        SaidNumbers::of_numbers(Numbers::none(), Numbers::none(), 0)
    }

    /// These are gone, the reader lacks those, and this number is announced; 0 announces none.
    fn of_numbers(gone: Numbers<'x>, lacked: Numbers<'x>, announced: u64) -> SaidNumbers<'x, 'a>
        requires { announced < 2 ^ 63 }
        ensures { said_spec.Says (record said_spec.nothing { gone = said_spec.numbers_have gone.entry; lacked = said_spec.numbers_have lacked.entry; announced = Some announced }) result }
    {
        SaidNumbers {
            gone,
            lacked,
            brought: None,
            told: None,
            payload: None,
            announced,
        }
    }

    /// There is a sample of this number, and this is its payload, where it is told.
    fn of_sample(number: SeqNum, payload: Option<&'x Payload<'a>>) -> SaidNumbers<'x, 'a>
        ensures { said_spec.Says (record said_spec.nothing {
          brought = Some number;
          announced = Some number;
          payload = option_map (λ payload. wire_values.payload_value payload.now) payload.entry;
        }) result }
    {
        let number = number.get().cast_unsigned();
        let told = if payload.is_some() {
            Some(number)
        } else {
            None
        };
        SaidNumbers {
            gone: Numbers::none(),
            lacked: Numbers::none(),
            brought: Some(number),
            told,
            payload,
            announced: number,
        }
    }
}

impl<'a> Spoken<'a> {
    ghost use Rattle.rtps_receiver.specs.Said as said_spec;
    ghost use Rattle.rtps_receiver.specs.Values as values;

    /// What the act says of numbers.
    #[inline]
    pub fn said<'x>(&'x self) -> SaidNumbers<'x, 'a>
        ensures { said_spec.Says (said_spec.said (values.spoken_value self.now).body) result }
    {
        let none = Numbers::none();
        match &self.body {
            SpokenBody::Act(ActBody::Data(data)) => {
                return SaidNumbers::of_sample(data.number, Some(&data.payload));
            }
            SpokenBody::DataFrag(fragment) => {
                return SaidNumbers::of_sample(fragment.number, fragment.told.as_ref());
            }
            SpokenBody::Act(ActBody::Heartbeat(heartbeat)) => {
                let last = heartbeat.last.max(0).cast_unsigned();
                return SaidNumbers::of_numbers(Numbers::below(heartbeat.first), none, last);
            }
            SpokenBody::Act(ActBody::Gap(gap)) => return SaidNumbers::of_numbers(
                Numbers::of_gap(gap),
                none,
                0,
            ),
            SpokenBody::Act(ActBody::AckNack(ack_nack)) => {
                return SaidNumbers::of_numbers(none, Numbers::of_set(&ack_nack.set), 0);
            }
            SpokenBody::NackFrag(asks) => {
                return SaidNumbers::of_numbers(none, Numbers::one(asks.number), 0);
            }
        }
    }
}
