ghost use Rattle.std.specs.Prelude.{◌≡◌, ◌≤◌, ◌^◌, ◌↔◌, IsSome, IfSome};

use rtps_ids::SeqNum;
use std::marker::Model;

/// Sequence numbers end before this number.
const PAST_ALL: u64 = 1 << 63;

/// The first number that is asked for: a sequence number, or 2^63, which is past them all (DDSI-RTPS 2.5, 8.3.5.4
/// "SequenceNumber").
#[derive(Clone, Copy, PartialEq, Eq, Debug)]
pub struct FirstAsked {
    value: u64,
}

impl Model for FirstAsked {
    ghost use Rattle.std.specs.Prelude.{ℕ, ◌≤◌, ◌^◌};

    ghost Value = { ℕ };

    ghost view = { λ first. first.value };

    ghost invariant = { (λ first. (1 ≤ first.value) × (first.value ≤ 2 ^ 63)) };

    ghost inverse = { λ n. record { value = n } };
}

impl FirstAsked {
    /// A sequence number.
    pub fn of(number: SeqNum) -> FirstAsked
        ensures { result ≡ number }
    {
        FirstAsked {
            value: number.get().cast_unsigned(),
        }
    }

    /// The one of this value; None of 0, and past 2^63.
    pub fn new(value: u64) -> Option<FirstAsked>
        ensures exists { IsSome result ↔ ((1 ≤ value) × (value ≤ 2 ^ 63)) }
        ensures value { IfSome result (λ first. first ≡ value) }
    {
        if value < 1 || PAST_ALL < value {
            return None;
        }
        Some(FirstAsked { value })
    }

    /// Its value, 1 to 2^63.
    pub fn get(self) -> u64
        ensures value { result ≡ self }
        ensures positive { 1 ≤ result }
        ensures in_range { result ≤ 2 ^ 63 }
    {
        self.value
    }
}
