ghost use Rattle.std.specs.Prelude.{◌≡◌, ◌↔◌, ◌<ℤ◌, ◌≤ℤ◌, pos, IsSome, IfSome};

use std::marker::Model;

/// A sequence number: 1 to 2^63 - 1 (DDSI-RTPS 2.5, 8.3.5.4 "SequenceNumber").
#[derive(Clone, Copy, PartialEq, Eq, PartialOrd, Ord, Debug)]
pub struct SeqNum {
    value: u64,
}

impl Model for SeqNum {
    ghost use Rattle.std.specs.Prelude.{ℕ, ◌<◌, ◌^◌};

    ghost Value = { ℕ };

    ghost view = { λ s. s.value };

    ghost invariant = { (λ s. (0 < s.value) × (s.value < 2 ^ 63)) };

    ghost inverse = { λ n. record { value = n } };
}

impl SeqNum {
    /// The least sequence number, 1.
    pub fn first() -> SeqNum
        ensures { result ≡ 1 }
    {
        SeqNum { value: 1 }
    }

    /// The sequence number of this value, or None if the value is below 1.
    pub fn new(value: i64) -> Option<SeqNum>
        ensures exists { IsSome result ↔ (pos 0 <ℤ value) }
        ensures value { IfSome result (λ number. pos number ≡ value) }
    {
        if value < 1 {
            return None;
        }
        Some(SeqNum {
            value: value.cast_unsigned(),
        })
    }

    /// Its value, 1 to 2^63 - 1.
    pub fn get(self) -> i64
        ensures value { result ≡ pos self }
        ensures positive { pos 1 ≤ℤ result }
    {
        self.value.cast_signed()
    }
}
