ghost use Rattle.std.specs.Prelude.{ℕ, ◌≡◌, ◌≤◌, ◌<◌, ◌+◌, ◌++◌, ◌∷◌, [], not, IfOk, List};
ghost use Rattle.rtps_coverage.specs.Stretches as stretches_spec;
ghost use Rattle.rtps_evidence.specs.FirstNumbers as first_numbers;

use crate::amount::AskedNumbers;
use crate::lacking::others_of;
use rtps_coverage::Stretch;
use rtps_coverage::stretches::least_inside;
use rtps_ids::Memory;
use std::alloc::Global;

/// The first of some numbers, in their order: ten at most.
#[derive(Clone, Copy)]
pub struct FirstNumbers {
    /// The numbers, and zeros behind them.
    places: [u64; 10],
    /// How many numbers there are.
    count: usize,
}

impl FirstNumbers {
    /// No numbers.
    pub(crate) fn none() -> FirstNumbers
        ensures { result ≡ first_numbers.kept [] }
    {
        FirstNumbers {
            places: [0; 10],
            count: 0,
        }
    }

    /// Adds a number behind the others.
    fn push(&mut self, number: u64)
        requires { self.old.count < 10 }
        ensures { (numbers : List ℕ) → self.old ≡ first_numbers.kept numbers → self.new ≡ first_numbers.kept (numbers ++ number ∷ []) }
    {
        self.places[self.count] = number;
        self.count += 1;
    }

    /// The first of the numbers from `from` on and below `end` that a stretch has.
    fn inside(stretches: &[Stretch], from: u64, end: u64) -> FirstNumbers
        requires { from ≤ end }
        ensures { result ≡ first_numbers.kept (first_numbers.first_ten (stretches_spec.stretches_have stretches.now) from end) }
    {
        let mut first = FirstNumbers::none();
        let mut at = least_inside(stretches, from, end);
        'numbers: while at < end && first.count < 10 {
            first.push(at);
            at = least_inside(stretches, at + 1, end);
        }
        first
    }

    /// The first of the numbers that are asked for and that none of these stretches has. It puts the stretches in another order.
    pub(crate) fn outside(
        alloc: Global,
        stretches: &mut Vec<Stretch>,
        asked: &AskedNumbers,
    ) -> Result<FirstNumbers, Memory>
        ensures { IfOk result (λ first. first
            ≡ first_numbers.kept (first_numbers.first_ten (λ n. not (stretches_spec.stretches_have stretches.old.items n)) asked.now.from (asked.now.last + 1))) }
    {
        let rest = others_of(alloc, stretches, asked)?;
        let from = asked.from.get();
        Ok(FirstNumbers::inside(&rest, from, asked.last + 1))
    }

    /// They, in their order.
    pub fn as_slice(&self) -> &[u64]
        ensures { result.now ≡ first_numbers.numbers_of self.now }
    {
        let count = self.count.min(self.places.len());
        &self.places[..count]
    }
}
