ghost use Rattle.std.specs.Prelude.{ℕ, ◌≡◌, ◌≤◌, not, filter, IfOk, List};
ghost use Rattle.rtps_discovery.specs.declared.matching.Pair.{Pair as PairValue};
ghost use Rattle.rtps_receiver.specs.Values as values;
ghost use Rattle.rtps_audit.specs.Placed as placed;
ghost use Rattle.rtps_coverage.specs.Stretches as stretches_spec;
ghost use Rattle.rtps_evidence.specs.Claimed as claimed;

use crate::acknowledgement::greatest_base;
use crate::amount::{AskedNumbers, HeardNumbers};
use rtps_audit::Answer;
use rtps_coverage::Stretch;
use rtps_coverage::stretches::outside;
use rtps_ids::Memory;
use std::alloc::Global;

/// The numbers that are asked for and that none of these stretches has. Other numbers may be among them. It puts the stretches in
/// another order.
pub(crate) fn others_of(
    alloc: Global,
    stretches: &mut Vec<Stretch>,
    asked: &AskedNumbers,
) -> Result<Vec<Stretch>, Memory>
    ensures { IfOk result (λ rest. (n : ℕ) → asked.now.from ≤ n → n ≤ asked.now.last
        → stretches_spec.stretches_have rest.items n ≡ not (stretches_spec.stretches_have stretches.old.items n)) }
{
    stretches.sort_by_key(|stretch| stretch.lo)?;
    let from = asked.from.get();
    let rest = outside(alloc, stretches, from, asked.last + 1)?;
    Ok(rest)
}

/// Those of these numbers that are asked for, in stretches of which none is empty.
fn asked_among(
    alloc: Global,
    numbers: &[Stretch],
    asked: &AskedNumbers,
) -> Result<Vec<Stretch>, Memory>
    ensures { IfOk result (λ among. (n : ℕ) → asked.now.from ≤ n → n ≤ asked.now.last → stretches_spec.stretches_have among.items n ≡ stretches_spec.stretches_have numbers.now n) }
{
    let from = asked.from.get();
    let end = asked.last + 1;
    let mut among = Vec::new(alloc);
    for stretch in numbers {
        let lo = stretch.lo.max(from);
        let hi = stretch.hi.min(end);
        if lo < hi {
            among.push(Stretch { lo, hi })?;
        }
    }
    Ok(among)
}

impl HeardNumbers {
    /// The numbers that are asked for and that a pair's reader may not have received, where these are its answers, and this is what it heard
    /// of all that its writer said: those that have no payload before they are claimed, or are told gone before that, and those that are
    /// not claimed. Other numbers may be among them.
    pub(crate) fn lacking(
        &self,
        alloc: Global,
        answers: &[Answer],
        asked: &AskedNumbers,
    ) -> Result<Vec<Stretch>, Memory>
        ensures { (pair : PairValue) (recording : List (List values.ActValue)) → answers.now ≡ placed.answers_among pair (placed.placed_in recording)
            → claimed.AreHeard answers.now pair (filter (placed.is_from pair.writer) (placed.placed_in recording)) self.now
            → IfOk result (λ lacking. claimed.AreLacking asked.now.from asked.now.last pair (placed.placed_in recording) lacking.items) }
    {
        let mut early = Vec::from_slice(alloc, &self.early)?;
        let mut numbers = others_of(alloc, &mut early, asked)?;
        numbers.extend_from_slice(&self.gone)?;
        numbers.push(Stretch {
            lo: greatest_base(answers),
            hi: asked.last + 1,
        })?;
        let lacking = asked_among(alloc, &numbers, asked)?;
        Ok(lacking)
    }
}
