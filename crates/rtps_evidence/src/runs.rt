ghost use Rattle.std.specs.Prelude.{ℕ, Bool, ◌≤◌, ◌+◌, ◌||◌, IfOk, OnOk};
ghost use Rattle.std.specs.List.Sorted.{IsNonDecreasingBy};
ghost use Rattle.rtps_coverage.specs.Stretches as stretches_spec;
ghost use Rattle.rtps_evidence.specs.Kinds as kinds;
ghost use Rattle.rtps_evidence.specs.Runs as runs_spec;

use crate::amount::AskedNumbers;
use rtps_coverage::Stretch;
use rtps_ids::Memory;
use std::alloc::Global;

/// Appends the run at hand, where it has some number.
fn close(runs: &mut Vec<Stretch>, run: Stretch) -> Result<(), Memory>
    ensures { OnOk result ((from : ℕ) (has : ℕ → Bool) → runs_spec.IsAtHand from has runs.old.items run → runs_spec.AreClosed from has (run.hi + 1) runs.new.items) }
{
    if run.lo < run.hi {
        runs.push(run)?;
    }
    Ok(())
}

/// Goes on with the numbers of a stretch that does not begin before the run at hand: gives the run that is at hand then.
fn go_on(runs: &mut Vec<Stretch>, run: Stretch, next: Stretch) -> Result<Stretch, Memory>
    ensures at_hand { IfOk result (λ joined. (from : ℕ) (has : ℕ → Bool) → run.lo ≤ next.lo → runs_spec.IsAtHand from has runs.old.items run
        → runs_spec.IsAtHand from (λ n. has n || stretches_spec.stretch_has n next) runs.new.items joined) }
    ensures first { IfOk result (λ joined. run.lo ≤ next.lo → joined.lo ≤ next.lo) }
{
    if next.hi <= next.lo {
        return Ok(run);
    }
    if next.lo <= run.hi {
        return Ok(Stretch {
            lo: run.lo,
            hi: run.hi.max(next.hi),
        });
    }
    close(runs, run)?;
    Ok(next)
}

/// The numbers from `from` on and below `end` of these stretches, which stand in the order of their beginnings, as runs.
fn runs_in_order(
    alloc: Global,
    stretches: &[Stretch],
    from: u64,
    end: u64,
) -> Result<Vec<Stretch>, Memory>
    requires { IsNonDecreasingBy (λ stretch. stretch.lo) stretches.now }
    ensures { IfOk result (λ runs. kinds.AreRunsOf (stretches_spec.stretches_have stretches.now) from end runs.items) }
{
    let mut runs = Vec::new(alloc);
    let mut run = Stretch { lo: from, hi: from };
    for stretch in stretches {
        let lo = stretch.lo.max(from);
        let hi = stretch.hi.min(end);
        run = go_on(&mut runs, run, Stretch { lo, hi })?;
    }
    close(&mut runs, run)?;
    Ok(runs)
}

/// The numbers that are asked for and that these stretches have, as runs. It puts the stretches in another order.
pub(crate) fn runs_of(
    alloc: Global,
    stretches: &mut Vec<Stretch>,
    asked: &AskedNumbers,
) -> Result<Vec<Stretch>, Memory>
    ensures { IfOk result (λ runs. kinds.AreRunsOf (stretches_spec.stretches_have stretches.old.items) asked.now.from (asked.now.last + 1) runs.items) }
{
    stretches.sort_by_key(|stretch| stretch.lo)?;
    let from = asked.from.get();
    let runs = runs_in_order(alloc, stretches, from, asked.last + 1)?;
    Ok(runs)
}
