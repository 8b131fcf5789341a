ghost use Rattle.std.specs.Prelude.{ℕ, ◌≡◌, IfOk};
ghost use Rattle.std.specs.List.{list_any};
ghost use Rattle.rtps_evidence.specs.Claimed as claimed;
ghost use Rattle.rtps_coverage.specs.Rising as rising_spec;

use rtps_audit::Answer;
use rtps_coverage::Stretch;
use rtps_coverage::rising::rising;
use rtps_ids::Memory;
use std::alloc::Global;

/// The answers as stretches, each from its datagram to its base.
fn stretches_of(alloc: Global, answers: &[Answer]) -> Result<Vec<Stretch>, Memory>
    ensures { IfOk result (λ claims. (datagram n : ℕ)
        → rising_spec.some_reaches claims.items datagram n ≡ list_any (claimed.claims_up_to datagram n) answers.now) }
{
    let mut claims = Vec::with_capacity(alloc, answers.len())?;
    for answer in answers {
        let lo = answer.datagram as u64;
        let hi = answer.natural_base();
        claims.push(Stretch { lo, hi })?;
    }
    Ok(claims)
}

/// What a pair's answers claim: the end up to a datagram is that of all that they claim up to it.
pub(crate) fn claims_of(alloc: Global, answers: &[Answer]) -> Result<Vec<Stretch>, Memory>
    ensures rising { IfOk result (λ claims. rising_spec.AreRising claims.items) }
    ensures claims { IfOk result (λ claims. claimed.AreClaims answers.now claims.items) }
{
    let mut stretches = stretches_of(alloc, answers)?;
    let claims = rising(alloc, &mut stretches)?;
    Ok(claims)
}
