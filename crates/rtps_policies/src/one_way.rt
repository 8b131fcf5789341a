ghost use Rattle.std.specs.Prelude.{IfOk};
ghost use Rattle.rtps_policies.specs.Announcing as announcing;
ghost use Rattle.rtps_policies.specs.Namings as namings_spec;
ghost use Rattle.rtps_policies.specs.OneWays as one_ways;
ghost use Rattle.rtps_policies.specs.Silence as silence;

use crate::announced::Announced;
use crate::naming::{Naming, Namings};
use crate::silence::talks_one_way;
use rtps_ids::Memory;
use std::alloc::Global;

/// A participant that names another, which never names it.
#[derive(Clone, Copy)]
pub struct OneWay {
    pub naming: Naming,
    /// In how many datagrams it does so.
    pub count: u64,
}

/// Who talks one way in a recording, as [`talks_one_way`] says, in the order of the participants that talk and then of the others.
pub fn one_way_namings(
    alloc: Global,
    announced: &Announced<'_>,
    namings: &Namings,
) -> Result<Vec<OneWay>, Memory>
    ensures { IfOk result (λ found. (traffic : silence.Traffic) → announcing.IsAnnouncedBy traffic.announcing announced.now
        → namings_spec.AreNamingsOf traffic.datagrams namings.now → one_ways.AreOneWayIn traffic found.items) }
{
    let mut found = Vec::new(alloc);
    for (naming, count) in namings.counts.iter() {
        if talks_one_way(announced, namings, *naming) {
            found.push(OneWay {
                naming: *naming,
                count: *count,
            })?;
        }
    }
    Ok(found)
}
