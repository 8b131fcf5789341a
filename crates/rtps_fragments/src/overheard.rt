ghost use Rattle.std.specs.Prelude.{◌≡◌, map, IfOk};
ghost use Rattle.rtps_audit.specs.Placed as placed_spec;
ghost use Rattle.rtps_fragments.specs.Hearing as hearing;

use crate::hearing::heard_of;
use bumpalo::Bump;
use rtps_audit::{Placed, place};
use rtps_ids::{EntityId, Guid, GuidPrefix, Memory};
use rtps_receiver::{FragmentBody, Spoken, SpokenBody};
use std::alloc::Global;
use std::slice;

/// The entity id that names every reader (DDSI-RTPS 2.5, 9.3.1.2 "Mapping of the EntityId_t", ENTITYID_UNKNOWN).
const EVERY_READER: EntityId = EntityId([0; 4]);

/// A reader that hears what is for everyone.
pub(crate) const NOBODY: Guid = Guid {
    prefix: GuidPrefix([0; 12]),
    entity: EVERY_READER,
};

/// An act that sends fragments as one for everyone, and any other act as it is.
pub(crate) fn for_everyone<'a>(placed: &Placed<'a>) -> Placed<'a>
    ensures { placed_spec.placed_value result ≡ hearing.for_everyone (placed_spec.placed_value placed.now) }
{
    let SpokenBody::DataFrag(fragment) = &placed.act.body else {
        return copy_of(placed);
    };
    if fragment.sent.is_none() {
        return copy_of(placed);
    }
    let fragment = FragmentBody {
        reader: EVERY_READER,
        ..*fragment
    };
    Placed {
        datagram: placed.datagram,
        act: Spoken {
            dest: None,
            body: SpokenBody::DataFrag(fragment),
            ..placed.act
        },
    }
}

/// The act as it is.
fn copy_of<'a>(placed: &Placed<'a>) -> Placed<'a>
    ensures { placed_spec.placed_value result ≡ placed_spec.placed_value placed.now }
{
    place(placed.datagram, &placed.act)
}

/// Acts as one hears them who hears the fragments for whomever: each, and behind it the samples that it tells. They stand in the arena.
/// `Memory` is answered where there is none for them.
pub fn overheard_of<'a>(
    alloc: Global,
    arena: &'a Bump,
    acts: &[Placed<'a>],
) -> Result<&'a [Placed<'a>], Memory>
    ensures { IfOk result (λ heard. map placed_spec.placed_value heard.now ≡ hearing.overheard_of (map placed_spec.placed_value acts.now)) }
{
    let mut all = Vec::with_capacity(alloc, acts.len())?;
    for placed in acts {
        let one = for_everyone(placed);
        all.extend_from_slice(slice::from_ref(&one))?;
    }
    let all = arena.try_alloc_slice_copy(&all)?;
    heard_of(alloc, arena, all, NOBODY)
}
