ghost use Rattle.std.specs.Prelude.{◌≡◌, ◌≤◌, ◌++◌, [], cond, length, map, OnOk};
ghost use Rattle.std.specs.List.{AllWithin};
ghost use Rattle.std.specs.Ordering.{is_eq};
ghost use Rattle.rtps_ids.specs.declared.identity.Guid.{Guid as GuidValue};
ghost use Rattle.rtps_receiver.specs.Speech as speech;
ghost use Rattle.rtps_receiver.specs.Values as values;
ghost use Rattle.rtps_discovery.specs.GuidOrder as guid_order;
ghost use Rattle.rtps_audit.specs.Placed as placed_spec;

use crate::groups::Groups;
use rtps_ids::{Guid, Memory};
use rtps_receiver::Spoken;
use std::slice;

/// An act, and the datagram of a recording that it stands in, counted from 1.
#[derive(Clone, Copy, PartialEq, Eq, Debug)]
pub struct Placed<'a> {
    pub datagram: usize,
    pub act: Spoken<'a>,
}

/// A copy of an act, in its datagram.
pub fn place<'a>(datagram: usize, act: &Spoken<'a>) -> Placed<'a>
    ensures datagram { result.datagram ≡ datagram }
    ensures act { values.spoken_value result.act ≡ values.spoken_value act.now }
{
    Placed {
        datagram,
        act: act.copied(),
    }
}

/// Appends acts in their datagram. After `Memory` the list is of no use.
fn append_placed<'a>(
    placed: &mut Vec<Placed<'a>>,
    datagram: usize,
    acts: &[Spoken<'a>],
) -> Result<(), Memory>
    ensures { OnOk result (map placed_spec.placed_value placed.new.items
        ≡ map placed_spec.placed_value placed.old.items ++ placed_spec.placed_at datagram (map values.spoken_value acts.now)) }
{
    if placed.is_empty() {
        // Many lists stay at their first acts.
        placed.reserve_exact(acts.len())?;
    }
    for act in acts {
        placed.extend_from_slice(slice::from_ref(&place(datagram, act)))?;
    }
    Ok(())
}

/// The first place from this one on whose act is from another GUID; the end, where none is.
pub(crate) fn run_end(acts: &[Spoken<'_>], start: usize, origin: Guid) -> usize
    requires { start ≤ length acts.now }
    ensures onward { start ≤ result }
    ensures within { result ≤ length acts.now }
    ensures run { AllWithin (λ act. speech.origin_of (values.spoken_value act) ≡ origin) acts.now start result }
{
    for place in start..acts.len() {
        if acts[place].origin() != origin {
            return place;
        }
    }
    acts.len()
}

/// Adds acts of a datagram to those of this GUID. After `Memory` the lists are of no use.
fn note_run<'a>(
    origins: &mut Groups<Guid, Placed<'a>>,
    origin: Guid,
    datagram: usize,
    run: &[Spoken<'a>],
) -> Result<(), Memory>
    ensures { OnOk result ((other : GuidValue) → map placed_spec.placed_value (placed_spec.values_at guid_order.guid_cmp origins.new.map other)
        ≡ map placed_spec.placed_value (placed_spec.values_at guid_order.guid_cmp origins.old.map other)
        ++ cond (is_eq (guid_order.guid_cmp other origin)) (placed_spec.placed_at datagram (map values.spoken_value run.now)) []) }
{
    if let Some(placed) = origins.map.get_mut(&origin) {
        append_placed(placed, datagram, run)?;
        return Ok(());
    }
    let mut placed = Vec::new(origins.alloc);
    append_placed(&mut placed, datagram, run)?;
    origins.map.insert(origin, placed)?;
    Ok(())
}

/// Adds the acts of one datagram more, each to those of the GUID that it is from. Those of one GUID that follow one
/// another are added at once. After `Memory` the lists are of no use.
pub(crate) fn note_acts<'a>(
    origins: &mut Groups<Guid, Placed<'a>>,
    datagram: usize,
    acts: &[Spoken<'a>],
) -> Result<(), Memory>
    ensures { OnOk result (placed_spec.AddsActs origins.old.map origins.new.map (placed_spec.placed_at datagram (map values.spoken_value acts.now))) }
{
    let mut start = 0;
    'runs: while start < acts.len() {
        let origin = acts[start].origin();
        let end = run_end(acts, start + 1, origin);
        note_run(origins, origin, datagram, &acts[start..end])?;
        start = end;
    }
    Ok(())
}
