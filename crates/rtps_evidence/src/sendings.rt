ghost use Rattle.std.specs.Prelude.{◌≡◌, ◌++◌, ◌∷◌, [], map, IfOk, OnOk, List};
ghost use Rattle.std.specs.BTreeMap.{get};
ghost use Rattle.std.specs.Ordering.{nat_cmp};
ghost use Rattle.rtps_audit.specs.Placed as placed_spec;
ghost use Rattle.rtps_coverage.specs.Rising as rising;
ghost use Rattle.rtps_coverage.specs.Stretches as stretches;
ghost use Rattle.rtps_evidence.specs.Runs as runs;
ghost use Rattle.rtps_evidence.specs.Kinds as kinds;

use crate::location::{Location, location_of, precedes};
use crate::said_to::said_to;
use rtps_audit::Placed;
use rtps_coverage::Stretch;
use rtps_coverage::rising::end_at;
use rtps_discovery::Pair;
use rtps_ids::Memory;
use std::alloc::Global;
use std::collections::BTreeMap;

/// Between which places numbers are sent first.
#[derive(Clone, Copy)]
pub struct SentSpan {
    /// The least of the places of their first sendings.
    pub first: Location,
    /// The greatest of them.
    pub last: Location,
}

/// Where the numbers of some stretches are sent first, as far as a recording has come.
#[derive(Drop)]
pub(crate) struct Sendings {
    /// Of each that was sent, the place of the first act that brings it.
    places: BTreeMap<u64, Location>,
    /// Between which places; None where none was sent.
    pub(crate) span: Option<SentSpan>,
}

/// The places from the first to the last of these, and one more.
fn span_with(span: Option<SentSpan>, place: Location) -> SentSpan
    ensures { result ≡ runs.span_with span place }
{
    let Some(span) = span else {
        return SentSpan {
            first: place,
            last: place,
        };
    };
    let first = if precedes(place, span.first) {
        place
    } else {
        span.first
    };
    let last = if precedes(span.last, place) {
        place
    } else {
        span.last
    };
    SentSpan { first, last }
}

impl Sendings {
    /// Notes which number an act brings the pair's reader, where it is one of these. After `Memory` what was found is of no use.
    fn note(&mut self, placed: &Placed<'_>, pair: Pair, numbers: &[Stretch]) -> Result<(), Memory>
        requires { rising.AreRising numbers.now }
        ensures { OnOk result ((acts : List placed_spec.PlacedValue) → runs.AreSendings (stretches.stretches_have numbers.now) (kinds.first_brought pair acts) self.old
            → runs.AreSendings (stretches.stretches_have numbers.now) (kinds.first_brought pair (acts ++ placed_spec.placed_value placed.now ∷ [])) self.new) }
    {
        let Some(number) = said_to(placed, pair).brought else {
            return Ok(());
        };
        if end_at(numbers, number) <= number || self.places.contains_key(&number) {
            return Ok(());
        }
        let place = location_of(placed);
        self.places.insert(number, place)?;
        self.span = Some(span_with(self.span, place));
        Ok(())
    }

    /// Where these numbers, which rise, are sent first to the pair's reader by these acts.
    pub(crate) fn of(
        alloc: Global,
        acts: &[Placed<'_>],
        pair: Pair,
        numbers: &[Stretch],
    ) -> Result<Sendings, Memory>
        requires { rising.AreRising numbers.now }
        ensures { IfOk result (runs.AreSendings (stretches.stretches_have numbers.now) (kinds.first_brought pair (map placed_spec.placed_value acts.now))) }
    {
        let mut sendings = Sendings {
            places: BTreeMap::new(alloc),
            span: None,
        };
        for placed in acts {
            sendings.note(placed, pair, numbers)?;
        }
        Ok(sendings)
    }

    /// Where one of them is sent first; None where it is not sent.
    pub(crate) fn place_of(&self, number: u64) -> Option<Location>
        ensures { result ≡ get nat_cmp self.now.places number }
    {
        match self.places.get(&number) {
            Some(place) => Some(*place),
            None => None,
        }
    }
}
