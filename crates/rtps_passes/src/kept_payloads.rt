ghost use Rattle.std.specs.Prelude.{ℕ, Bool, ◌≡◌, ◌++◌, ◌∷◌, [], ◌↔◌, true, All, Contains, IfOk, IfSome, IsTrue, List, OnOk};
ghost use Rattle.rtps_wire.specs.Values as wire_values;
ghost use Rattle.rtps_audit.specs.PayloadConflict as payload_conflict;
ghost use Rattle.rtps_audit.specs.Placed as placed_spec;
ghost use Rattle.rtps_passes.specs.Comparison as comparison;
ghost use Rattle.rtps_passes.specs.declared.kept_payload.KeptPayload.{KeptPayload as KeptValue};

use crate::kept_payload::KeptPayload;
use bumpalo::Bump;
use rtps_audit::AddressedPayload;
use rtps_ids::Memory;
use rtps_wire::Payload;
use std::alloc::Global;
use std::collections::BTreeMap;

/// The payloads of a writer that are compared. One that was sent again to the same readers is kept once.
#[derive(Drop)]
pub(crate) struct KeptPayloads<'p> {
    pub(crate) payloads: Vec<KeptPayload<'p>>,
    /// Where those of a number stand.
    places: BTreeMap<u64, Vec<usize>>,
    alloc: Global,
}

/// Whether two payloads are equal in kind and octets.
fn is_same_payload(one: &Payload<'_>, other: &Payload<'_>) -> bool
    ensures { IsTrue result ↔ (wire_values.payload_value one.now ≡ wire_values.payload_value other.now) }
{
    match (*one, *other) {
        (Payload::Absent, Payload::Absent) => true,
        (Payload::Whole(one), Payload::Whole(other)) => one == other,
        (Payload::Key(one), Payload::Key(other)) => one == other,
        _ => false,
    }
}

/// A payload with its octets in an arena.
fn copied<'p>(payload: &Payload<'_>, arena: &'p Bump) -> Result<Payload<'p>, Memory>
    ensures { IfOk result (λ copy. wire_values.payload_value copy ≡ wire_values.payload_value payload.now) }
{
    match payload {
        Payload::Absent => Ok(Payload::Absent),
        Payload::Whole(octets) => Ok(Payload::Whole(arena.try_alloc_slice_copy(octets)?)),
        Payload::Key(octets) => Ok(Payload::Key(arena.try_alloc_slice_copy(octets)?)),
    }
}

/// Whether what is kept is this entry.
fn is_entry(kept: &KeptPayload<'_>, entry: &AddressedPayload<'_, '_>) -> bool
    ensures { result ≡ true → comparison.IsEntryOf entry.now kept.now }
{
    kept.number == entry.number
        && kept.dest == *entry.dest
        && kept.reader == entry.reader
        && is_same_payload(&kept.payload, entry.payload)
}

impl<'p> KeptPayloads<'p> {
    /// Nothing is kept.
    pub(crate) fn new(alloc: Global) -> Self
        ensures { result.payloads.items ≡ [] }
    {
        KeptPayloads {
            payloads: Vec::new(alloc),
            places: BTreeMap::new(alloc),
            alloc,
        }
    }

    /// Where the payloads of a number stand.
    fn places_of(&self, number: u64) -> &[usize] {
        match self.places.get(&number) {
            Some(places) => places,
            None => &[],
        }
    }

    /// Whether an entry is found among the payloads of its number.
    fn has(&self, entry: &AddressedPayload<'_, '_>) -> bool
        ensures { result ≡ true → (one : KeptValue) × Contains self.now.payloads.items one × comparison.IsEntryOf entry.now one }
    {
        for place in self.places_of(entry.number) {
            if let Some(kept) = self.payloads.get(*place)
                && is_entry(kept, entry)
            {
                return true;
            }
        }
        false
    }

    /// A payload of this number that is equal to this one, if one is found.
    fn equal_to(&self, number: u64, payload: &Payload<'_>) -> Option<Payload<'p>>
        ensures { IfSome result (λ kept. wire_values.payload_value kept ≡ wire_values.payload_value payload.now) }
    {
        for place in self.places_of(number) {
            if let Some(kept) = self.payloads.get(*place)
                && is_same_payload(&kept.payload, payload)
            {
                return Some(kept.payload);
            }
        }
        None
    }

    /// What is to be kept of an entry: it shares the octets of an equal payload of its number, and else they are copied.
    fn kept_of(
        &self,
        entry: &AddressedPayload<'_, '_>,
        arena: &'p Bump,
    ) -> Result<KeptPayload<'p>, Memory>
        requires { payload_conflict.IsInRange entry.now }
        ensures { IfOk result (comparison.IsEntryOf entry.now) }
    {
        let payload = match self.equal_to(entry.number, entry.payload) {
            Some(payload) => payload,
            None => copied(entry.payload, arena)?,
        };
        Ok(KeptPayload {
            number: entry.number,
            dest: *entry.dest,
            reader: entry.reader,
            payload,
        })
    }

    /// Keeps an entry, unless it is kept. After `Memory` what is kept is of no use.
    pub(crate) fn keep(
        &mut self,
        entry: &AddressedPayload<'_, '_>,
        arena: &'p Bump,
    ) -> Result<(), Memory>
        requires { payload_conflict.IsInRange entry.now }
        ensures { OnOk result ((wanted : ℕ → Bool) (placed : List placed_spec.PlacedValue) (at : placed_spec.PlacedValue)
            → payload_conflict.IsSentBy at.act entry.now → wanted entry.now.number ≡ true
            → comparison.AreKept wanted placed self.old.payloads.items → comparison.AreKept wanted (placed ++ at ∷ []) self.new.payloads.items) }
    {
        if self.has(entry) {
            return Ok(());
        }
        let place = self.payloads.len();
        let kept = self.kept_of(entry, arena)?;
        self.payloads.push(kept)?;
        self.places
            .entry(entry.number)?
            .or_insert(Vec::new(self.alloc))
            .push(place)?;
        Ok(())
    }
}

/// The entries of what is kept.
pub(crate) fn entries_of<'x, 'p>(
    alloc: Global,
    kept: &'x [KeptPayload<'p>],
) -> Result<Vec<AddressedPayload<'x, 'p>>, Memory>
    ensures in_range { IfOk result (λ entries. All payload_conflict.IsInRange entries.items) }
    ensures sent { (wanted : ℕ → Bool) (placed : List placed_spec.PlacedValue) → comparison.AreKept wanted placed kept.now → IfOk result (λ entries. payload_conflict.AreSentIn wanted placed entries.items) }
{
    let mut entries = Vec::with_capacity(alloc, kept.len())?;
    for one in kept {
        entries.push(AddressedPayload {
            number: one.number,
            dest: &one.dest,
            reader: one.reader,
            payload: &one.payload,
        })?;
    }
    Ok(entries)
}
