ghost use Rattle.std.specs.Prelude.{◌≡◌, List, IfOk, OnOk, filter, fold, map};
ghost use Rattle.rtps_audit.specs.Placed as placed;
ghost use Rattle.rtps_fragments.specs.Announcements as announcements_spec;
ghost use Rattle.rtps_fragments.specs.RecordedSamples as recorded_samples;
ghost use Rattle.rtps_fragments.specs.declared.fragments.Fragments.TheVariants.{Read as ReadFragments};
ghost use Rattle.rtps_receiver.specs.Values as values;
ghost use Rattle.rtps_report.specs.ActsRead as acts_read;
ghost use Rattle.rtps_report.specs.Early as early_spec;
ghost use Rattle.rtps_report.specs.Participants as participants;

use crate::participant::joined_of;
use crate::recording::{Recording, datagrams_of};
use bumpalo::Bump;
use rtps_audit::Placed;
use rtps_evidence::Location;
use rtps_fragments::{FragmentWalk, Fragments, Indexed, index_as};
use rtps_ids::{EntityId, Guid, GuidPrefix, Memory};
use rtps_policies::participant_of;
use rtps_receiver::Spoken;
use std::alloc::Global;
use std::collections::{BTreeMap, BTreeSet};

/// From here on the last octet of an entity id is that of a built-in entity (DDSI-RTPS 2.5, 9.3.1.2 "Mapping of the EntityId_t").
const BUILT_IN: u8 = 0xc0;

/// The writer and the reader by which writers are announced (DDSI-RTPS 2.5, 9.3.1.3 "Predefined EntityIds").
const OF_WRITERS: [EntityId; 2] = [
    EntityId([0x00, 0x00, 0x03, 0xc2]),
    EntityId([0x00, 0x00, 0x03, 0xc7]),
];

/// The same for readers.
const OF_READERS: [EntityId; 2] = [
    EntityId([0x00, 0x00, 0x04, 0xc2]),
    EntityId([0x00, 0x00, 0x04, 0xc7]),
];

/// Whether an entity speaks only behind the announcement of its participant: one of a user, or one that announces endpoints.
fn speaks_behind(entity: EntityId) -> bool
    ensures { result ≡ early_spec.speaks_behind entity }
{
    entity.0[3] < BUILT_IN
        || entity == OF_WRITERS[0]
        || entity == OF_WRITERS[1]
        || entity == OF_READERS[0]
        || entity == OF_READERS[1]
}

/// Whether a datagram stands before this place, if there is one.
fn is_before(datagram: u64, place: Option<Location>) -> bool
    ensures { result ≡ early_spec.is_before datagram place }
{
    match place {
        Some(place) => datagram < place.datagram,
        None => true,
    }
}

/// Whether an act of a datagram stands before its participant is announced, or that is never announced.
fn is_early(joined: &BTreeMap<Guid, Location>, datagram: u64, act: &Spoken<'_>) -> bool
    ensures { (announcing : List placed.PlacedValue) → participants.AreJoined announcing joined.now → result ≡ early_spec.is_early announcing datagram (values.spoken_value act.now) }
{
    let origin = act.origin();
    let place = joined.get(&participant_of(origin.prefix)).copied();
    speaks_behind(origin.entity) && is_before(datagram, place)
}

/// Adds the participants of the early acts of a datagram. After `Memory` what is kept is of no use.
fn note_early(
    early: &mut BTreeSet<GuidPrefix>,
    joined: &BTreeMap<Guid, Location>,
    datagram: u64,
    acts: &[Spoken<'_>],
) -> Result<(), Memory>
    ensures { OnOk result ((announcing : List placed.PlacedValue) → participants.AreJoined announcing joined.now
        → early.new.keys ≡ fold early_spec.with_source early.old.keys (filter (early_spec.is_early announcing datagram) (map values.spoken_value acts.now))) }
{
    for act in acts {
        if is_early(joined, datagram, act) {
            early.insert(act.source)?;
        }
    }
    Ok(())
}

/// The participants of a recording that speak before they are announced there, or are never announced.
fn early_in(
    alloc: Global,
    recording: &[&[u8]],
    joined: &BTreeMap<Guid, Location>,
) -> Result<BTreeSet<GuidPrefix>, Memory>
    ensures { IfOk result (λ early. (announcing : List placed.PlacedValue) → participants.AreJoined announcing joined.now
        → early.keys ≡ early_spec.sources_of (early_spec.early_in announcing (acts_read.datagrams_read (map (λ datagram. datagram.now) recording.now)))) }
{
    let mut early = BTreeSet::new(alloc);
    let mut walk = FragmentWalk::new(alloc);
    for place in 0..recording.len() {
        walk.read(recording[place])?;
        note_early(&mut early, joined, place as u64 + 1, walk.acts())?;
    }
    Ok(early)
}

/// What a recording announces. The samples that it borrows are put into the arena.
fn announcements_of<'a>(
    alloc: Global,
    recording: &'a Recording,
    arena: &'a Bump,
) -> Result<Vec<Placed<'a>>, Memory>
    ensures { IfOk result (λ announcements. map placed.placed_value announcements.items ≡ announcements_spec.announcements_in (recorded_samples.intake_as ReadFragments recording.entry.now.datagrams).announcing) }
{
    let datagrams = datagrams_of(alloc, recording)?;
    let indexed = index_as(alloc, &datagrams, Fragments::Read, arena)?;
    let Indexed {
        index: _,
        announcements,
    } = indexed;
    Ok(announcements)
}

/// How many participants of a recording speak before they are announced, or are never announced. `Memory` is answered where there is none
/// to find out.
pub(crate) fn early_of(alloc: Global, recording: &Recording) -> Result<u64, Memory>
    ensures { IfOk result (λ early. early ≡ early_spec.early_of recording.now.datagrams) }
{
    let arena = Bump::new(alloc);
    let announcements = announcements_of(alloc, recording, &arena)?;
    let joined = joined_of(alloc, &announcements)?;
    let datagrams = datagrams_of(alloc, recording)?;
    let early = early_in(alloc, &datagrams, &joined)?;
    Ok(early.len() as u64)
}
