ghost use Rattle.std.specs.Prelude.{◌≡◌, ◌+◌, ◌<◌, ◌^◌, ◌++◌, ◌∷◌, [], filter, length, List, map, OnOk};
ghost use Rattle.rtps_receiver.specs.Values as values;
ghost use Rattle.rtps_audit.specs.Intake as intake_spec;
ghost use Rattle.rtps_audit.specs.Placed as placed;
ghost use Rattle.rtps_fragments.specs.Announcing as announcing_spec;
ghost use Rattle.rtps_fragments.specs.Announcements as announcements_spec;
ghost use Rattle.rtps_fragments.specs.ReadDatagrams as read_datagrams;

use crate::listen::{Listen, ReadDatagram};
use rtps_audit::{Index, Placed, place};
use rtps_ids::{EntityId, Memory};
use rtps_receiver::{ActBody, Spoken, SpokenBody};
use rtps_wire::Tally;
use std::alloc::Global;
use std::slice;

/// The index of a recording, and in their places the DATA of built-in writers: all acts of it that may announce something.
#[derive(Drop)]
pub struct Indexed<'s> {
    pub index: Index<'s>,
    pub announcements: Vec<Placed<'s>>,
}

/// The acts of a datagram.
#[derive(Clone, Copy)]
pub(crate) struct DatagramActs<'r, 's> {
    /// The number of the datagram, counted from 1.
    pub(crate) datagram: usize,
    /// Those that it has itself.
    pub(crate) own: &'r [Spoken<'s>],
    /// Those that verdicts are by.
    pub(crate) acts: &'r [Spoken<'s>],
    /// Those of which it is noted what they announce.
    pub(crate) announcing: &'r [Spoken<'s>],
}

/// The least last octet of the entity id of a built-in entity: its two highest bits are set (DDSI-RTPS 2.5, 9.3.1.2 "Mapping of
/// the EntityId_t").
const BUILT_IN: u8 = 0xc0;

/// Whether an entity is a built-in one.
pub(crate) fn is_built_in(entity: EntityId) -> bool
    ensures { result ≡ announcing_spec.is_built_in entity }
{
    entity.0[3] >= BUILT_IN
}

/// Whether an act is a DATA of a built-in writer: no other announces something.
fn is_of_built_in(body: &SpokenBody<'_>) -> bool
    ensures { result ≡ announcements_spec.is_of_built_in (values.spoken_body_value body.now) }
{
    match body {
        SpokenBody::Act(ActBody::Data(data)) => is_built_in(data.writer),
        SpokenBody::Act(ActBody::Heartbeat(_))
        | SpokenBody::Act(ActBody::AckNack(_))
        | SpokenBody::Act(ActBody::Gap(_))
        | SpokenBody::DataFrag(_)
        | SpokenBody::NackFrag(_) => false,
    }
}

/// Appends those of the acts of a datagram.
fn push_announcements<'s>(
    found: &mut Vec<Placed<'s>>,
    datagram: usize,
    acts: &[Spoken<'s>],
) -> Result<(), Memory>
    ensures { OnOk result (map placed.placed_value found.new.items
        ≡ map placed.placed_value found.old.items ++ filter announcements_spec.is_announcement (placed.placed_at datagram (map values.spoken_value acts.now))) }
{
    for act in acts {
        if is_of_built_in(&act.body) {
            found.extend_from_slice(slice::from_ref(&place(datagram, act)))?;
        }
    }
    Ok(())
}

impl<'s> Indexed<'s> {
    /// That of no datagrams. It takes no memory.
    pub(crate) fn new(alloc: Global) -> Indexed<'s>
        ensures { announcements_spec.IsIndexedBy intake_spec.no_intake result }
    {
        Indexed {
            index: Index::new(alloc),
            announcements: Vec::new(alloc),
        }
    }

    /// Takes in one datagram more, the next in the order of sending, and tells a listener what is read of it. After `Memory` both are of no
    /// use.
    pub(crate) fn note<L: Listen>(
        &mut self,
        tally: Tally,
        noted: &DatagramActs<'_, 's>,
        listener: &mut L,
    ) -> Result<(), Memory>
        requires few { self.old.index.tallies.datagrams + 1 < 2 ^ 64 }
        requires next { (start : L) × (before : List read_datagrams.ReadDatagramValue) × L.has_heard start before listener.old × (length before + 1 ≡ noted.now.datagram) }
        ensures heard { OnOk result ((start : L) (before : List read_datagrams.ReadDatagramValue) → L.has_heard start before listener.old
            → L.has_heard start (before ++ read_datagrams.datagram_read noted.now.datagram (map values.spoken_value noted.now.own.now) (map values.spoken_value noted.now.announcing.now) ∷ []) listener.new) }
        ensures index { OnOk result ((intake : intake_spec.Intake) → noted.now.datagram ≡ length intake.announcing + 1 → announcements_spec.IsIndexedBy intake self.old
            → announcements_spec.IsIndexedBy (intake_spec.intake_more intake tally (map values.spoken_value noted.now.acts.now) (map values.spoken_value noted.now.announcing.now)) self.new) }
    {
        let first = self.announcements.len();
        self.index.note(tally, noted.acts, noted.announcing)?;
        push_announcements(&mut self.announcements, noted.datagram, noted.announcing)?;
        listener.hear(&ReadDatagram {
            datagram: noted.datagram,
            acts: noted.own,
            announcements: &self.announcements[first..],
        })?;
        Ok(())
    }
}
