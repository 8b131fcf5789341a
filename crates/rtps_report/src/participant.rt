ghost use Rattle.std.specs.Prelude.{◌≡◌, ◌++◌, ◌∷◌, [], IfOk, List, OnOk, map};
ghost use Rattle.rtps_audit.specs.Placed as placed_spec;
ghost use Rattle.rtps_policies.specs.Told as told;
ghost use Rattle.rtps_report.specs.Participants as participants_spec;

use crate::presence::Stay;
use rtps_audit::Placed;
use rtps_evidence::Location;
use rtps_ids::{Guid, Memory};
use rtps_policies::{Address, Host, announced_participant};
use std::alloc::Global;
use std::collections::BTreeMap;

/// A participant that is announced, and when it is there.
#[derive(Clone, Copy)]
pub struct Participant {
    pub guid: Guid,
    pub host: Host,
    /// From when to when the recording has datagrams that it sent; None where it has none.
    pub stay: Option<Stay>,
    /// The datagram in which it leaves; None where it does not.
    pub left: Option<u64>,
    /// Whether it is silent: it does not leave, and each datagram that it sent has a time, which is more than ten seconds before
    /// the end of the recording, or more than its lease where that is shorter.
    pub silent: bool,
}

/// A participant is silent of which nothing comes for longer, up to the end: ten seconds, in nanoseconds. So it is where its lease
/// is shorter, and nothing comes for longer than that.
const SILENCE: u64 = 10_000_000_000;

/// Whether a participant is silent, by its lease, the datagram in which it leaves, the time of its last datagram and the end of the
/// recording.
pub(crate) fn is_silent(
    lease: u64,
    left: Option<u64>,
    latest: Option<u64>,
    end: Option<u64>,
) -> bool
    ensures { result ≡ participants_spec.is_silent lease left latest end }
{
    match (left, latest, end) {
        (None, Some(latest), Some(end)) => end.saturating_sub(latest) > SILENCE.min(lease),
        _ => false,
    }
}

/// Keeps a place of a GUID, unless there is one.
fn keep_place(
    joined: &mut BTreeMap<Guid, Location>,
    guid: Guid,
    place: Location,
) -> Result<(), Memory>
    ensures { OnOk result (told.KeepsFirst joined.old.entries joined.new.entries guid place) }
{
    if !joined.contains_key(&guid) {
        joined.insert(guid, place)?;
    }
    Ok(())
}

/// Keeps where an act announces a participant, if it does, and unless there is a place of that one.
fn note_joined(joined: &mut BTreeMap<Guid, Location>, placed: &Placed<'_>) -> Result<(), Memory>
    ensures { OnOk result ((acts : List placed_spec.PlacedValue) → participants_spec.AreJoined acts joined.old → participants_spec.AreJoined (acts ++ placed_spec.placed_value placed.now ∷ []) joined.new) }
{
    let Some(guid) = announced_participant(&placed.act) else {
        return Ok(());
    };
    let place = Location {
        datagram: placed.datagram as u64,
        at: placed.act.at,
    };
    keep_place(joined, guid, place)?;
    Ok(())
}

/// Where each participant is announced first, by these acts.
pub(crate) fn joined_of(
    alloc: Global,
    announcements: &[Placed<'_>],
) -> Result<BTreeMap<Guid, Location>, Memory>
    ensures { IfOk result (participants_spec.AreJoined (map placed_spec.placed_value announcements.now)) }
{
    let mut joined = BTreeMap::new(alloc);
    for placed in announcements {
        note_joined(&mut joined, placed)?;
    }
    Ok(joined)
}

/// Whether a participant has this address.
fn has_address(participant: &Participant, address: Address) -> bool
    ensures { result ≡ participants_spec.has_address address participant.now }
{
    match participant.host.address {
        Some(own) => own == address,
        None => false,
    }
}

/// Whether there are participants, each with an address, all with the same one.
pub fn are_on_one_host(participants: &[Participant]) -> bool
    ensures { result ≡ participants_spec.are_on_one_host participants.now }
{
    let Some((first, others)) = participants.split_first() else {
        return false;
    };
    let Some(address) = first.host.address else {
        return false;
    };
    for other in others {
        if !has_address(other, address) {
            return false;
        }
    }
    true
}
