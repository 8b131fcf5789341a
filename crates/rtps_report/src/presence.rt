ghost use Rattle.std.specs.Prelude.{ℕ, ◌≡◌, List, Option, IfOk, OnOk, map};
ghost use Rattle.std.specs.BTreeMap.{get};
ghost use Rattle.rtps_ids.specs.declared.identity.GuidPrefix.{GuidPrefix as GuidPrefixOf};
ghost use Rattle.rtps_receiver.specs.Speech as speech;
ghost use Rattle.rtps_report.specs.Stays as stays;

use rtps_evidence::Times;
use rtps_ids::{GuidPrefix, Memory};
use rtps_wire::Items;
use std::alloc::Global;
use std::collections::BTreeMap;

/// The first and the last datagram that a participant sent, counted from 1.
#[derive(Clone, Copy)]
pub struct Stay {
    pub first: u64,
    pub last: u64,
}

/// When a recording has something of a participant.
#[derive(Clone, Copy)]
pub(crate) struct Presence {
    stay: Stay,
    /// The greatest time of the datagrams that it sent; None where one of them has no time.
    latest: Option<u64>,
}

/// When a recording has something of each participant: of each sender of a datagram.
#[derive(Drop)]
pub(crate) struct Presences {
    of_senders: BTreeMap<GuidPrefix, Presence>,
}

/// The later of two times; None where there are not both.
fn later_of_both(one: Option<u64>, other: Option<u64>) -> Option<u64>
    ensures { result ≡ stays.both_later one other }
{
    match (one, other) {
        (Some(one), Some(other)) => Some(one.max(other)),
        (Some(_), None) => None,
        (None, _) => None,
    }
}

/// Who sent a datagram of any length, by its header. None where that cannot be read.
pub(crate) fn sender_of(datagram: &[u8]) -> Option<GuidPrefix>
    ensures { result ≡ stays.sender_of datagram.now }
{
    match Items::open(datagram) {
        Ok((header, _)) => Some(header.prefix),
        Err(_) => None,
    }
}

/// Notes that a datagram, behind all that were noted, was sent by a participant. It came at this time.
fn note_presence(
    presences: &mut BTreeMap<GuidPrefix, Presence>,
    datagram: u64,
    time: Option<u64>,
    source: GuidPrefix,
) -> Result<(), Memory>
    ensures { OnOk result ((prefix : GuidPrefixOf) → get stays.prefix_cmp presences.new prefix
        ≡ stays.presence_with datagram time (speech.is_prefix source prefix) (get stays.prefix_cmp presences.old prefix)) }
{
    if let Some(presence) = presences.get_mut(&source) {
        presence.stay.last = datagram;
        presence.latest = later_of_both(presence.latest, time);
        return Ok(());
    }
    let stay = Stay {
        first: datagram,
        last: datagram,
    };
    presences.insert(source, Presence { stay, latest: time })?;
    Ok(())
}

impl Presences {
    /// Notes one datagram more, of this number. It came at this time. After `Memory` it is of no use.
    fn note(&mut self, number: u64, time: Option<u64>, datagram: &[u8]) -> Result<(), Memory>
        ensures { OnOk result ((prefix : GuidPrefixOf) → get stays.prefix_cmp self.new.of_senders prefix
            ≡ stays.presence_with number time (stays.is_sender prefix (stays.sender_of datagram.now)) (get stays.prefix_cmp self.old.of_senders prefix)) }
    {
        match sender_of(datagram) {
            Some(sender) => note_presence(&mut self.of_senders, number, time, sender),
            None => Ok(()),
        }
    }

    /// That of a recording, any datagrams, which came then. `Memory` is answered where it cannot grow.
    pub(crate) fn of(alloc: Global, recording: &[&[u8]], times: &Times) -> Result<Presences, Memory>
        ensures { IfOk result (stays.ArePresencesOf (map (λ datagram. datagram.now) recording.now) times.now.of_datagrams) }
    {
        let mut presences = Presences {
            of_senders: BTreeMap::new(alloc),
        };
        for place in 0..recording.len() {
            let number = place as u64 + 1;
            presences.note(number, times.of_datagram(number), recording[place])?;
        }
        Ok(presences)
    }

    /// From when to when there is something of a participant; None where there is nothing.
    pub(crate) fn stay(&self, prefix: GuidPrefix) -> Option<Stay>
        ensures { (recording : List (List ℕ)) (times : List (Option ℕ)) → stays.ArePresencesOf recording times self.now
            → result ≡ stays.stay_of recording prefix }
    {
        Some(self.of_senders.get(&prefix)?.stay)
    }

    /// The greatest time of the datagrams that a participant sent. None where there is no datagram, or one has no time.
    pub(crate) fn latest(&self, prefix: GuidPrefix) -> Option<u64>
        ensures { (recording : List (List ℕ)) (times : List (Option ℕ)) → stays.ArePresencesOf recording times self.now
            → result ≡ stays.latest_of recording times prefix }
    {
        self.of_senders.get(&prefix)?.latest
    }
}
