ghost use Rattle.std.specs.Prelude.{◌≡◌};
ghost use Rattle.std.specs.List.{find};
ghost use Rattle.rtps_report.specs.Silences as silences_spec;
ghost use Rattle.rtps_report.specs.Talk as talk;

use crate::late_matches::is_mixed;
use crate::not_told::is_not_told_of;
use crate::participant::Participant;
use crate::talk::Talk;
use rtps_discovery::Pair;
use rtps_ids::{Guid, GuidPrefix};
use rtps_policies::{Address, OneWay, participant_of};

/// What is known of the participants of a pair's writer and reader, beside what the two say of its numbers.
#[derive(Clone, Copy)]
pub struct Silences {
    /// Since which datagram that of the writer is silent; None where it is not.
    pub writer: Option<u64>,
    /// Since which datagram that of the reader is.
    pub reader: Option<u64>,
    /// Whether that of the reader was not told of endpoints of the other.
    pub is_not_told: bool,
    /// Whether one of the two has two lives under one GUID.
    pub is_twice: bool,
    /// Whether the two of the pair matched late.
    pub matched_late: bool,
}

impl Silences {
    /// Whether neither is silent, and neither has two lives.
    pub(crate) fn are_heard(self) -> bool
        ensures { result ≡ silences_spec.are_heard self }
    {
        self.writer.is_none() && self.reader.is_none() && !self.is_twice
    }
}

/// The first of these participants that has this GUID.
fn first_of(participants: &[Participant], guid: Guid) -> Option<Participant>
    ensures { result ≡ find (silences_spec.has_guid guid) participants.now }
{
    participants.iter().copied().find(|one| one.guid == guid)
}

/// Since which datagram a participant is silent, where there is one that is.
fn silent_since(participant: Option<Participant>) -> Option<u64>
    ensures { result ≡ silences_spec.silent_since participant }
{
    match participant {
        Some(participant) if participant.silent => Some(participant.stay?.last),
        _ => None,
    }
}

/// Since which datagram the first of these participants that has this GUID is silent.
fn silence_among(participants: &[Participant], guid: Guid) -> Option<u64>
    ensures { result ≡ silences_spec.silence_among participants.now guid }
{
    silent_since(first_of(participants, guid))
}

/// Whether the one names the other, and never the other way round.
fn is_one_way(found: &[OneWay], source: GuidPrefix, dest: GuidPrefix) -> bool
    ensures { result ≡ silences_spec.is_one_way found.now source dest }
{
    for one in found {
        if one.naming.source == source && one.naming.dest == dest {
            return true;
        }
    }
    false
}

impl Talk<'_> {
    /// From where nothing comes back of two participants, of which the one names the other; None where something does.
    pub fn address_behind(&self, from: Guid, to: Guid) -> Option<Address>
        ensures { result ≡ silences_spec.address_behind (talk.talk_value self.now) from to }
    {
        if is_one_way(&self.one_way, from.prefix, to.prefix) {
            self.end(to).address
        } else {
            None
        }
    }

    /// Since which datagram a participant is silent; None where it is not.
    pub(crate) fn silent_since(&self, guid: Guid) -> Option<u64>
        ensures { result ≡ silences_spec.silence_among (talk.talk_value self.now).participants guid }
    {
        silence_among(&self.participants, guid)
    }

    /// What is known of the participants of a pair.
    pub fn silences(&self, pair: Pair) -> Silences
        ensures { result ≡ silences_spec.silences_of (talk.talk_value self.now) pair }
    {
        let writer = participant_of(pair.writer.prefix);
        let reader = participant_of(pair.reader.prefix);
        Silences {
            writer: silence_among(&self.participants, writer),
            reader: silence_among(&self.participants, reader),
            is_not_told: is_not_told_of(&self.not_told, writer, reader),
            is_twice: is_mixed(&self.lives, pair),
            matched_late: self.late(pair).is_some(),
        }
    }
}
