ghost use Rattle.std.specs.Prelude.{ℕ, ◌≡◌, IfOk, List, OnOk, map};
ghost use Rattle.std.specs.BTreeMap.{get};
ghost use Rattle.rtps_ids.specs.declared.identity.Guid.{Guid as GuidOf};
ghost use Rattle.rtps_ids.specs.declared.identity.GuidPrefix.{GuidPrefix as GuidPrefixOf};
ghost use Rattle.rtps_receiver.specs.Speech as speech;
ghost use Rattle.rtps_discovery.specs.GuidOrder as guid_order;
ghost use Rattle.rtps_audit.specs.Intake as intake;
ghost use Rattle.rtps_audit.specs.Placed as placed;
ghost use Rattle.rtps_report.specs.Participants as participants_spec;
ghost use Rattle.rtps_report.specs.Stays as stays;
ghost use Rattle.rtps_report.specs.Visits as visits_spec;

use crate::participant::Participant;
use crate::presence::Presences;
use rtps_evidence::{Location, Times};
use rtps_ids::{Guid, GuidPrefix, Memory};
use rtps_known::Visit;
use rtps_policies::participant_of;
use std::alloc::Global;
use std::collections::BTreeMap;

/// When the datagram of a place came, where there is a place.
fn place_time(times: &Times, place: Option<Location>) -> Option<u64>
    ensures { result ≡ visits_spec.place_time times.now.of_datagrams place }
{
    match place {
        Some(place) => times.of_datagram(place.datagram),
        None => None,
    }
}

/// When a participant leaves: in no datagram, or then. None where that is not known.
fn left_time(times: &Times, left: Option<u64>) -> Option<Option<u64>>
    ensures { result ≡ visits_spec.left_time times.now.of_datagrams left }
{
    match left {
        Some(datagram) => match times.of_datagram(datagram) {
            Some(time) => Some(Some(time)),
            None => None,
        },
        None => Some(None),
    }
}

/// A visit, where it is known when it begins and when the participant leaves.
fn visit(since: Option<u64>, left: Option<Option<u64>>, last: Option<u64>) -> Option<Visit>
    ensures { result ≡ visits_spec.visit_by since left last }
{
    match (since, left) {
        (Some(since), Some(left)) => Some(Visit { since, left, last }),
        (Some(_), None) => None,
        (None, _) => None,
    }
}

/// Where participants are announced first, when they are heard, and when datagrams came.
#[derive(Clone, Copy)]
pub(crate) struct Seen<'r> {
    pub(crate) joined: &'r BTreeMap<Guid, Location>,
    pub(crate) presences: &'r Presences,
    pub(crate) times: &'r Times,
}

/// When a participant is there; None where that is not known.
fn visit_for(seen: Seen<'_>, participant: &Participant) -> Option<Visit>
    ensures { (recording : List (List ℕ)) → stays.ArePresencesOf recording seen.entry.times.now.of_datagrams seen.entry.presences.now
        → result ≡ visits_spec.visit_by (visits_spec.place_time seen.entry.times.now.of_datagrams (get guid_order.guid_cmp seen.entry.joined.now participant.now.guid))
        (visits_spec.left_time seen.entry.times.now.of_datagrams participant.now.left) (stays.latest_of recording seen.entry.times.now.of_datagrams participant.now.guid.prefix) }
{
    let since = place_time(seen.times, seen.joined.get(&participant.guid).copied());
    let left = left_time(seen.times, participant.left);
    visit(since, left, seen.presences.latest(participant.guid.prefix))
}

/// Keeps a visit of a participant, if there is one. After `Memory` the visits are of no use.
fn keep_visit(
    visits: &mut BTreeMap<GuidPrefix, Visit>,
    prefix: GuidPrefix,
    visit: Option<Visit>,
) -> Result<(), Memory>
    ensures { OnOk result ((other : GuidPrefixOf) → get stays.prefix_cmp visits.new other
        ≡ visits_spec.visit_with (speech.is_prefix prefix other) visit (get stays.prefix_cmp visits.old other)) }
{
    if let Some(visit) = visit {
        visits.insert(prefix, visit)?;
    }
    Ok(())
}

/// Keeps when one of these is there, if that is known. After `Memory` the visits are of no use.
fn note_visit(
    visits: &mut BTreeMap<GuidPrefix, Visit>,
    seen: Seen<'_>,
    participant: &Participant,
) -> Result<(), Memory>
    ensures { OnOk result ((recording : List (List ℕ)) → stays.ArePresencesOf recording seen.entry.times.now.of_datagrams seen.entry.presences.now
        → (other : GuidPrefixOf) → get stays.prefix_cmp visits.new other
        ≡ visits_spec.visit_with (visits_spec.is_participant other participant.now.guid) (visits_spec.visit_by (visits_spec.place_time seen.entry.times.now.of_datagrams (get guid_order.guid_cmp seen.entry.joined.now participant.now.guid))
        (visits_spec.left_time seen.entry.times.now.of_datagrams participant.now.left) (stays.latest_of recording seen.entry.times.now.of_datagrams participant.now.guid.prefix))
        (get stays.prefix_cmp visits.old other)) }
{
    if participant.guid != participant_of(participant.guid.prefix) {
        return Ok(());
    }
    let visit = visit_for(seen, participant);
    keep_visit(visits, participant.guid.prefix, visit)
}

/// When each of these participants is there of which that is known.
pub(crate) fn visits_of(
    alloc: Global,
    participants: &[Participant],
    seen: Seen<'_>,
) -> Result<BTreeMap<GuidPrefix, Visit>, Memory>
    ensures { IfOk result (λ visits. (intake : intake.Intake) (recording : List (List ℕ)) (announced : List GuidOf)
        → stays.ArePresencesOf recording seen.entry.times.now.of_datagrams seen.entry.presences.now → participants_spec.AreJoined (placed.placed_in intake.announcing) seen.entry.joined.now
        → participants.now ≡ map (participants_spec.participant_told intake recording seen.entry.times.now) announced
        → visits_spec.AreVisitsIn intake recording seen.entry.times.now.of_datagrams announced visits) }
{
    let mut visits = BTreeMap::new(alloc);
    for participant in participants {
        note_visit(&mut visits, seen, participant)?;
    }
    Ok(visits)
}
