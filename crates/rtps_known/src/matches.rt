ghost use Rattle.std.specs.Prelude.{◌≡◌, ◌++◌, ◌∷◌, ◌||◌, [], List, OnOk};
ghost use Rattle.std.specs.BTreeSet.{contains};
ghost use Rattle.rtps_ids.specs.declared.identity.GuidPrefix.{GuidPrefix as GuidPrefixValue};
ghost use Rattle.rtps_receiver.specs.Values as values;
ghost use Rattle.rtps_known.specs.Bulletins as bulletins;
ghost use Rattle.rtps_known.specs.Matched as matched_spec;
ghost use Rattle.rtps_known.specs.Places as places_spec;
ghost use Rattle.rtps_known.specs.declared.layout.entity.TheConstants.{PUBLICATIONS, SUBSCRIPTIONS};
ghost use Rattle.rtps_known.specs.Spreads as spreads_spec;
ghost use Rattle.rtps_known.specs.Tellings as tellings;

use crate::asking::subject;
use crate::issue::{Issue, delay_by, is_ahead, is_near, issue_told, times_told};
use crate::layout::entity;
use crate::place::{Place, later_known, precedes};
use crate::spread::{Spread, insert_if};
use rtps_ids::{EntityId, Guid, GuidPrefix, Memory};
use rtps_policies::{announced_participant, keep_first, participant_of};
use rtps_receiver::Spoken;
use std::alloc::Global;
use std::collections::{BTreeMap, BTreeSet};

/// Where a writer and a reader matched.
#[derive(Clone, Copy)]
pub struct Matched {
    pub place: Place,
    /// How long behind the later of the two that is, in nanoseconds, and 0 where it is before that; None where the times do not tell.
    pub delay: Option<u64>,
}

/// What a recording says of when writers and readers matched.
#[derive(Drop)]
pub struct Matches {
    pub(crate) spreads: BTreeMap<Guid, Spread>,
    /// How each endpoint is announced first.
    pub(crate) issues: BTreeMap<Guid, Issue>,
    /// Where each participant is announced first.
    pub(crate) joined: BTreeMap<Guid, Place>,
    /// Who has a DATA that came at most 0.1 s behind its source time.
    pub(crate) near: BTreeSet<GuidPrefix>,
    /// Who has one that came more than 0.1 s before it.
    pub(crate) ahead: BTreeSet<GuidPrefix>,
    alloc: Global,
}

impl Matches {
    /// That of no acts. It takes no memory.
    pub fn new(alloc: Global) -> Matches
        ensures { matched_spec.AreMatchesOf [] result }
    {
        Matches {
            spreads: BTreeMap::new(alloc),
            issues: BTreeMap::new(alloc),
            joined: BTreeMap::new(alloc),
            near: BTreeSet::new(alloc),
            ahead: BTreeSet::new(alloc),
            alloc,
        }
    }

    /// Keeps what an act says, the next one of the recording, and where it stands. A sample that was put together stands as a DATA in the place
    /// where it became whole. After `Memory` it is of no use.
    pub fn note(&mut self, act: &Spoken<'_>, place: Place) -> Result<(), Memory>
        ensures { OnOk result ((acts : List places_spec.PlacedAct) → matched_spec.AreMatchesOf acts self.old
            → matched_spec.AreMatchesOf (acts ++ (record { act = values.spoken_value act.now; place = place }) ∷ []) self.new) }
    {
        note_spread(&mut self.spreads, self.alloc, act, place)?;
        note_issue(&mut self.issues, act, place)?;
        note_joined(&mut self.joined, act, place)?;
        note_clock(&mut self.near, &mut self.ahead, act, place)?;
        Ok(())
    }

    /// Where a writer and a reader of two participants matched, and how late. None where the recording does not tell. Of a participant with two
    /// lives under one GUID it says nothing that is of use.
    pub fn matched(&self, writer: Guid, reader: Guid) -> Option<Matched>
        ensures { (acts : List places_spec.PlacedAct) → matched_spec.AreMatchesOf acts self.now → result ≡ matched_spec.matched acts writer reader }
    {
        let place = self.place_matched(writer, reader)?;
        let delay = self.delay_of(writer, reader, place);
        Some(Matched { place, delay })
    }

    fn place_matched(&self, writer: Guid, reader: Guid) -> Option<Place>
        ensures { (acts : List places_spec.PlacedAct) → matched_spec.AreMatchesOf acts self.now → result ≡ matched_spec.place_matched acts writer reader }
    {
        if writer.prefix == reader.prefix
            || self.began_in_the_middle(writer.prefix, reader.prefix)
        {
            return None;
        }
        let of_writer = self.learned_of(reader.prefix, writer);
        let of_reader = self.learned_of(writer.prefix, reader);
        let both = self.both_joined(writer.prefix, reader.prefix);
        later_known(later_known(of_writer, of_reader), both)
    }

    /// The later of the places where two participants are announced first.
    fn both_joined(&self, one: GuidPrefix, other: GuidPrefix) -> Option<Place>
        ensures { (acts : List places_spec.PlacedAct) → matched_spec.AreMatchesOf acts self.now → result ≡ matched_spec.both_joined acts one other }
    {
        later_known(self.joined_at(one), self.joined_at(other))
    }

    fn joined_at(&self, prefix: GuidPrefix) -> Option<Place>
        ensures { (acts : List places_spec.PlacedAct) → matched_spec.AreMatchesOf acts self.now → result ≡ matched_spec.joined acts prefix }
    {
        self.joined.get(&participant_of(prefix)).copied()
    }

    /// Where a participant learned of an endpoint.
    fn learned_of(&self, prefix: GuidPrefix, endpoint: Guid) -> Option<Place>
        ensures { (acts : List places_spec.PlacedAct) → matched_spec.AreMatchesOf acts self.now → result ≡ matched_spec.learned_of acts prefix endpoint }
    {
        let issue = self.issues.get(&endpoint).copied()?;
        let writer = Guid {
            prefix: endpoint.prefix,
            entity: issue.entity,
        };
        match self.spreads.get(&writer) {
            Some(spread) => spread.learned(prefix, issue.number),
            None => None,
        }
    }

    /// Whether the recording began when two participants knew each other.
    fn began_in_the_middle(&self, one: GuidPrefix, other: GuidPrefix) -> bool
        ensures { (acts : List places_spec.PlacedAct) → matched_spec.AreMatchesOf acts self.now → result ≡ matched_spec.began_in_the_middle acts one other }
    {
        match self.both_joined(one, other) {
            Some(place) => self.met_before(one, other, place),
            None => false,
        }
    }

    fn met_before(&self, one: GuidPrefix, other: GuidPrefix, place: Place) -> bool
        ensures { (acts : List places_spec.PlacedAct) → matched_spec.AreMatchesOf acts self.now → result ≡ matched_spec.met_before acts one other place }
    {
        self.has_met(one, other, place) || self.has_met(other, one, place)
    }

    /// Whether the second participant acknowledges, before a place, what the first one tells of its endpoints.
    fn has_met(&self, one: GuidPrefix, other: GuidPrefix, place: Place) -> bool
        ensures { (acts : List places_spec.PlacedAct) → matched_spec.AreMatchesOf acts self.now → result
            ≡ (matched_spec.claims_before acts place one other PUBLICATIONS || matched_spec.claims_before acts place one other SUBSCRIPTIONS) }
    {
        self.claims_before(one, other, entity::PUBLICATIONS, place)
            || self.claims_before(one, other, entity::SUBSCRIPTIONS, place)
    }

    /// The same of one built-in writer.
    fn claims_before(
        &self,
        one: GuidPrefix,
        other: GuidPrefix,
        entity: EntityId,
        place: Place,
    ) -> bool
        ensures { (acts : List places_spec.PlacedAct) → matched_spec.AreMatchesOf acts self.now → result ≡ matched_spec.claims_before acts place one other entity }
    {
        let writer = Guid {
            prefix: one,
            entity,
        };
        match self.spreads.get(&writer) {
            Some(spread) => is_before(spread.firsts.get(&other).copied(), place),
            None => false,
        }
    }

    fn delay_of(&self, writer: Guid, reader: Guid, place: Place) -> Option<u64>
        ensures { (acts : List places_spec.PlacedAct) → matched_spec.AreMatchesOf acts self.now → result ≡ matched_spec.delay_of acts writer reader place }
    {
        if !self.fits(writer.prefix) || !self.fits(reader.prefix) {
            return None;
        }
        let one = self.issues.get(&writer).copied()?;
        let other = self.issues.get(&reader).copied()?;
        delay_by(place.time, one.sent, other.sent)
    }

    /// Whether the clock of a participant fits that of the recording.
    fn fits(&self, prefix: GuidPrefix) -> bool
        ensures { (acts : List places_spec.PlacedAct) → matched_spec.AreMatchesOf acts self.now → result ≡ matched_spec.fits acts prefix }
    {
        self.near.contains(&prefix) && !self.ahead.contains(&prefix)
    }
}

/// Whether there is a place, and it stands before this one.
fn is_before(claimed: Option<Place>, place: Place) -> bool
    ensures { result ≡ tellings.holds (λ one. places_spec.precedes one place) claimed }
{
    match claimed {
        Some(claimed) => precedes(claimed, place),
        None => false,
    }
}

/// Keeps an act about a built-in writer of endpoints. After `Memory` it is of no use.
fn note_spread(
    spreads: &mut BTreeMap<Guid, Spread>,
    alloc: Global,
    act: &Spoken<'_>,
    place: Place,
) -> Result<(), Memory>
    ensures { OnOk result ((acts : List places_spec.PlacedAct) → spreads_spec.AreSpreadsOf acts spreads.old
        → spreads_spec.AreSpreadsOf (acts ++ (record { act = values.spoken_value act.now; place = place }) ∷ []) spreads.new) }
{
    let Some(writer) = subject(act) else {
        return Ok(());
    };
    if let Some(spread) = spreads.get_mut(&writer) {
        spread.note(act, place)?;
        return Ok(());
    }
    let mut spread = Spread::new(alloc);
    spread.note(act, place)?;
    spreads.insert(writer, spread)?;
    Ok(())
}

/// Keeps how an act announces an endpoint, unless it was announced before. After `Memory` nothing has changed.
fn note_issue(
    issues: &mut BTreeMap<Guid, Issue>,
    act: &Spoken<'_>,
    place: Place,
) -> Result<(), Memory>
    ensures { OnOk result ((acts : List places_spec.PlacedAct) → matched_spec.AreIssuesOf acts issues.old.entries
        → matched_spec.AreIssuesOf (acts ++ (record { act = values.spoken_value act.now; place = place }) ∷ []) issues.new.entries) }
{
    let Some((guid, issue)) = issue_told(act, place) else {
        return Ok(());
    };
    keep_first(issues, guid, issue)?;
    Ok(())
}

/// Keeps where an act announces a participant, unless it was announced before. After `Memory` nothing has changed.
fn note_joined(
    joined: &mut BTreeMap<Guid, Place>,
    act: &Spoken<'_>,
    place: Place,
) -> Result<(), Memory>
    ensures { OnOk result ((acts : List places_spec.PlacedAct) → matched_spec.AreJoinedIn acts joined.old.entries
        → matched_spec.AreJoinedIn (acts ++ (record { act = values.spoken_value act.now; place = place }) ∷ []) joined.new.entries) }
{
    let Some(guid) = announced_participant(act) else {
        return Ok(());
    };
    keep_first(joined, guid, place)?;
    Ok(())
}

/// Keeps how far a DATA came from its source time. After `Memory` it is of no use.
fn note_clock(
    near: &mut BTreeSet<GuidPrefix>,
    ahead: &mut BTreeSet<GuidPrefix>,
    act: &Spoken<'_>,
    place: Place,
) -> Result<(), Memory>
    ensures near { OnOk result ((prefix : GuidPrefixValue) → contains bulletins.prefix_cmp near.new prefix
        ≡ (contains bulletins.prefix_cmp near.old prefix || matched_spec.is_near prefix (record { act = values.spoken_value act.now; place = place }))) }
    ensures ahead { OnOk result ((prefix : GuidPrefixValue) → contains bulletins.prefix_cmp ahead.new prefix
        ≡ (contains bulletins.prefix_cmp ahead.old prefix || matched_spec.is_ahead prefix (record { act = values.spoken_value act.now; place = place }))) }
{
    let times = times_told(act, place);
    insert_if(near, act.source, is_near(times))?;
    insert_if(ahead, act.source, is_ahead(times))?;
    Ok(())
}
