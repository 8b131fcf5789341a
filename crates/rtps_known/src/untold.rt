ghost use Rattle.std.specs.Prelude.{◌≡◌, ◌++◌, IfOk, List, MatchOption, None, OnOk, Some, if◌then◌else◌};
ghost use Rattle.std.specs.BTreeSet.{contains};
ghost use Rattle.std.specs.List.{list_any};
ghost use Rattle.std.specs.Ordering.{is_eq};
ghost use Rattle.rtps_ids.specs.declared.identity.GuidPrefix.{GuidPrefix as GuidPrefixValue};
ghost use Rattle.rtps_receiver.specs.Speech as speech;
ghost use Rattle.rtps_receiver.specs.Values as values;
ghost use Rattle.rtps_policies.specs.Announcing as announcing_spec;
ghost use Rattle.rtps_policies.specs.Silence as silence;
ghost use Rattle.rtps_known.specs.Bulletins as bulletins;
ghost use Rattle.rtps_known.specs.Recorded as recorded;
ghost use Rattle.rtps_known.specs.Tellings as tellings;
ghost use Rattle.rtps_known.specs.Untold as untold_spec;

use crate::known::Known;
use crate::layout::entity;
use crate::life::Life;
use crate::visit::{Visit, end_between};
use rtps_ids::{Guid, GuidPrefix, Memory};
use rtps_policies::{Announced, Naming, participant_of, two_domains};
use std::alloc::Global;
use std::collections::{BTreeMap, BTreeSet};

/// The endpoints of a participant that another was never told of.
#[derive(Drop)]
pub struct Untold {
    pub from: Guid,
    pub to: Guid,
    /// The writers that the recording names, in order.
    pub writers: Vec<Guid>,
    /// The readers that it names, in order.
    pub readers: Vec<Guid>,
    /// How many numbers announce what it does not name.
    pub unnamed: u64,
}

/// What is known of participants: when they are there, what is announced of them, and which have two lives.
#[derive(Clone, Copy)]
struct Attending<'r, 'a> {
    visits: &'r BTreeMap<GuidPrefix, Visit>,
    announced: &'r Announced<'a>,
    twice: &'r BTreeSet<GuidPrefix>,
}

impl Untold {
    /// Whether there are none.
    fn is_nothing(&self) -> bool
        ensures { result ≡ untold_spec.is_nothing self.now }
    {
        self.writers.is_empty() && self.readers.is_empty() && self.unnamed == 0
    }

    /// That, unless there are none.
    fn if_something(self) -> Option<Untold>
        ensures { result ≡ (if untold_spec.is_nothing self then None else Some self) }
    {
        if self.is_nothing() {
            return None;
        }
        Some(self)
    }
}

/// Up to when it counts that one participant tells another, by when both are there.
fn end_of(visits: &BTreeMap<GuidPrefix, Visit>, naming: Naming) -> Option<u64>
    ensures { MatchOption result (untold_spec.AreNeverTogether visits.now naming) (untold_spec.AreTogether visits.now naming) }
{
    let Some(one) = visits.get(&naming.source) else {
        return None;
    };
    let Some(other) = visits.get(&naming.dest) else {
        return None;
    };
    end_between(*one, *other)
}

/// The participants of these lives.
fn participants_of(alloc: Global, lives: &[Life]) -> Result<BTreeSet<GuidPrefix>, Memory>
    ensures { IfOk result (λ participants. (prefix : GuidPrefixValue) → contains bulletins.prefix_cmp participants prefix ≡ list_any (λ life. is_eq (bulletins.prefix_cmp life.participant prefix)) lives.now) }
{
    let mut participants = BTreeSet::new(alloc);
    for life in lives {
        participants.insert(life.participant)?;
    }
    Ok(participants)
}

impl Known {
    /// Of each participant and another of which one names the other, in the order of both, what the other was never told of. Of those that are not
    /// among the visits nothing is said, nor of two domains, as they are announced, nor of a participant with two lives.
    pub fn untold(
        &self,
        visits: &BTreeMap<GuidPrefix, Visit>,
        announced: &Announced<'_>,
    ) -> Result<Vec<Untold>, Memory>
        ensures { IfOk result (λ found. (acts : List tellings.TimedAct) (announcing : List values.ActValue) → recorded.IsKnownOf acts self.now → announcing_spec.IsAnnouncedBy announcing announced.now
            → untold_spec.AreUntoldIn acts (record { announcing = announcing; visits = visits.now }) found.items) }
    {
        let twice = self.twice()?;
        let attending = Attending {
            visits,
            announced,
            twice: &twice,
        };
        let mut found = Vec::new(self.alloc);
        for naming in self.met.iter() {
            let said = self.said_of(attending, *naming)?;
            push_said(&mut found, said)?;
        }
        Ok(found)
    }

    /// What a participant was never told of another, if there is something and the two may be looked at.
    fn said_of(
        &self,
        attending: Attending<'_, '_>,
        naming: Naming,
    ) -> Result<Option<Untold>, Memory>
        ensures { IfOk result (λ said. (acts : List tellings.TimedAct) (announcing : List values.ActValue) → recorded.IsKnownOf acts self.now
            → announcing_spec.IsAnnouncedBy announcing attending.entry.announced.now → untold_spec.AreTwice acts attending.entry.twice.now
            → untold_spec.IsSaidOf acts (record { announcing = announcing; visits = attending.entry.visits.now }) naming said) }
    {
        if !may_tell(attending.announced, attending.twice, naming) {
            return Ok(None);
        }
        let said = self.untold_between(attending.visits, naming)?;
        Ok(said)
    }

    /// The participants with two lives.
    fn twice(&self) -> Result<BTreeSet<GuidPrefix>, Memory>
        ensures { IfOk result (λ twice. (acts : List tellings.TimedAct) → recorded.IsKnownOf acts self.now → untold_spec.AreTwice acts twice) }
    {
        let lives = self.lives()?;
        let twice = participants_of(self.alloc, &lives)?;
        Ok(twice)
    }

    /// What a participant was never told of another, if there is something.
    fn untold_between(
        &self,
        visits: &BTreeMap<GuidPrefix, Visit>,
        naming: Naming,
    ) -> Result<Option<Untold>, Memory>
        ensures { IfOk result (λ said. (acts : List tellings.TimedAct) → recorded.IsKnownOf acts self.now
            → MatchOption said (untold_spec.IsAllTold acts visits.now naming) (untold_spec.IsUntold acts visits.now naming)) }
    {
        let Some(end) = end_of(visits, naming) else {
            return Ok(None);
        };
        let untold = self.untold_until(naming, end)?;
        Ok(untold.if_something())
    }

    /// What a participant was never told of another, of what the other told up to a time.
    fn untold_until(&self, naming: Naming, end: u64) -> Result<Untold, Memory>
        ensures { IfOk result (λ untold. (acts : List tellings.TimedAct) → recorded.IsKnownOf acts self.now → untold_spec.IsUntoldUntil acts naming end untold) }
    {
        let publications = Guid {
            prefix: naming.source,
            entity: entity::PUBLICATIONS,
        };
        let subscriptions = Guid {
            prefix: naming.source,
            entity: entity::SUBSCRIPTIONS,
        };
        let writers = self.lacking_of(publications, naming.dest, end)?;
        let readers = self.lacking_of(subscriptions, naming.dest, end)?;
        Ok(Untold {
            from: participant_of(naming.source),
            to: participant_of(naming.dest),
            writers: writers.endpoints,
            readers: readers.endpoints,
            unnamed: writers.unnamed + readers.unnamed,
        })
    }
}

/// Appends what is said of two, if it is something. After `Memory` the list is of no use.
fn push_said(found: &mut Vec<Untold>, said: Option<Untold>) -> Result<(), Memory>
    ensures { OnOk result (found.new.items ≡ found.old.items ++ untold_spec.listed said) }
{
    if let Some(untold) = said {
        found.push(untold)?;
    }
    Ok(())
}

/// Whether what one participant tells another may be looked at: the two differ, are not in two domains, and have one life each.
fn may_tell(announced: &Announced<'_>, twice: &BTreeSet<GuidPrefix>, naming: Naming) -> bool
    ensures { result ≡ untold_spec.may_tell (speech.is_prefix naming.source naming.dest)
        (silence.two_domains (announcing_spec.hosts_in announced.now naming.source) (announcing_spec.hosts_in announced.now naming.dest))
        (contains bulletins.prefix_cmp twice.now naming.source) (contains bulletins.prefix_cmp twice.now naming.dest) }
{
    naming.source != naming.dest
        && !two_domains(
            announced.host_of(naming.source),
            announced.host_of(naming.dest),
        )
        && !twice.contains(&naming.source)
        && !twice.contains(&naming.dest)
}
