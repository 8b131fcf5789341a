ghost use Rattle.std.specs.Prelude.{◌≡◌, ◌++◌, ◌∷◌, [], IfOk, List, OnErr, OnOk, map, unwrap_or};
ghost use Rattle.std.specs.Option.{option_map};
ghost use Rattle.rtps_receiver.specs.Values as values;
ghost use Rattle.rtps_discovery.specs.Endpoint as endpoint_spec;
ghost use Rattle.rtps_discovery.specs.Notice as notice;
ghost use Rattle.rtps_policies.specs.Announcing as announcing;
ghost use Rattle.rtps_policies.specs.Fitting as fitting;
ghost use Rattle.rtps_policies.specs.Policies as policies_spec;
ghost use Rattle.rtps_policies.specs.Told as told;

use crate::fields::list_in;
use crate::fitting::Profile;
use crate::host::Host;
use crate::layout::entity;
use crate::policies::Policies;
use rtps_discovery::{Endpoint, announced_endpoint, read_participant};
use rtps_ids::{Guid, GuidPrefix, Memory};
use rtps_receiver::{ActBody, Spoken, SpokenBody};
use rtps_wire::Payload;
use std::alloc::Global;
use std::collections::BTreeMap;

/// What a recording announces of endpoints and of participants: by GUID, what its first announcement without a fault says
/// (DDSI-RTPS 2.5, 8.5 "Discovery Module"). Names are parts of the caller's datagrams.
#[derive(Drop)]
pub struct Announced<'a> {
    pub(crate) policies: BTreeMap<Guid, Policies<'a>>,
    pub(crate) hosts: BTreeMap<Guid, Host>,
    pub(crate) alloc: Global,
}

impl<'a> Announced<'a> {
    /// That of no acts. It takes no memory.
    pub fn new(alloc: Global) -> Announced<'a>
        ensures { announcing.IsAnnouncedBy [] result }
    {
        Announced {
            policies: BTreeMap::new(alloc),
            hosts: BTreeMap::new(alloc),
            alloc,
        }
    }

    /// Keeps what an act announces, unless its GUID was announced before. An act that announces nothing, or has a fault, changes
    /// nothing. After `Memory` nothing has changed.
    pub fn note(&mut self, act: &Spoken<'a>) -> Result<(), Memory>
        ensures ok { OnOk result ((acts : List values.ActValue) → announcing.IsAnnouncedBy acts self.old → announcing.IsAnnouncedBy (acts ++ values.spoken_value act.now ∷ []) self.new) }
        ensures err { OnErr result ((acts : List values.ActValue) → announcing.IsAnnouncedBy acts self.old → announcing.IsAnnouncedBy acts self.new) }
    {
        if let Some((guid, policies)) = endpoint_told(act) {
            return keep_first(&mut self.policies, guid, policies);
        }
        match participant_told(act) {
            Some((guid, host)) => keep_first(&mut self.hosts, guid, host),
            None => Ok(()),
        }
    }

    /// Notes acts in their order, as [`Announced::note`] does. After `Memory` what is kept is of no use.
    pub fn note_all(&mut self, acts: &[Spoken<'a>]) -> Result<(), Memory>
        ensures { OnOk result ((before : List values.ActValue) → announcing.IsAnnouncedBy before self.old → announcing.IsAnnouncedBy (before ++ map values.spoken_value acts.now) self.new) }
    {
        for act in acts {
            self.note(act)?;
        }
        Ok(())
    }

    /// The policies of an endpoint. Those of an endpoint that announces none where it is not announced.
    pub fn policies(&self, endpoint: Guid) -> Policies<'a>
        ensures { (acts : List values.ActValue) → announcing.IsAnnouncedBy acts self.now → policies_spec.policies_value result ≡ unwrap_or (announcing.policies_among acts endpoint) policies_spec.unannounced }
    {
        match self.policies.get(&endpoint) {
            Some(policies) => *policies,
            None => Policies::unannounced(),
        }
    }

    /// The host of a participant. Unknown where it is not announced.
    pub fn host(&self, participant: Guid) -> Host
        ensures kept { result ≡ announcing.kept_host self.now participant }
        ensures announced { (acts : List values.ActValue) → announcing.IsAnnouncedBy acts self.now → result ≡ unwrap_or (announcing.host_among acts participant) announcing.unknown_host }
    {
        match self.hosts.get(&participant) {
            Some(host) => *host,
            None => Host::UNKNOWN,
        }
    }

    /// An endpoint with what is announced of it, and of its participant.
    pub fn profile(&self, endpoint: &Endpoint<'a>) -> Profile<'a>
        ensures { (acts : List values.ActValue) → announcing.IsAnnouncedBy acts self.now → fitting.profile_value result ≡ announcing.profile_among acts (endpoint_spec.endpoint_value endpoint.now) }
    {
        Profile {
            endpoint: *endpoint,
            policies: self.policies(endpoint.guid),
            host: self.host_of(endpoint.guid.prefix),
        }
    }

    /// The profiles of endpoints, in the same order.
    pub fn profiles(&self, endpoints: &[Endpoint<'a>]) -> Result<Vec<Profile<'a>>, Memory>
        ensures { IfOk result (λ profiles. (acts : List values.ActValue) → announcing.IsAnnouncedBy acts self.now
            → map fitting.profile_value profiles.items ≡ map (announcing.profile_among acts) (map endpoint_spec.endpoint_value endpoints.now)) }
    {
        let mut profiles = Vec::with_capacity(self.alloc, endpoints.len())?;
        for endpoint in endpoints {
            profiles.push(self.profile(endpoint))?;
        }
        Ok(profiles)
    }

    /// The host of the participant of a prefix. Unknown where it is not announced.
    pub fn host_of(&self, prefix: GuidPrefix) -> Host
        ensures kept { result ≡ announcing.hosts_in self.now prefix }
        ensures announced { (acts : List values.ActValue) → announcing.IsAnnouncedBy acts self.now → result ≡ announcing.host_of acts prefix }
    {
        self.host(participant_of(prefix))
    }
}

/// The GUID of the participant of a prefix (DDSI-RTPS 2.5, 9.3.1.3 "Predefined EntityIds").
pub fn participant_of(prefix: GuidPrefix) -> Guid
    ensures { result ≡ announcing.participant_of prefix }
{
    let entity = entity::PARTICIPANT;
    Guid { prefix, entity }
}

/// The payload of an act that has a whole one; no octets of any other.
pub fn payload_of<'a>(act: &Spoken<'a>) -> &'a [u8]
    ensures { result.now ≡ announcing.payload_of (values.spoken_value act.now).body }
{
    match &act.body {
        SpokenBody::Act(ActBody::Data(data)) => match &data.payload {
            Payload::Whole(payload) => payload,
            _ => &[],
        },
        _ => &[],
    }
}

/// The endpoint that an act announces, and its policies.
fn endpoint_told<'a>(act: &Spoken<'a>) -> Option<(Guid, Policies<'a>)>
    ensures { option_map (λ told. (told.0, policies_spec.policies_value told.1)) result ≡ announcing.policies_told (values.spoken_value act.now) }
{
    let endpoint = announced_endpoint(act)?;
    let policies = match list_in(payload_of(act)) {
        Some(list) => Policies::of(&list),
        None => Policies::unannounced(),
    };
    Some((endpoint.guid, policies))
}

/// The participant that an act announces, from any source and to any destination. None where it announces none, or has a fault.
pub fn announced_participant(act: &Spoken<'_>) -> Option<Guid>
    ensures { result ≡ notice.participant_in (notice.announcement_of (values.spoken_value act.now)) }
{
    let SpokenBody::Act(ActBody::Data(data)) = &act.body else {
        return None;
    };
    if data.writer != entity::PARTICIPANTS {
        return None;
    }
    let Payload::Whole(payload) = &data.payload else {
        return None;
    };
    match read_participant(payload) {
        Ok(guid) => Some(guid),
        Err(_) => None,
    }
}

/// The participant that an act announces, and its host.
fn participant_told(act: &Spoken<'_>) -> Option<(Guid, Host)>
    ensures { result ≡ announcing.host_told (values.spoken_value act.now) }
{
    let guid = announced_participant(act)?;
    let host = match list_in(payload_of(act)) {
        Some(list) => Host::of(&list),
        None => Host::UNKNOWN,
    };
    Some((guid, host))
}

/// Keeps a value of a GUID, unless there is one. After `Memory` nothing has changed.
pub fn keep_first<V: Copy + Drop>(
    kept: &mut BTreeMap<Guid, V>,
    guid: Guid,
    value: V,
) -> Result<(), Memory>
    ensures ok { OnOk result (told.KeepsFirst kept.old.entries kept.new.entries guid value) }
    ensures err { OnErr result (kept.new.entries ≡ kept.old.entries) }
{
    if !kept.contains_key(&guid) {
        kept.insert(guid, value)?;
    }
    Ok(())
}
