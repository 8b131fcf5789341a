ghost use Rattle.std.specs.Prelude.{◌≡◌, ◌++◌, ◌∷◌, [], List, OnOk};
ghost use Rattle.std.specs.Option.{option_map};
ghost use Rattle.rtps_receiver.specs.Values as values;
ghost use Rattle.rtps_discovery.specs.Endpoint as endpoint_spec;
ghost use Rattle.rtps_who.specs.Introducing as introducing;
ghost use Rattle.rtps_who.specs.Processes as processes_spec;
ghost use Rattle.rtps_who.specs.Samples as samples;

use crate::node::Node;
use crate::process::Process;
use crate::service::{Service, node_by_service, service_of, with_name_more};
use rtps_discovery::{Endpoint, Side, announced_endpoint};
use rtps_ids::{Guid, GuidPrefix, Memory};
use rtps_policies::{announced_participant, keep_first, list_in, payload_of};
use rtps_receiver::Spoken;
use std::alloc::Global;
use std::collections::{BTreeMap, BTreeSet};

/// What a recording announces of processes, of the writers that tell of nodes, and of parameter services. Texts are parts of the
/// caller's datagrams (DDSI-RTPS 2.5, 8.5 "Discovery Module").
#[derive(Drop)]
pub struct Introductions<'a> {
    pub(crate) processes: BTreeMap<Guid, Process<'a>>,
    pub(crate) tellers: BTreeSet<Guid>,
    pub(crate) services: BTreeMap<GuidPrefix, Service<'a>>,
}

impl<'a> Introductions<'a> {
    /// That of no acts. It takes no memory.
    pub fn new(alloc: Global) -> Introductions<'a>
        ensures { introducing.IsIntroducedBy [] result }
    {
        Introductions {
            processes: BTreeMap::new(alloc),
            tellers: BTreeSet::new(alloc),
            services: BTreeMap::new(alloc),
        }
    }

    /// Keeps what an act announces. An act that announces nothing, or has a fault, changes nothing. After `Memory` what is kept is of no
    /// use.
    pub fn note(&mut self, act: &Spoken<'a>) -> Result<(), Memory>
        ensures { OnOk result ((acts : List values.ActValue) → introducing.IsIntroducedBy acts self.old → introducing.IsIntroducedBy (acts ++ values.spoken_value act.now ∷ []) self.new) }
    {
        if let Some(endpoint) = announced_endpoint(act) {
            return self.note_endpoint(&endpoint);
        }
        match process_told(act) {
            Some((guid, process)) => keep_first(&mut self.processes, guid, process),
            None => Ok(()),
        }
    }

    /// Keeps what an endpoint says. After `Memory` what is kept is of no use.
    fn note_endpoint(&mut self, endpoint: &Endpoint<'a>) -> Result<(), Memory>
        ensures { OnOk result (introducing.KeepsEndpoint self.old self.new (endpoint_spec.endpoint_value endpoint.now)) }
    {
        note_teller(&mut self.tellers, endpoint)?;
        note_service(&mut self.services, endpoint)
    }

    /// The process of a participant. Unknown where it is not announced.
    pub(crate) fn process(&self, participant: Guid) -> Process<'a>
        ensures { processes_spec.process_value result ≡ introducing.process_kept self.now participant }
    {
        match self.processes.get(&participant) {
            Some(process) => *process,
            None => Process::unknown(),
        }
    }

    /// Whether a writer is one that tells of nodes.
    pub(crate) fn tells_nodes(&self, writer: Guid) -> bool
        ensures { (acts : List values.ActValue) → introducing.IsIntroducedBy acts self.now → result ≡ introducing.is_teller_among acts writer }
    {
        self.tellers.contains(&writer)
    }

    /// The node that the parameter services of a participant name, if they name one.
    pub(crate) fn node_by_services(&self, prefix: GuidPrefix) -> Option<Node<'a>>
        ensures { option_map samples.node_value result ≡ introducing.services_kept self.now prefix }
    {
        node_by_service(self.services.get(&prefix).copied())
    }
}

/// Whether an endpoint is a writer that tells of nodes.
pub fn tells_nodes(endpoint: &Endpoint<'_>) -> bool
    ensures { result ≡ introducing.tells_nodes (endpoint_spec.endpoint_value endpoint.now) }
{
    endpoint.side == Side::Writer
        && endpoint.topic == b"ros_discovery_info".as_slice()
        && endpoint.type_name == b"rmw_dds_common::msg::dds_::ParticipantEntitiesInfo_".as_slice()
}

/// Keeps an endpoint that tells of nodes. After `Memory` what is kept is of no use.
fn note_teller(tellers: &mut BTreeSet<Guid>, endpoint: &Endpoint<'_>) -> Result<(), Memory>
    ensures { OnOk result (introducing.KeepsTeller tellers.old tellers.new (endpoint_spec.endpoint_value endpoint.now)) }
{
    if !tells_nodes(endpoint) {
        return Ok(());
    }
    tellers.insert(endpoint.guid)?;
    Ok(())
}

/// Keeps the name that an endpoint of a parameter service gives its participant. After `Memory` what is kept is of no use.
fn note_service<'a>(
    services: &mut BTreeMap<GuidPrefix, Service<'a>>,
    endpoint: &Endpoint<'a>,
) -> Result<(), Memory>
    ensures { OnOk result (introducing.KeepsService services.old.entries services.new.entries (endpoint_spec.endpoint_value endpoint.now)) }
{
    let Some(name) = service_of(endpoint) else {
        return Ok(());
    };
    let prefix = endpoint.guid.prefix;
    let kept = services.get(&prefix).copied();
    services.insert(prefix, with_name_more(kept, name))?;
    Ok(())
}

/// The participant that an act announces, and its process.
fn process_told<'a>(act: &Spoken<'a>) -> Option<(Guid, Process<'a>)>
    ensures { option_map (λ told. (told.0, processes_spec.process_value told.1)) result ≡ introducing.process_told (values.spoken_value act.now) }
{
    let guid = announced_participant(act)?;
    let process = match list_in(payload_of(act)) {
        Some(list) => Process::of(&list),
        None => Process::unknown(),
    };
    Some((guid, process))
}
