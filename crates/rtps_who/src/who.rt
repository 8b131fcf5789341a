ghost use Rattle.std.specs.Prelude.{◌≡◌, IfOk, map};
ghost use Rattle.std.specs.Option.{option_map};
ghost use Rattle.rtps_who.specs.Naming as naming;
ghost use Rattle.rtps_who.specs.Processes as processes;
ghost use Rattle.rtps_who.specs.Recorded as recorded_spec;
ghost use Rattle.rtps_who.specs.Samples as samples;

use crate::introductions::Introductions;
use crate::node::Node;
use crate::process::Process;
use crate::title::Title;
use crate::told_nodes::ToldNodes;
use rtps_ids::{Guid, GuidPrefix};
use rtps_policies::participant_of;
use std::alloc::{AllocError, Global};

/// By which names people know the endpoints and the participants of a recording.
#[derive(Drop)]
pub struct Who<'a> {
    pub introductions: Introductions<'a>,
    pub told: ToldNodes<'a>,
}

/// The title by a node, or else by a process.
pub fn title_by<'a>(node: Option<Node<'a>>, process: &Process<'a>) -> Title<'a>
    ensures { naming.title_value result ≡ naming.title_by (option_map samples.node_value node.entry) (processes.process_value process.now) }
{
    if let Some(node) = node {
        return Title::Node(node);
    }
    if let Some(program) = process.program {
        return Title::Program(program);
    }
    match process.name {
        Some(name) => Title::Name(name),
        None => Title::Nothing,
    }
}

impl<'a> Who<'a> {
    /// The process of a participant. Unknown where it is not announced.
    pub fn process(&self, prefix: GuidPrefix) -> Process<'a>
        ensures kept { processes.process_value result ≡ recorded_spec.process_in self.now prefix }
        ensures told { (recorded : naming.Recorded) → recorded_spec.IsWhoIn recorded self.now → processes.process_value result ≡ naming.process_of recorded prefix }
    {
        self.introductions.process(participant_of(prefix))
    }

    /// The node of a participant that has one alone.
    pub fn only_node(&self, prefix: GuidPrefix) -> Option<Node<'a>>
        ensures kept { option_map samples.node_value result ≡ recorded_spec.only_in self.now prefix }
        ensures told { (recorded : naming.Recorded) → recorded_spec.IsWhoIn recorded self.now → option_map samples.node_value result ≡ naming.only_node recorded prefix }
    {
        match self.told.sample(prefix) {
            Some(sample) => sample.only,
            None => self.introductions.node_by_services(prefix),
        }
    }

    /// The nodes of a participant.
    pub fn nodes(&self, alloc: Global, prefix: GuidPrefix) -> Result<Vec<Node<'a>>, AllocError>
        ensures kept { IfOk result (λ nodes. map samples.node_value nodes.items ≡ recorded_spec.nodes_in self.now prefix) }
        ensures told { IfOk result (λ nodes. (recorded : naming.Recorded) → recorded_spec.IsWhoIn recorded self.now → map samples.node_value nodes.items ≡ naming.nodes_of_participant recorded prefix) }
    {
        if let Some(sample) = self.told.sample(prefix) {
            return sample.nodes(alloc);
        }
        let mut nodes = Vec::new(alloc);
        let Some(node) = self.introductions.node_by_services(prefix) else {
            return Ok(nodes);
        };
        nodes.push(node)?;
        Ok(nodes)
    }

    /// The node of an endpoint: the one that had it in its lists last, or else the one that its participant has alone.
    pub fn node(&self, endpoint: Guid) -> Option<Node<'a>>
        ensures kept { option_map samples.node_value result ≡ recorded_spec.node_in self.now endpoint }
        ensures told { (recorded : naming.Recorded) → recorded_spec.IsWhoIn recorded self.now → option_map samples.node_value result ≡ naming.node_of recorded endpoint }
    {
        match self.told.listing(endpoint) {
            Some(node) => Some(node),
            None => self.only_node(endpoint.prefix),
        }
    }

    /// The node of an end, an endpoint or a participant: of a participant the one that it has alone.
    pub fn node_of_end(&self, end: Guid) -> Option<Node<'a>>
        ensures kept { option_map samples.node_value result ≡ recorded_spec.node_of_end_in self.now end }
        ensures told { (recorded : naming.Recorded) → recorded_spec.IsWhoIn recorded self.now → option_map samples.node_value result ≡ naming.node_of_end recorded end }
    {
        if end.entity == participant_of(end.prefix).entity {
            self.only_node(end.prefix)
        } else {
            self.node(end)
        }
    }

    /// The title of an endpoint: its node, else the program of its process, else the name of its participant.
    pub fn title(&self, endpoint: Guid) -> Title<'a>
        ensures { (recorded : naming.Recorded) → recorded_spec.IsWhoIn recorded self.now → naming.title_value result ≡ naming.title_of recorded endpoint }
    {
        title_by(self.node(endpoint), &self.process(endpoint.prefix))
    }

    /// The title of a participant: its node where it has one alone, else as that of an endpoint.
    pub fn participant_title(&self, prefix: GuidPrefix) -> Title<'a>
        ensures { (recorded : naming.Recorded) → recorded_spec.IsWhoIn recorded self.now → naming.title_value result ≡ naming.participant_title recorded prefix }
    {
        title_by(self.only_node(prefix), &self.process(prefix))
    }
}
