ghost use Rattle.std.specs.Prelude.{◌≡◌, ◌++◌, ◌∷◌, [], List, OnOk, option_and_then};
ghost use Rattle.std.specs.Option.{option_map};
ghost use Rattle.rtps_receiver.specs.Values as receiver_values;
ghost use Rattle.rtps_wire.specs.Values as wire_values;
ghost use Rattle.rtps_discovery.specs.Notice as notice;
ghost use Rattle.rtps_who.specs.Introducing as introducing;
ghost use Rattle.rtps_who.specs.Samples as samples_spec;
ghost use Rattle.rtps_who.specs.Telling as telling;

use crate::introductions::Introductions;
use crate::node::Node;
use crate::sample::Sample;
use rtps_ids::{EntityId, Guid, GuidPrefix, Memory};
use rtps_receiver::{ActBody, FragmentBody, Spoken, SpokenBody};
use rtps_wire::Payload;
use std::alloc::Global;
use std::collections::BTreeMap;

/// What the samples of `ros_discovery_info` tell of the nodes of participants: of each participant the last one that can be read, and of
/// each endpoint the node that listed it last. They are parts of the caller's datagrams.
#[derive(Drop)]
pub struct ToldNodes<'a> {
    pub(crate) samples: BTreeMap<GuidPrefix, Sample<'a>>,
    pub(crate) listed: BTreeMap<Guid, Node<'a>>,
}

/// The octets of a whole payload, with the entity of its writer.
fn whole<'a>(writer: EntityId, payload: &Payload<'a>) -> Option<(EntityId, &'a [u8])>
    ensures { option_map (λ sent. (sent.0, sent.1.now)) result ≡ telling.sent_by writer (notice.whole_payload (wire_values.payload_value payload.now)) }
{
    match payload {
        Payload::Whole(octets) => Some((writer, octets)),
        _ => None,
    }
}

/// The sample that fragments were put together to, with the entity of its writer.
fn told_whole<'a>(fragment: &FragmentBody<'a>) -> Option<(EntityId, &'a [u8])>
    ensures { option_map (λ sent. (sent.0, sent.1.now)) result
        ≡ telling.sent_by fragment.now.writer (option_and_then notice.whole_payload (receiver_values.fragment_value fragment.now).told) }
{
    match &fragment.told {
        Some(payload) => whole(fragment.writer, payload),
        None => None,
    }
}

/// The sample that an act has, with the entity of its writer.
fn sent_in<'a>(body: &SpokenBody<'a>) -> Option<(EntityId, &'a [u8])>
    ensures { option_map (λ sent. (sent.0, sent.1.now)) result ≡ telling.sent_in (receiver_values.spoken_body_value body.now) }
{
    match body {
        SpokenBody::Act(ActBody::Data(data)) => whole(data.writer, &data.payload),
        SpokenBody::DataFrag(fragment) => told_whole(fragment),
        _ => None,
    }
}

/// The nodes that an act tells of the participant that sends it.
fn nodes_told<'a>(introductions: &Introductions<'_>, act: &Spoken<'a>) -> Option<Sample<'a>>
    ensures { (announcing : List receiver_values.ActValue) → introducing.IsIntroducedBy announcing introductions.now
        → option_map (λ sample. (act.now.source, samples_spec.sample_value sample)) result ≡ telling.nodes_told announcing (receiver_values.spoken_value act.now) }
{
    let (entity, octets) = sent_in(&act.body)?;
    let prefix = act.source;
    if !introductions.tells_nodes(Guid { prefix, entity }) {
        return None;
    }
    Sample::read(octets)
}

impl<'a> ToldNodes<'a> {
    /// Those of no acts. It takes no memory.
    pub fn new(alloc: Global) -> ToldNodes<'a>
        ensures { (announcing : List receiver_values.ActValue) → telling.IsToldBy announcing [] result }
    {
        ToldNodes {
            samples: BTreeMap::new(alloc),
            listed: BTreeMap::new(alloc),
        }
    }

    /// Keeps the nodes that an act tells in the place of those that were told of its participant before, and which endpoints they list. By
    /// the introductions it is known which writers tell of nodes. After `Memory` what is kept is of no use.
    pub fn note(
        &mut self,
        introductions: &Introductions<'_>,
        act: &Spoken<'a>,
    ) -> Result<(), Memory>
        ensures { OnOk result ((announcing acts : List receiver_values.ActValue) → introducing.IsIntroducedBy announcing introductions.now → telling.IsToldBy announcing acts self.old
            → telling.IsToldBy announcing (acts ++ receiver_values.spoken_value act.now ∷ []) self.new) }
    {
        let Some(sample) = nodes_told(introductions, act) else {
            return Ok(());
        };
        sample.list(act.source, &mut self.listed)?;
        self.samples.insert(act.source, sample)?;
        Ok(())
    }

    /// The sample of a participant.
    pub(crate) fn sample(&self, prefix: GuidPrefix) -> Option<Sample<'a>>
        ensures { option_map samples_spec.sample_value result ≡ telling.sample_kept self.now prefix }
    {
        self.samples.get(&prefix).copied()
    }

    /// The node that listed an endpoint last.
    pub(crate) fn listing(&self, endpoint: Guid) -> Option<Node<'a>>
        ensures { option_map samples_spec.node_value result ≡ telling.listing_kept self.now endpoint }
    {
        self.listed.get(&endpoint).copied()
    }
}
