ghost use Rattle.std.specs.Prelude.{◌≡◌, IfOk, OnOk, map, option_copied};
ghost use Rattle.std.specs.Option.{option_map};
ghost use Rattle.rtps_who.specs.Items as items;
ghost use Rattle.rtps_who.specs.Listings as listings;
ghost use Rattle.rtps_who.specs.Samples as samples;

use crate::entry::front_entry;
use crate::gids::Width;
use crate::layout::gid::PADDING;
use crate::layout::header;
use crate::layout::sequence::COUNT_SIZE;
use crate::node::Node;
use rtps_ids::{Guid, GuidPrefix, Memory, Order};
use rtps_params::read_u32;
use std::alloc::{AllocError, Global};
use std::collections::BTreeMap;

/// A sample of `ros_discovery_info`: the nodes of a participant, and the endpoints of each. Its nodes are parts of the payload.
#[derive(Clone, Copy)]
pub(crate) struct Sample<'a> {
    pub(crate) count: u32,
    pub(crate) order: Order,
    pub(crate) width: Width,
    pub(crate) octets: &'a [u8],
    /// Its node, where it has one alone.
    pub(crate) only: Option<Node<'a>>,
}

/// The node, where there is one alone.
fn only_in(octets: &[u8], order: Order, width: Width, count: u32) -> Option<Node<'_>>
    ensures { option_map samples.node_value result ≡ samples.only_among count (items.items_in (samples.front_entry order width) count octets.now) }
{
    if count != 1 {
        return None;
    }
    let (entry, _) = front_entry(octets, order, width)?;
    Some(entry.node)
}

/// What is behind so many nodes, if all of them can be read.
fn behind_entries(octets: &[u8], order: Order, width: Width, count: u32) -> Option<&[u8]>
    ensures { option_copied result ≡ items.rest_behind (samples.front_entry order width) count octets.now }
{
    let mut rest = octets;
    for _ in 0..count {
        let (_, behind) = front_entry(rest, order, width)?;
        rest = behind;
    }
    Some(rest)
}

/// The order that the representation of a payload gives, if it is a plain one.
fn order_in(payload: &[u8]) -> Option<Order>
    ensures { result ≡ samples.order_in payload.now }
{
    if payload.len() < header::SIZE {
        return None;
    }
    let id = &payload[..header::ID_SIZE];
    if id == header::CDR_BE.as_slice() {
        Some(Order::Big)
    } else if id == header::CDR_LE.as_slice() {
        Some(Order::Little)
    } else {
        None
    }
}

/// The nodes in what is behind a participant's gid, or None if they cannot be read.
fn nodes_in(octets: &[u8], order: Order, width: Width) -> Option<Sample<'_>>
    ensures { option_map samples.sample_value result ≡ samples.nodes_in order width octets.now }
{
    let count = read_u32(octets, order)?;
    let octets = &octets[COUNT_SIZE..];
    let behind = behind_entries(octets, order, width, count)?;
    if behind.len() > PADDING {
        return None;
    }
    Some(Sample {
        count,
        order,
        width,
        octets,
        only: only_in(octets, order, width, count),
    })
}

impl<'a> Sample<'a> {
    /// The sample in a payload, or None if it is of another form. It takes no memory.
    pub(crate) fn read(payload: &'a [u8]) -> Option<Sample<'a>>
        ensures { option_map samples.sample_value result ≡ samples.sample_of payload.now }
    {
        let order = order_in(payload)?;
        let body = &payload[header::SIZE..];
        let width = Width::of(body);
        if body.len() < width.size() {
            return None;
        }
        nodes_in(&body[width.size()..], order, width)
    }

    /// Gives its nodes the endpoints of a participant that they list, one node after another. After `Memory` what is kept is of no use.
    pub(crate) fn list(
        &self,
        prefix: GuidPrefix,
        listed: &mut BTreeMap<Guid, Node<'a>>,
    ) -> Result<(), Memory>
        ensures { OnOk result (listings.Lists listed.old.entries listed.new.entries (listings.listings_in prefix (samples.sample_value self.now))) }
    {
        let mut rest = self.octets;
        for _ in 0..self.count {
            let Some((entry, behind)) = front_entry(rest, self.order, self.width) else {
                return Ok(());
            };
            entry.list(prefix, listed)?;
            rest = behind;
        }
        Ok(())
    }

    /// All its nodes.
    pub(crate) fn nodes(&self, alloc: Global) -> Result<Vec<Node<'a>>, AllocError>
        ensures { IfOk result (λ nodes. map samples.node_value nodes.items ≡ samples.nodes_among (samples.sample_value self.now)) }
    {
        let mut nodes = Vec::new(alloc);
        let mut rest = self.octets;
        for _ in 0..self.count {
            let Some((entry, behind)) = front_entry(rest, self.order, self.width) else {
                return Ok(nodes);
            };
            nodes.push(entry.node)?;
            rest = behind;
        }
        Ok(nodes)
    }
}
