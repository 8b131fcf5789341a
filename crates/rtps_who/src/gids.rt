ghost use Rattle.std.specs.Prelude.{◌≡◌, ◌≤◌, ◌∷◌, [], OnOk, length, option_copied};
ghost use Rattle.std.specs.Option.{option_map};
ghost use Rattle.rtps_who.specs.Items as items;
ghost use Rattle.rtps_who.specs.Listings as listings;
ghost use Rattle.rtps_who.specs.Samples as samples;

use crate::layout::gid::{GUID_SIZE, WIDE_ROOM, WIDE_SIZE, ZEROS};
use crate::layout::sequence::COUNT_SIZE;
use crate::node::Node;
use rtps_ids::{Guid, GuidPrefix, Memory, Order};
use rtps_params::{read_guid, read_u32};
use std::collections::BTreeMap;

/// The form of gids. Up to ROS 2 Humble they have 24 octets, from Iron on 16.
#[derive(Clone, Copy)]
pub(crate) enum Width {
    Narrow,
    Wide,
}

impl Width {
    /// The size of a gid.
    pub(crate) fn size(self) -> usize
        ensures { result ≡ samples.size_of self }
    {
        match self {
            Width::Narrow => GUID_SIZE,
            Width::Wide => WIDE_SIZE,
        }
    }

    /// The form of the gids of a sample, by what is behind its representation.
    pub(crate) fn of(body: &[u8]) -> Width
        ensures { result ≡ samples.width_of body.now }
    {
        if body.len() >= WIDE_ROOM && is_filled(body, Width::Wide) {
            Width::Wide
        } else {
            Width::Narrow
        }
    }
}

/// Whether what is behind the GUID of a gid is as it has to be.
fn is_filled(octets: &[u8], width: Width) -> bool
    requires { samples.size_of width ≤ length octets.now }
    ensures { result ≡ samples.is_filled width octets.now }
{
    match width {
        Width::Narrow => true,
        Width::Wide => &octets[GUID_SIZE..WIDE_SIZE] == ZEROS.as_slice(),
    }
}

/// The gid at the beginning of octets, and what is behind it. None if it cannot be read.
fn front_gid(octets: &[u8], width: Width) -> Option<(Guid, &[u8])>
    ensures { option_map (λ found. (found.0, found.1.now)) result ≡ samples.front_gid width octets.now }
{
    if octets.len() < width.size() || !is_filled(octets, width) {
        return None;
    }
    let guid = read_guid(octets)?;
    Some((guid, &octets[width.size()..]))
}

/// What is behind so many gids, if all of them can be read.
fn behind_gids(octets: &[u8], width: Width, count: u32) -> Option<&[u8]>
    ensures { option_copied result ≡ items.rest_behind (samples.front_gid width) count octets.now }
{
    let mut rest = octets;
    for _ in 0..count {
        let (_, behind) = front_gid(rest, width)?;
        rest = behind;
    }
    Some(rest)
}

/// The gids of the readers or of the writers of a node. They are parts of the sample.
#[derive(Clone, Copy)]
pub(crate) struct Gids<'a> {
    pub(crate) count: u32,
    pub(crate) width: Width,
    pub(crate) octets: &'a [u8],
}

impl Gids<'_> {
    /// Gives a node those of them that are of a participant, one after another. After `Memory` what is kept is of no use.
    pub(crate) fn list<'n>(
        &self,
        prefix: GuidPrefix,
        node: Node<'n>,
        listed: &mut BTreeMap<Guid, Node<'n>>,
    ) -> Result<(), Memory>
        ensures { OnOk result (listings.Lists listed.old.entries listed.new.entries (listings.listings_of prefix (samples.node_value node.entry) (samples.gids_value self.now))) }
    {
        let mut rest = self.octets;
        for _ in 0..self.count {
            let Some((guid, behind)) = front_gid(rest, self.width) else {
                return Ok(());
            };
            list_one(listed, prefix, node, guid)?;
            rest = behind;
        }
        Ok(())
    }
}

/// Gives a node an endpoint, if that is of a participant.
fn list_one<'n>(
    listed: &mut BTreeMap<Guid, Node<'n>>,
    prefix: GuidPrefix,
    node: Node<'n>,
    guid: Guid,
) -> Result<(), Memory>
    ensures { OnOk result (listings.Lists listed.old.entries listed.new.entries (listings.listings_of prefix (samples.node_value node.entry) (guid ∷ []))) }
{
    if guid.prefix == prefix {
        listed.insert(guid, node)?;
    }
    Ok(())
}

/// The list of gids at the beginning of octets, and what is behind it. None if it cannot be read.
pub(crate) fn front_gids(octets: &[u8], order: Order, width: Width) -> Option<(Gids<'_>, &[u8])>
    ensures { option_map (λ found. (samples.gids_value found.0, found.1.now)) result ≡ samples.front_gids order width octets.now }
{
    let count = read_u32(octets, order)?;
    let octets = &octets[COUNT_SIZE..];
    let behind = behind_gids(octets, width, count)?;
    let gids = Gids {
        count,
        width,
        octets,
    };
    Some((gids, behind))
}
