ghost use Rattle.std.specs.Prelude.{◌≡◌, OnOk};
ghost use Rattle.std.specs.Option.{option_map};
ghost use Rattle.rtps_who.specs.Listings as listings;
ghost use Rattle.rtps_who.specs.Samples as samples;

use crate::gids::{Gids, Width, front_gids};
use crate::node::Node;
use crate::texts::front_text;
use rtps_ids::{Guid, GuidPrefix, Memory, Order};
use std::collections::BTreeMap;

/// A node, and the endpoints that it has.
#[derive(Clone, Copy)]
pub(crate) struct Entry<'a> {
    pub(crate) node: Node<'a>,
    pub(crate) readers: Gids<'a>,
    pub(crate) writers: Gids<'a>,
}

impl<'a> Entry<'a> {
    /// Gives the node the endpoints of a participant that it lists, its readers first. After `Memory` what is kept is of no use.
    pub(crate) fn list(
        &self,
        prefix: GuidPrefix,
        listed: &mut BTreeMap<Guid, Node<'a>>,
    ) -> Result<(), Memory>
        ensures { OnOk result (listings.Lists listed.old.entries listed.new.entries (listings.listings_by prefix (samples.entry_value self.now))) }
    {
        self.readers.list(prefix, self.node, listed)?;
        self.writers.list(prefix, self.node, listed)
    }
}

/// The node at the beginning of octets, and what is behind it. None if it cannot be read.
pub(crate) fn front_entry(octets: &[u8], order: Order, width: Width) -> Option<(Entry<'_>, &[u8])>
    ensures { option_map (λ found. (samples.entry_value found.0, found.1.now)) result ≡ samples.front_entry order width octets.now }
{
    let (namespace, behind_namespace) = front_text(octets, order)?;
    let (name, behind_name) = front_text(behind_namespace, order)?;
    let (readers, behind_readers) = front_gids(behind_name, order, width)?;
    let (writers, behind) = front_gids(behind_readers, order, width)?;
    let node = Node { namespace, name };
    Some((
        Entry {
            node,
            readers,
            writers,
        },
        behind,
    ))
}
