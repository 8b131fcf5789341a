ghost use Rattle.std.specs.Prelude.{◌≡◌, IfOk};
ghost use Rattle.rtps_who.specs.Samples as samples;

use rtps_ids::Memory;
use std::alloc::Global;

/// A node of ROS 2. Its texts have any octets, and are parts of the recording.
#[derive(Clone, Copy)]
pub struct Node<'a> {
    pub namespace: &'a [u8],
    pub name: &'a [u8],
}

impl Node<'_> {
    /// Its namespace, a slash unless that ends with one, and its name.
    pub fn full_name(&self, alloc: Global) -> Result<Vec<u8>, Memory>
        ensures { IfOk result (λ name. name.items ≡ samples.full_name (samples.node_value self.now)) }
    {
        let mut full = Vec::new(alloc);
        full.extend_from_slice(self.namespace)?;
        if !self.namespace.ends_with(b"/") {
            full.extend_from_slice(b"/")?;
        }
        full.extend_from_slice(self.name)?;
        Ok(full)
    }
}
