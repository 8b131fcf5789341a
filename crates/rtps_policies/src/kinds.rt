ghost use Rattle.std.specs.Prelude.{◌≡◌};
ghost use Rattle.rtps_policies.specs.Kinds as kinds;

use crate::layout::{destination_order, ownership};
use rtps_ids::Order;
use rtps_params::read_u32;

/// Whether several writers may write one instance (DDS 1.4, 2.2.3.9 "OWNERSHIP").
#[derive(Clone, Copy)]
pub enum Ownership {
    Shared,
    Exclusive,
}

impl Ownership {
    /// The kind in a value, or None if it is cut or unknown.
    pub(crate) fn read(value: &[u8], order: Order) -> Option<Ownership>
        ensures { result ≡ kinds.ownership_of order value.now }
    {
        match read_u32(value, order) {
            Some(ownership::SHARED) => Some(Ownership::Shared),
            Some(ownership::EXCLUSIVE) => Some(Ownership::Exclusive),
            _ => None,
        }
    }
}

/// By which time samples of several writers are put in order. The weaker comes first (DDS 1.4, 2.2.3.17 "DESTINATION_ORDER").
#[derive(Clone, Copy, PartialEq, PartialOrd)]
pub enum DestinationOrder {
    ByReception,
    BySource,
}

impl DestinationOrder {
    /// The kind in a value, or None if it is cut or unknown.
    pub(crate) fn read(value: &[u8], order: Order) -> Option<DestinationOrder>
        ensures { result ≡ kinds.destination_order_of order value.now }
    {
        match read_u32(value, order) {
            Some(destination_order::BY_RECEPTION) => Some(DestinationOrder::ByReception),
            Some(destination_order::BY_SOURCE) => Some(DestinationOrder::BySource),
            _ => None,
        }
    }
}
