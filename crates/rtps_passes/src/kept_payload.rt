ghost use Rattle.std.specs.Prelude.{◌≤◌, ◌<◌, ◌^◌};

use rtps_ids::{EntityId, GuidPrefix};
use rtps_wire::Payload;

/// A payload that is compared, in an arena, and whom it is for.
#[derive(Clone, Copy)]
pub(crate) struct KeptPayload<'p> {
    pub(crate) number: u64,
    pub(crate) dest: Option<GuidPrefix>,
    pub(crate) reader: EntityId,
    pub(crate) payload: Payload<'p>,
    ghost in_range: { (1 ≤ number) × (number < 2 ^ 63) },
}
