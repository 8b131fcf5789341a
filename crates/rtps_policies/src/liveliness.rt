ghost use Rattle.std.specs.Prelude.{◌≡◌};
ghost use Rattle.rtps_policies.specs.Fitting as fitting;
ghost use Rattle.rtps_policies.specs.Kinds as kinds;

use crate::duration::{Duration, duration_at};
use crate::layout::liveliness;
use rtps_ids::Order;
use rtps_params::read_u32;

/// Who says that a writer is alive. The weaker comes first (DDS 1.4, 2.2.3.11 "LIVELINESS").
#[derive(Clone, Copy, PartialEq, PartialOrd)]
pub enum LivelinessKind {
    Automatic,
    ManualByParticipant,
    ManualByTopic,
}

/// Who says that a writer is alive, and how often at least.
#[derive(Clone, Copy)]
pub struct Liveliness {
    pub kind: LivelinessKind,
    pub lease: Duration,
}

impl Liveliness {
    /// That of an endpoint that announces none: automatic, for ever.
    pub const UNANNOUNCED: Liveliness = Liveliness {
        kind: LivelinessKind::Automatic,
        lease: Duration::INFINITE,
    };

    /// The liveliness in a value, or None if it is cut or its kind is unknown.
    pub(crate) fn read(value: &[u8], order: Order) -> Option<Liveliness>
        ensures { result ≡ kinds.liveliness_of order value.now }
    {
        let kind = kind_in(value, order)?;
        let lease = duration_at(order, value, liveliness::LEASE)?;
        Some(Liveliness { kind, lease })
    }

    /// Whether it suits what is requested: as strong, with a lease that is no longer.
    pub(crate) fn suits(self, requested: Liveliness) -> bool
        ensures { result ≡ fitting.liveliness_suits self requested }
    {
        self.kind >= requested.kind && self.lease.is_within(requested.lease)
    }
}

/// The kind at the beginning of a value.
fn kind_in(value: &[u8], order: Order) -> Option<LivelinessKind>
    ensures { result ≡ kinds.liveliness_kind_of order value.now }
{
    match read_u32(value, order) {
        Some(liveliness::AUTOMATIC) => Some(LivelinessKind::Automatic),
        Some(liveliness::MANUAL_BY_PARTICIPANT) => Some(LivelinessKind::ManualByParticipant),
        Some(liveliness::MANUAL_BY_TOPIC) => Some(LivelinessKind::ManualByTopic),
        _ => None,
    }
}
