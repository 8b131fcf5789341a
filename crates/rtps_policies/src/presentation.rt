ghost use Rattle.std.specs.Prelude.{◌≡◌};
ghost use Rattle.rtps_policies.specs.Fitting as fitting;
ghost use Rattle.rtps_policies.specs.Kinds as kinds;

use crate::layout::presentation;
use rtps_ids::Order;
use rtps_params::read_u32;

/// Within what samples are presented together. The weaker comes first (DDS 1.4, 2.2.3.6 "PRESENTATION").
#[derive(Clone, Copy, PartialEq, PartialOrd)]
pub enum AccessScope {
    Instance,
    Topic,
    Group,
}

/// How samples that belong together are presented.
#[derive(Clone, Copy)]
pub struct Presentation {
    pub scope: AccessScope,
    /// Changes that were made together are seen together.
    pub coherent: bool,
    /// Changes are seen in their order.
    pub ordered: bool,
}

impl Presentation {
    /// That of an endpoint that announces none: instance by instance, in no order.
    pub const UNANNOUNCED: Presentation = Presentation {
        scope: AccessScope::Instance,
        coherent: false,
        ordered: false,
    };

    /// The presentation in a value, or None if it is cut, its scope is unknown, or a flag is neither 0 nor 1.
    pub(crate) fn read(value: &[u8], order: Order) -> Option<Presentation>
        ensures { result ≡ kinds.presentation_of order value.now }
    {
        let scope = scope_in(value, order)?;
        let coherent = flag_at(value, presentation::COHERENT)?;
        let ordered = flag_at(value, presentation::ORDERED)?;
        Some(Presentation {
            scope,
            coherent,
            ordered,
        })
    }

    /// Whether it suits what is requested: it reaches as far, and has the flags that are requested.
    pub(crate) fn suits(self, requested: Presentation) -> bool
        ensures { result ≡ fitting.presentation_suits self requested }
    {
        self.scope >= requested.scope
            && (!requested.coherent || self.coherent)
            && (!requested.ordered || self.ordered)
    }
}

/// The scope at the beginning of a value.
fn scope_in(value: &[u8], order: Order) -> Option<AccessScope>
    ensures { result ≡ kinds.scope_of order value.now }
{
    match read_u32(value, order) {
        Some(presentation::INSTANCE) => Some(AccessScope::Instance),
        Some(presentation::TOPIC) => Some(AccessScope::Topic),
        Some(presentation::GROUP) => Some(AccessScope::Group),
        _ => None,
    }
}

/// The flag in the octet at offset `at`.
fn flag_at(value: &[u8], at: usize) -> Option<bool>
    ensures { result ≡ kinds.flag_at value.now at }
{
    match value.get(at) {
        Some(0) => Some(false),
        Some(1) => Some(true),
        _ => None,
    }
}
