ghost use Rattle.std.specs.Prelude.{◌≡◌};
ghost use Rattle.rtps_discovery.specs.Fields as fields;
ghost use Rattle.rtps_policies.specs.Vendors as vendors;

use crate::layout::{pid, vendor};
use rtps_params::ParamList;

/// Whether octets begin with the id of Fast DDS.
fn is_fast(value: &[u8]) -> bool
    ensures { result ≡ vendors.is_fast value.now }
{
    match value.first_chunk::<2>() {
        Some(id) => *id == vendor::FAST_DDS,
        None => false,
    }
}

/// Whether a list says that its participant is of Fast DDS.
pub(crate) fn is_of_fast(list: &ParamList<'_>) -> bool
    ensures { result ≡ vendors.is_of_fast (fields.fields_value list.now) }
{
    match list.first(pid::VENDOR_ID) {
        Some(value) => is_fast(value),
        None => false,
    }
}
