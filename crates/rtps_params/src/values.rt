ghost use Rattle.std.specs.Prelude.{◌≡◌, ℕ, List, IfSome, IfNone, option_copied};
ghost use Rattle.rtps_params.specs.Values as values;

use crate::layout::value::{ENTITY_SIZE, NAME, PREFIX_SIZE};
use rtps_ids::{EntityId, Guid, GuidPrefix, Order, u32_at};

/// The name in a value. The value begins with a length of four octets, the name and a NUL; the length counts the NUL
/// too (DDSI-RTPS 2.5, 9.3.2 "Mapping of the Types that Appear Within Submessages or Built-in Topic Data"). A length of
/// 0 is the empty name. Octets after that are ignored. The name may have any octets, also NULs. None if there are too
/// few octets, or if the name does not end with a NUL.
pub fn read_text(value: &[u8], order: Order) -> Option<&[u8]>
    ensures spelled { IfSome result (λ name. values.SpellsText order name.now value.now) }
    ensures none { IfNone result ((name : List ℕ) → values.SpellsText order name value.now → ⊥) }
    ensures text { option_copied result ≡ values.text_of order value.now }
{
    name_in(value, order)
}

/// The name that `text_of` gives.
fn name_in(value: &[u8], order: Order) -> Option<&[u8]>
    ensures { option_copied result ≡ values.text_of order value.now }
{
    let size = u32_at(order, value, 0)? as usize;
    if size == 0 {
        return Some(&[]);
    }
    if value.len() < NAME + size || value[NAME - 1 + size] != 0 {
        return None;
    }
    Some(&value[NAME..NAME - 1 + size])
}

/// The GUID in the first 16 octets of a value, 12 of the prefix and 4 of the entity id (DDSI-RTPS 2.5, 9.3.1 "The
/// Globally Unique Identifier (GUID)"), or None if there are fewer.
pub fn read_guid(value: &[u8]) -> Option<Guid>
    ensures { result ≡ values.guid_of value.now }
{
    let (prefix, rest) = value.split_first_chunk::<PREFIX_SIZE>()?;
    let (entity, _) = rest.split_first_chunk::<ENTITY_SIZE>()?;
    Some(Guid {
        prefix: GuidPrefix(*prefix),
        entity: EntityId(*entity),
    })
}

/// The number in the first four octets of a value, or None if there are fewer.
pub fn read_u32(value: &[u8], order: Order) -> Option<u32>
    ensures { result ≡ values.u32_of order value.now }
{
    u32_at(order, value, 0)
}
