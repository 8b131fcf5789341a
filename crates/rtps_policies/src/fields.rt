ghost use Rattle.std.specs.Prelude.{◌≡◌, ◌≤◌, length};
ghost use Rattle.std.specs.Option.{option_map};
ghost use Rattle.std.specs.Result.{result_ok};
ghost use Rattle.rtps_discovery.specs.Announcement as announcement;
ghost use Rattle.rtps_discovery.specs.Fields as fields;

use crate::layout::header;
use rtps_ids::Order;
use rtps_params::ParamList;

/// The parameter list of a payload, or None if it has none (DDSI-RTPS 2.5, 10 "Serialized Payload Representation"). An endpoint that
/// was read of the same payload does not keep its list, so this reads it again.
#[tactic(auto, unfolding(rtps_discovery::specs::Announcement::fields_of))]
pub fn list_in(payload: &[u8]) -> Option<ParamList<'_>>
    ensures { option_map fields.fields_value result ≡ result_ok (announcement.fields_of payload.now) }
{
    if payload.len() < header::SIZE {
        return None;
    }
    let order = payload_order(payload)?;
    match ParamList::read(&payload[header::SIZE..], order) {
        Ok((list, _)) => Some(list),
        Err(_) => None,
    }
}

/// The order that the representation of a payload gives, if it is that of parameter lists.
fn payload_order(payload: &[u8]) -> Option<Order>
    requires { 4 ≤ length payload.now }
    ensures { result ≡ announcement.order_of payload.now }
{
    let id = &payload[..header::ID_SIZE];
    if id == header::PL_CDR_BE.as_slice() {
        Some(Order::Big)
    } else if id == header::PL_CDR_LE.as_slice() {
        Some(Order::Little)
    } else {
        None
    }
}
