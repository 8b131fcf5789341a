ghost use Rattle.std.specs.Prelude.{◌≡◌};
ghost use Rattle.rtps_discovery.specs.Fields as fields;
ghost use Rattle.rtps_policies.specs.Domains as domains;

use crate::layout::{discovery_port, locator, pid};
use crate::vendor::is_of_fast;
use rtps_ids::Order;
use rtps_params::{ParamList, read_u32};

/// The domain whose ports begin with this one, if there is one.
fn domain_from(port: u32) -> Option<u32>
    ensures { result ≡ domains.domain_from port }
{
    let beyond = port.checked_sub(discovery_port::BASE)?;
    if beyond % discovery_port::GAIN == 0 {
        Some(beyond / discovery_port::GAIN)
    } else {
        None
    }
}

/// The domain that has a port, if there is one.
fn domain_with(port: u32) -> Option<u32>
    ensures { result ≡ domains.domain_with port }
{
    let beyond = port.checked_sub(discovery_port::BASE)?;
    Some(beyond / discovery_port::GAIN)
}

/// The port in a locator, or None if it is cut.
fn port_of(value: &[u8], order: Order) -> Option<u32>
    ensures { result ≡ domains.port_of order value.now }
{
    if value.len() < locator::SIZE {
        return None;
    }
    read_u32(&value[locator::PORT..], order)
}

/// The port in the first parameter of this id.
fn port_in(pid: u16, list: &ParamList<'_>) -> Option<u32>
    ensures { result ≡ domains.port_in pid (fields.fields_value list.now) }
{
    port_of(list.first(pid)?, list.order())
}

/// The domain that a list announces.
fn announced_domain(list: &ParamList<'_>) -> Option<u32>
    ensures { result ≡ domains.announced_domain (fields.fields_value list.now) }
{
    let value = list.first(pid::DOMAIN_ID)?;
    read_u32(value, list.order())
}

/// The domain that its multicast port tells.
fn multicast_domain(list: &ParamList<'_>) -> Option<u32>
    ensures { result ≡ domains.multicast_domain (fields.fields_value list.now) }
{
    domain_from(port_in(pid::METATRAFFIC_MULTICAST_LOCATOR, list)?)
}

/// The domain that its unicast port tells, if it is of Fast DDS.
fn unicast_domain(list: &ParamList<'_>) -> Option<u32>
    ensures { result ≡ domains.unicast_domain (fields.fields_value list.now) }
{
    if !is_of_fast(list) {
        return None;
    }
    domain_with(port_in(pid::METATRAFFIC_UNICAST_LOCATOR, list)?)
}

/// The domain of the participant that a list announces: the first of these that there is.
pub(crate) fn domain_in(list: &ParamList<'_>) -> Option<u32>
    ensures { result ≡ domains.domain_in (fields.fields_value list.now) }
{
    announced_domain(list)
        .or(multicast_domain(list))
        .or(unicast_domain(list))
}
