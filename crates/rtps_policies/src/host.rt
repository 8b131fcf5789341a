ghost use Rattle.std.specs.Prelude.{◌≡◌, Some};
ghost use Rattle.std.specs.List.{list_any};
ghost use Rattle.std.specs.Fmt.{WritesOnOk};
ghost use Rattle.rtps_discovery.specs.Fields as fields;
ghost use Rattle.rtps_policies.specs.AddressText as address_text;
ghost use Rattle.rtps_policies.specs.Hosts as hosts;

use crate::domain::domain_in;
use crate::duration::duration_at;
use crate::layout::{lease, locator, pid};
use crate::vendor::is_of_fast;
use rtps_ids::Order;
use rtps_params::{ParamList, read_u32};
use std::fmt;

/// Where a participant receives what is for it.
#[derive(Clone, Copy, PartialEq)]
pub enum Address {
    V4([u8; 4]),
    V6([u8; 16]),
}

impl Address {
    /// Whether it is of IPv4.
    pub(crate) fn is_v4(self) -> bool
        ensures { result ≡ hosts.is_v4 self }
    {
        matches!(self, Address::V4(_))
    }
}

impl fmt::Display for Address {
    ghost output = { λ address. Some (address_text.address_text address) };

    #[tactic(auto, unfolding(crate::specs::AddressText::address_text))]
    fn fmt<W: fmt::Write>(&self, f: &mut fmt::Formatter<W>) -> fmt::Result {
        match self {
            Address::V4([a, b, c, d]) => write!(f, "{a}.{b}.{c}.{d}"),
            Address::V6(octets) => write_groups(octets, f),
        }
    }
}

/// Writes the numbers of pairs of octets, with a colon between each two.
fn write_groups<W: fmt::Write>(octets: &[u8], f: &mut fmt::Formatter<W>) -> fmt::Result
    ensures { WritesOnOk W.write_str_gives f.old result (address_text.groups_text (address_text.groups_of octets.now)) f.new }
{
    let [high, low, behind @ ..] = octets else {
        return Ok(());
    };
    let group = u16::from_be_bytes([*high, *low]);
    write!(f, "{group:x}")?;
    if behind.len() < 2 {
        return Ok(());
    }
    write!(f, ":")?;
    write_groups(behind, f)
}

/// What a participant announces of where it is, and of its lease (DDSI-RTPS 2.5, 8.5.3.2 "SPDPdiscoveredParticipantData").
#[derive(Clone, Copy)]
pub struct Host {
    /// Its domain: the one that it announces, or else the one that its ports tell.
    pub domain: Option<u32>,
    /// Its first default unicast locator of IPv4, or else its first one of IPv6.
    pub address: Option<Address>,
    /// Its lease, in nanoseconds; 100 s where it announces none. It is taken to be there for so long when nothing of it comes.
    pub lease: u64,
    /// Whether it is of Fast DDS, and announces that it shares memory with processes of its host.
    pub shares_memory: bool,
}

impl Host {
    /// That of a participant that announces nothing of it.
    pub const UNKNOWN: Host = Host {
        domain: None,
        address: None,
        lease: lease::DEFAULT,
        shares_memory: false,
    };

    /// What a parameter list announces.
    pub(crate) fn of(list: &ParamList<'_>) -> Host
        ensures { result ≡ hosts.host_in (fields.fields_value list.now) }
    {
        Host {
            domain: domain_in(list),
            address: address_in(list),
            lease: lease_in(list),
            shares_memory: is_of_fast(list) && announces_memory_in(list),
        }
    }
}

/// The lease in a list, in nanoseconds.
fn lease_in(list: &ParamList<'_>) -> u64
    ensures { result ≡ hosts.lease_in (fields.fields_value list.now) }
{
    let Some(value) = list.first(pid::PARTICIPANT_LEASE_DURATION) else {
        return lease::DEFAULT;
    };
    match duration_at(list.order(), value, 0) {
        Some(duration) => duration.nanoseconds().unwrap_or(lease::DEFAULT),
        None => lease::DEFAULT,
    }
}

/// The address in a locator, or None if it is cut or of another kind.
fn read_address(value: &[u8], order: Order) -> Option<Address>
    ensures { result ≡ hosts.address_of order value.now }
{
    if value.len() < locator::SIZE {
        return None;
    }
    match read_u32(value, order) {
        Some(locator::UDP_V4) => {
            let octets = value[locator::V4_ADDRESS..].first_chunk::<4>()?;
            Some(Address::V4(*octets))
        }
        Some(locator::UDP_V6) => {
            let octets = value[locator::ADDRESS..].first_chunk::<16>()?;
            Some(Address::V6(*octets))
        }
        _ => None,
    }
}

/// The address that a parameter announces, if it is a default unicast locator.
fn announced_address(pid: u16, value: &[u8], order: Order) -> Option<Address>
    ensures { result ≡ hosts.address_by order (pid, value.now) }
{
    if pid == pid::DEFAULT_UNICAST_LOCATOR {
        read_address(value, order)
    } else {
        None
    }
}

/// The first address of IPv4 in a list, or else the first one of IPv6.
fn address_in(list: &ParamList<'_>) -> Option<Address>
    ensures { result ≡ hosts.address_in (fields.fields_value list.now) }
{
    let mut found = None;
    for (pid, value) in list.params() {
        if let Some(address) = announced_address(pid, value, list.order()) {
            if address.is_v4() {
                return Some(address);
            }
            found = found.or(Some(address));
        }
    }
    found
}

/// Whether a locator is one of memory; false if it is cut.
fn is_memory(value: &[u8], order: Order) -> bool
    ensures { result ≡ hosts.is_memory order value.now }
{
    if value.len() < locator::SIZE {
        return false;
    }
    match read_u32(value, order) {
        Some(kind) => locator::MEMORY <= kind && kind < locator::BELOW_ZERO,
        None => false,
    }
}

/// Whether a parameter announces a unicast locator of memory.
fn announces_memory(pid: u16, value: &[u8], order: Order) -> bool
    ensures { result ≡ hosts.announces_memory order (pid, value.now) }
{
    (pid == pid::DEFAULT_UNICAST_LOCATOR || pid == pid::METATRAFFIC_UNICAST_LOCATOR)
        && is_memory(value, order)
}

/// Whether a list announces a unicast locator of memory.
fn announces_memory_in(list: &ParamList<'_>) -> bool
    ensures { result ≡ list_any (hosts.announces_memory (fields.fields_value list.now).order) (fields.fields_value list.now).pairs }
{
    for (pid, value) in list.params() {
        if announces_memory(pid, value, list.order()) {
            return true;
        }
    }
    false
}
