ghost use Rattle.std.specs.Prelude.{◌≡◌, ◌≤◌, ◌<◌, ◌+◌, ◌*◌, ◌^◌, length};
ghost use Rattle.rtps_capture.specs.Times as times_spec;
ghost use Rattle.rtps_capture.specs.declared.layout.time.TheConstants.{SECOND};

use crate::blocks::Interface;
use crate::layout::{record, time};
use crate::octet_number::four_octets;
use rtps_ids::Order;

#[inline]
pub(crate) fn record_time(nanoseconds: bool, order: Order, octets: &[u8], at: usize) -> u64
    requires { at + 16 ≤ length octets.now }
    ensures { result ≡ times_spec.record_time nanoseconds order octets.now at }
{
    let seconds = u64::from(four_octets(order, octets, at + record::SECONDS));
    let fraction = u64::from(four_octets(order, octets, at + record::FRACTION));
    if nanoseconds {
        seconds * time::SECOND + fraction
    } else {
        seconds * time::SECOND + fraction * time::MICROSECOND
    }
}

/// Two words of four octets as one number, of which the first one is the high half.
#[inline]
pub(crate) fn pair_at(order: Order, octets: &[u8], at: usize) -> u64
    requires { at + 8 ≤ length octets.now }
    ensures { result ≡ times_spec.pair_at order octets.now at }
{
    let high = u64::from(four_octets(order, octets, at));
    high * (1 << 32) + u64::from(four_octets(order, octets, at + 4))
}

#[tactic(auto, unfolding(crate::specs::Times::nanoseconds_of))]
fn nanoseconds_of(resolution: u8, ticks: u64) -> u128
    ensures value { result ≡ times_spec.nanoseconds_of resolution ticks }
    ensures few { result ≤ ticks * SECOND }
{
    let (base, power) = if resolution < 128 {
        (10u128, resolution)
    } else {
        (2u128, resolution - 128)
    };
    let all = u128::from(ticks) * u128::from(time::SECOND);
    match base.checked_pow(u32::from(power)) {
        Some(units) => all / units,
        None => 0,
    }
}

/// The time that is so many seconds later, by an offset in two's complement.
#[tactic(auto, unfolding(crate::specs::Times::later_by))]
fn later_by(offset: u64, nanoseconds: u128) -> Option<u128>
    requires { nanoseconds < 2 ^ 94 }
    ensures { result ≡ times_spec.later_by offset nanoseconds }
{
    if offset < 1 << 63 {
        return Some(nanoseconds + u128::from(offset) * u128::from(time::SECOND));
    }
    let earlier = ((1 << 64) - u128::from(offset)) * u128::from(time::SECOND);
    nanoseconds.checked_sub(earlier)
}

/// The time of a frame of this interface, whose block tells it in so many units. None where it is before 1970, or past what
/// 64 bits count.
pub(crate) fn block_time(interface: Interface, ticks: u64) -> Option<u64>
    ensures { result ≡ times_spec.block_time interface ticks }
{
    let nanoseconds = nanoseconds_of(interface.resolution, ticks);
    let counted = later_by(interface.offset, nanoseconds)?;
    if counted < 1 << 64 {
        Some(counted as u64)
    } else {
        None
    }
}

/// The later of two times, where there are two.
#[inline]
pub(crate) fn later(one: Option<u64>, other: Option<u64>) -> Option<u64>
    ensures { result ≡ times_spec.later_of one other }
{
    match (one, other) {
        (Some(one), Some(other)) => Some(one.max(other)),
        (Some(one), None) => Some(one),
        (None, other) => other,
    }
}
