ghost use Rattle.std.specs.Prelude.{◌≡◌, ◌≤◌, ◌+◌, length};
ghost use Rattle.rtps_capture.specs.OctetNumbers as octet_numbers;

use rtps_ids::{Order, u16_at, u32_at};

#[inline]
pub(crate) fn two_octets(order: Order, octets: &[u8], at: usize) -> u16
    requires { at + 2 ≤ length octets.now }
    ensures { result ≡ octet_numbers.two_at order octets.now at }
{
    u16_at(order, octets, at).unwrap_or(0)
}

#[inline]
pub(crate) fn four_octets(order: Order, octets: &[u8], at: usize) -> u32
    requires { at + 4 ≤ length octets.now }
    ensures { result ≡ octet_numbers.four_at order octets.now at }
{
    u32_at(order, octets, at).unwrap_or(0)
}
