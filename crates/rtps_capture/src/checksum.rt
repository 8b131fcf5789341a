ghost use Rattle.std.specs.Prelude.{◌≡◌, ◌≤◌, ◌<◌, ◌^◌, length};
ghost use Rattle.rtps_capture.specs.Checksum as checksum;

use crate::fragment::FragmentKey;
use crate::layout::{packet, udp};
use crate::octet_number::two_octets;
use rtps_ids::Order;

fn word_sum(octets: &[u8]) -> u32
    requires { length octets.now < 2 ^ 16 }
    ensures sum { result ≡ checksum.word_sum octets.now }
    ensures small { result < 2 ^ 32 }
{
    let mut sum = 0;
    for word in 0..octets.len() / 2 {
        sum += u32::from(octets[2 * word]) * 256 + u32::from(octets[2 * word + 1]);
    }
    if octets.len() % 2 == 1 {
        sum += u32::from(octets[octets.len() - 1]) * 256;
    }
    sum
}

#[tactic(auto, unfolding(crate::specs::Checksum::is_right))]
pub(crate) fn is_right(key: &FragmentKey, octets: &[u8]) -> bool
    requires header { 8 ≤ length octets.now }
    requires small { length octets.now < 2 ^ 16 }
    ensures { result ≡ checksum.is_right key.now octets.now }
{
    if key.version == packet::VERSION && two_octets(Order::Big, octets, udp::CHECKSUM) == 0 {
        return true;
    }
    let pseudo = key.source % 65535
        + key.destination % 65535
        + u128::from(packet::UDP)
        + octets.len() as u128;
    (pseudo + u128::from(word_sum(octets))) % 65535 == 0
}
