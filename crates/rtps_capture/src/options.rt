ghost use Rattle.std.specs.Prelude.{◌≡◌, ◌≤◌, ◌<◌, ◌+◌, length, IfSome};
ghost use Rattle.rtps_capture.specs.Options as options_spec;

use crate::layout::option;
use crate::octet_number::two_octets;
use crate::passed::Header;
use byteorder::{BigEndian, ByteOrder, LittleEndian};
use rtps_ids::Order;

fn option_at(order: Order, options: &[u8], at: usize) -> Header
    requires { at ≤ length options.now }
    ensures { result ≡ options_spec.option_at order options.now at }
{
    if options.len() - at < option::VALUE {
        return Header {
            kind: option::END,
            at,
        };
    }
    Header {
        kind: two_octets(order, options, at),
        at,
    }
}

/// The option behind one of another code than this. None where it is of this code, or none is behind it.
fn option_passed(order: Order, code: u16, options: &[u8], header: Header) -> Option<Header>
    requires { header.at ≤ length options.now }
    ensures passed { result ≡ options_spec.option_passed order code options.now header }
    ensures onward { IfSome result (λ behind. (header.at < behind.at) × (behind.at ≤ length options.now)) }
{
    let room = options.len() - header.at;
    if room < option::VALUE || header.kind == option::END || header.kind == code {
        return None;
    }
    let size = usize::from(two_octets(order, options, header.at + option::LENGTH));
    let whole = option::VALUE + (size + 3) / 4 * 4;
    if room < whole {
        return None;
    }
    Some(option_at(order, options, header.at + whole))
}

/// The first option of this code, or the last one that is read.
fn found_option(order: Order, code: u16, options: &[u8]) -> Header
    ensures found { result ≡ options_spec.found_option order code options.now }
    ensures within { result.at ≤ length options.now }
{
    let mut header = option_at(order, options, 0);
    while let Some(behind) = option_passed(order, code, options, header) {
        header = behind;
    }
    header
}

fn value_told(order: Order, code: u16, size: usize, options: &[u8]) -> Option<usize>
    requires { size ≤ 8 }
    ensures told { result ≡ options_spec.value_told order code size options.now }
    ensures within { IfSome result (λ at. at + size ≤ length options.now) }
{
    let header = found_option(order, code, options);
    if header.kind != code
        || options.len() - header.at < option::VALUE + size
        || usize::from(two_octets(order, options, header.at + option::LENGTH)) != size
    {
        return None;
    }
    Some(header.at + option::VALUE)
}

pub(crate) fn resolution_told(order: Order, options: &[u8]) -> u8
    ensures { result ≡ options_spec.resolution_told order options.now }
{
    match value_told(order, option::RESOLUTION, 1, options) {
        Some(at) => options[at],
        None => option::USUAL_RESOLUTION,
    }
}

#[tactic(auto, unfolding(rtps_ids::specs::Octets::number_of))]
pub(crate) fn offset_told(order: Order, options: &[u8]) -> u64
    ensures { result ≡ options_spec.offset_told order options.now }
{
    let Some(at) = value_told(order, option::OFFSET, 8, options) else {
        return 0;
    };
    match order {
        Order::Big => BigEndian::read_u64(&options[at..]),
        Order::Little => LittleEndian::read_u64(&options[at..]),
    }
}
