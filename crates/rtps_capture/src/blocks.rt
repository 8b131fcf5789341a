ghost use Rattle.std.specs.Prelude.{◌≡◌, ◌≤◌, ◌+◌, length};
ghost use Rattle.rtps_capture.specs.Blocks as blocks;

use crate::layout::{block, interface, packet_block, section};
use crate::octet_number::{four_octets, two_octets};
use rtps_ids::Order;

/// A block of a pcapng file.
#[derive(Clone, Copy)]
pub(crate) enum Block {
    Whole(WholeBlock),
    /// The file ends within it.
    Unfinished,
    /// Its length cannot be, or it is the header of a section that is not read.
    Bad,
}

/// A block that the file has all of.
#[derive(Clone, Copy)]
pub(crate) struct WholeBlock {
    pub(crate) kind: u32,
    /// The order of the section's numbers.
    pub(crate) order: Order,
    /// Where the block ends.
    pub(crate) to: usize,
}

/// An interface of a section.
#[derive(Clone, Copy)]
pub(crate) struct Interface {
    /// The link type of its frames.
    pub(crate) link: u32,
    /// The most octets that are captured of a frame; 0 is no limit.
    pub(crate) snap: u32,
    /// How fine its times are: the units of a second as a power of 10, and from 128 on as one of 2.
    pub(crate) resolution: u8,
    /// How many seconds are added to its times, in two's complement.
    pub(crate) offset: u64,
}

/// Whether a file begins as a pcapng file does: with the type of a section header.
pub fn is_pcapng(octets: &[u8]) -> bool
    ensures { result ≡ blocks.is_pcapng octets.now }
{
    octets.len() >= 4 && four_octets(Order::Big, octets, 0) == block::SECTION
}

fn order_told(octets: &[u8], at: usize) -> Option<Order>
    requires { at + 4 ≤ length octets.now }
    ensures { result ≡ blocks.order_told octets.now at }
{
    if four_octets(Order::Big, octets, at) == section::BYTE_ORDER {
        return Some(Order::Big);
    }
    if four_octets(Order::Little, octets, at) == section::BYTE_ORDER {
        return Some(Order::Little);
    }
    None
}

#[inline]
fn fixed_size(kind: u32) -> usize
    ensures size { result ≡ blocks.fixed_size kind }
    ensures few { result ≤ 20 }
{
    match kind {
        block::SECTION => section::FIXED,
        block::INTERFACE => interface::FIXED,
        block::ENHANCED | block::OLD => packet_block::FIXED,
        block::SIMPLE => packet_block::SIMPLE,
        _ => 0,
    }
}

/// The block of this type at this place, whose numbers lie in this order: its length is looked at first, then whether the
/// file has all of it, then the repetition, then its fields.
#[tactic(auto, unfolding(crate::specs::Blocks::block_with))]
#[inline]
fn block_with(kind: u32, order: Order, octets: &[u8], at: usize) -> Block
    requires { at + 8 ≤ length octets.now }
    ensures block { result ≡ blocks.block_with kind order octets.now at }
    ensures stands { blocks.BlockStands at octets.now result }
{
    let size = four_octets(order, octets, at + block::LENGTH) as usize;
    if size % block::UNIT != 0 || size < block::LEAST + fixed_size(kind) {
        return Block::Bad;
    }
    if octets.len() - at < size {
        return Block::Unfinished;
    }
    let to = at + size;
    if four_octets(order, octets, to - block::REPETITION) as usize != size {
        return Block::Bad;
    }
    if kind == block::SECTION
        && two_octets(order, octets, at + section::MAJOR) != section::VERSION
    {
        return Block::Bad;
    }
    Block::Whole(WholeBlock { kind, order, to })
}

#[inline]
fn needed_sized(kind: u32, size: u32) -> usize
    ensures { result ≡ blocks.needed_sized kind size }
{
    let size = size as usize;
    if size % block::UNIT != 0 || size < block::LEAST + fixed_size(kind) {
        return block::LEAST;
    }
    size
}

/// How many octets decide what the block at this place is, by those that are held of it: all of the block, or its front where that
/// tells that it cannot be.
pub(crate) fn block_needed(order: Order, octets: &[u8], at: usize) -> usize
    requires { at ≤ length octets.now }
    ensures { result ≡ blocks.block_needed order octets.now at }
{
    if octets.len() - at < block::LEAST {
        return block::LEAST;
    }
    let kind = four_octets(order, octets, at);
    if kind != block::SECTION {
        return needed_sized(kind, four_octets(order, octets, at + block::LENGTH));
    }
    match order_told(octets, at + section::MAGIC) {
        Some(own) => needed_sized(kind, four_octets(own, octets, at + block::LENGTH)),
        None => block::LEAST,
    }
}

#[tactic(auto, unfolding(crate::specs::Blocks::block_at))]
pub(crate) fn block_at(order: Order, octets: &[u8], at: usize) -> Block
    requires { at ≤ length octets.now }
    ensures block { result ≡ blocks.block_at order octets.now at }
    ensures stands { blocks.BlockStands at octets.now result }
{
    let rest = octets.len() - at;
    if rest < block::BODY {
        return Block::Unfinished;
    }
    let kind = four_octets(order, octets, at);
    if kind != block::SECTION {
        return block_with(kind, order, octets, at);
    }
    if rest < block::LEAST {
        return Block::Unfinished;
    }
    match order_told(octets, at + section::MAGIC) {
        Some(own) => block_with(kind, own, octets, at),
        None => Block::Bad,
    }
}
