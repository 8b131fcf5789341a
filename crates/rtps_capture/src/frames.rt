ghost use Rattle.std.specs.Prelude.{◌≡◌, ◌≤◌, ◌<◌, length, IfOk, IfSome, MatchOption, None, OnOk, Some};
ghost use Rattle.rtps_capture.specs.Blocks as blocks;
ghost use Rattle.rtps_capture.specs.Frames as frames_spec;
ghost use Rattle.rtps_capture.specs.Left as left;
ghost use Rattle.rtps_capture.specs.declared.blocks.Block.TheVariants.{Whole};

use crate::blocks::{Block, Interface, WholeBlock, block_at, block_needed};
use crate::byte_range::ByteRange;
use crate::captures::Captures;
use crate::layout::{block, file, interface, packet_block, record};
use crate::link_type::{LinkType, link_read, link_type_numbered};
use crate::octet_number::{four_octets, two_octets};
use crate::opening::{capture_order, link_type_in};
use crate::options::{offset_told, resolution_told};
use crate::times::{block_time, pair_at, record_time};
use rtps_ids::{Memory, Order};
use std::alloc::Global;

/// What the next record or block of a capture gives.
#[derive(Clone, Copy)]
pub(crate) enum Frame {
    Captured(CapturedFrame),
    /// A frame of this link type, which is not read; None where the section did not declare its interface.
    Unread {
        link: Option<u32>,
        /// When it was captured, in nanoseconds since 1970, if that is told.
        time: Option<u64>,
    },
    /// A block that has no frame.
    NoFrame,
    /// The file ends within a record or a block.
    Rest,
    /// A block that cannot be.
    BadBlock,
    /// A frame that would have more octets than are captured of one.
    Damaged,
    /// A block whose frame passes the block's end.
    CutFrame,
}

impl Frame {
    /// When it was captured, in nanoseconds since 1970, if it is a frame and that is told.
    #[inline]
    pub(crate) fn time(self) -> Option<u64>
        ensures { result ≡ frames_spec.time_of self }
    {
        match self {
            Frame::Captured(frame) => frame.time,
            Frame::Unread { time, .. } => time,
            _ => None,
        }
    }
}

/// A frame whose link type is read.
#[derive(Clone, Copy)]
pub(crate) struct CapturedFrame {
    pub(crate) link: LinkType,
    /// Where it stands in the file.
    pub(crate) range: ByteRange,
    /// When it was captured, in nanoseconds since 1970, if that is told.
    pub(crate) time: Option<u64>,
}

/// What the records of a classic file are.
#[derive(Clone, Copy)]
pub(crate) struct Records {
    pub(crate) link: LinkType,
    /// The fractions of a second in their times are nanoseconds, and else microseconds.
    pub(crate) nanoseconds: bool,
}

/// A place in a capture, in front of the frames that are still unread. Each call gets the octets of the capture.
#[derive(Drop)]
pub(crate) struct Frames {
    captures: Captures,
    /// Where the next record or block begins.
    at: usize,
    /// The order of the numbers in the headers.
    order: Order,
    /// None of a pcapng file.
    records: Option<Records>,
    /// The interfaces of the section so far.
    interfaces: Vec<Interface>,
}

#[inline]
fn frame_of_interface(interface: Option<Interface>, ticks: Option<u64>, range: ByteRange) -> Frame
    ensures { result ≡ frames_spec.frame_of_interface ticks range interface }
{
    let Some(interface) = interface else {
        return Frame::Unread {
            link: None,
            time: None,
        };
    };
    let time = match ticks {
        Some(ticks) => block_time(interface, ticks),
        None => None,
    };
    match link_type_numbered(interface.link) {
        Some(link) => Frame::Captured(CapturedFrame { link, range, time }),
        None => Frame::Unread {
            link: Some(interface.link),
            time,
        },
    }
}

#[tactic(auto, unfolding(crate::specs::Frames::framed))]
#[inline]
fn framed(interface: Option<Interface>, ticks: Option<u64>, size: usize, range: ByteRange) -> Frame
    requires { range.from ≤ range.to }
    ensures framed { result ≡ frames_spec.framed interface ticks size range }
    ensures within { frames_spec.StandsInFile range.to result }
{
    if size > record::MOST {
        return Frame::Damaged;
    }
    if size > range.to - range.from {
        return Frame::CutFrame;
    }
    let to = range.from + size;
    frame_of_interface(interface, ticks, ByteRange { to, ..range })
}

#[inline]
fn simple_size(first: Option<Interface>, original: u32, room: usize) -> usize
    ensures { result ≡ frames_spec.simple_size (frames_spec.snap_of first) original room }
{
    let limit = match first {
        Some(interface) if interface.snap != 0 => room.min(interface.snap as usize),
        _ => room,
    };
    limit.min(original as usize)
}

#[tactic(auto, unfolding(crate::specs::Frames::frame_of_block))]
#[inline]
fn frame_of_block(interfaces: &[Interface], whole: WholeBlock, octets: &[u8], at: usize) -> Frame
    requires { blocks.BlockStands at octets.now (Whole whole) }
    ensures gives { result ≡ frames_spec.frame_of_block interfaces.now whole octets.now at }
    ensures within { frames_spec.StandsInFile (length octets.now) result }
{
    let body = at + block::BODY;
    let to = whole.to - block::REPETITION;
    let number = match whole.kind {
        block::ENHANCED => four_octets(whole.order, octets, body) as usize,
        block::OLD => usize::from(two_octets(whole.order, octets, body)),
        block::SIMPLE => {
            let first = interfaces.first().copied();
            let from = body + packet_block::SIMPLE;
            let original = four_octets(whole.order, octets, body);
            let size = simple_size(first, original, to - from);
            return framed(first, None, size, ByteRange { from, to });
        }
        _ => return Frame::NoFrame,
    };
    let from = body + packet_block::FIXED;
    let ticks = pair_at(whole.order, octets, body + packet_block::TICKS);
    let captured = four_octets(whole.order, octets, body + packet_block::CAPTURED) as usize;
    let interface = interfaces.get(number).copied();
    framed(interface, Some(ticks), captured, ByteRange { from, to })
}

/// Keeps the interfaces that are there behind a block: a section begins with none. `Memory` leaves them as they are.
#[tactic(auto, unfolding(crate::specs::Frames::interfaces_behind))]
fn keep_interfaces(
    interfaces: &mut Vec<Interface>,
    whole: WholeBlock,
    octets: &[u8],
    at: usize,
) -> Result<(), Memory>
    requires { blocks.BlockStands at octets.now (Whole whole) }
    ensures { IfOk result (λ _. interfaces.new.items ≡ frames_spec.interfaces_behind interfaces.old.items whole octets.now at) }
{
    if whole.kind == block::SECTION {
        interfaces.clear();
        return Ok(());
    }
    if whole.kind == block::INTERFACE {
        let body = at + block::BODY;
        let options = &octets[body + interface::FIXED..whole.to - block::REPETITION];
        interfaces.push(Interface {
            link: u32::from(two_octets(whole.order, octets, body + interface::LINK)),
            snap: four_octets(whole.order, octets, body + interface::SNAP),
            resolution: resolution_told(whole.order, options),
            offset: offset_told(whole.order, options),
        })?;
    }
    Ok(())
}

impl Frames {
    /// Reads the header of a capture, of any length, and leaves its frames to be read. None where it is none of those that are
    /// read: the header of a classic one is cut, of another major version or of a link type that is not read, or the
    /// first block is not a whole header of a section that is read.
    #[tactic(auto, unfolding(crate::specs::Frames::opened, crate::specs::Opening::link_type_in))]
    pub(crate) fn open(alloc: Global, captures: Captures, octets: &[u8]) -> Option<Frames>
        ensures opened { MatchOption result (frames_spec.opened captures octets.now ≡ None) (λ frames. frames_spec.opened captures octets.now ≡ Some (frames_spec.unread_of octets.now frames)) }
        ensures within { IfSome result (λ frames. frames.at ≤ length octets.now) }
    {
        if let Some(order) = capture_order(octets) {
            let link = link_read(captures, link_type_in(order, octets)?)?;
            return Some(Frames {
                captures,
                at: file::SIZE,
                order,
                records: Some(Records {
                    link,
                    nanoseconds: four_octets(order, octets, 0) == file::NANOSECONDS,
                }),
                interfaces: Vec::new(alloc),
            });
        }
        match (captures, block_at(Order::Big, octets, 0)) {
            (Captures::Any, Block::Whole(whole)) if whole.kind == block::SECTION => Some(Frames {
                captures,
                at: whole.to,
                order: whole.order,
                records: None,
                interfaces: Vec::new(alloc),
            }),
            _ => None,
        }
    }

    /// Where the next record or block begins.
    pub(crate) fn at(&self) -> usize
        ensures { result ≡ self.now.at }
    {
        self.at
    }

    pub(crate) fn captures(&self) -> Captures
        ensures { result ≡ self.now.captures }
    {
        self.captures
    }

    /// Counts places from here on: the octets that are passed are not given any more.
    pub(crate) fn rebase(&mut self)
        ensures { self.new ≡ record self.old { at = 0 } }
    {
        self.at = 0;
    }

    /// How many octets from its place on decide what the next record or block gives, by those that are held of it.
    pub(crate) fn needed(&self, octets: &[u8]) -> usize
        requires { self.now.at ≤ length octets.now }
        ensures { result ≡ left.needed (frames_spec.unread_of octets.now self.now) }
    {
        if self.records.is_none() {
            return block_needed(self.order, octets, self.at);
        }
        if octets.len() - self.at < record::SIZE {
            return record::SIZE;
        }
        let size = four_octets(self.order, octets, self.at + record::CAPTURED) as usize;
        if matches!(self.captures, Captures::Any) && size > record::MOST {
            return record::SIZE;
        }
        record::SIZE + size
    }

    /// What the next record or block gives, which is there. After `Memory` nothing is promised of what is unread.
    #[tactic(auto, unfolding(crate::specs::Frames::step_of))]
    pub(crate) fn step(&mut self, octets: &[u8]) -> Result<Frame, Memory>
        requires { self.old.at < length octets.now }
        ensures step { IfOk result (λ frame. frames_spec.TakesStep (frames_spec.step_of (frames_spec.unread_of octets.now self.old)) frame (frames_spec.unread_of octets.now self.new)) }
        ensures within { IfOk result (λ frame. frames_spec.StandsInFile (length octets.now) frame) }
        ensures onward { OnOk result (self.old.at < self.new.at) }
        ensures at { self.new.at ≤ length octets.now }
        ensures captures { self.new.captures ≡ self.old.captures }
    {
        match self.records {
            Some(records) => Ok(self.next_record(octets, records)),
            None => self.next_block(octets),
        }
    }

    /// Gives this, and nothing behind it.
    fn end_with(&mut self, frame: Frame, octets: &[u8]) -> Frame
        ensures step { frames_spec.TakesStep (frames_spec.end_with frame (frames_spec.unread_of octets.now self.old)) result (frames_spec.unread_of octets.now self.new) }
        ensures at { (self.new.at ≡ length octets.now) × (self.new.captures ≡ self.old.captures) }
    {
        self.at = octets.len();
        frame
    }

    #[inline]
    fn next_record(&mut self, octets: &[u8], records: Records) -> Frame
        requires { self.old.at < length octets.now }
        ensures step { frames_spec.TakesStep (frames_spec.step_of_record (frames_spec.unread_of octets.now self.old) records) result (frames_spec.unread_of octets.now self.new) }
        ensures within { frames_spec.StandsInFile (length octets.now) result }
        ensures onward { (self.old.at < self.new.at) × (self.new.at ≤ length octets.now) }
        ensures captures { self.new.captures ≡ self.old.captures }
    {
        let room = octets.len() - self.at;
        if room < record::SIZE {
            return self.end_with(Frame::Rest, octets);
        }
        let size = four_octets(self.order, octets, self.at + record::CAPTURED) as usize;
        if matches!(self.captures, Captures::Any) && size > record::MOST {
            return self.end_with(Frame::Damaged, octets);
        }
        if size > room - record::SIZE {
            return self.end_with(Frame::Rest, octets);
        }
        let from = self.at + record::SIZE;
        let time = record_time(records.nanoseconds, self.order, octets, self.at);
        self.at = from + size;
        Frame::Captured(CapturedFrame {
            link: records.link,
            range: ByteRange { from, to: self.at },
            time: Some(time),
        })
    }

    fn next_block(&mut self, octets: &[u8]) -> Result<Frame, Memory>
        requires { self.old.at < length octets.now }
        ensures step { IfOk result (λ frame. frames_spec.TakesStep (frames_spec.step_of_block (frames_spec.unread_of octets.now self.old) (blocks.block_at self.old.order octets.now self.old.at)) frame (frames_spec.unread_of octets.now self.new)) }
        ensures within { IfOk result (λ frame. frames_spec.StandsInFile (length octets.now) frame) }
        ensures onward { OnOk result (self.old.at < self.new.at) }
        ensures at { self.new.at ≤ length octets.now }
        ensures captures { self.new.captures ≡ self.old.captures }
    {
        let whole = match block_at(self.order, octets, self.at) {
            Block::Whole(whole) => whole,
            Block::Unfinished => return Ok(self.end_with(Frame::Rest, octets)),
            Block::Bad => return Ok(self.end_with(Frame::BadBlock, octets)),
        };
        let frame = frame_of_block(&self.interfaces, whole, octets, self.at);
        keep_interfaces(&mut self.interfaces, whole, octets, self.at)?;
        self.order = whole.order;
        self.at = whole.to;
        Ok(frame)
    }
}
