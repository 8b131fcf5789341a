ghost use Rattle.std.specs.Prelude.{◌≡◌, ◌≤◌, ◌<◌, ◌+◌, ◌^◌, ℕ, Option, length, option_map, IfOk, IfSome};
ghost use Rattle.rtps_capture.specs.Alike as alike;
ghost use Rattle.rtps_capture.specs.Course as course;
ghost use Rattle.rtps_capture.specs.Noting as noting;
ghost use Rattle.rtps_capture.specs.Frames as frames;
ghost use Rattle.rtps_capture.specs.Packets as packets;

use crate::assembly::Assembly;
use crate::byte_range::ByteRange;
use crate::capture::{CaptureFault, Counts};
use crate::capture_reader::Summary;
use crate::captures::Captures;
use crate::fragment::Fragment;
use crate::frames::{CapturedFrame, Frame};
use crate::packet::{Contents, contents_read};
use crate::times::later;
use rtps_ids::Memory;
use std::alloc::Global;

/// As many octets of fragments are kept before any are left out.
const KEPT_LEAST: usize = 1 << 20;

/// Where the octets of a datagram stand.
#[derive(Clone, Copy)]
pub(crate) enum Place {
    /// Among those of the frame.
    Frame(ByteRange),
    /// Among those of the packet that was put together last.
    Packet(ByteRange),
}

/// A datagram that a frame gave or completed.
#[derive(Clone, Copy)]
pub(crate) struct Found {
    /// Where that frame stands in what is held.
    pub(crate) range: ByteRange,
    pub(crate) place: Place,
    /// When that frame was captured, in nanoseconds since 1970, if that is told.
    pub(crate) time: Option<u64>,
    /// Its number.
    pub(crate) frame: u64,
}

/// What is noted of the frames of a capture so far.
#[derive(Drop)]
pub(crate) struct Notes {
    /// The most datagrams that are wanted.
    most: u64,
    alloc: Global,
    /// The octets of fragments, one behind another: of those that are remembered, and of others.
    kept: Vec<u8>,
    /// Where there are more of them, the others are left out.
    room: usize,
    assembly: Assembly,
    /// The octets of the packet that was put together last.
    packet: Vec<u8>,
    datagrams: u64,
    /// The first time of a frame.
    start: Option<u64>,
    /// The greatest time of a frame.
    end: Option<u64>,
    counts: Counts,
}

impl Notes {
    /// Nothing is noted yet. So many datagrams are wanted at most.
    pub(crate) fn new(alloc: Global, most: u64) -> Notes
        ensures most { result.most ≡ most }
        ensures notes { noting.notes_of result ≡ course.no_notes }
        ensures counted { noting.AreCounted result }
    {
        Notes {
            most,
            alloc,
            kept: Vec::new(alloc),
            room: KEPT_LEAST,
            assembly: Assembly::new(alloc),
            packet: Vec::new(alloc),
            datagrams: 0,
            start: None,
            end: None,
            counts: Counts::default(),
        }
    }

    /// Leaves out the octets of fragments that are not remembered any more, once these may be as many as the others. After an `Err`
    /// nothing is promised of the fragments.
    pub(crate) fn settle(&mut self) -> Result<(), Memory>
        requires { noting.AreCounted self.old }
        ensures settles { IfOk result (λ _. alike.Settles (noting.notes_of self.old) (noting.notes_of self.new)) }
        ensures counted { noting.AreCounted self.new }
        ensures same { (self.new.counts ≡ self.old.counts) × (self.new.datagrams ≡ self.old.datagrams) × (self.new.most ≡ self.old.most) × (self.new.packet ≡ self.old.packet) }
    {
        if self.kept.len() <= self.room {
            return Ok(());
        }
        let mut kept = Vec::new(self.alloc);
        self.assembly.settle(&self.kept, &mut kept)?;
        self.room = kept.len().saturating_mul(2).max(KEPT_LEAST);
        self.kept = kept;
        Ok(())
    }

    /// The octets of the packet that was put together last.
    pub(crate) fn packet(&self) -> &[u8]
        ensures { result.now ≡ self.now.packet.items }
    {
        &self.packet
    }

    /// What is told of the frames.
    pub(crate) fn summary(&self) -> Summary
        requires counted { noting.AreCounted self.now }
        requires few { self.now.counts.frames < 2 ^ 63 }
        ensures told { result ≡ course.summary_of (noting.notes_of self.now) }
        ensures few { course.ignored_of result < 2 ^ 64 }
    {
        let counts = self.counts;
        Summary {
            start: self.start,
            end: self.end,
            pieces: u128::from(counts.fresh).saturating_sub(counts.settled) as u64,
            cut: counts.cut,
            other: counts.other,
            links: counts.links,
            first_link: counts.first_link,
        }
    }

    /// Notes what the next record or block gives, which stands in these octets, and answers the datagram that it gave or
    /// completed. After an `Err` nothing is promised of what is noted.
    #[tactic(auto, unfolding(crate::specs::Course::frame_gives, crate::specs::Course::gives_captured))]
    pub(crate) fn note(
        &mut self,
        captures: Captures,
        octets: &[u8],
        frame: Frame,
    ) -> Result<Option<Found>, CaptureFault>
        requires counted { noting.AreCounted self.old }
        requires few { self.old.counts.frames < 2 ^ 63 }
        requires stands { frames.StandsInFile (length octets.now) frame }
        ensures noted { noting.IsNoted (course.frame_gives captures self.old.most octets.now (noting.notes_of self.old) frame) octets.now self.new result }
        ensures counted { noting.AreCounted self.new }
        ensures frames { self.new.counts.frames ≤ self.old.counts.frames + 1 }
        ensures most { self.new.most ≡ self.old.most }
        ensures stands { IfOk result (noting.FoundStands octets.now self.new.packet.items) }
    {
        let number = self.counts.frames + 1;
        self.start = self.start.or(frame.time());
        self.end = later(self.end, frame.time());
        match frame {
            Frame::Captured(captured) => {
                let found = self.note_captured(captures, octets, captured)?;
                if self.datagrams > self.most {
                    return Err(CaptureFault::TooMany);
                }
                Ok(found)
            }
            Frame::Unread { link, .. } => {
                if self.counts.links == 0 {
                    self.counts.first_link = link;
                }
                self.counts.frames = number;
                self.counts.links += 1;
                Ok(None)
            }
            Frame::NoFrame => Ok(None),
            Frame::Rest => match captures {
                Captures::Classic => Err(CaptureFault::CutCapture { frame: number }),
                Captures::Any => {
                    self.counts.frames = number;
                    self.counts.cut += 1;
                    Ok(None)
                }
            },
            Frame::BadBlock => Err(CaptureFault::BadCapture),
            Frame::Damaged => Err(CaptureFault::Damaged { frame: number }),
            Frame::CutFrame => Err(CaptureFault::CutCapture { frame: number }),
        }
    }

    /// Notes a frame whose link type is read, and whose time is noted.
    #[tactic(auto, unfolding(crate::specs::Course::gives_captured))]
    fn note_captured(
        &mut self,
        captures: Captures,
        octets: &[u8],
        captured: CapturedFrame,
    ) -> Result<Option<Found>, Memory>
        requires counted { noting.AreCounted self.old }
        requires few { self.old.counts.frames < 2 ^ 63 }
        requires stands { (captured.range.from ≤ captured.range.to) × (captured.range.to ≤ length octets.now) }
        ensures noted { IfOk result (λ found. course.gives_captured captures octets.now (noting.notes_of self.old) captured ≡ record { datagram = option_map (noting.datagram_at octets.now self.new.packet.items) found; notes = noting.notes_of self.new }) }
        ensures counted { noting.AreCounted self.new }
        ensures frames { self.new.counts.frames ≡ self.old.counts.frames + 1 }
        ensures most { self.new.most ≡ self.old.most }
        ensures stands { IfOk result (noting.FoundStands octets.now self.new.packet.items) }
    {
        let range = captured.range;
        let octets = &octets[range.from..range.to];
        let contents = contents_read(captures, captured.link, octets);
        match self.take(octets, contents)? {
            Some(place) => Ok(Some(Found {
                range,
                place,
                time: captured.time,
                frame: self.counts.frames,
            })),
            None => Ok(None),
        }
    }

    /// Takes what a frame contains, and answers where the datagram stands that it gives or completes.
    fn take(&mut self, frame: &[u8], contents: Contents) -> Result<Option<Place>, Memory>
        requires counted { noting.AreCounted self.old }
        requires few { self.old.counts.frames < 2 ^ 63 }
        requires stands { packets.StandsIn (length frame.now) contents }
        ensures taken { IfOk result (λ place. (time : Option ℕ) → course.gives_contents (course.counted (noting.notes_of self.old)) time frame.now contents ≡ record { datagram = option_map (noting.given_at frame.now self.new.packet.items time self.new.counts.frames) place; notes = noting.notes_of self.new }) }
        ensures counted { noting.AreCounted self.new }
        ensures frames { self.new.counts.frames ≡ self.old.counts.frames + 1 }
        ensures most { self.new.most ≡ self.old.most }
        ensures stands { IfOk result (λ place. IfSome place (λ place. noting.IsRange (noting.place_range place) (noting.place_size frame.now self.new.packet.items place))) }
    {
        self.counts.frames += 1;
        let place = match contents {
            Contents::Datagram(range) => Some(Place::Frame(range)),
            Contents::Fragment(fragment) => self.take_fragment(frame, &fragment)?,
            Contents::Cut => {
                self.counts.cut += 1;
                None
            }
            Contents::Other => {
                self.counts.other += 1;
                None
            }
        };
        self.datagrams += u64::from(place.is_some());
        Ok(place)
    }

    /// Takes a fragment, which stands in its frame: its octets are kept.
    fn take_fragment(&mut self, frame: &[u8], fragment: &Fragment) -> Result<Option<Place>, Memory>
        requires counted { noting.AreCountedWith 1 self.old }
        requires few { self.old.counts.frames < 2 ^ 64 }
        requires within { (fragment.now.range.from ≤ fragment.now.range.to) × (fragment.now.range.to ≤ length frame.now) }
        requires stands { fragment.now.start + packets.fragment_size fragment.now < 2 ^ 32 }
        ensures taken { IfOk result (noting.TakesKept self.old self.new frame.now fragment.now) }
        ensures counted { noting.AreCounted self.new }
        ensures same { (self.new.counts.frames ≡ self.old.counts.frames) × (self.new.datagrams ≡ self.old.datagrams) × (self.new.most ≡ self.old.most) }
        ensures stands { IfOk result (λ place. IfSome place (λ place. noting.IsRange (noting.place_range place) (noting.place_size frame.now self.new.packet.items place))) }
    {
        let at = self.kept.len();
        self.kept
            .extend_from_slice(&frame[fragment.range.from..fragment.range.to])?;
        let kept = Fragment {
            range: ByteRange {
                from: at,
                to: self.kept.len(),
            },
            ..*fragment
        };
        self.packet.clear();
        let taken = self.assembly.take(&self.kept, &kept, &mut self.packet)?;
        self.counts.fresh += u64::from(taken.fresh);
        self.counts.settled += taken.settled as u128;
        match taken.datagram {
            Some(range) => Ok(Some(Place::Packet(range))),
            None => Ok(None),
        }
    }
}
