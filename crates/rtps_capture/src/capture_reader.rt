ghost use Rattle.std.specs.Prelude.{◌≡◌, ◌≤◌, ◌<◌, ◌^◌, MatchOption, None, Some};
ghost use Rattle.rtps_capture.specs.Course as course;
ghost use Rattle.rtps_capture.specs.Noting as noting;

use crate::captures::Captures;
use crate::frame_reader::FrameReader;
use crate::notes::{Found, Notes, Place};

/// What is wanted of a capture that is read by blocks.
#[derive(Clone, Copy)]
pub struct Wanted {
    /// Those that are read.
    pub captures: Captures,
    /// The most datagrams.
    pub most: u64,
    /// How many octets a read asks for; for 0 it is one.
    pub block: usize,
}

/// A datagram of a capture.
#[derive(Clone, Copy)]
pub struct Datagram<'a> {
    pub octets: &'a [u8],
    /// When the frame was captured that gave it, or completed its packet: in nanoseconds since 1970 began (UTC). None where
    /// the file does not tell it.
    pub time: Option<u64>,
    /// The number of that frame, counted from 1: of all frames of the file, whatever they carry.
    pub frame: u64,
}

/// What is told of the frames of a capture that were read. Of classic captures alone each ignored frame is one of `other`.
#[derive(Clone, Copy)]
pub struct Summary {
    /// When the first frame was captured that has a time, whether it gave a datagram or not: in nanoseconds since 1970 began (UTC).
    pub start: Option<u64>,
    /// The greatest time of a frame that has one.
    pub end: Option<u64>,
    /// Frames with fragments of packets that are not whole.
    pub pieces: u64,
    /// Frames whose captured octets end before their packet does, and the rest of a file that ends within a frame.
    pub cut: u64,
    /// Frames that carry no UDP over IP.
    pub other: u64,
    /// Frames of an interface that is not declared, or of a link type that is not read.
    pub links: u64,
    /// The link type of the first of these; None where there is none, or its interface is not declared.
    pub first_link: Option<u32>,
}

/// A capture that is read by blocks, datagram by datagram. It holds no more of it than a block and a record, and the octets of the
/// fragments of packets that are remembered, and as many of others.
#[derive(Drop)]
pub struct CaptureReader {
    pub(crate) frames: FrameReader,
    pub(crate) notes: Notes,
    // The datagram that came last.
    pub(crate) found: Option<Found>,
    ghost counted: { noting.AreCounted notes },
    ghost few: { (notes.counts.frames ≤ frames.place) × (notes.counts.frames ≤ 2 ^ 62) },
    ghost stands: { noting.FoundStands frames.held.octets notes.packet.items found },
}

impl CaptureReader {
    /// The datagram that came last, until the reader advances.
    pub fn datagram(&self) -> Option<Datagram<'_>>
        ensures { MatchOption result (self.now.found ≡ None) (λ datagram. noting.found_datagram self.now.frames.held.octets self.now.notes self.now.found
            ≡ Some (record { octets = datagram.octets.now; time = datagram.time; frame = datagram.frame })) }
    {
        let found = self.found?;
        let octets = match found.place {
            Place::Frame(range) => {
                let frame = &self.frames.octets()[found.range.from..found.range.to];
                &frame[range.from..range.to]
            }
            Place::Packet(range) => &self.notes.packet()[range.from..range.to],
        };
        Some(Datagram {
            octets,
            time: found.time,
            frame: found.frame,
        })
    }

    /// What is told of the frames that were read.
    pub fn summary(&self) -> Summary
        ensures told { result ≡ course.summary_of (noting.notes_of self.now.notes) }
        ensures few { course.ignored_of result < 2 ^ 64 }
    {
        self.notes.summary()
    }

    /// How many octets of the input were read.
    pub fn octets_read(&self) -> u64
        ensures { result ≡ self.now.frames.held.read }
    {
        self.frames.held.read()
    }

    /// Whether the input ended. Nothing is read behind its end.
    pub fn has_ended(&self) -> bool
        ensures { result ≡ self.now.frames.held.ended }
    {
        self.frames.held.has_ended()
    }
}
