ghost use Rattle.std.specs.Prelude.{◌≡◌, ◌<◌, ◌^◌, true, IfErr, IfOk};
ghost use Rattle.rtps_capture.specs.Advancing as advancing;
ghost use Rattle.rtps_capture.specs.Left as left;

use crate::capture_reader::{CaptureReader, Wanted};
use crate::frame_reader::{FrameReader, hold_opening};
use crate::frames::Frames;
use crate::held::Held;
use crate::notes::Notes;
use crate::read_fault::ReadFault;
use std::alloc::Global;
use std::io::Read;

/// What an input is of which a capture is wanted.
#[derive(Drop)]
pub enum Opened {
    /// A capture of those that are read, whose header was read. Its datagrams are left to be read.
    Capture(CaptureReader),
    /// None of them.
    Other {
        /// How many of its octets were read.
        read: u64,
        /// Whether these are all.
        ended: bool,
    },
}

impl CaptureReader {
    /// Reads the header of a capture that begins with these octets, which were read of the input, and goes on there.
    pub fn open<R: Read>(
        alloc: Global,
        wanted: Wanted,
        begun: &[u8],
        input: &mut R,
    ) -> Result<Opened, ReadFault>
        ensures opened { IfOk result (advancing.Opens wanted.captures wanted.most (R.remaining input.old) (R.remaining input.new) begun.now) }
        ensures fault { IfErr result left.IsOpenFault }
    {
        let mut held = Held::new(alloc, wanted.block, begun)?;
        hold_opening(wanted.captures, &mut held, input)?;
        match Frames::open(alloc, wanted.captures, held.octets()) {
            Some(frames) => Ok(Opened::Capture(CaptureReader {
                frames: FrameReader {
                    held,
                    frames,
                    place: 0,
                },
                notes: Notes::new(alloc, wanted.most),
                found: None,
            })),
            None => Ok(Opened::Other {
                read: held.read(),
                ended: held.has_ended(),
            }),
        }
    }

    /// Reads on to the next datagram of the same input, and answers whether there is one. After the last one there is none. An `Err` is the
    /// first fault of the capture in its order, or a read failed, or memory was refused: nothing is promised then of what is left.
    pub fn advance<R: Read>(&mut self, input: &mut R) -> Result<bool, ReadFault>
        ensures goes { advancing.IfTold result (advancing.Advances (R.remaining input.old) (R.remaining input.new) self.old self.new result) }
        ensures onward { IfOk result (λ found. found ≡ true → (self.old.frames.place < 2 ^ 62) × (self.old.frames.place < self.new.frames.place)) }
    {
        self.found = None;
        'frames: while let Some(frame) = self.frames.next_frame(input)? {
            self.notes.settle()?;
            let captures = self.frames.captures();
            self.found = self.notes.note(captures, self.frames.octets(), frame)?;
            if self.found.is_some() {
                return Ok(true);
            }
        }
        Ok(false)
    }
}
