ghost use Rattle.std.specs.Prelude.{◌≡◌, ◌≤◌, ◌<◌, ◌+◌, ◌^◌, ◌⊎◌, drop, length, true, IfErr, IfOk, IfSome, None, OnOk};
ghost use Rattle.rtps_capture.specs.Frames as frames_spec;
ghost use Rattle.rtps_capture.specs.Held as held_spec;
ghost use Rattle.rtps_capture.specs.Left as left;
ghost use Rattle.rtps_capture.specs.Opening as opening;

use crate::capture::CaptureFault;
use crate::captures::Captures;
use crate::frames::{Frame, Frames};
use crate::held::Held;
use crate::opening::opening_needed;
use crate::read_fault::ReadFault;
use std::io::Read;

/// The most octets of an input that are counted.
const PLACE_MOST: u64 = 1 << 62;

/// A capture that is read by blocks, frame by frame.
#[derive(Drop)]
pub(crate) struct FrameReader {
    pub(crate) held: Held,
    pub(crate) frames: Frames,
    // How many octets of the capture are behind its last frame.
    pub(crate) place: u64,
    ghost within: { frames.at ≤ length held.octets },
}

/// Reads on until what is held decides whether a capture begins so, and which, or the input ends.
pub(crate) fn hold_opening<R: Read>(
    captures: Captures,
    held: &mut Held,
    input: &mut R,
) -> Result<(), ReadFault>
    ensures fills { OnOk result (held_spec.Fills (R.remaining input.old) (R.remaining input.new) held.old held.new) }
    ensures enough { OnOk result ((opening.opening_needed captures held.new.octets ≤ length held.new.octets) ⊎ (held.new.ended ≡ true)) }
    ensures open { IfErr result left.IsOpenFault }
{
    'opening: loop {
        let needed = opening_needed(captures, held.octets());
        if held.octets().len() >= needed || !held.fill(input, needed)? {
            return Ok(());
        }
    }
}

impl FrameReader {
    /// What is held of the capture: the last frame stands in it.
    pub(crate) fn octets(&self) -> &[u8]
        ensures { result.now ≡ self.now.held.octets }
    {
        self.held.octets()
    }

    pub(crate) fn captures(&self) -> Captures
        ensures { result ≡ self.now.frames.captures }
    {
        self.frames.captures()
    }

    /// What the next record or block gives. None after the last one. After an `Err`, and after a frame behind which nothing is read, nothing
    /// is promised of what is left.
    pub(crate) fn next_frame<R: Read>(&mut self, input: &mut R) -> Result<Option<Frame>, ReadFault>
        ensures gives { IfOk result (left.GivesNext (R.remaining input.old) (R.remaining input.new) self.old.held self.new.held self.old.frames self.new.frames) }
        ensures stands { IfOk result (λ given. IfSome given (frames_spec.StandsInFile (length self.new.held.octets))) }
        ensures place { IfOk result (λ given. IfSome given (λ _. (self.old.place < 2 ^ 62) × (self.old.place < self.new.place))) }
        ensures same { (self.new.frames.captures ≡ self.old.frames.captures) × (self.old.place ≤ self.new.place) }
        ensures end { IfOk result (λ given. given ≡ None → self.new.held.ended ≡ true) }
        ensures open { IfErr result left.IsOpenFault }
    {
        self.pass();
        self.hold_next(input)?;
        self.step()
    }

    /// Passes the last frame.
    fn pass(&mut self)
        ensures held { self.new.held ≡ record self.old.held { octets = drop self.old.frames.at self.old.held.octets } }
        ensures frames { self.new.frames ≡ record self.old.frames { at = 0 } }
        ensures same { self.new.place ≡ self.old.place }
    {
        let passed = self.frames.at();
        self.frames.rebase();
        self.held.pass(passed);
    }

    /// Reads on until what is held decides what comes next, or the input ends.
    fn hold_next<R: Read>(&mut self, input: &mut R) -> Result<(), ReadFault>
        ensures fills { OnOk result (held_spec.Fills (R.remaining input.old) (R.remaining input.new) self.old.held self.new.held) }
        ensures enough { OnOk result ((self.new.frames.at + left.needed (frames_spec.unread_of self.new.held.octets self.new.frames) ≤ length self.new.held.octets) ⊎ (self.new.held.ended ≡ true)) }
        ensures same { (self.new.frames ≡ self.old.frames) × (self.new.place ≡ self.old.place) }
        ensures open { IfErr result left.IsOpenFault }
    {
        'next: loop {
            let needed = self.frames.needed(self.held.octets());
            let wanted = needed.saturating_add(self.frames.at());
            if self.held.octets().len() >= wanted {
                return Ok(());
            }
            if !self.held.fill(input, wanted)? {
                return Ok(());
            }
        }
    }

    /// What the next record or block gives, by what is held.
    fn step(&mut self) -> Result<Option<Frame>, ReadFault>
        ensures none { IfOk result (λ given. given ≡ None → (length self.old.held.octets ≤ self.old.frames.at) × (self.new.frames ≡ self.old.frames)) }
        ensures some { IfOk result (λ given. IfSome given (λ frame. (self.old.frames.at < length self.old.held.octets)
            × frames_spec.TakesStep (frames_spec.step_of (frames_spec.unread_of self.old.held.octets self.old.frames)) frame (frames_spec.unread_of self.old.held.octets self.new.frames))) }
        ensures stands { IfOk result (λ given. IfSome given (frames_spec.StandsInFile (length self.new.held.octets))) }
        ensures place { IfOk result (λ given. IfSome given (λ _. (self.old.place < 2 ^ 62) × (self.old.place < self.new.place))) }
        ensures same { (self.new.held ≡ self.old.held) × (self.new.frames.captures ≡ self.old.frames.captures) × (self.old.place ≤ self.new.place) }
        ensures open { IfErr result left.IsOpenFault }
    {
        let octets = self.held.octets();
        let at = self.frames.at();
        if at >= octets.len() {
            return Ok(None);
        }
        if self.place >= PLACE_MOST {
            return Err(ReadFault::Capture(CaptureFault::Memory));
        }
        let frame = self.frames.step(octets)?;
        self.place += (self.frames.at() - at) as u64;
        Ok(Some(frame))
    }
}
