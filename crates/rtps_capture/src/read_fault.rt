use crate::capture::CaptureFault;
use rtps_ids::Memory;
use std::alloc::AllocError;

/// Why a capture is not read on that is read by blocks.
#[derive(Clone, Copy)]
pub enum ReadFault {
    /// A read of the input failed.
    Input,
    /// The first fault of the capture in its order, or want of memory.
    Capture(CaptureFault),
}

impl From<CaptureFault> for ReadFault {
    ghost use Rattle.std.specs.Prelude.{◌≡◌};
    ghost use Rattle.rtps_capture.specs.declared.read_fault.ReadFault.TheVariants.{Capture};

    ghost from_gives = { λ of fault. fault ≡ Capture of };

    fn from(fault: CaptureFault) -> ReadFault {
        ReadFault::Capture(fault)
    }
}

impl From<Memory> for ReadFault {
    ghost use Rattle.std.specs.Prelude.{◌≡◌};
    ghost use Rattle.rtps_capture.specs.declared.capture.CaptureFault.TheVariants.{Memory};
    ghost use Rattle.rtps_capture.specs.declared.read_fault.ReadFault.TheVariants.{Capture};

    ghost from_gives = { λ _ fault. fault ≡ Capture Memory };

    fn from(_memory: Memory) -> ReadFault {
        ReadFault::Capture(CaptureFault::Memory)
    }
}

impl From<AllocError> for ReadFault {
    ghost use Rattle.std.specs.Prelude.{◌≡◌};
    ghost use Rattle.rtps_capture.specs.declared.capture.CaptureFault.TheVariants.{Memory};
    ghost use Rattle.rtps_capture.specs.declared.read_fault.ReadFault.TheVariants.{Capture};

    ghost from_gives = { λ _ fault. fault ≡ Capture Memory };

    fn from(_error: AllocError) -> ReadFault {
        ReadFault::Capture(CaptureFault::Memory)
    }
}
