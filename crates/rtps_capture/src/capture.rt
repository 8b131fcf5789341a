use rtps_ids::Memory;

/// Why a capture is not read. Frames count from 1.
#[derive(Clone, Copy)]
pub enum CaptureFault {
    /// It is no capture that is read, or has a block that cannot be.
    BadCapture,
    /// A frame would have more octets than are captured of one: the file is damaged there, or is two files in one.
    Damaged { frame: u64 },
    /// A frame passes the end of its block. Of classic captures alone: the file ends within it.
    CutCapture { frame: u64 },
    /// It has more datagrams than are wanted.
    TooMany,
    Memory,
}

impl From<Memory> for CaptureFault {
    ghost use Rattle.std.specs.Prelude.{◌≡◌};
    ghost use Rattle.rtps_capture.specs.declared.capture.CaptureFault.TheVariants.{Memory};

    ghost from_gives = { λ _ fault. fault ≡ Memory };

    fn from(_memory: Memory) -> CaptureFault {
        CaptureFault::Memory
    }
}

/// How many frames there were so far, and of what kinds.
#[derive(Clone, Copy, Default)]
pub(crate) struct Counts {
    pub(crate) frames: u64,
    /// Frames with a fragment that is no repeat.
    pub(crate) fresh: u64,
    /// Those of them whose packet was whole. One packet has fewer than 2^64.
    pub(crate) settled: u128,
    pub(crate) cut: u64,
    pub(crate) other: u64,
    pub(crate) links: u64,
    pub(crate) first_link: Option<u32>,
}
