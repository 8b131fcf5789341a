ghost use Rattle.std.specs.Prelude.{◌≡◌, true, Some};
ghost use Rattle.std.specs.Io.KnownBytes.{Appends};
ghost use Rattle.rtps_tool.specs.FaultText as fault_text;
ghost use Rattle.rtps_tool.specs.Statuses as statuses;

use rtps_capture::{CaptureFault, ReadFault};
use rtps_ids::Memory;
use rtps_parts::NameOctets;
use rtps_report::Ending;
use std::alloc::{AllocError, AllocFailed};
use std::fmt;
use std::io::Write;
use thiserror::Error;

/// Why an input is no recording. Lines are counted from 1, skipped ones too.
#[derive(Clone, Copy, Debug, PartialEq, Eq, Error)]
pub enum RecFault {
    /// A datagram line has an odd number of digits, or an octet that is no hexadecimal digit.
    BadHex { line: u64 },
    /// A datagram line has more than 131,070 digits.
    TooLong { line: u64 },
    /// There are more datagrams, or more octets of the input, than the limits allow ([`crate::Limits`]).
    /// Its one text, `too many datagrams`, stands for both.
    TooMany,
    /// There was no memory for the recording, or no span for a datagram ([`rtps_report::DatagramSpan`]): one that begins at 2^48
    /// octets or behind has none.
    Memory,
    /// A capture's header is cut, its major version is not 2, or its link type is neither Ethernet nor raw IP. Where any
    /// capture is read, its link type is none that is read, or a pcapng file has a block that cannot be.
    BadCapture,
    /// A capture ends within a frame. Frames are counted from 1, ignored ones too. Where any capture is read, a frame passes the
    /// end of its block.
    CutCapture { frame: u64 },
    /// Of any capture alone: a bad capture, where this frame would have more octets than tools capture of one. The file is damaged
    /// there, or is two captures in one.
    Damaged { frame: u64 },
}

impl RecFault {
    /// Its number, from 1 on.
    pub fn number(self) -> u8
        ensures { result ≡ fault_text.rec_fault_number self }
    {
        match self {
            RecFault::BadHex { line: _ } => 1,
            RecFault::TooLong { line: _ } => 2,
            RecFault::TooMany => 3,
            RecFault::Memory => 4,
            RecFault::BadCapture | RecFault::Damaged { frame: _ } => 5,
            RecFault::CutCapture { frame: _ } => 6,
        }
    }
}

/// The text of [`RecFault::TooMany`] is `too many datagrams` for too many octets too.
impl fmt::Display for RecFault {
    ghost output = { λ fault. Some (fault_text.rec_fault_text fault) };

    #[tactic(auto, unfolding(crate::specs::FaultText::rec_fault_text))]
    fn fmt<W: fmt::Write>(&self, f: &mut fmt::Formatter<W>) -> fmt::Result {
        match self {
            RecFault::BadHex { line } => write!(f, "line {line}: bad hex"),
            RecFault::TooLong { line } => write!(f, "line {line}: too long"),
            RecFault::TooMany => write!(f, "too many datagrams"),
            RecFault::Memory => write!(f, "out of memory"),
            RecFault::BadCapture | RecFault::Damaged { frame: _ } => write!(f, "bad capture"),
            RecFault::CutCapture { frame } => write!(f, "frame {frame}: cut"),
        }
    }
}

impl From<CaptureFault> for RecFault {
    ghost use Rattle.rtps_tool.specs.RecordingCapture as recording_capture;

    ghost from_gives = { λ capture_fault fault. fault ≡ recording_capture.rec_fault_of capture_fault };

    fn from(fault: CaptureFault) -> RecFault {
        match fault {
            CaptureFault::BadCapture => RecFault::BadCapture,
            CaptureFault::Damaged { frame } => RecFault::Damaged { frame },
            CaptureFault::CutCapture { frame } => RecFault::CutCapture { frame },
            CaptureFault::TooMany => RecFault::TooMany,
            CaptureFault::Memory => RecFault::Memory,
        }
    }
}

impl From<AllocError> for RecFault {
    ghost use Rattle.rtps_tool.specs.declared.faults.RecFault.TheVariants.{Memory};

    ghost from_gives = { λ _ fault. fault ≡ Memory };

    fn from(_error: AllocError) -> RecFault {
        RecFault::Memory
    }
}

impl From<Memory> for RecFault {
    ghost use Rattle.rtps_tool.specs.declared.faults.RecFault.TheVariants.{Memory};

    ghost from_gives = { λ _ fault. fault ≡ Memory };

    fn from(_error: Memory) -> RecFault {
        RecFault::Memory
    }
}

impl<T: Drop> From<AllocFailed<T>> for RecFault {
    ghost use Rattle.rtps_tool.specs.declared.faults.RecFault.TheVariants.{Memory};

    ghost from_gives = { λ _ fault. fault ≡ Memory };

    fn from(_error: AllocFailed<T>) -> RecFault {
        RecFault::Memory
    }
}

/// Why a run did not write its whole text. Nothing of it was written, but for `Output`.
#[derive(Clone, Copy, Debug, PartialEq, Eq, Error)]
pub enum RunFault {
    /// What was read is no recording. Want of memory is [`RunFault::Memory`] in every answer.
    Recording(RecFault),
    /// A read failed.
    Input,
    /// A write failed or took no octet: the first `written` octets of the text were written before.
    Output { written: u64 },
    /// There was no memory for the input, the recording or the text, or no span for a datagram ([`RecFault::Memory`]).
    Memory,
    /// A source that is read more than once has changed meanwhile ([`crate::run_passes`]).
    Changed,
}

impl RunFault {
    /// Its number, from 1 on.
    pub fn number(self) -> u8
        ensures { result ≡ fault_text.run_fault_number self }
    {
        match self {
            RunFault::Recording(_) => 1,
            RunFault::Input => 2,
            RunFault::Output { written: _ } => 3,
            RunFault::Memory => 4,
            RunFault::Changed => 5,
        }
    }
}

impl fmt::Display for RunFault {
    ghost output = { λ fault. Some (fault_text.run_fault_text fault) };

    #[tactic(auto, unfolding(crate::specs::FaultText::run_fault_text))]
    fn fmt<W: fmt::Write>(&self, f: &mut fmt::Formatter<W>) -> fmt::Result {
        match self {
            RunFault::Recording(fault) => write!(f, "{fault}"),
            RunFault::Input => write!(f, "cannot read input"),
            RunFault::Output { written: _ } => write!(f, "cannot write output"),
            RunFault::Memory => write!(f, "out of memory"),
            RunFault::Changed => write!(f, "the file changed while it was read"),
        }
    }
}

impl From<RecFault> for RunFault {
    ghost use Rattle.rtps_tool.specs.RunFaults as run_faults;

    ghost from_gives = { λ fault run_fault. run_fault ≡ run_faults.run_fault_of fault };

    fn from(fault: RecFault) -> RunFault {
        match fault {
            RecFault::Memory => RunFault::Memory,
            _ => RunFault::Recording(fault),
        }
    }
}

impl From<ReadFault> for RunFault {
    ghost use Rattle.rtps_tool.specs.RunFaults as run_faults;

    ghost from_gives = { λ fault run_fault. run_fault ≡ run_faults.run_fault_in fault };

    fn from(fault: ReadFault) -> RunFault {
        match fault {
            ReadFault::Input => RunFault::Input,
            ReadFault::Capture(fault) => RunFault::from(RecFault::from(fault)),
        }
    }
}

impl From<AllocError> for RunFault {
    ghost use Rattle.rtps_tool.specs.declared.faults.RunFault.TheVariants.{Memory};

    ghost from_gives = { λ _ fault. fault ≡ Memory };

    fn from(_error: AllocError) -> RunFault {
        RunFault::Memory
    }
}

impl From<Memory> for RunFault {
    ghost use Rattle.rtps_tool.specs.declared.faults.RunFault.TheVariants.{Memory};

    ghost from_gives = { λ _ fault. fault ≡ Memory };

    fn from(_error: Memory) -> RunFault {
        RunFault::Memory
    }
}

/// Why a run that may have another recording beside FILE did not write its whole text.
#[derive(Clone, Copy)]
pub enum BesideFault {
    /// The run failed as a run of FILE alone may fail. Nothing is wrong with the other recording.
    Run(RunFault),
    /// The other recording was not read, as a run that reads it does not: never [`RunFault::Output`]. Nothing was written. Nothing is
    /// wrong with FILE.
    Other(RunFault),
}

impl From<RunFault> for BesideFault {
    ghost use Rattle.rtps_tool.specs.declared.faults.BesideFault.TheVariants.{Run};

    ghost from_gives = { λ run_fault fault. fault ≡ Run run_fault };

    fn from(fault: RunFault) -> BesideFault {
        BesideFault::Run(fault)
    }
}

impl From<Memory> for BesideFault {
    ghost use Rattle.rtps_tool.specs.declared.faults.BesideFault.TheVariants.{Run};
    ghost use Rattle.rtps_tool.specs.declared.faults.RunFault.TheVariants.{Memory};

    ghost from_gives = { λ _ fault. fault ≡ Run Memory };

    fn from(_error: Memory) -> BesideFault {
        BesideFault::Run(RunFault::Memory)
    }
}

/// The status of a fault: 2 where the recording is refused, 3 where a read, a write or a request for memory failed, or a file changed.
fn fault_status(fault: &RunFault) -> u8
    ensures { result ≡ statuses.fault_status_of fault.now }
{
    match fault {
        RunFault::Recording(RecFault::Memory) => 3,
        RunFault::Recording(_) => 2,
        RunFault::Input | RunFault::Output { .. } | RunFault::Memory | RunFault::Changed => 3,
    }
}

/// The status that the program ends with after a run: 0 where it is clean, 1 where it is not, 2 where a recording
/// is refused, 3 where a read, a write or a request for memory failed, or a file changed.
pub fn status(outcome: &Result<Ending, BesideFault>) -> u8
    ensures { result ≡ statuses.status_of outcome.now }
{
    match outcome {
        Ok(Ending::Clean) => 0,
        Ok(Ending::Unclean | Ending::Unmet(_)) => 1,
        Err(BesideFault::Run(fault) | BesideFault::Other(fault)) => fault_status(fault),
    }
}

/// Writes the line that tells of a fault: `rtps-audit: `, the fault's text and LF. Where it answers true, the line was written.
/// Where it answers false, nothing is promised: a writer may fail at any call, and what was written then is open.
pub fn write_fault<W: Write>(fault: &RunFault, output: &mut W) -> bool
    ensures { result ≡ true → Appends (W.contents output.old) (W.contents output.new) (fault_text.fault_line fault.now) }
{
    writeln!(output, "rtps-audit: {fault}").is_ok()
}

/// Writes the line that tells of a fault of the other recording: `rtps-audit: `, its name as `list` writes one between quotes, a colon
/// and a space, the fault's text and LF.
/// Where it answers true, the line was written. Where it answers false, nothing is promised, as of [`write_fault`].
pub fn write_other_fault<W: Write>(name: &str, fault: &RunFault, output: &mut W) -> bool
    ensures { result ≡ true → Appends (W.contents output.old) (W.contents output.new) (fault_text.other_fault_line name.now fault.now) }
{
    let name = NameOctets(name.as_bytes());
    writeln!(output, "rtps-audit: {name}: {fault}").is_ok()
}
