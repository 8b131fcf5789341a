use rtps_ids::Memory;
use rtps_tool::{RecFault, RunFault};
use std::alloc::{AllocError, AllocFailed};
use std::{fmt, io};

/// Why the program ends before its last line.
#[derive(Clone, Copy, Debug)]
pub(crate) enum Fault {
    /// Memory is refused.
    Memory,
    /// Standard input or output fails.
    Stream,
    /// The input is no recording.
    Recording,
    /// This is not as it should be.
    Differs(&'static str),
}

impl Fault {
    /// The status to end with.
    pub(crate) fn status(&self) -> u8 {
        match self {
            Fault::Differs(_) => 1,
            Fault::Recording => 2,
            Fault::Memory | Fault::Stream => 3,
        }
    }
}

impl fmt::Display for Fault {
    fn fmt<W: fmt::Write>(&self, f: &mut fmt::Formatter<W>) -> fmt::Result {
        f.write_str(match self {
            Fault::Memory => "out of memory",
            Fault::Stream => "cannot read or write",
            Fault::Recording => "this is no recording",
            Fault::Differs(what) => what,
        })
    }
}

impl From<AllocError> for Fault {
    fn from(_error: AllocError) -> Fault {
        Fault::Memory
    }
}

impl<T: Drop> From<AllocFailed<T>> for Fault {
    fn from(_failed: AllocFailed<T>) -> Fault {
        Fault::Memory
    }
}

impl From<Memory> for Fault {
    fn from(_error: Memory) -> Fault {
        Fault::Memory
    }
}

/// Writing a text to memory fails only if there is no memory.
impl From<fmt::Error> for Fault {
    fn from(_error: fmt::Error) -> Fault {
        Fault::Memory
    }
}

impl From<io::Error> for Fault {
    fn from(error: io::Error) -> Fault {
        match error.kind() {
            io::ErrorKind::OutOfMemory => Fault::Memory,
            _ => Fault::Stream,
        }
    }
}

impl From<RecFault> for Fault {
    fn from(fault: RecFault) -> Fault {
        match fault {
            RecFault::Memory => Fault::Memory,
            _ => Fault::Recording,
        }
    }
}

impl From<RunFault> for Fault {
    fn from(fault: RunFault) -> Fault {
        match fault {
            RunFault::Recording(fault) => Fault::from(fault),
            RunFault::Memory => Fault::Memory,
            RunFault::Input | RunFault::Output { .. } | RunFault::Changed => Fault::Stream,
        }
    }
}
