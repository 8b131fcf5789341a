use rtps_ids::Memory;
use std::alloc::{AllocError, AllocFailed};
use std::{fmt, io};

/// Why the program ends before its last line.
#[derive(Debug, Drop)]
pub(crate) enum Fault {
    /// Memory is refused, and not to the call that is tried.
    Memory,
    /// Standard input or output fails.
    Stream,
    /// The arguments, or those of a case, are not known; or the input is no such recording.
    Words,
    /// A call of a case returns something else: the case, and what was returned.
    Case(String),
    /// This is not as it should be.
    Differs(&'static str),
}

impl Fault {
    /// The status to end with.
    pub(crate) fn status(&self) -> u8 {
        match self {
            Fault::Case(_) | Fault::Differs(_) => 1,
            Fault::Words => 2,
            Fault::Memory | Fault::Stream => 3,
        }
    }
}

impl fmt::Display for Fault {
    fn fmt<W: fmt::Write>(&self, f: &mut fmt::Formatter<W>) -> fmt::Result {
        f.write_str(match self {
            Fault::Memory => "out of memory",
            Fault::Stream => "cannot read or write",
            Fault::Words => "these words are not known, or this is no such recording",
            Fault::Case(text) => text.as_str(),
            Fault::Differs(what) => what,
        })
    }
}

impl From<AllocError> for Fault {
    fn from(_error: AllocError) -> Fault {
        Fault::Memory
    }
}

impl<T: Drop> From<AllocFailed<T>> for Fault {
    fn from(_failed: AllocFailed<T>) -> Fault {
        Fault::Memory
    }
}

impl From<Memory> for Fault {
    fn from(_error: Memory) -> Fault {
        Fault::Memory
    }
}

/// Writing a text to memory fails only if there is no memory.
impl From<fmt::Error> for Fault {
    fn from(_error: fmt::Error) -> Fault {
        Fault::Memory
    }
}

impl From<io::Error> for Fault {
    fn from(error: io::Error) -> Fault {
        match error.kind() {
            io::ErrorKind::OutOfMemory => Fault::Memory,
            _ => Fault::Stream,
        }
    }
}
