ghost use Rattle.std.specs.Prelude.{◌≡◌};
ghost use Rattle.rtps_tool.specs.Passes as passes_spec;

use crate::form::whole_capture::WholeCapture;

/// A recording whose datagrams were all read.
#[derive(Clone, Copy)]
pub(crate) enum Whole {
    Capture(WholeCapture),
    /// A text, by how many octets it has.
    Text(u64),
}

impl Whole {
    /// How many octets it has.
    pub(crate) fn octets(&self) -> u64
        ensures { result ≡ passes_spec.size_of self.now }
    {
        match self {
            Whole::Capture(whole) => whole.octets,
            Whole::Text(octets) => *octets,
        }
    }

    /// How many frames gave no datagram. None where it is a text.
    pub(crate) fn ignored(&self) -> Option<u64>
        ensures { result ≡ passes_spec.ignored_in self.now }
    {
        match self {
            Whole::Capture(whole) => Some(whole.ignored()),
            Whole::Text(_) => None,
        }
    }
}
