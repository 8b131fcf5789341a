ghost use Rattle.std.specs.Prelude.{◌≡◌};
ghost use Rattle.rtps_tool.specs.Passes as passes_spec;

use crate::form::capture_blocks::CaptureTerms;
use crate::form::whole::Whole;

/// A recording that was read once: how, what was found, and the sum over its datagrams.
#[derive(Clone, Copy)]
pub(crate) struct FirstPass {
    pub(crate) terms: CaptureTerms,
    pub(crate) whole: Whole,
    pub(crate) sum: u64,
}

impl FirstPass {
    /// Whether another pass found as many octets, and datagrams with the same sum.
    pub(crate) fn is_found_again(&self, found: Whole, sum: u64) -> bool
        ensures { result ≡ passes_spec.is_found_again self.now found sum }
    {
        found.octets() == self.whole.octets() && sum == self.sum
    }
}
