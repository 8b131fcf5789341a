//! A law of the definitions, as the contract of a function that does nothing.

ghost use Rattle.rtps_page.specs.Page as page;

use rtps_discovery::laws::one_map;
use rtps_report::laws::one_full_report;

/// What the page of a recording has beside its text is decided by the recording, by the other one beside it, if there is one, and by what
/// is asked.
pub fn one_page()
    ensures { page.HasOnePage }
{
    one_full_report();
    one_map();
}
