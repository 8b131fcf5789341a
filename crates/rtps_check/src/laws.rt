//! Laws of the definitions, each the contract of a function that does nothing.

ghost use Rattle.std.specs.Prelude.{Option};
ghost use Rattle.rtps_report.specs.Asked as asked;
ghost use Rattle.rtps_report.specs.Laws as laws;
ghost use Rattle.rtps_report.specs.Recording as recording;
ghost use Rattle.rtps_check.specs.CheckText as check_text;

use rtps_report::laws::{one_full_report, one_no_pair};

/// `check`, as JSON too, ends clean exactly where it gives no reason.
pub fn unclean_has_a_reason()
    ensures { check_text.TellsWhyUnclean }
{}

/// What `check` prints of a recording, and how its run ends, is decided by the recording, by the other one beside it, if there is one, and
/// by what is asked.
pub fn one_text()
    ensures { (asked : asked.AskedValue) (other : Option recording.RecordingValue) → laws.HasOneText (check_text.IsCheckedTextAs asked other) }
{
    one_full_report();
    one_no_pair();
}

/// What `check --json` prints of a recording, and how its run ends, is decided by the recording, by the other one beside it, if there is
/// one, and by what is asked.
pub fn one_json()
    ensures { (asked : asked.AskedValue) (other : Option recording.RecordingValue) → laws.HasOneText (check_text.IsCheckedJsonAs asked other) }
{
    one_full_report();
}
