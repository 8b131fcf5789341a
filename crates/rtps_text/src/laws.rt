//! Laws of the definitions, each the contract of a function that does nothing.

ghost use Rattle.std.specs.Prelude.{Option};
ghost use Rattle.rtps_report.specs.Asked as asked;
ghost use Rattle.rtps_report.specs.Recording as recording;
ghost use Rattle.rtps_report.specs.declared.audited.AskedAudit.{AskedAudit};
ghost use Rattle.rtps_text.specs.ReportText as report_text;
ghost use Rattle.rtps_text.specs.WhyText as why_text;
ghost use Rattle.rtps_report.specs.Laws as laws;
ghost use Rattle.rtps_text.specs.ShowText as show_text;
ghost use Rattle.rtps_text.specs.ListText as list_text;
ghost use Rattle.rtps_fragments.specs.declared.fragments.Fragments.{Fragments};

use rtps_discovery::laws::one_map;
use rtps_evidence::laws::one_explanation;
use rtps_fragments::laws::{intake_stays_without_fragments, one_report_heard};
use rtps_report::laws::one_full_report;

/// What is printed of a recording, and how a run on it ends, is decided by its datagrams alone; by `audit`, as JSON too, also by how many
/// frames of a capture were ignored and for which reasons, by when its datagrams came, and by what is asked; by `why` also by the other
/// recording beside it, if there is one.
pub fn one_text()
    ensures shown { laws.HasOneText show_text.IsShown }
    ensures shown_with { (choice : Fragments) → laws.HasOneText (show_text.IsShownWith choice) }
    ensures listed { (choice : Fragments) → laws.HasOneText (list_text.IsListedWith choice) }
    ensures audited { (asked : AskedAudit) → laws.HasOneText (report_text.IsAuditedAs asked) }
    ensures json { (asked : AskedAudit) → laws.HasOneText (report_text.IsJsonTextAs asked) }
    ensures why { (asked : asked.AskedValue) (other : Option recording.RecordingValue) → laws.HasOneText (why_text.IsWhyAs asked other) }
{
    one_map();
    one_report_heard();
    one_explanation();
    one_full_report();
}

/// Where no submessage of a recording is a DATA_FRAG with fragments that can be used, `show` prints the same, whether
/// fragments are read or not.
pub fn show_is_the_same_without_fragments()
    ensures { show_text.ShowsTheSameWithoutFragments }
{}

/// Where no submessage of a recording belongs to fragments, `audit`, as JSON too, prints the same, and ends in the same way,
/// whether fragments are read or not.
pub fn texts_stay_without_fragments()
    ensures audited { laws.StaysWithoutFragments report_text.IsAuditedAs }
    ensures json { laws.StaysWithoutFragments report_text.IsJsonTextAs }
{
    intake_stays_without_fragments();
}
