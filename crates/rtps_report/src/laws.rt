//! Laws of the definitions, each the contract of a function that does nothing.

ghost use Rattle.rtps_report.specs.Events as events;
ghost use Rattle.rtps_report.specs.Laws as laws;
ghost use Rattle.rtps_report.specs.NoPair as no_pair;
ghost use Rattle.rtps_report.specs.Patterns as patterns;

use rtps_audit::laws::first_datagrams_say_the_same;
use rtps_discovery::laws::{matches_and_pairs, one_map};
use rtps_evidence::laws::{pairs_have_one_explanation, unanswered_is_by_its_words};
use rtps_fragments::laws::{
    acts_are_heard_without_fragments, first_datagrams_decide, first_datagrams_tell_the_same,
    skipped_fragments_are_not_sent,
};

/// A topic fits a pattern exactly where it is the pattern with some octets in the place of each `*`.
pub fn fits_as_filled()
    ensures { patterns.FitsAsFilled }
{}

/// The verdict of each row is that by all runs, in which its reader takes fragments one by one where they are read. A row of an audit is
/// by the whole recording and the numbers that are asked about. A row of a report is in the span of its pair: it is by the datagrams
/// before the one in which its reader leaves and the numbers from the span's first one on: its verdict is as if nothing stood behind them.
pub fn rows_are_exact()
    ensures reported { laws.ReportedRowsAreExact }
    ensures audited { laws.AuditedRowsAreExact }
    ensures explained { laws.ExplainedRowsAreExact }
{
    first_datagrams_say_the_same();
    first_datagrams_decide();
    first_datagrams_tell_the_same();
    skipped_fragments_are_not_sent();
    acts_are_heard_without_fragments();
}

/// An unanswered number of a report is what its words say, with no walk: of the acts of a recording, or of its first datagrams, and where
/// fragments are read of the samples that they tell the reader.
pub fn reported_unanswered_is_by_its_words()
    ensures { laws.ReportedUnansweredIsByItsWords }
{
    unanswered_is_by_its_words();
}

/// What is told of a recording is decided by the recording and by what is asked.
pub fn one_full_report()
    ensures { laws.HasOneFullReport }
{
    pairs_have_one_explanation();
    one_map();
}

/// Why there is no pair to judge, where there is none, is decided by the recording, by what is asked, and by what is told of who does not talk.
pub fn one_no_pair()
    ensures { no_pair.HasOneNoPair }
{
    one_map();
}

/// Each match that discovery finds among topics that are asked for is exactly one of these: a row, two that do not match by all
/// policies and do not talk, two that are left out, or two of best effort that are counted.
pub fn each_match_is_told()
    ensures { laws.EachMatchIsTold }
{
    matches_and_pairs();
    one_map();
}

/// Each row that someone has to look at is of exactly one event, the events lost as many numbers as these rows, and none lost more than the one
/// before it.
pub fn events_are_whole()
    ensures { events.EventsAreWhole }
{}
