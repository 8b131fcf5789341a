//! Laws over definitions alone. Each function does nothing: its clause is the law, and its proof the law's proof.

ghost use Rattle.rtps_fragments.specs.Laws as laws;
ghost use Rattle.rtps_fragments.specs.SampleReport as sample_report;

use rtps_audit::laws::{
    has_no_two_verdicts, runs_exist_where_founded, verdicts_agree, verdicts_follow_what_is_said,
};
use rtps_discovery::laws::one_map;

/// Where a recording with fragments and one without tell alike, and claim and announce the same, the verdict by all runs in which
/// the reader takes fragments one by one is the verdict of the recording without fragments.
pub fn fragments_tell_alike()
    ensures { laws.FragmentsTellAlike }
{
    verdicts_agree();
    runs_exist_where_founded();
}

/// A recording with fragments and the one into which its samples are told tell alike: of each sample the first payload that can be
/// put together, and a second one where some fragment came with different octets.
pub fn samples_tell_alike()
    ensures { laws.SamplesTellAlike }
{}

/// The verdict by all runs in which the reader takes fragments one by one is the verdict of the recording into which the samples are
/// told, with its numbers, from any number on.
pub fn fragment_verdict_is_told()
    ensures { laws.FragmentVerdictIsTold }
{
    fragments_tell_alike();
    samples_tell_alike();
}

/// Of any writer and reader, a recording with pieces and what the reader hears of its acts, with the samples that they tell it, tell alike,
/// whoever hears which pieces of a sample.
pub fn acts_tell_alike()
    ensures { laws.ActsTellAlike }
{}

/// Of any writer and reader, the verdict by all runs in which the reader takes fragments one by one is the verdict of what the reader hears
/// of the acts of the recording, with its numbers, from any number on.
pub fn fragment_verdict_of_acts()
    ensures { laws.FragmentVerdictOfActs }
{
    fragments_tell_alike();
    acts_tell_alike();
}

/// The first datagrams of a recording with pieces, and the same ones of what a reader hears of its acts, tell alike: what is sent later changes
/// nothing for a reader.
pub fn first_datagrams_tell_alike()
    ensures { laws.FirstDatagramsTellAlike }
{}

/// The verdict by what a reader hears of the first datagrams of a recording is that by all runs, in which the reader takes fragments one by one,
/// on the recording that ends there.
pub fn first_datagrams_decide()
    ensures { laws.FirstDatagramsDecideSamples }
{
    fragments_tell_alike();
    acts_tell_alike();
}

/// What a reader hears of the first datagrams of a recording is what they tell it alone, each act with the samples that it tells by what was
/// sent before it.
pub fn first_datagrams_tell_the_same()
    ensures { laws.FirstDatagramsTellTheSame }
{}

/// What a reader hears of the first datagrams is the beginning of what it hears of all. What is sent later adds nothing to them.
pub fn first_datagrams_are_heard_first()
    ensures { laws.FirstDatagramsAreHeardFirst }
{}

/// An act has its fragments itself: what a reader hears of the acts of a recording as they are sent is what the recording tells it.
pub fn sent_acts_are_heard()
    ensures { laws.SentActsAreHeard }
{}

/// Where no act sends fragments, each reader hears the acts as they are.
pub fn acts_are_heard_without_fragments()
    ensures { laws.ActsAreHeardWithoutFragments }
{}

/// Where no act of a writer sends fragments, the verdict on what a reader hears of it is the one on the acts as they are sent.
pub fn verdicts_stay_without_fragments()
    ensures { laws.VerdictsStayWithoutFragments }
{
    verdicts_follow_what_is_said();
}

/// Acts without fragments are overheard as they are.
pub fn acts_are_overheard_without_fragments()
    ensures { laws.OverheardWithoutFragments }
{}

/// Where neither what a writer said nor what a reader asked sends fragments, that is what the reader hears.
pub fn pairs_are_heard_without_fragments()
    ensures { laws.PairsAreHeardWithoutFragments }
{}

/// What is taken in has one report by what each reader hears: rows of the same pairs are the same.
pub fn one_report_heard()
    ensures rows { sample_report.RowsHeardAreOne }
    ensures report { sample_report.HasOneReportHeard }
{
    one_map();
    has_no_two_verdicts();
}

/// Where the fragments of a recording are skipped, no act of it sends some.
pub fn skipped_fragments_are_not_sent()
    ensures { laws.SkippedFragmentsAreNotSent }
{}

/// Where no act has a piece, no sample is told: each reader hears the acts as they are.
pub fn acts_stay_without_pieces()
    ensures { laws.ActsStayWithoutPieces }
{}

/// Where no act has a piece, the verdict by all runs in which the reader takes fragments is that of the acts as they are.
pub fn verdict_stays_without_pieces()
    ensures { laws.VerdictStaysWithoutPieces }
{
    fragment_verdict_of_acts();
    acts_stay_without_pieces();
}

/// A piece counts as left exactly where of all fragments that its writer sends, whoever hears them, no payload of its number can be put
/// together.
pub fn pieces_left_are_of_no_sample()
    ensures { laws.PiecesLeftAreOfNoSample }
{}

/// What a directory is to note as a sample of a writer can be put together of all fragments that the writer sends, whoever hears them.
/// What can be put together of them is noted, or two payloads are that differ.
pub fn noted_samples_are_sent()
    ensures { laws.NotedSamplesAreSent }
{}

/// Of a built-in writer, the acts of which a directory notes what they announce have the DATA of the recording and of each payload that is
/// to be noted as a sample, and no others.
pub fn built_in_samples_announce()
    ensures { laws.BuiltInSamplesAnnounce }
{}

/// Each writer of which a directory notes what it announces is a built-in one.
pub fn announcers_are_built_in()
    ensures { laws.AnnouncersAreBuiltIn }
{}

/// Fewer fragments than a sample has make no payload of it, so that nothing is put together before as many came.
pub fn few_fragments_make_no_sample()
    ensures { laws.FewFragmentsMakeNoSample }
{}

/// An act tells a reader nothing that it does not hear.
pub fn unheard_acts_tell_nothing()
    ensures { laws.UnheardActsTellNothing }
{}

/// What an act tells a reader of a sample depends on the acts with its pieces alone: those of its writer, its number and its shape.
pub fn samples_stand_alone()
    ensures { laws.SamplesStandAlone }
{}

/// Of any writer and reader of a recording, whatever its octets are, the verdict by all runs in which the reader takes fragments one by one is
/// that of what the reader hears of the acts as they are sent, with its numbers, from any number on.
pub fn recorded_verdict_is_of_runs()
    ensures { laws.RecordedVerdictIsOfRuns }
{
    fragment_verdict_of_acts();
    sent_acts_are_heard();
}

/// Where no submessage of a recording belongs to fragments, an index with fragments takes in what a plain one does.
pub fn intake_stays_without_fragments()
    ensures { laws.IntakeStaysWithoutFragments }
{}

/// Where no submessage of a recording belongs to fragments, its acts are the same, whether fragments are read or not.
pub fn acts_stay_without_fragments()
    ensures { laws.ActsStayWithoutFragments }
{}

/// As fragments of a recording with its samples those DATA_FRAG are counted that have no fragments that can be used, and those of a number
/// of which no sample is whole: of which no payload can be put together of all fragments that the writer sends.
pub fn fragments_are_counted()
    ensures { laws.FragmentsAreCounted }
{}

/// Of a datagram, no more fragments are counted with samples than without.
pub fn no_more_fragments_are_counted()
    ensures { laws.NoMoreFragmentsAreCounted }
{}

/// Only what is skipped as a DATA_FRAG has fragments.
pub fn only_data_frags_have_fragments()
    ensures { laws.OnlyDataFragsHaveFragments }
{}
