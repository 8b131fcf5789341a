//! Laws over definitions alone. Each function does nothing: its clause is the law, and its
//! proof the law's proof. The laws on deliveries hold whatever the number is from which on numbers are asked for.

ghost use Rattle.rtps_audit.specs.Laws as laws;
ghost use Rattle.rtps_audit.specs.Said as said;

use rtps_discovery::laws::one_map;

/// Whatever datagrams are sent and whatever words are taken, in any order: each word that the reader holds was
/// given by an act of a datagram that was sent, and each number that an answer in such a datagram claims is
/// held.
pub fn reached_states_are_sound()
    ensures { laws.ReachedStatesAreSound }
{}

/// A run exists exactly where each number that an answer claims has a word in an earlier datagram.
pub fn runs_exist_where_founded()
    ensures { laws.RunsExistWhereFounded }
{}

/// A run exists exactly where the run that takes all it can after each send is allowed, since the reader never
/// loses a word.
pub fn full_run_decides()
    ensures { laws.FullRunDecides }
{}

/// By whatever bound on the numbers that are told, the run that takes all it can is the same.
pub fn full_run_is_one()
    ensures { laws.FullRunIsOne }
{}

/// Where each claimed number has a word in an earlier datagram, no number has two different payloads and each
/// announced number is claimed, the verdict is complete up to the last announced number: a run exists, and every run of
/// the reader ends with each of them.
pub fn plain_means_complete()
    ensures { laws.PlainMeansComplete }
{}

/// The verdict by all runs is the one by conditions on the recording alone.
pub fn verdicts_agree()
    ensures { laws.VerdictsAgree }
{}

/// No recording has two verdicts, so that a verdict is given exactly where it is due.
pub fn has_no_two_verdicts()
    ensures { laws.HasNoTwoVerdicts }
{}

/// Each recording has a verdict, where the numbers that are told have a bound.
pub fn each_has_a_verdict()
    ensures { laws.EachHasAVerdict }
{}

/// The verdict does not depend on how the words of a datagram are shared out among its acts.
pub fn verdicts_follow_what_is_said()
    ensures { laws.VerdictsFollowWhatIsSaid }
{}

/// Each word that a recording of octets has for a number is for one below 2^63.
pub fn recordings_are_bounded()
    ensures { laws.RecordingsAreBounded }
{}

/// Each recording has a verdict on any two GUIDs.
pub fn each_recording_has_a_verdict()
    ensures { laws.EachRecordingHasAVerdict }
{}

/// In each recording, a run exists exactly where the run that takes all it can after each send is one.
pub fn full_run_decides_recordings()
    ensures { laws.FullRunDecidesRecordings }
{}

/// A word that the reader holds stays held, whatever is sent and taken after it.
pub fn held_stays_held()
    ensures { laws.HeldStaysHeld }
{}

/// Where the verdict is open, some run never has a word for its number, and every run ends with one for each smaller
/// number that is asked for.
pub fn open_is_first_missed()
    ensures { laws.OpenIsFirstMissed }
{}

/// Where the verdict is conflict, some run ends with two different payloads for its number, and none does for a
/// smaller one.
pub fn conflict_is_first()
    ensures { laws.ConflictIsFirst }
{}

/// The first datagrams of a recording say what they say in the whole of it. So a verdict by the datagrams before one is the
/// verdict on the recording that ends there.
pub fn first_datagrams_say_the_same()
    ensures acts { said.FirstDatagramsSayTheSame }
    ensures verdict { laws.FirstDatagramsDecide }
{}

/// A NACK_FRAG has no word for any number, claims none and announces none.
pub fn nack_frags_say_nothing()
    ensures { laws.NackFragsSayNothing }
{}

/// What an index takes in has one report, and so has a recording.
pub fn one_report()
    ensures { laws.HasOneReport }
{
    one_map();
}
