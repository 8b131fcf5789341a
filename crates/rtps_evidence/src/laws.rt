//! Laws over definitions alone, the certificates each from what can be seen at a few places of a recording. Each function
//! does nothing: its clause is the law, and its proof the law's proof.

ghost use Rattle.rtps_evidence.specs.Certificates as certificates;
ghost use Rattle.rtps_evidence.specs.Clean as clean;
ghost use Rattle.rtps_evidence.specs.Evidence as evidence;
ghost use Rattle.rtps_evidence.specs.Explanation as explanation;
ghost use Rattle.rtps_evidence.specs.FirstNumbers as first_numbers;
ghost use Rattle.rtps_evidence.specs.Outcomes as outcomes;
ghost use Rattle.rtps_evidence.specs.Received as received;
ghost use Rattle.rtps_evidence.specs.UnansweredLaw as unanswered_law;

use rtps_audit::laws::{first_datagrams_say_the_same, has_no_two_verdicts};
use rtps_discovery::laws::one_map;
use rtps_fragments::laws::one_report_heard;

/// Where a claim of a number that is asked for stands at its place, and no act of an earlier datagram has a word for that
/// number, there is no run.
pub fn unfounded_is_shown()
    ensures { certificates.UnfoundedIsShown }
{}

/// Where a number that is asked for is announced, it or a greater one, and no answer's base is above it, some run ends without
/// a word for it, if there is a run.
pub fn open_is_shown()
    ensures { certificates.OpenIsShown }
{}

/// Where two places give two payloads for a number that is asked for, some run ends with both, if there is a run.
pub fn conflict_is_shown()
    ensures { certificates.ConflictIsShown }
{}

/// Where each number that is asked for, up to the last announced one, is claimed by an answer, and none has two payloads,
/// every run ends with a word for each of them, and with one payload at most.
pub fn complete_is_shown()
    ensures { certificates.CompleteIsShown }
{}

/// Received is exact: where there is a run, every run ends with a payload for each number that is received, and for each
/// other number that is asked for some run ends without one.
pub fn received_is_exact()
    ensures { received.ReceivedIsExact }
{}

/// How many numbers have each outcome adds up to how many are asked about.
pub fn outcomes_add_up()
    ensures { outcomes.OutcomesAddUp }
{}

/// Another recording changes nothing of a number that is not there, or that is received: any other one that is there arrived. Where
/// no number is there, none arrived.
pub fn arrived_is_all_that_changes()
    ensures { outcomes.ArrivedIsAllThatChanges }
{}

/// Another recording changes nothing of a pair that is not held against it: nothing arrived, nothing is absent, and no number is
/// named that lacks.
pub fn not_held_is_alone()
    ensures { evidence.NotHeldIsAlone }
{}

/// First numbers have exactly the numbers that are kept.
pub fn kept_numbers_are_there()
    ensures { first_numbers.KeptNumbersAreThere }
{}

/// Where no payload of a number is told to the reader, no run ends with one.
pub fn unsent_is_not_held()
    ensures { outcomes.UnsentIsNotHeld }
{}

/// A number is unanswered exactly where some act that the reader hears tells it gone, before the first such act stand two or more HEARTBEATs
/// that ask about it, and no answer stands between the first of these and that act. The acts are in the order of their places, as those of
/// each recording are.
pub fn unanswered_is_by_its_words()
    ensures words { unanswered_law.UnansweredIsByItsWords }
    ensures order { unanswered_law.RecordingsAreInOrder }
{
    first_datagrams_say_the_same();
}

/// An open row lacks a tail by its counts exactly where each number below the greatest base of the reader's answers is received or likely, and
/// each other one unconfirmed. These are then all that are unconfirmed. Of a pair that is held against another recording, each number below is
/// received or arrived, and each other one arrived or unconfirmed; nothing is lacking by its counts exactly where each is received or arrived.
pub fn counts_say_tail()
    ensures { clean.CountsSayTail }
{}

/// Where rows are in no span, they are those of the report by what each reader hears, and so are the counts.
pub fn rows_are_reported()
    ensures { explanation.RowsAreReported }
{
    one_map();
    one_report_heard();
}

/// What an index takes in is explained in one way, and so is a recording.
pub fn one_explanation()
    ensures { explanation.HasOneExplanation }
{
    one_map();
    has_no_two_verdicts();
}

/// Any pairs of what an index takes in are explained in one way.
pub fn pairs_have_one_explanation()
    ensures { explanation.PairsHaveOneExplanation }
{
    one_map();
    has_no_two_verdicts();
}
