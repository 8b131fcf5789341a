//! Laws of the definitions, as contracts of functions that do nothing.

ghost use Rattle.std.specs.Prelude.{Option};
ghost use Rattle.rtps_report.specs.Recording as recording;
ghost use Rattle.rtps_tool.specs.Commands as commands;
ghost use Rattle.rtps_tool.specs.Laws as laws;
ghost use Rattle.rtps_tool.specs.Words as words;

use rtps_check::laws as check_laws;
use rtps_page::laws::one_page;
use rtps_text::laws::one_text;

/// Examples of command lines, and what `clap` finds wrong with each: with some nothing, so they are taken. Refused are one
/// without a subcommand, and some without the FILE, with a number that is none from 1 to 9223372036854775807, or with a FILE
/// or an option that the subcommand does not have; `--help` and `--version` are answered. Nothing is said of other lines.
pub fn words_are_wanted()
    ensures { words.WordsAreWanted }
{}

/// What a run prints, and how it ends, is decided by what it reads and by what it asks, such as the number from which on: two runs of one
/// command over the same octets, beside the same other recording, if there is one, that both end well end in the same way and write the
/// same text.
pub fn runs_agree()
    ensures { (command : commands.CommandValue) (other : Option recording.RecordingValue) → laws.RunsAgree (commands.IsTextOf command other) }
{
    one_text();
    check_laws::one_text();
    check_laws::one_json();
    one_page();
}

/// Limits decide whether a recording is taken, and nothing else, whatever captures are read: what is a recording within some limits is the same
/// recording within greater ones, and two runs of one command over the same octets that both end well, within whatever limits, end in the
/// same way and write the same text.
pub fn limits_change_nothing()
    ensures stays { laws.StaysWithin }
    ensures agree { (command : commands.CommandValue) (other : Option recording.RecordingValue) → laws.RunsAgreeWithin (commands.IsTextOf command other) }
{
    one_text();
    check_laws::one_text();
    check_laws::one_json();
    one_page();
}

/// Octets that begin as a capture, of those that are read, begin no text: as a text they would have a fault in one of their first
/// two lines. So which form an input has is never in doubt.
pub fn no_text_begins_as_a_capture()
    ensures { laws.NoTextBeginsAsACapture }
{}

/// An input that is a text stands for the same recording, whatever captures are read.
pub fn texts_stay_texts()
    ensures { laws.TextsStayTexts }
{}

/// The sum of a pass tells each word: where one word of what is summed is another, so is the sum.
pub fn each_word_is_told()
    ensures { laws.EachWordTells }
{}
