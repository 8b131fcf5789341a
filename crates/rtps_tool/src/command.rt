mod chosen;
pub(crate) mod options;
pub(crate) mod subcommands;

ghost use Rattle.std.specs.Prelude.{◌≡◌, ◌≢◌, ◌⊎◌, ◌↔◌, true, IfOk, IfErr, IsTrue, OnOk, [], map};
ghost use Rattle.clap.specs.Words.{fault_of, subcommand_of, takes};
ghost use Rattle.rtps_tool.specs.Words as words_spec;

use crate::command::chosen::choice_of;
use crate::command::subcommands::program;
use crate::demands::Demands;
use crate::runs::{Form, Limits};
use clap::Command;
use clap::error::ErrorKind;
use rtps_capture::Captures;
use rtps_report::{AskedAudit, Fragments};
use std::alloc::{AllocError, Global};
use std::fmt;
use thiserror::Error;

/// How an audit is printed.
#[derive(Clone, Copy)]
pub enum AuditForm {
    /// As lines of text.
    Lines,
    /// As one JSON object, with what each verdict rests on.
    Json,
}

/// What the words ask for. A FILE of `-` is standard input; the limits are those of its recording, and the captures those that
/// are read.
#[derive(Drop)]
pub enum Choice {
    /// Tell a report in a form. Any capture is read. What arrived is what the recording `arrived` has, which was made at the host of
    /// readers, if there is one.
    Report {
        file: String,
        arrived: Option<String>,
        limits: Limits,
        form: Form,
        demands: Demands,
    },
    /// Show each datagram and its submessages.
    Show {
        file: String,
        limits: Limits,
        captures: Captures,
        fragments: Fragments,
    },
    /// List participants, endpoints and the pairs that match.
    List {
        file: String,
        limits: Limits,
        captures: Captures,
        fragments: Fragments,
    },
    /// Judge for each reliable writer and reader that match whether the reader got all data.
    Audit {
        file: String,
        limits: Limits,
        captures: Captures,
        form: AuditForm,
        asked: AskedAudit,
    },
    /// Write a recording to try.
    Sample,
}

/// Why the words ask for nothing that can be run.
#[derive(Debug, Drop, Error)]
pub enum WordFault {
    /// They are refused, with a text for standard error.
    Refused(clap::Error),
    /// They ask for help, with a text for standard output.
    Help(clap::Error),
    /// They ask for the version, with a text for standard output.
    Version(clap::Error),
    /// FILE and the other recording are both standard input, which can be read once.
    BothInput,
    /// There was no memory to read them.
    Memory,
}

/// The text of an error of `clap` is its own, of which no clause of `clap` says what it is; those of [`WordFault::BothInput`] and of
/// [`WordFault::Memory`] are given here.
impl fmt::Display for WordFault {
    ghost use Rattle.rtps_tool.specs.FaultText as fault_text;

    ghost output = { fault_text.word_fault_text };

    fn fmt<W: fmt::Write>(&self, f: &mut fmt::Formatter<W>) -> fmt::Result {
        match self {
            WordFault::Refused(error) | WordFault::Help(error) | WordFault::Version(error) => {
                write!(f, "{error}")
            }
            WordFault::BothInput => f.write_str(BOTH_INPUT),
            WordFault::Memory => write!(f, "out of memory"),
        }
    }
}

impl From<AllocError> for WordFault {
    ghost use Rattle.rtps_tool.specs.declared.command.WordFault.TheVariants.{Memory};

    ghost from_gives = { λ _ fault. fault ≡ Memory };

    fn from(_error: AllocError) -> WordFault {
        WordFault::Memory
    }
}

impl From<clap::Error> for WordFault {
    ghost from_gives = { λ error fault. fault ≡ words_spec.word_fault_of error };

    fn from(error: clap::Error) -> WordFault {
        match error.kind() {
            ErrorKind::OutOfMemory => WordFault::Memory,
            ErrorKind::DisplayHelp => WordFault::Help(error),
            ErrorKind::DisplayVersion => WordFault::Version(error),
            _ => WordFault::Refused(error),
        }
    }
}

/// The greatest number that an option takes, which is the greatest sequence number.
pub(crate) const GREATEST: u64 = 9_223_372_036_854_775_807;

/// The version of the program.
pub(crate) const VERSION: &str = "0.2.0";

/// What is told where both recordings are standard input. Its form is that of what `clap` tells.
const BOTH_INPUT: &str =
    "error: the argument '--arrived <OTHER>' cannot be standard input: FILE is\n\n\
    For more information, try '--help'.";

/// Reads the words of the command line, of which the first is the program's name. An `Err` says why they ask for nothing that
/// can be run: they are refused, they ask for help or for the version, both recordings are standard input, or there was no memory to
/// read them.
pub fn read_words<'a>(alloc: Global, words: &'a [&'a str]) -> Result<Choice, WordFault>
    // The subcommand, the FILE, the other recording, what is asked, the flags and the limits are those of the matches that `clap` defines for
    // the words.
    ensures chosen { IfOk result (words_spec.IsChoice (subcommand_of words_spec.program (map (λ word. word.now) words.now))) }

    // Words with a fault are refused, and the refusal is of its kind.
    ensures faultless { OnOk result (fault_of words_spec.program (map (λ word. word.now) words.now) ≡ []) }
    ensures fault { IfErr result (λ fault. (fault_of words_spec.program (map (λ word. word.now) words.now) ≡ [])
        ⊎ words_spec.IsOneOf (fault_of words_spec.program (map (λ word. word.now) words.now)) fault) }

    // Words that `clap` takes and that name a subcommand are refused for want of memory, or where both recordings are standard input.
    ensures taken { IfErr result (λ fault. takes words_spec.program (map (λ word. word.now) words.now) ≡ true
        → (choice : Choice) → words_spec.IsChoice (subcommand_of words_spec.program (map (λ word. word.now) words.now)) choice
        → (fault ≡ WordFault.Memory) ⊎ (fault ≡ WordFault.BothInput)) }

    // Standard input is read once at most.
    ensures once { IfOk result (λ choice. ¬ words_spec.IsReadTwice choice) }
    ensures twice { IfErr result (λ fault. fault ≡ WordFault.BothInput
        → (choice : Choice) × words_spec.IsChoice (subcommand_of words_spec.program (map (λ word. word.now) words.now)) choice × words_spec.IsReadTwice choice) }
    ensures kind { IfErr result words_spec.HasItsKind }
{
    let mut program = program(alloc)?;
    let matches = program.try_get_matches_from_mut(words)?;
    match choice_of(alloc, &matches)? {
        Some(choice) => once(choice),
        None => Err(no_such_subcommand(&mut program)),
    }
}

/// Whether FILE and the other recording are both standard input.
fn is_read_twice(choice: &Choice) -> bool
    ensures { IsTrue result ↔ words_spec.IsReadTwice choice.now }
{
    match (choice.file(), choice.arrived()) {
        (Some(file), Some(other)) => file == "-" && other == "-",
        _ => false,
    }
}

/// The choice, but for one that reads standard input twice.
fn once(choice: Choice) -> Result<Choice, WordFault>
    ensures ok { IfOk result (λ chosen. (chosen ≡ choice) × (¬ words_spec.IsReadTwice chosen)) }
    ensures err { IfErr result (λ fault. (fault ≡ WordFault.BothInput) × words_spec.IsReadTwice choice) }
{
    if is_read_twice(&choice) {
        return Err(WordFault::BothInput);
    }
    Ok(choice)
}

/// What refuses a subcommand that `clap` takes and the program does not have.
fn no_such_subcommand(program: &mut Command) -> WordFault
    ensures kind { words_spec.HasItsKind result }
    ensures other { result ≢ WordFault.BothInput }
{
    match program.error(ErrorKind::InvalidSubcommand, "no such subcommand") {
        Ok(error) => WordFault::Refused(error),
        Err(_) => WordFault::Memory,
    }
}
