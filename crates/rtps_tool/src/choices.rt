ghost use Rattle.std.specs.Prelude.{◌≡◌};
ghost use Rattle.std.specs.Option.{option_map};
ghost use Rattle.std.specs.String.{string_bytes};
ghost use Rattle.rtps_tool.specs.Choices as choices;
ghost use Rattle.rtps_tool.specs.Commands as commands;
ghost use Rattle.rtps_tool.specs.Options as options;
ghost use Rattle.rtps_tool.specs.Words as words;

use crate::command::{AuditForm, Choice};
use crate::faults::BesideFault;
use crate::follow::Follow;
use crate::runs::{Command, Inputs, Options, run, run_beside, run_sample};
use rtps_capture::Captures;
use rtps_report::{AskedAudit, Ending, Watch};
use std::alloc::Global;
use std::io::{Read, Write};

impl Choice {
    /// The FILE, `-` for standard input. None where the choice reads nothing.
    pub fn file(&self) -> Option<&str>
        ensures { option_map (λ name. name.now) result ≡ words.file_name self.now }
    {
        match self {
            Choice::Report { file, .. }
            | Choice::Show { file, .. }
            | Choice::List { file, .. }
            | Choice::Audit { file, .. } => Some(file.as_str()),
            Choice::Sample => None,
        }
    }

    /// The other recording, made at the host of readers, `-` for standard input. None where the choice has none.
    pub fn arrived(&self) -> Option<&str>
        ensures { option_map (λ name. name.now) result ≡ words.arrived_name self.now }
    {
        match self {
            Choice::Report { arrived, .. } => text_of(arrived),
            Choice::Show { .. } | Choice::List { .. } | Choice::Audit { .. } | Choice::Sample => {
                None
            }
        }
    }

    /// What its run prints, and of what. None where the choice reads nothing.
    pub fn options(&self) -> Option<Options<'_>>
        ensures { option_map options.options_value result ≡ choices.options_of self.now }
    {
        match self {
            Choice::Report {
                file,
                limits,
                form,
                demands,
                ..
            } => Some(Options {
                command: Command::Report(*form, file.as_str(), demands.asked()),
                limits: *limits,
                captures: Captures::Any,
            }),
            Choice::Show {
                limits,
                captures,
                fragments,
                ..
            } => Some(Options {
                command: Command::Show(*fragments),
                limits: *limits,
                captures: *captures,
            }),
            Choice::List {
                limits,
                captures,
                fragments,
                ..
            } => Some(Options {
                command: Command::List(*fragments),
                limits: *limits,
                captures: *captures,
            }),
            Choice::Audit {
                limits,
                captures,
                form,
                asked,
                ..
            } => Some(Options {
                command: audit_command(*form, *asked),
                limits: *limits,
                captures: *captures,
            }),
            Choice::Sample => None,
        }
    }
}

/// The text, if there is one.
pub(crate) fn text_of(name: &Option<String>) -> Option<&str>
    ensures { option_map (λ text. text.now) result ≡ option_map string_bytes name.now }
{
    match name {
        Some(name) => Some(name.as_str()),
        None => None,
    }
}

/// What prints an audit in this form.
fn audit_command<'a>(form: AuditForm, asked: AskedAudit) -> Command<'a>
    ensures { commands.command_value result ≡ choices.audit_command form asked }
{
    match form {
        AuditForm::Lines => Command::Audit(asked),
        AuditForm::Json => Command::Json(asked),
    }
}

/// Runs what the words chose: [`crate::run`] on FILE, [`crate::run_beside`] where there is another recording, or
/// [`crate::run_sample`], which leaves both inputs as they are. It tells what was read of FILE, and how far an audit is. An `Err` is that
/// of the run, and leaves what the run leaves. Where there is no other recording, the other input stays as it is.
pub fn run_choice<R: Read, S: Read, W: Write, P: Watch + Follow>(
    alloc: Global,
    choice: &Choice,
    inputs: &mut Inputs<R, S>,
    output: &mut W,
    watch: &mut P,
) -> Result<Ending, BesideFault>
    ensures { choices.RunsBy (choices.options_of choice.now) (words.arrived_name choice.now)
        (R.remaining inputs.old.file) (R.remaining inputs.new.file) (S.remaining inputs.old.other) (S.remaining inputs.new.other)
        (W.contents output.old) (W.contents output.new) result }
{
    let Some(options) = choice.options() else {
        return Ok(run_sample(output)?);
    };
    if choice.arrived().is_some() {
        return run_beside(alloc, &options, inputs, output, watch);
    }
    let file = &mut inputs.file;
    Ok(run(alloc, &options, file, output, watch)?)
}
