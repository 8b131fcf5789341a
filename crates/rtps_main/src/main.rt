//! The program `rtps-audit`: opens the file that the command line names, runs the command, and ends with its status.
#![tactic(auto)]

mod inputs;
mod packed;
mod progress;
mod shown;

use clap::error::ErrorKind;
use inputs::{Opened, Remembering, Seen};
use packed::{Packed, packed_as};
use progress::{Progress, Wiping};
use rtps_tool::{
    BesideFault, Captures, Choice, Ending, Form, Inputs, Options, RecFault, Rereading, RunFault,
    WordFault, is_pcapng, link_type_numbered, read_words, run_choice, run_passes, status,
    unread_link_type, write_fault, write_other_fault,
};
use shown::{Name, shown_words};
use std::alloc::AllocError;
use std::io::{IsTerminal, Write};
use std::process::ExitCode;
use std::{env, io};

/// What is told where a page would be written to a terminal.
const PAGE_TO_TERMINAL: &str =
    "rtps-audit: page does not write to a terminal: rtps-audit page FILE > report.html";

fn main(rt: HostRuntime) -> ExitCode {
    ExitCode::from(run(&rt))
}

/// Runs what the command line asks for, and returns the status to end with.
fn run(rt: &HostRuntime) -> u8 {
    let args = match env::args(rt) {
        Ok(args) => args,
        Err(error) => return refuse_args(rt, &error),
    };
    let Ok(args) = args.collect::<Vec<String>>(rt.alloc()) else {
        return out_of_memory(rt);
    };
    match run_args(rt, &args) {
        Ok(status) => status,
        Err(AllocError) => out_of_memory(rt),
    }
}

/// If the arguments cannot be read: one is not UTF-8, or there is no memory for them.
fn refuse_args(rt: &HostRuntime, error: &io::Error) -> u8 {
    if error.kind() == io::ErrorKind::OutOfMemory {
        return out_of_memory(rt);
    }
    let _ = rt.eprintln("error: an argument is not UTF-8");
    2
}

/// Puts the name of the program before these arguments, and runs what they ask for.
fn run_args(rt: &HostRuntime, args: &[String]) -> Result<u8, AllocError> {
    let mut words = Vec::new(rt.alloc());
    words.push("rtps-audit")?;
    for arg in args.iter().skip(1) {
        words.push(arg.as_str())?;
    }
    Ok(run_words(rt, &words))
}

/// Runs what these words ask for, and returns the status to end with.
fn run_words(rt: &HostRuntime, words: &[&str]) -> u8 {
    match read_words(rt.alloc(), words) {
        Ok(choice) => run_choice_here(rt, &choice),
        Err(fault) => {
            let status = refuse_shown(rt, words, &fault);
            if asks_as_check_does(words, &fault) {
                let _ = rt.eprintln("rtps-audit: check does that");
            }
            status
        }
    }
}

/// Runs what was chosen, but for a page that would be written to a terminal. Returns the status to end with.
fn run_choice_here(rt: &HostRuntime, choice: &Choice) -> u8 {
    if is_page(choice) && rt.stdout().is_terminal() {
        let _ = rt.eprintln(PAGE_TO_TERMINAL);
        return 2;
    }
    let outcome = run_on_inputs(rt, choice);
    finish(rt, choice.arrived(), &outcome)
}

fn is_page(choice: &Choice) -> bool {
    matches!(
        choice,
        Choice::Report {
            form: Form::Page,
            ..
        }
    )
}

/// Whether words are refused for an option that `check` makes needless: it always does what the option asked for.
fn asks_as_check_does(words: &[&str], fault: &WordFault) -> bool {
    let WordFault::Refused(refusal) = fault else {
        return false;
    };
    if refusal.kind() != ErrorKind::UnknownArgument {
        return false;
    }
    let audits = matches!(words.get(1), Some(&"audit"));
    words.iter().any(|word| {
        let name = word.split('=').next().unwrap_or("");
        matches!(name, "--spans" | "--observed" | "--strict")
            || audits && matches!(name, "--topic" | "--expect")
    })
}

/// Prints why nothing is run, as [`refuse_words`] does. Of an argument that `clap` refuses the text has the argument as it is printed:
/// the words are read so again.
fn refuse_shown(rt: &HostRuntime, words: &[&str], fault: &WordFault) -> u8 {
    if !matches!(fault, WordFault::Refused(_)) {
        return refuse_words(rt, fault);
    }
    let Ok(shown) = shown_words(rt.alloc(), words) else {
        return out_of_memory(rt);
    };
    match refusal_of(rt, &shown) {
        Ok(Some(again)) => refuse_words(rt, &again),
        Ok(None) => refuse_unprinted(rt),
        Err(AllocError) => out_of_memory(rt),
    }
}

/// Why these words ask for nothing that can be run. None where they do.
fn refusal_of(rt: &HostRuntime, shown: &[String]) -> Result<Option<WordFault>, AllocError> {
    let mut words = Vec::new(rt.alloc());
    for word in shown {
        words.push(word.as_str())?;
    }
    match read_words(rt.alloc(), &words) {
        Err(fault) => Ok(Some(fault)),
        Ok(_) => Ok(None),
    }
}

/// If only the octets of an argument that are not printed are refused.
fn refuse_unprinted(rt: &HostRuntime) -> u8 {
    let _ = rt.eprintln("error: an argument has an octet that cannot be printed");
    2
}

/// Prints why nothing is run, or the help or the version. Returns the status to end with.
fn refuse_words(rt: &HostRuntime, fault: &WordFault) -> u8 {
    match fault {
        WordFault::Refused(refusal) => {
            let _ = refusal.print(rt);
            2
        }
        WordFault::Help(answer) | WordFault::Version(answer) => {
            let _ = answer.print(rt);
            0
        }
        WordFault::BothInput => {
            let _ = writeln!(rt.stderr(), "{fault}");
            2
        }
        WordFault::Memory => out_of_memory(rt),
    }
}

/// Runs what was chosen on its inputs. If one cannot be opened or read, or is refused, prints its name and the reason.
fn run_on_inputs(rt: &HostRuntime, choice: &Choice) -> Result<Ending, BesideFault> {
    let mut progress = Progress::new(rt, passes_of(choice));
    let file = Opened::open(rt, choice.file());
    let other = Opened::open(rt, choice.arrived());
    let mut inputs = Inputs {
        file: Remembering::new(&file, progress),
        other: Remembering::new(&other, progress),
    };
    let mut output = Wiping::new(rt.stdout(), progress);
    let outcome = run_chosen(rt, choice, &mut inputs, &mut output, &mut progress);
    output.wipe();
    tell_of_inputs(rt, choice, &inputs, &outcome);
    if outcome.is_ok() {
        tell_ignored(rt, choice, progress.ignored());
    }
    outcome
}

/// Runs what was chosen: by passes over FILE, where that may be.
fn run_chosen<'a, W: Write>(
    rt: &HostRuntime,
    choice: &Choice,
    inputs: &mut Inputs<Remembering<'a>, Remembering<'a>>,
    output: &mut W,
    progress: &mut Progress<'_>,
) -> Result<Ending, BesideFault> {
    let Some(options) = by_passes(choice, &inputs.file) else {
        return run_choice(rt.alloc(), choice, inputs, output, progress);
    };
    let mut input = Rereading {
        source: inputs.file.opened(),
        reader: &mut inputs.file,
    };
    Ok(run_passes(rt.alloc(), &options, &mut input, output, progress)?)
}

/// How many passes are made over FILE at most, if it is a file.
fn passes_of(choice: &Choice) -> u8 {
    match choice {
        Choice::Audit { .. } => 3,
        _ => 1,
    }
}

/// What a run prints that may go by passes over FILE: a file that is listed or audited. None for other runs.
fn by_passes<'a>(choice: &'a Choice, file: &Remembering<'_>) -> Option<Options<'a>> {
    match choice {
        Choice::List { .. } | Choice::Audit { .. } if file.is_file() => choice.options(),
        _ => None,
    }
}

/// On a terminal, says that `--any` may read more, if it was not given and frames were ignored.
fn tell_ignored(rt: &HostRuntime, choice: &Choice, ignored: Option<u64>) {
    let (Some(file), Some(options), Some(ignored)) = (choice.file(), choice.options(), ignored)
    else {
        return;
    };
    let file = Name(file);
    if options.captures == Captures::Classic {
        let _ = writeln!(
            rt.stderr(),
            "rtps-audit: {file}: ignored {ignored}; --any may read these frames"
        );
    }
}

/// An input as it is told of: its name, what is known of it, how it is read, and the words that read it from standard input.
#[derive(Clone, Copy)]
struct NamedInput<'a> {
    name: Name<'a>,
    seen: &'a Seen,
    options: Options<'a>,
    command: &'a str,
    words: &'a str,
}

/// An input of this name as it is told of; None where there is no name, or nothing is read.
fn told_of<'a>(
    choice: &'a Choice,
    name: Option<&'a str>,
    seen: &'a Seen,
    words: &'a str,
) -> Option<NamedInput<'a>> {
    let (Some(name), Some(options)) = (name, choice.options()) else {
        return None;
    };
    Some(NamedInput {
        name: Name(name),
        seen,
        options,
        command: command_of(choice),
        words,
    })
}

/// The fault of FILE, if a run has one.
fn fault_of_file(outcome: &Result<Ending, BesideFault>) -> Option<RunFault> {
    match outcome {
        Err(BesideFault::Run(fault)) => Some(*fault),
        _ => None,
    }
}

/// That of the other recording.
fn fault_of_other(outcome: &Result<Ending, BesideFault>) -> Option<RunFault> {
    match outcome {
        Err(BesideFault::Other(fault)) => Some(*fault),
        _ => None,
    }
}

/// Prints of both inputs what the line of a fault does not say.
fn tell_of_inputs<'a>(
    rt: &HostRuntime,
    choice: &'a Choice,
    inputs: &'a Inputs<Remembering<'a>, Remembering<'a>>,
    outcome: &Result<Ending, BesideFault>,
) {
    let file = told_of(choice, choice.file(), &inputs.file.seen, "-");
    if let Some(told) = &file {
        tell_of_input(rt, told, fault_of_file(outcome));
    }
    let other = told_of(
        choice,
        choice.arrived(),
        &inputs.other.seen,
        "--arrived - FILE",
    );
    if let Some(told) = &other {
        tell_of_input(rt, told, fault_of_other(outcome));
    }
}

/// The name of the command that was given.
fn command_of(choice: &Choice) -> &'static str {
    match choice {
        Choice::Report { form, .. } => match form {
            Form::Check | Form::CheckJson => "check",
            Form::Why => "why",
            Form::Page => "page",
        },
        Choice::Show { .. } => "show",
        Choice::List { .. } => "list",
        Choice::Audit { .. } => "audit",
        Choice::Sample => "sample",
    }
}

/// Prints what the line of a fault does not say: the name of the input, and why it cannot be read or is refused.
fn tell_of_input(rt: &HostRuntime, told: &NamedInput<'_>, fault: Option<RunFault>) {
    let file = told.name;
    if let Some(failure) = told.seen.failure() {
        tell_reason(rt, file, failure);
    }
    let Some(RunFault::Recording(fault)) = fault else {
        return;
    };
    let start = told.seen.front();
    tell_packed(rt, told);
    match told.options.captures {
        Captures::Classic => tell_any(rt, file, start, fault),
        Captures::Any => tell_unread(rt, file, start),
    }
    match fault {
        RecFault::TooMany => tell_limit(rt, told),
        RecFault::Damaged { frame } => tell_damage(rt, file, frame),
        _ => {}
    }
}

/// Prints at which frame a capture is damaged, and what else may be so.
fn tell_damage(rt: &HostRuntime, file: Name<'_>, frame: u64) {
    let _ = writeln!(
        rt.stderr(),
        "rtps-audit: {file}: frame {frame} is damaged, or two captures are in one file (mergecap joins them)"
    );
}

/// Prints the limit that an input is above, and the option that raises it. The limit of octets comes first.
fn tell_limit(rt: &HostRuntime, told: &NamedInput<'_>) {
    let limits = told.options.limits;
    let (most, what, option) = if told.seen.octets() > limits.octets {
        (limits.octets, "octets", "--max-octets")
    } else {
        (limits.datagrams, "datagrams", "--max-datagrams")
    };
    let file = told.name;
    let _ = writeln!(
        rt.stderr(),
        "rtps-audit: {file}: more than {most} {what}; {option} N raises this limit"
    );
}

/// If an input is refused and has a form that is told, prints which, and a command that makes a recording of it.
fn tell_packed(rt: &HostRuntime, told: &NamedInput<'_>) {
    let Some(form) = packed_as(told.seen.front()) else {
        return;
    };
    let file = told.name;
    let words = told.words;
    let command = told.command;
    let Packed {
        what,
        unpack,
        read,
        ..
    } = form;
    let _ = writeln!(
        rt.stderr(),
        "rtps-audit: {file}: {what}; {unpack} {file} | rtps-audit {command} {words} reads {read}"
    );
}

/// Says of an input that is refused for its form what it is, and that any capture can be asked for, where that reads it.
fn tell_any(rt: &HostRuntime, file: Name<'_>, start: &[u8], fault: RecFault) {
    if is_pcapng(start) {
        let _ = writeln!(
            rt.stderr(),
            "rtps-audit: {file}: a pcapng file; --any reads it"
        );
    }
    if matches!(fault, RecFault::CutCapture { .. }) {
        let _ = writeln!(
            rt.stderr(),
            "rtps-audit: {file}: the capture ends within a frame; --any reads what is whole"
        );
    }
    match unread_link_type(start) {
        Some(number) if link_type_numbered(number).is_some() => {
            let _ = writeln!(
                rt.stderr(),
                "rtps-audit: {file}: frames of link type {number}; --any reads them"
            );
        }
        _ => tell_unread(rt, file, start),
    }
}

/// Says of a capture that is refused what its frames are, where these are never read, and what makes a recording of it.
fn tell_unread(rt: &HostRuntime, file: Name<'_>, start: &[u8]) {
    match unread_link_type(start) {
        Some(number) if link_type_numbered(number).is_none() => {
            let _ = writeln!(
                rt.stderr(),
                "rtps-audit: {file}: frames of link type {number}; tshark -r IN -Y 'udp && !icmp' -T fields -e udp.payload >OUT makes a recording of it"
            );
        }
        _ => {}
    }
}

/// Prints the name of a file that cannot be opened or read, and the reason, but not the system's number of it. It takes
/// no memory: a reason has at most 256 octets, and 24 are room for the number.
fn tell_reason(rt: &HostRuntime, file: Name<'_>, error: &io::Error) {
    let mut room = [0u8; 280];
    let mut left = room.as_mut_slice();
    let _ = write!(left, "{error}");
    let free = left.len();
    let written = room.get(..280usize.saturating_sub(free)).unwrap_or(&[]);
    let text = str::from_utf8(written).unwrap_or("");
    let reason = text.split(" (os error ").next().unwrap_or("");
    let _ = writeln!(rt.stderr(), "rtps-audit: {file}: {reason}");
}

/// Prints that there was no memory, and returns the status to end with.
fn out_of_memory(rt: &HostRuntime) -> u8 {
    finish(rt, None, &Err(BesideFault::Run(RunFault::Memory)))
}

/// Prints a fault, if there is one, and returns the status to end with. A fault of the other recording is told with its name.
fn finish(rt: &HostRuntime, other: Option<&str>, outcome: &Result<Ending, BesideFault>) -> u8 {
    match outcome {
        Ok(_) => {}
        Err(BesideFault::Run(fault)) => {
            let _ = write_fault(fault, &mut rt.stderr());
        }
        Err(BesideFault::Other(fault)) => {
            let _ = write_other_fault(other.unwrap_or(""), fault, &mut rt.stderr());
        }
    }
    status(outcome)
}
