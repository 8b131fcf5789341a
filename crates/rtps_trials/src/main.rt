//! Tries the libraries: what no contract says and no run of the program shows.
//!
//!     rtps_trials               tries the cases of standard input, and judges the recording behind their first empty line
//!     rtps_trials account PAIR  tells what becomes of a pair as the recording goes on; PAIR is the 32 digits of the writer, `/` and those of the reader
//!     rtps_trials judge         judges each recording on standard input by each judge; an empty line stands between two
//!     rtps_trials who           tells by which names people know the participants and the endpoints of each of them
//!     rtps_trials known         tells what discovery has told whom in each of them; before a datagram stands when it came
//!     rtps_trials matched       tells when writers and readers matched in each of them, in the same form
//!     rtps_trials refuse CALL   makes this call on a recording, and once more if it is refused memory
//!     rtps_trials rewrite       writes each message of a recording again from its items, and prints the results
//!     rtps_trials read N        reads each of its messages N times
//!     rtps_trials write N       reads each of them once and writes it N times, if it can be written
//!
//! The status is 1 if something is not as it should be, 2 if the arguments or the input are refused, and 3 if memory,
//! reading or writing fails.
#![tactic(auto)]

mod account;
mod arrivals;
mod cases;
mod discoveries;
mod fault;
mod judged;
mod matching;
mod people;
mod recording;
mod refusals;
mod rewriting;
mod words;

use fault::Fault;
use std::alloc::Global;
use std::fmt::Write;
use std::io::Write as _;
use std::process::ExitCode;
use std::{env, io};

fn main(rt: HostRuntime) -> ExitCode {
    match run(&rt) {
        Ok(()) => ExitCode::from(0),
        Err(fault) => {
            let _ = writeln!(rt.stderr(), "rtps_trials: {fault}");
            ExitCode::from(fault.status())
        }
    }
}

fn run(rt: &HostRuntime) -> Result<(), Fault> {
    let args = env::args(rt)?.collect::<Vec<String>>(rt.alloc())?;
    let input = io::read_to_string(rt.alloc(), rt.stdin())?;
    let mut text = String::new(rt.alloc());
    match (args.get(1), args.get(2)) {
        (None, _) => try_all(rt.alloc(), input.as_str(), &mut text)?,
        (Some(mode), word) => {
            let word = match word {
                Some(word) => word.as_str(),
                None => "",
            };
            try_mode(rt.alloc(), (mode.as_str(), word), input.as_str(), &mut text)?;
        }
    }
    print!(rt; "{text}")?;
    Ok(())
}

/// Tries the cases and the recording of a text, and tells what was counted.
fn try_all(alloc: Global, input: &str, text: &mut String) -> Result<(), Fault> {
    let (cases, recording) = input.split_once("\n\n").ok_or(Fault::Words)?;
    let count = cases::count(alloc, cases)?;
    writeln!(text, "cases: {count}")?;
    judged::judge_each(alloc, recording, text)?;
    refusals::refuse_none(alloc, recording, text)
}

/// Runs a mode, with its argument, on an input.
fn try_mode(
    alloc: Global,
    (mode, word): (&str, &str),
    input: &str,
    text: &mut String,
) -> Result<(), Fault> {
    match mode {
        "account" => account::tell(alloc, word, input, text),
        "judge" => judged::judge_each(alloc, input, text),
        "who" => people::tell_each(alloc, input, text),
        "known" => discoveries::tell_each(alloc, input, text),
        "matched" => matching::tell_each(alloc, input, text),
        "refuse" => refusals::refuse(alloc, word, input, text),
        "rewrite" => rewriting::rewrite_each(alloc, input, text),
        "read" | "write" => rewriting::repeat(alloc, (mode, word), input, text),
        _ => Err(Fault::Words),
    }
}
