//! Makes the calls of the libraries that the program of commands does not make: of a recording on standard input, the runs that ask for
//! nothing, the reader of recordings, and what a library's user does act by act.
//!
//! It prints what the runs wrote, and then a line for each of the others. The status is 1 where two ways differ.
#![tactic(auto)]

mod acts;
mod fault;
mod texts;
mod verdicts;

use fault::Fault;
use rtps_tool::read_recording;
use std::alloc::Global;
use std::io;
use std::process::ExitCode;

fn main(rt: HostRuntime) -> ExitCode {
    match run(&rt) {
        Ok(()) => ExitCode::from(0),
        Err(fault) => {
            let _ = eprintln!(rt; "rtps_calls: {fault}");
            ExitCode::from(fault.status())
        }
    }
}

fn run(rt: &HostRuntime) -> Result<(), Fault> {
    let alloc: Global = rt.alloc();
    let input = io::read_to_string(alloc, rt.stdin())?;
    let mut text = String::new(alloc);
    texts::push_texts(alloc, input.as_bytes(), &mut text)?;
    let recording = read_recording(alloc, input.as_bytes())?;
    let pairs = acts::push_directory(alloc, &recording, &mut text)?;
    verdicts::push_verdicts(alloc, &recording, &pairs, &mut text)?;
    print!(rt; "{text}")?;
    Ok(())
}
