//! The runs of which nothing is asked write what the commands of the same names write.

use crate::fault::Fault;
use rtps_ids::SeqNum;
use rtps_tool::{Ending, run_audit, run_audit_from, run_list, run_show};
use std::alloc::Global;
use std::fmt::Write;

/// The word for how a run ends.
fn ending_word(ending: &Ending) -> &'static str {
    match ending {
        Ending::Clean => "clean",
        _ => "unclean",
    }
}

/// Appends what a run wrote, and how it ended.
fn push_run(name: &str, written: Vec<u8>, ending: Ending, text: &mut String) -> Result<(), Fault> {
    let Ok(written) = String::from_utf8(written) else {
        return Err(Fault::Differs("a run wrote what is no text"));
    };
    writeln!(text, "-- {name}: {}", ending_word(&ending))?;
    text.push_str(written.as_str())?;
    Ok(())
}

/// Appends what each run writes of a recording.
pub(crate) fn push_texts(alloc: Global, recording: &[u8], text: &mut String) -> Result<(), Fault> {
    let mut written = Vec::new(alloc);
    let mut input = recording;
    let ending = run_show(alloc, &mut input, &mut written)?;
    push_run("show", written, ending, text)?;
    let mut written = Vec::new(alloc);
    let mut input = recording;
    let ending = run_list(alloc, &mut input, &mut written)?;
    push_run("list", written, ending, text)?;
    let mut written = Vec::new(alloc);
    let mut input = recording;
    let ending = run_audit(alloc, &mut input, &mut written)?;
    push_run("audit", written, ending, text)?;
    let mut written = Vec::new(alloc);
    let mut input = recording;
    let from = SeqNum::new(2).unwrap_or(SeqNum::first());
    let ending = run_audit_from(alloc, &mut input, &mut written, from)?;
    push_run("audit from 2", written, ending, text)
}
