//! Cases are lines `CALL WORD.. -> ANSWER`: a public call of a library, its arguments, and what it returns. Other lines are
//! skipped. The answers come from the standard, from the rules of the library, or from other programs.

mod reading;
mod writing;

use crate::fault::Fault;
use crate::words::Words;
use std::alloc::Global;

/// Counts the cases of a text. Each call has to return what its line says.
pub(crate) fn count(alloc: Global, text: &str) -> Result<usize, Fault> {
    let mut count = 0usize;
    for line in text.split("\n") {
        if let Some((call, wanted)) = line.split_once(" -> ") {
            try_case(alloc, call, wanted)?;
            count = count.saturating_add(1);
        }
    }
    Ok(count)
}

fn try_case(alloc: Global, call: &str, wanted: &str) -> Result<(), Fault> {
    let mut found = String::new(alloc);
    answer(alloc, Words { left: call }, &mut found)?;
    if found.as_str() == wanted {
        return Ok(());
    }
    let told = format!(in alloc; "{call}: wanted {wanted}, got {found}")?;
    Err(Fault::Case(told))
}

/// Appends what a call returns.
fn answer(alloc: Global, mut words: Words<'_>, text: &mut String) -> Result<(), Fault> {
    match words.word() {
        "list" => reading::list(alloc, words, text),
        "endpoint" => reading::endpoint(alloc, words, text),
        "participant" => reading::participant(alloc, words, text),
        "merged" => reading::merged(alloc, words, text),
        "write_list" => writing::list(alloc, words, text),
        call => writing::message(alloc, call, words, text),
    }
}
