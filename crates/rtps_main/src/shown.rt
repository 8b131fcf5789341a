//! Names and arguments as they are printed: none has an octet that a terminal takes for a command.

use rtps_tool::NameOctets;
use std::alloc::{AllocError, Global};
use std::fmt;

/// A name as `list` prints one, without the quotes.
#[derive(Clone, Copy)]
pub struct Name<'a>(pub &'a str);

impl fmt::Display for Name<'_> {
    fn fmt<W: fmt::Write>(&self, f: &mut fmt::Formatter<W>) -> fmt::Result {
        write!(f, "{}", NameOctets(self.0.as_bytes()))
    }
}

/// Each of these words as it is printed.
pub fn shown_words(alloc: Global, words: &[&str]) -> Result<Vec<String>, AllocError> {
    let mut shown = Vec::with_capacity(alloc, words.len())?;
    for word in words {
        shown.push(format!(in alloc; "{}", Name(word))?)?;
    }
    Ok(shown)
}
