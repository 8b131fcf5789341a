//! The words of a case, with one space between them.

use crate::fault::Fault;
use rtps_ids::Order;
use std::alloc::Global;
use std::fmt::Write;

/// The words that are left.
#[derive(Clone, Copy)]
pub(crate) struct Words<'a> {
    pub left: &'a str,
}

impl<'a> Words<'a> {
    /// The next word, or an empty one after the last.
    pub(crate) fn word(&mut self) -> &'a str {
        let left = self.left;
        let (word, rest) = left.split_once(" ").unwrap_or((left, ""));
        self.left = rest;
        word
    }

    /// A number; 0 if the word is none.
    pub(crate) fn number(&mut self) -> i64 {
        self.word().parse::<i64>().unwrap_or(0)
    }

    /// Octets as digits, or `xN` for N octets of 7.
    pub(crate) fn octets(&mut self, alloc: Global) -> Result<Vec<u8>, Fault> {
        let word = self.word();
        if let Some(count) = word.strip_prefix("x") {
            let mut octets = Vec::new(alloc);
            let count = count.parse::<u16>().unwrap_or(0);
            octets.resize(usize::from(count), 7)?;
            return Ok(octets);
        }
        match hex::decode(alloc, word.as_bytes()) {
            Ok(octets) => Ok(octets),
            Err(_) => Err(Fault::Words),
        }
    }
}

/// The order of this name.
pub(crate) fn order_of(word: &str) -> Order {
    match word {
        "little" => Order::Little,
        _ => Order::Big,
    }
}

/// Appends octets as digits. Of more than 100 only the first 24 are told, and how many there are.
pub(crate) fn push_octets(octets: &[u8], text: &mut String) -> Result<(), Fault> {
    let shown = if octets.len() > 100 {
        &octets[..24]
    } else {
        octets
    };
    for octet in shown {
        write!(text, "{octet:02x}")?;
    }
    if shown.len() < octets.len() {
        write!(text, ".. {}", octets.len())?;
    }
    Ok(())
}
