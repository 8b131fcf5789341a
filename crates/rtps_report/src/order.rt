ghost use Rattle.std.specs.Prelude.{◌≡◌, IfOk, map};
ghost use Rattle.rtps_evidence.specs.Explanation as explanation;
ghost use Rattle.rtps_report.specs.Order as order_spec;
ghost use Rattle.rtps_report.specs.ReaderSide as reader_side;

use crate::full_report::Inquiry;
use crate::twice::is_twice;
use crate::ways::{Ways, ways_of_rows};
use rtps_evidence::Explanation;
use std::alloc::{AllocError, Global};

/// In which order two recordings were given, as all their pairs tell: by how many they are which way round. Each number is 0 where there
/// is one recording alone.
#[derive(Clone, Copy)]
pub struct Order {
    pub right: u128,
    pub wrong: u128,
    /// By these pairs they are both.
    pub both: u128,
    /// By these pairs nothing tells which way round they are.
    pub alike: u128,
    /// Whether the two are one, by their datagrams and times.
    pub is_twice: bool,
}

impl Order {
    /// How many pairs are the wrong way round, where none is the right way round: the recordings look swapped. Else 0.
    pub fn swapped(&self) -> u128
        ensures { result ≡ order_spec.swapped self.now }
    {
        if self.right == 0 { self.wrong } else { 0 }
    }

    /// How many are, where some pair is the right way round: each host has writers. Else 0.
    pub fn mixed(&self) -> u128
        ensures { result ≡ order_spec.mixed self.now }
    {
        if self.right == 0 { 0 } else { self.wrong }
    }

    /// Whether some pair is asked, and none has a difference.
    fn are_alike(&self) -> bool
        ensures { result ≡ order_spec.are_alike self.now }
    {
        self.alike > 0 && self.right == 0 && self.wrong == 0 && self.both == 0
    }

    /// Whether one recording was given twice.
    pub fn is_given_twice(&self) -> bool
        ensures { result ≡ order_spec.is_given_twice self.now }
    {
        self.are_alike() && self.is_twice
    }

    /// Whether nothing tells the two recordings apart, and they are not one.
    pub fn is_untold(&self) -> bool
        ensures { result ≡ order_spec.is_untold self.now }
    {
        self.are_alike() && !self.is_twice
    }
}

/// In which order the two recordings of an inquiry were given, as these rows and pairs of best effort tell. `AllocError` is answered
/// where there is no memory to compare the two.
pub(crate) fn order_by(
    alloc: Global,
    inquiry: Inquiry<'_>,
    rows: &[Explanation<'_>],
    best_effort: Ways,
) -> Result<Order, AllocError>
    ensures { IfOk result (λ order. order ≡ order_spec.order_by (reader_side.arrived_value inquiry.entry.arrived) inquiry.entry.recording.now (map explanation.explanation_value rows.now) best_effort) }
{
    let is_twice = is_twice(alloc, inquiry.arrived, inquiry.recording)?;
    let rows = ways_of_rows(rows);
    Ok(Order {
        right: u128::from(rows.right) + u128::from(best_effort.right),
        wrong: u128::from(rows.wrong) + u128::from(best_effort.wrong),
        both: u128::from(rows.both) + u128::from(best_effort.both),
        alike: u128::from(rows.alike) + u128::from(best_effort.alike),
        is_twice,
    })
}
