//! Sets of sequence numbers (DDSI-RTPS 2.5, 8.3.5.4 "SequenceNumber"), kept as ranges: those that grow, and lists of stretches.
#![tactic(auto)]

mod coverage;
pub mod laws;
mod leaves;
mod merged_ranges;
mod plain_ranges;
mod ranges;
pub mod rising;
mod stretch;
pub mod stretches;

pub use coverage::Coverage;
pub use merged_ranges::MergedRanges;
pub use plain_ranges::PlainRanges;
pub use stretch::Stretch;
