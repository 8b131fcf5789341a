//! What `check` prints of a recording: which topics lost data, and what to do. It is for a person and for a test job.
#![tactic(auto)]

mod arrived_block;
mod checked_text;
mod event_blocks;
pub mod laws;
mod lives_block;
mod not_arrived;
mod not_told_block;
mod one_way_block;
mod sections;
mod tails;
mod topic_table;
mod unmatched_block;

pub use checked_text::{check_json, check_text};
