//! The report on a recording whose datagrams are gone through two or three times, and are not kept
//! (DDSI-RTPS 2.5, 8.4 "Behavior Module").
//!
//! A [`Survey`] takes in all datagrams and finds the reliable pairs. A [`Judging`] of its directory takes them in again, and has an account
//! of each pair. Where it has questions, a [`Comparison`] takes them in once more, and compares the payloads of numbers of which one came
//! again. The report is that of the comparison, which is empty where there are no questions.
#![tactic(auto)]

mod comparison;
mod judged_writer;
mod judging;
mod kept_payload;
mod kept_payloads;
mod survey;

pub use comparison::Comparison;
pub use judging::Judging;
pub use survey::Survey;
