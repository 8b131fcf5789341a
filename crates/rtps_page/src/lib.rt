//! The page of a recording: one self-contained document of HTML with its report, what each row rests on, and a chart of what a
//! pair said.
#![tactic(auto)]

mod chart_answers;
mod chart_entries;
mod chart_room;
mod chart_times;
mod chart_writers;
mod entry_counts;
mod joining;
pub mod laws;
mod origin;
mod page;
mod page_data;
mod page_directory;
mod page_parts;
mod pair_answers;
mod safe_text;
mod tellings;

pub use origin::Origin;
pub use page::page_text;
