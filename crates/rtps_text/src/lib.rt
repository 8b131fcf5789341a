//! The texts that `rtps-audit` prints of a recording: each datagram and its submessages, what discovery announced, and whether readers
//! got all data.
#![tactic(auto)]

pub mod laws;
mod text;

pub use text::audit_text::{audit_text, json_text, report_text};
pub use text::list_text::{directory_text, list_text};
pub use text::sample_text;
pub use text::show_text::show_text;
pub use text::why_text::why_text;
