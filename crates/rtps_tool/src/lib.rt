//! The tool `rtps-audit`: recordings that are read from text and from captures, the runs that print of them, and the words of the command
//! line.
#![tactic(auto)]

mod choices;
mod command;
mod demands;
mod faults;
mod follow;
mod form;
pub mod laws;
mod passes;
mod runs;
mod source;
mod streams;

pub use choices::run_choice;
pub use command::{AuditForm, Choice, WordFault, read_words};
pub use demands::Demands;
pub use faults::{BesideFault, RecFault, RunFault, status, write_fault, write_other_fault};
pub use follow::Follow;
pub use form::either::{read_recording, read_recording_within};
pub use passes::run_passes;
pub use rtps_capture::{
    CAPTURE_HEADER_SIZE, Captures, LinkType, is_pcapng, link_type_numbered, unread_link_type,
};
pub use rtps_parts::NameOctets;
pub use rtps_report::{
    Asked, AskedAudit, Datagrams, Ending, FewRows, Findings, Fragments, Recording, Unwatched, Watch,
};
pub use runs::{
    Command, Form, Inputs, Limits, Options, run, run_audit, run_audit_from, run_beside, run_list,
    run_sample, run_show,
};
pub use source::{Rereading, Source};
pub use streams::read_input;
