//! Discovery (DDSI-RTPS 2.5, 8.5 "Discovery Module"): announcements of participants and endpoints, and which writers
//! and readers match.
#![tactic(auto)]

mod announced;
mod announcement;
mod directory_map;
mod endpoint;
mod endpoint_parameters;
mod fault;
mod kept;
pub mod laws;
mod layout;
mod leaving;
mod matching;
mod notice;
mod offers;
mod topic_index;

pub use announced::announced_endpoint;
pub use announcement::{read_endpoint, read_participant};
pub use directory_map::Directory;
pub use endpoint::{Durability, Endpoint, Reliability, Side};
pub use fault::NoticeFault;
pub use leaving::{leaves, leaving_writers};
pub use matching::{Match, Pair, matches};
pub use notice::Noted;
