//! By which names people know who writes and who reads: hosts, processes and nodes of ROS 2, as they are announced
//! (DDSI-RTPS 2.5, 8.5 "Discovery Module").
#![tactic(auto)]

mod digits;
mod entry;
mod gids;
mod introductions;
pub mod laws;
mod layout;
mod node;
mod process;
mod properties;
mod sample;
mod service;
mod texts;
mod title;
mod told_nodes;
mod who;

pub use introductions::{Introductions, tells_nodes};
pub use node::Node;
pub use process::Process;
pub use title::Title;
pub use told_nodes::ToldNodes;
pub use who::{Who, title_by};
