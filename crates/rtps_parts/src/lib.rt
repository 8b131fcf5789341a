//! Texts as lists of parts, and tables of them.
#![tactic(auto)]

pub mod laws;
mod name;
mod part;
mod ros;
mod table;

pub use name::{NameOctets, NameText};
pub use part::{Part, Words, push_joined, push_rendered, render, words_for};
pub use ros::{RosTopic, TypeText, ros_topic};
pub use table::push_table;
