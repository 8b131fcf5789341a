//! A report as an object of JSON: lists of members, which one writer renders.
#![tactic(auto)]

mod check_members;
mod discovery_members;
mod end_members;
mod event_members;
mod json_members;
mod json_object;
mod json_writer;
mod number_members;
mod talk_members;
mod values;

pub use check_members::push_check_members;
pub use json_members::Clock;
pub use json_object::{json_line, push_report};
pub use json_writer::{push_guid, push_member, push_members, push_second, push_value};
pub use values::{
    Made, Member, Members, Value, array, joined, name, object, some_count, some_second,
};
