//! Messages of the DDS Interoperability Wire Protocol (DDSI-RTPS 2.5): a header, and then submessages.
#![tactic(auto)]

mod body;
mod counts;
mod data_frag;
mod datagram_tally;
mod fault;
mod flags;
mod fragment_item;
mod header;
pub mod laws;
pub mod layout;
mod message;
mod nack_frag;
mod read;

pub use body::{AckNackBody, Body, DataBody, GapBody, HeartbeatBody, Item, Payload};
pub use counts::Tally;
pub use data_frag::{DataFrag, Shape};
pub use datagram_tally::tally;
pub use fault::{Refusal, WireFault};
pub use flags::DataFlags;
pub use header::Header;
pub use message::Items;
pub use nack_frag::NackFrag;
