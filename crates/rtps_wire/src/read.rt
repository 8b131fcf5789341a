//! The bodies that are read, one file a submessage.

mod ack_nack;
mod data;
mod data_frag;
pub(crate) mod fields;
mod gap;
mod heartbeat;
mod info;
mod nack_frag;

pub(crate) use ack_nack::ack_nack;
pub(crate) use data::data;
pub(crate) use data_frag::data_frag;
pub(crate) use gap::gap;
pub(crate) use heartbeat::heartbeat;
pub(crate) use info::{info_dst, info_src, info_ts};
pub(crate) use nack_frag::nack_frag;
