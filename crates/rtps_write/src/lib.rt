//! Writes messages of the DDS Interoperability Wire Protocol (DDSI-RTPS 2.5), for tests and examples. `rtps_wire` reads
//! them.
#![tactic(auto)]

mod ack_nack;
mod data;
mod fields;
mod gap;
mod heartbeat;
mod info;
mod item;
pub mod laws;
mod message;
mod write_fault;

pub use message::write_message;
pub use write_fault::WriteFault;
