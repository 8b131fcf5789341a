//! Captures, as `tcpdump` writes them: the UDP datagrams that their frames carry, where these stand, and when they were captured.
//! Where any capture is read, packets that came in fragments are put together, and their datagrams are told, too.
#![tactic(auto)]

mod advance;
mod assembly;
mod blocks;
mod byte_range;
mod capture;
mod capture_reader;
mod captures;
mod checksum;
mod fragment;
mod frame_reader;
mod frames;
mod held;
pub mod laws;
mod layout;
mod link_type;
mod notes;
mod octet_number;
mod opening;
mod options;
mod packet;
mod passed;
mod pieces;
mod read_fault;
mod times;

pub use advance::Opened;
pub use blocks::is_pcapng;
pub use byte_range::ByteRange;
pub use capture::CaptureFault;
pub use capture_reader::{CaptureReader, Datagram, Summary, Wanted};
pub use captures::Captures;
pub use link_type::{LinkType, link_type_numbered};
pub use opening::{CAPTURE_HEADER_SIZE, capture_order, unread_link_type};
pub use read_fault::ReadFault;
