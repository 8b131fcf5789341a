//! Identities, numbers and sets of the DDS Interoperability Wire Protocol (DDSI-RTPS 2.5).
#![tactic(auto)]

mod bits;
mod identity;
pub mod laws;
pub mod layout;
mod memory;
mod number;
mod octets;
mod order;
mod set;
mod set_fault;

pub use identity::{EntityId, Guid, GuidPrefix, Stamp, Vendor, Version};
pub use memory::Memory;
pub use number::SeqNum;
pub use octets::{number_at, put_number, put_u16, put_u32, u16_at, u32_at};
pub use order::Order;
pub use set::NumberSet;
pub use set_fault::SetFault;
