//! Parameter lists of the DDS Interoperability Wire Protocol (DDSI-RTPS 2.5, 9.4.2.11 "ParameterList").
#![tactic(auto)]

mod fault;
pub mod laws;
mod layout;
mod list;
mod list_fault;
mod pairs;
mod parameter;
mod values;
mod write;

pub use fault::ParamFault;
pub use list::ParamList;
pub use list_fault::ListFault;
pub use pairs::Params;
pub use values::{read_guid, read_text, read_u32};
pub use write::write_list;
