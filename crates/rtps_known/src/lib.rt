//! What discovery has told whom: the endpoints of a participant that another one was never told of, and participants of which two lives have one
//! GUID (DDSI-RTPS 2.5, 8.5.4 "The Simple Endpoint Discovery Protocol").
#![tactic(auto)]

mod asking;
mod bulletin;
mod issue;
mod known;
mod lacking;
pub mod laws;
mod layout;
mod life;
mod matches;
mod place;
mod sending;
mod spread;
mod telling;
mod untold;
mod visit;

pub use known::Known;
pub use life::Life;
pub use matches::{Matched, Matches};
pub use place::Place;
pub use untold::Untold;
pub use visit::Visit;
