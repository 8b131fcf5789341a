//! The receiver of messages (DDSI-RTPS 2.5, 8.3.4 "The RTPS Message Receiver"): acts with source, destination and
//! time.
#![tactic(auto)]

mod act;
pub mod laws;
mod receiver;
mod said;
mod speech;
mod spoken;
mod state;
mod walk;

pub use act::{Act, ActBody};
pub use receiver::Acts;
pub use said::{Numbers, SaidNumbers};
pub use speech::{Audience, EVERY_READER};
pub use spoken::{FragmentBody, SentPart, Spoken, SpokenBody};
pub use state::State;
pub use walk::Walk;
