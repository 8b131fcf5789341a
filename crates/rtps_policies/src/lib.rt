//! Who does not talk: what endpoints offer and request beside reliability and durability (DDS 1.4, 2.2.3 "Supported QoS"), which
//! of them do not fit, and which participants talk one way or not at all.
#![tactic(auto)]

mod announced;
mod domain;
mod duration;
mod fields;
mod fitting;
mod host;
mod kinds;
pub mod laws;
mod layout;
mod liveliness;
mod name_pattern;
mod naming;
mod one_way;
mod partition;
mod policies;
mod presentation;
mod representations;
mod silence;
mod topic_readers;
mod unmatched;
mod vendor;

pub use announced::{Announced, announced_participant, keep_first, participant_of, payload_of};
pub use duration::Duration;
pub use fields::list_in;
pub use fitting::{Policy, Profile, reasons};
pub use host::{Address, Host};
pub use kinds::{DestinationOrder, Ownership};
pub use liveliness::{Liveliness, LivelinessKind};
pub use naming::{Naming, Namings};
pub use one_way::{OneWay, one_way_namings};
pub use partition::{Names, Partition};
pub use policies::Policies;
pub use presentation::{AccessScope, Presentation};
pub use representations::{Ids, Representations};
pub use silence::{Silence, reason_of_silence, talks_one_way, two_addresses, two_domains};
pub use unmatched::{Unmatched, unmatched_pairs};
