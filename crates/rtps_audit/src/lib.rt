//! Judging from recorded datagrams whether a reader was told of every number that a writer announced
//! (DDSI-RTPS 2.5, 8.4 "Behavior Module").
#![tactic(auto)]

mod account;
mod accounts;
mod announced_places;
mod answer;
mod ask;
mod first_asked;
mod front_ranges;
mod groups;
mod index;
mod judging;
pub mod laws;
mod payload_conflict;
mod placed;
mod report;
mod said_between;
mod tallies;
mod verdict;
mod word;

pub use accounts::Accounts;
pub use announced_places::AnnouncedPlace;
pub use answer::{Answer, answer_in};
pub use ask::Ask;
pub use first_asked::FirstAsked;
pub use front_ranges::FrontRanges;
pub use index::{Index, undirected_among};
pub use judging::{judge, judge_by, judge_from};
pub use payload_conflict::{AddressedPayload, PayloadConflicts, Questions, addressed};
pub use placed::{Placed, place};
pub use report::{Counts, Report, Row, Unwatched, Watch, audit, audit_from, audit_watched};
pub use rtps_coverage::{Coverage, MergedRanges, PlainRanges};
pub use said_between::Said;
pub use tallies::Tallies;
pub use verdict::Verdict;
pub use word::announced_number;
