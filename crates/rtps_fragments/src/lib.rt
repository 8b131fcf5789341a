//! What a reader is told by samples that are sent in fragments (DDSI-RTPS 2.5, 8.3.8.3 "DataFrag").
#![tactic(auto)]

mod announcements;
mod fragment_walk;
mod fragments;
mod heard;
mod hearing;
mod judging;
pub mod laws;
mod listen;
mod making;
mod merging;
mod overheard;
mod overhearing;
mod piece;
mod sample_counts;
mod sample_index;
mod sample_report;
mod samples;
mod told_sample;
mod whole;

pub use announcements::Indexed;
pub use fragment_walk::FragmentWalk;
pub use fragments::Fragments;
pub use hearing::{have_fragments, heard_of, heard_said};
pub use judging::judge_with_samples;
pub use listen::{Deaf, Listen, ReadDatagram};
pub use overheard::overheard_of;
pub use sample_counts::{SampleCount, overheard_counted, samples_counted};
pub use sample_index::{Source, index_as, index_told};
pub use sample_report::report_with_samples;
