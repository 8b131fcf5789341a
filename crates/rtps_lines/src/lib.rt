//! What the forms of a report say alike: places, seconds, numbers and payloads as text, the lines of what a verdict rests on, notes,
//! reasons and the last line.
#![tactic(auto)]

mod advice_text;
mod causes;
mod end_text;
mod event_text;
mod evidence_lines;
mod fields;
mod late_notes;
mod no_pair_text;
mod notes;
mod number_ranges;
mod policy_values;
mod report_ends;
pub mod sentences;
mod side_notes;
mod silent_participants;
mod tail_names;
mod talk_notes;
mod way_notes;

pub use advice_text::sentence_of;
pub use causes::{Judged, causes_of, endpoint_words, lives_words, push_last, unmatched_words};
pub use end_text::{EndText, NodeText, PairedText};
pub use event_text::{ParticipantText, called, push_event_text};
pub use evidence_lines::{
    AcknowledgedLine, AnnouncedLine, AskedLine, ClaimedLine, QuestionsLine, ToldLine, VerdictText,
    WaitText, push_sent,
};
pub use fields::{
    AdviceText, NotToldAdvice, PlaceComma, PlaceText, SecondText, SecondsText, durability_name,
    kind_name, push_decimal, push_field, push_payload, reliability_name, sent_second, side_name,
};
pub use late_notes::{LateText, late_lines};
pub use no_pair_text::no_pair_remedy;
pub use notes::{NotedRows, names_of, notes_of, number_words, topic_name};
pub use number_ranges::{LostRows, push_lost_lines, push_more};
pub use policy_values::{NameStyle, PolicyValue, words_of_policy};
pub use report_ends::{push_report_last, report_causes, report_notes};
pub use silent_participants::silence_lines;
pub use tail_names::longest_tail;
pub use talk_notes::talking_names;
