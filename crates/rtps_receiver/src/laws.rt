//! Laws of the definitions, as contracts of functions that do nothing.

ghost use Rattle.std.specs.Prelude.{◌≡◌, ◌↔◌, true};
ghost use Rattle.rtps_ids.specs.declared.identity.Guid.{Guid};
ghost use Rattle.rtps_receiver.specs.Laws as laws;
ghost use Rattle.rtps_receiver.specs.Speech as speech;
ghost use Rattle.rtps_receiver.specs.Values as values;

/// `is_spoken_by`, `is_heard_by`, `is_answer` and `is_request` are true if and only if the relations of these names hold.
#[tactic(auto, using(crate::proofs::SpeechTests::spoken_decides, crate::proofs::SpeechTests::heard_decides, crate::proofs::SpeechTests::answer_decides, crate::proofs::SpeechTests::request_decides))]
pub fn tests_say_what_relations_say()
    ensures spoken { (act : values.ActValue) (writer : Guid) → (speech.is_spoken_by act writer ≡ true) ↔ speech.IsSpokenBy act writer }
    ensures heard { (act : values.ActValue) (reader : Guid) → (speech.is_heard_by act reader ≡ true) ↔ speech.IsHeardBy act reader }
    ensures answers { (act : values.ActValue) (reader : Guid) (writer : Guid) → (speech.is_answer act reader writer ≡ true) ↔ speech.IsAnswer act reader writer }
    ensures asks { (act : values.ActValue) (reader : Guid) (writer : Guid) → (speech.is_request act reader writer ≡ true) ↔ speech.IsRequest act reader writer }
{}

/// The receiver's state at a place: the source is that of the last INFO_SRC before it, or of the header if there is
/// none. The destination is that of the last INFO_DST, or everyone. The time is that of the last INFO_TS or INFO_SRC
/// (which has none), or none.
pub fn the_state_is_what_stands()
    ensures { laws.TheStateIsWhatStands }
{}

/// The acts of a message are exactly its items that are acts, each with the state after all items before it.
pub fn acts_are_of_items()
    ensures { laws.ActsAreOfItems }
{}

/// The acts that a writer speaks are exactly those that have its GUID as origin and are no ACKNACK and no NACK_FRAG.
pub fn speakers_are_origins()
    ensures { laws.SpeakersAreOrigins }
{}
