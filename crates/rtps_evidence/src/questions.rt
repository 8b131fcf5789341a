ghost use Rattle.std.specs.Prelude.{◌≡◌, ◌+◌, ◌<◌, ◌^◌, ◌++◌, ◌∷◌, [], length, List, Option, None};
ghost use Rattle.std.specs.List.{last_or};
ghost use Rattle.std.specs.Option.{option_map};
ghost use Rattle.rtps_ids.specs.declared.identity.Guid.{Guid as GuidValue};
ghost use Rattle.rtps_receiver.specs.Values as values;
ghost use Rattle.rtps_audit.specs.Placed as placed_spec;
ghost use Rattle.rtps_evidence.specs.declared.location.Location.{Location as Place};
ghost use Rattle.rtps_evidence.specs.Questions as questions;

use crate::location::{Location, is_behind, location_of};
use rtps_audit::{Answer, Placed};
use rtps_discovery::Pair;
use rtps_receiver::{ActBody, SpokenBody};

/// HEARTBEATs that ask for an answer, behind the last one, as far as a recording has come.
#[derive(Clone, Copy)]
pub(crate) struct Questions {
    /// Where the last answer stands; None where there is none.
    since: Option<Location>,
    pub(crate) count: u64,
    /// Where the first of them stands.
    pub(crate) first: Option<Location>,
    /// Where the last of them stands.
    pub(crate) last: Option<Location>,
}

/// Whether an act is a HEARTBEAT that asks for an answer.
fn is_question(body: &SpokenBody<'_>) -> bool
    ensures { result ≡ questions.is_question (values.spoken_body_value body.now) }
{
    match body {
        SpokenBody::Act(ActBody::Heartbeat(heartbeat)) => !heartbeat.is_final,
        SpokenBody::Act(ActBody::Data(_)) => false,
        SpokenBody::Act(ActBody::AckNack(_)) | SpokenBody::NackFrag(_) => false,
        SpokenBody::Act(ActBody::Gap(_)) => false,
        SpokenBody::DataFrag(_) => false,
    }
}

/// Whether the pair's writer asks its reader by an act, behind a place.
pub(crate) fn asks_behind(placed: &Placed<'_>, pair: Pair, place: Option<Location>) -> bool
    ensures { result ≡ questions.questions_behind place pair.writer pair.reader (placed_spec.placed_value placed.now) }
{
    is_question(&placed.act.body)
        && is_behind(place, placed)
        && placed.act.spoken_by(pair.writer)
        && placed.act.heard_by(pair.reader)
}

/// Where an answer stands.
pub(crate) fn place_of(answer: &Answer) -> Location
    ensures { result ≡ questions.place_of answer.now }
{
    Location {
        datagram: answer.datagram as u64,
        at: answer.at,
    }
}

/// Where the last of these answers stands.
fn last_place(answers: &[Answer]) -> Option<Location>
    ensures { result ≡ option_map questions.place_of (last_or None answers.now) }
{
    let mut last = None;
    for answer in answers {
        last = Some(place_of(answer));
    }
    last
}

impl Questions {
    /// None was asked, where these are the answers.
    pub(crate) fn behind(answers: &[Answer]) -> Questions
        ensures { (writer reader : GuidValue) → questions.AreAsked (option_map questions.place_of (last_or None answers.now)) writer reader [] result }
    {
        Questions {
            since: last_place(answers),
            count: 0,
            first: None,
            last: None,
        }
    }

    /// Is told an act more of the writer.
    pub(crate) fn hear(&mut self, placed: &Placed<'_>, pair: Pair)
        ensures { (place : Option Place) (acts : List placed_spec.PlacedValue) → length acts + 1 < 2 ^ 64 → questions.AreAsked place pair.writer pair.reader acts self.old
            → questions.AreAsked place pair.writer pair.reader (acts ++ placed_spec.placed_value placed.now ∷ []) self.new }
    {
        if !asks_behind(placed, pair, self.since) {
            return;
        }
        let place = location_of(placed);
        *self = Questions {
            since: self.since,
            count: self.count.saturating_add(1),
            first: Some(self.first.unwrap_or(place)),
            last: Some(place),
        };
    }
}
