ghost use Rattle.std.specs.Prelude.{◌≡◌};
ghost use Rattle.std.specs.Option.{option_map};
ghost use Rattle.rtps_discovery.specs.Notice as notice_spec;
ghost use Rattle.rtps_receiver.specs.Values as values;

use crate::endpoint::Side;
use crate::fault::NoticeFault;
use crate::layout::entity;
use rtps_ids::EntityId;
use rtps_receiver::{ActBody, Spoken, SpokenBody};
use rtps_wire::Payload;

/// What a directory did with an act.
#[derive(Clone, Copy, PartialEq, Eq, Debug)]
pub enum Noted {
    /// The act announces nothing.
    Nothing,
    /// Its announcement is kept.
    Kept,
    /// It is an announcement with this fault, and nothing is kept of it.
    Fault(NoticeFault),
}

/// What an announcement is about.
#[derive(Clone, Copy)]
pub(crate) enum Subject {
    Participant,
    Endpoint(Side),
}

/// What an act announces, and the payload that does so. None if it is no announcement.
pub(crate) fn notice<'a>(act: &Spoken<'a>) -> Option<(Subject, &'a [u8])>
    ensures { option_map (λ notice. (notice.0, notice.1.now)) result ≡ notice_spec.notice_in (values.spoken_value act.now).body }
{
    let SpokenBody::Act(ActBody::Data(data)) = &act.body else {
        return None;
    };
    let subject = subject_of(data.writer)?;
    let Payload::Whole(payload) = &data.payload else {
        return None;
    };
    Some((subject, *payload))
}

/// What this built-in writer announces. The last octet is compared first, since most writers differ in it.
#[tactic(auto, using(crate::proofs::OtherWriters::of_another_kind))]
pub(crate) fn subject_of(writer: EntityId) -> Option<Subject>
    ensures { result ≡ notice_spec.subject_of writer }
{
    let EntityId([.., kind]) = writer;
    if kind != entity::KIND {
        None
    } else if writer == entity::PARTICIPANTS {
        Some(Subject::Participant)
    } else if writer == entity::PUBLICATIONS {
        Some(Subject::Endpoint(Side::Writer))
    } else if writer == entity::SUBSCRIPTIONS {
        Some(Subject::Endpoint(Side::Reader))
    } else {
        None
    }
}
