ghost use Rattle.std.specs.Prelude.{◌≡◌, ◌++◌, ◌∷◌, [], IfOk, List, OnOk};
ghost use Rattle.rtps_receiver.specs.Values as values;
ghost use Rattle.rtps_known.specs.Lives as lives_spec;

use crate::layout::{entity, vendor};
use rtps_ids::{GuidPrefix, Memory, Stamp, Vendor};
use rtps_receiver::{ActBody, Spoken, SpokenBody};
use std::alloc::Global;
use std::collections::BTreeMap;

/// A participant of which two lives have one GUID: a number of the writer that announces it has two source times.
#[derive(Clone, Copy)]
pub struct Life {
    pub participant: GuidPrefix,
    pub number: u64,
    /// The first source time of the number, and the first other one.
    pub sent: (Stamp, Stamp),
}

/// A number of the writer that announces a participant.
#[derive(Clone, Copy, PartialEq, Eq, PartialOrd, Ord)]
pub(crate) struct Birth {
    pub(crate) participant: GuidPrefix,
    pub(crate) number: u64,
}

/// The first source time of a number, and the first other one.
#[derive(Clone, Copy)]
pub(crate) struct Sent {
    pub(crate) first: Stamp,
    pub(crate) other: Option<Stamp>,
}

/// Whether it was tried that two source times are two lives.
fn is_tried(one: Vendor) -> bool
    ensures { result ≡ lives_spec.is_tried one }
{
    one == vendor::CYCLONE || one == vendor::FAST
}

/// The number of the writer that announces participants that an act sends, and its source time.
fn birth_told(act: &Spoken<'_>) -> Option<(Birth, Stamp)>
    ensures { result ≡ lives_spec.birth_in (values.spoken_value act.now) }
{
    let SpokenBody::Act(ActBody::Data(data)) = &act.body else {
        return None;
    };
    if data.writer != entity::PARTICIPANTS || !is_tried(act.vendor) {
        return None;
    }
    let birth = Birth {
        participant: act.source,
        number: data.number.get().cast_unsigned(),
    };
    Some((birth, act.stamp?))
}

/// The source times of a number with one more.
fn with_stamp(sent: Option<Sent>, stamp: Stamp) -> Sent
    ensures { result ≡ lives_spec.sent_with sent stamp }
{
    let Some(sent) = sent else {
        return Sent {
            first: stamp,
            other: None,
        };
    };
    if sent.other.is_some() || sent.first == stamp {
        return sent;
    }
    Sent {
        first: sent.first,
        other: Some(stamp),
    }
}

/// Keeps the source time of an act that announces a participant. After `Memory` it is of no use.
pub(crate) fn note_birth(births: &mut BTreeMap<Birth, Sent>, act: &Spoken<'_>) -> Result<(), Memory>
    ensures { OnOk result ((acts : List values.ActValue) → lives_spec.AreBirthsOf acts births.old.entries
        → lives_spec.AreBirthsOf (acts ++ values.spoken_value act.now ∷ []) births.new.entries) }
{
    let Some((birth, stamp)) = birth_told(act) else {
        return Ok(());
    };
    let kept = births.get(&birth).copied();
    let sent = with_stamp(kept, stamp);
    births.insert(birth, sent)?;
    Ok(())
}

/// The life that a number with two source times shows.
fn life_of(birth: Birth, sent: Sent) -> Option<Life>
    ensures { result ≡ lives_spec.life_by (birth, sent) }
{
    let sent = (sent.first, sent.other?);
    Some(Life {
        participant: birth.participant,
        number: birth.number,
        sent,
    })
}

/// The lives that numbers with two source times show, by participant and then by number.
pub(crate) fn lives_among(
    alloc: Global,
    births: &BTreeMap<Birth, Sent>,
) -> Result<Vec<Life>, Memory>
    ensures { IfOk result (λ lives. (acts : List values.ActValue) → lives_spec.AreBirthsOf acts births.now.entries → lives_spec.AreLivesOf acts lives.items) }
{
    let mut lives = Vec::new(alloc);
    for (birth, sent) in births.iter() {
        if let Some(life) = life_of(*birth, *sent) {
            lives.push(life)?;
        }
    }
    Ok(lives)
}
