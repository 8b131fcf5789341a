//! What a recording has of the numbers of one built-in writer of endpoints: where it sends them, and who asks for them and acknowledges them.

ghost use Rattle.std.specs.Prelude.{◌≡◌, ◌++◌, ◌∷◌, ◌||◌, ◌&&◌, [], true, List, OnOk};
ghost use Rattle.std.specs.BTreeSet.{contains};
ghost use Rattle.rtps_ids.specs.declared.identity.Guid.{Guid as GuidValue};
ghost use Rattle.rtps_ids.specs.declared.identity.GuidPrefix.{GuidPrefix as GuidPrefixValue};
ghost use Rattle.rtps_receiver.specs.Speech as speech;
ghost use Rattle.rtps_receiver.specs.Values as values;
ghost use Rattle.rtps_known.specs.Bulletins as bulletins;
ghost use Rattle.rtps_known.specs.Learning as learning;
ghost use Rattle.rtps_known.specs.Places as places;
ghost use Rattle.rtps_known.specs.Spreads as spreads;

use crate::asking::{base, note_asked, window};
use crate::place::Place;
use crate::sending::{Hearing, Sending, again_of, first_sent, hearing_in, note_again, note_sent};
use rtps_ids::{GuidPrefix, Memory};
use rtps_receiver::Spoken;
use std::alloc::Global;
use std::collections::{BTreeMap, BTreeSet};

/// What the acts about a built-in writer of endpoints tell of its numbers. What is sent or asked for again and again is kept once.
#[derive(Drop)]
pub(crate) struct Spread {
    /// Where a number is sent first to a participant, before it is sent to everyone, or to everyone.
    pub(crate) sent: BTreeMap<Sending, Place>,
    /// Of a number that a participant asks for, though it was sent it, and has not acknowledged: where it is sent it first behind where it asks
    /// for it last, before it acknowledges it.
    pub(crate) again: BTreeMap<Sending, Option<Place>>,
    /// Who asks for numbers.
    pub(crate) askers: BTreeSet<GuidPrefix>,
    /// The greatest base of a participant.
    pub(crate) bases: BTreeMap<GuidPrefix, u64>,
    /// Where a participant acknowledges a number first.
    pub(crate) firsts: BTreeMap<GuidPrefix, Place>,
}

impl Spread {
    /// That of no acts. It takes no memory.
    pub(crate) fn new(alloc: Global) -> Spread
        ensures { (writer : GuidValue) → spreads.IsSpreadOf writer [] result }
    {
        Spread {
            sent: BTreeMap::new(alloc),
            again: BTreeMap::new(alloc),
            askers: BTreeSet::new(alloc),
            bases: BTreeMap::new(alloc),
            firsts: BTreeMap::new(alloc),
        }
    }

    /// Keeps an act about the writer, the next one, if it tells something new. After `Memory` it is of no use.
    pub(crate) fn note(&mut self, act: &Spoken<'_>, place: Place) -> Result<(), Memory>
        ensures { OnOk result ((writer : GuidValue) (acts : List places.PlacedAct) → learning.is_about writer (values.spoken_value act.now) ≡ true → spreads.IsSpreadOf writer acts self.old
            → spreads.IsSpreadOf writer (acts ++ (record { act = values.spoken_value act.now; place = place }) ∷ []) self.new) }
    {
        self.note_answer(act, place)?;
        let Some(hearing) = hearing_in(act, place) else {
            return Ok(());
        };
        self.note_hearing(hearing)?;
        Ok(())
    }

    /// Keeps what an act asks for and acknowledges. After `Memory` it is of no use.
    fn note_answer(&mut self, act: &Spoken<'_>, place: Place) -> Result<(), Memory>
        ensures { OnOk result (spreads.AnswerIsKept self.old self.new (record { act = values.spoken_value act.now; place = place })) }
    {
        let acknowledged = base(act);
        note_base(&mut self.bases, act.source, acknowledged)?;
        note_first(&mut self.firsts, act.source, acknowledged > 1, place)?;
        let asked = window(act);
        insert_if(&mut self.askers, act.source, asked.lo < asked.hi)?;
        note_asked(&mut self.again, &self.sent, &self.bases, act)?;
        Ok(())
    }

    /// Keeps that a number is sent. After `Memory` it is of no use.
    fn note_hearing(&mut self, hearing: Hearing) -> Result<(), Memory>
        ensures { OnOk result (spreads.HearingIsKept self.old self.new hearing) }
    {
        note_again(&mut self.again, &self.askers, &self.bases, hearing);
        note_sent(&mut self.sent, hearing)?;
        Ok(())
    }

    /// Where a participant learned of a number.
    pub(crate) fn learned(&self, prefix: GuidPrefix, number: u64) -> Option<Place>
        ensures { (writer : GuidValue) (acts : List places.PlacedAct) → spreads.IsSpreadOf writer acts self.now → result ≡ learning.learned (spreads.inquiry_of writer prefix number) acts }
    {
        again_of(&self.again, prefix, number).or(first_sent(&self.sent, prefix, number))
    }
}

/// Inserts a participant where a condition holds. After `Memory` the participants are of no use.
pub(crate) fn insert_if(
    prefixes: &mut BTreeSet<GuidPrefix>,
    prefix: GuidPrefix,
    holds: bool,
) -> Result<(), Memory>
    ensures { OnOk result ((other : GuidPrefixValue) → contains bulletins.prefix_cmp prefixes.new other ≡ (contains bulletins.prefix_cmp prefixes.old other || (speech.is_prefix other prefix && holds))) }
{
    if holds {
        prefixes.insert(prefix)?;
    }
    Ok(())
}

/// Keeps the base of a participant, unless a greater one is kept. After `Memory` it is of no use.
fn note_base(
    bases: &mut BTreeMap<GuidPrefix, u64>,
    source: GuidPrefix,
    base: u64,
) -> Result<(), Memory>
    ensures { OnOk result (spreads.keeps_base bases.old bases.new source base) }
{
    if let Some(kept) = bases.get_mut(&source) {
        *kept = (*kept).max(base);
        return Ok(());
    }
    bases.insert(source, base)?;
    Ok(())
}

/// Keeps a place of a participant where a condition holds, unless one is kept. After `Memory` nothing has changed.
fn note_first(
    firsts: &mut BTreeMap<GuidPrefix, Place>,
    source: GuidPrefix,
    holds: bool,
    place: Place,
) -> Result<(), Memory>
    ensures { OnOk result (spreads.keeps_first firsts.old firsts.new source holds place) }
{
    if !holds {
        return Ok(());
    }
    if !firsts.contains_key(&source) {
        firsts.insert(source, place)?;
    }
    Ok(())
}
