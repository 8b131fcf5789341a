ghost use Rattle.std.specs.Prelude.{ℕ, ◌≡◌, ◌++◌, ◌∷◌, ◌&&◌, ◌||◌, [], Bool, List, OnOk, nat_lt, unwrap_or};
ghost use Rattle.std.specs.BTreeMap.{get};
ghost use Rattle.std.specs.List.{list_any};
ghost use Rattle.rtps_ids.specs.declared.identity.GuidPrefix.{GuidPrefix as GuidPrefixValue};
ghost use Rattle.rtps_receiver.specs.Speech as speech;
ghost use Rattle.rtps_receiver.specs.Values as values;
ghost use Rattle.rtps_known.specs.Bulletins as bulletins;
ghost use Rattle.rtps_known.specs.Tellings as tellings;
ghost use Rattle.rtps_known.specs.declared.telling.Announcement.{Announcement as AnnouncementValue};

use crate::telling::{
    Announcement, Telling, acknowledged, number_announced, number_ended, numbers_told,
};
use rtps_ids::{GuidPrefix, Memory};
use rtps_receiver::Spoken;
use std::alloc::Global;
use std::collections::{BTreeMap, BTreeSet};

/// What a recording has of a built-in writer of endpoints.
#[derive(Drop)]
pub(crate) struct Bulletin {
    /// What it tells, and when it does so first, in nanoseconds.
    pub(crate) told: BTreeMap<Telling, u64>,
    /// The numbers that say that an endpoint ends.
    pub(crate) ended: BTreeSet<u64>,
    /// The endpoints that its numbers announce.
    pub(crate) announced: BTreeSet<Announcement>,
    /// The greatest base of a participant that acknowledges something.
    pub(crate) bases: BTreeMap<GuidPrefix, u64>,
}

impl Bulletin {
    /// That of no acts. It takes no memory.
    pub(crate) fn new(alloc: Global) -> Bulletin
        ensures { bulletins.IsBulletinOf [] result }
    {
        Bulletin {
            told: BTreeMap::new(alloc),
            ended: BTreeSet::new(alloc),
            announced: BTreeSet::new(alloc),
            bases: BTreeMap::new(alloc),
        }
    }

    /// Keeps what an act about the writer says, and when its datagram came. After `Memory` it is of no use.
    pub(crate) fn note(&mut self, act: &Spoken<'_>, time: Option<u64>) -> Result<(), Memory>
        ensures { OnOk result ((acts : List tellings.TimedAct) → bulletins.IsBulletinOf acts self.old
            → bulletins.IsBulletinOf (acts ++ (record { act = values.spoken_value act.now; time = time }) ∷ []) self.new) }
    {
        note_told(&mut self.told, act, time)?;
        note_ended(&mut self.ended, act)?;
        note_announced(&mut self.announced, act)?;
        note_base(&mut self.bases, act)?;
        Ok(())
    }

    /// The greatest base of a participant; 0 where it acknowledges nothing.
    pub(crate) fn base(&self, prefix: GuidPrefix) -> u64
        ensures { result ≡ bulletins.base_by self.now prefix }
    {
        match self.bases.get(&prefix) {
            Some(base) => *base,
            None => 0,
        }
    }
}

/// Keeps when an act tells numbers. After `Memory` it is of no use.
fn note_told(
    told: &mut BTreeMap<Telling, u64>,
    act: &Spoken<'_>,
    time: Option<u64>,
) -> Result<(), Memory>
    ensures { OnOk result ((acts : List tellings.TimedAct) → bulletins.AreToldBy acts told.old.entries
        → bulletins.AreToldBy (acts ++ (record { act = values.spoken_value act.now; time = time }) ∷ []) told.new.entries) }
{
    let Some(time) = time else {
        return Ok(());
    };
    let numbers = numbers_told(act);
    let telling = Telling {
        dest: act.dest,
        lo: numbers.lo,
        hi: numbers.hi,
    };
    keep_least(told, telling, time)?;
    Ok(())
}

/// Keeps a time of a telling, unless there is an earlier one. After `Memory` it is of no use.
fn keep_least(told: &mut BTreeMap<Telling, u64>, telling: Telling, time: u64) -> Result<(), Memory>
    ensures { OnOk result ((prefix : GuidPrefixValue) (end n : ℕ) → list_any (bulletins.reaches prefix end n) told.new.entries
        ≡ (list_any (bulletins.reaches prefix end n) told.old.entries || bulletins.reaches prefix end n (telling, time))) }
{
    if let Some(kept) = told.get_mut(&telling) {
        *kept = (*kept).min(time);
        return Ok(());
    }
    told.insert(telling, time)?;
    Ok(())
}

/// Keeps the number that says that an endpoint ends. After `Memory` it is of no use.
fn note_ended(ended: &mut BTreeSet<u64>, act: &Spoken<'_>) -> Result<(), Memory>
    ensures { OnOk result ((test : ℕ → Bool) → list_any test ended.new.keys
        ≡ (list_any test ended.old.keys || tellings.holds test (tellings.number_ended (values.spoken_value act.now).body))) }
{
    let Some(number) = number_ended(act) else {
        return Ok(());
    };
    ended.insert(number)?;
    Ok(())
}

/// Keeps the endpoint that an act announces. After `Memory` it is of no use.
fn note_announced(announced: &mut BTreeSet<Announcement>, act: &Spoken<'_>) -> Result<(), Memory>
    ensures { OnOk result ((test : AnnouncementValue → Bool) → list_any test announced.new.keys
        ≡ (list_any test announced.old.keys || tellings.holds test (tellings.announcement_in (values.spoken_value act.now)))) }
{
    let Some(one) = number_announced(act) else {
        return Ok(());
    };
    announced.insert(one)?;
    Ok(())
}

/// Keeps the base that an act acknowledges, unless a greater one is kept. After `Memory` it is of no use.
fn note_base(bases: &mut BTreeMap<GuidPrefix, u64>, act: &Spoken<'_>) -> Result<(), Memory>
    ensures { OnOk result ((prefix : GuidPrefixValue) (n : ℕ) → nat_lt n (unwrap_or (get bulletins.prefix_cmp bases.new prefix) 0)
        ≡ (nat_lt n (unwrap_or (get bulletins.prefix_cmp bases.old prefix) 0)
        || (speech.is_prefix act.now.source prefix && tellings.holds (λ one. nat_lt n one.base) (tellings.acknowledgement_in (values.spoken_value act.now))))) }
{
    let Some(told) = acknowledged(act) else {
        return Ok(());
    };
    if let Some(base) = bases.get_mut(&act.source) {
        *base = (*base).max(told.base);
        return Ok(());
    }
    bases.insert(act.source, told.base)?;
    Ok(())
}
