//! Which numbers of a built-in writer of endpoints a participant was told and never acknowledged.

ghost use Rattle.std.specs.Prelude.{ℕ, ◌≡◌, ◌-◌, ◌≤◌, ◌<◌, ◌&&◌, ◌||◌, IfOk, List, OnOk, nat_eq, not};
ghost use Rattle.std.specs.BTreeSet.{contains};
ghost use Rattle.std.specs.List.{list_any};
ghost use Rattle.std.specs.List.Sorted.{IsStrictlySortedBy};
ghost use Rattle.rtps_coverage.specs.Counts as counts;
ghost use Rattle.rtps_coverage.specs.Stretches as stretches_spec;
ghost use Rattle.rtps_ids.specs.declared.identity.Guid.{Guid as GuidValue};
ghost use Rattle.rtps_discovery.specs.GuidOrder as guid_order;
ghost use Rattle.rtps_known.specs.Bulletins as bulletins;
ghost use Rattle.rtps_known.specs.Lacking as lacking_spec;
ghost use Rattle.rtps_known.specs.Tellings as tellings;

use crate::bulletin::Bulletin;
use crate::layout::END;
use crate::telling::{Announcement, Telling};
use rtps_coverage::Stretch;
use rtps_coverage::stretches::{count_of, in_order};
use rtps_ids::{Guid, GuidPrefix, Memory};
use std::alloc::Global;
use std::collections::BTreeSet;

/// What a participant lacks of the endpoints that a built-in writer announces.
#[derive(Drop)]
pub(crate) struct Lacking {
    /// Those that the recording names, in order.
    pub(crate) endpoints: Vec<Guid>,
    /// How many numbers it does not name.
    pub(crate) unnamed: u64,
}

/// Whether a telling is for a participant.
fn is_for(telling: &Telling, prefix: GuidPrefix) -> bool
    ensures { result ≡ tellings.is_to telling.now.dest prefix }
{
    match telling.dest {
        Some(dest) => dest == prefix,
        None => true,
    }
}

/// Whether one of these stretches has a number.
fn have(stretches: &[Stretch], number: u64) -> bool
    ensures { result ≡ stretches_spec.stretches_have stretches.now number }
{
    stretches
        .iter()
        .any(|stretch| stretch.lo <= number && number < stretch.hi)
}

/// A number as a stretch.
fn of_one(number: u64) -> Stretch
    ensures { (n : ℕ) → n < END → stretches_spec.stretch_has n result ≡ nat_eq n number }
{
    Stretch {
        lo: number,
        hi: number.saturating_add(1),
    }
}

/// Inserts an endpoint where a condition holds. After `Memory` the endpoints are of no use.
fn insert_if(endpoints: &mut BTreeSet<Guid>, endpoint: Guid, holds: bool) -> Result<(), Memory>
    ensures { OnOk result ((guid : GuidValue) → contains guid_order.guid_cmp endpoints.new guid ≡ (contains guid_order.guid_cmp endpoints.old guid || (tellings.is_guid guid endpoint && holds))) }
{
    if holds {
        endpoints.insert(endpoint)?;
    }
    Ok(())
}

/// These endpoints, in order.
fn listed(alloc: Global, endpoints: &BTreeSet<Guid>) -> Result<Vec<Guid>, Memory>
    ensures items { IfOk result (λ listed. listed.items ≡ endpoints.now.keys) }
    ensures ordered { IfOk result (λ listed. IsStrictlySortedBy guid_order.guid_cmp listed.items) }
{
    let mut listed = Vec::new(alloc);
    for endpoint in endpoints.iter() {
        listed.push(*endpoint)?;
    }
    Ok(listed)
}

/// Appends stretches. After `Memory` they are of no use.
fn append(stretches: &mut Vec<Stretch>, more: &[Stretch]) -> Result<(), Memory>
    ensures { OnOk result ((n : ℕ) → stretches_spec.stretches_have stretches.new.items n ≡ (stretches_spec.stretches_have stretches.old.items n || stretches_spec.stretches_have more.now n)) }
{
    for stretch in more {
        stretches.push(*stretch)?;
    }
    Ok(())
}

/// Appends a stretch, if there is one. After `Memory` the stretches are of no use.
fn push_some(stretches: &mut Vec<Stretch>, stretch: Option<Stretch>) -> Result<(), Memory>
    ensures { OnOk result ((n : ℕ) → stretches_spec.stretches_have stretches.new.items n ≡ (stretches_spec.stretches_have stretches.old.items n || tellings.holds (stretches_spec.stretch_has n) stretch)) }
{
    if let Some(stretch) = stretch {
        stretches.push(stretch)?;
    }
    Ok(())
}

/// The numbers of a telling that is for a participant, and not later than a time.
fn told_until(telling: &Telling, time: u64, prefix: GuidPrefix, end: u64) -> Option<Stretch>
    ensures { (n : ℕ) → tellings.holds (stretches_spec.stretch_has n) result ≡ bulletins.reaches prefix end n (telling.now, time) }
{
    if time > end || !is_for(telling, prefix) {
        return None;
    }
    Some(Stretch {
        lo: telling.lo,
        hi: telling.hi,
    })
}

impl Bulletin {
    /// The numbers that are told to a participant up to a time, in order.
    fn told_to(&self, alloc: Global, prefix: GuidPrefix, end: u64) -> Result<Vec<Stretch>, Memory>
        ensures { IfOk result (λ told. (n : ℕ) → stretches_spec.stretches_have told.items n ≡ list_any (bulletins.reaches prefix end n) self.now.told.entries) }
    {
        let mut told = Vec::new(alloc);
        for (telling, time) in self.told.iter() {
            let stretch = told_until(telling, *time, prefix, end);
            push_some(&mut told, stretch)?;
        }
        let told = in_order(alloc, &mut told)?;
        Ok(told)
    }

    /// Whether a number is told, is not below a base, and ends nothing.
    fn is_still(&self, told: &[Stretch], base: u64, number: u64) -> bool
        ensures { result ≡ lacking_spec.is_still told.now self.now base number }
    {
        base <= number && have(told, number) && !self.ended.contains(&number)
    }

    /// The endpoints that such numbers announce.
    fn endpoints_among(
        &self,
        alloc: Global,
        told: &[Stretch],
        base: u64,
    ) -> Result<BTreeSet<Guid>, Memory>
        ensures { IfOk result (λ endpoints. (guid : GuidValue) → contains guid_order.guid_cmp endpoints guid ≡ list_any (lacking_spec.is_listed told.now self.now base guid) self.now.announced.keys) }
    {
        let mut endpoints = BTreeSet::new(alloc);
        for announcement in self.announced.iter() {
            let still = self.is_still(told, base, announcement.number);
            insert_if(&mut endpoints, announcement.endpoint, still)?;
        }
        Ok(endpoints)
    }

    /// The numbers that announce an endpoint, or say that one ends.
    fn numbers_marked(&self, alloc: Global) -> Result<Vec<Stretch>, Memory>
        ensures { IfOk result (λ marked. (n : ℕ) → n < END → stretches_spec.stretches_have marked.items n ≡ lacking_spec.is_marked self.now n) }
    {
        let mut marked = Vec::new(alloc);
        mark_announced(&mut marked, &self.announced)?;
        mark_ended(&mut marked, &self.ended)?;
        Ok(marked)
    }

    /// What a participant lacks of what it is told up to a time.
    pub(crate) fn lacking(
        &self,
        alloc: Global,
        prefix: GuidPrefix,
        end: u64,
    ) -> Result<Lacking, Memory>
        ensures lacking { IfOk result (λ lacking. (acts : List tellings.TimedAct) → bulletins.IsBulletinOf acts self.now → lacking_spec.IsLackingOf acts prefix end lacking) }
        ensures bounded { IfOk result (λ lacking. lacking.unnamed < END) }
    {
        let base = self.base(prefix);
        let told = self.told_to(alloc, prefix, end)?;
        let found = self.endpoints_among(alloc, &told, base)?;
        let mut marked = self.numbers_marked(alloc)?;
        let from = base.max(1).min(END);
        let unnamed = count_others(&mut marked, &told, from)?;
        let endpoints = listed(alloc, &found)?;
        Ok(Lacking { endpoints, unnamed })
    }
}

/// Appends the numbers that announce an endpoint. After `Memory` the stretches are of no use.
fn mark_announced(
    marked: &mut Vec<Stretch>,
    announced: &BTreeSet<Announcement>,
) -> Result<(), Memory>
    ensures { OnOk result ((n : ℕ) → n < END → stretches_spec.stretches_have marked.new.items n
        ≡ (stretches_spec.stretches_have marked.old.items n || list_any (λ announcement. nat_eq n announcement.number) announced.now.keys)) }
{
    for announcement in announced.iter() {
        marked.push(of_one(announcement.number))?;
    }
    Ok(())
}

/// Appends the numbers that say that an endpoint ends. After `Memory` the stretches are of no use.
fn mark_ended(marked: &mut Vec<Stretch>, ended: &BTreeSet<u64>) -> Result<(), Memory>
    ensures { OnOk result ((n : ℕ) → n < END → stretches_spec.stretches_have marked.new.items n ≡ (stretches_spec.stretches_have marked.old.items n || list_any (nat_eq n) ended.now.keys)) }
{
    for number in ended.iter() {
        marked.push(of_one(*number))?;
    }
    Ok(())
}

/// How many numbers from `from` on stretches have that others do not have. The others are of no use behind it.
fn count_others(others: &mut Vec<Stretch>, stretches: &[Stretch], from: u64) -> Result<u64, Memory>
    requires { from ≤ END }
    ensures count { IfOk result (λ count. count ≡ counts.count_in (λ n. stretches_spec.stretches_have stretches.now n && not (stretches_spec.stretches_have others.old.items n)) from END) }
    ensures bounded { IfOk result (λ count. count ≤ END - from) }
{
    let before = count_of(others, from, END)?;
    append(others, stretches)?;
    let all = count_of(others, from, END)?;
    Ok(all - before)
}
