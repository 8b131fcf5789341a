ghost use Rattle.std.specs.Prelude.{◌≡◌, IfOk, count_by, map, sum_by};
ghost use Rattle.std.specs.List.{list_any};
ghost use Rattle.std.specs.BTreeSet.{contains};
ghost use Rattle.rtps_ids.specs.declared.identity.Guid.{Guid as GuidOf};
ghost use Rattle.rtps_audit.specs.Placed as placed;
ghost use Rattle.rtps_discovery.specs.GuidOrder as guid_order;
ghost use Rattle.rtps_report.specs.NotTold as not_told;

use crate::participant::Participant;
use crate::topics::topic_of;
use rtps_discovery::Directory;
use rtps_ids::{Guid, Memory};
use rtps_known::Untold;
use std::alloc::{AllocError, Global};
use std::collections::BTreeSet;

/// An endpoint, and its topic.
#[derive(Clone, Copy)]
pub struct TopicEnd<'a> {
    /// Empty where announcements of the endpoint disagree.
    pub topic: &'a [u8],
    pub guid: Guid,
}

/// The endpoints of a participant that another was never told of.
#[derive(Drop)]
pub struct NotTold<'a> {
    pub from: Guid,
    pub to: Guid,
    /// The writers that the recording names, by GUID.
    pub writers: Vec<TopicEnd<'a>>,
    /// The readers that it names, by GUID.
    pub readers: Vec<TopicEnd<'a>>,
    /// How many numbers announce what it does not name.
    pub unnamed: u64,
}

/// How many participants were not told of how many endpoints.
#[derive(Clone, Copy)]
pub struct NotToldCounts {
    pub participants: u64,
    /// One that two were not told of counts twice.
    pub endpoints: u128,
}

/// Endpoints with their topics.
fn with_topics<'a>(
    alloc: Global,
    directory: &Directory<'a>,
    guids: &[Guid],
) -> Result<Vec<TopicEnd<'a>>, AllocError>
    ensures { IfOk result (λ ends. map not_told.topic_end_value ends.items ≡ map (not_told.with_topic directory.now.endpoints) guids.now) }
{
    let mut ends = Vec::with_capacity(alloc, guids.len())?;
    for guid in guids {
        let topic = topic_of(directory, *guid);
        ends.push(TopicEnd { topic, guid: *guid })?;
    }
    Ok(ends)
}

/// What a participant was not told, with topics.
fn not_told_of<'a>(
    alloc: Global,
    directory: &Directory<'a>,
    untold: &Untold,
) -> Result<NotTold<'a>, AllocError>
    ensures { IfOk result (λ found. not_told.not_told_value found ≡ not_told.not_told_by directory.now.endpoints untold.now) }
{
    Ok(NotTold {
        from: untold.from,
        to: untold.to,
        writers: with_topics(alloc, directory, &untold.writers)?,
        readers: with_topics(alloc, directory, &untold.readers)?,
        unnamed: untold.unnamed,
    })
}

/// All that participants were not told, with topics.
pub(crate) fn all_not_told<'a>(
    alloc: Global,
    directory: &Directory<'a>,
    all: &[Untold],
) -> Result<Vec<NotTold<'a>>, AllocError>
    ensures { IfOk result (λ found. map not_told.not_told_value found.items ≡ map (not_told.not_told_by directory.now.endpoints) all.now) }
{
    let mut found = Vec::with_capacity(alloc, all.len())?;
    for untold in all {
        let one = not_told_of(alloc, directory, untold)?;
        found.push(one)?;
    }
    Ok(found)
}

/// Those that were not told of something.
fn those_not_told(alloc: Global, found: &[NotTold<'_>]) -> Result<BTreeSet<Guid>, Memory>
    ensures { IfOk result (λ those. (guid : GuidOf) → contains guid_order.guid_cmp those guid ≡ list_any (λ one. placed.is_guid one.to guid) (map not_told.not_told_value found.now)) }
{
    let mut those = BTreeSet::new(alloc);
    for one in found {
        those.insert(one.to)?;
    }
    Ok(those)
}

/// How many endpoints that is, as far as a `u64` counts.
fn endpoints_of(one: &NotTold<'_>) -> u64
    ensures { result ≡ not_told.endpoints_of (not_told.not_told_value one.now) }
{
    let writers = one.writers.len() as u64;
    let readers = one.readers.len() as u64;
    writers.saturating_add(readers).saturating_add(one.unnamed)
}

/// How many all of these are.
fn endpoints_among(found: &[NotTold<'_>]) -> u128
    ensures { result ≡ sum_by not_told.endpoints_of (map not_told.not_told_value found.now) }
{
    let mut endpoints: u128 = 0;
    for one in found {
        endpoints += u128::from(endpoints_of(one));
    }
    endpoints
}

/// How many of these participants are among those.
fn count_among(participants: &[Participant], those: &BTreeSet<Guid>) -> u64
    ensures { result ≡ count_by (λ participant. contains guid_order.guid_cmp those.now participant.guid) participants.now }
{
    let mut count: u64 = 0;
    for participant in participants {
        count += u64::from(those.contains(&participant.guid));
    }
    count
}

/// How many of these participants were not told of how many endpoints. `Memory` is answered where there is none to count them.
pub(crate) fn not_told_counts(
    alloc: Global,
    participants: &[Participant],
    found: &[NotTold<'_>],
) -> Result<NotToldCounts, Memory>
    ensures { IfOk result (λ counts. counts ≡ not_told.not_told_counts participants.now (map not_told.not_told_value found.now)) }
{
    let those = those_not_told(alloc, found)?;
    Ok(NotToldCounts {
        participants: count_among(participants, &those),
        endpoints: endpoints_among(found),
    })
}

/// Whether it is of these two.
fn is_between(one: &NotTold<'_>, from: Guid, to: Guid) -> bool
    ensures { result ≡ not_told.is_between from to (not_told.not_told_value one.now) }
{
    one.from == from && one.to == to
}

/// Whether a participant was not told of something of another.
pub(crate) fn is_not_told_of(found: &[NotTold<'_>], from: Guid, to: Guid) -> bool
    ensures { result ≡ not_told.is_not_told_of (map not_told.not_told_value found.now) from to }
{
    for one in found {
        if is_between(one, from, to) {
            return true;
        }
    }
    false
}
