ghost use Rattle.std.specs.Prelude.{◌≡◌, ◌≢◌, ◌∷◌, [], ◌++◌, List, Contains, Some, None, IfOk, OnOk, OnErr, MatchBool, true, false, count_by, filter, map, not};
ghost use Rattle.std.specs.BTreeMap.{values};
ghost use Rattle.std.specs.Option.{option_map};
ghost use Rattle.rtps_ids.specs.declared.identity.Guid.{Guid};
ghost use Rattle.rtps_discovery.specs.Directory as directory;
ghost use Rattle.rtps_discovery.specs.Endpoint as endpoint_spec;
ghost use Rattle.rtps_discovery.specs.Kept as kept_spec;

use crate::endpoint::Endpoint;
use bumpalo::Bump;
use rtps_ids::{Guid, Memory};
use std::alloc::Global;
use std::collections::{BTreeMap, BTreeSet};

/// The first announcement of a GUID, and whether all behind it say the same.
#[derive(Clone, Copy)]
pub(crate) struct Kept<'a> {
    pub(crate) endpoint: Endpoint<'a>,
    pub(crate) settled: bool,
}

/// Adds a participant. One that is there already takes no memory.
pub(crate) fn keep_participant(participants: &mut BTreeSet<Guid>, guid: Guid) -> Result<(), Memory>
    ensures ok { OnOk result ((announced : List Guid)
        → directory.AreParticipants announced participants.old.keys
        → directory.AreParticipants (announced ++ guid ∷ []) participants.new.keys) }
    ensures err { OnErr result (participants.new.keys ≡ participants.old.keys) }
    ensures absent { OnErr result (¬ Contains participants.old.keys guid) }
{
    participants.insert(guid)?;
    Ok(())
}

/// Whether the GUID of an endpoint is there. Its announcements are unsettled from then on, where this one disagrees with them.
fn is_there(endpoints: &mut BTreeMap<Guid, Kept<'_>>, endpoint: &Endpoint<'_>) -> bool
    ensures there { result ≡ true → (announced : List endpoint_spec.EndpointValue)
        → directory.AreEntries announced (kept_spec.entries_value endpoints.old.entries)
        → directory.AreEntries (announced ++ endpoint_spec.endpoint_value endpoint.now ∷ []) (kept_spec.entries_value endpoints.new.entries) }
    ensures same { result ≡ false → endpoints.new ≡ endpoints.old }
    ensures absent { result ≡ false → directory.entry_at (kept_spec.entries_value endpoints.old.entries) endpoint.now.guid ≡ None }
{
    match endpoints.get_mut(&endpoint.guid) {
        Some(kept) => {
            if !is_same(&kept.endpoint, endpoint) {
                kept.settled = false;
            }
            true
        }
        None => false,
    }
}

/// Adds an endpoint. A GUID that is there already takes no memory.
pub(crate) fn keep_endpoint<'a>(
    endpoints: &mut BTreeMap<Guid, Kept<'a>>,
    endpoint: Endpoint<'a>,
) -> Result<(), Memory>
    ensures ok { OnOk result ((announced : List endpoint_spec.EndpointValue)
        → directory.AreEntries announced (kept_spec.entries_value endpoints.old.entries)
        → directory.AreEntries (announced ++ endpoint_spec.endpoint_value endpoint.entry ∷ []) (kept_spec.entries_value endpoints.new.entries)) }
    ensures err { OnErr result (kept_spec.entries_value endpoints.new.entries ≡ kept_spec.entries_value endpoints.old.entries) }
    ensures absent { OnErr result (directory.entry_at (kept_spec.entries_value endpoints.old.entries) endpoint.entry.guid ≡ None) }
{
    if is_there(endpoints, &endpoint) {
        return Ok(());
    }
    let kept = Kept {
        endpoint,
        settled: true,
    };
    endpoints.insert(endpoint.guid, kept)?;
    Ok(())
}

/// An endpoint with its names in an arena.
fn copied<'a>(endpoint: &Endpoint<'_>, names: &'a Bump) -> Result<Endpoint<'a>, Memory>
    ensures { IfOk result (λ copy. endpoint_spec.endpoint_value copy ≡ endpoint_spec.endpoint_value endpoint.now) }
{
    Ok(Endpoint {
        guid: endpoint.guid,
        side: endpoint.side,
        topic: names.try_alloc_slice_copy(endpoint.topic)?,
        type_name: names.try_alloc_slice_copy(endpoint.type_name)?,
        reliability: endpoint.reliability,
        durability: endpoint.durability,
    })
}

/// Adds an endpoint, whose names are copied into an arena. A GUID that is there already takes no memory.
pub(crate) fn keep_copied<'a>(
    endpoints: &mut BTreeMap<Guid, Kept<'a>>,
    endpoint: &Endpoint<'_>,
    names: &'a Bump,
) -> Result<(), Memory>
    ensures ok { OnOk result ((announced : List endpoint_spec.EndpointValue)
        → directory.AreEntries announced (kept_spec.entries_value endpoints.old.entries)
        → directory.AreEntries (announced ++ endpoint_spec.endpoint_value endpoint.now ∷ []) (kept_spec.entries_value endpoints.new.entries)) }
    ensures err { OnErr result (kept_spec.entries_value endpoints.new.entries ≡ kept_spec.entries_value endpoints.old.entries) }
    ensures absent { OnErr result (directory.entry_at (kept_spec.entries_value endpoints.old.entries) endpoint.now.guid ≡ None) }
{
    if is_there(endpoints, endpoint) {
        return Ok(());
    }
    let kept = Kept {
        endpoint: copied(endpoint, names)?,
        settled: true,
    };
    endpoints.insert(endpoint.guid, kept)?;
    Ok(())
}

/// Whether two announcements are equal in the six fields.
fn is_same(one: &Endpoint<'_>, other: &Endpoint<'_>) -> bool
    ensures { MatchBool result
        (endpoint_spec.endpoint_value one.now ≡ endpoint_spec.endpoint_value other.now)
        (endpoint_spec.endpoint_value one.now ≢ endpoint_spec.endpoint_value other.now) }
{
    one == other
}

/// The endpoints whose announcements agree.
pub(crate) fn settled<'a>(
    alloc: Global,
    endpoints: &BTreeMap<Guid, Kept<'a>>,
) -> Result<Vec<Endpoint<'a>>, Memory>
    ensures { IfOk result (λ found. found.items
        ≡ map (λ kept. kept.endpoint) (filter (λ kept. kept.settled) (values endpoints.now))) }
{
    let mut found = Vec::with_capacity(alloc, endpoints.len())?;
    push_settled(endpoints, &mut found)?;
    Ok(found)
}

/// Appends the endpoints whose announcements agree.
fn push_settled<'a>(
    endpoints: &BTreeMap<Guid, Kept<'a>>,
    found: &mut Vec<Endpoint<'a>>,
) -> Result<(), Memory>
    ensures { OnOk result (found.new.items
        ≡ found.old.items ++ map (λ kept. kept.endpoint) (filter (λ kept. kept.settled) (values endpoints.now))) }
{
    for kept in endpoints.values() {
        if !kept.settled {
            continue;
        }
        found.push(kept.endpoint)?;
    }
    Ok(())
}

/// The endpoint of a GUID, if its announcements agree.
pub(crate) fn settled_at<'a>(
    endpoints: &BTreeMap<Guid, Kept<'a>>,
    guid: Guid,
) -> Option<Endpoint<'a>>
    ensures { option_map endpoint_spec.endpoint_value result ≡ directory.agreed (directory.entry_at (kept_spec.entries_value endpoints.now.entries) guid) }
{
    match endpoints.get(&guid) {
        Some(kept) => agreed(kept),
        None => None,
    }
}

/// The endpoint of a GUID whose announcements agree.
fn agreed<'a>(kept: &Kept<'a>) -> Option<Endpoint<'a>>
    ensures { option_map endpoint_spec.endpoint_value result ≡ kept_spec.kept_value kept.now }
{
    if kept.settled {
        Some(kept.endpoint)
    } else {
        None
    }
}

/// How many GUIDs have announcements that disagree.
pub(crate) fn count_unsettled(endpoints: &BTreeMap<Guid, Kept<'_>>) -> usize
    ensures { result ≡ count_by (λ kept. not kept.settled) (values endpoints.now) }
{
    endpoints.values().filter(|kept| !kept.settled).count()
}
