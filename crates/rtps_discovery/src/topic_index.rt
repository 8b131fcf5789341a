ghost use Rattle.std.specs.Prelude.{◌≡◌, ◌++◌, IfOk, OnOk, filter, map};
ghost use Rattle.rtps_discovery.specs.Endpoint as endpoint;
ghost use Rattle.rtps_discovery.specs.Matching as matching;
ghost use Rattle.rtps_discovery.specs.TopicIndex as topic_index;

use crate::endpoint::{Endpoint, Side};
use crate::matching::{Match, match_of, matches};
use crate::offers::{offer_of, readers_by_offer};
use rtps_ids::Memory;
use std::alloc::Global;

/// The matches among endpoints, writer by writer. A writer is compared only with the readers of its topic and its type
/// that ask for no more than it offers.
pub(crate) fn matches_among(alloc: Global, endpoints: &[Endpoint<'_>]) -> Result<Vec<Match>, Memory>
    ensures { IfOk result (λ found. found.items ≡ matching.matches_among (map endpoint.endpoint_value endpoints.now)) }
{
    let readers = readers_by_topic(alloc, endpoints)?;
    let by_offer = readers_by_offer(alloc, endpoints, &readers)?;
    let mut found = Vec::new(alloc);
    for writer in endpoints {
        if writer.side == Side::Writer {
            let of_topic = readers_of(&by_offer[offer_of(writer)], writer.topic);
            push_matches(&mut found, writer, of_one_type(of_topic, writer.type_name))?;
        }
    }
    Ok(found)
}

/// The readers among endpoints, sorted by topic and then by type. Readers of one topic and one type stay in their
/// order.
fn readers_by_topic<'a>(
    alloc: Global,
    endpoints: &[Endpoint<'a>],
) -> Result<Vec<Endpoint<'a>>, Memory>
    ensures sorted { IfOk result (λ readers. topic_index.IsByTopic readers.items) }
    ensures typed { IfOk result (λ readers. topic_index.IsByTypeInTopics readers.items) }
    ensures stable { IfOk result (λ readers. topic_index.KeepsTypes (topic_index.readers_among endpoints.now) readers.items) }
{
    let mut readers = readers_among(alloc, endpoints)?;
    readers.sort_by_key(|reader| reader.type_name)?;
    readers.sort_by_key(|reader| reader.topic)?;
    Ok(readers)
}

/// The readers among endpoints.
fn readers_among<'a>(alloc: Global, endpoints: &[Endpoint<'a>]) -> Result<Vec<Endpoint<'a>>, Memory>
    ensures { IfOk result (λ readers. readers.items ≡ topic_index.readers_among endpoints.now) }
{
    let mut readers = Vec::new(alloc);
    for endpoint in endpoints {
        if endpoint.side == Side::Reader {
            readers.push(*endpoint)?;
        }
    }
    Ok(readers)
}

/// The readers of a topic, among readers that are sorted by topic.
fn readers_of<'r, 'a>(readers: &'r [Endpoint<'a>], topic: &[u8]) -> &'r [Endpoint<'a>]
    requires { topic_index.IsByTopic readers.now }
    ensures { result.now ≡ filter (topic_index.has_topic topic.now) readers.now }
{
    let start = readers.partition_point(|reader| reader.topic.cmp(&topic).is_lt());
    let behind = &readers[start..];
    let end = behind.partition_point(|reader| reader.topic.cmp(&topic).is_le());
    &behind[..end]
}

/// The readers of a type, among readers that are sorted by type.
fn of_one_type<'r, 'a>(readers: &'r [Endpoint<'a>], type_name: &[u8]) -> &'r [Endpoint<'a>]
    requires { topic_index.IsByType readers.now }
    ensures { result.now ≡ filter (topic_index.has_type type_name.now) readers.now }
{
    let start = readers.partition_point(|reader| reader.type_name.cmp(&type_name).is_lt());
    let behind = &readers[start..];
    let end = behind.partition_point(|reader| reader.type_name.cmp(&type_name).is_le());
    &behind[..end]
}

/// Adds a writer's matches among readers.
fn push_matches(
    found: &mut Vec<Match>,
    writer: &Endpoint<'_>,
    readers: &[Endpoint<'_>],
) -> Result<(), Memory>
    ensures { OnOk result (found.new.items
        ≡ found.old.items ++ matching.matches_of (endpoint.endpoint_value writer.now) (map endpoint.endpoint_value readers.now)) }
{
    for reader in readers {
        if matches(writer, reader) {
            found.push(match_of(writer, reader))?;
        }
    }
    Ok(())
}
