ghost use Rattle.std.specs.Prelude.{◌≡◌, IfOk, filter};
ghost use Rattle.rtps_policies.specs.TopicReaders as topic_readers;

use crate::fitting::Profile;
use rtps_discovery::Side;
use rtps_ids::Memory;
use std::alloc::Global;

/// The readers among profiles, sorted by topic. Readers of one topic stay in their order.
pub(crate) fn readers_by_topic<'a>(
    alloc: Global,
    profiles: &[Profile<'a>],
) -> Result<Vec<Profile<'a>>, Memory>
    ensures sorted { IfOk result (λ readers. topic_readers.AreByTopic readers.items) }
    ensures stable { IfOk result (λ readers. topic_readers.KeepsTopics (topic_readers.readers_among profiles.now) readers.items) }
{
    let mut readers = readers_among(alloc, profiles)?;
    readers.sort_by_key(|reader| reader.endpoint.topic)?;
    Ok(readers)
}

/// The readers among profiles.
fn readers_among<'a>(alloc: Global, profiles: &[Profile<'a>]) -> Result<Vec<Profile<'a>>, Memory>
    ensures { IfOk result (λ readers. readers.items ≡ topic_readers.readers_among profiles.now) }
{
    let mut readers = Vec::new(alloc);
    for profile in profiles {
        if profile.endpoint.side == Side::Reader {
            readers.push(*profile)?;
        }
    }
    Ok(readers)
}

/// The readers of a topic, among readers that are sorted by topic.
pub(crate) fn readers_of<'r, 'a>(readers: &'r [Profile<'a>], topic: &[u8]) -> &'r [Profile<'a>]
    requires { topic_readers.AreByTopic readers.now }
    ensures { result.now ≡ filter (topic_readers.has_topic topic.now) readers.now }
{
    let start = readers.partition_point(|reader| reader.endpoint.topic.cmp(&topic).is_lt());
    let behind = &readers[start..];
    let end = behind.partition_point(|reader| reader.endpoint.topic.cmp(&topic).is_le());
    &behind[..end]
}
