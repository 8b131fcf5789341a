ghost use Rattle.std.specs.Prelude.{◌≡◌, ◌<◌, ◌≤◌, ◌∷◌, ◌-◌, IfOk, drop, length, map, slice_index_or, take};
ghost use Rattle.rtps_discovery.specs.Directory as directory_spec;
ghost use Rattle.rtps_evidence.specs.Explanation as explanation;
ghost use Rattle.rtps_evidence.specs.declared.explanation.Explanation.{Explanation as ExplanationOf};
ghost use Rattle.rtps_report.specs.ByTopic as by_topic_spec;

use rtps_discovery::Directory;
use rtps_evidence::Explanation;
use rtps_ids::Guid;
use std::alloc::{AllocError, Global};

/// The topic of a GUID's endpoint; empty where it has none.
pub(crate) fn topic_of<'a>(directory: &Directory<'a>, guid: Guid) -> &'a [u8]
    ensures { result.now ≡ explanation.topic_of (directory_spec.settled_at directory.now.endpoints guid) }
{
    match directory.endpoint(guid) {
        Some(endpoint) => endpoint.topic,
        None => &[],
    }
}

/// The rows by topic and then by type. Those of one topic and one type stay in their order.
pub fn by_topic<'a>(
    alloc: Global,
    rows: &[Explanation<'a>],
) -> Result<Vec<Explanation<'a>>, AllocError>
    ensures { IfOk result (λ sorted. by_topic_spec.AreByTopic rows.now sorted.items) }
{
    let mut sorted = Vec::from_slice(alloc, rows)?;
    sorted.sort_by_key(|row| (row.topic, row.type_name))?;
    Ok(sorted)
}

fn goes_on(rows: &[Explanation<'_>], place: usize) -> bool
    requires behind { 0 < place }
    requires within { place < length rows.now }
    ensures { (row : ExplanationOf) → result ≡ by_topic_spec.have_one_topic (explanation.explanation_value (slice_index_or rows.now (place - 1) row)) (explanation.explanation_value (slice_index_or rows.now place row)) }
{
    let (one, other) = (&rows[place - 1], &rows[place]);
    one.topic == other.topic && one.type_name == other.type_name
}

/// How many of the rows at the front are of the topic and the type of the first.
fn front_len(rows: &[Explanation<'_>]) -> usize
    requires { 0 < length rows.now }
    ensures some { 0 < result }
    ensures within { result ≤ length rows.now }
    ensures first { by_topic_spec.topics_of (map explanation.explanation_value rows.now)
        ≡ map explanation.explanation_value (take result rows.now) ∷ by_topic_spec.topics_of (map explanation.explanation_value (drop result rows.now)) }
{
    for place in 1..rows.len() {
        if !goes_on(rows, place) {
            return place;
        }
    }
    rows.len()
}

/// Rows in their order, parted where the topic or the type changes.
pub fn topics_of<'r, 'a>(
    alloc: Global,
    rows: &'r [Explanation<'a>],
) -> Result<Vec<&'r [Explanation<'a>]>, AllocError>
    ensures { IfOk result (λ topics. map (λ topic. map explanation.explanation_value topic.now) topics.items ≡ by_topic_spec.topics_of (map explanation.explanation_value rows.now)) }
{
    let mut topics = Vec::new(alloc);
    let mut start = 0;
    'topics: while start < rows.len() {
        let rest = rows.split_at(start).1;
        let size = front_len(rest);
        topics.push(rest.split_at(size).0)?;
        start += size;
    }
    Ok(topics)
}
