ghost use Rattle.std.specs.Prelude.{◌≡◌, List, map};
ghost use Rattle.std.specs.String.{string_bytes};
ghost use Rattle.rtps_receiver.specs.Values as values;
ghost use Rattle.std.specs.Option.{option_map};
ghost use Rattle.rtps_who.specs.Recorded as recorded;
ghost use Rattle.rtps_who.specs.Samples as samples;
ghost use Rattle.rtps_report.specs.Asked as asked_spec;
ghost use Rattle.rtps_report.specs.Rows as rows;

use crate::asked::Asked;
use crate::pattern::{fits, fits_followed, fits_node};
use rtps_discovery::Pair;
use rtps_parts::ros_topic;
use rtps_policies::{Naming, Namings};
use rtps_who::{Node, Who};

/// Whether the recording can speak of a pair: an act of the reader's participant names the writer's as its destination.
pub(crate) fn are_observed(namings: &Namings, pair: Pair) -> bool
    ensures named { result ≡ rows.is_named_by namings.now pair }
    ensures observed { (acts : List values.ActValue) → rows.AreNamedIn acts namings.now → result ≡ rows.is_observed acts pair }
{
    let answer = Naming {
        source: pair.reader.prefix,
        dest: pair.writer.prefix,
    };
    namings.named(answer) > 0
}

/// Whether the name of a topic fits a pattern, or the name that ROS 2 gives it.
fn fits_topic(pattern: &[u8], topic: &[u8]) -> bool
    ensures { result ≡ rows.fits_topic pattern.now topic.now }
{
    let name = ros_topic(topic);
    fits(pattern, topic) || fits_followed(pattern, name.name, name.word.as_bytes())
}

pub(crate) fn fits_one(patterns: &[String], topic: &[u8]) -> bool
    ensures { result ≡ rows.fits_one (map string_bytes patterns.now) topic.now }
{
    patterns.is_empty()
        || patterns
            .iter()
            .any(|pattern| fits_topic(pattern.as_bytes(), topic))
}

/// Whether an end has a node whose name fits one of these patterns.
pub(crate) fn has_node(patterns: &[String], node: Option<Node<'_>>) -> bool
    ensures { result ≡ rows.has_node (map string_bytes patterns.now) (option_map samples.node_value node.entry) }
{
    match node {
        Some(node) => patterns
            .iter()
            .any(|pattern| fits_node(pattern.as_bytes(), &node)),
        None => false,
    }
}

/// Whether a pair of this topic is asked for: its topic is, and the node of its writer or of its reader.
pub(crate) fn is_chosen(asked: &Asked<'_>, who: &Who<'_>, topic: &[u8], pair: Pair) -> bool
    ensures { result ≡ rows.chosen_by (asked_spec.asked_value asked.now) (recorded.node_in who.now) topic.now pair }
{
    let nodes = asked.nodes;
    fits_one(asked.topics, topic)
        && (nodes.is_empty()
            || has_node(nodes, who.node(pair.writer))
            || has_node(nodes, who.node(pair.reader)))
}
