ghost use Rattle.std.specs.Prelude.{◌≡◌, ◌↔◌, filter, IfOk, IsTrue};
ghost use Rattle.rtps_discovery.specs.Endpoint as endpoint;
ghost use Rattle.rtps_discovery.specs.Matching as matching;

use crate::endpoint::{Endpoint, Reliability, Side};
use rtps_ids::{Guid, Memory};
use std::alloc::Global;

/// A writer and a reader. Pairs are ordered by the writer's GUID, and then by the reader's.
#[derive(Clone, Copy, PartialEq, Eq, PartialOrd, Ord, Debug)]
pub struct Pair {
    pub writer: Guid,
    pub reader: Guid,
}

/// A writer and a reader that match.
#[derive(Clone, Copy, PartialEq, Eq, Debug)]
pub struct Match {
    pub pair: Pair,
    /// Whether both are RELIABLE.
    pub reliable: bool,
}

/// Whether a writer and a reader match: one topic, one type, and the reader asks for no more reliability and durability
/// than the writer offers (DDS 1.4, 2.2.3.4 "DURABILITY" and 2.2.3.14 "RELIABILITY"). False unless the first is a writer
/// and the second a reader.
pub fn matches(writer: &Endpoint<'_>, reader: &Endpoint<'_>) -> bool
    ensures meaning { IsTrue result ↔ matching.Matches (endpoint.endpoint_value writer.now) (endpoint.endpoint_value reader.now) }
    ensures test { result ≡ matching.is_match (endpoint.endpoint_value writer.now) (endpoint.endpoint_value reader.now) }
{
    suits(writer, reader)
}

/// Whether they match. [`matches`] has a second clause, with the test.
fn suits(writer: &Endpoint<'_>, reader: &Endpoint<'_>) -> bool
    ensures { IsTrue result ↔ matching.Matches (endpoint.endpoint_value writer.now) (endpoint.endpoint_value reader.now) }
{
    writer.side == Side::Writer
        && reader.side == Side::Reader
        && writer.topic == reader.topic
        && writer.type_name == reader.type_name
        && writer.reliability >= reader.reliability
        && writer.durability >= reader.durability
}

/// The match of a writer and a reader that match.
pub(crate) fn match_of(writer: &Endpoint<'_>, reader: &Endpoint<'_>) -> Match
    ensures { result ≡ matching.match_of (endpoint.endpoint_value writer.now) (endpoint.endpoint_value reader.now) }
{
    Match {
        pair: Pair {
            writer: writer.guid,
            reader: reader.guid,
        },
        reliable: writer.reliability == Reliability::Reliable
            && reader.reliability == Reliability::Reliable,
    }
}

/// The endpoints that are RELIABLE, in the same order.
pub(crate) fn reliable_among<'a>(
    alloc: Global,
    endpoints: &[Endpoint<'a>],
) -> Result<Vec<Endpoint<'a>>, Memory>
    ensures { IfOk result (λ reliable. reliable.items ≡ filter (λ endpoint. matching.is_reliable endpoint.reliability) endpoints.now) }
{
    let mut reliable = Vec::new(alloc);
    for endpoint in endpoints {
        if endpoint.reliability == Reliability::Reliable {
            reliable.push(*endpoint)?;
        }
    }
    Ok(reliable)
}

/// The pairs of the reliable matches.
pub(crate) fn reliable_pairs(alloc: Global, found: &[Match]) -> Result<Vec<Pair>, Memory>
    ensures { IfOk result (λ pairs. pairs.items ≡ matching.reliable_pairs found.now) }
{
    let mut pairs = Vec::new(alloc);
    for one in found {
        if one.reliable {
            pairs.push(one.pair)?;
        }
    }
    Ok(pairs)
}
