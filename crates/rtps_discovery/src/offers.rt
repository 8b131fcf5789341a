ghost use Rattle.std.specs.Prelude.{◌≡◌, ◌<◌, length, IfOk};
ghost use Rattle.std.specs.List.{list_any};
ghost use Rattle.rtps_discovery.specs.Matching as matching;
ghost use Rattle.rtps_discovery.specs.Offers as offers_spec;

use crate::endpoint::{Durability, Endpoint, Reliability, Side};
use rtps_ids::Memory;
use std::alloc::Global;

/// How many offers there are.
const OFFERS: usize = 8;

/// How strong a reliability is.
fn reliability_rank(reliability: Reliability) -> usize
    ensures { result ≡ matching.reliability_rank reliability }
{
    match reliability {
        Reliability::BestEffort => 0,
        Reliability::Reliable => 1,
    }
}

/// How strong a durability is.
fn durability_rank(durability: Durability) -> usize
    ensures value { result ≡ matching.durability_rank durability }
    ensures within { result < 4 }
{
    match durability {
        Durability::Volatile => 0,
        Durability::TransientLocal => 1,
        Durability::Transient => 2,
        Durability::Persistent => 3,
    }
}

/// What an endpoint offers of reliability and durability, as a number.
pub(crate) fn offer_of(endpoint: &Endpoint<'_>) -> usize
    ensures value { result ≡ offers_spec.offer_of endpoint.now }
    ensures within { result < 8 }
{
    4 * reliability_rank(endpoint.reliability) + durability_rank(endpoint.durability)
}

/// Whether a reader asks for no more than this offer.
fn asks_within(reader: &Endpoint<'_>, offer: usize) -> bool
    ensures { result ≡ offers_spec.asks_within offer reader.now }
{
    reliability_rank(reader.reliability) <= offer / 4
        && durability_rank(reader.durability) <= offer % 4
}

/// Whether an endpoint is a writer that makes this offer.
fn is_made_by(endpoint: &Endpoint<'_>, offer: usize) -> bool
    ensures { result ≡ offers_spec.makes offer endpoint.now }
{
    endpoint.side == Side::Writer && offer_of(endpoint) == offer
}

/// Whether any writer among endpoints makes this offer.
fn is_made(endpoints: &[Endpoint<'_>], offer: usize) -> bool
    ensures { result ≡ list_any (offers_spec.makes offer) endpoints.now }
{
    endpoints.iter().any(|endpoint| is_made_by(endpoint, offer))
}

/// The readers that ask for no more than this offer, in the same order; no readers if no writer among the endpoints
/// makes this offer.
fn readers_within<'a>(
    alloc: Global,
    endpoints: &[Endpoint<'_>],
    readers: &[Endpoint<'a>],
    offer: usize,
) -> Result<Vec<Endpoint<'a>>, Memory>
    ensures { IfOk result (λ list. list.items ≡ offers_spec.readers_within endpoints.now readers.now offer) }
{
    let mut list = Vec::new(alloc);
    if !is_made(endpoints, offer) {
        return Ok(list);
    }
    for reader in readers {
        if asks_within(reader, offer) {
            list.push(*reader)?;
        }
    }
    Ok(list)
}

/// For each offer, the list that [`readers_within`] gives.
pub(crate) fn readers_by_offer<'a>(
    alloc: Global,
    endpoints: &[Endpoint<'_>],
    readers: &[Endpoint<'a>],
) -> Result<Vec<Vec<Endpoint<'a>>>, Memory>
    ensures each { IfOk result (λ lists. length lists.items ≡ 8) }
    ensures lists { IfOk result (λ lists. offers_spec.AreWithin endpoints.now readers.now lists.items) }
{
    let mut lists = Vec::with_capacity(alloc, OFFERS)?;
    for offer in 0..OFFERS {
        lists.push(readers_within(alloc, endpoints, readers, offer)?)?;
    }
    Ok(lists)
}
