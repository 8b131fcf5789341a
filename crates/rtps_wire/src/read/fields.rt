ghost use Rattle.std.specs.Prelude.{◌≡◌, ◌≤◌, ◌+◌, drop, length, take, MatchResult};
ghost use Rattle.rtps_wire.specs.SetField as set_field;

use crate::fault::WireFault;
use rtps_ids::{EntityId, GuidPrefix, NumberSet, Order, SetFault, Vendor};

/// The octets from offset `at` on.
#[inline(always)]
pub(crate) fn rest_at(octets: &[u8], at: usize) -> &[u8]
    requires { at ≤ length octets.now }
    ensures { result.now ≡ drop at octets.now }
{
    let (_, rest) = octets.split_at(at);
    rest
}

/// The entity id at offset `at`.
#[inline(always)]
pub(crate) fn entity_at(octets: &[u8], at: usize) -> EntityId
    requires { at + 4 ≤ length octets.now }
    ensures { result.0 ≡ take 4 (drop at octets.now) }
{
    let mut entity = [0; 4];
    entity.copy_from_slice(&octets[at..at + 4]);
    EntityId(entity)
}

/// The GUID prefix at offset `at`.
#[inline(always)]
pub(crate) fn prefix_at(octets: &[u8], at: usize) -> GuidPrefix
    requires { at + 12 ≤ length octets.now }
    ensures { result.0 ≡ take 12 (drop at octets.now) }
{
    let mut prefix = [0; 12];
    prefix.copy_from_slice(&octets[at..at + 12]);
    GuidPrefix(prefix)
}

/// The vendor id at offset `at`.
pub(crate) fn vendor_at(octets: &[u8], at: usize) -> Vendor
    requires { at + 2 ≤ length octets.now }
    ensures { result.0 ≡ take 2 (drop at octets.now) }
{
    Vendor([octets[at], octets[at + 1]])
}

/// The sequence number set at offset `at`, and how many octets it takes. There are enough octets for its base and its
/// count.
#[tactic(auto, using(rtps_ids::proofs::Offered::bad_set_found, rtps_ids::proofs::Offered::cut_words_found, rtps_ids::proofs::Offered::good_set_found))]
pub(crate) fn set_at(
    order: Order,
    octets: &[u8],
    at: usize,
) -> Result<(NumberSet, usize), WireFault>
    requires { at + 12 ≤ length octets.now }
    ensures { MatchResult result (set_field.HasSet order (drop at octets.now)) (set_field.LacksSet order (drop at octets.now)) }
{
    match NumberSet::read(order, rest_at(octets, at)) {
        Ok(found) => Ok(found),
        Err(SetFault::BadSet) => Err(WireFault::BadSet),
        Err(SetFault::CutWords) => Err(WireFault::ShortBody),
    }
}
