ghost use Rattle.std.specs.Prelude.{◌≡◌, ◌++◌, IfOk, List, OnOk, map};
ghost use Rattle.std.specs.BTreeMap.{get};
ghost use Rattle.rtps_discovery.specs.Listings as listings;
ghost use Rattle.rtps_discovery.specs.Matching as matching;
ghost use Rattle.rtps_discovery.specs.declared.matching.Pair.{Pair as PairOf};
ghost use Rattle.rtps_known.specs.Matched as matched;
ghost use Rattle.rtps_known.specs.Places as places;
ghost use Rattle.rtps_policies.specs.Unmatched as unmatched;
ghost use Rattle.rtps_report.specs.LateMatches as late_matches;
ghost use Rattle.rtps_report.specs.Talk as talk_spec;

use crate::talk::pair_of;
use crate::two_lives::{TwoLives, lives_twice};
use rtps_discovery::{Match, Pair};
use rtps_evidence::Location;
use rtps_ids::Memory;
use rtps_known::{Matched, Matches, Place};
use rtps_policies::{Unmatched, participant_of};
use std::alloc::Global;
use std::collections::BTreeMap;

/// That a writer and a reader matched late.
#[derive(Clone, Copy)]
pub struct LateMatch {
    /// How long behind the later of the two, in nanoseconds.
    pub delay: u64,
    /// Where they matched.
    pub place: Location,
}

/// A match is late that is further behind the later of the two than this: a second, in nanoseconds.
const MOST_DELAY: u64 = 1_000_000_000;

/// A match at a place, if it is late.
fn late_with(place: Place, delay: Option<u64>) -> Option<LateMatch>
    ensures { result ≡ late_matches.late_with place delay }
{
    match delay {
        Some(delay) if delay > MOST_DELAY => Some(LateMatch {
            delay,
            place: Location {
                datagram: place.datagram,
                at: place.at,
            },
        }),
        _ => None,
    }
}

/// A match, if it is late.
fn late_by(matched: Option<Matched>) -> Option<LateMatch>
    ensures { result ≡ late_matches.late_by matched }
{
    match matched {
        Some(matched) => late_with(matched.place, matched.delay),
        None => None,
    }
}

/// Whether a participant of the two of a pair has two of these lives.
pub(crate) fn is_mixed(lives: &[TwoLives], pair: Pair) -> bool
    ensures { result ≡ late_matches.is_mixed lives.now pair }
{
    let writer = participant_of(pair.writer.prefix);
    let reader = participant_of(pair.reader.prefix);
    lives_twice(lives, writer) || lives_twice(lives, reader)
}

/// That the two of a pair matched late, if they did.
fn late_of(matches: &Matches, lives: &[TwoLives], pair: Pair) -> Option<LateMatch>
    ensures { (acts : List places.PlacedAct) → matched.AreMatchesOf acts matches.now → result ≡ late_matches.late_of acts lives.now pair }
{
    if is_mixed(lives, pair) {
        return None;
    }
    late_by(matches.matched(pair.writer, pair.reader))
}

/// Keeps that the two of a pair matched late, if they did. After `Memory` what is kept is of no use.
fn keep_late(
    late: &mut BTreeMap<Pair, LateMatch>,
    pair: Pair,
    found: Option<LateMatch>,
) -> Result<(), Memory>
    ensures { OnOk result ((other : PairOf) → get listings.pair_cmp late.new other
        ≡ talk_spec.late_kept (talk_spec.is_pair pair other) found (get listings.pair_cmp late.old other)) }
{
    if let Some(found) = found {
        late.insert(pair, found)?;
    }
    Ok(())
}

/// Which of these pairs matched late.
pub(crate) fn late_among(
    alloc: Global,
    matches: &Matches,
    lives: &[TwoLives],
    pairs: &[Pair],
) -> Result<BTreeMap<Pair, LateMatch>, Memory>
    ensures { IfOk result (λ late. (acts : List places.PlacedAct) → matched.AreMatchesOf acts matches.now
        → (pair : PairOf) → get listings.pair_cmp late pair ≡ talk_spec.late_among acts lives.now pairs.now pair) }
{
    let mut late = BTreeMap::new(alloc);
    for pair in pairs {
        keep_late(&mut late, *pair, late_of(matches, lives, *pair))?;
    }
    Ok(late)
}

/// Adds the pairs of reliable matches.
fn push_reliable(pairs: &mut Vec<Pair>, matched: &[Match]) -> Result<(), Memory>
    ensures { OnOk result (pairs.new.items ≡ pairs.old.items ++ matching.reliable_pairs matched.now) }
{
    for found in matched {
        if found.reliable {
            pairs.push(found.pair)?;
        }
    }
    Ok(())
}

/// Adds the pairs that talk though they do not match.
fn push_talking(pairs: &mut Vec<Pair>, talking: &[Unmatched<'_>]) -> Result<(), Memory>
    ensures { OnOk result (pairs.new.items ≡ pairs.old.items ++ map unmatched.pair_of (map unmatched.unmatched_value talking.now)) }
{
    for one in talking {
        pairs.push(pair_of(one))?;
    }
    Ok(())
}

/// The pairs of which rows may be: those of reliable matches, and those that talk though they do not match.
pub(crate) fn judged_pairs(
    alloc: Global,
    matched: &[Match],
    talking: &[Unmatched<'_>],
) -> Result<Vec<Pair>, Memory>
    ensures { IfOk result (λ pairs. pairs.items ≡ matching.reliable_pairs matched.now ++ map unmatched.pair_of (map unmatched.unmatched_value talking.now)) }
{
    let mut pairs = Vec::new(alloc);
    push_reliable(&mut pairs, matched)?;
    push_talking(&mut pairs, talking)?;
    Ok(pairs)
}
