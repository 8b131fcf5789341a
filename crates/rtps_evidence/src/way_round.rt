ghost use Rattle.std.specs.Prelude.{◌≡◌, ◌&&◌, ◌||◌, false, filter, map, not, IfOk, MatchOption};
ghost use Rattle.std.specs.List.{list_any};
ghost use Rattle.rtps_audit.specs.Index as index;
ghost use Rattle.rtps_audit.specs.Intake as intake;
ghost use Rattle.rtps_audit.specs.Placed as placed_spec;
ghost use Rattle.rtps_receiver.specs.Speech as speech;
ghost use Rattle.rtps_evidence.specs.Locations as locations;
ghost use Rattle.rtps_evidence.specs.WayRound as way_round_spec;

use crate::location::{Location, location_of};
use crate::way::Way;
use crate::window::{Window, window_of};
use crate::words::{has, words_in};
use rtps_audit::{Index, Placed};
use rtps_discovery::Pair;
use rtps_ids::Memory;
use rtps_receiver::{ActBody, SpokenBody};
use std::alloc::Global;
use std::slice;

/// Those of a recording's acts that another one has too, of which the acts stand by their keys.
fn shared_among<'a>(
    alloc: Global,
    own: &[Placed<'a>],
    other: &[Placed<'_>],
) -> Result<Vec<Placed<'a>>, Memory>
    requires { way_round_spec.AreByKey other.now }
    ensures { IfOk result (λ shared. map placed_spec.placed_value shared.items
        ≡ filter (way_round_spec.is_shared (map placed_spec.placed_value other.now)) (map placed_spec.placed_value own.now)) }
{
    let mut shared = Vec::new(alloc);
    for placed in own {
        if has(other, placed) {
            shared.extend_from_slice(slice::from_ref(placed))?;
        }
    }
    Ok(shared)
}

/// Those that it lacks.
fn lone_among<'a>(
    alloc: Global,
    own: &[Placed<'a>],
    other: &[Placed<'_>],
) -> Result<Vec<Placed<'a>>, Memory>
    requires { way_round_spec.AreByKey other.now }
    ensures { IfOk result (λ lone. map placed_spec.placed_value lone.items
        ≡ filter (λ at. not (way_round_spec.is_shared (map placed_spec.placed_value other.now) at)) (map placed_spec.placed_value own.now)) }
{
    let mut lone = Vec::new(alloc);
    for placed in own {
        if !has(other, placed) {
            lone.extend_from_slice(slice::from_ref(placed))?;
        }
    }
    Ok(lone)
}

/// Where acts stand.
fn places_of(alloc: Global, acts: &[Placed<'_>]) -> Result<Vec<Location>, Memory>
    ensures { IfOk result (λ places. places.items ≡ map locations.location_of (map placed_spec.placed_value acts.now)) }
{
    let mut places = Vec::new(alloc);
    for placed in acts {
        places.push(location_of(placed))?;
    }
    Ok(places)
}

/// Whether an act is an answer of a reader.
fn is_ack_nack(placed: &Placed<'_>) -> bool
    ensures { result ≡ speech.is_ack_nack (placed_spec.placed_value placed.now).act.body }
{
    match &placed.act.body {
        SpokenBody::Act(ActBody::AckNack(_)) => true,
        SpokenBody::Act(ActBody::Data(_)) => false,
        SpokenBody::Act(ActBody::Heartbeat(_)) => false,
        SpokenBody::Act(ActBody::Gap(_)) => false,
        SpokenBody::DataFrag(_) => false,
        SpokenBody::NackFrag(_) => false,
    }
}

/// Whether an act is one of the writer that stands in the window.
fn is_act_within(placed: &Placed<'_>, window: &Window) -> bool
    ensures { result ≡ (not (speech.is_ack_nack (placed_spec.placed_value placed.now).act.body) && way_round_spec.is_within window.now.lo window.now.hi (locations.location_of (placed_spec.placed_value placed.now))) }
{
    !is_ack_nack(placed) && window.has(placed)
}

/// Whether an act is an answer of the reader that does.
fn is_answer_within(placed: &Placed<'_>, window: &Window) -> bool
    ensures { result ≡ (speech.is_ack_nack (placed_spec.placed_value placed.now).act.body && way_round_spec.is_within window.now.lo window.now.hi (locations.location_of (placed_spec.placed_value placed.now))) }
{
    is_ack_nack(placed) && window.has(placed)
}

/// Whether an act of the writer among these stands in the window.
fn has_act_within(lone: &[Placed<'_>], window: &Window) -> bool
    ensures { result ≡ list_any (λ at. not (speech.is_ack_nack at.act.body) && way_round_spec.is_within window.now.lo window.now.hi (locations.location_of at))
        (map placed_spec.placed_value lone.now) }
{
    for placed in lone {
        if is_act_within(placed, window) {
            return true;
        }
    }
    false
}

/// Whether an answer of the reader among these does.
fn has_answer_within(lone: &[Placed<'_>], window: &Window) -> bool
    ensures { result ≡ list_any (λ at. speech.is_ack_nack at.act.body && way_round_spec.is_within window.now.lo window.now.hi (locations.location_of at))
        (map placed_spec.placed_value lone.now) }
{
    for placed in lone {
        if is_answer_within(placed, window) {
            return true;
        }
    }
    false
}

/// What one recording has that the other lacks, in the midst of what both have.
#[derive(Clone, Copy)]
struct Lone {
    /// Some act of the writer.
    act: bool,
    /// Some answer of the reader.
    answer: bool,
}

/// What stands in the window of these acts, if there is one.
fn lone_within(lone: &[Placed<'_>], window: Option<Window>) -> Lone
    ensures act { MatchOption window (result.act ≡ false)
        (λ window. result.act ≡ list_any (λ at. not (speech.is_ack_nack at.act.body) && way_round_spec.is_within window.lo window.hi (locations.location_of at)) (map placed_spec.placed_value lone.now)) }
    ensures answer { MatchOption window (result.answer ≡ false)
        (λ window. result.answer ≡ list_any (λ at. speech.is_ack_nack at.act.body && way_round_spec.is_within window.lo window.hi (locations.location_of at)) (map placed_spec.placed_value lone.now)) }
{
    match window {
        Some(window) => Lone {
            act: has_act_within(lone, &window),
            answer: has_answer_within(lone, &window),
        },
        None => Lone {
            act: false,
            answer: false,
        },
    }
}

/// What one recording has that the other lacks, by the acts of the two. Those of the other stand by their keys.
fn lone_in(alloc: Global, own: &[Placed<'_>], other: &[Placed<'_>]) -> Result<Lone, Memory>
    requires { way_round_spec.AreByKey other.now }
    ensures act { IfOk result (λ lone. lone.act ≡ way_round_spec.has_lone_act (map placed_spec.placed_value own.now) (map placed_spec.placed_value other.now)) }
    ensures answer { IfOk result (λ lone. lone.answer ≡ way_round_spec.has_lone_answer (map placed_spec.placed_value own.now) (map placed_spec.placed_value other.now)) }
{
    let shared = shared_among(alloc, own, other)?;
    let mut places = places_of(alloc, &shared)?;
    let window = window_of(&mut places)?;
    let lone = lone_among(alloc, own, other)?;
    Ok(lone_within(&lone, window))
}

/// Which way round two recordings are, by what each has that the other lacks.
fn way_by(here: Lone, there: Lone) -> Way
    ensures { result ≡ way_round_spec.way_by (here.act || there.answer) (there.act || here.answer) }
{
    let right = here.act || there.answer;
    let wrong = there.act || here.answer;
    if right {
        if wrong { Way::Both } else { Way::Right }
    } else if wrong {
        Way::Wrong
    } else {
        Way::Alike
    }
}

/// Which way round two recordings are, by these acts of the two, which stand by their keys.
fn way_between(alloc: Global, ours: &[Placed<'_>], theirs: &[Placed<'_>]) -> Result<Way, Memory>
    requires ours { way_round_spec.AreByKey ours.now }
    requires theirs { way_round_spec.AreByKey theirs.now }
    ensures { IfOk result (λ way. way ≡ way_round_spec.way_between (map placed_spec.placed_value ours.now) (map placed_spec.placed_value theirs.now)) }
{
    let here = lone_in(alloc, ours, theirs)?;
    let there = lone_in(alloc, theirs, ours)?;
    Ok(way_by(here, there))
}

/// Which way round two recordings are, by what a pair said in both. `Memory` is answered where what is kept of that cannot grow.
pub(crate) fn way_round(
    alloc: Global,
    first: &Index<'_>,
    second: &Index<'_>,
    pair: Pair,
) -> Result<Way, Memory>
    ensures { (one other : intake.Intake) → index.IsIndexBy one first.now → index.IsIndexBy other second.now
        → IfOk result (λ way. way ≡ way_round_spec.way_of_pair pair one.acts other.acts) }
{
    let ours = words_in(alloc, first, pair)?;
    let theirs = words_in(alloc, second, pair)?;
    let way = way_between(alloc, &ours, &theirs)?;
    Ok(way)
}
