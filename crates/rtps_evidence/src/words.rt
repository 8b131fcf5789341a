ghost use Rattle.std.specs.Prelude.{◌≡◌, ◌++◌, filter, map, IfOk, OnOk};
ghost use Rattle.std.specs.List.{list_any};
ghost use Rattle.rtps_audit.specs.Index as index_spec;
ghost use Rattle.rtps_audit.specs.Intake as intake;
ghost use Rattle.rtps_audit.specs.Placed as placed_spec;
ghost use Rattle.rtps_receiver.specs.Speech as speech;
ghost use Rattle.rtps_evidence.specs.WayRound as way_round;

use crate::act_key::key_of;
use crate::same_act::is_same_act;
use rtps_audit::{Index, Placed};
use rtps_discovery::Pair;
use rtps_ids::Memory;
use std::alloc::Global;
use std::slice;

/// Whether an act is one that the pair's writer says to its reader.
fn is_said_to(placed: &Placed<'_>, pair: Pair) -> bool
    ensures { result ≡ way_round.is_said_to pair (placed_spec.placed_value placed.now) }
{
    placed.act.spoken_by(pair.writer) && placed.act.heard_by(pair.reader)
}

/// Adds those of these acts that the pair's writer says to its reader. After `Memory` the words are of no use.
fn add_acts<'a>(words: &mut Vec<Placed<'a>>, acts: &[Placed<'a>], pair: Pair) -> Result<(), Memory>
    ensures { OnOk result (map placed_spec.placed_value words.new.items ≡ map placed_spec.placed_value words.old.items
        ++ filter (way_round.is_said_to pair) (map placed_spec.placed_value acts.now)) }
{
    for placed in acts {
        if is_said_to(placed, pair) {
            words.extend_from_slice(slice::from_ref(placed))?;
        }
    }
    Ok(())
}

/// Adds those of these acts by which the pair's reader answers its writer. After `Memory` the words are of no use.
fn add_answers<'a>(
    words: &mut Vec<Placed<'a>>,
    acts: &[Placed<'a>],
    pair: Pair,
) -> Result<(), Memory>
    ensures { OnOk result (map placed_spec.placed_value words.new.items ≡ map placed_spec.placed_value words.old.items
        ++ filter (λ at. speech.is_answer at.act pair.reader pair.writer) (map placed_spec.placed_value acts.now)) }
{
    for placed in acts {
        if placed.act.answers(pair.reader, pair.writer) {
            words.extend_from_slice(slice::from_ref(placed))?;
        }
    }
    Ok(())
}

/// What a pair said in a recording: the writer's acts, and then the reader's answers.
fn said_in<'a>(alloc: Global, index: &Index<'a>, pair: Pair) -> Result<Vec<Placed<'a>>, Memory>
    ensures { (intake : intake.Intake) → index_spec.IsIndexBy intake index.now
        → IfOk result (λ words. way_round.AreAsOften (way_round.words_of pair (placed_spec.placed_in intake.acts)) (map placed_spec.placed_value words.items)) }
{
    let mut words = Vec::new(alloc);
    add_acts(&mut words, index.acts_of(pair.writer), pair)?;
    add_answers(&mut words, index.acts_of(pair.reader), pair)?;
    Ok(words)
}

/// The same, by the keys of the acts, so that one that is the same as another is found in few steps.
pub(crate) fn words_in<'a>(
    alloc: Global,
    index: &Index<'a>,
    pair: Pair,
) -> Result<Vec<Placed<'a>>, Memory>
    ensures words { (intake : intake.Intake) → index_spec.IsIndexBy intake index.now
        → IfOk result (λ words. way_round.AreAsOften (way_round.words_of pair (placed_spec.placed_in intake.acts)) (map placed_spec.placed_value words.items)) }
    ensures by_key { IfOk result (λ words. way_round.AreByKey words.items) }
{
    let mut words = said_in(alloc, index, pair)?;
    words.sort_by_key(|one| key_of(one))?;
    Ok(words)
}

/// Whether one of these acts is the same as this one.
fn has_same(shelf: &[Placed<'_>], placed: &Placed<'_>) -> bool
    ensures { result ≡ list_any (way_round.is_same (placed_spec.placed_value placed.now)) (map placed_spec.placed_value shelf.now) }
{
    for one in shelf {
        if is_same_act(&placed.act, &one.act) {
            return true;
        }
    }
    false
}

/// Whether one of these acts, which stand by their keys, is the same as this one.
pub(crate) fn has(words: &[Placed<'_>], placed: &Placed<'_>) -> bool
    requires { way_round.AreByKey words.now }
    ensures { result ≡ way_round.is_shared (map placed_spec.placed_value words.now) (placed_spec.placed_value placed.now) }
{
    let key = key_of(placed);
    let start = words.partition_point(|one| key_of(one) < key);
    let behind = &words[start..];
    let end = behind.partition_point(|one| key_of(one) <= key);
    has_same(&behind[..end], placed)
}
