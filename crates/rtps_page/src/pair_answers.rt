ghost use Rattle.std.specs.Prelude.{◌≡◌, ◌≤◌, length, map, IfOk, IfSome};
ghost use Rattle.rtps_audit.specs.Index as index_spec;
ghost use Rattle.rtps_audit.specs.Intake as intake;
ghost use Rattle.rtps_audit.specs.Placed as placed;
ghost use Rattle.rtps_page.specs.ChartEntries as chart_entries;

use rtps_audit::{Answer, Index, Placed};
use rtps_discovery::Pair;
use std::alloc::{AllocError, Global};
use std::slice;

fn stands_before(placed: &Placed<'_>, answer: &Answer) -> bool {
    (placed.datagram, placed.act.at) < (answer.datagram, answer.at)
}

/// Where the act of an answer is to be looked for: from a place on at the first one that does not stand before it, where acts stand in the order of
/// sending. Whether it is there is seen by who calls this.
fn place_for(acts: &[Placed<'_>], from: usize, answer: &Answer) -> usize
    requires { from ≤ length acts.now }
    ensures within { (from ≤ result) × (result ≤ length acts.now) }
{
    from + acts[from..].partition_point(|placed| stands_before(placed, answer))
}

/// The acts of these answers, each found in few steps; None where one of them is not where it is to be looked for.
fn acts_found<'a>(
    alloc: Global,
    acts: &[Placed<'a>],
    answers: &[Answer],
    pair: Pair,
) -> Result<Option<Vec<Placed<'a>>>, AllocError>
    ensures { IfOk result (λ found. IfSome found (λ kept. length answers.now ≡ length (chart_entries.answers_in pair (map placed.placed_value acts.now))
        → map placed.placed_value kept.items ≡ chart_entries.answers_in pair (map placed.placed_value acts.now))) }
{
    let mut found = Vec::with_capacity(alloc, answers.len())?;
    let mut next = 0;
    for answer in answers {
        let place = place_for(acts, next, answer);
        if place >= acts.len() || !acts[place].act.answers(pair.reader, pair.writer) {
            return Ok(None);
        }
        found.extend_from_slice(slice::from_ref(&acts[place]))?;
        next = place + 1;
    }
    Ok(Some(found))
}

/// Those of these acts by which the pair's reader answers its writer.
fn acts_kept<'a>(
    alloc: Global,
    acts: &[Placed<'a>],
    pair: Pair,
) -> Result<Vec<Placed<'a>>, AllocError>
    ensures { IfOk result (λ kept. map placed.placed_value kept.items ≡ chart_entries.answers_in pair (map placed.placed_value acts.now)) }
{
    let mut kept = Vec::new(alloc);
    for placed in acts {
        if placed.act.answers(pair.reader, pair.writer) {
            kept.extend_from_slice(slice::from_ref(placed))?;
        }
    }
    Ok(kept)
}

/// The acts by which a pair's reader answers its writer, in the order of sending. A reader may answer many writers: its other answers are passed over in
/// few steps.
pub(crate) fn answer_acts<'a>(
    alloc: Global,
    index: &Index<'a>,
    pair: Pair,
) -> Result<Vec<Placed<'a>>, AllocError>
    ensures { (intake : intake.Intake) → index_spec.IsIndexBy intake index.now
        → IfOk result (λ acts. map placed.placed_value acts.items ≡ chart_entries.answers_in pair (placed.placed_in intake.acts)) }
{
    let acts = index.acts_of(pair.reader);
    match acts_found(alloc, acts, index.answers_of(pair), pair)? {
        Some(found) => Ok(found),
        None => acts_kept(alloc, acts, pair),
    }
}
