ghost use Rattle.std.specs.Prelude.{◌≡◌, ◌<◌, ◌==◌, ◌&&◌, ◌^◌, map, nat_lt, List};
ghost use Rattle.std.specs.List.{find};
ghost use Rattle.rtps_discovery.specs.declared.matching.Pair.{Pair as PairValue};
ghost use Rattle.rtps_receiver.specs.Values as values;
ghost use Rattle.rtps_audit.specs.Delivery as delivery;
ghost use Rattle.rtps_audit.specs.Index as index_spec;
ghost use Rattle.rtps_audit.specs.Intake as intake;
ghost use Rattle.rtps_audit.specs.Placed as placed;
ghost use Rattle.rtps_receiver.specs.Said as said;
ghost use Rattle.rtps_evidence.specs.Locations as locations;

use crate::location::Location;
use rtps_audit::{Answer, FirstAsked, Index};
use rtps_discovery::Pair;

/// An answer of the reader to the writer.
#[derive(Clone, Copy)]
pub struct Claim {
    /// Its base: it claims each number below.
    pub below: i64,
    pub place: Location,
}

/// What an answer claims, and where it stands.
pub(crate) fn claim_in(answer: &Answer) -> Claim
    ensures { result ≡ locations.claim_in answer.now }
{
    Claim {
        below: answer.natural_base().cast_signed(),
        place: Location {
            datagram: answer.datagram as u64,
            at: answer.at,
        },
    }
}

/// The greatest base of these answers, or 0.
pub(crate) fn greatest_base(answers: &[Answer]) -> u64
    ensures value { result ≡ delivery.greatest (map (λ answer. said.natural answer.base) answers.now) }
    ensures in_range { result < 2 ^ 63 }
{
    let mut greatest = 0u64;
    for answer in answers {
        greatest = greatest.max(answer.natural_base());
    }
    greatest
}

/// Whether a reader acknowledges some number of a writer, any two GUIDs, by whatever answer of an index's recording.
pub fn acknowledges(index: &Index<'_>, pair: Pair) -> bool
    ensures { (intake : intake.Intake) → index_spec.IsIndexBy intake index.now → result ≡ locations.acknowledges pair.writer pair.reader (placed.placed_in intake.acts) }
{
    greatest_base(index.answers_of(pair)) > 1
}

/// The first of these answers that has the base.
fn first_with(answers: &[Answer], base: u64) -> Option<Claim>
    ensures { result ≡ find (λ claim. said.natural claim.below == base) (map locations.claim_in answers.now) }
{
    for answer in answers {
        if answer.natural_base() == base {
            return Some(claim_in(answer));
        }
    }
    None
}

/// The first of these answers, in a datagram counted from 1, that has a base above the number.
fn first_above(answers: &[Answer], datagram: u64, number: u64) -> Option<Claim>
    ensures { result ≡ find (λ claim. (claim.place.datagram == datagram) && nat_lt number (said.natural claim.below)) (map locations.claim_in answers.now) }
{
    for answer in answers {
        if answer.datagram as u64 == datagram && number < answer.natural_base() {
            return Some(claim_in(answer));
        }
    }
    None
}

/// The first of a pair's answers that has the greatest base of all, where that is above `from`.
pub(crate) fn find_acknowledgement(answers: &[Answer], from: FirstAsked) -> Option<Claim>
    ensures { (pair : PairValue) (recording : List (List values.ActValue)) → answers.now ≡ placed.answers_among pair (placed.placed_in recording)
        → result ≡ locations.acknowledgement_of from pair.writer pair.reader (placed.placed_in recording) }
{
    let base = greatest_base(answers);
    if base <= from.get() {
        return None;
    }
    first_with(answers, base)
}

/// The first of a pair's answers, in a datagram counted from 1, that has a base above the number.
pub(crate) fn find_claim(answers: &[Answer], datagram: u64, number: u64) -> Option<Claim>
    ensures { (pair : PairValue) (recording : List (List values.ActValue)) → answers.now ≡ placed.answers_among pair (placed.placed_in recording)
        → result ≡ locations.claim_of pair.writer pair.reader datagram number (placed.placed_in recording) }
{
    first_above(answers, datagram, number)
}
