use crate::answer::Answer;
use crate::index::Index;
use rtps_discovery::Pair;
use rtps_ids::Memory;

/// An answer, and the place of its pair among those that are judged.
#[derive(Clone, Copy)]
pub struct Ask {
    pub place: usize,
    pub answer: Answer,
}

impl Ask {
    ghost use Rattle.std.specs.Prelude.{◌≡◌, ◌<◌, ◌++◌, length, map, All, IfOk, OnOk};
    ghost use Rattle.std.specs.List.Sorted.{IsNonDecreasingBy};
    ghost use Rattle.rtps_audit.specs.Index as index_spec;
    ghost use Rattle.rtps_audit.specs.Intake as intake;
    ghost use Rattle.rtps_audit.specs.Account as account;

    /// Adds the answers of the pair at a place.
    pub(crate) fn push(asks: &mut Vec<Ask>, place: usize, answers: &[Answer]) -> Result<(), Memory>
        ensures { OnOk result (asks.new.items ≡ asks.old.items ++ map (λ answer. record { place = place; answer = answer }) answers.now) }
    {
        for answer in answers {
            asks.push(Ask {
                place,
                answer: *answer,
            })?;
        }
        Ok(())
    }

    /// The answers of these pairs in the order of their datagrams.
    pub(crate) fn all_of(index: &Index<'_>, pairs: &[Pair]) -> Result<Vec<Ask>, Memory>
        ensures asks { (intake : intake.Intake) → index_spec.IsIndexBy intake index.now → IfOk result (λ asks. account.AreAsksOf intake.acts pairs.now asks.items) }
        ensures within { IfOk result (λ asks. All (λ ask. ask.place < length pairs.now) asks.items) }
        ensures sorted { IfOk result (λ asks. IsNonDecreasingBy (λ ask. ask.answer.datagram) asks.items) }
    {
        let mut asks = Vec::new(index.alloc);
        for place in 0..pairs.len() {
            Ask::push(&mut asks, place, index.answers_of(pairs[place]))?;
        }
        asks.sort_by_key(|ask| ask.answer.datagram)?;
        Ok(asks)
    }
}
