ghost use Rattle.std.specs.Prelude.{ℕ, ◌≡◌, IfOk};
ghost use Rattle.rtps_audit.specs.Intake as intake;
ghost use Rattle.rtps_audit.specs.Placed as placed;
ghost use Rattle.rtps_coverage.specs.Stretches as stretches;
ghost use Rattle.rtps_evidence.specs.Amount as amount;
ghost use Rattle.rtps_evidence.specs.OtherSide as other_side;
ghost use Rattle.rtps_fragments.specs.Hearing as hearing;

use crate::recorded::sent_among;
use crate::times::Times;
use crate::way::Way;
use crate::way_round::way_round;
use bumpalo::Bump;
use rtps_audit::{Index, Said};
use rtps_coverage::Stretch;
use rtps_discovery::Pair;
use rtps_fragments::heard_said;
use rtps_ids::Memory;
use rtps_policies::{Naming, Namings};
use std::alloc::Global;

/// Another recording, made at the host of readers: what it has of each pair, and which of its participants names which.
#[derive(Clone, Copy)]
pub struct OtherSide<'o, 'b> {
    pub index: &'o Index<'b>,
    pub namings: &'o Namings,
}

/// A recording, another one beside it, where there is one, and when its datagrams came.
#[derive(Clone, Copy)]
pub struct Sides<'i, 'a, 'o, 'b> {
    pub index: &'i Index<'a>,
    pub other: Option<OtherSide<'o, 'b>>,
    /// When the datagrams of the recording came.
    pub times: &'i Times,
    /// Where the octets are kept that rows borrow, of samples that a reader put together.
    pub arena: &'a Bump,
}

impl<'o, 'b> OtherSide<'o, 'b> {
    ghost use Rattle.rtps_evidence.specs.OtherSide as other_side;

    /// Whether it was made at the host of a pair's reader: it has an act whose source is the reader's participant and whose
    /// destination is the writer's.
    fn has_reader(&self, pair: Pair) -> bool
        ensures { (other : other_side.OtherRecording) → other_side.IsSideOf other self.now → result ≡ other_side.has_reader other pair }
    {
        let answer = Naming {
            source: pair.reader.prefix,
            dest: pair.writer.prefix,
        };
        self.namings.named(answer) > 0
    }

    /// The numbers of which the pair's reader hears a payload from its writer in it.
    fn sent(&self, alloc: Global, pair: Pair) -> Result<Vec<Stretch>, Memory>
        ensures { (other : other_side.OtherRecording) → other_side.IsSideOf other self.now → IfOk result (λ sent. (n : ℕ) → stretches.stretches_have sent.items n
            ≡ amount.is_sent pair.writer pair.reader (placed.placed_in (hearing.heard_by pair.reader other.intake.acts)) n) }
    {
        let arena = Bump::new(alloc);
        let said = heard_said(alloc, &arena, Said::until(self.index, pair, None), pair)?;
        sent_among(alloc, said.acts, pair)
    }
}

impl<'i, 'a, 'o, 'b> Sides<'i, 'a, 'o, 'b> {
    /// Which way round the two recordings are, by what a pair said in both. None where there is no other one, or it has no act whose
    /// source is the reader's participant and whose destination is the writer's. `Memory` is answered where what is kept cannot grow.
    pub fn way(&self, alloc: Global, pair: Pair) -> Result<Option<Way>, Memory>
        ensures { (intake : intake.Intake) (beside : other_side.Beside) → other_side.AreSides intake beside self.now
            → IfOk result (λ way. way ≡ other_side.way_against intake.acts beside.other pair) }
    {
        let Some(side) = &self.other else {
            return Ok(None);
        };
        if !side.has_reader(pair) {
            return Ok(None);
        }
        let way = way_round(alloc, self.index, side.index, pair)?;
        Ok(Some(way))
    }
}

/// Whether a pair is held against the other recording: that was made at its reader's host, and the two are not the wrong way round.
fn holds_by(way: Option<Way>) -> bool
    ensures { result ≡ other_side.holds_by way }
{
    match way {
        Some(Way::Wrong) => false,
        Some(Way::Right) => true,
        Some(Way::Both) => true,
        Some(Way::Alike) => true,
        None => false,
    }
}

/// What another recording has of a pair.
#[derive(Drop)]
pub(crate) struct Arrivals {
    /// Which way round the two recordings are for the pair.
    pub(crate) way: Option<Way>,
    /// Whether the pair is held against it.
    pub(crate) is_held: bool,
    /// The numbers of which the reader hears a payload in it; none where the pair is not held.
    pub(crate) numbers: Vec<Stretch>,
}

impl Arrivals {
    ghost use Rattle.rtps_evidence.specs.OtherSide as other_side;

    /// The numbers that are there of a pair; none where it is not held.
    fn numbers_of(
        alloc: Global,
        sides: &Sides<'_, '_, '_, '_>,
        pair: Pair,
        is_held: bool,
    ) -> Result<Vec<Stretch>, Memory>
        ensures { (intake : intake.Intake) (beside : other_side.Beside) → other_side.AreSides intake beside sides.now → is_held ≡ other_side.is_held intake.acts beside.other pair
            → IfOk result (λ numbers. (n : ℕ) → stretches.stretches_have numbers.items n ≡ other_side.is_there intake.acts beside.other pair n) }
    {
        if is_held {
            if let Some(side) = &sides.other {
                let numbers = side.sent(alloc, pair)?;
                return Ok(numbers);
            }
        }
        Ok(Vec::new(alloc))
    }

    /// What the other recording has of a pair; nothing where there is none.
    pub(crate) fn of(
        alloc: Global,
        sides: &Sides<'_, '_, '_, '_>,
        pair: Pair,
    ) -> Result<Arrivals, Memory>
        ensures { (intake : intake.Intake) (beside : other_side.Beside) → other_side.AreSides intake beside sides.now
            → IfOk result (λ arrivals. other_side.AreThere intake.acts beside.other pair arrivals.way arrivals.is_held arrivals.numbers.items) }
    {
        let way = sides.way(alloc, pair)?;
        let is_held = holds_by(way);
        let numbers = Arrivals::numbers_of(alloc, sides, pair, is_held)?;
        Ok(Arrivals {
            way,
            is_held,
            numbers,
        })
    }
}
