ghost use Rattle.std.specs.Prelude.{ℕ, ◌≡◌, ◌||◌, if◌then◌else◌, None};
ghost use Rattle.std.specs.Option.{option_map};
ghost use Rattle.rtps_receiver.specs.Said as said;
ghost use Rattle.rtps_wire.specs.Values as values;
ghost use Rattle.rtps_audit.specs.Placed as placed_spec;
ghost use Rattle.rtps_evidence.specs.Locations as locations;
ghost use Rattle.rtps_evidence.specs.Missed as missed;
ghost use Rattle.rtps_evidence.specs.Received as received;

use rtps_audit::Placed;
use rtps_discovery::Pair;
use rtps_receiver::SaidNumbers;

/// What an act says of numbers to the pair's reader, where that hears it from the pair's writer; of any other act nothing.
pub(crate) fn said_to<'x, 'a>(placed: &'x Placed<'a>, pair: Pair) -> SaidNumbers<'x, 'a>
    ensures said { said.Says (locations.said_to pair.writer pair.reader (placed_spec.placed_value placed.now)) result }

    // The same by what the reader hears of each number.
    ensures gone { (n : ℕ) → said.numbers_have result.gone n ≡ received.withdraws pair.writer pair.reader n (placed_spec.placed_value placed.now) }
    ensures told { (n : ℕ) → said.is_at n result.told ≡ locations.sends pair.writer pair.reader n (placed_spec.placed_value placed.now) }
    ensures tells { (n : ℕ) → (said.numbers_have result.gone n || said.is_at n result.told) ≡ locations.tells pair.writer pair.reader n (placed_spec.placed_value placed.now) }
    ensures payload { (n : ℕ) → (if said.is_at n result.told then option_map (λ payload. values.payload_value payload.now) result.payload else None)
        ≡ locations.payload_for pair.writer pair.reader n (placed_spec.placed_value placed.now) }
    ensures brought { (n : ℕ) → said.is_at n result.brought ≡ missed.brings pair.writer pair.reader n (placed_spec.placed_value placed.now) }
{
    if !placed.act.spoken_by(pair.writer) || !placed.act.heard_by(pair.reader) {
        return SaidNumbers::none();
    }
    placed.act.said()
}
