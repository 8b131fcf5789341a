ghost use Rattle.std.specs.Prelude.{◌≡◌};
ghost use Rattle.rtps_audit.specs.Placed as placed_spec;
ghost use Rattle.rtps_receiver.specs.Said as said;
ghost use Rattle.rtps_receiver.specs.Values as values;
ghost use Rattle.rtps_evidence.specs.WayRound as way_round;

use rtps_audit::Placed;
use rtps_receiver::{ActBody, SpokenBody};

/// The key of a number and a count.
fn key_by(number: i64, count: u32) -> u128
    ensures { result ≡ way_round.key_by (said.natural number) count }
{
    let number = number.max(0).cast_unsigned();
    u128::from(number) * 4_294_967_296 + u128::from(count)
}

/// The key of what an act says.
fn key_of_act_body(body: &ActBody<'_>) -> u128
    ensures { result ≡ way_round.key_of_body (values.act_body_value body.now) }
{
    match body {
        ActBody::Data(data) => key_by(data.number.get(), 0),
        ActBody::Heartbeat(heartbeat) => key_by(heartbeat.last, heartbeat.count),
        ActBody::AckNack(ack_nack) => key_by(ack_nack.set.base(), ack_nack.count),
        ActBody::Gap(gap) => key_by(gap.start.get(), 0),
    }
}

/// The key of an act: acts that are the same have the same one, and few others have it.
pub(crate) fn key_of(placed: &Placed<'_>) -> u128
    ensures { result ≡ way_round.key_of (placed_spec.placed_value placed.now) }
{
    match &placed.act.body {
        SpokenBody::Act(body) => key_of_act_body(body),
        SpokenBody::DataFrag(fragment) => key_by(fragment.number.get(), 0),
        SpokenBody::NackFrag(nack_frag) => key_by(nack_frag.number.get(), nack_frag.count),
    }
}
