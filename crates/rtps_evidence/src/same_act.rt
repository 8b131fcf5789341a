ghost use Rattle.std.specs.Prelude.{◌≡◌};
ghost use Rattle.rtps_receiver.specs.Values as receiver_values;
ghost use Rattle.rtps_wire.specs.Values as wire_values;
ghost use Rattle.rtps_evidence.specs.WayRound as way_round;

use rtps_receiver::{ActBody, FragmentBody, Spoken, SpokenBody};
use rtps_wire::DataBody;

/// Whether two DATA are the same.
fn is_same_data(one: &DataBody<'_>, other: &DataBody<'_>) -> bool
    ensures { result ≡ way_round.is_same_data (wire_values.data_value one.now) (wire_values.data_value other.now) }
{
    *one == *other
}

/// Whether two DATA_FRAG are the same.
fn is_same_fragment(one: &FragmentBody<'_>, other: &FragmentBody<'_>) -> bool
    ensures { result ≡ way_round.is_same_fragment (receiver_values.fragment_value one.now) (receiver_values.fragment_value other.now) }
{
    *one == *other
}

/// Whether two acts say the same.
fn is_same_act_body(one: &ActBody<'_>, other: &ActBody<'_>) -> bool
    ensures { result ≡ way_round.is_same_body (receiver_values.act_body_value one.now) (receiver_values.act_body_value other.now) }
{
    match (one, other) {
        (ActBody::Data(one), ActBody::Data(other)) => is_same_data(one, other),
        (ActBody::Heartbeat(one), ActBody::Heartbeat(other)) => *one == *other,
        (ActBody::AckNack(one), ActBody::AckNack(other)) => *one == *other,
        (ActBody::Gap(one), ActBody::Gap(other)) => *one == *other,
        _ => false,
    }
}

/// Whether two bodies are the same.
fn is_same_body(one: &SpokenBody<'_>, other: &SpokenBody<'_>) -> bool
    ensures { result ≡ way_round.is_same_body (receiver_values.spoken_body_value one.now) (receiver_values.spoken_body_value other.now) }
{
    match (one, other) {
        (SpokenBody::Act(one), SpokenBody::Act(other)) => is_same_act_body(one, other),
        (SpokenBody::DataFrag(one), SpokenBody::DataFrag(other)) => is_same_fragment(one, other),
        (SpokenBody::NackFrag(one), SpokenBody::NackFrag(other)) => *one == *other,
        _ => false,
    }
}

/// Whether two acts are the same in source, destination and body.
#[tactic(auto, unfolding(crate::specs::WayRound::is_same_act))]
pub(crate) fn is_same_act(one: &Spoken<'_>, other: &Spoken<'_>) -> bool
    ensures { result ≡ way_round.is_same_act (receiver_values.spoken_value one.now) (receiver_values.spoken_value other.now) }
{
    one.source == other.source && one.dest == other.dest && is_same_body(&one.body, &other.body)
}
