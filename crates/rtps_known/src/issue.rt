//! How endpoints are announced, and when what a participant sends came.

ghost use Rattle.std.specs.Prelude.{◌≡◌};
ghost use Rattle.rtps_receiver.specs.Values as values;
ghost use Rattle.rtps_known.specs.Matched as matched;
ghost use Rattle.rtps_known.specs.Tellings as tellings;

use crate::layout::NEAR;
use crate::place::Place;
use rtps_discovery::announced_endpoint;
use rtps_ids::{EntityId, Guid, Stamp};
use rtps_receiver::{ActBody, Spoken, SpokenBody};

/// How an endpoint is announced.
#[derive(Clone, Copy)]
pub(crate) struct Issue {
    /// The built-in writer of its participant that announces it.
    pub(crate) entity: EntityId,
    pub(crate) number: u64,
    /// The source time of that, if it has one.
    pub(crate) sent: Option<Stamp>,
}

/// The endpoint of its source that an act announces, and how.
pub(crate) fn issue_told(act: &Spoken<'_>, place: Place) -> Option<(Guid, Issue)>
    ensures { result ≡ matched.issue_told (record { act = values.spoken_value act.now; place = place }) }
{
    let SpokenBody::Act(ActBody::Data(data)) = &act.body else {
        return None;
    };
    let endpoint = announced_endpoint(act)?;
    if act.source != endpoint.guid.prefix {
        return None;
    }
    let issue = Issue {
        entity: data.writer,
        number: data.number.get().cast_unsigned(),
        sent: act.stamp,
    };
    Some((endpoint.guid, issue))
}

/// A source time in nanoseconds, cut off.
pub(crate) fn nanoseconds(stamp: Stamp) -> u64
    ensures { result ≡ matched.nanoseconds stamp }
{
    u64::from(stamp.seconds) * 1_000_000_000 + u64::from(stamp.fraction) * 1_000_000_000 / (1 << 32)
}

/// When a DATA came, and its source time, in nanoseconds.
#[derive(Clone, Copy)]
pub(crate) struct Times {
    pub(crate) came: u64,
    pub(crate) sent: u64,
}

/// Those of an act that is a DATA, where both are known.
pub(crate) fn times_told(act: &Spoken<'_>, place: Place) -> Option<Times>
    ensures { result ≡ matched.times_told (record { act = values.spoken_value act.now; place = place }) }
{
    let SpokenBody::Act(ActBody::Data(_)) = &act.body else {
        return None;
    };
    let came = place.time?;
    let sent = nanoseconds(act.stamp?);
    Some(Times { came, sent })
}

/// Whether a DATA came at most 0.1 s behind its source time, if both are known.
pub(crate) fn is_near(times: Option<Times>) -> bool
    ensures { result ≡ tellings.holds matched.came_near times }
{
    match times {
        Some(times) => times.came <= times.sent.saturating_add(NEAR),
        None => false,
    }
}

/// Whether it came more than 0.1 s before it.
pub(crate) fn is_ahead(times: Option<Times>) -> bool
    ensures { result ≡ tellings.holds matched.came_ahead times }
{
    match times {
        Some(times) => times.came < times.sent.saturating_sub(NEAR),
        None => false,
    }
}

/// How long a time lies behind the later of two source times; 0 where it is before that.
pub(crate) fn delay_by(time: Option<u64>, one: Option<Stamp>, other: Option<Stamp>) -> Option<u64>
    ensures { result ≡ matched.delay_by time one other }
{
    let time = time?;
    let one = nanoseconds(one?);
    let other = nanoseconds(other?);
    Some(time.saturating_sub(one.max(other)))
}
