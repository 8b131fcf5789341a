ghost use Rattle.std.specs.Prelude.{◌≡◌, MatchOption};
ghost use Rattle.rtps_known.specs.Visits as visits;

use crate::layout::GRACE;

/// When a participant is there: times in nanoseconds, from any start.
#[derive(Clone, Copy)]
pub struct Visit {
    /// When it is announced first.
    pub since: u64,
    /// When it leaves; None where it does not.
    pub left: Option<u64>,
    /// When its last datagram came; None where that is not known.
    pub last: Option<u64>,
}

/// The earlier of two times.
fn earlier(time: u64, other: Option<u64>) -> u64
    ensures { result ≡ visits.min_known time other }
{
    match other {
        Some(other) => time.min(other),
        None => time,
    }
}

/// Up to when something counts that one participant tells another: a second before either leaves, and before the last datagram of the other.
/// None where that is not known, or they are announced later.
pub(crate) fn end_between(one: Visit, other: Visit) -> Option<u64>
    ensures { MatchOption result (visits.IsNeverInTime one other) (visits.IsEndBetween one other) }
{
    let gone = earlier(earlier(other.last?, one.left), other.left);
    let end = gone.checked_sub(GRACE)?;
    if one.since <= end && other.since <= end {
        Some(end)
    } else {
        None
    }
}
