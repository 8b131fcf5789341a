ghost use Rattle.std.specs.Prelude.{◌≡◌, ◌<◌, ◌≤◌, ◌^◌, Some};
ghost use Rattle.std.specs.Fmt.{WritesOnOk};
ghost use Rattle.rtps_policies.specs.DurationText as duration_text;
ghost use Rattle.rtps_policies.specs.Durations as durations;

use rtps_ids::{Order, u32_at};
use std::fmt;

/// A span of time: seconds, and fractions of 2^-32 seconds. (DDSI-RTPS 2.5, 9.3.2 "Mapping of the Types
/// that Appear Within Submessages or Built-in Topic Data", "Duration_t").
#[derive(Clone, Copy, PartialEq)]
pub struct Duration {
    pub seconds: i32,
    pub fraction: u32,
}

impl Duration {
    /// DURATION_INFINITE.
    pub const INFINITE: Duration = Duration {
        seconds: 0x7fff_ffff,
        fraction: 0xffff_ffff,
    };
    /// DURATION_ZERO.
    pub const ZERO: Duration = Duration {
        seconds: 0,
        fraction: 0,
    };

    /// Whether it is no longer than another.
    pub fn is_within(self, other: Duration) -> bool
        ensures { result ≡ durations.is_within self other }
    {
        self.seconds < other.seconds
            || (self.seconds == other.seconds && self.fraction <= other.fraction)
    }

    /// In nanoseconds. None if it is below 0.
    pub(crate) fn nanoseconds(self) -> Option<u64>
        ensures { result ≡ durations.nanoseconds_in self }
    {
        if self.seconds < 0 {
            return None;
        }
        let seconds = u64::from(self.seconds.cast_unsigned());
        Some(seconds * 1_000_000_000 + u64::from(nanoseconds_of(self.fraction)))
    }
}

impl fmt::Display for Duration {
    ghost output = { λ duration. Some (duration_text.duration_text duration) };

    /// In seconds, with at most nine places.
    #[tactic(auto, unfolding(crate::specs::DurationText::duration_text))]
    fn fmt<W: fmt::Write>(&self, f: &mut fmt::Formatter<W>) -> fmt::Result {
        if *self == Duration::INFINITE {
            return write!(f, "infinite");
        }
        let seconds = self.seconds;
        if seconds < 0 {
            return write!(f, "negative");
        }
        let point = PointText(nanoseconds_of(self.fraction));
        write!(f, "{seconds}{point} s")
    }
}

/// How many nanoseconds a fraction of a second has, in 2^-32 seconds.
fn nanoseconds_of(fraction: u32) -> u32
    ensures value { result ≡ durations.nanoseconds_of fraction }
    ensures in_range { result < 10 ^ 9 }
{
    (u64::from(fraction) * 1_000_000_000 / (1 << 32)) as u32
}

/// Nanoseconds behind a point; nothing where there are none.
#[derive(Drop)]
struct PointText(u32);

impl fmt::Display for PointText {
    ghost output = { λ text. Some (duration_text.point_text text.0) };

    fn fmt<W: fmt::Write>(&self, f: &mut fmt::Formatter<W>) -> fmt::Result {
        if self.0 == 0 {
            return Ok(());
        }
        write!(f, ".")?;
        write_places(9, self.0, f)
    }
}

/// Writes so many places of a number, at most nine, up to the last one that is not 0.
fn write_places<W: fmt::Write>(count: u32, number: u32, f: &mut fmt::Formatter<W>) -> fmt::Result
    requires { count ≤ 9 }
    ensures { WritesOnOk W.write_str_gives f.old result (duration_text.places_of count number) f.new }
{
    if count == 0 || number == 0 {
        return Ok(());
    }
    let behind = count - 1;
    let unit = 10u32.pow(behind);
    write!(f, "{}", number / unit)?;
    write_places(behind, number % unit, f)
}

/// The duration in the eight octets at offset `at`, or None if there are fewer.
pub(crate) fn duration_at(order: Order, value: &[u8], at: usize) -> Option<Duration>
    requires { at < 2 ^ 32 }
    ensures { result ≡ durations.duration_at order value.now at }
{
    let seconds = u32_at(order, value, at)?.cast_signed();
    let fraction = u32_at(order, value, at + 4)?;
    Some(Duration { seconds, fraction })
}
