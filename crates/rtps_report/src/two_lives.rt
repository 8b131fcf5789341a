ghost use Rattle.std.specs.Prelude.{◌≡◌, ◌++◌, ◌∷◌, [], if◌then◌else◌, IfOk, None, OnOk, map};
ghost use Rattle.rtps_report.specs.TwoLives as two_lives;

use rtps_ids::{Guid, GuidPrefix, Stamp};
use rtps_known::Life;
use rtps_policies::participant_of;
use std::alloc::{AllocError, Global};

/// A participant of which two lives have one GUID.
#[derive(Clone, Copy)]
pub struct TwoLives {
    pub participant: Guid,
    /// The first source time of a number of the writer that announces it, and the first other one, in nanoseconds since 1970 began.
    pub sent: (u64, u64),
}

/// How many nanoseconds a second has.
const SECOND: u64 = 1_000_000_000;

/// How many parts it has in a source time.
const PARTS: u64 = 0x1_0000_0000;

/// A source time in nanoseconds since 1970 began.
fn nanoseconds_of(stamp: Stamp) -> u64
    ensures { result ≡ two_lives.nanoseconds_of stamp }
{
    u64::from(stamp.seconds) * SECOND + u64::from(stamp.fraction) * SECOND / PARTS
}

fn two_lives_of(life: Life) -> TwoLives
    ensures { result ≡ two_lives.two_lives_of life }
{
    let (first, other) = life.sent;
    TwoLives {
        participant: participant_of(life.participant),
        sent: (nanoseconds_of(first), nanoseconds_of(other)),
    }
}

/// Whether a life is of the participant before, if there is one.
fn is_of(before: Option<GuidPrefix>, life: Life) -> bool
    ensures { result ≡ two_lives.is_of before life }
{
    match before {
        Some(prefix) => life.participant == prefix,
        None => false,
    }
}

/// Appends a life, if it is of another participant than the one before. After an `Err` the lives are of no use.
fn push_first(
    found: &mut Vec<TwoLives>,
    before: Option<GuidPrefix>,
    life: Life,
) -> Result<(), AllocError>
    ensures { OnOk result (found.new.items ≡ found.old.items ++ (if two_lives.is_of before life then [] else two_lives.two_lives_of life ∷ [])) }
{
    if !is_of(before, life) {
        found.push(two_lives_of(life))?;
    }
    Ok(())
}

/// The first of each participant, of lives that stand by participant.
pub(crate) fn first_lives(alloc: Global, lives: &[Life]) -> Result<Vec<TwoLives>, AllocError>
    ensures { IfOk result (λ found. found.items ≡ map two_lives.two_lives_of (two_lives.firsts_behind None lives.now)) }
{
    let mut found = Vec::new(alloc);
    let mut before = None;
    for life in lives {
        push_first(&mut found, before, *life)?;
        before = Some(life.participant);
    }
    Ok(found)
}

/// Whether a participant has two of these lives.
pub(crate) fn lives_twice(found: &[TwoLives], participant: Guid) -> bool
    ensures { result ≡ two_lives.lives_twice found.now participant }
{
    for one in found {
        if one.participant == participant {
            return true;
        }
    }
    false
}
