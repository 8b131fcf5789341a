ghost use Rattle.std.specs.Prelude.{◌≡◌, IfOk, map};
ghost use Rattle.std.specs.Cmp.Lexicographic.{pointwise};
ghost use Rattle.std.specs.Str.{bytes_eq};
ghost use Rattle.rtps_report.specs.ReaderSide as reader_side;
ghost use Rattle.rtps_report.specs.Twice as twice;

use crate::recording::{Recording, datagrams_of};
use rtps_evidence::Times;
use std::alloc::{AllocError, Global};

/// Whether two times are known, and the same.
fn is_same_time(one: Option<u64>, other: Option<u64>) -> bool
    ensures { result ≡ twice.is_same_time one other }
{
    match (one, other) {
        (Some(one), Some(other)) => one == other,
        (Some(_), None) => false,
        (None, _) => false,
    }
}

/// Whether those of each of the first `count` datagrams are so.
fn have_same_times(count: u64, one: &Times, other: &Times) -> bool
    ensures { result ≡ twice.have_same_times count one.now.of_datagrams other.now.of_datagrams }
{
    (0..count).all(|place| {
        is_same_time(one.of_datagram(place + 1), other.of_datagram(place + 1))
    })
}

/// Whether two lists have the same datagrams.
fn are_equal(one: &[&[u8]], other: &[&[u8]]) -> bool
    ensures { result ≡ pointwise bytes_eq (map (λ datagram. datagram.now) one.now) (map (λ datagram. datagram.now) other.now) }
{
    one == other
}

/// Whether the datagrams of two recordings are the same, and came at the same times. `AllocError` is answered where there is no
/// memory for the lists of them.
fn are_one(alloc: Global, one: &Recording, other: &Recording) -> Result<bool, AllocError>
    ensures { IfOk result (λ same. same ≡ twice.are_one one.now other.now) }
{
    let count = one.len() as u64;
    if !have_same_times(count, one.times(), other.times()) {
        return Ok(false);
    }
    let ours = datagrams_of(alloc, one)?;
    let theirs = datagrams_of(alloc, other)?;
    Ok(are_equal(&ours, &theirs))
}

/// Whether the other recording, if there is one, is this one.
pub(crate) fn is_twice(
    alloc: Global,
    arrived: Option<&Recording>,
    recording: &Recording,
) -> Result<bool, AllocError>
    ensures { IfOk result (λ same. same ≡ twice.is_twice (reader_side.arrived_value arrived.entry) recording.now) }
{
    match arrived {
        Some(other) => are_one(alloc, recording, other),
        None => Ok(false),
    }
}
