//! A directory is kept act by act, as one does who reads datagrams as they come.

use crate::fault::Fault;
use rtps_discovery::{Directory, Noted, Pair};
use rtps_receiver::Acts;
use rtps_tool::Recording;
use std::alloc::Global;
use std::fmt::Write;

/// What the acts of a recording announced.
#[derive(Clone, Copy)]
struct Sums {
    acts: u64,
    kept: u64,
    refused: u64,
}

/// Notes the acts of a datagram.
fn note_acts<'a>(
    directory: &mut Directory<'a>,
    datagram: &'a [u8],
    sums: &mut Sums,
) -> Result<(), Fault> {
    let Ok(mut acts) = Acts::open(datagram) else {
        sums.refused = sums.refused.saturating_add(1);
        return Ok(());
    };
    while let Some(outcome) = acts.next() {
        let Ok(act) = outcome else {
            sums.refused = sums.refused.saturating_add(1);
            break;
        };
        sums.acts = sums.acts.saturating_add(1);
        if matches!(directory.note(&act)?, Noted::Kept) {
            sums.kept = sums.kept.saturating_add(1);
        }
    }
    Ok(())
}

/// The reliable pairs of a recording. Appends how many acts it has, how many of them announce something, how many datagrams end in a
/// refusal, and how many participants, matches and pairs are known behind them.
pub(crate) fn push_directory(
    alloc: Global,
    recording: &Recording,
    text: &mut String,
) -> Result<Vec<Pair>, Fault> {
    let mut directory = Directory::new(alloc);
    let mut sums = Sums {
        acts: 0,
        kept: 0,
        refused: 0,
    };
    for datagram in recording.datagrams() {
        note_acts(&mut directory, datagram, &mut sums)?;
    }
    let participants = directory.participants()?.len();
    let matches = directory.matched()?.len();
    let pairs = directory.pairs()?;
    writeln!(
        text,
        "-- acts {} kept {} refused {}",
        sums.acts, sums.kept, sums.refused
    )?;
    writeln!(
        text,
        "-- participants {participants} matches {matches} pairs {}",
        pairs.len()
    )?;
    Ok(pairs)
}
