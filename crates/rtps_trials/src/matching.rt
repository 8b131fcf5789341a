//! When writers and readers matched in recordings with times.

use crate::arrivals::{Arrival, arrivals_of};
use crate::fault::Fault;
use rtps_discovery::{Side, announced_endpoint};
use rtps_fragments::FragmentWalk;
use rtps_ids::{Guid, GuidPrefix};
use rtps_known::{Known, Life, Matches, Place};
use rtps_receiver::Spoken;
use std::alloc::Global;
use std::collections::BTreeMap;
use std::fmt::Write;

/// What a recording has, act by act.
#[derive(Drop)]
struct Heard {
    known: Known,
    matches: Matches,
    sides: BTreeMap<Guid, Side>,
}

/// Tells it of each recording of a text, and an empty line behind it; an empty line stands between two.
pub(crate) fn tell_each(alloc: Global, input: &str, text: &mut String) -> Result<(), Fault> {
    for recording in input.split("\n\n") {
        let arrivals = arrivals_of(alloc, recording)?;
        tell(alloc, &arrivals, text)?;
        writeln!(text)?;
    }
    Ok(())
}

/// Tells of one recording when each writer and each reader matched.
fn tell(alloc: Global, arrivals: &[Arrival], text: &mut String) -> Result<(), Fault> {
    let mut heard = Heard {
        known: Known::new(alloc),
        matches: Matches::new(alloc),
        sides: BTreeMap::new(alloc),
    };
    let mut walk = FragmentWalk::new(alloc);
    let mut datagram = 0u64;
    for arrival in arrivals {
        walk.read(&arrival.octets)?;
        datagram = datagram.saturating_add(1);
        for act in walk.acts() {
            let place = Place {
                datagram,
                at: act.at,
                time: arrival.time,
            };
            heard.note(act, place)?;
        }
    }
    heard.tell_pairs(alloc, text)
}

/// Whether a participant has two lives.
fn is_twice(lives: &[Life], prefix: GuidPrefix) -> bool {
    lives.iter().any(|life| life.participant == prefix)
}

impl Heard {
    /// Keeps an act.
    fn note(&mut self, act: &Spoken<'_>, place: Place) -> Result<(), Fault> {
        self.known.note(act, place.time)?;
        self.matches.note(act, place)?;
        let Some(endpoint) = announced_endpoint(act) else {
            return Ok(());
        };
        if endpoint.guid.prefix == act.source && !self.sides.contains_key(&endpoint.guid) {
            self.sides.insert(endpoint.guid, endpoint.side)?;
        }
        Ok(())
    }

    /// The endpoints of a side, in order.
    fn endpoints(&self, alloc: Global, of: Side) -> Result<Vec<Guid>, Fault> {
        let mut found = Vec::new(alloc);
        for (guid, side) in self.sides.iter() {
            if *side == of {
                found.push(*guid)?;
            }
        }
        Ok(found)
    }

    /// A line of each writer and each reader.
    fn tell_pairs(&self, alloc: Global, text: &mut String) -> Result<(), Fault> {
        let lives = self.known.lives()?;
        let readers = self.endpoints(alloc, Side::Reader)?;
        for writer in &self.endpoints(alloc, Side::Writer)? {
            self.tell_readers(*writer, &readers, &lives, text)?;
        }
        Ok(())
    }

    /// A line of a writer and each of these readers.
    fn tell_readers(
        &self,
        writer: Guid,
        readers: &[Guid],
        lives: &[Life],
        text: &mut String,
    ) -> Result<(), Fault> {
        for reader in readers {
            write!(text, "matched {}{} ", writer.prefix, writer.entity)?;
            write!(text, "{}{} ", reader.prefix, reader.entity)?;
            let left_out = is_twice(lives, writer.prefix) || is_twice(lives, reader.prefix);
            match self.matches.matched(writer, *reader) {
                Some(matched) if !left_out => {
                    let place = matched.place;
                    write!(text, "{} {} ", place.datagram, place.at)?;
                    match matched.delay {
                        Some(delay) => writeln!(text, "{delay}")?,
                        None => writeln!(text, "-")?,
                    }
                }
                _ => writeln!(text, "-")?,
            }
        }
        Ok(())
    }
}
