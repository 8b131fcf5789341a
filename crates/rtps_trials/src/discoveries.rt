//! What discovery has told whom in recordings with times.

use crate::arrivals::{Arrival, arrivals_of};
use crate::fault::Fault;
use rtps_discovery::leaves;
use rtps_fragments::FragmentWalk;
use rtps_ids::{Guid, GuidPrefix};
use rtps_known::{Known, Untold, Visit};
use rtps_policies::{Announced, announced_participant, participant_of};
use rtps_receiver::Spoken;
use rtps_wire::Items;
use std::alloc::Global;
use std::collections::BTreeMap;
use std::fmt::Write;

/// What is known of a participant.
#[derive(Clone, Copy)]
struct Stage {
    since: Option<u64>,
    left: Option<Option<u64>>,
    last: Option<Option<u64>>,
}

/// What a recording has, act by act.
#[derive(Drop)]
struct Heard<'a> {
    known: Known,
    announced: Announced<'a>,
    stages: BTreeMap<GuidPrefix, Stage>,
}

/// Tells it of each recording of a text, and an empty line behind it; an empty line stands between two.
pub(crate) fn tell_each(alloc: Global, input: &str, text: &mut String) -> Result<(), Fault> {
    for recording in input.split("\n\n") {
        let arrivals = arrivals_of(alloc, recording)?;
        tell(alloc, &arrivals, text)?;
        writeln!(text)?;
    }
    Ok(())
}

/// Tells of one recording who has two lives, and who was not told of whom.
fn tell(alloc: Global, arrivals: &[Arrival], text: &mut String) -> Result<(), Fault> {
    let mut heard = Heard {
        known: Known::new(alloc),
        announced: Announced::new(alloc),
        stages: BTreeMap::new(alloc),
    };
    let mut walk = FragmentWalk::new(alloc);
    for arrival in arrivals {
        walk.read(&arrival.octets)?;
        for act in walk.acts() {
            heard.note(act, arrival.time)?;
        }
    }
    for arrival in arrivals {
        heard.note_sender(arrival)?;
    }
    for life in &heard.known.lives()? {
        let (one, other) = life.sent;
        let (one, part) = (one.seconds, one.fraction);
        write!(
            text,
            "lives {} {} {one}.{part}",
            life.participant, life.number
        )?;
        writeln!(text, " {}.{}", other.seconds, other.fraction)?;
    }
    let visits = heard.visits(alloc)?;
    for untold in &heard.known.untold(&visits, &heard.announced)? {
        tell_untold(untold, text)?;
    }
    Ok(())
}

/// A line of what was not told.
fn tell_untold(untold: &Untold, text: &mut String) -> Result<(), Fault> {
    write!(text, "untold ")?;
    push_guid(untold.from, text)?;
    write!(text, " ")?;
    push_guid(untold.to, text)?;
    write!(text, " writers ")?;
    push_guids(&untold.writers, text)?;
    write!(text, " readers ")?;
    push_guids(&untold.readers, text)?;
    writeln!(text, " unnamed {}", untold.unnamed)?;
    Ok(())
}

/// Appends GUIDs, or a dash.
fn push_guids(guids: &[Guid], text: &mut String) -> Result<(), Fault> {
    if guids.is_empty() {
        write!(text, "-")?;
    }
    for place in 0..guids.len() {
        if place > 0 {
            write!(text, ",")?;
        }
        push_guid(guids[place], text)?;
    }
    Ok(())
}

/// Appends the digits of a GUID.
fn push_guid(guid: Guid, text: &mut String) -> Result<(), Fault> {
    write!(text, "{}{}", guid.prefix, guid.entity)?;
    Ok(())
}

impl<'a> Heard<'a> {
    /// Keeps an act.
    fn note(&mut self, act: &Spoken<'a>, time: Option<u64>) -> Result<(), Fault> {
        self.known.note(act, time)?;
        self.announced.note(act)?;
        self.note_leaving(act, time);
        self.note_participant(act, time)
    }

    /// Keeps when the source of an act leaves.
    fn note_leaving(&mut self, act: &Spoken<'_>, time: Option<u64>) {
        if !leaves(act, participant_of(act.source)) {
            return;
        }
        if let Some(stage) = self.stages.get_mut(&act.source) {
            if stage.left.is_none() {
                stage.left = Some(time);
            }
        }
    }

    /// Keeps when a participant is announced first.
    fn note_participant(&mut self, act: &Spoken<'_>, time: Option<u64>) -> Result<(), Fault> {
        let Some(guid) = announced_participant(act) else {
            return Ok(());
        };
        if guid != participant_of(guid.prefix) || self.stages.contains_key(&guid.prefix) {
            return Ok(());
        }
        self.stages.insert(
            guid.prefix,
            Stage {
                since: time,
                left: None,
                last: None,
            },
        )?;
        Ok(())
    }

    /// Keeps when the last datagram of a sender came.
    fn note_sender(&mut self, arrival: &Arrival) -> Result<(), Fault> {
        let Ok((header, _)) = Items::open(&arrival.octets) else {
            return Ok(());
        };
        if let Some(stage) = self.stages.get_mut(&header.prefix) {
            stage.last = match (stage.last, arrival.time) {
                (None, time) => Some(time),
                (Some(Some(last)), Some(time)) => Some(Some(last.max(time))),
                _ => Some(None),
            };
        }
        Ok(())
    }

    /// The times of those of whom they are known.
    fn visits(&self, alloc: Global) -> Result<BTreeMap<GuidPrefix, Visit>, Fault> {
        let mut visits = BTreeMap::new(alloc);
        for (prefix, stage) in self.stages.iter() {
            let (Some(since), Some(last)) = (stage.since, stage.last) else {
                continue;
            };
            let left = match stage.left {
                Some(None) => continue,
                Some(Some(left)) => Some(left),
                None => None,
            };
            visits.insert(*prefix, Visit { since, left, last })?;
        }
        Ok(visits)
    }
}
