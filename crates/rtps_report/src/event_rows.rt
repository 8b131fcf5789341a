ghost use Rattle.std.specs.Prelude.{ℕ, ◌≡◌, ◌++◌, ◌∷◌, [], if◌then◌else◌, IfOk, List, OnOk, Some, map, not};
ghost use Rattle.rtps_evidence.specs.Explanation as explanation;
ghost use Rattle.rtps_report.specs.Events as events_spec;
ghost use Rattle.rtps_report.specs.Talk as talk_spec;
ghost use Rattle.rtps_report.specs.declared.event_rows.EventKey.{EventKey as EventKeyOf};

use crate::row_facts::is_noted;
use crate::silences::Silences;
use crate::talk::Talk;
use rtps_discovery::Pair;
use rtps_evidence::Explanation;
use rtps_ids::GuidPrefix;
use std::alloc::{AllocError, Global};
use std::collections::BTreeMap;

/// The participants that the rows of an event share: one that is silent, alone; or the writer's, and then the reader's.
#[derive(Clone, Copy, PartialEq, Eq, PartialOrd, Ord)]
pub struct EventKey {
    pub first: GuidPrefix,
    pub second: Option<GuidPrefix>,
}

/// Rows that someone has to look at, by the event that they belong to.
#[derive(Drop)]
pub struct EventRows<'r, 'a> {
    pub(crate) map: BTreeMap<EventKey, Vec<&'r Explanation<'a>>>,
    /// Which events there are, by their first rows.
    pub(crate) keys: Vec<EventKey>,
    alloc: Global,
}

/// The event that a row of this pair belongs to, of which this participant or that one is silent.
fn key_of(silences: Silences, pair: Pair) -> EventKey
    ensures { result ≡ events_spec.key_by silences pair }
{
    match (silences.reader, silences.writer) {
        (Some(_), _) => EventKey {
            first: pair.reader.prefix,
            second: None,
        },
        (None, Some(_)) => EventKey {
            first: pair.writer.prefix,
            second: None,
        },
        (None, None) => EventKey {
            first: pair.writer.prefix,
            second: Some(pair.reader.prefix),
        },
    }
}

/// The event that a row belongs to; None of one that nobody has to look at.
fn noted_key(talk: &Talk<'_>, tail: u64, row: &Explanation<'_>) -> Option<EventKey>
    ensures { result ≡ events_spec.noted_key (talk_spec.talk_value talk.now) tail (explanation.explanation_value row.now) }
{
    let silences = talk.silences(row.pair);
    if is_noted(tail, &row.evidence, silences) {
        Some(key_of(silences, row.pair))
    } else {
        None
    }
}

impl<'r, 'a> EventRows<'r, 'a> {
    /// No rows.
    fn none(alloc: Global) -> Self
        ensures { (talk : talk_spec.TalkValue) (tail : ℕ) → events_spec.AreEventRows talk tail [] result }
    {
        EventRows {
            map: BTreeMap::new(alloc),
            keys: Vec::new(alloc),
            alloc,
        }
    }

    /// Appends a row to those of its event. After an `Err` the rows are of no use.
    fn append(&mut self, key: EventKey, row: &'r Explanation<'a>) -> Result<(), AllocError>
        ensures rows { OnOk result ((other : EventKeyOf) → events_spec.rows_at self.new.map other ≡ events_spec.rows_at self.old.map other ++ (if events_spec.is_key other key then explanation.explanation_value row.entry.now ∷ [] else [])) }
        ensures keys { self.new.keys ≡ self.old.keys }
    {
        if let Some(found) = self.map.get_mut(&key) {
            found.push(row)?;
            return Ok(());
        }
        let mut rows = Vec::new(self.alloc);
        rows.push(row)?;
        self.map.insert(key, rows)?;
        Ok(())
    }

    /// Appends a row to those of its event, which there may not be yet. After an `Err` the rows are of no use.
    fn note(&mut self, key: EventKey, row: &'r Explanation<'a>) -> Result<(), AllocError>
        ensures { OnOk result ((talk : talk_spec.TalkValue) (tail : ℕ) (rows : List explanation.ExplanationValue) → events_spec.noted_key talk tail (explanation.explanation_value row.entry.now) ≡ Some key
            → events_spec.AreEventRows talk tail rows self.old → events_spec.AreEventRows talk tail (rows ++ explanation.explanation_value row.entry.now ∷ []) self.new) }
    {
        if !self.has_rows(key) {
            self.keys.push(key)?;
        }
        self.append(key, row)
    }

    /// Those of these rows, in their order.
    pub fn of(
        alloc: Global,
        talk: &Talk<'_>,
        tail: u64,
        rows: &'r [Explanation<'a>],
    ) -> Result<Self, AllocError>
        ensures { IfOk result (events_spec.AreEventRows (talk_spec.talk_value talk.now) tail (map explanation.explanation_value rows.entry.now)) }
    {
        let mut found = EventRows::none(alloc);
        for row in rows {
            if let Some(key) = noted_key(talk, tail, row) {
                found.note(key, row)?;
            }
        }
        Ok(found)
    }

    /// Whether an event has some.
    fn has_rows(&self, key: EventKey) -> bool
        ensures { result ≡ not (events_spec.has_none (events_spec.rows_at self.now.map key)) }
    {
        match self.map.get(&key) {
            Some(rows) => !rows.is_empty(),
            None => false,
        }
    }

    /// Those of an event, in their order.
    pub fn rows(&self, alloc: Global, key: EventKey) -> Result<Vec<&'r Explanation<'a>>, AllocError>
        ensures { IfOk result (λ rows. events_spec.rows_value rows.items ≡ events_spec.rows_at self.now.map key) }
    {
        match self.map.get(&key) {
            Some(rows) => Vec::from_slice(alloc, rows),
            None => Ok(Vec::new(alloc)),
        }
    }
}
