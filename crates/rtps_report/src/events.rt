ghost use Rattle.std.specs.Prelude.{◌≡◌, IfOk, map, sum_by};
ghost use Rattle.rtps_evidence.specs.Explanation as explanation;
ghost use Rattle.rtps_evidence.specs.Kinds as kinds;
ghost use Rattle.rtps_evidence.specs.Waits as waits;
ghost use Rattle.rtps_report.specs.Asked as asked_spec;
ghost use Rattle.rtps_report.specs.Events as events_spec;
ghost use Rattle.rtps_report.specs.FullReport as full_report;
ghost use Rattle.rtps_report.specs.Talk as talk_spec;

use crate::event_rows::{EventKey, EventRows};
use crate::full_report::FullReport;
use crate::row_facts::{asked_about, is_held, outcomes_of, row_from};
use crate::talk::Talk;
use rtps_evidence::{Evidence, Explanation, Location, LostNumbers, SentSpan};
use rtps_policies::participant_of;
use std::alloc::{AllocError, Global};
use std::cmp::Reverse;

/// What makes rows not clean together: a participant that is silent, or something between two participants.
#[derive(Drop)]
pub struct Event {
    pub key: EventKey,
    /// The places of its rows among those of the report, which rise.
    pub places: Vec<u64>,
    /// How many numbers of these are lost.
    pub numbers: u128,
    /// Where the first of the lost numbers that were sent was sent first; None where none was.
    pub first: Option<Location>,
    /// Where the last of them was.
    pub last: Option<Location>,
    /// Where the silent participant was asked first for an answer that it never gave; None where it was not, and of two participants.
    pub asked: Option<Location>,
    /// The last datagram of the silent participant; None of two participants.
    pub heard: Option<u64>,
}

/// By what events are found: the numbers that are asked for, which numbers of each row are lost, and who does not talk.
#[derive(Clone, Copy)]
struct Losses<'t> {
    from: u64,
    lost: &'t [LostNumbers],
}

/// How many numbers of a row are lost: those that are asked about and are neither received nor arrived, and of a row that is not held
/// neither likely nor unconfirmed.
fn numbers_lost(from: u64, evidence: &Evidence<'_>) -> u64
    ensures { result ≡ events_spec.numbers_lost from (explanation.evidence_value evidence.now) }
{
    let numbers = asked_about(row_from(from, evidence), evidence.announcement);
    let outcomes = outcomes_of(evidence);
    let left = numbers
        .saturating_sub(outcomes.received)
        .saturating_sub(outcomes.arrived);
    if is_held(evidence) {
        left
    } else {
        left.saturating_sub(outcomes.likely)
            .saturating_sub(outcomes.unconfirmed)
    }
}

/// Whether a place stands before another: in an earlier datagram, or further to the front of the same one.
fn precedes(one: Location, other: Location) -> bool
    ensures { result ≡ waits.precedes one other }
{
    one.datagram < other.datagram || (one.datagram == other.datagram && one.at < other.at)
}

/// The earlier of two places, where there are two.
fn earlier(one: Option<Location>, other: Option<Location>) -> Option<Location>
    ensures { result ≡ events_spec.earlier one other }
{
    match (one, other) {
        (Some(one), Some(other)) => Some(if precedes(other, one) { other } else { one }),
        (Some(one), None) => Some(one),
        (None, other) => other,
    }
}

/// The later of two places, where there are two.
fn later(one: Option<Location>, other: Option<Location>) -> Option<Location>
    ensures { result ≡ events_spec.later one other }
{
    match (one, other) {
        (Some(one), Some(other)) => Some(if precedes(one, other) { other } else { one }),
        (Some(one), None) => Some(one),
        (None, other) => other,
    }
}

/// Between which places the lost numbers of a row are sent first, those that are sent; None where none is.
fn sent_of(losses: Losses<'_>, row: &Explanation<'_>) -> Option<SentSpan>
    ensures { result ≡ events_spec.sent_in (map kinds.lost_value losses.entry.lost.now) (explanation.explanation_value row.now) }
{
    losses.lost.get(row.place)?.sent
}

/// Where the first of them is sent first.
fn first_sent(losses: Losses<'_>, row: &Explanation<'_>) -> Option<Location>
    ensures { result ≡ events_spec.first_sent (map kinds.lost_value losses.entry.lost.now) (explanation.explanation_value row.now) }
{
    match sent_of(losses, row) {
        Some(span) => Some(span.first),
        None => None,
    }
}

/// Where the last of them is.
fn last_sent(losses: Losses<'_>, row: &Explanation<'_>) -> Option<Location>
    ensures { result ≡ events_spec.last_sent (map kinds.lost_value losses.entry.lost.now) (explanation.explanation_value row.now) }
{
    match sent_of(losses, row) {
        Some(span) => Some(span.last),
        None => None,
    }
}

/// Where the reader of a row was asked first for an answer behind its last one.
fn waiting_at(evidence: &Evidence<'_>) -> Option<Location>
    ensures { result ≡ events_spec.waiting_in evidence.now.in_span }
{
    match &evidence.in_span {
        Some(in_span) => in_span.waiting,
        None => None,
    }
}

/// The same, where the reader's participant is the silent one of an event.
fn asked_in(key: EventKey, row: &Explanation<'_>) -> Option<Location>
    ensures { result ≡ events_spec.asked_in key (explanation.explanation_value row.now) }
{
    if key.second.is_none() && key.first == row.pair.reader.prefix {
        waiting_at(&row.evidence)
    } else {
        None
    }
}

/// The places of these rows among those of the report.
fn places_of(alloc: Global, rows: &[&Explanation<'_>]) -> Result<Vec<u64>, AllocError>
    ensures { IfOk result (λ places. places.items ≡ map (λ row. row.place) (events_spec.rows_value rows.now)) }
{
    let mut places = Vec::with_capacity(alloc, rows.len())?;
    for row in rows {
        places.push(row.place as u64)?;
    }
    Ok(places)
}

/// How many numbers of these rows are lost.
fn numbers_of(losses: Losses<'_>, rows: &[&Explanation<'_>]) -> u128
    ensures { result ≡ sum_by (λ row. events_spec.numbers_lost losses.entry.from row.evidence) (events_spec.rows_value rows.now) }
{
    let mut numbers = 0u128;
    for row in rows {
        numbers += u128::from(numbers_lost(losses.from, &row.evidence));
    }
    numbers
}

/// Where the first of the lost numbers of these rows that were sent was sent first.
fn first_of(losses: Losses<'_>, rows: &[&Explanation<'_>]) -> Option<Location>
    ensures { result ≡ events_spec.first_among (map kinds.lost_value losses.entry.lost.now) (events_spec.rows_value rows.now) }
{
    let mut first = None;
    for row in rows {
        first = earlier(first, first_sent(losses, row));
    }
    first
}

/// Where the last of them was.
fn last_of(losses: Losses<'_>, rows: &[&Explanation<'_>]) -> Option<Location>
    ensures { result ≡ events_spec.last_among (map kinds.lost_value losses.entry.lost.now) (events_spec.rows_value rows.now) }
{
    let mut last = None;
    for row in rows {
        last = later(last, last_sent(losses, row));
    }
    last
}

/// Where the silent participant of an event with these rows was asked first for an answer that it never gave.
fn asked_of(key: EventKey, rows: &[&Explanation<'_>]) -> Option<Location>
    ensures { result ≡ events_spec.asked_among key (events_spec.rows_value rows.now) }
{
    let mut asked = None;
    for row in rows {
        asked = earlier(asked, asked_in(key, row));
    }
    asked
}

/// The last datagram of the silent participant of an event.
fn heard_of(talk: &Talk<'_>, key: EventKey) -> Option<u64>
    ensures { result ≡ events_spec.heard_in (talk_spec.talk_value talk.now) key }
{
    match key.second {
        Some(_) => None,
        None => talk.silent_since(participant_of(key.first)),
    }
}

impl Event {
    /// That of a key with these rows.
    fn of(
        alloc: Global,
        report: &FullReport<'_>,
        key: EventKey,
        rows: &[&Explanation<'_>],
    ) -> Result<Event, AllocError>
        ensures { IfOk result (λ event. events_spec.event_value event ≡ events_spec.event_with (asked_spec.asked_value report.now.asked.now) (talk_spec.talk_value report.now.talk) (full_report.lost_of (full_report.report_value report.now)) key (events_spec.rows_value rows.now)) }
    {
        let losses = Losses {
            from: report.asked.first_asked(),
            lost: &report.explained.lost,
        };
        Ok(Event {
            key,
            places: places_of(alloc, rows)?,
            numbers: numbers_of(losses, rows),
            first: first_of(losses, rows),
            last: last_of(losses, rows),
            asked: asked_of(key, rows),
            heard: heard_of(&report.talk, key),
        })
    }
}

/// The events of a report, by their first rows.
fn found_in(alloc: Global, report: &FullReport<'_>) -> Result<Vec<Event>, AllocError>
    ensures { IfOk result (λ events. map events_spec.event_value events.items ≡ events_spec.events_in (asked_spec.asked_value report.now.asked.now) (talk_spec.talk_value report.now.talk) (full_report.lost_of (full_report.report_value report.now)) (full_report.rows_of (full_report.report_value report.now))) }
{
    let rows = EventRows::of(
        alloc,
        &report.talk,
        report.asked.tail,
        &report.explained.rows,
    )?;
    let mut events = Vec::with_capacity(alloc, rows.keys.len())?;
    for key in &rows.keys {
        let own = rows.rows(alloc, *key)?;
        events.push(Event::of(alloc, report, *key, &own)?)?;
    }
    Ok(events)
}

/// The events of a report: first that with most numbers; of those with as many, the one with the first row.
pub fn events_of(alloc: Global, report: &FullReport<'_>) -> Result<Vec<Event>, AllocError>
    ensures { IfOk result (λ events. map events_spec.event_value events.items ≡ events_spec.events_of (asked_spec.asked_value report.now.asked.now) (full_report.report_value report.now)) }
{
    let mut events = found_in(alloc, report)?;
    events.sort_by_key(|event| Reverse(event.numbers))?;
    Ok(events)
}
