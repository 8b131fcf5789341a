ghost use Rattle.std.specs.Prelude.{◌≡◌};
ghost use Rattle.std.specs.Option.{option_map};
ghost use Rattle.rtps_evidence.specs.Explanation as explanation;
ghost use Rattle.rtps_evidence.specs.Locations as locations;
ghost use Rattle.rtps_wire.specs.Values as values;
ghost use Rattle.rtps_report.specs.Advice as advice_spec;

use crate::row_facts::{
    is_held, is_joined, is_tail, left_at, natural, number_of, outcomes_of, row_from,
};
use crate::silences::Silences;
use rtps_evidence::{
    Announcement, Claim, Evidence, FirstMissed, Grounds, Location, Sent, Teller, Times,
};
use rtps_wire::Payload;

/// How many nanoseconds a second has.
const SECOND: u64 = 1_000_000_000;

/// What a row is told by beside its pair.
#[derive(Clone, Copy)]
pub struct Scope {
    /// The number from which on numbers are asked for.
    pub from: u64,
    /// The most numbers that a tail may have.
    pub tail: u64,
    /// Whether parts of the recording were not read that may have samples.
    pub unread: bool,
}

/// What to do for a pair.
#[derive(Clone, Copy)]
pub enum Advice {
    /// A participant of the pair has two lives under one GUID.
    TwoLives,
    /// The reader's participant is silent since this datagram.
    ReaderEnded(u64),
    /// The writer's participant is.
    WriterEnded(u64),
    /// The reader acknowledged nothing, and its participant was not told of endpoints of the writer's.
    NotAnnounced,
    /// Of a pair that is held: numbers that were sent did not arrive, and not only a tail.
    Lost,
    /// The two matched late, and numbers are unsent, or missed and nothing of the first one is sent to the reader.
    MatchedLate,
    /// Missed: nothing of the first number is sent to the reader.
    MissedUnsent,
    /// Missed: the first number was sent again.
    MissedAgain,
    /// Missed: it was not.
    MissedOnce,
    /// Complete: numbers are unsent.
    Unsent,
    /// Complete: numbers are unanswered.
    Unanswered,
    /// Open: only a tail.
    Tail,
    /// Open: nothing tells the number, and not all was read.
    OpenUnread,
    /// Open: nothing tells the number.
    OpenUntold,
    /// Open: the reader was not asked since its last answer, acknowledged nothing, and left.
    Left,
    /// Open: the reader was not asked since its last answer.
    NotAsked,
    /// Open: it was asked, at first in the last second of the recording.
    JustAsked,
    /// Open: it was asked, and acknowledged nothing.
    NeverAnswered,
    /// Open: it was asked since its last answer.
    Silent,
    /// Conflict: two payloads of one kind and size.
    Alike,
    /// Conflict: two others.
    Unlike,
    /// Unfounded: told in the datagram of the claim.
    Relayed,
    /// Unfounded: not all was read.
    UnfoundedUnread,
    /// Unfounded: told later.
    Late,
    /// Unfounded: told nowhere, and not announced.
    Unannounced,
    /// Unfounded: told nowhere, the first number of the row, of a reader that did not join in this recording.
    BeganLate,
    /// Unfounded: told nowhere.
    Lacking,
}

fn missed_advice(first: FirstMissed) -> Advice
    ensures { result ≡ advice_spec.missed_advice first }
{
    if !first.is_sent {
        Advice::MissedUnsent
    } else if first.again.is_some() {
        Advice::MissedAgain
    } else {
        Advice::MissedOnce
    }
}

/// Whether there is a first missed number that was sent.
fn is_first_sent(first: Option<FirstMissed>) -> bool
    ensures { result ≡ advice_spec.is_first_sent first }
{
    match first {
        Some(first) => first.is_sent,
        None => false,
    }
}

/// Whether a pair is held, and numbers that were sent did not arrive, and not only a tail.
fn is_lost(evidence: &Evidence<'_>) -> bool
    ensures { result ≡ advice_spec.is_lost (explanation.evidence_value evidence.now) }
{
    let outcomes = outcomes_of(evidence);
    is_held(evidence)
        && !is_tail(evidence)
        && (outcomes.likely > 0
            || outcomes.unanswered > 0
            || outcomes.unconfirmed > 0
            || (outcomes.missed > 0 && is_first_sent(evidence.first_missed)))
}

/// What to do for a pair of which numbers are lost or missed. Of a pair that is held all missed ones may have arrived.
fn loss_advice(evidence: &Evidence<'_>) -> Option<Advice>
    ensures { result ≡ advice_spec.loss_advice (explanation.evidence_value evidence.now) }
{
    if is_lost(evidence) {
        return Some(Advice::Lost);
    }
    match evidence.first_missed {
        Some(first) if outcomes_of(evidence).missed > 0 => Some(missed_advice(first)),
        _ => None,
    }
}

fn complete_advice(evidence: &Evidence<'_>) -> Advice
    ensures { result ≡ advice_spec.complete_advice (explanation.evidence_value evidence.now) }
{
    if let Some(advice) = loss_advice(evidence) {
        advice
    } else if outcomes_of(evidence).unsent > 0 {
        Advice::Unsent
    } else {
        Advice::Unanswered
    }
}

/// Whether a time is in the last second before the end, where there are both.
fn is_last_second(time: Option<u64>, end: Option<u64>) -> bool
    ensures { result ≡ advice_spec.is_last_second time end }
{
    match (time, end) {
        (Some(time), Some(end)) => end.saturating_sub(time) <= SECOND,
        _ => false,
    }
}

/// Whether a datagram came in the last second of the recording.
fn came_last(times: &Times, datagram: u64) -> bool
    ensures { result ≡ advice_spec.came_last times.now datagram }
{
    is_last_second(times.of_datagram(datagram), times.of_last_frame())
}

/// What to do where the reader was not asked since its last answer.
fn unasked_advice(acknowledged: bool, left: bool) -> Advice
    ensures { result ≡ advice_spec.unasked_advice acknowledged left }
{
    if !acknowledged && left {
        Advice::Left
    } else {
        Advice::NotAsked
    }
}

/// What to do where it was asked, at first in this datagram.
fn unanswered_advice(times: &Times, acknowledged: bool, datagram: u64) -> Advice
    ensures { result ≡ advice_spec.unanswered_advice times.now acknowledged datagram }
{
    if came_last(times, datagram) {
        Advice::JustAsked
    } else if acknowledged {
        Advice::Silent
    } else {
        Advice::NeverAnswered
    }
}

/// What to do for an open pair whose number is told, by where its reader was asked first since its last answer.
fn asked_advice(times: &Times, evidence: &Evidence<'_>, first: Option<Location>) -> Advice
    ensures { result ≡ advice_spec.asked_advice times.now (explanation.evidence_value evidence.now) first }
{
    let acknowledged = evidence.acknowledgement.is_some();
    match first {
        Some(first) => unanswered_advice(times, acknowledged, first.datagram),
        None => unasked_advice(acknowledged, left_at(evidence).is_some()),
    }
}

fn untold_open_advice(scope: Scope) -> Advice
    ensures { result ≡ advice_spec.untold_open_advice scope }
{
    if scope.unread {
        Advice::OpenUnread
    } else {
        Advice::OpenUntold
    }
}

fn are_alike(one: Payload<'_>, other: Payload<'_>) -> bool
    ensures { result ≡ advice_spec.are_alike (values.payload_value one.entry) (values.payload_value other.entry) }
{
    match (one, other) {
        (Payload::Absent, Payload::Absent) => true,
        (Payload::Whole(one), Payload::Whole(other)) => other.len() == one.len(),
        (Payload::Key(one), Payload::Key(other)) => other.len() == one.len(),
        _ => false,
    }
}

fn conflict_advice(first: Option<Sent<'_>>, other: Option<Sent<'_>>) -> Advice
    ensures { result ≡ advice_spec.conflict_advice (option_map locations.sent_value first.entry) (option_map locations.sent_value other.entry) }
{
    match (first, other) {
        (Some(first), Some(other)) if are_alike(first.payload, other.payload) => Advice::Alike,
        _ => Advice::Unlike,
    }
}

fn stand_together(teller: Option<Teller>, claim: Option<Claim>) -> bool
    ensures { result ≡ advice_spec.stand_together teller claim }
{
    match (teller, claim) {
        (Some(teller), Some(claim)) => teller.place.datagram == claim.place.datagram,
        _ => false,
    }
}

fn is_above(announcement: Option<Announcement>, number: i64) -> bool
    ensures { result ≡ advice_spec.is_above announcement number }
{
    match announcement {
        None => true,
        Some(announcement) => announcement.number < number,
    }
}

fn unfounded_advice(
    scope: Scope,
    evidence: &Evidence<'_>,
    teller: Option<Teller>,
    claim: Option<Claim>,
) -> Advice
    ensures { result ≡ advice_spec.unfounded_advice scope (explanation.evidence_value evidence.now) teller claim }
{
    if stand_together(teller, claim) {
        Advice::Relayed
    } else if scope.unread {
        Advice::UnfoundedUnread
    } else if teller.is_none() {
        let number = number_of(&evidence.verdict);
        if is_above(evidence.announcement, number) {
            Advice::Unannounced
        } else if natural(number) == row_from(scope.from, evidence) && !is_joined(evidence) {
            Advice::BeganLate
        } else {
            Advice::Lacking
        }
    } else {
        Advice::Late
    }
}

/// What to do for a pair, where nobody is silent.
fn heard_advice(scope: Scope, evidence: &Evidence<'_>, times: &Times) -> Advice
    ensures { result ≡ advice_spec.advice_by times.now scope (explanation.evidence_value evidence.now) (explanation.evidence_value evidence.now).grounds }
{
    match evidence.grounds {
        Grounds::Complete => complete_advice(evidence),
        Grounds::Open {
            teller,
            first_asked,
            ..
        } => match loss_advice(evidence) {
            Some(advice) => advice,
            None if is_tail(evidence) => Advice::Tail,
            None if teller.is_none() => untold_open_advice(scope),
            None => asked_advice(times, evidence, first_asked),
        },
        Grounds::Conflict { first, other } => conflict_advice(first, other),
        Grounds::Unfounded { teller, claim } => unfounded_advice(scope, evidence, teller, claim),
    }
}

impl Silences {
    /// What to do for a pair of which one of the two participants is silent.
    fn ended(self) -> Option<Advice>
        ensures { result ≡ advice_spec.ended_advice self }
    {
        match (self.reader, self.writer) {
            (Some(last), _) => Some(Advice::ReaderEnded(last)),
            (None, Some(last)) => Some(Advice::WriterEnded(last)),
            (None, None) => None,
        }
    }

    /// What to do for a pair by its participants alone, of which the reader knows the writer or not.
    fn advice(self, known: bool) -> Option<Advice>
        ensures { result ≡ advice_spec.participant_advice self known }
    {
        if self.is_twice {
            return Some(Advice::TwoLives);
        }
        match self.ended() {
            Some(advice) => Some(advice),
            None if self.is_not_told && !known => Some(Advice::NotAnnounced),
            None => None,
        }
    }
}

/// What to do where this would be done of a pair whose two did not match late.
fn late_advice(matched_late: bool, advice: Advice) -> Advice
    ensures { result ≡ advice_spec.late_advice matched_late advice }
{
    match advice {
        Advice::Unsent | Advice::MissedUnsent if matched_late => Advice::MatchedLate,
        _ => advice,
    }
}

/// Whether the reader of a row knows its writer: it acknowledged a number of the row, or all before it.
fn is_known(evidence: &Evidence<'_>) -> bool
    ensures { result ≡ advice_spec.is_known (explanation.evidence_value evidence.now) }
{
    evidence.acknowledgement.is_some() || is_tail(evidence)
}

/// What to do for a pair, of whose participants this is known.
pub fn advice_of(scope: Scope, evidence: &Evidence<'_>, silences: Silences, times: &Times) -> Advice
    ensures { result ≡ advice_spec.advice_of times.now silences scope (explanation.evidence_value evidence.now) }
{
    match silences.advice(is_known(evidence)) {
        Some(advice) => advice,
        None => late_advice(silences.matched_late, heard_advice(scope, evidence, times)),
    }
}

impl Advice {
    /// The last datagram of the participant that ended, where the advice is of one.
    pub fn ended_in(self) -> Option<u64>
        ensures { result ≡ advice_spec.ended_in self }
    {
        match self {
            Advice::ReaderEnded(last) | Advice::WriterEnded(last) => Some(last),
            _ => None,
        }
    }
}
