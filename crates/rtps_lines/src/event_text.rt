ghost use Rattle.std.specs.Prelude.{◌≡◌, ◌++◌, OnOk, Some};
ghost use Rattle.std.specs.String.{string_bytes};
ghost use Rattle.rtps_report.specs.Events as events;
ghost use Rattle.rtps_report.specs.Talk as talk_spec;
ghost use Rattle.rtps_lines.specs.EventText as event_text_spec;

use crate::fields::{EndedText, SecondsText};
use crate::notes::{number_words, pair_words};
use crate::number_ranges::place_second;
use rtps_evidence::{Location, Seconds, Times};
use rtps_ids::{Guid, GuidPrefix};
use rtps_parts::{NameOctets, Part, render};
use rtps_policies::{Address, participant_of};
use rtps_report::{Event, Talk};
use std::alloc::AllocError;
use std::fmt;

/// What a participant is called: its process, where that is known, or else where it is.
#[derive(Clone, Copy, Drop)]
pub struct ParticipantText<'t> {
    pid: Option<u32>,
    host: Option<&'t [u8]>,
    address: Option<Address>,
    guid: Guid,
}

impl fmt::Display for ParticipantText<'_> {
    ghost output = { λ told. Some (event_text_spec.told_as told) };

    #[tactic(auto, unfolding(crate::specs::EventText::participant_text))]
    fn fmt<W: fmt::Write>(&self, f: &mut fmt::Formatter<W>) -> fmt::Result {
        match (self.pid, self.host, self.address) {
            (Some(pid), Some(host), _) => write!(f, "process {pid} on {}", NameOctets(host)),
            (Some(pid), None, Some(address)) => write!(f, "process {pid} at {address}"),
            (Some(pid), None, None) => write!(f, "process {pid}"),
            (None, _, Some(address)) => write!(f, "{address}"),
            (None, _, None) => write!(f, "participant {}", self.guid),
        }
    }
}

/// What a participant is called, by what is known of it.
pub fn called<'a>(talk: &Talk<'a>, prefix: GuidPrefix) -> ParticipantText<'a>
    ensures { event_text_spec.told_as result ≡ event_text_spec.called (talk_spec.talk_value talk.now) prefix }
{
    let guid = participant_of(prefix);
    let end = talk.end(guid);
    ParticipantText {
        pid: end.process.pid,
        host: end.process.host,
        address: end.address,
        guid,
    }
}

/// When a silent participant was asked first for an answer behind its last one; nothing where it was not, or that has no time.
#[derive(Drop)]
struct AskedText(Option<Seconds>);

impl fmt::Display for AskedText {
    ghost output = { λ asked. Some (event_text_spec.asked_text asked.0) };

    #[tactic(auto, unfolding(crate::specs::EventText::asked_text))]
    fn fmt<W: fmt::Write>(&self, f: &mut fmt::Formatter<W>) -> fmt::Result {
        match self.0 {
            Some(second) => write!(f, ", was asked from {} s on", SecondsText(second)),
            None => Ok(()),
        }
    }
}

/// Whether two times are the same as they are said.
fn is_same(one: Seconds, other: Seconds) -> bool
    ensures { result ≡ event_text_spec.is_same_second one other }
{
    one.negative == other.negative && one.milliseconds == other.milliseconds
}

/// Between which times the lost numbers of an event were sent first; nothing where one of the two is not known.
#[derive(Drop)]
struct SentText(Option<Seconds>, Option<Seconds>);

impl fmt::Display for SentText {
    ghost output = { λ sent. Some (event_text_spec.sent_text sent.0 sent.1) };

    #[tactic(auto, unfolding(crate::specs::EventText::sent_text))]
    fn fmt<W: fmt::Write>(&self, f: &mut fmt::Formatter<W>) -> fmt::Result {
        match (self.0, self.1) {
            (Some(first), Some(last)) if is_same(first, last) => {
                write!(f, ", first sent at {} s", SecondsText(first))
            }
            (Some(first), Some(last)) => write!(
                f,
                ", first sent between {} s and {} s",
                SecondsText(first),
                SecondsText(last)
            ),
            (Some(_), None) => Ok(()),
            (None, _) => Ok(()),
        }
    }
}

/// Appends that a participant is silent: when it was heard last, and when it was asked first behind its last answer.
fn push_silent(
    text: &mut String,
    event: &Event,
    silent: ParticipantText<'_>,
    times: &Times,
) -> Result<(), AllocError>
    ensures { OnOk result (string_bytes text.new ≡ string_bytes text.old ++ event_text_spec.silent_by times.now (event_text_spec.told_as silent.entry) (events.event_value event.now)) }
{
    let heard = EndedText(times, event.heard);
    let asked = AskedText(place_second(times, event.asked));
    write!(
        text,
        "{silent} was last heard{heard}{asked}, and did not leave"
    )
}

/// Appends from whom to whom numbers are lost, and between which times they were sent first.
fn push_between(
    text: &mut String,
    event: &Event,
    parties: (ParticipantText<'_>, ParticipantText<'_>),
    times: &Times,
) -> Result<(), AllocError>
    ensures { OnOk result (string_bytes text.new
        ≡ string_bytes text.old ++ event_text_spec.between_by times.now (event_text_spec.told_as parties.entry.0) (event_text_spec.told_as parties.entry.1) (events.event_value event.now)) }
{
    let (writer, reader) = parties;
    let first = place_second(times, event.first);
    let last = place_second(times, event.last);
    let sent = SentText(first, last);
    write!(text, "from {writer} to {reader}{sent}")
}

/// Appends what an event is about.
fn push_about(
    text: &mut String,
    event: &Event,
    talk: &Talk<'_>,
    times: &Times,
) -> Result<(), AllocError>
    ensures { OnOk result (string_bytes text.new ≡ string_bytes text.old ++ event_text_spec.about_text times.now (talk_spec.talk_value talk.now) (events.event_value event.now) event.now.key.second) }
{
    let first = called(talk, event.key.first);
    match event.key.second {
        None => push_silent(text, event, first, times),
        Some(second) => push_between(text, event, (first, called(talk, second)), times),
    }
}

/// Appends how many numbers are lost, behind a comma; nothing where none is.
fn push_numbers(text: &mut String, numbers: u128) -> Result<(), AllocError>
    ensures { OnOk result (string_bytes text.new ≡ string_bytes text.old ++ event_text_spec.numbers_text numbers) }
{
    if numbers == 0 {
        return Ok(());
    }
    render(
        text,
        &[Part::Text(", "), Part::Amount(numbers, number_words())],
    )
}

/// Appends how many pairs an event has, and how many numbers they lost.
fn push_amounts(text: &mut String, pairs: usize, numbers: u128) -> Result<(), AllocError>
    ensures { OnOk result (string_bytes text.new ≡ string_bytes text.old ++ event_text_spec.amounts_text pairs numbers) }
{
    render(
        text,
        &[Part::Text(": "), Part::Amount(pairs as u128, pair_words())],
    )?;
    push_numbers(text, numbers)
}

/// Appends an event in a sentence.
pub fn push_event_text(
    text: &mut String,
    event: &Event,
    talk: &Talk<'_>,
    times: &Times,
) -> Result<(), AllocError>
    ensures { OnOk result (string_bytes text.new ≡ string_bytes text.old ++ event_text_spec.event_text times.now (talk_spec.talk_value talk.now) (events.event_value event.now)) }
{
    push_about(text, event, talk, times)?;
    push_amounts(text, event.places.len(), event.numbers)
}
