//! Fields of lines: places, seconds, numbers, payloads, the words for what is announced. Nothing is formatted on the way where a part is
//! appended: it is copied once.

ghost use Rattle.std.specs.Prelude.{◌≡◌, ◌++◌, codes, OnOk, Some};
ghost use Rattle.std.specs.String.{string_bytes};
ghost use Rattle.rtps_wire.specs.Values as values;
ghost use Rattle.rtps_lines.specs.Lines as lines;
ghost use Rattle.rtps_lines.specs.QosNames as qos_names;

use crate::advice_text::sentence_of;
use crate::sentences::advice as said;
use itoa::{Buffer, Integer};
use rtps_discovery::{Durability, Reliability, Side};
use rtps_evidence::{Kind, Location, Seconds, Times};
use rtps_ids::Guid;
use rtps_policies::Address;
use rtps_report::Advice;
use rtps_wire::Payload;
use std::alloc::AllocError;
use std::fmt;

/// A time in seconds, with three places.
#[derive(Drop)]
pub struct SecondsText(pub Seconds);

impl fmt::Display for SecondsText {
    ghost output = { λ text. Some (lines.seconds_text text.0) };

    #[tactic(auto, unfolding(crate::specs::Lines::seconds_text))]
    fn fmt<W: fmt::Write>(&self, f: &mut fmt::Formatter<W>) -> fmt::Result {
        let milliseconds = self.0.milliseconds;
        let sign = if self.0.negative { "-" } else { "" };
        let tenths = milliseconds / 100 % 10;
        let hundredths = milliseconds / 10 % 10;
        let thousandths = milliseconds % 10;
        write!(
            f,
            "{sign}{}.{tenths}{hundredths}{thousandths}",
            milliseconds / 1000
        )
    }
}

/// A time in nanoseconds since 1970 began, in seconds since the recording began.
pub fn sent_second(times: &Times, time: u64) -> Seconds
    ensures { result ≡ lines.sent_second times.now time }
{
    match times.of_first_frame() {
        Some(start) => Seconds::between(start, time),
        None => Seconds::between(0, time),
    }
}

/// A second behind what it is of; nothing where there is none.
#[derive(Drop)]
struct SecondBehind(Option<Seconds>);

impl fmt::Display for SecondBehind {
    ghost output = { λ text. Some (lines.second_behind text.0) };

    #[tactic(auto, unfolding(crate::specs::Lines::second_behind))]
    fn fmt<W: fmt::Write>(&self, f: &mut fmt::Formatter<W>) -> fmt::Result {
        match self.0 {
            Some(second) => write!(f, ", {} s", SecondsText(second)),
            None => Ok(()),
        }
    }
}

/// The number of a frame behind what it is of; nothing where there is none.
#[derive(Drop)]
struct FrameBehind(Option<u64>);

impl fmt::Display for FrameBehind {
    ghost output = { λ text. Some (lines.frame_behind text.0) };

    #[tactic(auto, unfolding(crate::specs::Lines::frame_behind))]
    fn fmt<W: fmt::Write>(&self, f: &mut fmt::Formatter<W>) -> fmt::Result {
        match self.0 {
            Some(frame) => write!(f, ", frame {frame}"),
            None => Ok(()),
        }
    }
}

/// The frame and the second of a datagram, behind what is said of it; nothing where it has none.
#[derive(Drop)]
pub struct SecondText<'t>(pub &'t Times, pub u64);

impl fmt::Display for SecondText<'_> {
    ghost output = { λ text. Some (lines.second_text text.0.now text.1) };

    fn fmt<W: fmt::Write>(&self, f: &mut fmt::Formatter<W>) -> fmt::Result {
        let frame = FrameBehind(self.0.frame(self.1));
        let second = SecondBehind(self.0.second(self.1));
        write!(f, "{frame}{second}")
    }
}

/// When the last datagram of a participant came that ended; nothing where it has no time, or where there is none.
#[derive(Drop)]
pub(crate) struct EndedText<'t>(pub(crate) &'t Times, pub(crate) Option<u64>);

impl fmt::Display for EndedText<'_> {
    ghost output = { λ text. Some (lines.ended_text text.0.now text.1) };

    #[tactic(auto, unfolding(crate::specs::Lines::at_second))]
    fn fmt<W: fmt::Write>(&self, f: &mut fmt::Formatter<W>) -> fmt::Result {
        let Some(datagram) = self.1 else {
            return Ok(());
        };
        match self.0.second(datagram) {
            Some(second) => write!(f, " at {} s", SecondsText(second)),
            None => Ok(()),
        }
    }
}

/// What to do where a participant was not told of endpoints of another: nothing comes back from this address, if there is one.
#[derive(Drop)]
pub struct NotToldAdvice(pub Option<Address>);

impl fmt::Display for NotToldAdvice {
    ghost output = { λ text. Some (lines.not_told_advice text.0) };

    #[tactic(auto, unfolding(crate::specs::Lines::not_told_advice))]
    fn fmt<W: fmt::Write>(&self, f: &mut fmt::Formatter<W>) -> fmt::Result {
        match self.0 {
            Some(address) => write!(f, "{}{address}{}", said::NOTHING_BACK, said::BY_FIREWALL),
            None => write!(f, "{}", sentence_of(Advice::NotAnnounced)),
        }
    }
}

/// What to do for a pair, in one sentence.
#[derive(Drop)]
pub struct AdviceText<'t>(pub &'t Times, pub Advice);

impl fmt::Display for AdviceText<'_> {
    ghost output = { λ text. Some (lines.advice_text text.0.now text.1) };

    fn fmt<W: fmt::Write>(&self, f: &mut fmt::Formatter<W>) -> fmt::Result {
        let ended = EndedText(self.0, self.1.ended_in());
        write!(f, "{}{ended}", sentence_of(self.1))
    }
}

/// Where a submessage stands, and when its datagram came.
#[derive(Drop)]
pub struct PlaceText<'t>(pub &'t Times, pub Location);

impl fmt::Display for PlaceText<'_> {
    ghost output = { λ text. Some (lines.place_text text.0.now text.1) };

    #[tactic(auto, unfolding(crate::specs::Lines::place_text))]
    fn fmt<W: fmt::Write>(&self, f: &mut fmt::Formatter<W>) -> fmt::Result {
        let place = self.1;
        let second = SecondText(self.0, place.datagram);
        write!(f, "in datagram {} at {}{second}", place.datagram, place.at)
    }
}

/// The name that `show` gives a submessage.
#[tactic(auto, unfolding(crate::specs::Lines::kind_text))]
pub fn kind_name(kind: Kind) -> &'static str
    ensures { result.now ≡ lines.kind_text kind }
{
    match kind {
        Kind::Data => "data",
        Kind::Heartbeat => "heartbeat",
        Kind::AckNack => "acknack",
        Kind::Gap => "gap",
        Kind::DataFrag => "data_frag",
        Kind::NackFrag => "nack_frag",
    }
}

/// Where a submessage stands, when its datagram came, and a comma.
#[derive(Drop)]
pub struct PlaceComma<'t>(pub &'t Times, pub Location);

impl fmt::Display for PlaceComma<'_> {
    ghost output = { λ text. Some (lines.place_comma text.0.now text.1) };

    fn fmt<W: fmt::Write>(&self, f: &mut fmt::Formatter<W>) -> fmt::Result {
        write!(f, "{},", PlaceText(self.0, self.1))
    }
}

/// A GUID, and where its participant is, if that is known.
#[derive(Drop)]
pub(crate) struct HostedGuid(pub(crate) Guid, pub(crate) Option<Address>);

impl fmt::Display for HostedGuid {
    ghost output = { λ text. Some (lines.hosted_text text.0 text.1) };

    fn fmt<W: fmt::Write>(&self, f: &mut fmt::Formatter<W>) -> fmt::Result {
        let guid = self.0;
        match self.1 {
            Some(address) => write!(f, "{guid} at {address}"),
            None => write!(f, "{guid}"),
        }
    }
}

#[inline(always)]
pub fn push_decimal<N: Integer>(text: &mut String, number: N) -> Result<(), AllocError>
    ensures { OnOk result (string_bytes text.new ≡ string_bytes text.old ++ N.text number) }
{
    let mut buffer = Buffer::new();
    text.push_str(buffer.format(number))
}

/// Appends a number behind its name.
#[inline(always)]
pub fn push_field<N: Integer>(text: &mut String, name: &str, number: N) -> Result<(), AllocError>
    ensures { OnOk result (string_bytes text.new ≡ string_bytes text.old ++ (name.now ++ N.text number)) }
{
    text.push_str(name)?;
    push_decimal(text, number)
}

#[tactic(auto, unfolding(crate::specs::Lines::payload_text))]
pub fn push_payload(text: &mut String, payload: Payload<'_>) -> Result<(), AllocError>
    ensures { OnOk result (string_bytes text.new ≡ string_bytes text.old ++ (codes " payload " ++ lines.payload_text (values.payload_value payload.entry))) }
{
    match payload {
        Payload::Absent => text.push_str(" payload absent"),
        Payload::Whole(octets) => push_field(text, " payload whole ", octets.len()),
        Payload::Key(octets) => push_field(text, " payload key ", octets.len()),
    }
}

/// What the line of an endpoint calls its side.
#[tactic(auto, unfolding(crate::specs::QosNames::side_text))]
pub fn side_name(side: Side) -> &'static str
    ensures { result.now ≡ qos_names.side_text side }
{
    match side {
        Side::Writer => "writer",
        Side::Reader => "reader",
    }
}

#[tactic(auto, unfolding(crate::specs::QosNames::reliability_text))]
pub fn reliability_name(reliability: Reliability) -> &'static str
    ensures { result.now ≡ qos_names.reliability_text reliability }
{
    match reliability {
        Reliability::BestEffort => "best-effort",
        Reliability::Reliable => "reliable",
    }
}

#[tactic(auto, unfolding(crate::specs::QosNames::durability_text))]
pub fn durability_name(durability: Durability) -> &'static str
    ensures { result.now ≡ qos_names.durability_text durability }
{
    match durability {
        Durability::Volatile => "volatile",
        Durability::TransientLocal => "transient-local",
        Durability::Transient => "transient",
        Durability::Persistent => "persistent",
    }
}
