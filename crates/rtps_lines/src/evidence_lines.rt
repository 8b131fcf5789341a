ghost use Rattle.std.specs.Prelude.{◌≡◌, ◌++◌, OnOk, Some};
ghost use Rattle.std.specs.Option.{option_map};
ghost use Rattle.std.specs.String.{string_bytes};
ghost use Rattle.rtps_evidence.specs.Locations as locations;
ghost use Rattle.rtps_parts.specs.Parts as parts;
ghost use Rattle.rtps_lines.specs.Lines as lines;

use crate::fields::{PlaceComma, PlaceText, SecondsText, kind_name, push_field, push_payload};
use rtps_audit::Verdict;
use rtps_evidence::{
    Announcement, Claim, FirstMissed, Location, Seconds, Sent, Teller, Times, Wait,
};
use rtps_parts::{Words, words_for};
use std::alloc::AllocError;
use std::fmt;

/// A verdict and its numbers.
#[derive(Drop)]
pub struct VerdictText(pub Verdict);

impl fmt::Display for VerdictText {
    ghost output = { λ text. Some (lines.verdict_text text.0) };

    #[tactic(auto, unfolding(crate::specs::Lines::verdict_text))]
    fn fmt<W: fmt::Write>(&self, f: &mut fmt::Formatter<W>) -> fmt::Result {
        match self.0 {
            Verdict::Complete { last } => write!(f, "complete {last}"),
            Verdict::Open { number } => write!(f, "open {number}"),
            Verdict::Conflict { number } => write!(f, "conflict {number}"),
            Verdict::Unfounded { datagram, number } => write!(f, "unfounded {datagram} {number}"),
        }
    }
}

#[derive(Drop)]
pub struct AnnouncedLine<'t>(pub &'t Times, pub Option<Announcement>);

impl fmt::Display for AnnouncedLine<'_> {
    ghost output = { λ line. Some (lines.announced_line line.0.now line.1) };

    fn fmt<W: fmt::Write>(&self, f: &mut fmt::Formatter<W>) -> fmt::Result {
        let Some(announcement) = self.1 else {
            return writeln!(f, "  announced nothing");
        };
        let kind = kind_name(announcement.kind);
        let place = PlaceText(self.0, announcement.place);
        writeln!(f, "  announced {} by {kind} {place}", announcement.number)
    }
}

#[derive(Drop)]
pub struct AcknowledgedLine<'t>(pub &'t Times, pub Option<Claim>);

impl fmt::Display for AcknowledgedLine<'_> {
    ghost output = { λ line. Some (lines.acknowledged_line line.0.now line.1) };

    fn fmt<W: fmt::Write>(&self, f: &mut fmt::Formatter<W>) -> fmt::Result {
        let Some(claim) = self.1 else {
            return writeln!(f, "  acknowledged nothing");
        };
        let place = PlaceText(self.0, claim.place);
        writeln!(f, "  acknowledged below {} {place}", claim.below)
    }
}

#[derive(Drop)]
pub struct ToldLine<'t>(pub &'t Times, pub i64, pub Option<Teller>);

impl fmt::Display for ToldLine<'_> {
    ghost output = { λ line. Some (lines.told_line line.0.now line.1 line.2) };

    fn fmt<W: fmt::Write>(&self, f: &mut fmt::Formatter<W>) -> fmt::Result {
        let number = self.1;
        let Some(teller) = self.2 else {
            return writeln!(f, "  number {number} told nowhere");
        };
        let (kind, place) = (kind_name(teller.kind), PlaceText(self.0, teller.place));
        writeln!(f, "  number {number} told by {kind} {place}")
    }
}

/// The line of the answer that claimed a number too early; nothing where there is none.
#[derive(Drop)]
pub struct ClaimedLine<'t>(pub &'t Times, pub Option<Claim>);

impl fmt::Display for ClaimedLine<'_> {
    ghost output = { λ line. Some (lines.claimed_line line.0.now line.1) };

    fn fmt<W: fmt::Write>(&self, f: &mut fmt::Formatter<W>) -> fmt::Result {
        let Some(claim) = self.1 else {
            return Ok(());
        };
        let place = PlaceText(self.0, claim.place);
        writeln!(f, "  claimed below {} {place}", claim.below)
    }
}

#[derive(Drop)]
pub struct AskedLine<'t>(pub &'t Times, pub FirstMissed);

impl fmt::Display for AskedLine<'_> {
    ghost output = { λ line. Some (lines.asked_line line.0.now line.1) };

    fn fmt<W: fmt::Write>(&self, f: &mut fmt::Formatter<W>) -> fmt::Result {
        let first = self.1;
        let asked = PlaceComma(self.0, first.asked);
        let again = AgainText(self.0, first.again);
        let since = SinceText(self.0, first.gone);
        writeln!(
            f,
            "    number {} asked for {asked} {again}{since}",
            first.number
        )
    }
}

#[derive(Drop)]
struct AgainText<'t>(&'t Times, Option<Location>);

impl fmt::Display for AgainText<'_> {
    ghost output = { λ text. Some (lines.again_text text.0.now text.1) };

    #[tactic(auto, unfolding(crate::specs::Lines::again_text))]
    fn fmt<W: fmt::Write>(&self, f: &mut fmt::Formatter<W>) -> fmt::Result {
        match self.1 {
            None => Ok(()),
            Some(place) => write!(f, "sent again {} ", PlaceComma(self.0, place)),
        }
    }
}

#[derive(Drop)]
struct SinceText<'t>(&'t Times, Option<Teller>);

impl fmt::Display for SinceText<'_> {
    ghost output = { λ text. Some (lines.since_text text.0.now text.1) };

    #[tactic(auto, unfolding(crate::specs::Lines::since_text))]
    fn fmt<W: fmt::Write>(&self, f: &mut fmt::Formatter<W>) -> fmt::Result {
        let Some(teller) = self.1 else {
            return write!(f, "not told gone since");
        };
        let (kind, place) = (kind_name(teller.kind), PlaceText(self.0, teller.place));
        write!(f, "told gone by {kind} {place}")
    }
}

fn times_words() -> Words
    ensures { parts.words_value result ≡ lines.times_words }
{
    Words {
        one: "time",
        many: "times",
    }
}

#[derive(Drop)]
pub struct QuestionsLine<'t>(pub &'t Times, pub u64, pub Option<Location>);

impl fmt::Display for QuestionsLine<'_> {
    ghost output = { λ line. Some (lines.questions_line line.0.now line.1 line.2) };

    fn fmt<W: fmt::Write>(&self, f: &mut fmt::Formatter<W>) -> fmt::Result {
        let Some(place) = self.2 else {
            return writeln!(f, "  not asked since its last answer");
        };
        let (count, place) = (self.1, PlaceText(self.0, place));
        let times = words_for(u128::from(count), times_words());
        writeln!(
            f,
            "  asked {count} {times} since its last answer, last {place}"
        )
    }
}

/// How long a reader let its writer wait for an answer.
#[derive(Drop)]
pub struct WaitText<'t>(pub &'t Times, pub Wait);

impl fmt::Display for WaitText<'_> {
    ghost output = { λ text. Some (lines.wait_text text.0.now text.1) };

    fn fmt<W: fmt::Write>(&self, f: &mut fmt::Formatter<W>) -> fmt::Result {
        let wait = self.1;
        let seconds = SecondsText(Seconds::of(wait.nanoseconds));
        let asked = PlaceComma(self.0, wait.asked);
        let answered = AnsweredText(self.0, wait.answered);
        write!(
            f,
            "let the writer wait {seconds} s: asked {asked} {answered}"
        )
    }
}

#[derive(Drop)]
struct AnsweredText<'t>(&'t Times, Option<Location>);

impl fmt::Display for AnsweredText<'_> {
    ghost output = { λ text. Some (lines.answered_text text.0.now text.1) };

    #[tactic(auto, unfolding(crate::specs::Lines::answered_text))]
    fn fmt<W: fmt::Write>(&self, f: &mut fmt::Formatter<W>) -> fmt::Result {
        match self.1 {
            None => write!(f, "not answered"),
            Some(place) => write!(f, "answered {}", PlaceText(self.0, place)),
        }
    }
}

/// Appends the line of what was sent for a number; nothing where nothing was.
pub fn push_sent(
    text: &mut String,
    number: i64,
    sent: Option<Sent<'_>>,
    times: &Times,
) -> Result<(), AllocError>
    ensures { OnOk result (string_bytes text.new
        ≡ string_bytes text.old ++ lines.sent_line times.now number (option_map locations.sent_value sent.entry)) }
{
    let Some(sent) = sent else {
        return Ok(());
    };
    push_field(text, "  number ", number)?;
    push_payload(text, sent.payload)?;
    writeln!(text, " {}", PlaceText(times, sent.place))
}
