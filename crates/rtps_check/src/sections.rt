ghost use Rattle.std.specs.Prelude.{◌≡◌, ◌++◌, OnOk, IfOk, map, flat_map, option_copied, option_map, string_bytes};
ghost use Rattle.rtps_evidence.specs.Explanation as explanation;
ghost use Rattle.rtps_evidence.specs.Locations as locations;
ghost use Rattle.rtps_lines.specs.Lines as lines_spec;
ghost use Rattle.rtps_parts.specs.Parts as parts;
ghost use Rattle.rtps_check.specs.CheckText as check_text;

use crate::unmatched_block::end_by;
use rtps_evidence::{Evidence, Explanation, Grounds, InSpan, Outcomes, Sent, Times};
use rtps_lines::{
    AcknowledgedLine, AdviceText, AnnouncedLine, AskedLine, ClaimedLine, LostRows, QuestionsLine,
    SecondText, ToldLine, VerdictText, WaitText, push_field, push_lost_lines, push_sent,
    silence_lines,
};
use rtps_parts::{Part, render};
use rtps_report::{
    Scope, Silences, Talk, advice_of, is_noted, left_at, number_of, outcomes_of, row_from,
};
use std::alloc::{AllocError, Global};

/// By what rows are told beside themselves.
#[derive(Clone, Copy)]
pub(crate) struct RowTelling<'t, 'a> {
    pub(crate) scope: Scope,
    /// Where participants are.
    pub(crate) talk: &'t Talk<'a>,
    /// Which numbers of each row are lost, and when datagrams came.
    pub(crate) lost: LostRows<'t>,
}

fn push_kind(text: &mut String, name: &str, count: u64) -> Result<(), AllocError>
    ensures { OnOk result (string_bytes text.new ≡ string_bytes text.old ++ check_text.kind_text name.now count) }
{
    if count == 0 {
        return Ok(());
    }
    push_field(text, name, count)
}

fn push_kinds(text: &mut String, outcomes: Outcomes) -> Result<(), AllocError>
    ensures { OnOk result (string_bytes text.new ≡ string_bytes text.old ++ check_text.kinds_text outcomes) }
{
    push_field(text, ", received ", outcomes.received)?;
    push_kind(text, ", arrived ", outcomes.arrived)?;
    push_kind(text, ", likely ", outcomes.likely)?;
    push_kind(text, ", missed ", outcomes.missed)?;
    push_kind(text, ", unsent ", outcomes.unsent)?;
    push_kind(text, ", unanswered ", outcomes.unanswered)?;
    push_kind(text, ", unconfirmed ", outcomes.unconfirmed)?;
    text.push_str("\n")
}

fn push_missed(text: &mut String, evidence: &Evidence<'_>, times: &Times) -> Result<(), AllocError>
    ensures { OnOk result (string_bytes text.new ≡ string_bytes text.old ++ check_text.missed_line times.now (explanation.evidence_value evidence.now)) }
{
    match evidence.first_missed {
        Some(first) => write!(text, "{}", AskedLine(times, first)),
        None => Ok(()),
    }
}

fn push_payload(
    text: &mut String,
    number: i64,
    sent: Option<Sent<'_>>,
    times: &Times,
) -> Result<(), AllocError>
    ensures { OnOk result (string_bytes text.new
        ≡ string_bytes text.old ++ check_text.payload_line times.now number (option_map locations.sent_value sent.entry)) }
{
    if sent.is_none() {
        return Ok(());
    }
    text.push_str("  ")?;
    push_sent(text, number, sent, times)
}

fn push_verdict(text: &mut String, evidence: &Evidence<'_>, times: &Times) -> Result<(), AllocError>
    ensures { OnOk result (string_bytes text.new ≡ string_bytes text.old ++ check_text.verdict_lines times.now (explanation.evidence_value evidence.now)) }
{
    let number = number_of(&evidence.verdict);
    match evidence.grounds {
        Grounds::Complete => Ok(()),
        Grounds::Open {
            teller,
            asked_since,
            last_asked,
            ..
        } => {
            write!(
                text,
                "  {}  {}  {}",
                AcknowledgedLine(times, evidence.acknowledgement),
                ToldLine(times, number, teller),
                QuestionsLine(times, asked_since, last_asked)
            )
        }
        Grounds::Conflict { first, other } => {
            push_payload(text, number, first, times)?;
            push_payload(text, number, other, times)
        }
        Grounds::Unfounded { teller, claim } => {
            write!(
                text,
                "  {}  {}  {}",
                AnnouncedLine(times, evidence.announcement),
                ClaimedLine(times, claim),
                ToldLine(times, number, teller)
            )
        }
    }
}

fn push_left(text: &mut String, left: Option<u64>, times: &Times) -> Result<(), AllocError>
    ensures { OnOk result (string_bytes text.new ≡ string_bytes text.old ++ check_text.left_text times.now left) }
{
    match left {
        Some(datagram) => {
            let second = SecondText(times, datagram);
            write!(text, ", left in datagram {datagram}{second}")
        }
        None => Ok(()),
    }
}

fn push_pair(
    text: &mut String,
    row: &Explanation<'_>,
    told: RowTelling<'_, '_>,
) -> Result<(), AllocError>
    ensures { OnOk result (string_bytes text.new ≡ string_bytes text.old ++ check_text.pair_lines (check_text.row_told told.entry) (explanation.explanation_value row.now)) }
{
    let first = row_from(told.scope.from, &row.evidence);
    let writer = end_by(told.talk, row.pair.writer);
    let reader = end_by(told.talk, row.pair.reader);
    write!(text, "  writer {writer}\n  reader {reader}, from {first}")?;
    push_left(text, left_at(&row.evidence), told.lost.times)?;
    text.push_str("\n")
}

fn push_head(
    text: &mut String,
    row: &Explanation<'_>,
    told: RowTelling<'_, '_>,
) -> Result<(), AllocError>
    ensures { OnOk result (string_bytes text.new ≡ string_bytes text.old ++ check_text.row_head (check_text.row_told told.entry) (explanation.explanation_value row.now)) }
{
    push_pair(text, row, told)?;
    write!(text, "  {}", VerdictText(row.evidence.verdict))?;
    push_kinds(text, outcomes_of(&row.evidence))
}

/// Appends the longest that the reader of a row let the writer wait, where that is told.
fn push_wait(text: &mut String, in_span: Option<&InSpan>, times: &Times) -> Result<(), AllocError>
    ensures { OnOk result (string_bytes text.new ≡ string_bytes text.old ++ check_text.wait_line times.now (option_copied in_span.entry)) }
{
    match in_span {
        Some(
            InSpan {
                wait: Some(wait),
                ..
            },
        ) => writeln!(text, "    {}", WaitText(times, *wait)),
        _ => Ok(()),
    }
}

/// Appends sentences, each in a line of its own.
fn push_sentences(text: &mut String, sentences: &[String]) -> Result<(), AllocError>
    ensures { OnOk result (string_bytes text.new ≡ string_bytes text.old ++ flat_map check_text.sentence_line (map string_bytes sentences.now)) }
{
    for sentence in sentences {
        let parts = [Part::Text("    "), Part::Text(sentence), Part::Text("\n")];
        render(text, &parts)?;
    }
    Ok(())
}

/// Appends since when the participants of a row are silent, of those that are.
fn push_silences(
    alloc: Global,
    text: &mut String,
    silences: Silences,
    times: &Times,
) -> Result<(), AllocError>
    ensures { OnOk result (string_bytes text.new ≡ string_bytes text.old ++ flat_map check_text.sentence_line (lines_spec.silence_lines times.now silences)) }
{
    let sentences = silence_lines(alloc, times, silences)?;
    push_sentences(text, &sentences)
}

/// Appends what explains a row: its numbers, its verdict, how long it let the writer wait, and who is silent.
fn push_reasons(
    alloc: Global,
    text: &mut String,
    row: &Explanation<'_>,
    told: RowTelling<'_, '_>,
) -> Result<(), AllocError>
    ensures { OnOk result (string_bytes text.new ≡ string_bytes text.old ++ check_text.reason_lines (check_text.row_told told.entry) (explanation.explanation_value row.now)) }
{
    push_lost_lines(text, told.lost, row.place)?;
    push_missed(text, &row.evidence, told.lost.times)?;
    push_verdict(text, &row.evidence, told.lost.times)?;
    push_wait(text, row.evidence.in_span.as_ref(), told.lost.times)?;
    push_silences(alloc, text, told.talk.silences(row.pair), told.lost.times)
}

fn push_advice(
    text: &mut String,
    row: &Explanation<'_>,
    told: RowTelling<'_, '_>,
) -> Result<(), AllocError>
    ensures { OnOk result (string_bytes text.new ≡ string_bytes text.old ++ check_text.advice_line (check_text.row_told told.entry) (explanation.explanation_value row.now)) }
{
    let silences = told.talk.silences(row.pair);
    let advice = advice_of(told.scope, &row.evidence, silences, told.lost.times);
    writeln!(text, "    -> {}", AdviceText(told.lost.times, advice))
}

fn push_row(
    alloc: Global,
    text: &mut String,
    row: &Explanation<'_>,
    told: RowTelling<'_, '_>,
) -> Result<(), AllocError>
    ensures { OnOk result (string_bytes text.new ≡ string_bytes text.old ++ check_text.row_lines (check_text.row_told told.entry) (explanation.explanation_value row.now)) }
{
    push_head(text, row, told)?;
    push_reasons(alloc, text, row, told)?;
    push_advice(text, row, told)
}

/// The lines of those of these pairs that someone has to look at.
fn lines_of(
    alloc: Global,
    rows: &[Explanation<'_>],
    told: RowTelling<'_, '_>,
) -> Result<String, AllocError>
    ensures { IfOk result (λ lines. string_bytes lines ≡ flat_map (check_text.noted_lines (check_text.row_told told.entry)) (map explanation.explanation_value rows.now)) }
{
    let mut lines = String::new(alloc);
    for row in rows {
        if is_noted(told.scope.tail, &row.evidence, told.talk.silences(row.pair)) {
            push_row(alloc, &mut lines, row, told)?;
        }
    }
    Ok(lines)
}

/// The line of a topic: its name and its type; nothing where there is no row.
fn topic_head<'a>(rows: &[Explanation<'a>]) -> [Part<'a>; 4]
    ensures { flat_map parts.part_text result ≡ check_text.topic_head (map explanation.explanation_value rows.now) }
{
    match rows.first() {
        Some(row) => [
            Part::TopicName(row.topic),
            Part::Text(" "),
            Part::TypeName(row.type_name),
            Part::Text("\n"),
        ],
        None => [Part::Text(""); 4],
    }
}

fn push_headed(text: &mut String, head: &[Part<'_>], lines: &str) -> Result<(), AllocError>
    ensures { OnOk result (string_bytes text.new ≡ string_bytes text.old ++ check_text.headed (flat_map parts.part_text head.now) lines.now) }
{
    if lines.is_empty() {
        return Ok(());
    }
    text.push_str("\n")?;
    render(text, head)?;
    text.push_str(lines)
}

fn push_section(
    alloc: Global,
    text: &mut String,
    rows: &[Explanation<'_>],
    told: RowTelling<'_, '_>,
) -> Result<(), AllocError>
    ensures { OnOk result (string_bytes text.new ≡ string_bytes text.old ++ check_text.section (check_text.row_told told.entry) (map explanation.explanation_value rows.now)) }
{
    let lines = lines_of(alloc, rows, told)?;
    push_headed(text, &topic_head(rows), &lines)
}

pub(crate) fn push_sections(
    alloc: Global,
    text: &mut String,
    topics: &[&[Explanation<'_>]],
    told: RowTelling<'_, '_>,
) -> Result<(), AllocError>
    ensures { OnOk result (string_bytes text.new
        ≡ string_bytes text.old ++ flat_map (check_text.section (check_text.row_told told.entry)) (map (λ topic. map explanation.explanation_value topic.now) topics.now)) }
{
    for rows in topics {
        push_section(alloc, text, rows, told)?;
    }
    Ok(())
}
