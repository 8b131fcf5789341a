ghost use Rattle.std.specs.Prelude.{◌≡◌, ◌<◌, ◌^◌, ◌++◌, ◌∷◌, [], codes, length, OnOk, flat_map, option_map, replicate, string_bytes};
ghost use Rattle.json.specs.Tree.{json_tokens};
ghost use Rattle.rtps_receiver.specs.Values as receiver_values;
ghost use Rattle.rtps_audit.specs.Placed as placed_spec;
ghost use Rattle.rtps_evidence.specs.Locations as locations;
ghost use Rattle.rtps_page.specs.ChartEntries as chart_entries;

use crate::entry_counts::has_number;
use crate::tellings::{Telling, Told, count_at};
use json::Writer;
use rtps_audit::Placed;
use rtps_evidence::Location;
use rtps_ids::{NumberSet, SeqNum};
use rtps_receiver::{ActBody, Audience, EVERY_READER, FragmentBody, SentPart, SpokenBody};
use rtps_wire::HeartbeatBody;
use std::alloc::AllocError;

/// So many samples of a number that are complete at a place.
#[derive(Clone, Copy)]
pub(crate) struct Complete {
    pub(crate) place: Location,
    pub(crate) number: SeqNum,
    pub(crate) samples: u64,
}

/// An act that tells samples of a number, and its place among those that are counted.
#[derive(Clone, Copy)]
pub(crate) struct Teller {
    pub(crate) place: Location,
    pub(crate) number: SeqNum,
    pub(crate) at: usize,
}

/// Where an act stands, and whom it names.
#[derive(Clone, Copy)]
pub(crate) struct EntryHead<'a> {
    pub(crate) place: Location,
    pub(crate) named: &'a str,
}

#[tactic(auto, unfolding(crate::specs::ChartEntries::audience_text))]
pub(crate) fn push_audience(text: &mut String, audience: Option<Audience>) -> Result<(), AllocError>
    ensures { OnOk result (string_bytes text.new ≡ string_bytes text.old ++ chart_entries.audience_text audience) }
{
    let Some(audience) = audience else {
        return Ok(());
    };
    if let Some(prefix) = audience.dest {
        write!(text, "{prefix}")?;
    }
    if audience.reader == EVERY_READER {
        return Ok(());
    }
    write!(text, ".{}", audience.reader)
}

fn push_named(writer: &mut Writer, named: &str) -> Result<(), AllocError>
    ensures tokens { OnOk result (writer.new.tokens ≡ writer.old.tokens ++ flat_map json_tokens (chart_entries.named_json named.now)) }
    ensures before { writer.new.before ≡ writer.old.before }
{
    if named.is_empty() {
        return Ok(());
    }
    writer.string(named)
}

fn push_entry(
    writer: &mut Writer,
    head: EntryHead<'_>,
    kind: &str,
    numbers: &[i64],
) -> Result<(), AllocError>
    ensures tokens { OnOk result (writer.new.tokens
        ≡ writer.old.tokens ++ json_tokens (chart_entries.entry_json head.entry.place head.entry.named.now kind.now numbers.now)) }
    ensures before { writer.new.before ≡ writer.old.before }
{
    writer.begin_array()?;
    writer.u64(head.place.datagram)?;
    writer.u64(head.place.at as u64)?;
    writer.string(kind)?;
    for number in numbers {
        writer.i64(*number)?;
    }
    push_named(writer, head.named)?;
    writer.end_array()
}

fn push_last(
    writer: &mut Writer,
    head: EntryHead<'_>,
    heartbeat: &HeartbeatBody,
) -> Result<(), AllocError>
    ensures tokens { OnOk result (writer.new.tokens
        ≡ writer.old.tokens ++ json_tokens (chart_entries.entry_json head.entry.place head.entry.named.now (codes "announced") (heartbeat.now.last ∷ []))) }
    ensures before { writer.new.before ≡ writer.old.before }
{
    push_entry(writer, head, "announced", &[heartbeat.last])
}

fn push_gone(
    writer: &mut Writer,
    head: EntryHead<'_>,
    from: u64,
    past: u64,
) -> Result<(), AllocError>
    requires { past < 2 ^ 63 }
    ensures tokens { OnOk result (writer.new.tokens
        ≡ writer.old.tokens ++ flat_map json_tokens (chart_entries.gone_json head.entry.place head.entry.named.now from past)) }
    ensures before { writer.new.before ≡ writer.old.before }
{
    if from >= past {
        return Ok(());
    }
    push_entry(
        writer,
        head,
        "gone",
        &[from.cast_signed(), (past - 1).cast_signed()],
    )
}

fn push_one_gone(writer: &mut Writer, head: EntryHead<'_>, number: u64) -> Result<(), AllocError>
    requires { number < 2 ^ 63 }
    ensures tokens { OnOk result (writer.new.tokens
        ≡ writer.old.tokens ++ json_tokens (chart_entries.one_gone_json head.entry.place head.entry.named.now number)) }
    ensures before { writer.new.before ≡ writer.old.before }
{
    let number = number.cast_signed();
    push_entry(writer, head, "gone", &[number, number])
}

fn push_members(writer: &mut Writer, head: EntryHead<'_>, set: &NumberSet) -> Result<(), AllocError>
    ensures tokens { OnOk result (writer.new.tokens ≡ writer.old.tokens
        ++ flat_map (λ number. json_tokens (chart_entries.one_gone_json head.entry.place head.entry.named.now number)) (chart_entries.members_of set.now)) }
    ensures before { writer.new.before ≡ writer.old.before }
{
    let base = set.base().cast_unsigned();
    for bit in 0..set.count() {
        let number = base + u64::from(bit);
        if has_number(set, number) {
            push_one_gone(writer, head, number)?;
        }
    }
    Ok(())
}

/// How many fragments a part has; the last one may be shorter.
fn fragments_of(part: &SentPart<'_>) -> u64
    ensures value { result ≡ chart_entries.fragments_in part.now.shape.fragment (length part.now.octets.now) }
    ensures few { result < 2 ^ 63 }
{
    let size = u64::from(part.shape.fragment).max(1);
    (part.octets.len() as u64 + (size - 1)) / size
}

/// Appends that an act sends fragments, if it does.
fn push_sent(
    writer: &mut Writer,
    head: EntryHead<'_>,
    piece: &FragmentBody<'_>,
) -> Result<(), AllocError>
    ensures tokens { OnOk result (writer.new.tokens ≡ writer.old.tokens
        ++ flat_map json_tokens (chart_entries.piece_json head.entry.place head.entry.named.now piece.now.number (option_map receiver_values.sent_part_value piece.now.sent))) }
    ensures before { writer.new.before ≡ writer.old.before }
{
    let Some(part) = &piece.sent else {
        return Ok(());
    };
    push_entry(
        writer,
        head,
        "piece",
        &[
            piece.number.get(),
            i64::from(part.first),
            fragments_of(part).cast_signed(),
        ],
    )
}

/// Appends that a sample of this number is complete.
fn push_sample(writer: &mut Writer, head: EntryHead<'_>, number: SeqNum) -> Result<(), AllocError>
    ensures tokens { OnOk result (writer.new.tokens
        ≡ writer.old.tokens ++ json_tokens (chart_entries.sample_json head.entry.place head.entry.named.now number)) }
    ensures before { writer.new.before ≡ writer.old.before }
{
    push_entry(writer, head, "sample", &[number.get()])
}

/// Appends that for so many samples.
fn push_samples(
    writer: &mut Writer,
    head: EntryHead<'_>,
    number: SeqNum,
    count: u64,
) -> Result<(), AllocError>
    ensures tokens { OnOk result (writer.new.tokens
        ≡ writer.old.tokens ++ flat_map json_tokens (replicate count (chart_entries.sample_json head.entry.place head.entry.named.now number))) }
    ensures before { writer.new.before ≡ writer.old.before }
{
    for _ in 0..count {
        push_sample(writer, head, number)?;
    }
    Ok(())
}

/// Appends so many samples of this number for an audience.
fn push_samples_for(
    writer: &mut Writer,
    text: &mut String,
    audience: Option<Audience>,
    complete: Complete,
) -> Result<(), AllocError>
    ensures tokens { OnOk result (writer.new.tokens ≡ writer.old.tokens
        ++ flat_map json_tokens (replicate complete.samples (chart_entries.sample_json complete.place (chart_entries.audience_text audience) complete.number))) }
    ensures before { writer.new.before ≡ writer.old.before }
{
    text.clear();
    push_audience(text, audience)?;
    let head = EntryHead {
        place: complete.place,
        named: text,
    };
    push_samples(writer, head, complete.number, complete.samples)
}

/// Appends the samples that an act tells a reader.
fn push_to(
    writer: &mut Writer,
    text: &mut String,
    telling: &Telling,
    teller: &Teller,
) -> Result<(), AllocError>
    ensures tokens { OnOk result (writer.new.tokens ≡ writer.old.tokens
        ++ flat_map json_tokens (chart_entries.samples_to teller.now.place teller.now.number (chart_entries.told_of teller.now.at telling.now))) }
    ensures before { writer.new.before ≡ writer.old.before }
{
    let only = Audience {
        dest: Some(telling.reader.prefix),
        reader: telling.reader.entity,
    };
    let complete = Complete {
        place: teller.place,
        number: teller.number,
        samples: count_at(&telling.counts, teller.at),
    };
    push_samples_for(writer, text, Some(only), complete)
}

/// Appends the samples that an act tells each reader.
fn push_each(
    writer: &mut Writer,
    text: &mut String,
    each: &[Telling],
    teller: &Teller,
) -> Result<(), AllocError>
    ensures tokens { OnOk result (writer.new.tokens ≡ writer.old.tokens
        ++ flat_map (λ one. flat_map json_tokens (chart_entries.samples_to teller.now.place teller.now.number (chart_entries.told_of teller.now.at one))) each.now) }
    ensures before { writer.new.before ≡ writer.old.before }
{
    for telling in each {
        push_to(writer, text, telling, teller)?;
    }
    Ok(())
}

/// Appends the samples that an act tells.
pub(crate) fn push_told(
    writer: &mut Writer,
    text: &mut String,
    told: Told<'_>,
    placed: &Placed<'_>,
) -> Result<(), AllocError>
    ensures tokens { OnOk result (writer.new.tokens ≡ writer.old.tokens
        ++ flat_map json_tokens (chart_entries.samples_counted told.entry.tellings.now told.entry.at (placed_spec.placed_value placed.now))) }
    ensures before { writer.new.before ≡ writer.old.before }
{
    let SpokenBody::DataFrag(piece) = &placed.act.body else {
        return Ok(());
    };
    let place = place_of(placed);
    if told.are_alike(&placed.act) {
        let complete = Complete {
            place,
            number: piece.number,
            samples: told.all(),
        };
        return push_samples_for(writer, text, placed.act.audience(), complete);
    }
    let teller = Teller {
        place,
        number: piece.number,
        at: told.at,
    };
    push_each(writer, text, &told.tellings.each, &teller)
}

/// Where an act stands.
fn place_of(placed: &Placed<'_>) -> Location
    ensures { result ≡ locations.location_of (placed_spec.placed_value placed.now) }
{
    Location {
        datagram: placed.datagram as u64,
        at: placed.act.at,
    }
}

pub(crate) fn push_entries(
    writer: &mut Writer,
    text: &mut String,
    placed: &Placed<'_>,
) -> Result<(), AllocError>
    ensures tokens { OnOk result (writer.new.tokens ≡ writer.old.tokens ++ flat_map json_tokens (chart_entries.entries_of (placed_spec.placed_value placed.now))) }
    ensures before { writer.new.before ≡ writer.old.before }
{
    text.clear();
    push_audience(text, placed.act.audience())?;
    let head = EntryHead {
        place: place_of(placed),
        named: text,
    };
    push_said(writer, head, &placed.act.body)
}

fn push_said(
    writer: &mut Writer,
    head: EntryHead<'_>,
    body: &SpokenBody<'_>,
) -> Result<(), AllocError>
    ensures tokens { OnOk result (writer.new.tokens
        ≡ writer.old.tokens ++ flat_map json_tokens (chart_entries.entries_at head.entry.place head.entry.named.now (receiver_values.spoken_body_value body.now))) }
    ensures before { writer.new.before ≡ writer.old.before }
{
    match body {
        SpokenBody::Act(ActBody::Data(data)) => push_entry(
            writer,
            head,
            "data",
            &[data.number.get()],
        ),
        SpokenBody::Act(ActBody::Heartbeat(heartbeat)) => {
            push_gone(writer, head, 1, heartbeat.first.get().cast_unsigned())?;
            push_last(writer, head, heartbeat)
        }
        SpokenBody::Act(ActBody::Gap(gap)) => {
            let start = gap.start.get().cast_unsigned();
            push_gone(writer, head, start, gap.list.base().cast_unsigned())?;
            push_members(writer, head, &gap.list)
        }
        SpokenBody::DataFrag(piece) => push_sent(writer, head, piece),
        SpokenBody::Act(ActBody::AckNack(_)) | SpokenBody::NackFrag(_) => Ok(()),
    }
}
