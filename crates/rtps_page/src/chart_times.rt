ghost use Rattle.std.specs.Prelude.{ℕ, ◌≡◌, ◌++◌, ◌∷◌, [], flat_map, IfOk, OnOk};
ghost use Rattle.std.specs.List.Sorted.{IsStrictlyIncreasing};
ghost use Rattle.json.specs.Tree.{json_tokens};
ghost use Rattle.rtps_audit.specs.Index as index_spec;
ghost use Rattle.rtps_audit.specs.Intake as intake;
ghost use Rattle.rtps_audit.specs.Placed as placed;
ghost use Rattle.rtps_evidence.specs.Times as times_spec;
ghost use Rattle.rtps_json.specs.JsonText as json_text;
ghost use Rattle.rtps_page.specs.ChartTimes as chart_times;
ghost use Rattle.rtps_page.specs.Page as page;

use crate::chart_writers::writers_of;
use crate::entry_counts::has_entry;
use json::Writer;
use rtps_audit::Index;
use rtps_discovery::Pair;
use rtps_ids::Guid;
use rtps_json::{Clock, push_second};
use std::alloc::{AllocError, Global};

/// Adds the datagrams in which a writer says something that has an entry.
fn add_said(numbers: &mut Vec<u64>, index: &Index<'_>, writer: Guid) -> Result<(), AllocError>
    ensures { (intake : intake.Intake) → index_spec.IsIndexBy intake index.now
        → OnOk result (numbers.new.items ≡ numbers.old.items ++ chart_times.said_in (placed.placed_in intake.acts) writer) }
{
    for placed in index.acts_of(writer) {
        if placed.act.spoken_by(writer) && has_entry(placed) {
            numbers.push(placed.datagram as u64)?;
        }
    }
    Ok(())
}

/// Adds the datagrams in which the reader of a pair answers.
fn add_answered(numbers: &mut Vec<u64>, index: &Index<'_>, pair: Pair) -> Result<(), AllocError>
    ensures { (intake : intake.Intake) → index_spec.IsIndexBy intake index.now
        → OnOk result (numbers.new.items ≡ numbers.old.items ++ chart_times.answered_in (placed.placed_in intake.acts) pair) }
{
    for answer in index.answers_of(pair) {
        numbers.push(answer.datagram as u64)?;
    }
    Ok(())
}

fn all_said(alloc: Global, index: &Index<'_>, writers: &[Guid]) -> Result<Vec<u64>, AllocError>
    ensures { (intake : intake.Intake) → index_spec.IsIndexBy intake index.now
        → IfOk result (λ numbers. numbers.items ≡ flat_map (chart_times.said_in (placed.placed_in intake.acts)) writers.now) }
{
    let mut numbers = Vec::new(alloc);
    for writer in writers {
        add_said(&mut numbers, index, *writer)?;
    }
    Ok(numbers)
}

fn add_all_answered(
    numbers: &mut Vec<u64>,
    index: &Index<'_>,
    pairs: &[Pair],
) -> Result<(), AllocError>
    ensures { (intake : intake.Intake) → index_spec.IsIndexBy intake index.now
        → OnOk result (numbers.new.items ≡ numbers.old.items ++ flat_map (chart_times.answered_in (placed.placed_in intake.acts)) pairs.now) }
{
    for pair in pairs {
        add_answered(numbers, index, *pair)?;
    }
    Ok(())
}

/// Puts numbers in rising order, and keeps each once.
fn sort_once(numbers: &mut Vec<u64>)
    ensures rising { IsStrictlyIncreasing numbers.new.items }
    ensures same { (number : ℕ) → chart_times.is_among numbers.new.items number ≡ chart_times.is_among numbers.old.items number }
{
    numbers.sort_unstable();
    numbers.dedup();
}

/// The datagrams that stand in the charts of these pairs, each once and in rising order.
fn datagrams_shown(alloc: Global, index: &Index<'_>, pairs: &[Pair]) -> Result<Vec<u64>, AllocError>
    ensures rising { IfOk result (λ numbers. IsStrictlyIncreasing numbers.items) }
    ensures same { (intake : intake.Intake) → index_spec.IsIndexBy intake index.now → IfOk result (λ numbers. (number : ℕ)
        → chart_times.is_among numbers.items number ≡ chart_times.is_among (chart_times.datagrams_shown (placed.placed_in intake.acts) pairs.now) number) }
{
    let writers = writers_of(alloc, pairs)?;
    let mut numbers = all_said(alloc, index, &writers)?;
    add_all_answered(&mut numbers, index, pairs)?;
    sort_once(&mut numbers);
    Ok(numbers)
}

/// The frame of a datagram, if there is one and frames are told.
fn frame_of(clock: Clock<'_>, datagram: u64) -> Option<u64>
    ensures { result ≡ times_spec.frame_of (json_text.clock_times clock.entry).frames datagram }
{
    if clock.framed {
        clock.times.frame(datagram)
    } else {
        None
    }
}

/// Appends a frame, if there is one.
fn push_frame(writer: &mut Writer, frame: Option<u64>) -> Result<(), AllocError>
    ensures tokens { OnOk result (writer.new.tokens ≡ writer.old.tokens ++ flat_map json_tokens (chart_times.frame_items frame)) }
    ensures before { writer.new.before ≡ writer.old.before }
{
    match frame {
        Some(frame) => writer.u64(frame),
        None => Ok(()),
    }
}

/// Appends a datagram, its second and its frame, where it has a time.
fn push_time(
    writer: &mut Writer,
    text: &mut String,
    clock: Clock<'_>,
    datagram: u64,
) -> Result<(), AllocError>
    ensures tokens { OnOk result (writer.new.tokens
        ≡ writer.old.tokens ++ flat_map json_tokens (chart_times.time_of_json (json_text.clock_times clock.entry) datagram)) }
    ensures before { writer.new.before ≡ writer.old.before }
{
    let Some(second) = clock.times.second(datagram) else {
        return Ok(());
    };
    writer.begin_array()?;
    writer.u64(datagram)?;
    push_second(writer, text, second)?;
    push_frame(writer, frame_of(clock, datagram))?;
    writer.end_array()
}

fn push_each_time(
    writer: &mut Writer,
    text: &mut String,
    clock: Clock<'_>,
    datagrams: &[u64],
) -> Result<(), AllocError>
    ensures tokens { OnOk result (writer.new.tokens ≡ writer.old.tokens
        ++ flat_map (λ datagram. flat_map json_tokens (chart_times.time_of_json (json_text.clock_times clock.entry) datagram)) datagrams.now) }
    ensures before { writer.new.before ≡ writer.old.before }
{
    for datagram in datagrams {
        push_time(writer, text, clock, *datagram)?;
    }
    Ok(())
}

/// Appends when the datagrams of the charts came, where the recording has times.
pub(crate) fn push_times(
    writer: &mut Writer,
    clock: Clock<'_>,
    index: &Index<'_>,
    pairs: &[Pair],
) -> Result<(), AllocError>
    ensures tokens { (intake : intake.Intake) → index_spec.IsIndexBy intake index.now → OnOk result (writer.new.tokens ≡ writer.old.tokens
        ++ json_text.tokens_of (json_text.timed_members (json_text.clock_times clock.entry) (page.times_member (json_text.clock_times clock.entry) (placed.placed_in intake.acts) pairs.now ∷ []))) }
    ensures before { writer.new.before ≡ writer.old.before }
{
    if !clock.times.are_there() {
        return Ok(());
    }
    let datagrams = datagrams_shown(clock.alloc, index, pairs)?;
    let mut text = String::new(clock.alloc);
    writer.key("times")?;
    writer.begin_array()?;
    push_each_time(writer, &mut text, clock, &datagrams)?;
    writer.end_array()
}
