ghost use Rattle.std.specs.Prelude.{◌≡◌, ◌++◌, ◌∷◌, codes, flat_map, map, OnOk};
ghost use Rattle.json.specs.Token.{key};
ghost use Rattle.json.specs.Tree.{json_tokens};
ghost use Rattle.rtps_receiver.specs.Values as values;
ghost use Rattle.rtps_audit.specs.Index as index_spec;
ghost use Rattle.rtps_audit.specs.Intake as intake;
ghost use Rattle.rtps_audit.specs.Placed as placed_spec;
ghost use Rattle.rtps_json.specs.JsonText as json_text;
ghost use Rattle.rtps_page.specs.ChartEntries as chart_entries;
ghost use Rattle.rtps_page.specs.Page as page;

use crate::entry_counts::has_number;
use crate::pair_answers::answer_acts;
use json::Writer;
use rtps_audit::{Index, Placed};
use rtps_discovery::Pair;
use rtps_ids::NumberSet;
use rtps_json::push_guid;
use rtps_receiver::{ActBody, SpokenBody};
use std::alloc::{AllocError, Global};

/// Appends the numbers of a set, one after another.
fn push_numbers(writer: &mut Writer, set: &NumberSet) -> Result<(), AllocError>
    ensures tokens { OnOk result (writer.new.tokens ≡ writer.old.tokens ++ flat_map (λ number. json_tokens (json_text.count_json number)) (chart_entries.members_of set.now)) }
    ensures before { writer.new.before ≡ writer.old.before }
{
    let base = set.base().cast_unsigned();
    for bit in 0..set.count() {
        let number = base + u64::from(bit);
        if has_number(set, number) {
            writer.u64(number)?;
        }
    }
    Ok(())
}

/// Appends them as an array.
fn push_list(writer: &mut Writer, set: &NumberSet) -> Result<(), AllocError>
    ensures tokens { OnOk result (writer.new.tokens ≡ writer.old.tokens ++ json_tokens (json_text.array_of (map json_text.count_json (chart_entries.members_of set.now)))) }
    ensures before { writer.new.before ≡ writer.old.before }
{
    writer.begin_array()?;
    push_numbers(writer, set)?;
    writer.end_array()
}

/// Appends the base of an answer, and what it asks for.
fn push_set(writer: &mut Writer, body: &SpokenBody<'_>) -> Result<(), AllocError>
    ensures tokens { OnOk result (writer.new.tokens ≡ writer.old.tokens ++ flat_map json_tokens (chart_entries.set_items (values.spoken_body_value body.now))) }
    ensures before { writer.new.before ≡ writer.old.before }
{
    match body {
        SpokenBody::Act(ActBody::AckNack(ack_nack)) => {
            writer.i64(ack_nack.set.base())?;
            push_list(writer, &ack_nack.set)
        }
        SpokenBody::Act(ActBody::Data(_))
        | SpokenBody::Act(ActBody::Heartbeat(_))
        | SpokenBody::Act(ActBody::Gap(_))
        | SpokenBody::DataFrag(_)
        | SpokenBody::NackFrag(_) => Ok(()),
    }
}

fn push_answer(writer: &mut Writer, placed: &Placed<'_>) -> Result<(), AllocError>
    ensures tokens { OnOk result (writer.new.tokens ≡ writer.old.tokens ++ json_tokens (chart_entries.answer_json (placed_spec.placed_value placed.now))) }
    ensures before { writer.new.before ≡ writer.old.before }
{
    writer.begin_array()?;
    writer.u64(placed.datagram as u64)?;
    writer.u64(placed.act.at as u64)?;
    push_set(writer, &placed.act.body)?;
    writer.end_array()
}

fn push_answers(
    writer: &mut Writer,
    text: &mut String,
    pair: Pair,
    answers: &[Placed<'_>],
) -> Result<(), AllocError>
    ensures tokens { OnOk result (writer.new.tokens ≡ writer.old.tokens ++ json_tokens (page.answered_json pair (map placed_spec.placed_value answers.now))) }
    ensures before { writer.new.before ≡ writer.old.before }
{
    writer.begin_object()?;
    writer.key("writer")?;
    push_guid(writer, text, pair.writer)?;
    writer.key("reader")?;
    push_guid(writer, text, pair.reader)?;
    writer.key("bases")?;
    writer.begin_array()?;
    for placed in answers {
        push_answer(writer, placed)?;
    }
    writer.end_array()?;
    writer.end_object()
}

pub(crate) fn push_all_answers(
    alloc: Global,
    writer: &mut Writer,
    index: &Index<'_>,
    pairs: &[Pair],
) -> Result<(), AllocError>
    ensures tokens { (intake : intake.Intake) → index_spec.IsIndexBy intake index.now
        → OnOk result (writer.new.tokens ≡ writer.old.tokens ++ key (codes "answers")
        ∷ json_tokens (json_text.array_of (map (page.answers_json (placed_spec.placed_in intake.acts)) pairs.now))) }
    ensures before { writer.new.before ≡ writer.old.before }
{
    let mut text = String::new(alloc);
    writer.key("answers")?;
    writer.begin_array()?;
    for pair in pairs {
        let answers = answer_acts(alloc, index, *pair)?;
        push_answers(writer, &mut text, *pair, &answers)?;
    }
    writer.end_array()
}
