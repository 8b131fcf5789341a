ghost use Rattle.std.specs.Prelude.{◌≡◌, ◌++◌, IfOk, OnOk, filter, map, string_bytes};
ghost use Rattle.rtps_evidence.specs.Explanation as explanation;
ghost use Rattle.rtps_report.specs.RowFacts as row_facts;
ghost use Rattle.rtps_report.specs.LateRows as late_rows;
ghost use Rattle.rtps_report.specs.Talk as talk_spec;
ghost use Rattle.rtps_check.specs.CheckText as check_text;

use crate::sections::RowTelling;
use rtps_evidence::Explanation;
use rtps_lines::sentences::block as said;
use rtps_lines::{longest_tail, names_of, number_words, push_field, sentence_of};
use rtps_parts::{Part, Words, render};
use rtps_report::{Advice, Talk, is_clean_tail, is_late_alone, is_tail_alone};
use std::alloc::{AllocError, Global};

fn tails_among<'a>(
    alloc: Global,
    rows: &[Explanation<'a>],
    told: RowTelling<'_, '_>,
) -> Result<Vec<Explanation<'a>>, AllocError>
    ensures { IfOk result (λ alone. map explanation.explanation_value alone.items ≡ filter (check_text.lacks_tail_alone (check_text.row_told told.entry)) (map explanation.explanation_value rows.now)) }
{
    let mut alone = Vec::new(alloc);
    for row in rows {
        if is_tail_alone(told.scope.tail, &row.evidence, told.talk.silences(row.pair)) {
            alone.push(*row)?;
        }
    }
    Ok(alone)
}

/// Those of these rows before which all numbers stand that their writer announced, and whose two did not match late.
pub(crate) fn late_among<'a>(
    alloc: Global,
    talk: &Talk<'_>,
    from: u64,
    rows: &[Explanation<'a>],
) -> Result<Vec<Explanation<'a>>, AllocError>
    ensures { IfOk result (λ late. map explanation.explanation_value late.items ≡ filter (late_rows.is_late_alone (talk_spec.talk_value talk.now) from) (map explanation.explanation_value rows.now)) }
{
    let mut late = Vec::new(alloc);
    for row in rows {
        if is_late_alone(talk, from, row) {
            late.push(*row)?;
        }
    }
    Ok(late)
}

/// Those of these rows that are clean with a tail.
pub(crate) fn clean_tails_among<'a>(
    alloc: Global,
    rows: &[Explanation<'a>],
    tail: u64,
) -> Result<Vec<Explanation<'a>>, AllocError>
    ensures { IfOk result (λ tails. map explanation.explanation_value tails.items ≡ filter (λ row. row_facts.is_clean_tail tail row.evidence) (map explanation.explanation_value rows.now)) }
{
    let mut tails = Vec::new(alloc);
    for row in rows {
        if is_clean_tail(tail, &row.evidence) {
            tails.push(*row)?;
        }
    }
    Ok(tails)
}

fn push_tails(text: &mut String, pairs: usize, longest: u64, names: &str) -> Result<(), AllocError>
    ensures { OnOk result (string_bytes text.new ≡ string_bytes text.old ++ check_text.tails_text pairs longest names.now) }
{
    let words = Words {
        one: said::TAIL_ONE,
        many: said::TAIL_MANY,
    };
    let head = [
        Part::Text("\n"),
        Part::Amount(pairs as u128, words),
        Part::Text(" of at most "),
        Part::Amount(u128::from(longest), number_words()),
    ];
    let end = [
        Part::Text(" lets them pass)"),
        Part::Text(names),
        Part::Text("\n  -> "),
        Part::Text(sentence_of(Advice::Tail)),
        Part::Text("\n"),
    ];
    render(text, &head)?;
    push_field(text, " (--tail ", longest)?;
    render(text, &end)
}

/// Appends the lines of those of these rows, which stand by topic, that are not clean for their tail alone.
pub(crate) fn push_tail_block(
    alloc: Global,
    text: &mut String,
    rows: &[Explanation<'_>],
    told: RowTelling<'_, '_>,
) -> Result<(), AllocError>
    ensures { OnOk result (string_bytes text.new ≡ string_bytes text.old ++ check_text.tail_block (check_text.row_told told.entry) (map explanation.explanation_value rows.now)) }
{
    let alone = tails_among(alloc, rows, told)?;
    if alone.is_empty() {
        return Ok(());
    }
    let names = names_of(alloc, &alone)?;
    push_tails(text, alone.len(), longest_tail(&alone), &names)
}
