ghost use Rattle.std.specs.Prelude.{◌≡◌, count_by, IfOk, map};
ghost use Rattle.std.specs.Option.{option_map};
ghost use Rattle.rtps_evidence.specs.Explanation as explanation;
ghost use Rattle.rtps_report.specs.LateRows as late_rows_spec;
ghost use Rattle.rtps_report.specs.Talk as talk_spec;

use crate::late_matches::LateMatch;
use crate::row_facts::is_late;
use crate::talk::Talk;
use crate::totals::before_of;
use rtps_discovery::Pair;
use rtps_evidence::Explanation;
use std::alloc::{AllocError, Global};

/// A row whose writer and reader matched late.
#[derive(Clone, Copy)]
pub struct LateRow<'a> {
    pub topic: &'a [u8],
    pub pair: Pair,
    pub late: LateMatch,
}

/// A row, if its writer and reader matched late.
fn late_row_of<'a>(talk: &Talk<'_>, row: &Explanation<'a>) -> Option<LateRow<'a>>
    ensures { option_map late_rows_spec.late_row_value result ≡ late_rows_spec.late_row_of (talk_spec.talk_value talk.now) (explanation.explanation_value row.now) }
{
    match talk.late(row.pair) {
        Some(late) => Some(LateRow {
            topic: row.topic,
            pair: row.pair,
            late,
        }),
        None => None,
    }
}

/// Those of these rows whose writer and reader matched late, in their order.
pub fn late_rows<'a>(
    alloc: Global,
    talk: &Talk<'_>,
    rows: &[Explanation<'a>],
) -> Result<Vec<LateRow<'a>>, AllocError>
    ensures { IfOk result (λ late. map late_rows_spec.late_row_value late.items ≡ late_rows_spec.late_rows (talk_spec.talk_value talk.now) (map explanation.explanation_value rows.now)) }
{
    let mut late = Vec::new(alloc);
    for row in rows {
        if let Some(one) = late_row_of(talk, row) {
            late.push(one)?;
        }
    }
    Ok(late)
}

/// Whether all numbers that the writer of a row announced stand before it, and the two did not match late.
pub fn is_late_alone(talk: &Talk<'_>, from: u64, row: &Explanation<'_>) -> bool
    ensures { result ≡ late_rows_spec.is_late_alone (talk_spec.talk_value talk.now) from (explanation.explanation_value row.now) }
{
    is_late(from, &row.evidence) && talk.late(row.pair).is_none()
}

/// How many of these rows are such.
pub(crate) fn count_late_alone(talk: &Talk<'_>, from: u64, rows: &[Explanation<'_>]) -> u64
    ensures { result ≡ count_by (late_rows_spec.is_late_alone (talk_spec.talk_value talk.now) from) (map explanation.explanation_value rows.now) }
{
    let mut count: u64 = 0;
    for row in rows {
        count += u64::from(is_late_alone(talk, from, row));
    }
    count
}

/// Whether the two of a row matched late, and numbers that are asked for stand before it.
fn lacks_before(talk: &Talk<'_>, from: u64, row: &Explanation<'_>) -> bool
    ensures { result ≡ late_rows_spec.lacks_before (talk_spec.talk_value talk.now) from (explanation.explanation_value row.now) }
{
    talk.late(row.pair).is_some() && before_of(from, &row.evidence) > 0
}

/// How many of these rows are such.
pub(crate) fn count_lacking_before(talk: &Talk<'_>, from: u64, rows: &[Explanation<'_>]) -> u64
    ensures { result ≡ count_by (late_rows_spec.lacks_before (talk_spec.talk_value talk.now) from) (map explanation.explanation_value rows.now) }
{
    let mut count: u64 = 0;
    for row in rows {
        count += u64::from(lacks_before(talk, from, row));
    }
    count
}
