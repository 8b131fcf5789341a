ghost use Rattle.std.specs.Prelude.{◌≡◌, All, IfOk, IfSome, filter, map};
ghost use Rattle.rtps_audit.specs.Index as index_spec;
ghost use Rattle.rtps_audit.specs.Intake as intake_spec;
ghost use Rattle.rtps_audit.specs.Placed as placed;
ghost use Rattle.rtps_audit.specs.Report as report_spec;
ghost use Rattle.rtps_fragments.specs.Hearing as hearing;
ghost use Rattle.rtps_fragments.specs.SampleReport as sample_report;

use crate::hearing::{have_fragments, heard_said};
use crate::laws::verdicts_stay_without_fragments;
use bumpalo::Bump;
use rtps_audit::{FirstAsked, Index, Report, Row, Said, Watch};
use rtps_ids::{Guid, Memory, SeqNum};
use std::alloc::Global;

/// Whether the acts of a writer send fragments.
#[derive(Clone, Copy)]
pub(crate) struct Sender {
    pub(crate) writer: Guid,
    pub(crate) sends: bool,
}

/// Whether those of a writer do, where it is known of the writer of the row before.
fn sender_of(index: &Index<'_>, writer: Guid, last: Option<Sender>) -> Sender
    requires { IfSome last (sample_report.IsSender index.now) }
    ensures writer { result.writer ≡ writer }
    ensures sends { sample_report.IsSender index.now result }
{
    match last {
        Some(sender) if sender.writer == writer => sender,
        _ => Sender {
            writer,
            sends: have_fragments(index.acts_of(writer)),
        },
    }
}

/// A row of this verdict by the acts as they are sent, by what its reader hears, where it is known whether its writer sends fragments.
fn row_heard(
    alloc: Global,
    index: &Index<'_>,
    row: Row,
    sends: bool,
    from: SeqNum,
) -> Result<Row, Memory>
    requires { (intake : intake_spec.Intake) → index_spec.IsIndexBy intake index.now
        → sends ≡ hearing.have_fragments (filter (placed.is_from row.pair.writer) (placed.placed_in intake.acts)) }
    ensures pair { IfOk result (λ heard. heard.pair ≡ row.pair) }
    ensures judged { (intake : intake_spec.Intake) → index_spec.IsIndexBy intake index.now → report_spec.IsJudgedFrom from intake.acts row
        → IfOk result (sample_report.IsHeardFrom from intake.acts) }
{
    verdicts_stay_without_fragments();
    let pair = row.pair;
    if !sends {
        return Ok(row);
    }
    let arena = Bump::new(alloc);
    let said = heard_said(alloc, &arena, Said::until(index, pair, None), pair)?;
    let verdict = said.judge_from(alloc, pair, FirstAsked::of(from))?;
    Ok(Row { pair, verdict })
}

/// These rows, which are by writer, by what their readers hear.
fn rows_heard(
    alloc: Global,
    index: &Index<'_>,
    rows: &[Row],
    from: SeqNum,
) -> Result<Vec<Row>, Memory>
    ensures pairs { IfOk result (λ heard. map (λ row. row.pair) heard.items ≡ map (λ row. row.pair) rows.now) }
    ensures judged { (intake : intake_spec.Intake) → index_spec.IsIndexBy intake index.now → All (report_spec.IsJudgedFrom from intake.acts) rows.now
        → IfOk result (λ heard. All (sample_report.IsHeardFrom from intake.acts) heard.items) }
{
    let mut heard = Vec::with_capacity(alloc, rows.len())?;
    let mut last = None;
    for row in rows {
        let sender = sender_of(index, row.pair.writer, last);
        let own = row_heard(alloc, index, *row, sender.sends, from)?;
        heard.push(own)?;
        last = Some(sender);
    }
    Ok(heard)
}

/// The report on what an index took in by the numbers from `from` on, as [`Index::report_from`] answers it, but each row is by what its reader
/// hears: by the samples in fragments that this reader can put together. It tells how far it is. `Memory` is answered where what is kept cannot
/// grow.
pub fn report_with_samples<P: Watch>(
    alloc: Global,
    index: &Index<'_>,
    from: SeqNum,
    watch: &mut P,
) -> Result<Report, Memory>
    ensures { (intake : intake_spec.Intake) → index_spec.IsIndexBy intake index.now → IfOk result (sample_report.IsReportHeard from intake) }
{
    let report = index.report_from(from, watch)?;
    let rows = rows_heard(alloc, index, &report.rows, from)?;
    Ok(Report {
        rows,
        counts: report.counts,
    })
}
