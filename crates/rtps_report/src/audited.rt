ghost use Rattle.std.specs.Prelude.{ℕ, ◌≡◌, IfOk, List};
ghost use Rattle.rtps_audit.specs.Index as index_spec;
ghost use Rattle.rtps_fragments.specs.RecordedSamples as recorded_samples;
ghost use Rattle.rtps_report.specs.Reported as reported;

use crate::recording::{Recording, datagrams_of};
use bumpalo::Bump;
use rtps_audit::{Index, Report, Watch};
use rtps_evidence::{Explained, Extent, Sides, Times, explain_index};
use rtps_fragments::laws::{acts_are_heard_without_fragments, skipped_fragments_are_not_sent};
use rtps_fragments::{Fragments, index_as, report_with_samples};
use rtps_ids::{Memory, SeqNum};
use std::alloc::Global;

/// What is asked of an audit, which judges the whole recording.
#[derive(Clone, Copy)]
pub struct AskedAudit {
    /// The number from which on it asks: smaller numbers are not asked for.
    pub from: SeqNum,
    /// What becomes of samples that come in fragments.
    pub fragments: Fragments,
}

impl AskedAudit {
    ghost use Rattle.rtps_report.specs.Asked as asked_spec;

    /// By the numbers from `from` on, with fragments skipped.
    pub fn plainly(from: SeqNum) -> Self
        ensures { result ≡ asked_spec.plainly from }
    {
        AskedAudit {
            from,
            fragments: Fragments::Skipped,
        }
    }
}

/// The index of a recording from which the verdicts are judged. The samples that it borrows are put into the arena.
fn index_asked<'a>(
    alloc: Global,
    recording: &'a Recording,
    fragments: Fragments,
    arena: &'a Bump,
) -> Result<Index<'a>, Memory>
    ensures { IfOk result (index_spec.IsIndexBy (recorded_samples.intake_as fragments recording.now.datagrams)) }
{
    let datagrams = datagrams_of(alloc, recording)?;
    let indexed = index_as(alloc, &datagrams, fragments, arena)?;
    Ok(indexed.index)
}

/// The report on what an index of a recording took in, by what each reader hears. Where fragments are skipped, that is what is sent.
fn report_asked<P: Watch>(
    alloc: Global,
    index: &Index<'_>,
    asked: AskedAudit,
    watch: &mut P,
) -> Result<Report, Memory>
    ensures { (recording : List (List ℕ)) → index_spec.IsIndexBy (recorded_samples.intake_as asked.fragments recording) index.now → IfOk result (reported.IsReportAs asked recording) }
{
    skipped_fragments_are_not_sent();
    acts_are_heard_without_fragments();
    match asked.fragments {
        Fragments::Skipped => index.report_from(asked.from, watch),
        Fragments::Read => report_with_samples(alloc, index, asked.from, watch),
    }
}

/// The report of an audit on a recording. It tells how far it is. `Memory` is answered where what is kept cannot grow.
pub fn audit_asked<P: Watch>(
    alloc: Global,
    recording: &Recording,
    asked: AskedAudit,
    watch: &mut P,
) -> Result<Report, Memory>
    ensures { IfOk result (reported.IsReportAs asked recording.now.datagrams) }
{
    let arena = Bump::new(alloc);
    let index = index_asked(alloc, recording, asked.fragments, &arena)?;
    report_asked(alloc, &index, asked, watch)
}

/// The same with what each of its rows rests on. The samples that it borrows are put into the arena.
pub fn explain_asked<'a, P: Watch>(
    alloc: Global,
    recording: &'a Recording,
    asked: AskedAudit,
    arena: &'a Bump,
    watch: &mut P,
) -> Result<Explained<'a>, Memory>
    ensures { IfOk result (reported.IsAuditExplained asked recording.now.datagrams) }
{
    let index = index_asked(alloc, recording, asked.fragments, arena)?;
    let sides = Sides {
        index: &index,
        other: None,
        times: &Times::none(alloc),
        arena,
    };
    let extent = Extent {
        from: asked.from,
        in_spans: false,
    };
    explain_index(alloc, &sides, extent, watch)
}
