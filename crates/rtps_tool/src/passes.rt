//! Runs that read a recording more than once, and keep no datagram of it.

ghost use Rattle.std.specs.Prelude.{ℕ, ◌≡◌, List, None, Some, IfErr, IfSome, MatchResult, string_bytes};
ghost use Rattle.std.specs.Io.KnownBytes.{Appends};
ghost use Rattle.rtps_audit.specs.Delivered as delivered;
ghost use Rattle.rtps_audit.specs.Intake as intake_spec;
ghost use Rattle.rtps_audit.specs.Speech as speech;
ghost use Rattle.rtps_discovery.specs.Directory as directory_spec;
ghost use Rattle.rtps_passes.specs.Judging as judging_spec;
ghost use Rattle.rtps_passes.specs.Survey as survey_spec;
ghost use Rattle.rtps_receiver.specs.Values as values;
ghost use Rattle.rtps_text.specs.ListText as list_text_spec;
ghost use Rattle.rtps_text.specs.ReportText as report_text_spec;
ghost use Rattle.rtps_tool.specs.CaptureBlocks as capture_blocks;
ghost use Rattle.rtps_tool.specs.Commands as commands;
ghost use Rattle.rtps_tool.specs.Passes as passes_spec;
ghost use Rattle.rtps_tool.specs.Runs as runs_spec;

mod first_pass;
mod pass;
mod reading;
mod sum;
mod takers;

use crate::faults::RunFault;
use crate::follow::Follow;
use crate::form::capture_blocks::CaptureTerms;
use crate::passes::first_pass::FirstPass;
use crate::passes::pass::Pass;
use crate::passes::reading::{first_pass, read_again, rewind};
use crate::passes::takers::{Compared, Judged, Surveyed};
use crate::runs::{Command, Options, run};
use crate::source::{Rereading, Source};
use crate::streams::write_text;
use bumpalo::Bump;
use rtps_audit::Report;
use rtps_capture::laws::course_is_told;
use rtps_discovery::Directory;
use rtps_fragments::laws::{acts_are_heard_without_fragments, skipped_fragments_are_not_sent};
use rtps_ids::SeqNum;
use rtps_passes::{Comparison, Judging, Survey};
use rtps_report::{AskedAudit, Ending, Fragments, Watch};
use rtps_text::{directory_text, report_text};
use std::alloc::Global;
use std::io::{Read, Write};

/// [`run`] of a source, which may be read more than once: of a recording that is listed or audited as lines, without fragments, no datagram is
/// kept. What is written of a source whose octets are known, and how the run ends, is what [`run`] promises of these octets. A pass reads no
/// more octets than the first one did. Where it finds other datagrams than that, [`RunFault::Changed`] is answered. It tells what was read,
/// and how far an audit is.
///
/// The whole text is made before anything is written. An `Err` says what was written: nothing, but for [`RunFault::Output`].
pub fn run_passes<R: Read, S: Source<R>, W: Write, P: Watch + Follow>(
    alloc: Global,
    options: &Options<'_>,
    input: &mut Rereading<S, R>,
    output: &mut W,
    watch: &mut P,
) -> Result<Ending, RunFault>
    ensures { passes_spec.RunsSource options.now.limits options.now.captures (commands.IsTextOf (commands.command_value options.now.command) None)
        (S.octets input.old.source) (W.contents output.old) (W.contents output.new) result }
{
    match passes_text(alloc, options, &input.source, &mut input.reader, watch)? {
        Some(told) => write_told(&told, output),
        None => run_once(alloc, options, input, output, watch),
    }
}

/// Writes a text, and answers how the run ends that writes it.
fn write_told<W: Write>(told: &(String, Ending), output: &mut W) -> Result<Ending, RunFault>
    ensures { MatchResult result
        (λ ending. (ending ≡ told.now.1) × Appends (W.contents output.old) (W.contents output.new) (string_bytes told.now.0))
        (runs_spec.FailsWriting (W.contents output.old) (W.contents output.new) (string_bytes told.now.0)) }
{
    write_text(told.0.as_bytes(), output)?;
    Ok(told.1)
}

/// [`run`] of a source, which is read once.
fn run_once<R: Read, S: Source<R>, W: Write, P: Watch + Follow>(
    alloc: Global,
    options: &Options<'_>,
    input: &mut Rereading<S, R>,
    output: &mut W,
    watch: &mut P,
) -> Result<Ending, RunFault>
    ensures { passes_spec.RunsSource options.now.limits options.now.captures (commands.IsTextOf (commands.command_value options.now.command) None)
        (S.octets input.old.source) (W.contents output.old) (W.contents output.new) result }
{
    rewind(&input.source, &mut input.reader, 0)?;
    run(alloc, options, &mut input.reader, output, watch)
}

/// What is printed by passes over a source, and how the run ends. None where the command is none that goes by passes.
fn passes_text<R: Read, S: Source<R>, P: Watch + Follow>(
    alloc: Global,
    options: &Options<'_>,
    source: &S,
    reader: &mut R,
    watch: &mut P,
) -> Result<Option<(String, Ending)>, RunFault>
    ensures known { (all : List ℕ) → S.octets source.now ≡ Some all
        → MatchResult result
        (λ found. IfSome found (λ told. passes_spec.Tells options.now.limits options.now.captures (commands.IsTextOf (commands.command_value options.now.command) None) all (string_bytes told.0) told.1))
        (passes_spec.FailsOn options.now.limits options.now.captures all) }
    ensures fault { IfErr result passes_spec.IsReadFault }
{
    let terms = CaptureTerms {
        alloc,
        limits: options.limits,
        captures: options.captures,
    };
    match options.command {
        Command::Audit(asked) => audit_by_passes(terms, asked, source, reader, watch),
        Command::List(fragments) => list_by_passes(terms, fragments, source, reader, watch),
        _ => Ok(None),
    }
}

/// What `list` prints of a source, and that it ends [`Ending::Clean`]. None where fragments are read.
fn list_by_passes<R: Read, S: Source<R>, P: Follow>(
    terms: CaptureTerms,
    fragments: Fragments,
    source: &S,
    reader: &mut R,
    watch: &mut P,
) -> Result<Option<(String, Ending)>, RunFault>
    ensures known { (all : List ℕ) → S.octets source.now ≡ Some all
        → MatchResult result (λ found. IfSome found (λ told. passes_spec.Tells terms.limits terms.captures (list_text_spec.IsListedWith fragments) all (string_bytes told.0) told.1)) (passes_spec.FailsOn terms.limits terms.captures all) }
    ensures fault { IfErr result passes_spec.IsReadFault }
{
    course_is_told();
    let Fragments::Skipped = fragments else {
        return Ok(None);
    };
    let names = Bump::new(terms.alloc);
    let mut pass = Pass::new(1, Surveyed::new(terms.alloc, &names));
    let first = first_pass(terms, source, reader, &mut pass)?;
    watch.recorded(first.whole.ignored());
    let survey = &pass.taker.survey;
    let text = directory_text(terms.alloc, survey.directory(), survey.faults())?;
    Ok(Some((text, Ending::Clean)))
}

/// What `audit` prints of a source, and how it ends. None where fragments are read.
fn audit_by_passes<R: Read, S: Source<R>, P: Follow>(
    terms: CaptureTerms,
    asked: AskedAudit,
    source: &S,
    reader: &mut R,
    watch: &mut P,
) -> Result<Option<(String, Ending)>, RunFault>
    ensures known { (all : List ℕ) → S.octets source.now ≡ Some all
        → MatchResult result (λ found. IfSome found (λ told. passes_spec.Tells terms.limits terms.captures (report_text_spec.IsAuditedAs asked) all (string_bytes told.0) told.1)) (passes_spec.FailsOn terms.limits terms.captures all) }
    ensures fault { IfErr result passes_spec.IsReadFault }
{
    course_is_told();
    skipped_fragments_are_not_sent();
    acts_are_heard_without_fragments();
    let Fragments::Skipped = asked.fragments else {
        return Ok(None);
    };
    let names = Bump::new(terms.alloc);
    let mut pass = Pass::new(1, Surveyed::new(terms.alloc, &names));
    let first = first_pass(terms, source, reader, &mut pass)?;
    watch.recorded(first.whole.ignored());
    let survey = &pass.taker.survey;
    let report = report_again(first, asked.from, source, reader, survey)?;
    let told = report_text(terms.alloc, &report, first.whole.ignored())?;
    Ok(Some(told))
}

/// The report on a recording, by the passes behind the first one.
fn report_again<R: Read, S: Source<R>>(
    first: FirstPass,
    from: SeqNum,
    source: &S,
    reader: &mut R,
    survey: &Survey<'_>,
) -> Result<Report, RunFault>
    ensures known { (all : List ℕ) → S.octets source.now ≡ Some all → passes_spec.IsFirstOf all first
        → survey_spec.IsSurveyBy (intake_spec.intake_of (passes_spec.octets_in first all)) survey.now
        → MatchResult result (delivered.IsExactReportBy from (intake_spec.intake_of (passes_spec.octets_in first all))) capture_blocks.IsNoRecFault }
    ensures fault { IfErr result passes_spec.IsReadFault }
{
    let judging = judge_again(first, from, source, reader, survey.directory())?;
    compare_again(first, source, reader, survey, &judging)
}

/// The second pass: the accounts of the pairs of a directory.
fn judge_again<R: Read, S: Source<R>>(
    first: FirstPass,
    from: SeqNum,
    source: &S,
    reader: &mut R,
    directory: &Directory<'_>,
) -> Result<Judging, RunFault>
    ensures known { (all : List ℕ) (acts : List values.ActValue) → S.octets source.now ≡ Some all → passes_spec.IsFirstOf all first → directory_spec.IsMapOf acts directory.now
        → MatchResult result
        (judging_spec.IsJudgingBy from (judging_spec.pairs_in directory.now) (speech.acts_by_datagram (passes_spec.octets_in first all)))
        capture_blocks.IsNoRecFault }
    ensures fault { IfErr result passes_spec.IsReadFault }
{
    let alloc = first.terms.alloc;
    let judging = Judging::of(alloc, directory, from)?;
    let mut pass = Pass::new(2, Judged { judging, alloc });
    read_again(first, source, reader, &mut pass)?;
    Ok(pass.into_taker().judging)
}

/// The third pass, where payloads have to be compared, and the report.
fn compare_again<R: Read, S: Source<R>>(
    first: FirstPass,
    source: &S,
    reader: &mut R,
    survey: &Survey<'_>,
    judging: &Judging,
) -> Result<Report, RunFault>
    ensures known { (all : List ℕ) (from : ℕ) → S.octets source.now ≡ Some all → passes_spec.IsFirstOf all first
        → survey_spec.IsSurveyBy (intake_spec.intake_of (passes_spec.octets_in first all)) survey.now
        → judging_spec.IsJudgingBy from (judging_spec.pairs_in survey.now.directory) (speech.acts_by_datagram (passes_spec.octets_in first all)) judging.now
        → MatchResult result (delivered.IsExactReportBy from (intake_spec.intake_of (passes_spec.octets_in first all))) capture_blocks.IsNoRecFault }
    ensures fault { IfErr result passes_spec.IsReadFault }
{
    let alloc = first.terms.alloc;
    let payloads = Bump::new(alloc);
    let comparison = Comparison::of(alloc, judging);
    if !judging.has_questions() {
        let report = comparison.report(survey)?;
        return Ok(report);
    }
    let mut pass = Pass::new(3, Compared::new(alloc, comparison, &payloads));
    read_again(first, source, reader, &mut pass)?;
    let report = pass.taker.comparison.report(survey)?;
    Ok(report)
}
