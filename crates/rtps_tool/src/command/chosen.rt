ghost use Rattle.std.specs.Prelude.{◌≡◌, codes, Some, IfOk, MatchOption};
ghost use Rattle.std.specs.Option.{option_map};
ghost use Rattle.clap.specs.Words.{found_of, rows_of, subcommand_rows_of};
ghost use Rattle.rtps_tool.specs.Limits as limits_spec;
ghost use Rattle.rtps_tool.specs.Words as words;

use crate::choices::text_of;
use crate::command::Choice;
use crate::command::options::{
    arrived_of, audit_form_of, captures_of, check_form_of, file_of, fragments_of, limits_of,
    number_of,
};
use crate::demands::demands_of;
use crate::runs::{Form, Limits};
use clap::ArgMatches;
use rtps_report::AskedAudit;
use std::alloc::{AllocError, Global};

/// The limits of a report for which none are given: the usual ones where standard input is read, else those of files.
fn unchosen_of(file: &str, arrived: Option<&str>) -> Limits
    ensures standard { words.IsStandardRead file.now (option_map (λ name. name.now) arrived.entry) → result ≡ limits_spec.usual }
    ensures files { ¬ words.IsStandardRead file.now (option_map (λ name. name.now) arrived.entry) → result ≡ limits_spec.of_files }
{
    let is_other_standard = match arrived {
        Some(name) => name == "-",
        None => false,
    };
    if file == "-" || is_other_standard {
        Limits::usual()
    } else {
        Limits::of_files()
    }
}

/// What the matches of a subcommand that tells a report choose, in a form that is given.
fn report_of(alloc: Global, found: &ArgMatches, form: Form) -> Result<Choice, AllocError>
    requires { words.IsFormGiven (rows_of (found_of found.now)) form }
    ensures { IfOk result (words.IsChoice (Some (words.form_name form, rows_of (found_of found.now)))) }
{
    let file = file_of(alloc, found)?;
    let arrived = arrived_of(alloc, found)?;
    let unchosen = unchosen_of(file.as_str(), text_of(&arrived));
    Ok(Choice::Report {
        file,
        arrived,
        limits: limits_of(found, unchosen),
        form,
        demands: demands_of(alloc, found)?,
    })
}

/// What the matches of `check` choose.
fn check_of(alloc: Global, check: &ArgMatches) -> Result<Choice, AllocError>
    ensures { IfOk result (words.IsChoice (Some (codes "check", rows_of (found_of check.now)))) }
{
    report_of(alloc, check, check_form_of(check))
}

/// What the matches of `show` choose.
fn show_of(alloc: Global, show: &ArgMatches) -> Result<Choice, AllocError>
    ensures { IfOk result (words.IsChoice (Some (codes "show", rows_of (found_of show.now)))) }
{
    Ok(Choice::Show {
        file: file_of(alloc, show)?,
        limits: limits_of(show, Limits::usual()),
        captures: captures_of(show),
        fragments: fragments_of(show),
    })
}

/// What the matches of `list` choose.
fn list_of(alloc: Global, list: &ArgMatches) -> Result<Choice, AllocError>
    ensures { IfOk result (words.IsChoice (Some (codes "list", rows_of (found_of list.now)))) }
{
    Ok(Choice::List {
        file: file_of(alloc, list)?,
        limits: limits_of(list, Limits::usual()),
        captures: captures_of(list),
        fragments: fragments_of(list),
    })
}

/// What the matches of `audit` choose.
fn audit_of(alloc: Global, audit: &ArgMatches) -> Result<Choice, AllocError>
    ensures { IfOk result (words.IsChoice (Some (codes "audit", rows_of (found_of audit.now)))) }
{
    let asked = AskedAudit {
        from: number_of(audit),
        fragments: fragments_of(audit),
    };
    Ok(Choice::Audit {
        file: file_of(alloc, audit)?,
        limits: limits_of(audit, Limits::usual()),
        captures: captures_of(audit),
        form: audit_form_of(audit),
        asked,
    })
}

/// What the matches choose; None where they have no subcommand that can be chosen.
pub(crate) fn choice_of(alloc: Global, matches: &ArgMatches) -> Result<Option<Choice>, AllocError>
    ensures { IfOk result (λ choice. MatchOption choice
        ((chosen : Choice) → ¬ words.IsChoice (subcommand_rows_of matches.now) chosen)
        (words.IsChoice (subcommand_rows_of matches.now))) }
{
    if let Some(check) = matches.subcommand_matches("check") {
        return Ok(Some(check_of(alloc, check)?));
    }
    if let Some(show) = matches.subcommand_matches("show") {
        return Ok(Some(show_of(alloc, show)?));
    }
    if let Some(list) = matches.subcommand_matches("list") {
        return Ok(Some(list_of(alloc, list)?));
    }
    if let Some(audit) = matches.subcommand_matches("audit") {
        return Ok(Some(audit_of(alloc, audit)?));
    }
    if let Some(why) = matches.subcommand_matches("why") {
        return Ok(Some(report_of(alloc, why, Form::Why)?));
    }
    if let Some(page) = matches.subcommand_matches("page") {
        return Ok(Some(report_of(alloc, page, Form::Page)?));
    }
    if matches.subcommand_matches("sample").is_some() {
        return Ok(Some(Choice::Sample));
    }
    Ok(None)
}
