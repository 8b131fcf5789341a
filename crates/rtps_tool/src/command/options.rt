ghost use Rattle.std.specs.Prelude.{◌≡◌, codes, Some, IfOk, [], unwrap_or};
ghost use Rattle.std.specs.Option.{option_map};
ghost use Rattle.std.specs.String.{string_bytes};
ghost use Rattle.clap.specs.Words.{first_of, found_of, one_of, rows_of};
ghost use Rattle.rtps_report.specs.Asked as asked;
ghost use Rattle.rtps_tool.specs.Words as words;

use crate::command::{AuditForm, GREATEST};
use crate::runs::{Form, Limits};
use clap::ArgMatches;
use rtps_capture::Captures;
use rtps_ids::SeqNum;
use rtps_report::Fragments;
use std::alloc::{AllocError, Global};

/// The FILE of a subcommand; empty where it has none.
pub(crate) fn file_of(alloc: Global, found: &ArgMatches) -> Result<String, AllocError>
    ensures { IfOk result (λ file. string_bytes file ≡ unwrap_or (first_of (codes "FILE") (rows_of (found_of found.now))) []) }
{
    String::from_str(alloc, found.get_str("FILE").unwrap_or(""))
}

/// The number that a text is; 1 where it is none that a sample can have.
fn number_in(text: &str) -> SeqNum
    ensures { words.IsNumberGiven (Some text.now) result }
{
    match text.parse::<u64>() {
        Ok(number) if 1 <= number && number <= GREATEST => {
            SeqNum::new(number.cast_signed()).unwrap_or(SeqNum::first())
        }
        _ => SeqNum::first(),
    }
}

/// The number from which on is asked; 1 where none is given.
pub(crate) fn number_of(found: &ArgMatches) -> SeqNum
    ensures { words.IsNumberGiven (first_of (codes "N") (rows_of (found_of found.now))) result }
{
    match found.get_str("N") {
        Some(text) => number_in(text),
        None => SeqNum::first(),
    }
}

/// The number that a text is; the usual one where it is none from 1 to 2^63 - 1.
fn count_in(text: &str, usually: u64) -> u64
    ensures { words.IsGivenOr usually (Some text.now) result }
{
    match text.parse::<u64>() {
        Ok(number) if 1 <= number && number <= GREATEST => number,
        _ => usually,
    }
}

/// The number that is called so; the usual one where none is given.
fn count_of(found: &ArgMatches, called: &str, usually: u64) -> u64
    ensures { words.IsGivenOr usually (first_of called.now (rows_of (found_of found.now))) result }
{
    match found.get_str(called) {
        Some(text) => count_in(text, usually),
        None => usually,
    }
}

/// The limits that are given; one that is not is that of `unchosen`.
pub(crate) fn limits_of(found: &ArgMatches, unchosen: Limits) -> Limits
    ensures { words.AreLimitsGiven unchosen (rows_of (found_of found.now)) result }
{
    Limits {
        datagrams: count_of(found, "DATAGRAMS", unchosen.datagrams),
        octets: count_of(found, "OCTETS", unchosen.octets),
    }
}

/// Whether the flag of this name is given.
pub(crate) fn is_given(found: &ArgMatches, name: &str) -> bool
    ensures { words.IsFlagGiven (one_of name.now (rows_of (found_of found.now))) result }
{
    found.get_flag(name)
}

/// The form of an audit that is asked for.
pub(crate) fn audit_form_of(found: &ArgMatches) -> AuditForm
    ensures { words.IsFlagGiven (one_of (codes "json") (rows_of (found_of found.now))) (words.is_json result) }
{
    if is_given(found, "json") {
        AuditForm::Json
    } else {
        AuditForm::Lines
    }
}

/// The form of `check` that is asked for.
pub(crate) fn check_form_of(found: &ArgMatches) -> Form
    ensures given { words.IsFormGiven (rows_of (found_of found.now)) result }
    ensures of_check { words.form_name result ≡ codes "check" }
{
    if is_given(found, "json") {
        Form::CheckJson
    } else {
        Form::Check
    }
}

/// What is asked to become of samples in fragments.
pub(crate) fn fragments_of(found: &ArgMatches) -> Fragments
    ensures { words.IsFlagGiven (one_of (codes "fragments") (rows_of (found_of found.now))) (asked.are_read result) }
{
    if is_given(found, "fragments") {
        Fragments::Read
    } else {
        Fragments::Skipped
    }
}

/// The captures that are asked for.
pub(crate) fn captures_of(found: &ArgMatches) -> Captures
    ensures { words.IsFlagGiven (one_of (codes "any") (rows_of (found_of found.now))) (words.is_any result) }
{
    if is_given(found, "any") {
        Captures::Any
    } else {
        Captures::Classic
    }
}

/// The other recording that is given, if one is.
pub(crate) fn arrived_of(alloc: Global, found: &ArgMatches) -> Result<Option<String>, AllocError>
    ensures { IfOk result (λ arrived. option_map string_bytes arrived ≡ first_of (codes "OTHER") (rows_of (found_of found.now))) }
{
    match found.get_str("OTHER") {
        Some(name) => {
            let owned = String::from_str(alloc, name)?;
            Ok(Some(owned))
        }
        None => Ok(None),
    }
}
