ghost use Rattle.std.specs.Prelude.{◌≡◌, false, IfOk};
ghost use Rattle.clap.specs.Words.{app_of, new_app, rule_of};
ghost use Rattle.clap.specs.declared.builder.command.Command.TheViews.{out-Command};
ghost use Rattle.rtps_tool.specs.Words as words;

use crate::command::{GREATEST, VERSION};
use crate::demands::{with_rows, with_standard};
use clap::builder::ValueParser;
use clap::{Arg, ArgAction, Command};
use std::alloc::{AllocError, Global};

const FILE_HELP: &str =
    "A capture, or a text with one datagram a line in hexadecimal digits; - is standard input";

const ANY_HELP: &str =
    "Read any capture: pcapng, Linux cooked, loopback and raw IP frames, VLAN tags, IPv6, \
    and packets that came in fragments";

const FRAGMENTS_HELP: &str =
    "Read samples that were sent in DATA_FRAG, which are skipped otherwise";

const FROM_HELP: &str = "The first number to ask for, 1 to 9223372036854775807; \
    smaller numbers are left out; 1 if it is not given";

const DATAGRAMS_HELP: &str =
    "The most datagrams that the recording may have, 1 to 9223372036854775807; \
    1000000 if it is not given";

const OCTETS_HELP: &str = "The most octets that FILE may have, 1 to 9223372036854775807; \
    1073741824 if it is not given";

const REPORT_DATAGRAMS_HELP: &str =
    "The most datagrams that the recording may have, 1 to 9223372036854775807; \
    if it is not given, any number of a file, and 1000000 of standard input";

const REPORT_OCTETS_HELP: &str = "The most octets that FILE may have, 1 to 9223372036854775807; \
    if it is not given, any number of a file, and 1073741824 of standard input";

const ARRIVED_HELP: &str =
    "A second recording of the same time, made at the host of readers: its samples reached that host; \
    - is standard input";

const JSON_HELP: &str = "Print one JSON object, with what each verdict rests on";

const STATUSES: &str = "Status: 0 all is well, also if there is no pair; 1 a pair is not complete; \
    2 the arguments or the recording are refused; 3 input, output or memory failed";

const PLAIN_STATUSES: &str = "Status: 0 all is printed; \
    2 the arguments or the recording are refused; 3 input, output or memory failed";

const NEWCOMERS: &str = "A FILE is what was sent in a test: a capture, as tcpdump writes it, \
    or a text with one datagram a line in hexadecimal digits.

  tcpdump -i eth0 -w test.pcap udp          records a test, until it is interrupted
  rtps-audit check test.pcap                says which topics lost data, and what to do
  rtps-audit why test.pcap                  says which datagrams each verdict rests on
  rtps-audit page test.pcap > test.html     makes a page of this, to look at in a browser
  rtps-audit audit test.pcap                says whether each reader acknowledged all samples
  rtps-audit sample | rtps-audit check -    tries this program

check, why and page tell one report: they read any capture, and samples in DATA_FRAG. The others do so
where they are asked to: rtps-audit audit --any --fragments test.pcapng

Status: 0 all is well; 1 not clean, or of audit a pair is not complete; \
    2 the arguments or the recording are refused; 3 input, output or memory failed";

const CHECKS: &str = "Says which topics lost data, and what to do: for a person and for a test job";

const REPORT_STATUSES: &str = "Status: 0 clean; 1 not clean: the last line says why; \
    2 the arguments or the recording are refused; 3 input, output or memory failed";

const PAGE_STATUSES: &str = "Status: 0 clean; 1 not clean: the page says why; \
    2 the arguments or the recording are refused; 3 input, output or memory failed";

const SHOWS: &str = "Shows each datagram of a recording and its submessages";

const LISTS: &str = "Lists participants, endpoints and pairs of writers and readers that match";

const AUDITS: &str =
    "Says for each reliable writer and reader that match whether the reader acknowledged all samples";

const EXPLAINS: &str =
    "Prints each pair of the report of check, with the datagrams that its verdict rests on";

const PAGES: &str = "Writes the report of check as a page to look at in a browser, with charts";

const SAMPLES: &str = "Writes an example recording, which audit finds complete";

/// What help says of a subcommand that reads a FILE within two limits.
#[derive(Clone, Copy)]
struct Help<'a> {
    about: &'a str,
    statuses: &'a str,
    datagrams: &'a str,
    octets: &'a str,
}

/// An option of this name that takes a number from 1 to 2^63 - 1, which is called so.
fn number_option<'a>(alloc: Global, called: &'a str, name: &'a str, help: &'a str) -> Arg<'a>
    ensures rule { rule_of result ≡ words.number_rule called.now name.now }
    ensures local { result.global ≡ false }
{
    Arg::new(alloc, called)
        .long(name)
        .action(ArgAction::Set)
        .value_parser(ValueParser::unsigned(1, GREATEST))
        .help(help)
}

/// A flag of this name.
pub(crate) fn flag<'a>(alloc: Global, name: &'a str, help: &'a str) -> Arg<'a>
    ensures rule { rule_of result ≡ words.flag_rule name.now }
    ensures local { result.global ≡ false }
{
    Arg::new(alloc, name)
        .long(name)
        .action(ArgAction::SetTrue)
        .help(help)
}

/// The option that names another recording.
fn arrived_option<'a>(alloc: Global) -> Arg<'a>
    ensures rule { rule_of result ≡ words.arrived_rule }
    ensures local { result.global ≡ false }
{
    Arg::new(alloc, "OTHER")
        .long("arrived")
        .action(ArgAction::Set)
        .help(ARRIVED_HELP)
}

/// A subcommand that reads a FILE within two limits, of which help says this.
fn limited_subcommand<'a>(
    alloc: Global,
    name: &'a str,
    help: Help<'a>,
) -> Result<Command<'a>, AllocError>
    ensures app { IfOk result (λ command. app_of command ≡ words.limited_app name.now) }
    ensures local { IfOk result (λ command. (out-Command command).has_globals ≡ false) }
{
    let file = Arg::new(alloc, "FILE")
        .required(true)
        .action(ArgAction::Set)
        .help(FILE_HELP);
    let bare = Command::new(alloc, name)
        .about(help.about)
        .after_help(help.statuses);
    let one = bare.arg(file)?;
    let datagrams = number_option(alloc, "DATAGRAMS", "max-datagrams", help.datagrams);
    let two = one.arg(datagrams)?;
    two.arg(number_option(alloc, "OCTETS", "max-octets", help.octets))
}

/// A subcommand that reads a FILE, within two limits, and any capture where it is asked to.
fn reading_subcommand<'a>(
    alloc: Global,
    name: &'a str,
    about: &'a str,
    statuses: &'a str,
) -> Result<Command<'a>, AllocError>
    ensures app { IfOk result (λ command. app_of command ≡ words.reading_app name.now) }
    ensures local { IfOk result (λ command. (out-Command command).has_globals ≡ false) }
{
    let help = Help {
        about,
        statuses,
        datagrams: DATAGRAMS_HELP,
        octets: OCTETS_HELP,
    };
    let limited = limited_subcommand(alloc, name, help)?;
    limited.arg(flag(alloc, "any", ANY_HELP))
}

/// A subcommand that also reads samples in fragments where it is asked to.
fn fragments_subcommand<'a>(
    alloc: Global,
    name: &'a str,
    about: &'a str,
    statuses: &'a str,
) -> Result<Command<'a>, AllocError>
    ensures app { IfOk result (λ command. app_of command ≡ words.fragments_app name.now) }
    ensures local { IfOk result (λ command. (out-Command command).has_globals ≡ false) }
{
    let reading = reading_subcommand(alloc, name, about, statuses)?;
    reading.arg(flag(alloc, "fragments", FRAGMENTS_HELP))
}

/// A subcommand that tells a report: it reads a FILE, asks for numbers from some number on, chooses rows, says when one is clean, and may
/// have another recording.
fn report_subcommand<'a>(
    alloc: Global,
    name: &'a str,
    about: &'a str,
    statuses: &'a str,
) -> Result<Command<'a>, AllocError>
    ensures app { IfOk result (λ command. app_of command ≡ words.report_app name.now) }
    ensures local { IfOk result (λ command. (out-Command command).has_globals ≡ false) }
{
    let from = number_option(alloc, "N", "from", FROM_HELP);
    let help = Help {
        about,
        statuses,
        datagrams: REPORT_DATAGRAMS_HELP,
        octets: REPORT_OCTETS_HELP,
    };
    let limited = limited_subcommand(alloc, name, help)?;
    let numbered = limited.arg(from)?;
    let chosen = with_rows(alloc, numbered)?;
    let held = with_standard(alloc, chosen)?;
    held.arg(arrived_option(alloc))
}

/// The subcommand `check`, which tells a report, and prints JSON where it is asked to.
fn check_subcommand<'a>(alloc: Global) -> Result<Command<'a>, AllocError>
    ensures app { IfOk result (λ command. app_of command ≡ words.check_app) }
    ensures local { IfOk result (λ command. (out-Command command).has_globals ≡ false) }
{
    let report = report_subcommand(alloc, "check", CHECKS, REPORT_STATUSES)?;
    report.arg(flag(alloc, "json", JSON_HELP))
}

/// The subcommand `audit`, which judges by the numbers from some number on, and prints JSON where it is asked to.
fn audit_subcommand<'a>(alloc: Global) -> Result<Command<'a>, AllocError>
    ensures app { IfOk result (λ command. app_of command ≡ words.audit_app) }
    ensures local { IfOk result (λ command. (out-Command command).has_globals ≡ false) }
{
    let from = number_option(alloc, "N", "from", FROM_HELP);
    let reading = fragments_subcommand(alloc, "audit", AUDITS, STATUSES)?;
    let numbered = reading.arg(from)?;
    numbered.arg(flag(alloc, "json", JSON_HELP))
}

/// A subcommand that reads nothing.
fn plain_subcommand<'a>(alloc: Global, name: &'a str, about: &'a str) -> Command<'a>
    ensures app { app_of result ≡ new_app name.now }
    ensures local { (out-Command result).has_globals ≡ false }
{
    Command::new(alloc, name)
        .about(about)
        .after_help(PLAIN_STATUSES)
}

/// The program, with no subcommand yet.
fn bare_program<'a>(alloc: Global) -> Command<'a>
    ensures { app_of result ≡ words.bare_program }
{
    Command::new(alloc, "rtps-audit")
        .about("Audits recordings of RTPS datagrams: shows them, lists discovery, judges delivery")
        .after_help(NEWCOMERS)
        .version(VERSION)
        .subcommand_required(true)
}

/// The program's command line.
pub(crate) fn program<'a>(alloc: Global) -> Result<Command<'a>, AllocError>
    ensures { IfOk result (λ command. app_of command ≡ words.program) }
{
    let check = check_subcommand(alloc)?;
    let zero = bare_program(alloc).subcommand(check)?;
    let show = fragments_subcommand(alloc, "show", SHOWS, PLAIN_STATUSES)?;
    let one = zero.subcommand(show)?;
    let list = fragments_subcommand(alloc, "list", LISTS, PLAIN_STATUSES)?;
    let two = one.subcommand(list)?;
    let audit = audit_subcommand(alloc)?;
    let three = two.subcommand(audit)?;
    let why = report_subcommand(alloc, "why", EXPLAINS, REPORT_STATUSES)?;
    let four = three.subcommand(why)?;
    let page = report_subcommand(alloc, "page", PAGES, PAGE_STATUSES)?;
    let five = four.subcommand(page)?;
    five.subcommand(plain_subcommand(alloc, "sample", SAMPLES))
}
