ghost use Rattle.std.specs.Prelude.{◌≡◌, [], IfOk, Some, codes, false, map, unwrap_or};
ghost use Rattle.std.specs.String.{string_bytes};
ghost use Rattle.clap.specs.Words.{all_of, app_of, first_of, found_of, rows_of, rule_of, with_rule};
ghost use Rattle.clap.specs.declared.builder.command.Command.TheViews.{out-Command};
ghost use Rattle.rtps_tool.specs.Words as words;

use crate::command::GREATEST;
use crate::command::options::{is_given, number_of};
use crate::command::subcommands::flag;
use clap::builder::ValueParser;
use clap::{Arg, ArgAction, ArgMatches, Command};
use rtps_ids::SeqNum;
use rtps_report::Asked;
use std::alloc::{AllocError, Global};

/// What the words ask of a report.
#[derive(Drop)]
pub struct Demands {
    /// The number from which on is asked.
    pub from: SeqNum,
    /// Patterns, one of which each topic fits by its name, of DDS or of ROS 2; all topics where there is none.
    pub topics: Vec<String>,
    /// Patterns, one of which the name of the node of one end fits; all nodes where there is none.
    pub nodes: Vec<String>,
    /// How many rows there have to be, or more.
    pub expect: Option<u64>,
    /// The most numbers that the tail of a clean row may have.
    pub tail: u64,
    /// Whether each number has to be received for certain.
    pub certain: bool,
}

impl Demands {
    ghost use Rattle.rtps_report.specs.Asked as asked;
    ghost use Rattle.rtps_tool.specs.Options as options;

    /// What they ask.
    pub(crate) fn asked(&self) -> Asked<'_>
        ensures { asked.asked_value result ≡ options.asked_by self.now }
    {
        Asked {
            from: self.from,
            topics: &self.topics,
            nodes: &self.nodes,
            expect: self.expect,
            tail: self.tail,
            certain: self.certain,
        }
    }
}

const TOPIC_HELP: &str =
    "Only topics whose name, of DDS or of ROS 2, is PATTERN, in which * stands for any octets; \
    given again, any of them";

const NODE_HELP: &str =
    "Only pairs of which the node of the writer or of the reader is NODE, in which * stands for any octets; \
    given again, any of them";

const EXPECT_HELP: &str =
    "Status 1 also if the report has fewer rows than this, 0 to 9223372036854775807";

const TAIL_HELP: &str =
    "A pair is clean though the last numbers, N at most, are not acknowledged and \
    nothing else is lacking, 0 to 9223372036854775807; 0 if it is not given";

const CERTAIN_HELP: &str = "Status 1 also if a number of a pair is not received for certain";

/// The option that chooses rows by their topics.
fn pattern_option<'a>(alloc: Global) -> Arg<'a>
    ensures rule { rule_of result ≡ words.pattern_rule }
    ensures local { result.global ≡ false }
{
    Arg::new(alloc, "PATTERN")
        .long("topic")
        .action(ArgAction::Append)
        .help(TOPIC_HELP)
}

/// The option that chooses rows by the nodes of their ends.
fn node_option<'a>(alloc: Global) -> Arg<'a>
    ensures rule { rule_of result ≡ words.node_rule }
    ensures local { result.global ≡ false }
{
    Arg::new(alloc, "NODE")
        .long("node")
        .action(ArgAction::Append)
        .help(NODE_HELP)
}

/// The option that says how many rows there have to be.
fn expect_option<'a>(alloc: Global) -> Arg<'a>
    ensures rule { rule_of result ≡ words.expect_rule }
    ensures local { result.global ≡ false }
{
    Arg::new(alloc, "PAIRS")
        .long("expect")
        .action(ArgAction::Set)
        .value_parser(ValueParser::unsigned(0, GREATEST))
        .help(EXPECT_HELP)
}

/// The option that says how long a tail may be.
fn tail_option<'a>(alloc: Global) -> Arg<'a>
    ensures rule { rule_of result ≡ words.tail_rule }
    ensures local { result.global ≡ false }
{
    Arg::new(alloc, "TAIL")
        .long("tail")
        .action(ArgAction::Set)
        .value_parser(ValueParser::unsigned(0, GREATEST))
        .help(TAIL_HELP)
}

/// A subcommand with the options that say when a row is clean, and a run.
pub(crate) fn with_standard<'a>(
    alloc: Global,
    command: Command<'a>,
) -> Result<Command<'a>, AllocError>
    requires { (out-Command command).has_globals ≡ false }
    ensures app { IfOk result (λ made. app_of made ≡ with_rule (with_rule (app_of command.entry) words.tail_rule) (words.flag_rule (codes "certain"))) }
    ensures local { IfOk result (λ made. (out-Command made).has_globals ≡ false) }
{
    let one = command.arg(tail_option(alloc))?;
    one.arg(flag(alloc, "certain", CERTAIN_HELP))
}

/// A subcommand with the options that choose rows.
pub(crate) fn with_rows<'a>(alloc: Global, command: Command<'a>) -> Result<Command<'a>, AllocError>
    requires { (out-Command command).has_globals ≡ false }
    ensures app { IfOk result (λ made. app_of made ≡ with_rule (with_rule (with_rule (app_of command.entry) words.pattern_rule) words.node_rule) words.expect_rule) }
    ensures local { IfOk result (λ made. (out-Command made).has_globals ≡ false) }
{
    let one = command.arg(pattern_option(alloc))?;
    let two = one.arg(node_option(alloc))?;
    two.arg(expect_option(alloc))
}

/// The texts as texts of their own.
fn owned(alloc: Global, texts: &[&str]) -> Result<Vec<String>, AllocError>
    ensures { IfOk result (λ made. map string_bytes made.items ≡ map (λ text. text.now) texts.now) }
{
    let mut made = Vec::new(alloc);
    for text in texts {
        made.push(String::from_str(alloc, text)?)?;
    }
    Ok(made)
}

/// The patterns of an option that are given.
fn texts_of(alloc: Global, found: &ArgMatches, called: &str) -> Result<Vec<String>, AllocError>
    ensures { IfOk result (λ texts. map string_bytes texts.items
        ≡ unwrap_or (all_of called.now (rows_of (found_of found.now))) []) }
{
    match found.get_strs(called) {
        Some(patterns) => owned(alloc, patterns),
        None => Ok(Vec::new(alloc)),
    }
}

/// The number that a text is; None where it is none from 0 to 2^63 - 1.
fn expected_in(text: &str) -> Option<u64>
    ensures { words.IsExpectGiven (Some text.now) result }
{
    match text.parse::<u64>() {
        Ok(number) if number <= GREATEST => Some(number),
        _ => None,
    }
}

/// How many rows are expected, if that is given.
fn expect_of(found: &ArgMatches) -> Option<u64>
    ensures { words.IsExpectGiven (first_of (codes "PAIRS") (rows_of (found_of found.now))) result }
{
    match found.get_str("PAIRS") {
        Some(text) => expected_in(text),
        None => None,
    }
}

/// How long a tail may be; 0 where that is not given.
fn tail_of(found: &ArgMatches) -> u64
    ensures { words.IsTailGiven (first_of (codes "TAIL") (rows_of (found_of found.now))) result }
{
    match found.get_str("TAIL") {
        Some(text) => expected_in(text).unwrap_or(0),
        None => 0,
    }
}

/// What the matches of a subcommand ask of a report.
pub(crate) fn demands_of(alloc: Global, found: &ArgMatches) -> Result<Demands, AllocError>
    ensures { IfOk result (words.AreDemandsGiven (rows_of (found_of found.now))) }
{
    Ok(Demands {
        from: number_of(found),
        topics: texts_of(alloc, found, "PATTERN")?,
        nodes: texts_of(alloc, found, "NODE")?,
        expect: expect_of(found),
        tail: tail_of(found),
        certain: is_given(found, "certain"),
    })
}
