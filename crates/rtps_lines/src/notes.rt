ghost use Rattle.std.specs.Prelude.{◌≡◌, ◌++◌, OnOk, IfOk, length, map};
ghost use Rattle.std.specs.List.{flat_map};
ghost use Rattle.std.specs.String.{string_bytes};
ghost use Rattle.rtps_evidence.specs.Explanation as explanation;
ghost use Rattle.rtps_parts.specs.Parts as parts;
ghost use Rattle.rtps_report.specs.ByTopic as by_topic;
ghost use Rattle.rtps_report.specs.BestEfforts as best_efforts;
ghost use Rattle.rtps_report.specs.Talk as talk_spec;
ghost use Rattle.rtps_lines.specs.Notes as notes_spec;

use crate::fields::SecondsText;
use crate::late_notes::{MatchedLate, push_matched};
use crate::sentences::no_pair::ONE_HOST;
use crate::sentences::noted as said;
use crate::side_notes::push_beside;
use crate::tail_names::tail_names;
use crate::talk_notes::{push_left_out, push_talking};
use rtps_evidence::{Explanation, Seconds};
use rtps_parts::{Part, Words, push_rendered, render, words_for};
use rtps_report::{
    BestEffort, LateRow, LeftOut, NoteFacts, SideFacts, Talk, are_on_one_host, topics_of,
};
use std::alloc::{AllocError, Global};

/// What weakens a report.
#[derive(Clone, Copy)]
pub(crate) enum Weakness {
    Likely,
    Pieces,
    Cut,
    /// Frames of links that are not read; the link type of the first, where it is known.
    Links(Option<u32>),
    Other,
    Fragments,
    Unsettled,
    Refused,
}

impl Weakness {
    #[tactic(auto, unfolding(crate::specs::Notes::words_of))]
    pub(crate) fn words(self) -> Words
        ensures { parts.words_value result ≡ notes_spec.words_of self }
    {
        match self {
            Weakness::Likely => Words {
                one: said::LIKELY_ONE,
                many: said::LIKELY_MANY,
            },
            Weakness::Pieces => Words {
                one: said::PIECES_ONE,
                many: said::PIECES_MANY,
            },
            Weakness::Cut => Words {
                one: said::CUT_ONE,
                many: said::CUT_MANY,
            },
            Weakness::Links(_) => Words {
                one: said::LINKS_ONE,
                many: said::LINKS_MANY,
            },
            Weakness::Other => Words {
                one: said::OTHER_ONE,
                many: said::OTHER_MANY,
            },
            Weakness::Fragments => Words {
                one: said::FRAGMENTS_ONE,
                many: said::FRAGMENTS_MANY,
            },
            Weakness::Unsettled => Words {
                one: said::UNSETTLED_ONE,
                many: said::UNSETTLED_MANY,
            },
            Weakness::Refused => Words {
                one: said::REFUSED_ONE,
                many: said::REFUSED_MANY,
            },
        }
    }

    /// What is said behind so much of it: the link type of the first frame, where it is known.
    #[tactic(auto, unfolding(crate::specs::Notes::detail_of))]
    pub(crate) fn detail(self, number: u128) -> [Part<'static>; 2]
        ensures { map parts.part_text result ≡ notes_spec.detail_of number self }
    {
        match self {
            Weakness::Links(Some(first)) if number == 1 => {
                [Part::Text(said::OF_TYPE), Part::Grouped(u128::from(first))]
            }
            Weakness::Links(Some(first)) => [
                Part::Text(said::FIRST_OF_TYPE),
                Part::Grouped(u128::from(first)),
            ],
            _ => [Part::Text(""), Part::Text("")],
        }
    }

    #[tactic(auto, unfolding(crate::specs::Notes::remedy_of))]
    fn remedy(self) -> &'static str
        ensures { result.now ≡ notes_spec.remedy_of self }
    {
        match self {
            Weakness::Likely => said::LIKELY_REMEDY,
            Weakness::Pieces => said::PIECES_REMEDY,
            Weakness::Cut => said::CUT_REMEDY,
            Weakness::Links(_) => said::LINKS_REMEDY,
            Weakness::Other => said::OTHER_REMEDY,
            Weakness::Fragments => said::FRAGMENTS_REMEDY,
            Weakness::Unsettled => said::UNSETTLED_REMEDY,
            Weakness::Refused => said::REFUSED_REMEDY,
        }
    }
}

pub(crate) fn pair_words() -> Words
    ensures { parts.words_value result ≡ notes_spec.pair_words }
{
    Words {
        one: "pair",
        many: "pairs",
    }
}

/// The words for numbers.
pub fn number_words() -> Words
    ensures { parts.words_value result ≡ notes_spec.number_words }
{
    Words {
        one: "number",
        many: "numbers",
    }
}

fn weaknesses(facts: &NoteFacts) -> [(u128, Weakness); 8]
    ensures { result ≡ notes_spec.weaknesses facts.now }
{
    let links = facts.links;
    [
        (facts.likely, Weakness::Likely),
        (u128::from(facts.pieces), Weakness::Pieces),
        (u128::from(facts.cut), Weakness::Cut),
        (u128::from(links.number), Weakness::Links(links.first)),
        (u128::from(facts.other), Weakness::Other),
        (facts.fragments, Weakness::Fragments),
        (u128::from(facts.unsettled), Weakness::Unsettled),
        (u128::from(facts.refused), Weakness::Refused),
    ]
}

fn push_note(
    alloc: Global,
    notes: &mut Vec<String>,
    found: (u128, Weakness),
    arrow: &str,
) -> Result<(), AllocError>
    ensures { OnOk result (map string_bytes notes.new.items ≡ map string_bytes notes.old.items ++ notes_spec.note arrow.now found) }
{
    let (number, weakness) = found;
    if number == 0 {
        return Ok(());
    }
    let detail = weakness.detail(number);
    let parts = [
        Part::Amount(number, weakness.words()),
        detail[0],
        detail[1],
        Part::Text(arrow),
        Part::Text(weakness.remedy()),
    ];
    push_rendered(alloc, notes, &parts)
}

/// The name of the topic of rows, by ROS 2; empty where there is no row.
pub fn topic_name<'a>(rows: &[Explanation<'a>]) -> Part<'a>
    ensures { parts.part_text result ≡ notes_spec.topic_name (map explanation.explanation_value rows.now) }
{
    match rows.first() {
        Some(row) => Part::TopicName(row.topic),
        None => Part::Text(""),
    }
}

fn joined_names(alloc: Global, topics: &[&[Explanation<'_>]]) -> Result<String, AllocError>
    ensures { IfOk result (λ names. string_bytes names ≡ notes_spec.joined_names (map (λ topic. map explanation.explanation_value topic.now) topics.now)) }
{
    let mut names = String::new(alloc);
    let Some((first, others)) = topics.split_first() else {
        return Ok(names);
    };
    render(&mut names, &[Part::Text(": "), topic_name(first)])?;
    for other in others {
        render(&mut names, &[Part::Text(", "), topic_name(other)])?;
    }
    Ok(names)
}

/// The names of the topics of rows, which stand by topic, behind a colon; empty where there is no row.
pub fn names_of(alloc: Global, rows: &[Explanation<'_>]) -> Result<String, AllocError>
    ensures { IfOk result (λ names. string_bytes names ≡ notes_spec.joined_names (by_topic.topics_of (map explanation.explanation_value rows.now))) }
{
    let topics = topics_of(alloc, rows)?;
    joined_names(alloc, &topics)
}

/// The same where topics are named; empty where they are not.
pub(crate) fn names_if(
    alloc: Global,
    named: bool,
    rows: &[Explanation<'_>],
) -> Result<String, AllocError>
    ensures { IfOk result (λ names. string_bytes names ≡ notes_spec.names_if named (map explanation.explanation_value rows.now)) }
{
    if named {
        names_of(alloc, rows)
    } else {
        Ok(String::new(alloc))
    }
}

fn back_by<'t>(seconds: &'t str, arrow: &'t str) -> [Part<'t>; 5]
    ensures { flat_map parts.part_text result ≡ notes_spec.back_by seconds.now arrow.now }
{
    [
        Part::Text(said::BACK),
        Part::Text(seconds),
        Part::Text(" s"),
        Part::Text(arrow),
        Part::Text(said::BACK_REMEDY),
    ]
}

/// Appends by how many nanoseconds times go back, and what to do.
fn push_order(
    alloc: Global,
    notes: &mut Vec<String>,
    back: u64,
    arrow: &str,
) -> Result<(), AllocError>
    ensures { OnOk result (map string_bytes notes.new.items ≡ map string_bytes notes.old.items ++ notes_spec.order_note arrow.now back) }
{
    if back == 0 {
        return Ok(());
    }
    let mut seconds = String::new(alloc);
    write!(seconds, "{}", SecondsText(Seconds::of(back)))?;
    push_rendered(alloc, notes, &back_by(&seconds, arrow))
}

fn push_hosts(
    alloc: Global,
    notes: &mut Vec<String>,
    talk: &Talk<'_>,
    arrow: &str,
) -> Result<(), AllocError>
    ensures { OnOk result (map string_bytes notes.new.items ≡ map string_bytes notes.old.items ++ notes_spec.host_note arrow.now (talk_spec.talk_value talk.now).participants) }
{
    if !are_on_one_host(&talk.participants) {
        return Ok(());
    }
    let parts = [
        Part::Text(ONE_HOST),
        Part::Text(arrow),
        Part::Text(said::ONE_HOST_REMEDY),
    ];
    push_rendered(alloc, notes, &parts)
}

/// The topics of pairs of best effort behind a colon, each with how many of its numbers are recorded; empty where there is none.
fn shares_of(alloc: Global, sums: &[BestEffort<'_>]) -> Result<String, AllocError>
    ensures { IfOk result (λ shares. string_bytes shares ≡ notes_spec.shares_text (map best_efforts.best_effort_value sums.now)) }
{
    let mut shares = String::new(alloc);
    let Some((first, others)) = sums.split_first() else {
        return Ok(shares);
    };
    render(&mut shares, &share_parts(": ", first))?;
    for other in others {
        render(&mut shares, &share_parts(", ", other))?;
    }
    Ok(shares)
}

/// The same where topics are named; empty where they are not.
pub(crate) fn shares_if(
    alloc: Global,
    named: bool,
    sums: &[BestEffort<'_>],
) -> Result<String, AllocError>
    ensures { IfOk result (λ shares. string_bytes shares ≡ notes_spec.shares_if named (map best_efforts.best_effort_value sums.now)) }
{
    if named {
        shares_of(alloc, sums)
    } else {
        Ok(String::new(alloc))
    }
}

fn share_parts<'a>(separator: &'static str, sum: &BestEffort<'a>) -> [Part<'a>; 4]
    ensures { flat_map parts.part_text result ≡ notes_spec.share_text separator.now (best_efforts.best_effort_value sum.now) }
{
    [
        Part::Text(separator),
        Part::TopicName(sum.topic),
        Part::Text(" "),
        Part::Share(sum.recorded, sum.numbers),
    ]
}

/// What is to be done where not all numbers are recorded, behind an arrow.
fn best_effort_remedy<'t>(total: &BestEffort<'_>, arrow: &'t str) -> [Part<'t>; 2]
    ensures text { flat_map parts.part_text result ≡ notes_spec.best_effort_remedy arrow.now (best_efforts.best_effort_value total.now) }
    ensures both { length result ≡ 2 }
{
    if total.recorded < total.numbers {
        [Part::Text(arrow), Part::Text(said::BEST_EFFORT_REMEDY)]
    } else {
        [Part::Text(""), Part::Text("")]
    }
}

/// Appends how many numbers of all pairs of best effort are recorded, and behind that the text on their topics.
fn push_best_effort<'t>(
    alloc: Global,
    notes: &mut Vec<String>,
    told: (&BestEffort<'_>, &'t str),
    arrow: &'t str,
) -> Result<(), AllocError>
    ensures { OnOk result (map string_bytes notes.new.items ≡ map string_bytes notes.old.items
        ++ notes_spec.best_effort_note arrow.now (best_efforts.best_effort_value told.entry.0.now) told.entry.1.now) }
{
    let (total, shares) = told;
    if total.pairs == 0 {
        return Ok(());
    }
    let pairs = Words {
        one: said::BEST_EFFORT_ONE,
        many: said::BEST_EFFORT_MANY,
    };
    let numbers = Words {
        one: said::RECORDED_ONE,
        many: said::RECORDED_MANY,
    };
    let remedy = best_effort_remedy(total, arrow);
    let parts = [
        Part::Amount(u128::from(total.pairs), pairs),
        Part::Share(total.recorded, total.numbers),
        Part::Text(words_for(total.numbers, numbers)),
        Part::Text(shares),
        remedy[0],
        remedy[1],
    ];
    push_rendered(alloc, notes, &parts)
}

fn push_weaknesses(
    alloc: Global,
    notes: &mut Vec<String>,
    facts: &NoteFacts,
    arrow: &str,
) -> Result<(), AllocError>
    ensures { OnOk result (map string_bytes notes.new.items ≡ map string_bytes notes.old.items ++ flat_map (notes_spec.note arrow.now) (notes_spec.weaknesses facts.now)) }
{
    for found in &weaknesses(facts) {
        push_note(alloc, notes, *found, arrow)?;
    }
    Ok(())
}

fn late_by<'t>(pairs: u64, names: &'t str, arrow: &'t str) -> [Part<'t>; 5]
    ensures { flat_map parts.part_text result ≡ notes_spec.late_by pairs names.now arrow.now }
{
    [
        Part::Text(said::LATE),
        Part::Amount(u128::from(pairs), pair_words()),
        Part::Text(names),
        Part::Text(arrow),
        Part::Text(said::LATE_REMEDY),
    ]
}

/// Appends for how many pairs the writer wrote nothing since the reader joined, and behind that the names of their topics.
fn push_late<'t>(
    alloc: Global,
    notes: &mut Vec<String>,
    told: (u64, &'t str),
    arrow: &'t str,
) -> Result<(), AllocError>
    ensures { OnOk result (map string_bytes notes.new.items ≡ map string_bytes notes.old.items ++ notes_spec.late_note arrow.now told.entry.0 told.entry.1.now) }
{
    let (pairs, names) = told;
    if pairs == 0 {
        return Ok(());
    }
    push_rendered(alloc, notes, &late_by(pairs, names, arrow))
}

/// The topics of rows with tails, where topics are named; empty where they are not.
fn tail_names_if(alloc: Global, named: bool, rows: &[Explanation<'_>]) -> Result<String, AllocError>
    ensures { IfOk result (λ names. string_bytes names ≡ notes_spec.tail_names_if named (map explanation.explanation_value rows.now)) }
{
    if named {
        tail_names(alloc, rows)
    } else {
        Ok(String::new(alloc))
    }
}

/// Appends how many rows are clean with a tail, how long the longest is, and behind that the text on their topics.
fn push_tails(
    alloc: Global,
    notes: &mut Vec<String>,
    facts: &NoteFacts,
    names: &str,
) -> Result<(), AllocError>
    ensures { OnOk result (map string_bytes notes.new.items ≡ map string_bytes notes.old.items ++ notes_spec.tail_note facts.now names.now) }
{
    if facts.tails == 0 {
        return Ok(());
    }
    let pairs = Words {
        one: "pair is",
        many: "pairs are",
    };
    let parts = [
        Part::Amount(u128::from(facts.tails), pairs),
        Part::Text(said::TAIL),
        Part::Amount(u128::from(facts.longest), number_words()),
        Part::Text(names),
    ];
    push_rendered(alloc, notes, &parts)
}

/// Of what notes tell. Rows and pairs stand by topic.
#[derive(Clone, Copy)]
pub struct NotedRows<'r, 'a> {
    /// Who does not talk.
    pub talk: &'r Talk<'a>,
    /// The names of those that talk though they do not match; empty where topics are not named.
    pub talking: &'r str,
    /// The pairs that are left out.
    pub left_out: &'r [LeftOut<'a>],
    /// Those whose writer wrote nothing since their reader joined, and whose two did not match late. They are only read where topics are named.
    pub late: &'r [Explanation<'a>],
    /// Those whose two matched late.
    pub matched_late: &'r [LateRow<'a>],
    /// The lines of the latest of these; empty where topics are not named.
    pub late_lines: &'r str,
    /// Those that are clean with a tail. They are only read where topics are named.
    pub tails: &'r [Explanation<'a>],
    /// All that are not left out. They are only read where topics are named.
    pub rows: &'r [Explanation<'a>],
    /// What another recording shows; None where there is none.
    pub side: Option<SideFacts>,
    /// Whether the topics are named.
    pub named: bool,
}

/// What is told of the pairs that matched late.
fn matched_in<'r>(facts: &NoteFacts, rows: NotedRows<'r, '_>) -> MatchedLate<'r>
    ensures pairs { result.pairs ≡ length (notes_spec.noted_value rows.entry).matched_late }
    ensures before { result.before ≡ facts.now.late_before }
    ensures lines { result.lines.now ≡ rows.entry.late_lines.now }
{
    MatchedLate {
        pairs: rows.matched_late.len(),
        before: facts.late_before,
        lines: rows.late_lines,
    }
}

/// What weakens a report, and before what is to be done this arrow.
pub fn notes_of(
    alloc: Global,
    facts: &NoteFacts,
    rows: NotedRows<'_, '_>,
    arrow: &str,
) -> Result<Vec<String>, AllocError>
    ensures { IfOk result (λ notes. map string_bytes notes.items ≡ notes_spec.notes arrow.now facts.now (notes_spec.noted_value rows.entry)) }
{
    let talk = rows.talk;
    let shares = shares_if(alloc, rows.named, &talk.best_effort)?;
    let late = names_if(alloc, rows.named, rows.late)?;
    let tails = tail_names_if(alloc, rows.named, rows.tails)?;
    let mut notes = Vec::new(alloc);
    push_order(alloc, &mut notes, facts.back, arrow)?;
    push_hosts(alloc, &mut notes, talk, arrow)?;
    push_talking(alloc, &mut notes, talk, rows.talking)?;
    push_left_out(alloc, &mut notes, rows)?;
    push_best_effort(alloc, &mut notes, (&talk.best_effort_total, &shares), arrow)?;
    push_beside(alloc, &mut notes, rows, arrow)?;
    push_late(alloc, &mut notes, (facts.late, &late), arrow)?;
    push_matched(alloc, &mut notes, matched_in(facts, rows), arrow)?;
    push_tails(alloc, &mut notes, facts, &tails)?;
    push_weaknesses(alloc, &mut notes, facts, arrow)?;
    Ok(notes)
}
