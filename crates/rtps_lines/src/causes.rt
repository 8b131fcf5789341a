ghost use Rattle.std.specs.Prelude.{◌≡◌, ◌++◌, OnOk, IfOk, flat_map, map};
ghost use Rattle.std.specs.String.{string_bytes};
ghost use Rattle.rtps_parts.specs.Parts as parts;
ghost use Rattle.rtps_lines.specs.Causes as causes_spec;

use crate::notes::{Weakness, pair_words};
use crate::sentences::noted::{BEST_EFFORT_MANY, BEST_EFFORT_ONE, RECORDED_MANY, RECORDED_ONE};
use crate::sentences::reason as said;
use crate::way_notes::{push_swapped_cause, push_twice_cause};
use rtps_parts::{Part, Words, push_joined, push_rendered, render, words_for};
use rtps_report::{BestEffortNumbers, Ending, FewRows, Findings, Links, NotToldCounts, Totals};
use std::alloc::{AllocError, Global};

fn findings_in(ending: &Ending) -> Findings
    ensures { result ≡ causes_spec.findings_in ending.now }
{
    match ending {
        Ending::Clean | Ending::Unclean => Findings::none(),
        Ending::Unmet(findings) => *findings,
    }
}

fn push_cause(
    alloc: Global,
    causes: &mut Vec<String>,
    number: u128,
    words: Words,
) -> Result<(), AllocError>
    ensures { OnOk result (map string_bytes causes.new.items
        ≡ map string_bytes causes.old.items ++ causes_spec.cause number (parts.words_value words)) }
{
    if number == 0 {
        Ok(())
    } else {
        push_rendered(alloc, causes, &[Part::Amount(number, words)])
    }
}

fn push_empty(alloc: Global, causes: &mut Vec<String>, empty: bool) -> Result<(), AllocError>
    ensures { OnOk result (map string_bytes causes.new.items ≡ map string_bytes causes.old.items ++ causes_spec.empty_cause empty) }
{
    if empty {
        push_rendered(alloc, causes, &[Part::Text(said::EMPTY)])
    } else {
        Ok(())
    }
}

fn push_few(alloc: Global, causes: &mut Vec<String>, few: Option<FewRows>) -> Result<(), AllocError>
    ensures { OnOk result (map string_bytes causes.new.items ≡ map string_bytes causes.old.items ++ causes_spec.few_cause few) }
{
    let Some(few) = few else {
        return Ok(());
    };
    let parts = [
        Part::Amount(u128::from(few.rows), pair_words()),
        Part::Text(" of "),
        Part::Grouped(u128::from(few.expected)),
        Part::Text(" expected"),
    ];
    push_rendered(alloc, causes, &parts)
}

/// How many numbers pairs of best effort have, and how many of these are recorded.
fn best_effort_parts(told: BestEffortNumbers) -> [Part<'static>; 3]
    ensures { flat_map parts.part_text result ≡ causes_spec.best_effort_text told }
{
    let pairs = Words {
        one: BEST_EFFORT_ONE,
        many: BEST_EFFORT_MANY,
    };
    let numbers = Words {
        one: RECORDED_ONE,
        many: RECORDED_MANY,
    };
    [
        Part::Amount(u128::from(told.pairs), pairs),
        Part::Share(told.recorded, told.numbers),
        Part::Text(words_for(told.numbers, numbers)),
    ]
}

fn push_lossy(
    alloc: Global,
    causes: &mut Vec<String>,
    lossy: Option<BestEffortNumbers>,
) -> Result<(), AllocError>
    ensures { OnOk result (map string_bytes causes.new.items ≡ map string_bytes causes.old.items ++ causes_spec.lossy_cause lossy) }
{
    let Some(told) = lossy else {
        return Ok(());
    };
    let mut text = String::new(alloc);
    text.push_str(said::BEST_EFFORT)?;
    render(&mut text, &best_effort_parts(told))?;
    causes.push(text)?;
    Ok(())
}

/// Numbers that rows lost, and how many rows did.
#[derive(Clone, Copy)]
pub(crate) struct Lost {
    pub(crate) numbers: u128,
    pub(crate) pairs: u64,
}

fn push_lost(
    alloc: Global,
    causes: &mut Vec<String>,
    lost: Lost,
    words: Words,
) -> Result<(), AllocError>
    ensures { OnOk result (map string_bytes causes.new.items ≡ map string_bytes causes.old.items ++ causes_spec.lost_cause lost (parts.words_value words)) }
{
    if lost.pairs == 0 {
        return Ok(());
    }
    let parts = [
        Part::Amount(lost.numbers, words),
        Part::Text(" "),
        Part::Amount(u128::from(lost.pairs), pair_words()),
    ];
    push_rendered(alloc, causes, &parts)
}

fn missed_words() -> Words
    ensures { parts.words_value result ≡ causes_spec.missed_words }
{
    Words {
        one: said::MISSED_ONE,
        many: said::MISSED_MANY,
    }
}

fn unsent_words() -> Words
    ensures { parts.words_value result ≡ causes_spec.unsent_words }
{
    Words {
        one: said::UNSENT_ONE,
        many: said::UNSENT_MANY,
    }
}

fn unanswered_words() -> Words
    ensures { parts.words_value result ≡ causes_spec.unanswered_words }
{
    Words {
        one: said::UNANSWERED_ONE,
        many: said::UNANSWERED_MANY,
    }
}

/// The words for likely numbers that did not arrive.
fn lost_words() -> Words
    ensures { parts.words_value result ≡ causes_spec.lost_words }
{
    Words {
        one: said::LOST_ONE,
        many: said::LOST_MANY,
    }
}

fn uncertain_words() -> Words
    ensures { parts.words_value result ≡ causes_spec.uncertain_words }
{
    Words {
        one: said::UNCERTAIN_ONE,
        many: said::UNCERTAIN_MANY,
    }
}

fn uncertain_of(totals: &Totals, certain: bool) -> Lost
    ensures { result ≡ causes_spec.uncertain_of totals.now certain }
{
    if !certain {
        return Lost {
            numbers: 0,
            pairs: 0,
        };
    }
    Lost {
        numbers: totals.numbers.saturating_sub(totals.received),
        pairs: totals.uncertain_pairs,
    }
}

fn incomplete_words() -> Words
    ensures { parts.words_value result ≡ causes_spec.incomplete_words }
{
    Words {
        one: said::INCOMPLETE_ONE,
        many: said::INCOMPLETE_MANY,
    }
}

/// The words for pairs that do not match.
pub fn unmatched_words() -> Words
    ensures { parts.words_value result ≡ causes_spec.unmatched_words }
{
    Words {
        one: said::UNMATCHED_ONE,
        many: said::UNMATCHED_MANY,
    }
}

fn told_words() -> Words
    ensures { parts.words_value result ≡ causes_spec.told_words }
{
    Words {
        one: said::NOT_TOLD_ONE,
        many: said::NOT_TOLD_MANY,
    }
}

/// The words for endpoints.
pub fn endpoint_words() -> Words
    ensures { parts.words_value result ≡ causes_spec.endpoint_words }
{
    Words {
        one: "endpoint",
        many: "endpoints",
    }
}

/// The words for participants with two lives.
pub fn lives_words() -> Words
    ensures { parts.words_value result ≡ causes_spec.lives_words }
{
    Words {
        one: said::LIVES_ONE,
        many: said::LIVES_MANY,
    }
}

fn push_not_told(
    alloc: Global,
    causes: &mut Vec<String>,
    counts: NotToldCounts,
) -> Result<(), AllocError>
    ensures { OnOk result (map string_bytes causes.new.items ≡ map string_bytes causes.old.items ++ causes_spec.not_told_cause counts) }
{
    if counts.participants == 0 {
        return Ok(());
    }
    let parts = [
        Part::Amount(u128::from(counts.participants), told_words()),
        Part::Amount(counts.endpoints, endpoint_words()),
    ];
    push_rendered(alloc, causes, &parts)
}

/// Appends what discovery did not tell, and who has two lives.
fn push_discovery(
    alloc: Global,
    causes: &mut Vec<String>,
    found: &Findings,
) -> Result<(), AllocError>
    ensures { OnOk result (map string_bytes causes.new.items ≡ map string_bytes causes.old.items ++ causes_spec.discovery_causes found.now) }
{
    push_not_told(alloc, causes, found.not_told)?;
    push_cause(alloc, causes, u128::from(found.lives), lives_words())
}

fn push_row_causes(
    alloc: Global,
    causes: &mut Vec<String>,
    totals: &Totals,
    certain: bool,
) -> Result<(), AllocError>
    ensures { OnOk result (map string_bytes causes.new.items ≡ map string_bytes causes.old.items ++ causes_spec.row_causes totals.now certain) }
{
    let unclean = u128::from(totals.unclean_pairs);
    let missed = Lost {
        numbers: totals.missed,
        pairs: totals.missed_pairs,
    };
    let unsent = Lost {
        numbers: totals.unsent,
        pairs: totals.unsent_pairs,
    };
    let unanswered = Lost {
        numbers: totals.unanswered,
        pairs: totals.unanswered_pairs,
    };
    let lost = Lost {
        numbers: totals.lost,
        pairs: totals.lost_pairs,
    };
    push_cause(alloc, causes, unclean, incomplete_words())?;
    push_lost(alloc, causes, missed, missed_words())?;
    push_lost(alloc, causes, unsent, unsent_words())?;
    push_lost(alloc, causes, unanswered, unanswered_words())?;
    push_lost(alloc, causes, lost, lost_words())?;
    push_lost(
        alloc,
        causes,
        uncertain_of(totals, certain),
        uncertain_words(),
    )
}

fn push_links(alloc: Global, causes: &mut Vec<String>, links: Links) -> Result<(), AllocError>
    ensures { OnOk result (map string_bytes causes.new.items ≡ map string_bytes causes.old.items ++ causes_spec.links_cause links) }
{
    if links.number == 0 {
        return Ok(());
    }
    let number = u128::from(links.number);
    let weakness = Weakness::Links(links.first);
    let detail = weakness.detail(number);
    let parts = [Part::Amount(number, weakness.words()), detail[0], detail[1]];
    push_rendered(alloc, causes, &parts)
}

fn push_unread(alloc: Global, causes: &mut Vec<String>, found: &Findings) -> Result<(), AllocError>
    ensures { OnOk result (map string_bytes causes.new.items ≡ map string_bytes causes.old.items ++ causes_spec.unread_causes found.now) }
{
    let unsettled = u128::from(found.unsettled);
    let pieces = u128::from(found.pieces);
    push_cause(alloc, causes, unsettled, Weakness::Unsettled.words())?;
    push_cause(alloc, causes, pieces, Weakness::Pieces.words())?;
    push_cause(alloc, causes, u128::from(found.cut), Weakness::Cut.words())?;
    push_links(alloc, causes, found.links)
}

fn push_order(alloc: Global, causes: &mut Vec<String>, found: &Findings) -> Result<(), AllocError>
    ensures { OnOk result (map string_bytes causes.new.items ≡ map string_bytes causes.old.items ++ causes_spec.order_causes found.now) }
{
    push_swapped_cause(alloc, causes, found.swapped)?;
    push_twice_cause(alloc, causes, found.twice)
}

/// What was counted of rows, and whether each number of theirs has to be certain.
#[derive(Clone, Copy)]
pub struct Judged<'t> {
    pub totals: &'t Totals,
    /// What pairs of best effort have.
    pub best_effort: BestEffortNumbers,
    pub certain: bool,
}

fn push_causes(
    alloc: Global,
    causes: &mut Vec<String>,
    judged: Judged<'_>,
    found: &Findings,
) -> Result<(), AllocError>
    ensures { OnOk result (map string_bytes causes.new.items ≡ map string_bytes causes.old.items ++ causes_spec.causes_of judged.entry.certain judged.entry.totals.now found.now) }
{
    let unmatched = u128::from(found.unmatched);
    push_empty(alloc, causes, found.empty)?;
    push_row_causes(alloc, causes, judged.totals, judged.certain)?;
    push_cause(alloc, causes, unmatched, unmatched_words())?;
    push_discovery(alloc, causes, found)?;
    push_order(alloc, causes, found)?;
    push_lossy(alloc, causes, found.lossy)?;
    push_few(alloc, causes, found.few)?;
    push_unread(alloc, causes, found)
}

/// Why a run does not end clean.
pub fn causes_of(
    alloc: Global,
    judged: Judged<'_>,
    ending: &Ending,
) -> Result<Vec<String>, AllocError>
    ensures { IfOk result (λ causes. map string_bytes causes.items ≡ causes_spec.causes_of judged.entry.certain judged.entry.totals.now (causes_spec.findings_in ending.now)) }
{
    let mut causes = Vec::new(alloc);
    push_causes(alloc, &mut causes, judged, &findings_in(ending))?;
    Ok(causes)
}

fn certain_words() -> Words
    ensures { parts.words_value result ≡ causes_spec.certain_words }
{
    Words {
        one: said::CERTAIN_ONE,
        many: said::CERTAIN_MANY,
    }
}

/// Appends how many numbers are received for certain, where any other did not arrive.
fn push_certain(text: &mut String, totals: &Totals) -> Result<(), AllocError>
    ensures { OnOk result (string_bytes text.new ≡ string_bytes text.old ++ causes_spec.certain_detail totals.now) }
{
    if totals.numbers.saturating_sub(totals.received) <= totals.arrived {
        return Ok(());
    }
    let parts = [
        Part::Text(": "),
        Part::Share(totals.received, totals.numbers),
        Part::Text(words_for(totals.numbers, certain_words())),
    ];
    render(text, &parts)
}

/// Appends what stands behind `clean`: the same, or what pairs of best effort have, where there is no row.
fn push_detail(text: &mut String, judged: Judged<'_>) -> Result<(), AllocError>
    ensures { OnOk result (string_bytes text.new ≡ string_bytes text.old ++ causes_spec.clean_detail judged.entry.totals.now judged.entry.best_effort) }
{
    if judged.totals.pairs == 0 {
        text.push_str(said::CLEAN_BEST_EFFORT)?;
        render(text, &best_effort_parts(judged.best_effort))
    } else {
        push_certain(text, judged.totals)
    }
}

/// Appends the last line of what is told of a report.
pub fn push_last(
    text: &mut String,
    judged: Judged<'_>,
    ending: &Ending,
    causes: &[String],
) -> Result<(), AllocError>
    ensures { OnOk result (string_bytes text.new
        ≡ string_bytes text.old ++ causes_spec.last_line judged.entry.totals.now judged.entry.best_effort ending.now (map string_bytes causes.now)) }
{
    match ending {
        Ending::Clean => {
            text.push_str("clean")?;
            push_detail(text, judged)?;
            text.push_str("\n")
        }
        Ending::Unclean | Ending::Unmet(_) => {
            text.push_str("not clean: ")?;
            push_joined(text, "; ", causes)?;
            text.push_str("\n")
        }
    }
}
