ghost use Rattle.std.specs.Prelude.{◌≡◌};
ghost use Rattle.rtps_report.specs.Asked as asked_spec;
ghost use Rattle.rtps_report.specs.Findings as findings_spec;

use crate::asked::Asked;
use crate::best_effort::BestEffortNumbers;
use crate::not_told::NotToldCounts;
use crate::order::Order;
use crate::recording::{Links, Reasons, known, no_links};
use rtps_audit::Counts;

/// How a run ends that wrote its whole text.
#[derive(Clone, Copy)]
pub enum Ending {
    /// There is nothing to report.
    Clean,
    /// A pair is not what it has to be, and what else was asked of the report is so.
    Unclean,
    /// Something that was asked of a report beside its pairs is not so.
    Unmet(Findings),
}

/// That a report has fewer rows than it has to have.
#[derive(Clone, Copy)]
pub struct FewRows {
    pub rows: u64,
    pub expected: u64,
}

/// What a report has, or lacks, against what was asked of it. A number is 0 where nothing of its kind was found.
#[derive(Clone, Copy)]
pub struct Findings {
    /// It has fewer rows than were expected.
    pub few: Option<FewRows>,
    /// It has no row, and pairs of best effort have no number.
    pub empty: bool,
    /// It has no row, and not all numbers of pairs of best effort are recorded.
    pub lossy: Option<BestEffortNumbers>,
    /// GUIDs whose announcements disagree, which are in no row.
    pub unsettled: u64,
    // Frames of a capture, by the reasons that it knows.
    pub pieces: u64,
    pub cut: u64,
    pub links: Links,
    /// Writers and readers of one topic that do not match.
    pub unmatched: u64,
    /// Participants that were not told of endpoints, and how many these are.
    pub not_told: NotToldCounts,
    /// Participants of which two lives have one GUID.
    pub lives: u64,
    /// Pairs that are the wrong way round, where the two recordings look swapped.
    pub swapped: u128,
    /// One recording was given twice.
    pub twice: bool,
}

/// What is known of who does not talk.
#[derive(Clone, Copy)]
pub struct TalkFacts {
    /// How many writers and readers of one topic do not match.
    pub unmatched: u64,
    /// How many participants were not told of how many endpoints.
    pub not_told: NotToldCounts,
    /// How many participants have two lives.
    pub lives: u64,
    /// The pairs of best effort.
    pub best_effort: BestEffortNumbers,
}

/// What is known of a report, to hold it against what was asked.
#[derive(Clone, Copy)]
pub struct Facts {
    pub rows: u64,
    /// Whether each is what it has to be.
    pub met: bool,
    pub counts: Counts,
    pub reasons: Option<Reasons>,
    pub talk: TalkFacts,
    /// In which order two recordings were given.
    pub order: Order,
}

/// Nobody was not told of anything.
fn none_not_told() -> NotToldCounts
    ensures { result ≡ findings_spec.nobody }
{
    NotToldCounts {
        participants: 0,
        endpoints: 0,
    }
}

impl Findings {
    /// Nothing was found.
    pub fn none() -> Findings
        ensures { result ≡ findings_spec.no_findings }
    {
        Findings {
            few: None,
            empty: false,
            lossy: None,
            unsettled: 0,
            pieces: 0,
            cut: 0,
            links: no_links(),
            unmatched: 0,
            not_told: none_not_told(),
            lives: 0,
            swapped: 0,
            twice: false,
        }
    }

    /// Whether nothing was found.
    pub fn is_none(&self) -> bool
        ensures { result ≡ findings_spec.are_none self.now }
    {
        self.few.is_none()
            && !self.empty
            && self.lossy.is_none()
            && self.unsettled == 0
            && self.pieces == 0
            && self.cut == 0
            && self.links.number == 0
            && self.unmatched == 0
            && self.not_told.participants == 0
            && self.lives == 0
            && self.swapped == 0
            && !self.twice
    }
}

fn few_of(expect: Option<u64>, rows: u64) -> Option<FewRows>
    ensures { result ≡ findings_spec.few_of expect rows }
{
    match expect {
        Some(expected) if rows < expected => Some(FewRows { rows, expected }),
        _ => None,
    }
}

fn lossy_of(rows: u64, best_effort: BestEffortNumbers) -> Option<BestEffortNumbers>
    ensures { result ≡ findings_spec.lossy_of rows best_effort }
{
    if rows == 0 && best_effort.recorded < best_effort.numbers {
        Some(best_effort)
    } else {
        None
    }
}

fn findings_of(asked: &Asked<'_>, facts: &Facts) -> Findings
    ensures { result ≡ findings_spec.findings_of (asked_spec.asked_value asked.now) facts.now }
{
    let reasons = known(facts.reasons);
    Findings {
        few: few_of(asked.expect, facts.rows),
        empty: facts.rows == 0 && facts.talk.best_effort.numbers == 0,
        lossy: lossy_of(facts.rows, facts.talk.best_effort),
        unsettled: facts.counts.unsettled,
        pieces: reasons.pieces,
        cut: reasons.cut,
        links: reasons.links,
        unmatched: facts.talk.unmatched,
        not_told: facts.talk.not_told,
        lives: facts.talk.lives,
        swapped: facts.order.swapped(),
        twice: facts.order.is_given_twice(),
    }
}

/// How a run ends that printed a report of which this is known.
pub fn ending_of(asked: &Asked<'_>, facts: &Facts) -> Ending
    ensures { result ≡ findings_spec.ending_by (findings_spec.findings_of (asked_spec.asked_value asked.now) facts.now) facts.now.met }
{
    let findings = findings_of(asked, facts);
    if !findings.is_none() {
        Ending::Unmet(findings)
    } else if facts.met {
        Ending::Clean
    } else {
        Ending::Unclean
    }
}
