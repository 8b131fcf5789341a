ghost use Rattle.std.specs.Prelude.{◌≡◌, ◌+◌, ◌<◌, ◌^◌, map};
ghost use Rattle.rtps_evidence.specs.Explanation as explanation;
ghost use Rattle.rtps_report.specs.Totals as totals_spec;

use crate::advice::Scope;
use crate::row_facts::{
    asked_about, is_certain, is_clean, is_clean_tail, is_complete, is_held, outcomes_of, row_from,
};
use rtps_evidence::{Evidence, Explanation};

/// What is counted of rows.
#[derive(Clone, Copy)]
pub struct Totals {
    /// How many rows there are.
    pub pairs: u64,
    /// Those that are complete.
    pub complete_pairs: u64,
    /// Those that are clean.
    pub clean_pairs: u64,
    /// Those that are neither complete nor clean.
    pub unclean_pairs: u64,
    /// Those that are clean with a tail.
    pub tail_pairs: u64,
    /// Those with missed numbers.
    pub missed_pairs: u64,
    /// Those with unsent numbers.
    pub unsent_pairs: u64,
    /// Those with unanswered numbers.
    pub unanswered_pairs: u64,
    /// Those of which not each number is received for certain.
    pub uncertain_pairs: u64,
    /// Those that are held, with likely numbers: these did not arrive.
    pub lost_pairs: u64,
    /// How many of the numbers that are asked for stand before the first of their row.
    pub before: u128,
    /// How many numbers are asked about.
    pub numbers: u128,
    /// How many of them are received.
    pub received: u128,
    /// How many of them arrived, of rows that are held against another recording.
    pub arrived: u128,
    /// How many of them are likely.
    pub likely: u128,
    /// How many likely numbers of rows that are held: they did not arrive.
    pub lost: u128,
    /// How many of them are missed.
    pub missed: u128,
    /// How many of them are unsent.
    pub unsent: u128,
    /// How many of them are unanswered.
    pub unanswered: u128,
    /// How many of them are unconfirmed.
    pub unconfirmed: u128,
}

fn is_unclean(tail: u64, evidence: &Evidence<'_>) -> bool
    ensures { result ≡ totals_spec.is_unclean tail (explanation.evidence_value evidence.now) }
{
    !is_complete(&evidence.verdict) && !is_clean(tail, evidence)
}

/// How many of the numbers from `from` on stand before the first of a row.
pub(crate) fn before_of(from: u64, evidence: &Evidence<'_>) -> u64
    ensures { result ≡ totals_spec.before_of from (explanation.evidence_value evidence.now) }
{
    row_from(from, evidence).saturating_sub(from)
}

/// How many numbers a row asks about.
fn numbers_of(from: u64, evidence: &Evidence<'_>) -> u64
    ensures { result ≡ totals_spec.numbers_of from (explanation.evidence_value evidence.now) }
{
    asked_about(row_from(from, evidence), evidence.announcement)
}

/// How many likely numbers of a row did not arrive: all of them, where it is held.
fn lost_of(evidence: &Evidence<'_>) -> u64
    ensures { result ≡ totals_spec.lost_of (explanation.evidence_value evidence.now) }
{
    if is_held(evidence) {
        outcomes_of(evidence).likely
    } else {
        0
    }
}

impl Totals {
    ghost use Rattle.std.specs.Prelude.{[]};
    ghost use Rattle.rtps_report.specs.Totals as totals_spec;
    ghost use Rattle.rtps_report.specs.declared.advice.Scope.{Scope as ScopeOf};

    fn none() -> Totals
        ensures counted { (scope : ScopeOf) → result ≡ totals_spec.totals_of scope [] }
        ensures pairs { result.pairs ≡ 0 }
        ensures within { totals_spec.AreWithin result }
    {
        Totals {
            pairs: 0,
            complete_pairs: 0,
            clean_pairs: 0,
            unclean_pairs: 0,
            tail_pairs: 0,
            missed_pairs: 0,
            unsent_pairs: 0,
            unanswered_pairs: 0,
            uncertain_pairs: 0,
            lost_pairs: 0,
            before: 0,
            numbers: 0,
            received: 0,
            arrived: 0,
            likely: 0,
            lost: 0,
            missed: 0,
            unsent: 0,
            unanswered: 0,
            unconfirmed: 0,
        }
    }

    fn with_row(self, row: &Explanation<'_>, scope: Scope) -> Totals
        requires counted { totals_spec.AreWithin self }
        requires few { self.pairs + 1 < 2 ^ 64 }
        ensures counted { result ≡ totals_spec.with_row scope self (explanation.explanation_value row.now) }
        ensures within { totals_spec.AreWithin result }
    {
        let evidence = &row.evidence;
        let outcomes = outcomes_of(evidence);
        Totals {
            pairs: self.pairs + 1,
            complete_pairs: self.complete_pairs + u64::from(is_complete(&evidence.verdict)),
            clean_pairs: self.clean_pairs + u64::from(is_clean(scope.tail, evidence)),
            unclean_pairs: self.unclean_pairs + u64::from(is_unclean(scope.tail, evidence)),
            tail_pairs: self.tail_pairs + u64::from(is_clean_tail(scope.tail, evidence)),
            missed_pairs: self.missed_pairs + u64::from(outcomes.missed > 0),
            unsent_pairs: self.unsent_pairs + u64::from(outcomes.unsent > 0),
            unanswered_pairs: self.unanswered_pairs + u64::from(outcomes.unanswered > 0),
            uncertain_pairs: self.uncertain_pairs + u64::from(!is_certain(scope.from, evidence)),
            lost_pairs: self.lost_pairs + u64::from(lost_of(evidence) > 0),
            before: self.before + u128::from(before_of(scope.from, evidence)),
            numbers: self.numbers + u128::from(numbers_of(scope.from, evidence)),
            received: self.received + u128::from(outcomes.received),
            arrived: self.arrived + u128::from(outcomes.arrived),
            likely: self.likely + u128::from(outcomes.likely),
            lost: self.lost + u128::from(lost_of(evidence)),
            missed: self.missed + u128::from(outcomes.missed),
            unsent: self.unsent + u128::from(outcomes.unsent),
            unanswered: self.unanswered + u128::from(outcomes.unanswered),
            unconfirmed: self.unconfirmed + u128::from(outcomes.unconfirmed),
        }
    }
}

/// What is counted of rows.
pub fn totals_of(rows: &[Explanation<'_>], scope: Scope) -> Totals
    ensures { result ≡ totals_spec.totals_of scope (map explanation.explanation_value rows.now) }
{
    let mut totals = Totals::none();
    for row in rows {
        totals = totals.with_row(row, scope);
    }
    totals
}
