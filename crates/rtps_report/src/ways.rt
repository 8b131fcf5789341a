ghost use Rattle.std.specs.Prelude.{◌≡◌, count_by, map};
ghost use Rattle.rtps_evidence.specs.Explanation as explanation;
ghost use Rattle.rtps_report.specs.BestEfforts as best_efforts;
ghost use Rattle.rtps_report.specs.Order as order;
ghost use Rattle.rtps_report.specs.RowFacts as row_facts;
ghost use Rattle.rtps_report.specs.Ways as ways;

use crate::best_effort::Counted;
use crate::row_facts::way_of;
use rtps_evidence::{Explanation, Way};

/// By how many pairs two recordings are which way round. A pair of which the other one has nothing counts nowhere.
#[derive(Clone, Copy)]
pub(crate) struct Ways {
    pub(crate) right: u64,
    pub(crate) wrong: u64,
    /// By these pairs they are both.
    pub(crate) both: u64,
    /// By these pairs nothing tells which way round they are.
    pub(crate) alike: u64,
}

impl Ways {
    /// By no pair.
    pub(crate) fn none() -> Ways
        ensures { result ≡ record { right = 0; wrong = 0; both = 0; alike = 0 } }
    {
        Ways {
            right: 0,
            wrong: 0,
            both: 0,
            alike: 0,
        }
    }
}

/// Whether two recordings are this way round, by a pair of which the other one has something.
fn is_way(way: Way, found: Option<Way>) -> bool
    ensures { result ≡ ways.is_way way found }
{
    match (way, found) {
        (Way::Right, Some(Way::Right))
        | (Way::Wrong, Some(Way::Wrong))
        | (Way::Both, Some(Way::Both))
        | (Way::Alike, Some(Way::Alike)) => true,
        _ => false,
    }
}

/// By how many rows they are this way round.
fn rows_of_way(rows: &[Explanation<'_>], way: Way) -> u64
    ensures { result ≡ count_by (λ row. ways.is_way way (row_facts.way_in row.evidence.in_span)) (map explanation.explanation_value rows.now) }
{
    let mut count = 0;
    for row in rows {
        if is_way(way, way_of(&row.evidence)) {
            count += 1;
        }
    }
    count
}

/// By how many rows they are which way round.
pub(crate) fn ways_of_rows(rows: &[Explanation<'_>]) -> Ways
    ensures { result ≡ order.ways_of_rows (map explanation.explanation_value rows.now) }
{
    Ways {
        right: rows_of_way(rows, Way::Right),
        wrong: rows_of_way(rows, Way::Wrong),
        both: rows_of_way(rows, Way::Both),
        alike: rows_of_way(rows, Way::Alike),
    }
}

/// By how many of these pairs of best effort they are this way round.
fn counted_of_way(counted: &[Counted<'_>], way: Way) -> u64
    ensures { result ≡ count_by (λ one. ways.is_way way one.arrived.way) (map best_efforts.counted_value counted.now) }
{
    let mut count = 0;
    for one in counted {
        if is_way(way, one.arrived.way) {
            count += 1;
        }
    }
    count
}

/// By how many of these pairs of best effort they are which way round.
pub(crate) fn ways_of_counted(counted: &[Counted<'_>]) -> Ways
    ensures { result ≡ ways.ways_of_counted (map best_efforts.counted_value counted.now) }
{
    Ways {
        right: counted_of_way(counted, Way::Right),
        wrong: counted_of_way(counted, Way::Wrong),
        both: counted_of_way(counted, Way::Both),
        alike: counted_of_way(counted, Way::Alike),
    }
}
