ghost use Rattle.std.specs.Prelude.{◌≡◌, ◌++◌, IfOk, OnOk, filter, map};
ghost use Rattle.rtps_discovery.specs.Directory as directory_spec;
ghost use Rattle.rtps_discovery.specs.Matching as matching;
ghost use Rattle.rtps_policies.specs.Unmatched as unmatched;
ghost use Rattle.rtps_report.specs.Asked as asked_spec;
ghost use Rattle.rtps_who.specs.Recorded as recorded;
ghost use Rattle.rtps_report.specs.Rows as rows;
ghost use Rattle.rtps_report.specs.RowPairs as row_pairs_spec;
ghost use Rattle.rtps_report.specs.Talk as talk_spec;
ghost use Rattle.rtps_audit.specs.Intake as intake;
ghost use Rattle.rtps_policies.specs.Silence as silence;

use crate::asked::Asked;
use crate::rows::{are_observed, is_chosen};
use crate::talk::{Talk, pair_of};
use crate::topics::topic_of;
use rtps_audit::Row;
use rtps_discovery::{Directory, Pair};
use rtps_ids::Memory;
use std::alloc::Global;

/// What tells the pairs that have a row from others, of one recording.
#[derive(Clone, Copy)]
pub(crate) struct Wanted<'t, 's, 'q, 'd, 'a> {
    pub(crate) talk: &'t Talk<'a>,
    pub(crate) asked: &'s Asked<'q>,
    pub(crate) directory: &'d Directory<'a>,
}

impl Wanted<'_, '_, '_, '_, '_> {
    /// Whether a pair is asked for.
    fn is_asked(&self, pair: Pair) -> bool
        ensures { result ≡ row_pairs_spec.is_pair_asked (rows.chosen_by (asked_spec.asked_value self.now.asked.now) (recorded.node_in self.now.talk.now.who)) self.now.directory.now.endpoints pair }
    {
        let topic = topic_of(self.directory, pair.writer);
        is_chosen(self.asked, &self.talk.who, topic, pair)
    }

    /// Whether a reliable match has a row: the two match by all policies, and the recording can speak of them.
    fn is_match_told(&self, pair: Pair) -> bool
        ensures { result ≡ row_pairs_spec.is_match_told self.now.talk.now (rows.chosen_by (asked_spec.asked_value self.now.asked.now) (recorded.node_in self.now.talk.now.who)) self.now.directory.now.endpoints pair }
    {
        !self.talk.is_unfit(pair) && are_observed(&self.talk.namings, pair) && self.is_asked(pair)
    }
}

/// Adds the pairs of these rows, of reliable matches, that have a row.
fn push_matches(
    pairs: &mut Vec<Pair>,
    matched: &[Row],
    wanted: Wanted<'_, '_, '_, '_, '_>,
) -> Result<(), Memory>
    ensures { OnOk result (pairs.new.items ≡ pairs.old.items
        ++ filter (row_pairs_spec.is_match_told wanted.entry.talk.now (rows.chosen_by (asked_spec.asked_value wanted.entry.asked.now) (recorded.node_in wanted.entry.talk.now.who)) wanted.entry.directory.now.endpoints) (map (λ row. row.pair) matched.now)) }
{
    for row in matched {
        if wanted.is_match_told(row.pair) {
            pairs.push(row.pair)?;
        }
    }
    Ok(())
}

/// Adds the pairs that talk though they do not match.
fn push_talking(pairs: &mut Vec<Pair>, wanted: Wanted<'_, '_, '_, '_, '_>) -> Result<(), Memory>
    ensures { OnOk result (pairs.new.items ≡ pairs.old.items
        ++ filter (row_pairs_spec.is_pair_asked (rows.chosen_by (asked_spec.asked_value wanted.entry.asked.now) (recorded.node_in wanted.entry.talk.now.who)) wanted.entry.directory.now.endpoints) (map unmatched.pair_of (map unmatched.unmatched_value wanted.entry.talk.now.talking.items))) }
{
    for one in &wanted.talk.talking {
        let pair = pair_of(one);
        if wanted.is_asked(pair) {
            pairs.push(pair)?;
        }
    }
    Ok(())
}

/// The pairs that have a row, by writer and then by reader, where these are the rows of the reliable matches.
pub(crate) fn row_pairs(
    alloc: Global,
    matched: &[Row],
    wanted: Wanted<'_, '_, '_, '_, '_>,
) -> Result<Vec<Pair>, Memory>
    ensures { IfOk result (λ pairs. (intake : intake.Intake) (traffic : silence.Traffic) → map (λ row. row.pair) matched.now ≡ matching.reliable_pairs (matching.matches_among (directory_spec.settled_in wanted.entry.directory.now.endpoints))
        → talk_spec.IsKeptOf (asked_spec.asked_value wanted.entry.asked.now) intake traffic wanted.entry.directory.now.endpoints wanted.entry.talk.now
        → row_pairs_spec.AreRowPairs (asked_spec.asked_value wanted.entry.asked.now) intake traffic wanted.entry.directory.now.endpoints pairs.items) }
{
    let mut pairs = Vec::new(alloc);
    push_matches(&mut pairs, matched, wanted)?;
    push_talking(&mut pairs, wanted)?;
    pairs.sort()?;
    pairs.dedup();
    Ok(pairs)
}
