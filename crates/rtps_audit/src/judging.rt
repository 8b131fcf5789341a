ghost use Rattle.std.specs.Prelude.{◌≡◌, map, All, IfOk, List};
ghost use Rattle.rtps_receiver.specs.Values as values;
ghost use Rattle.rtps_audit.specs.Account as account;
ghost use Rattle.rtps_audit.specs.Delivered as delivered;
ghost use Rattle.rtps_audit.specs.Index as index_spec;
ghost use Rattle.rtps_audit.specs.Intake as intake;
ghost use Rattle.rtps_audit.specs.Said as said_spec;
ghost use Rattle.rtps_audit.specs.Speech as speech;

use crate::accounts::Accounts;
use crate::ask::Ask;
use crate::first_asked::FirstAsked;
use crate::front_ranges::FrontRanges;
use crate::index::Index;
use crate::report::Row;
use crate::said_between::Said;
use crate::verdict::Verdict;
use rtps_coverage::{Coverage, MergedRanges};
use rtps_discovery::Pair;
use rtps_ids::{Guid, Memory, SeqNum};
use std::alloc::Global;

/// Judges these pairs of a writer by the numbers from `from` on. The writer's acts are gone through once for all of them,
/// and their answers are put in order. `Memory` is answered where what is kept of that cannot grow.
pub(crate) fn rows_of_writer(
    index: &Index<'_>,
    writer: Guid,
    pairs: &[Pair],
    from: SeqNum,
) -> Result<Vec<Row>, Memory>
    requires { All (λ pair. pair.writer ≡ writer) pairs.now }
    ensures { (intake : intake.Intake) → index_spec.IsIndexBy intake index.now → IfOk result (λ rows. account.AreRowsOf from intake.acts pairs.now rows.items) }
{
    let acts = index.acts_of(writer);
    let asks = Ask::all_of(index, pairs)?;
    let mut accounts = Accounts::<FrontRanges>::new(
        index.alloc,
        writer,
        pairs,
        FirstAsked::of(from),
    )?;
    accounts.take_in(acts, &asks)?;
    let rows = accounts.rows(acts)?;
    Ok(rows)
}

/// Judges what a writer and a reader said, as [`judge_from`] does.
pub(crate) fn judge_said<C: Coverage>(
    alloc: Global,
    said: &Said<'_, '_>,
    pair: Pair,
    from: FirstAsked,
) -> Result<Verdict, Memory>
    ensures { (recording : List (List values.ActValue)) → said_spec.IsSaid pair recording said.now
        → IfOk result (delivered.IsExactVerdictFrom from (speech.speech_by pair.writer pair.reader recording)) }
{
    let mut asks = Vec::new(alloc);
    Ask::push(&mut asks, 0, said.answers)?;
    let mut accounts = Accounts::<C>::new(alloc, pair.writer, &[pair], from)?;
    accounts.take_in(said.acts, &asks)?;
    let rows = accounts.rows(said.acts)?;
    Ok(rows[0].verdict)
}

/// Judges what a recording says of a writer and a reader, any two GUIDs, of the writer's numbers from `from` on, with the
/// covered numbers in a set of this kind. Smaller numbers are not asked for, whatever is said of them (own: a volatile
/// reader that joined late is not owed what was written before). The recording is the datagrams in the order of sending.
/// `Memory` is answered where the set, or what is kept of the recording, cannot grow.
pub fn judge_from<C: Coverage>(
    alloc: Global,
    recording: &[&[u8]],
    pair: Pair,
    from: SeqNum,
) -> Result<Verdict, Memory>
    ensures { IfOk result (delivered.IsExactVerdictFrom from
        (speech.speech_of pair.writer pair.reader (map (λ datagram. datagram.now) recording.now))) }
{
    let index = Index::build(alloc, recording)?;
    let said = Said::until(&index, pair, None);
    judge_said::<C>(alloc, &said, pair, FirstAsked::of(from))
}

/// Judges by all of the writer's numbers, as [`judge_from`] does.
pub fn judge_by<C: Coverage>(
    alloc: Global,
    recording: &[&[u8]],
    pair: Pair,
) -> Result<Verdict, Memory>
    ensures { IfOk result (delivered.IsExactVerdict
        (speech.speech_of pair.writer pair.reader (map (λ datagram. datagram.now) recording.now))) }
{
    judge_from::<C>(alloc, recording, pair, SeqNum::first())
}

/// Judges by all of the writer's numbers, as [`judge_from`] does, with the covered numbers in merged ranges.
pub fn judge(alloc: Global, recording: &[&[u8]], pair: Pair) -> Result<Verdict, Memory>
    ensures { IfOk result (delivered.IsExactVerdict
        (speech.speech_of pair.writer pair.reader (map (λ datagram. datagram.now) recording.now))) }
{
    judge_by::<MergedRanges>(alloc, recording, pair)
}
