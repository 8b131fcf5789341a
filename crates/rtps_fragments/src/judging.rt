ghost use Rattle.std.specs.Prelude.{ℕ, IfOk, List};
ghost use Rattle.rtps_audit.specs.Index as index_spec;
ghost use Rattle.rtps_fragments.specs.FragmentVerdict as fragment_verdict;
ghost use Rattle.rtps_fragments.specs.FragmentWalk as fragment_walk;
ghost use Rattle.rtps_fragments.specs.RecordedSamples as recorded_samples;
ghost use Rattle.rtps_fragments.specs.SampleActs as sample_acts;

use crate::hearing::heard_said;
use crate::laws::recorded_verdict_is_of_runs;
use bumpalo::Bump;
use rtps_audit::{FirstAsked, Index, Said, Verdict};
use rtps_discovery::Pair;
use rtps_ids::{Memory, SeqNum};
use std::alloc::Global;

/// Judges by the index of a recording with its fragments what the recording says of a writer and a reader, any two GUIDs, of the writer's
/// numbers from `from` on. The verdict is that by all runs in which the reader takes fragments one by one. `Memory` is answered where what is
/// kept of that cannot grow.
pub fn judge_with_samples(
    alloc: Global,
    index: &Index<'_>,
    pair: Pair,
    from: SeqNum,
) -> Result<Verdict, Memory>
    ensures { (recording : List (List ℕ)) → index_spec.IsIndexBy (recorded_samples.intake_with recording) index.now
        → IfOk result (fragment_verdict.IsFragmentVerdictFrom from (sample_acts.fragment_speech_of pair.writer pair.reader (fragment_walk.sending_of recording))) }
{
    recorded_verdict_is_of_runs();
    let arena = Bump::new(alloc);
    let said = heard_said(alloc, &arena, Said::until(index, pair, None), pair)?;
    said.judge_from(alloc, pair, FirstAsked::of(from))
}
