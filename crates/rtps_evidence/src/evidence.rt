ghost use Rattle.std.specs.Prelude.{ℕ, Bool, false, ◌≡◌, map, IfOk, IfSome, List};
ghost use Rattle.rtps_receiver.specs.Values as values;
ghost use Rattle.rtps_audit.specs.Index as index_spec;
ghost use Rattle.rtps_audit.specs.Intake as intake;
ghost use Rattle.rtps_audit.specs.Placed as placed;
ghost use Rattle.rtps_audit.specs.RunVerdict as run_verdict;
ghost use Rattle.rtps_audit.specs.Said as said;
ghost use Rattle.rtps_audit.specs.Speech as speech;
ghost use Rattle.rtps_coverage.specs.Stretches as stretches;
ghost use Rattle.rtps_fragments.specs.Hearing as hearing;

use crate::acknowledgement::Claim;
use crate::case::Case;
use crate::docket::Docket;
use crate::ear::hear_all;
use crate::exchange::{Exchange, Extent};
use crate::first_missed::FirstMissed;
use crate::grounds::{Grounds, grounds_kept};
use crate::hearer::Hearer;
use crate::in_span::InSpan;
use crate::judgement::{Basis, Judgement, verdict_of};
use crate::kinds::LostNumbers;
use crate::last_announcement::Announcement;
use crate::not_received::NotReceived;
use crate::other_side::Sides;
use crate::reader_notes::ReaderNotes;
use crate::times::Times;
use bumpalo::Bump;
use rtps_audit::{Index, Said, Verdict};
use rtps_discovery::Pair;
use rtps_fragments::laws::{pairs_are_heard_without_fragments, verdicts_stay_without_fragments};
use rtps_fragments::{have_fragments, heard_said};
use rtps_ids::{Memory, SeqNum};
use std::alloc::Global;

/// The verdict on a writer and a reader, by the writer's numbers from some number on, and what it rests on. Acts are those of
/// the recording, or of a row's span, by datagram and then by place.
#[derive(Clone, Copy)]
pub struct Evidence<'a> {
    pub verdict: Verdict,
    /// The first act by which the writer announces the last announced number; None where no number that is asked for is
    /// announced.
    pub announcement: Option<Announcement>,
    /// The first answer with the greatest base of all answers; None where no answer claims a number that is asked for.
    pub acknowledgement: Option<Claim>,
    /// Of the numbers that are asked for, up to the last announced one: how many have a payload that the reader hears.
    pub payloads: u64,
    /// How many of them have none, and were told gone.
    pub gone: u64,
    /// How many of them have no word.
    pub untold: u64,
    /// How many of them the reader received for certain: where there is a run, every run ends with a payload for each.
    pub received: u64,
    /// The least of them that it may not have received, and what keeps it from being certain; None where there is none.
    pub not_received: Option<NotReceived>,
    /// How many of them it missed: it may not have received them, and of its last request for each nothing was sent behind it, or
    /// it was sent before it, since the reader joined. Of a pair that is held against another recording: those that did not arrive.
    pub missed: u64,
    /// The least of them; None where there is none.
    pub first_missed: Option<FirstMissed>,
    /// What else the verdict rests on, by its kind.
    pub grounds: Grounds<'a>,
    /// What became of the numbers, of a row in the span of its pair; None where rows are by the whole recording.
    pub in_span: Option<InSpan>,
}

/// The evidence of a pair, and which of its numbers are lost.
#[derive(Drop)]
pub(crate) struct Found<'a> {
    pub(crate) evidence: Evidence<'a>,
    /// None of a row by the whole recording.
    pub(crate) lost: LostNumbers,
}

impl<'p> Found<'p> {
    ghost use Rattle.rtps_evidence.specs.Explanation as explanation;

    /// The same, with the octets of payloads in an arena.
    fn kept<'k>(self, arena: &'k Bump) -> Result<Found<'k>, Memory>
        ensures { IfOk result (λ kept. (explanation.evidence_value kept.evidence ≡ explanation.evidence_value self.entry.evidence) × (kept.lost ≡ self.entry.lost)) }
    {
        let Found { evidence, lost } = self;
        let evidence = Evidence {
            verdict: evidence.verdict,
            announcement: evidence.announcement,
            acknowledgement: evidence.acknowledgement,
            payloads: evidence.payloads,
            gone: evidence.gone,
            untold: evidence.untold,
            received: evidence.received,
            not_received: evidence.not_received,
            missed: evidence.missed,
            first_missed: evidence.first_missed,
            grounds: grounds_kept(&evidence.grounds, arena)?,
            in_span: evidence.in_span,
        };
        Ok(Found { evidence, lost })
    }
}

impl<'a> Evidence<'a> {
    ghost use Rattle.rtps_evidence.specs.Evidence as evidence_spec;
    ghost use Rattle.rtps_evidence.specs.Kinds as kinds;
    ghost use Rattle.rtps_evidence.specs.OtherSide as other_side;
    ghost use Rattle.rtps_evidence.specs.Spans as spans;
    ghost use Rattle.rtps_evidence.specs.Together as together;

    /// The evidence of an index's recording for a writer and a reader, any two GUIDs, by the writer's numbers from `from` on, and by what the
    /// reader hears. Payloads of a conflict that the reader put together have their octets in the arena. `Memory` is answered where what is kept
    /// of the two cannot grow.
    pub fn of_from(
        alloc: Global,
        index: &Index<'a>,
        arena: &'a Bump,
        pair: Pair,
        from: SeqNum,
    ) -> Result<Evidence<'a>, Memory>
        ensures { (intake : intake.Intake) → index_spec.IsIndexBy intake index.now → IfOk result (evidence_spec.IsEvidenceFrom from pair intake) }
    {
        let times = Times::none(alloc);
        let sides = Sides {
            index,
            other: None,
            times: &times,
            arena,
        };
        let extent = Extent {
            from,
            in_spans: false,
        };
        let readers = ReaderNotes::none(alloc);
        let basis = Basis {
            known: &[],
            readers: &readers,
            extent,
        };
        let judgement = Judgement::of(index, pair, &basis);
        let docket = Docket::of(alloc, &sides, judgement)?;
        let found = Evidence::of_docket(alloc, &sides, &docket)?;
        Ok(found.evidence)
    }

    /// The evidence of one pair. `Memory` as of [`Evidence::of_from`].
    pub(crate) fn of_docket(
        alloc: Global,
        sides: &Sides<'_, 'a, '_, '_>,
        docket: &Docket,
    ) -> Result<Found<'a>, Memory>
        ensures { (setting : together.Setting) → together.AreSidesIn setting sides.now → together.IsDocket setting docket.now
            → IfOk result (together.IsFound setting docket.now.judgement.pair) }
    {
        let exchange = Exchange {
            pair: docket.judgement.pair,
            span: docket.judgement.span,
            in_spans: docket.judgement.in_spans,
            said: Said::until(
                sides.index,
                docket.judgement.pair,
                docket.judgement.span.until,
            ),
            way: docket.arrivals.way,
            is_held: docket.arrivals.is_held,
            there: &docket.arrivals.numbers,
            times: sides.times,
        };
        let found = Evidence::of_said(alloc, sides.arena, &exchange, docket.judgement.known)?;
        Ok(found)
    }

    /// The evidence for what a pair said as it is sent, where the verdict by that may be known. `Memory` as of [`Evidence::of_from`].
    fn of_said(
        alloc: Global,
        arena: &'a Bump,
        exchange: &Exchange<'_, 'a>,
        known: Option<Verdict>,
    ) -> Result<Found<'a>, Memory>
        ensures shown { (recording : List (List values.ActValue)) (there : ℕ → Bool) → said.IsSaid exchange.now.pair recording exchange.now.said
            → IfSome known (run_verdict.IsVerdictFrom exchange.now.span.from (speech.speech_by exchange.now.pair.writer exchange.now.pair.reader recording))
            → ((n : ℕ) → stretches.stretches_have exchange.now.there.now n ≡ there n)
            → IfOk result (λ found. evidence_spec.IsShown there exchange.now.span.from (spans.since_of exchange.now.span) exchange.now.pair (hearing.heard_by exchange.now.pair.reader recording) found.evidence) }
        ensures beside { (all recording : List (List values.ActValue)) (beside : other_side.Beside) → said.IsSaid exchange.now.pair recording exchange.now.said
            → IfSome known (run_verdict.IsVerdictFrom exchange.now.span.from (speech.speech_by exchange.now.pair.writer exchange.now.pair.reader recording))
            → other_side.AreThere all beside.other exchange.now.pair exchange.now.way exchange.now.is_held exchange.now.there.now → exchange.now.times.now.of_datagrams ≡ beside.times
            → IfOk result (λ found. evidence_spec.IsBeside exchange.now.in_spans beside exchange.now.span exchange.now.pair all (hearing.heard_by exchange.now.pair.reader recording) found.evidence.in_span
            × kinds.IsLostIn exchange.now.in_spans beside exchange.now.span exchange.now.pair all (hearing.heard_by exchange.now.pair.reader recording) (kinds.lost_value found.lost)) }
    {
        if have_fragments(exchange.said.acts) || have_fragments(exchange.said.asks) {
            Evidence::of_fragments(alloc, arena, exchange)
        } else {
            Evidence::of_sent(alloc, exchange, known)
        }
    }

    /// That where neither of the pair sends fragments: its reader hears what is sent.
    fn of_sent(
        alloc: Global,
        exchange: &Exchange<'_, 'a>,
        known: Option<Verdict>,
    ) -> Result<Found<'a>, Memory>
        requires acts { hearing.have_fragments (map placed.placed_value exchange.now.said.acts.now) ≡ false }
        requires asks { hearing.have_fragments (map placed.placed_value exchange.now.said.asks.now) ≡ false }
        ensures shown { (recording : List (List values.ActValue)) (there : ℕ → Bool) → said.IsSaid exchange.now.pair recording exchange.now.said
            → IfSome known (run_verdict.IsVerdictFrom exchange.now.span.from (speech.speech_by exchange.now.pair.writer exchange.now.pair.reader recording))
            → ((n : ℕ) → stretches.stretches_have exchange.now.there.now n ≡ there n)
            → IfOk result (λ found. evidence_spec.IsShown there exchange.now.span.from (spans.since_of exchange.now.span) exchange.now.pair (hearing.heard_by exchange.now.pair.reader recording) found.evidence) }
        ensures beside { (all recording : List (List values.ActValue)) (beside : other_side.Beside) → said.IsSaid exchange.now.pair recording exchange.now.said
            → IfSome known (run_verdict.IsVerdictFrom exchange.now.span.from (speech.speech_by exchange.now.pair.writer exchange.now.pair.reader recording))
            → other_side.AreThere all beside.other exchange.now.pair exchange.now.way exchange.now.is_held exchange.now.there.now → exchange.now.times.now.of_datagrams ≡ beside.times
            → IfOk result (λ found. evidence_spec.IsBeside exchange.now.in_spans beside exchange.now.span exchange.now.pair all (hearing.heard_by exchange.now.pair.reader recording) found.evidence.in_span
            × kinds.IsLostIn exchange.now.in_spans beside exchange.now.span exchange.now.pair all (hearing.heard_by exchange.now.pair.reader recording) (kinds.lost_value found.lost)) }
    {
        // What is sent without fragments is heard as it is, and judged alike.
        pairs_are_heard_without_fragments();
        verdicts_stay_without_fragments();
        let verdict = verdict_of(alloc, exchange, known)?;
        Evidence::of_exchange(alloc, exchange, verdict)
    }

    /// That where one of the pair sends fragments: the samples that its reader puts together are kept while its evidence is found.
    fn of_fragments(
        alloc: Global,
        arena: &'a Bump,
        exchange: &Exchange<'_, 'a>,
    ) -> Result<Found<'a>, Memory>
        ensures shown { (recording : List (List values.ActValue)) (there : ℕ → Bool) → said.IsSaid exchange.now.pair recording exchange.now.said
            → ((n : ℕ) → stretches.stretches_have exchange.now.there.now n ≡ there n)
            → IfOk result (λ found. evidence_spec.IsShown there exchange.now.span.from (spans.since_of exchange.now.span) exchange.now.pair (hearing.heard_by exchange.now.pair.reader recording) found.evidence) }
        ensures beside { (all recording : List (List values.ActValue)) (beside : other_side.Beside) → said.IsSaid exchange.now.pair recording exchange.now.said
            → other_side.AreThere all beside.other exchange.now.pair exchange.now.way exchange.now.is_held exchange.now.there.now → exchange.now.times.now.of_datagrams ≡ beside.times
            → IfOk result (λ found. evidence_spec.IsBeside exchange.now.in_spans beside exchange.now.span exchange.now.pair all (hearing.heard_by exchange.now.pair.reader recording) found.evidence.in_span
            × kinds.IsLostIn exchange.now.in_spans beside exchange.now.span exchange.now.pair all (hearing.heard_by exchange.now.pair.reader recording) (kinds.lost_value found.lost)) }
    {
        let told = Bump::new(alloc);
        let said = heard_said(alloc, &told, exchange.said, exchange.pair)?;
        let verdict = said.judge_from(alloc, exchange.pair, exchange.span.from)?;
        let heard = Exchange { said, ..*exchange };
        let found = Evidence::of_exchange(alloc, &heard, verdict)?;
        found.kept(arena)
    }

    /// The evidence for what a pair said. `Memory` as of [`Evidence::of_from`].
    pub(crate) fn of_exchange(
        alloc: Global,
        exchange: &Exchange<'_, 'a>,
        verdict: Verdict,
    ) -> Result<Found<'a>, Memory>
        ensures judged { IfOk result (λ found. found.evidence.verdict ≡ verdict) }
        ensures shown { (recording : List (List values.ActValue)) (there : ℕ → Bool) → said.IsSaid exchange.now.pair recording exchange.now.said
            → run_verdict.IsVerdictFrom exchange.now.span.from (speech.speech_by exchange.now.pair.writer exchange.now.pair.reader recording) verdict
            → ((n : ℕ) → stretches.stretches_have exchange.now.there.now n ≡ there n)
            → IfOk result (λ found. evidence_spec.IsShown there exchange.now.span.from (spans.since_of exchange.now.span) exchange.now.pair recording found.evidence) }
        ensures beside { (all recording : List (List values.ActValue)) (beside : other_side.Beside) → said.IsSaid exchange.now.pair recording exchange.now.said
            → run_verdict.IsVerdictFrom exchange.now.span.from (speech.speech_by exchange.now.pair.writer exchange.now.pair.reader recording) verdict
            → other_side.AreThere all beside.other exchange.now.pair exchange.now.way exchange.now.is_held exchange.now.there.now → exchange.now.times.now.of_datagrams ≡ beside.times
            → IfOk result (λ found. evidence_spec.IsBeside exchange.now.in_spans beside exchange.now.span exchange.now.pair all recording found.evidence.in_span
            × kinds.IsLostIn exchange.now.in_spans beside exchange.now.span exchange.now.pair all recording (kinds.lost_value found.lost)) }
    {
        let acts = exchange.said.acts;
        let mut hearer = Hearer::new(alloc, exchange, verdict)?;
        hear_all(&mut hearer, acts)?;
        let mut case = Case::of(alloc, hearer)?;
        hear_all(&mut case, acts)?;
        let found = case.found(alloc)?;
        Ok(found)
    }

    /// The evidence of an index's recording for a writer and a reader, any two GUIDs, by all numbers, as [`Evidence::of_from`] finds it.
    pub fn of(
        alloc: Global,
        index: &Index<'a>,
        arena: &'a Bump,
        pair: Pair,
    ) -> Result<Evidence<'a>, Memory>
        ensures { (intake : intake.Intake) → index_spec.IsIndexBy intake index.now → IfOk result (evidence_spec.IsEvidence pair intake) }
    {
        Evidence::of_from(alloc, index, arena, pair, SeqNum::first())
    }
}
