ghost use Rattle.std.specs.Prelude.{◌≡◌, ◌++◌, ◌∷◌, [], map, IfOk, List, MatchOption, None, OnOk};
ghost use Rattle.rtps_receiver.specs.Values as values;
ghost use Rattle.rtps_audit.specs.Placed as placed_spec;
ghost use Rattle.rtps_audit.specs.Said as said_spec;
ghost use Rattle.rtps_fragments.specs.Hearing as hearing_spec;
ghost use Rattle.rtps_fragments.specs.Merging as merging;
ghost use Rattle.rtps_fragments.specs.SampleActs as sample_acts;
ghost use Rattle.rtps_fragments.specs.ToldSamples as told_samples;

use crate::making::Makings;
use crate::merging::payload_of;
use crate::piece::{FragmentRun, SampleKey, SentFragments};
use crate::told_sample::ToldSample;
use bumpalo::Bump;
use rtps_audit::{Placed, Said};
use rtps_discovery::Pair;
use rtps_ids::{Guid, Memory, SeqNum};
use rtps_receiver::{FragmentBody, Spoken, SpokenBody};
use std::alloc::Global;
use std::slice;

/// What one reader hears of acts, as far as they are gone through.
#[derive(Drop)]
pub(crate) struct Hearing<'a> {
    pub(crate) reader: Guid,
    pub(crate) makings: Makings<'a>,
    /// The acts, and behind each the samples that it tells the reader.
    pub(crate) acts: Vec<Placed<'a>>,
    alloc: Global,
}

/// Whether an act sends fragments.
fn sends_fragments(act: &Spoken<'_>) -> bool
    ensures { result ≡ hearing_spec.sends_fragments (values.spoken_value act.now).body }
{
    match &act.body {
        SpokenBody::DataFrag(fragment) => fragment.sent.is_some(),
        SpokenBody::Act(_) | SpokenBody::NackFrag(_) => false,
    }
}

/// Whether some of these acts sends fragments.
pub fn have_fragments(acts: &[Placed<'_>]) -> bool
    ensures { result ≡ hearing_spec.have_fragments (map placed_spec.placed_value acts.now) }
{
    for placed in acts {
        if sends_fragments(&placed.act) {
            return true;
        }
    }
    false
}

/// The fragments that the act at this place sends, if they can be of a sample.
fn sent_by<'a>(place: usize, act: &Spoken<'a>) -> Option<SentFragments<'a>>
    ensures { MatchOption result (hearing_spec.piece_in (values.spoken_value act.now).body ≡ None)
        (λ sent. told_samples.IsSent sent × (merging.sent_in place (values.spoken_value act.now) (hearing_spec.piece_in (values.spoken_value act.now).body) ≡ told_samples.sent_value sent ∷ [])) }
{
    let SpokenBody::DataFrag(fragment) = &act.body else {
        return None;
    };
    let part = fragment.sent?;
    let shape = part.shape;
    if part.first == 0 || shape.fragment == 0 || shape.sample == 0 {
        return None;
    }
    Some(SentFragments {
        act: place,
        key: SampleKey {
            number: fragment.number,
            writer: act.origin(),
            sample: shape.sample,
            fragment: shape.fragment,
            is_key: shape.is_key,
        },
        fragments: FragmentRun {
            first: part.first,
            count: part.octets.len().div_ceil(usize::from(shape.fragment)),
            octets: part.octets,
        },
    })
}

/// A sample that a DATA_FRAG of this number tells a reader, as a DATA_FRAG for it alone.
fn told_act<'a>(reader: Guid, act: &Spoken<'a>, number: SeqNum, told: &ToldSample<'a>) -> Spoken<'a>
    ensures { values.spoken_value result ≡ sample_acts.sample_act reader (values.spoken_value act.now) number (told_samples.told_value told.now).payload }
{
    let fragment = FragmentBody {
        reader: reader.entity,
        writer: act.origin().entity,
        number,
        sent: None,
        told: Some(payload_of(told)),
    };
    Spoken {
        dest: Some(reader.prefix),
        body: SpokenBody::DataFrag(fragment),
        ..*act
    }
}

impl<'a> Hearing<'a> {
    /// That of no acts.
    pub(crate) fn new(alloc: Global, reader: Guid) -> Hearing<'a>
        ensures { hearing_spec.IsHearing reader [] result }
    {
        Hearing {
            reader,
            makings: Makings::new(alloc),
            acts: Vec::new(alloc),
            alloc,
        }
    }

    /// Appends samples of this number that an act tells the reader.
    fn push_told(
        &mut self,
        placed: &Placed<'a>,
        number: SeqNum,
        told: &[ToldSample<'a>],
    ) -> Result<(), Memory>
        ensures reader { self.new.reader ≡ self.old.reader }
        ensures makings { self.new.makings ≡ self.old.makings }
        ensures acts { OnOk result (map placed_spec.placed_value self.new.acts.items ≡ map placed_spec.placed_value self.old.acts.items
            ++ placed_spec.placed_at placed.now.datagram (map (λ one. sample_acts.sample_act self.old.reader (values.spoken_value placed.now.act) number (told_samples.told_value one).payload) told.now)) }
    {
        for one in told {
            let told = Placed {
                datagram: placed.datagram,
                act: told_act(self.reader, &placed.act, number, one),
            };
            self.acts.extend_from_slice(slice::from_ref(&told))?;
        }
        Ok(())
    }

    /// Hears the fragments that an act sends, and appends the samples that it tells the reader, with their octets in the arena. After `Memory`
    /// it is of no use.
    pub(crate) fn hear_fragments(
        &mut self,
        arena: &'a Bump,
        placed: &Placed<'a>,
    ) -> Result<(), Memory>
        ensures reader { self.new.reader ≡ self.old.reader }
        ensures heard { OnOk result ((before : List sample_acts.PieceAct) → hearing_spec.HaveCome self.old.reader before self.old.makings
            → hearing_spec.HaveCome self.old.reader (before ++ hearing_spec.with_piece (values.spoken_value placed.now.act) ∷ []) self.new.makings
            × (map placed_spec.placed_value self.new.acts.items ≡ map placed_spec.placed_value self.old.acts.items
            ++ placed_spec.placed_at placed.now.datagram (sample_acts.samples_told self.old.reader before (values.spoken_value placed.now.act) (hearing_spec.piece_in (values.spoken_value placed.now.act).body)))) }
    {
        if !placed.act.heard_by(self.reader) {
            return Ok(());
        }
        let Some(sent) = sent_by(0, &placed.act) else {
            return Ok(());
        };
        let mut told = Vec::new(self.alloc);
        self.makings.tell(arena, &sent, &mut told)?;
        self.push_told(placed, sent.key.number, &told)
    }

    /// Hears one act more. After `Memory` it is of no use.
    fn hear(&mut self, arena: &'a Bump, placed: &Placed<'a>) -> Result<(), Memory>
        ensures heard { OnOk result ((acts : List placed_spec.PlacedValue) → hearing_spec.IsHearing self.old.reader acts self.old
            → hearing_spec.IsHearing self.old.reader (acts ++ placed_spec.placed_value placed.now ∷ []) self.new) }
        ensures reader { self.new.reader ≡ self.old.reader }
    {
        self.acts.extend_from_slice(slice::from_ref(placed))?;
        self.hear_fragments(arena, placed)
    }
}

/// Acts as one reader hears them: each, and behind it the samples that it tells this reader. Acts without fragments are given as they are, and
/// others stand in the arena. It takes the time of the acts and their octets. `Memory` is answered where there is none for them.
pub fn heard_of<'a>(
    alloc: Global,
    arena: &'a Bump,
    acts: &'a [Placed<'a>],
    reader: Guid,
) -> Result<&'a [Placed<'a>], Memory>
    ensures { IfOk result (λ heard. map placed_spec.placed_value heard.now ≡ hearing_spec.heard_of reader (map placed_spec.placed_value acts.now)) }
{
    if !have_fragments(acts) {
        return Ok(acts);
    }
    let mut hearing = Hearing::new(alloc, reader);
    for placed in acts {
        hearing.hear(arena, placed)?;
    }
    let heard = arena.try_alloc_slice_copy(&hearing.acts)?;
    Ok(heard)
}

/// What a pair said, as its reader hears it: each act, and behind it the samples that it tells the reader. `Memory` as of [`heard_of`].
pub fn heard_said<'a>(
    alloc: Global,
    arena: &'a Bump,
    said: Said<'a, 'a>,
    pair: Pair,
) -> Result<Said<'a, 'a>, Memory>
    ensures { IfOk result (λ heard. (recording : List (List values.ActValue)) → said_spec.IsSaid pair recording said.entry
        → said_spec.IsSaid pair (hearing_spec.heard_by pair.reader recording) heard) }
{
    let acts = heard_of(alloc, arena, said.acts, pair.reader)?;
    let asks = heard_of(alloc, arena, said.asks, pair.reader)?;
    Ok(Said {
        acts,
        answers: said.answers,
        asks,
    })
}
