ghost use Rattle.std.specs.Prelude.{ℕ, ◌≡◌, ◌==◌, ◌^◌, ◌<◌, ◌≤◌, ◌++◌, ◌∷◌, [], if◌then◌else◌, length, map, option_copied, slice_get, suc, List, IfOk, OnOk, Some, None};
ghost use Rattle.std.specs.List.{concat};
ghost use Rattle.rtps_fragments.specs.Heard as heard;
ghost use Rattle.rtps_wire.specs.DataFrag as data_frag;
ghost use Rattle.rtps_fragments.specs.Samples as samples;
ghost use Rattle.rtps_fragments.specs.ToldSamples as told_samples;

use crate::piece::{FragmentRun, SentFragments};
use crate::told_sample::ToldSample;
use bumpalo::Bump;
use bumpalo::collections::into_bump_slice;
use rtps_ids::Memory;
use rtps_wire::Shape;
use std::alloc::Global;
use std::collections::BTreeMap;

/// What came of one sample: of each fragment the octets that came first, and the first fragment that came with others.
#[derive(Drop)]
pub(crate) struct Heard<'a> {
    /// The octets of each fragment from the first one on, up to one that did not come.
    pub(crate) front: Vec<&'a [u8]>,
    /// Those of each fragment behind that one, by its number.
    pub(crate) ahead: BTreeMap<u64, &'a [u8]>,
    /// The first fragment that came with other octets than at first; 0 where none did.
    pub(crate) other: u64,
    /// Its other octets.
    pub(crate) octets: &'a [u8],
    pub(crate) alloc: Global,
}

impl<'a> Heard<'a> {
    /// Nothing came.
    pub(crate) fn new(alloc: Global) -> Heard<'a>
        ensures { (last : ℕ) → heard.IsHeard last [] result }
    {
        Heard {
            front: Vec::new(alloc),
            ahead: BTreeMap::new(alloc),
            other: 0,
            octets: &[],
            alloc,
        }
    }

    /// How many fragments came from the first one on.
    fn front(&self) -> u64
        ensures { result ≡ heard.kept_front self.now }
    {
        self.front.len() as u64
    }

    /// The octets that came first for a fragment.
    fn first(&self, index: u64) -> Option<&'a [u8]>
        requires { 0 < index }
        ensures { option_copied result ≡ heard.kept_first self.now index }
    {
        if index <= self.front() {
            Some(self.front[index as usize - 1])
        } else {
            self.ahead.get(&index).copied()
        }
    }

    /// Moves those to the front that follow there, which takes no more room than it needs once each fragment came. After `Memory` it is
    /// of no use.
    fn advance(&mut self, last: u64) -> Result<(), Memory>
        ensures firsts { OnOk result ((i : ℕ) → heard.kept_first self.new i ≡ heard.kept_first self.old i) }
        ensures within { OnOk result (heard.kept_front self.old ≤ last → heard.kept_front self.new ≤ last) }
        ensures next { OnOk result (heard.kept_front self.new < last → heard.kept_first self.new (suc (heard.kept_front self.new)) ≡ None) }
        ensures other { OnOk result (heard.kept_other self.new ≡ heard.kept_other self.old) }
    {
        while self.front() < last {
            let next = self.front() + 1;
            match self.ahead.remove(&next) {
                Some(octets) => self.front.push(octets)?,
                None => return Ok(()),
            }
        }
        self.front.shrink_to_fit();
        Ok(())
    }

    /// Keeps the octets of a fragment that did not come before. After `Memory` it is of no use.
    fn put(&mut self, last: u64, index: u64, octets: &'a [u8]) -> Result<(), Memory>
        requires some { 0 < index }
        requires absent { heard.kept_first self.old index ≡ None }
        ensures firsts { OnOk result ((i : ℕ) → heard.kept_first self.new i ≡ (if i == index then Some octets.now else heard.kept_first self.old i)) }
        ensures within { OnOk result (heard.kept_front self.old ≤ last → heard.kept_front self.new ≤ last) }
        ensures other { OnOk result (heard.kept_other self.new ≡ heard.kept_other self.old) }
    {
        if self.front() < last && index == self.front() + 1 {
            self.front.push(octets)?;
        } else {
            self.ahead.insert(index, octets)?;
        }
        Ok(())
    }

    /// Takes a fragment more of a sample with so many fragments. After `Memory` it is of no use.
    pub(crate) fn take(&mut self, last: u64, index: u64, octets: &'a [u8]) -> Result<(), Memory>
        requires { 0 < index }
        ensures { OnOk result ((came : List (ℕ × List ℕ)) → heard.IsHeard last came self.old → heard.IsHeard last (came ++ (index, octets.now) ∷ []) self.new) }
    {
        if let Some(first) = self.first(index) {
            if self.other == 0 && first != octets {
                self.other = index;
                self.octets = octets;
            }
            return Ok(());
        }
        self.put(last, index, octets)?;
        self.advance(last)
    }

    /// How many samples can be put together: none where some fragment did not come, two where one came with other octets.
    pub(crate) fn count(&self, last: u64) -> usize
        requires { 0 < last }
        ensures samples { (came : List (ℕ × List ℕ)) → heard.IsHeard last came self.now → result ≡ length (samples.samples_of last came) }
        ensures whole { 0 < result → last ≤ heard.kept_front self.now }
    {
        if self.front() < last {
            0
        } else if self.other == 0 {
            1
        } else {
            2
        }
    }

    /// The octets of all fragments, with those of the other one in place of the first ones of the fragment of its number; of none where it
    /// is 0. Each fragment came, so there are as many octets as the sample has, and room for them is asked for at once.
    fn joined(&self, arena: &'a Bump, shape: Shape, other: (u64, &[u8])) -> Result<&'a [u8], Memory>
        requires size { 0 < shape.fragment }
        requires whole { data_frag.last_fragment shape ≤ heard.kept_front self.now }
        ensures { IfOk result (λ sample. (came : List (ℕ × List ℕ)) (parts : List (List ℕ)) → heard.IsHeard (data_frag.last_fragment shape) came self.now
            → samples.firsts_of came (data_frag.last_fragment shape) ≡ Some parts → sample.now ≡ concat (heard.with_part parts other.entry.0 other.entry.1.now)) }
    {
        let mut sample = Vec::with_capacity(arena, shape.sample as usize)?;
        for place in 0..shape.last_fragment() {
            if place + 1 == other.0 {
                sample.extend_from_slice(other.1)?;
            } else {
                sample.extend_from_slice(self.front[place as usize])?;
            }
        }
        Ok(into_bump_slice(sample))
    }

    /// The sample at a place of those that can be put together: the octets that came first for each fragment; at place 1 with
    /// the other octets of the fragment that came with others.
    fn sample(&self, arena: &'a Bump, shape: Shape, place: usize) -> Result<&'a [u8], Memory>
        requires size { 0 < shape.fragment }
        requires whole { data_frag.last_fragment shape ≤ heard.kept_front self.now }
        ensures { IfOk result (λ sample. (came : List (ℕ × List ℕ)) → heard.IsHeard (data_frag.last_fragment shape) came self.now
            → place < length (samples.samples_of (data_frag.last_fragment shape) came) → slice_get (samples.samples_of (data_frag.last_fragment shape) came) place ≡ Some sample.now) }
    {
        if place == 0 {
            self.joined(arena, shape, (0, &[]))
        } else {
            self.joined(arena, shape, (self.other, self.octets))
        }
    }

    /// Takes consecutive fragments of a sample of this shape.
    fn take_all(&mut self, shape: Shape, fragments: &FragmentRun<'a>) -> Result<(), Memory>
        requires size { 0 < shape.fragment }
        requires first { 0 < fragments.now.first }
        requires few { fragments.now.count < 2 ^ 63 }
        ensures { OnOk result ((came : List (ℕ × List ℕ)) → heard.IsHeard (data_frag.last_fragment shape) came self.old
            → heard.IsHeard (data_frag.last_fragment shape) (came ++ heard.came_from fragments.now.first (data_frag.parts_in shape.fragment fragments.now.count fragments.now.octets.now)) self.new) }
    {
        let last = shape.last_fragment();
        let size = usize::from(shape.fragment);
        let mut rest = fragments.octets;
        for place in 0..fragments.count {
            let (octets, behind) = rest.split_at(size.min(rest.len()));
            self.take(last, u64::from(fragments.first) + place as u64, octets)?;
            rest = behind;
        }
        Ok(())
    }

    /// Takes fragments that are sent. It says whether their sample can be put together now. After `Memory` it is of no use.
    pub(crate) fn take_sent(&mut self, sent: &SentFragments<'a>) -> Result<bool, Memory>
        requires { told_samples.IsSent sent.now }
        ensures came { OnOk result ((came : List (ℕ × List ℕ)) → heard.IsHeard (data_frag.last_fragment (told_samples.shape_of sent.now.key)) came self.old
            → heard.IsHeard (data_frag.last_fragment (told_samples.shape_of sent.now.key)) (came ++ (told_samples.sent_value sent.now).came) self.new) }
        ensures whole { IfOk result (λ whole. (came : List (ℕ × List ℕ)) → heard.IsHeard (data_frag.last_fragment (told_samples.shape_of sent.now.key)) came self.old
            → whole ≡ samples.has_sample (data_frag.last_fragment (told_samples.shape_of sent.now.key)) (came ++ (told_samples.sent_value sent.now).came)) }
    {
        let shape = sent.key.shape();
        self.take_all(shape, &sent.fragments)?;
        Ok(self.count(shape.last_fragment()) > 0)
    }

    /// Takes fragments that are sent, and appends the samples that they tell, with their octets in the arena: those that could not be put
    /// together before. It says whether there is one now. After `Memory` it is of no use.
    pub(crate) fn tell(
        &mut self,
        arena: &'a Bump,
        sent: &SentFragments<'a>,
        told: &mut Vec<ToldSample<'a>>,
    ) -> Result<bool, Memory>
        requires { told_samples.IsSent sent.now }
        ensures came { OnOk result ((came : List (ℕ × List ℕ)) → heard.IsHeard (data_frag.last_fragment (told_samples.shape_of sent.now.key)) came self.old
            → heard.IsHeard (data_frag.last_fragment (told_samples.shape_of sent.now.key)) (came ++ (told_samples.sent_value sent.now).came) self.new) }
        ensures told { OnOk result ((came : List (ℕ × List ℕ)) → heard.IsHeard (data_frag.last_fragment (told_samples.shape_of sent.now.key)) came self.old
            → map told_samples.told_value told.new.items ≡ map told_samples.told_value told.old.items ++ told_samples.told_by_sent (told_samples.sent_value sent.now) came) }
        ensures whole { IfOk result (λ whole. (came : List (ℕ × List ℕ)) → heard.IsHeard (data_frag.last_fragment (told_samples.shape_of sent.now.key)) came self.old
            → whole ≡ samples.has_sample (data_frag.last_fragment (told_samples.shape_of sent.now.key)) (came ++ (told_samples.sent_value sent.now).came)) }
    {
        let shape = sent.key.shape();
        let last = shape.last_fragment();
        let before = self.count(last);
        self.take_all(shape, &sent.fragments)?;
        let after = self.count(last);
        for place in before..after {
            let octets = self.sample(arena, shape, place)?;
            told.push(ToldSample {
                act: sent.act,
                is_key: sent.key.is_key,
                octets,
            })?;
        }
        Ok(after > 0)
    }
}
