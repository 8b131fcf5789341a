ghost use Rattle.std.specs.Prelude.{◌≡◌, ◌++◌, ◌∷◌, [], map, All, IfOk, List, OnOk};
ghost use Rattle.rtps_fragments.specs.Making as making;
ghost use Rattle.rtps_fragments.specs.ToldSamples as told_samples;

use crate::making::Makings;
use crate::piece::SentFragments;
use crate::told_sample::ToldSample;
use crate::whole::{SampleNumber, WholeNumbers, key_number};
use bumpalo::Bump;
use rtps_ids::Memory;
use std::alloc::Global;
use std::collections::BTreeSet;

/// What a recording sends of samples in fragments, whoever hears it.
#[derive(Drop)]
pub(crate) struct Overhearing<'a> {
    pub(crate) makings: Makings<'a>,
    /// The numbers of which some sample is whole.
    pub(crate) whole: BTreeSet<SampleNumber>,
    alloc: Global,
}

impl<'a> Overhearing<'a> {
    /// Nothing was sent.
    pub(crate) fn new(alloc: Global) -> Overhearing<'a>
        ensures { making.IsOverhearing [] result }
    {
        Overhearing {
            makings: Makings::new(alloc),
            whole: BTreeSet::new(alloc),
            alloc,
        }
    }

    /// Fragments are sent. The samples of built-in writers that they tell are appended, with their octets in the arena. After `Memory` it is
    /// of no use.
    fn take(
        &mut self,
        arena: &'a Bump,
        sent: &SentFragments<'a>,
        told: &mut Vec<ToldSample<'a>>,
    ) -> Result<(), Memory>
        requires { told_samples.IsSent sent.now }
        ensures { OnOk result ((before : List told_samples.SentValue) → making.IsOverhearing before self.old → making.IsOverhearing (before ++ told_samples.sent_value sent.now ∷ []) self.new
            × (map told_samples.told_value told.new.items ≡ map told_samples.told_value told.old.items ++ told_samples.overheard_behind before (told_samples.sent_value sent.now))) }
    {
        if self.makings.note(arena, sent, told)? {
            self.whole.insert(key_number(&sent.key))?;
        }
        Ok(())
    }

    /// Fragments are sent, one act after another, and the samples of built-in writers that they tell are given. After `Memory` it is of no
    /// use.
    pub(crate) fn take_all(
        &mut self,
        arena: &'a Bump,
        sents: &[SentFragments<'a>],
    ) -> Result<Vec<ToldSample<'a>>, Memory>
        requires { All told_samples.IsSent sents.now }
        ensures { IfOk result (λ told. (before : List told_samples.SentValue) → making.IsOverhearing before self.old → making.IsOverhearing (before ++ map told_samples.sent_value sents.now) self.new
            × (map told_samples.told_value told.items ≡ told_samples.overheard_in_turn before (map told_samples.sent_value sents.now))) }
    {
        let mut told = Vec::new(self.alloc);
        for sent in sents {
            self.take(arena, sent, &mut told)?;
        }
        Ok(told)
    }

    /// Takes the numbers out of which some sample is whole.
    pub(crate) fn take_whole(&mut self) -> WholeNumbers
        ensures { result.numbers ≡ self.old.whole }
    {
        let mut numbers = BTreeSet::new(self.alloc);
        std::mem::swap(&mut numbers, &mut self.whole);
        WholeNumbers { numbers }
    }
}
