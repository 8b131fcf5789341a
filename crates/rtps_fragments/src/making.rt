ghost use Rattle.std.specs.Prelude.{ℕ, ◌≡◌, ◌++◌, [], false, map, IfOk, List, OnOk};
ghost use Rattle.std.specs.BTreeMap.{get};
ghost use Rattle.std.specs.Ordering.{is_eq};
ghost use Rattle.rtps_wire.specs.DataFrag as data_frag;
ghost use Rattle.rtps_fragments.specs.Making as making;
ghost use Rattle.rtps_fragments.specs.Samples as samples;
ghost use Rattle.rtps_fragments.specs.ToldSamples as told_samples;
ghost use Rattle.rtps_fragments.specs.declared.piece.SampleKey.{SampleKey as SampleKeyValue};

use crate::announcements::is_built_in;
use crate::heard::Heard;
use crate::piece::{SampleKey, SentFragments};
use crate::told_sample::ToldSample;
use bumpalo::Bump;
use rtps_ids::Memory;
use std::alloc::Global;
use std::collections::BTreeMap;

/// The samples in the making of one who hears fragments.
#[derive(Drop)]
pub(crate) struct Makings<'a> {
    pub(crate) kept: BTreeMap<SampleKey, Heard<'a>>,
    alloc: Global,
}

impl<'a> Makings<'a> {
    /// Nothing came.
    pub(crate) fn new(alloc: Global) -> Makings<'a>
        ensures { making.AreMakings (λ key. []) result }
    {
        Makings {
            kept: BTreeMap::new(alloc),
            alloc,
        }
    }

    /// Fragments come. It says whether their sample can be put together now. After `Memory` what is kept is of no use.
    pub(crate) fn take(&mut self, sent: &SentFragments<'a>) -> Result<bool, Memory>
        requires { told_samples.IsSent sent.now }
        ensures here { OnOk result ((came : List (ℕ × List ℕ)) → making.HasCame sent.now.key came (get told_samples.sample_cmp self.old.kept sent.now.key)
            → making.HasCame sent.now.key (came ++ (told_samples.sent_value sent.now).came) (get told_samples.sample_cmp self.new.kept sent.now.key)) }
        ensures others { OnOk result ((other : SampleKeyValue) → is_eq (told_samples.sample_cmp sent.now.key other) ≡ false
            → get told_samples.sample_cmp self.new.kept other ≡ get told_samples.sample_cmp self.old.kept other) }
        ensures whole { IfOk result (λ whole. (came : List (ℕ × List ℕ)) → making.HasCame sent.now.key came (get told_samples.sample_cmp self.old.kept sent.now.key)
            → whole ≡ samples.has_sample (data_frag.last_fragment (told_samples.shape_of sent.now.key)) (came ++ (told_samples.sent_value sent.now).came)) }
    {
        if let Some(heard) = self.kept.get_mut(&sent.key) {
            return heard.take_sent(sent);
        }
        let mut heard = Heard::new(self.alloc);
        let whole = heard.take_sent(sent)?;
        self.kept.insert(sent.key, heard)?;
        Ok(whole)
    }

    /// The same, and the samples that they tell are appended, with their octets in the arena: those that could not be put together before.
    pub(crate) fn tell(
        &mut self,
        arena: &'a Bump,
        sent: &SentFragments<'a>,
        told: &mut Vec<ToldSample<'a>>,
    ) -> Result<bool, Memory>
        requires { told_samples.IsSent sent.now }
        ensures here { OnOk result ((came : List (ℕ × List ℕ)) → making.HasCame sent.now.key came (get told_samples.sample_cmp self.old.kept sent.now.key)
            → making.HasCame sent.now.key (came ++ (told_samples.sent_value sent.now).came) (get told_samples.sample_cmp self.new.kept sent.now.key)) }
        ensures others { OnOk result ((other : SampleKeyValue) → is_eq (told_samples.sample_cmp sent.now.key other) ≡ false
            → get told_samples.sample_cmp self.new.kept other ≡ get told_samples.sample_cmp self.old.kept other) }
        ensures told { OnOk result ((came : List (ℕ × List ℕ)) → making.HasCame sent.now.key came (get told_samples.sample_cmp self.old.kept sent.now.key)
            → map told_samples.told_value told.new.items ≡ map told_samples.told_value told.old.items ++ told_samples.told_by_sent (told_samples.sent_value sent.now) came) }
        ensures whole { IfOk result (λ whole. (came : List (ℕ × List ℕ)) → making.HasCame sent.now.key came (get told_samples.sample_cmp self.old.kept sent.now.key)
            → whole ≡ samples.has_sample (data_frag.last_fragment (told_samples.shape_of sent.now.key)) (came ++ (told_samples.sent_value sent.now).came)) }
    {
        if let Some(heard) = self.kept.get_mut(&sent.key) {
            return heard.tell(arena, sent, told);
        }
        let mut heard = Heard::new(self.alloc);
        let whole = heard.tell(arena, sent, told)?;
        self.kept.insert(sent.key, heard)?;
        Ok(whole)
    }

    /// The same, where the samples of built-in writers alone are appended.
    pub(crate) fn note(
        &mut self,
        arena: &'a Bump,
        sent: &SentFragments<'a>,
        told: &mut Vec<ToldSample<'a>>,
    ) -> Result<bool, Memory>
        requires { told_samples.IsSent sent.now }
        ensures here { OnOk result ((came : List (ℕ × List ℕ)) → making.HasCame sent.now.key came (get told_samples.sample_cmp self.old.kept sent.now.key)
            → making.HasCame sent.now.key (came ++ (told_samples.sent_value sent.now).came) (get told_samples.sample_cmp self.new.kept sent.now.key)) }
        ensures others { OnOk result ((other : SampleKeyValue) → is_eq (told_samples.sample_cmp sent.now.key other) ≡ false
            → get told_samples.sample_cmp self.new.kept other ≡ get told_samples.sample_cmp self.old.kept other) }
        ensures told { OnOk result ((came : List (ℕ × List ℕ)) → making.HasCame sent.now.key came (get told_samples.sample_cmp self.old.kept sent.now.key)
            → map told_samples.told_value told.new.items ≡ map told_samples.told_value told.old.items ++ told_samples.noted_by_sent (told_samples.sent_value sent.now) came) }
        ensures whole { IfOk result (λ whole. (came : List (ℕ × List ℕ)) → making.HasCame sent.now.key came (get told_samples.sample_cmp self.old.kept sent.now.key)
            → whole ≡ samples.has_sample (data_frag.last_fragment (told_samples.shape_of sent.now.key)) (came ++ (told_samples.sent_value sent.now).came)) }
    {
        if is_built_in(sent.key.writer.entity) {
            self.tell(arena, sent, told)
        } else {
            self.take(sent)
        }
    }
}
