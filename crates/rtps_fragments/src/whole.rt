ghost use Rattle.std.specs.Prelude.{◌≡◌, ◌≤◌, ◌<◌, ◌+◌, ◌^◌, [], length, List, map};
ghost use Rattle.rtps_fragments.specs.ToldSamples as told_samples;
ghost use Rattle.rtps_fragments.specs.Whole as whole;

use crate::fragment_walk::FragmentWalk;
use crate::piece::{SampleKey, SentFragments};
use rtps_ids::{Guid, SeqNum};
use rtps_wire::Tally;
use std::alloc::Global;
use std::collections::BTreeSet;

/// The number of a sample, and its writer.
#[derive(Clone, Copy, PartialEq, Eq, PartialOrd, Ord)]
pub(crate) struct SampleNumber {
    pub(crate) number: SeqNum,
    pub(crate) writer: Guid,
}

/// The numbers of which some sample can be put together of all fragments that a recording sends, whoever hears them.
#[derive(Drop)]
pub(crate) struct WholeNumbers {
    pub(crate) numbers: BTreeSet<SampleNumber>,
}

/// The number that a sample has.
pub(crate) fn key_number(key: &SampleKey) -> SampleNumber
    ensures { result ≡ whole.key_number key.now }
{
    SampleNumber {
        writer: key.writer,
        number: key.number,
    }
}

impl WholeNumbers {
    /// No numbers. It takes no memory.
    pub(crate) fn none(alloc: Global) -> WholeNumbers
        ensures { whole.AreWholeOf [] result }
    {
        WholeNumbers {
            numbers: BTreeSet::new(alloc),
        }
    }

    /// The tally of a datagram that sends this. Its fragments are the DATA_FRAG of no sample.
    pub(crate) fn tally(&self, walk: &FragmentWalk<'_>) -> Tally
        requires { walk.now.unusable + length walk.now.sents.items < 2 ^ 64 }
        ensures { (all : List told_samples.SentValue) → whole.AreWholeIn all self.now
            → result ≡ whole.tally_with_fragments walk.now.plain (walk.now.unusable + whole.left_among all (map told_samples.sent_value walk.now.sents.items)) }
    {
        Tally {
            refused: walk.plain.refused,
            skipped: walk.plain.skipped,
            fragments: walk.unusable + self.left_among(&walk.sents),
        }
    }

    /// How many of these fragments that acts send are of a number of which no sample can be put together.
    pub(crate) fn left_among(&self, sents: &[SentFragments<'_>]) -> u64
        ensures few { result ≤ length sents.now }
        ensures left { (all : List told_samples.SentValue) → whole.AreWholeIn all self.now → result ≡ whole.left_among all (map told_samples.sent_value sents.now) }
    {
        let mut left = 0;
        for sent in sents {
            if !self.numbers.contains(&key_number(&sent.key)) {
                left += 1;
            }
        }
        left
    }
}
