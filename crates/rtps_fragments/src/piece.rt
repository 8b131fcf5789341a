ghost use Rattle.std.specs.Prelude.{◌≡◌};
ghost use Rattle.rtps_fragments.specs.ToldSamples as told_samples;

use rtps_ids::{Guid, SeqNum};
use rtps_wire::Shape;

/// Consecutive fragments of one sample.
#[derive(Clone, Copy)]
pub(crate) struct FragmentRun<'a> {
    /// The number of the first of them. Fragments count from 1.
    pub(crate) first: u32,
    /// How many there are.
    pub(crate) count: usize,
    /// Their octets, one after another.
    pub(crate) octets: &'a [u8],
}

/// A sample that is sent in fragments of one shape. The number comes first: where two are compared, that decides soonest.
#[derive(Clone, Copy, PartialEq, Eq, PartialOrd, Ord)]
pub(crate) struct SampleKey {
    /// The number of the sample.
    pub(crate) number: SeqNum,
    pub(crate) writer: Guid,
    /// The size of the sample, in octets.
    pub(crate) sample: u32,
    /// The size of a fragment, in octets.
    pub(crate) fragment: u16,
    /// Whether the sample is a key.
    pub(crate) is_key: bool,
}

impl SampleKey {
    /// The shape of the sample.
    pub(crate) fn shape(self) -> Shape
        ensures { result ≡ told_samples.shape_of self }
    {
        Shape {
            sample: self.sample,
            fragment: self.fragment,
            is_key: self.is_key,
        }
    }
}

/// Fragments that a DATA_FRAG sends.
#[derive(Clone, Copy)]
pub(crate) struct SentFragments<'a> {
    /// The place of the DATA_FRAG among the acts of its datagram.
    pub(crate) act: usize,
    /// The sample that they are of.
    pub(crate) key: SampleKey,
    pub(crate) fragments: FragmentRun<'a>,
}
