ghost use Rattle.std.specs.Prelude.{◌≡◌, [], map, IfOk};
ghost use Rattle.rtps_fragments.specs.RecordedSamples as recorded_samples;

use crate::fragment_walk::FragmentWalk;
use crate::overhearing::Overhearing;
use crate::told_sample::ToldSample;
use crate::whole::WholeNumbers;
use bumpalo::Bump;
use rtps_ids::Memory;
use std::alloc::Global;

/// The samples that the DATA_FRAG of a recording tell, put together, whoever hears them.
#[derive(Drop)]
pub(crate) struct Samples<'s> {
    /// Those of built-in writers, for each datagram those that its acts tell.
    pub(crate) overheard: Vec<Vec<ToldSample<'s>>>,
    /// The numbers of which some sample is ever whole.
    pub(crate) whole: WholeNumbers,
}

impl<'s> Samples<'s> {
    /// Puts the samples of a recording together, any datagrams in the order of sending, with their octets in the arena. The octets of each
    /// datagram are read once. `Memory` is answered where there is none for them.
    pub(crate) fn of(
        alloc: Global,
        arena: &'s Bump,
        recording: &[&'s [u8]],
    ) -> Result<Samples<'s>, Memory>
        ensures { IfOk result (recorded_samples.AreSamplesOf (map (λ datagram. datagram.now) recording.now)) }
    {
        let mut overheard = Vec::new(alloc);
        let mut overhearing = Overhearing::new(alloc);
        let mut walk = FragmentWalk::new(alloc);
        for datagram in recording {
            walk.read(datagram)?;
            overheard.push(overhearing.take_all(arena, &walk.sents)?)?;
        }
        let whole = overhearing.take_whole();
        Ok(Samples { overheard, whole })
    }
}
