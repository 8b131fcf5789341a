ghost use Rattle.std.specs.Prelude.{◌≡◌, ◌≤◌, ◌++◌, ◌∷◌, [], map, IfOk, List, OnOk};
ghost use Rattle.rtps_audit.specs.Placed as placed_spec;
ghost use Rattle.rtps_fragments.specs.Hearing as hearing_spec;
ghost use Rattle.rtps_fragments.specs.SampleCounts as sample_counts;

use crate::hearing::Hearing;
use crate::overheard::{NOBODY, for_everyone};
use bumpalo::Bump;
use rtps_audit::Placed;
use rtps_ids::{Guid, Memory};
use std::alloc::Global;
use std::slice;

/// How many samples an act tells one who hears it.
#[derive(Clone, Copy)]
pub enum SampleCount {
    Zero,
    One,
    Two,
}

impl SampleCount {
    /// The count of so many, where that is no more than two.
    fn of(samples: usize) -> SampleCount
        ensures { samples ≤ 2 → sample_counts.number_of result ≡ samples }
    {
        match samples {
            0 => SampleCount::Zero,
            1 => SampleCount::One,
            _ => SampleCount::Two,
        }
    }

    /// As a number.
    pub fn number(self) -> u64
        ensures value { result ≡ sample_counts.number_of self }
        ensures few { result ≤ 2 }
    {
        match self {
            SampleCount::Zero => 0,
            SampleCount::One => 1,
            SampleCount::Two => 2,
        }
    }
}

/// Hears the fragments that an act sends, and counts the samples that it tells the reader. After `Memory` what is heard is of no use.
fn count_told<'a>(
    hearing: &mut Hearing<'a>,
    arena: &'a Bump,
    placed: &Placed<'a>,
) -> Result<SampleCount, Memory>
    ensures reader { hearing.new.reader ≡ hearing.old.reader }
    ensures heard { OnOk result ((before : List placed_spec.PlacedValue) → hearing_spec.HaveCome hearing.old.reader (sample_counts.with_pieces before) hearing.old.makings
        → hearing_spec.HaveCome hearing.old.reader (sample_counts.with_pieces (before ++ placed_spec.placed_value placed.now ∷ [])) hearing.new.makings) }
    ensures count { IfOk result (λ count. (before : List placed_spec.PlacedValue) → hearing_spec.HaveCome hearing.old.reader (sample_counts.with_pieces before) hearing.old.makings
        → sample_counts.number_of count ≡ sample_counts.samples_at hearing.old.reader before (placed_spec.placed_value placed.now)) }
{
    hearing.acts.clear();
    hearing.hear_fragments(arena, placed)?;
    Ok(SampleCount::of(hearing.acts.len()))
}

/// How many samples each of these acts tells a reader. It takes the time of the acts and their octets. `Memory` is answered where there is none for
/// them.
pub fn samples_counted(
    alloc: Global,
    acts: &[Placed<'_>],
    reader: Guid,
) -> Result<Vec<SampleCount>, Memory>
    ensures { IfOk result (λ counts. map sample_counts.number_of counts.items ≡ sample_counts.counts_behind (sample_counts.samples_at reader) [] (map placed_spec.placed_value acts.now)) }
{
    let arena = Bump::new(alloc);
    let mut hearing = Hearing::new(alloc, reader);
    let mut counts = Vec::with_capacity(alloc, acts.len())?;
    for placed in acts {
        let count = count_told(&mut hearing, &arena, placed)?;
        counts.push(count)?;
    }
    Ok(counts)
}

/// How many samples each of these acts tells one who hears the fragments for everyone. `Memory` as of [`samples_counted`].
pub fn overheard_counted(alloc: Global, acts: &[Placed<'_>]) -> Result<Vec<SampleCount>, Memory>
    ensures { IfOk result (λ counts. map sample_counts.number_of counts.items ≡ sample_counts.counts_behind sample_counts.overheard_at [] (map placed_spec.placed_value acts.now)) }
{
    let mut all = Vec::with_capacity(alloc, acts.len())?;
    for placed in acts {
        let one = for_everyone(placed);
        all.extend_from_slice(slice::from_ref(&one))?;
    }
    samples_counted(alloc, &all, NOBODY)
}
