//! A law over definitions alone. The function does nothing: its clause is the law, and its proof the law's proof.

ghost use Rattle.rtps_coverage.specs.Laws as laws;

/// The ranges of [`crate::MergedRanges`] at any time: none is empty, no two overlap or touch, the set has their numbers and
/// no others, and its length is how many they are.
pub fn ranges_lie_apart()
    ensures { laws.RangesLieApart }
{}
