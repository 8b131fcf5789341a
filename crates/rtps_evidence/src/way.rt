/// Which of two recordings was made at which side of a pair, by what one has and the other lacks in the midst of what both have.
#[derive(Clone, Copy, PartialEq, Eq, Debug)]
pub enum Way {
    /// The first has an act of the writer that the second lacks, or the second an answer that the first lacks: the first was made at
    /// the writer's side.
    Right,
    /// The opposite.
    Wrong,
    /// Some acts tell the one, and some the other.
    Both,
    /// None tells anything.
    Alike,
}
