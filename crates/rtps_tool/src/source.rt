ghost use Rattle.std.specs.Prelude.{ℕ, ◌≡◌, List, None, IfSome, OnOk, Option, Some};

use std::io::{self, Read};

/// An input that can be read again from its start.
pub trait Source<R: Read> {
    /// Its octets, where they are known.
    ghost octets: { Self → Option (List ℕ) } = { λ _. None };

    /// Has its reader read it from its start. This pass over it is so numbered, from 1 on; 0 is for an input that is read once.
    fn rewind(&self, reader: &mut R, pass: u8) -> io::Result<()>
        ensures { OnOk result (IfSome (octets self.now) (λ all. R.remaining reader.new ≡ Some all)) };
}

/// A source and its reader.
#[derive(Drop)]
pub struct Rereading<S, R> {
    pub source: S,
    pub reader: R,
}
