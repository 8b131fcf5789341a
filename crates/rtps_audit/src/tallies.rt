ghost use Rattle.std.specs.Prelude.{◌≡◌, ◌+◌, ◌*◌, ◌<◌, ◌≤◌, ◌^◌, if◌then◌else◌};

use rtps_wire::Tally;

/// The sums of what is counted of datagrams.
#[derive(Clone, Copy, Debug)]
pub struct Tallies {
    pub(crate) datagrams: u64,
    pub(crate) refused: u64,
    pub(crate) skipped: u128,
    pub(crate) fragments: u128,
    pub(crate) undirected: u128,
    ghost few_refused: { refused ≤ datagrams },
    ghost few_skipped: { skipped ≤ datagrams * 18446744073709551615 },
    ghost few_fragments: { fragments ≤ datagrams * 18446744073709551615 },
    ghost few_undirected: { undirected ≤ datagrams * 18446744073709551615 },
}

impl Tallies {
    /// Of no datagrams.
    pub fn new() -> Self
        ensures datagrams { result.datagrams ≡ 0 }
        ensures refused { result.refused ≡ 0 }
        ensures skipped { result.skipped ≡ 0 }
        ensures fragments { result.fragments ≡ 0 }
        ensures undirected { result.undirected ≡ 0 }
    {
        Tallies {
            datagrams: 0,
            refused: 0,
            skipped: 0,
            fragments: 0,
            undirected: 0,
        }
    }

    /// Adds the tally of one datagram more, and how many of its acts are undirected.
    pub fn note(&mut self, tally: Tally, undirected: u64)
        requires { self.old.datagrams + 1 < 2 ^ 64 }
        ensures datagrams { self.new.datagrams ≡ self.old.datagrams + 1 }
        ensures refused { self.new.refused ≡ self.old.refused + (if tally.refused then 1 else 0) }
        ensures skipped { self.new.skipped ≡ self.old.skipped + tally.skipped }
        ensures fragments { self.new.fragments ≡ self.old.fragments + tally.fragments }
        ensures undirected { self.new.undirected ≡ self.old.undirected + undirected }
    {
        *self = Tallies {
            datagrams: self.datagrams + 1,
            refused: self.refused + one_if(tally.refused),
            skipped: self.skipped + u128::from(tally.skipped),
            fragments: self.fragments + u128::from(tally.fragments),
            undirected: self.undirected + u128::from(undirected),
        };
    }

    /// How many datagrams were counted.
    pub fn datagrams(&self) -> u64
        ensures { result ≡ self.now.datagrams }
    {
        self.datagrams
    }
}

/// 1 where the test holds, and else 0.
fn one_if(test: bool) -> u64
    ensures { result ≡ (if test then 1 else 0) }
{
    if test { 1 } else { 0 }
}
