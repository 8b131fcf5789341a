ghost use Rattle.std.specs.Prelude.{◌≡◌, ◌+◌, ◌++◌, ◌∷◌, [], length, List, OnOk};
ghost use Rattle.rtps_fragments.specs.ReadDatagrams as read_datagrams;

use rtps_audit::Placed;
use rtps_ids::Memory;
use rtps_receiver::Spoken;

/// What is read of a datagram.
#[derive(Clone, Copy)]
pub struct ReadDatagram<'r, 's> {
    /// Its number, counted from 1.
    pub datagram: usize,
    /// Its acts, in their order.
    pub acts: &'r [Spoken<'s>],
    /// In their places, those that may announce something, and the samples of built-in writers that they complete, each as a DATA for
    /// everyone.
    pub announcements: &'r [Placed<'s>],
}

/// Is told what is read of each datagram of a recording, in the order of sending.
pub trait Listen {
    /// From what it was at first, it has heard of these datagrams and is what it is.
    ghost has_heard: { Self → List read_datagrams.ReadDatagramValue → Self → Type 0 };

    /// Hears of one datagram more, the next one. After `Memory` it is of no use.
    fn hear(&mut self, read: &ReadDatagram<'_, '_>) -> Result<(), Memory>
        requires { (start : Self) × (before : List read_datagrams.ReadDatagramValue) × has_heard start before self.old × (length before + 1 ≡ read.now.datagram) }
        ensures { OnOk result ((start : Self) (before : List read_datagrams.ReadDatagramValue) → has_heard start before self.old
            → has_heard start (before ++ read_datagrams.read_datagram_value read.now ∷ []) self.new) };
}

/// Hears nothing.
#[derive(Drop)]
pub struct Deaf;

impl Listen for Deaf {
    ghost has_heard = { λ start datagrams deaf. Unit {0} };

    fn hear(&mut self, _read: &ReadDatagram<'_, '_>) -> Result<(), Memory> {
        Ok(())
    }
}
