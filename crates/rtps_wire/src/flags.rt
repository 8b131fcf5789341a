ghost use Rattle.std.specs.Prelude.{⊤, [], ◌∷◌, codes};
ghost use Rattle.rtps_wire.specs.declared.layout.data.TheConstants.{D as whole, K as key, N as non_standard, Q as inline_qos};
ghost use Rattle.rtps_wire.specs.declared.layout.submessage.TheConstants.{E as little};

use crate::layout::{data, submessage};
use bitflags::{Flag, Flags, bitflag_items};

/// The flags of a DATA that have a name (DDSI-RTPS 2.5, 9.4.5.4 "Data Submessage").
#[derive(Clone, Copy, PartialEq, Eq, Debug)]
pub struct DataFlags(u8);

bitflag_items! {
    impl DataFlags: u8 {
        const E = submessage::E;
        const Q = data::Q;
        const D = data::D;
        const K = data::K;
        const N = data::N;
    }
}

impl Flags for DataFlags {
    type Bits = u8;

    ghost exact = { ⊤ };

    ghost table = { (codes "E", little) ∷ (codes "Q", inline_qos) ∷ (codes "D", whole) ∷ (codes "K", key) ∷ (codes "N", non_standard) ∷ [] };

    ghost set_of = { λ flags. flags.0 };

    fn flags<'a>() -> &'a [Flag<DataFlags>] {
        DataFlags::FLAGS
    }

    fn bits(&self) -> u8 {
        self.0
    }

    fn from_bits_retain(bits: u8) -> DataFlags {
        DataFlags(bits)
    }
}
