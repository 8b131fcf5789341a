use crate::layout::id;
use crate::message::{order_of, skipped_body};
use crate::read;
use rtps_ids::{EntityId, NumberSet, SeqNum};

/// What a NACK_FRAG says: the reader asks for fragments of a sample of the writer (DDSI-RTPS 2.5, 8.3.8.12 "NackFrag").
#[derive(Clone, Copy, PartialEq, Eq, Debug)]
pub struct NackFrag {
    pub reader: EntityId,
    pub writer: EntityId,
    /// The number of the sample.
    pub number: SeqNum,
    /// The numbers of the fragments. Fragments count from 1.
    pub set: NumberSet,
    /// own: read as a number without a sign. No verdict depends on it.
    pub count: u32,
}

impl NackFrag {
    ghost use Rattle.std.specs.Prelude.{◌≡◌};
    ghost use Rattle.rtps_wire.specs.NackFrag as nack_frag;

    /// Reads the NACK_FRAG at the beginning of these octets: those of a datagram from the first octet of a submessage on.
    /// None if it is another submessage, if it has a fault, or if it cannot be read: fields are absent or out of range.
    #[tactic(auto, unfolding(crate::specs::NackFrag::nack_frag_at))]
    pub fn read(submessage: &[u8]) -> Option<NackFrag>
        ensures { result ≡ nack_frag.nack_frag_at submessage.now }
    {
        let (flags, body) = skipped_body(submessage, id::NACK_FRAG)?;
        read::nack_frag(order_of(flags), body)
    }
}
