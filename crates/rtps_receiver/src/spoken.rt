use crate::act::ActBody;
use rtps_ids::{EntityId, GuidPrefix, Order, SeqNum, Stamp, Vendor, Version};
use rtps_wire::{NackFrag, Payload, Shape};

/// The fragments that a DATA_FRAG sends (DDSI-RTPS 2.5, 8.3.8.3 "DataFrag").
#[derive(Clone, Copy, PartialEq, Eq, Debug)]
pub struct SentPart<'a> {
    /// The number of the first of them. Fragments count from 1.
    pub first: u32,
    /// How their sample is sent.
    pub shape: Shape,
    /// Their octets, one after another.
    pub octets: &'a [u8],
}

/// What a DATA_FRAG says: that a sample of this number exists, and, where its fragments were put together, the sample
/// (DDSI-RTPS 2.5, 8.3.8.3 "DataFrag").
#[derive(Clone, Copy, PartialEq, Eq, Debug)]
pub struct FragmentBody<'a> {
    pub reader: EntityId,
    pub writer: EntityId,
    /// The number of the sample.
    pub number: SeqNum,
    /// The fragments that it sends; None where the act tells a sample.
    pub sent: Option<SentPart<'a>>,
    /// What the fragments up to this one were put together to; None where the act tells no sample.
    pub told: Option<Payload<'a>>,
}

/// What an act, a DATA_FRAG or a NACK_FRAG says.
#[derive(Clone, Copy, PartialEq, Eq, Debug)]
pub enum SpokenBody<'a> {
    Act(ActBody<'a>),
    DataFrag(FragmentBody<'a>),
    NackFrag(NackFrag),
}

/// An act, a DATA_FRAG or a NACK_FRAG with the receiver's state at its place (DDSI-RTPS 2.5, 8.3.4 "The RTPS Message Receiver").
#[derive(Clone, Copy, PartialEq, Eq, Debug)]
pub struct Spoken<'a> {
    /// The place of its first octet in the datagram, from 0.
    pub at: usize,
    /// The participant that it is from.
    pub source: GuidPrefix,
    /// The version of the protocol that its source uses.
    pub version: Version,
    /// The vendor of its source.
    pub vendor: Vendor,
    /// The participant that it is sent to, or None for everyone.
    pub dest: Option<GuidPrefix>,
    /// When it was sent, if its source says so.
    pub stamp: Option<Stamp>,
    /// The order of the octets of its numbers.
    pub order: Order,
    pub body: SpokenBody<'a>,
}
