ghost use Rattle.std.specs.Prelude.{◌≡◌, ◌<◌, IfSome};
ghost use Rattle.std.specs.Option.{option_map};
ghost use Rattle.rtps_wire.specs.DataFrag as data_frag;

use crate::layout::id;
use crate::message::{order_of, skipped_body};
use crate::read;
use rtps_ids::{EntityId, Order, SeqNum};
use rtps_params::ParamList;

/// How a sample is sent in fragments (DDSI-RTPS 2.5, 8.3.8.3 "DataFrag").
#[derive(Clone, Copy, PartialEq, Eq, Debug)]
pub struct Shape {
    /// The size of the sample, in octets.
    pub sample: u32,
    /// The size of a fragment, in octets. The last fragment may be shorter.
    pub fragment: u16,
    /// Whether the sample is a key.
    pub is_key: bool,
}

impl Shape {
    /// The number of the last fragment. Fragments count from 1.
    pub fn last_fragment(self) -> u64
        requires { 0 < self.fragment }
        ensures { result ≡ data_frag.last_fragment self }
    {
        let fragment = u64::from(self.fragment);
        (u64::from(self.sample) + fragment - 1) / fragment
    }
}

/// What a DATA_FRAG says: consecutive fragments of a sample of a writer (DDSI-RTPS 2.5, 8.3.8.3 "DataFrag").
#[derive(Clone, Copy, PartialEq, Eq, Debug)]
pub struct DataFrag<'a> {
    /// The order of the octets of its numbers.
    pub order: Order,
    pub reader: EntityId,
    pub writer: EntityId,
    pub number: SeqNum,
    /// The parameters of this sample alone (DDSI-RTPS 2.5, 8.7.2 "DDS QoS Parameters").
    pub qos: Option<ParamList<'a>>,
    /// The number of the first of the fragments. Fragments count from 1.
    pub first: u32,
    /// How many fragments there are: at least one.
    pub count: u16,
    pub shape: Shape,
    /// The octets of the fragments, one after another.
    pub octets: &'a [u8],
}

impl<'a> DataFrag<'a> {
    /// Reads the DATA_FRAG at the beginning of these octets: those of a datagram from the first octet of a submessage on.
    /// None if it is another submessage, if it has a fault, or if it has no fragments that can be used: fields are absent
    /// or out of range, its sample does not have these fragments, octets of them are absent, or there are more than they may have
    /// (DDSI-RTPS 2.5, 8.3.8.3.3 "Validity").
    #[tactic(auto, using(crate::proofs::FragmentFields::of_whole, crate::proofs::FragmentFields::none_of_other))]
    pub fn read(submessage: &'a [u8]) -> Option<DataFrag<'a>>
        ensures value { option_map data_frag.data_frag_value result ≡ data_frag.data_frag_at submessage.now }
        ensures fragments { IfSome result (λ read. data_frag.IsDataFrag (data_frag.data_frag_value read)) }
    {
        let (flags, body) = skipped_body(submessage, id::DATA_FRAG)?;
        read::data_frag(order_of(flags), flags, body)
    }
}
