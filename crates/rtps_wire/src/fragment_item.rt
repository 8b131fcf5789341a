ghost use Rattle.std.specs.Prelude.{◌≡◌, drop, IfSome};
ghost use Rattle.std.specs.Option.{option_map};
ghost use Rattle.rtps_wire.specs.DataFrag as data_frag;
ghost use Rattle.rtps_wire.specs.FragmentItem as fragment_item;
ghost use Rattle.rtps_wire.specs.Values as values;

use crate::body::{Body, Item};
use crate::data_frag::DataFrag;
use crate::layout::id;
use crate::nack_frag::NackFrag;

/// The octets from this place on; none where it is past the end.
fn octets_from(octets: &[u8], at: usize) -> &[u8]
    ensures { result.now ≡ drop at octets.now }
{
    if at <= octets.len() {
        &octets[at..]
    } else {
        &[]
    }
}

impl<'a> Body<'a> {
    /// Whether it is skipped as a DATA_FRAG.
    pub fn is_data_frag(&self) -> bool
        ensures { result ≡ fragment_item.is_skipped_data_frag (values.body_value self.now) }
    {
        match self {
            Body::Skipped { id } => *id == id::DATA_FRAG,
            _ => false,
        }
    }

    /// Whether it is skipped as a NACK_FRAG.
    fn is_nack_frag(&self) -> bool
        ensures { result ≡ fragment_item.is_skipped_nack_frag (values.body_value self.now) }
    {
        match self {
            Body::Skipped { id } => *id == id::NACK_FRAG,
            _ => false,
        }
    }
}

impl<'a> Item<'a> {
    /// The fragments that it has, if it is a DATA_FRAG that has some that can be used. These are the octets of its datagram.
    pub fn data_frag<'d>(&self, datagram: &'d [u8]) -> Option<DataFrag<'d>>
        ensures value { option_map data_frag.data_frag_value result ≡ fragment_item.fragments_at datagram.now (values.item_value self.now) }
        ensures fragments { IfSome result (λ read. data_frag.IsDataFrag (data_frag.data_frag_value read)) }
    {
        if self.body.is_fragment() {
            DataFrag::read(octets_from(datagram, self.at))
        } else {
            None
        }
    }

    /// What a reader asks for by it, if it is a NACK_FRAG that can be read. These are the octets of its datagram.
    pub fn nack_frag(&self, datagram: &[u8]) -> Option<NackFrag>
        ensures { result ≡ fragment_item.asks_at datagram.now (values.item_value self.now) }
    {
        if self.body.is_nack_frag() {
            NackFrag::read(octets_from(datagram, self.at))
        } else {
            None
        }
    }
}
