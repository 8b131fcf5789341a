//! Laws of the definitions, as contracts of functions that do nothing.

ghost use Rattle.std.specs.Prelude.{◌≡◌, ◌++◌, ℕ, List, map, option_to_list, Ok, Err};
ghost use Rattle.rtps_wire.specs.Layout as layout;
ghost use Rattle.rtps_wire.specs.Message as message;
ghost use Rattle.rtps_wire.specs.Reading as reading;

/// Each datagram has exactly one reading. `Items` gives its items in order, and then its refusal, if there is one.
pub fn one_reading()
    ensures exists { (datagram : List ℕ) → message.Reads datagram (reading.reading_of datagram) }
    ensures unique { (datagram : List ℕ) (reading other : message.Reading) → message.Reads datagram reading → message.Reads datagram other → reading ≡ other }
    ensures order { (rest : List ℕ) (at : ℕ) → reading.outcomes rest at ≡ map Ok (reading.items_among (reading.outcomes rest at)) ++ map Err (option_to_list (reading.refusal_among (reading.outcomes rest at))) }
{}

/// The ids, flags, sizes and offsets that the code and the definitions use are those of the standard.
pub fn layout_is_that_of_the_standard()
    ensures header { layout.header_is }
    ensures submessage { layout.submessage_is }
    ensures id { layout.id_is }
    ensures ack_nack { layout.ack_nack_is }
    ensures data { layout.data_is }
    ensures data_frag { layout.data_frag_is }
    ensures nack_frag { layout.nack_frag_is }
    ensures gap { layout.gap_is }
    ensures heartbeat { layout.heartbeat_is }
    ensures info_ts { layout.info_ts_is }
    ensures info_dst { layout.info_dst_is }
{}
