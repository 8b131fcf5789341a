use rtps_ids::Guid;

/// Whether an endpoint writes or reads (DDSI-RTPS 2.5, 8.2 "Structure Module").
#[derive(Clone, Copy, PartialEq, Eq, Debug)]
pub enum Side {
    Writer,
    Reader,
}

/// Whether samples are sent until they are acknowledged. The weaker comes first (DDSI-RTPS 2.5, 8.7.2 "DDS QoS
/// Parameters", and DDS 1.4, 2.2.3.14 "RELIABILITY").
#[derive(Clone, Copy, PartialEq, Eq, PartialOrd, Ord, Debug)]
pub enum Reliability {
    BestEffort,
    Reliable,
}

/// How long samples are kept for readers that join late. The shortest comes first (DDS 1.4, 2.2.3.4 "DURABILITY").
#[derive(Clone, Copy, PartialEq, Eq, PartialOrd, Ord, Debug)]
pub enum Durability {
    Volatile,
    TransientLocal,
    Transient,
    Persistent,
}

/// A writer or a reader, as it is announced. A writer offers its reliability and durability, a reader asks for them.
/// The names are parts of the payload that announces it (DDSI-RTPS 2.5, 8.5.4 "The Simple Endpoint Discovery
/// Protocol").
#[derive(Clone, Copy, PartialEq, Eq, Debug)]
pub struct Endpoint<'a> {
    pub guid: Guid,
    pub side: Side,
    /// The topic's name, of any octets.
    pub topic: &'a [u8],
    /// The name of the topic's type, of any octets.
    pub type_name: &'a [u8],
    pub reliability: Reliability,
    pub durability: Durability,
}
