//! The ids and kinds of what is read of announcements. The code that reads and the definitions use these names.

/// The ids of the parameters that are read (DDSI-RTPS 2.5, 9.6.3; XTypes 1.3, 7.6.3.1.1 "DataRepresentationQosPolicy").
pub(crate) mod pid {
    pub(crate) const PARTICIPANT_LEASE_DURATION: u16 = 0x0002;

    pub(crate) const DOMAIN_ID: u16 = 0x000f;

    pub(crate) const VENDOR_ID: u16 = 0x0016;

    pub(crate) const LIVELINESS: u16 = 0x001b;

    pub(crate) const OWNERSHIP: u16 = 0x001f;

    pub(crate) const PRESENTATION: u16 = 0x0021;

    pub(crate) const DEADLINE: u16 = 0x0023;

    pub(crate) const DESTINATION_ORDER: u16 = 0x0025;

    pub(crate) const LATENCY_BUDGET: u16 = 0x0027;

    pub(crate) const PARTITION: u16 = 0x0029;

    pub(crate) const DEFAULT_UNICAST_LOCATOR: u16 = 0x0031;

    pub(crate) const METATRAFFIC_UNICAST_LOCATOR: u16 = 0x0032;

    pub(crate) const METATRAFFIC_MULTICAST_LOCATOR: u16 = 0x0033;

    pub(crate) const DATA_REPRESENTATION: u16 = 0x0073;
}

/// The kinds of liveliness, numbered in the order in which DDS has them (DDS 1.4, 2.2.3.11 "LIVELINESS").
pub(crate) mod liveliness {
    pub(crate) const AUTOMATIC: u32 = 0;

    pub(crate) const MANUAL_BY_PARTICIPANT: u32 = 1;

    pub(crate) const MANUAL_BY_TOPIC: u32 = 2;

    /// The offset of the lease, behind the kind.
    pub(crate) const LEASE: usize = 4;
}

/// The kinds of ownership (DDS 1.4, 2.2.3.9 "OWNERSHIP").
pub(crate) mod ownership {
    pub(crate) const SHARED: u32 = 0;

    pub(crate) const EXCLUSIVE: u32 = 1;
}

/// The kinds of destination order (DDS 1.4, 2.2.3.17 "DESTINATION_ORDER").
pub(crate) mod destination_order {
    pub(crate) const BY_RECEPTION: u32 = 0;

    pub(crate) const BY_SOURCE: u32 = 1;
}

/// The scopes of presentation, and where its two flags stand (DDS 1.4, 2.2.3.6 "PRESENTATION").
pub(crate) mod presentation {
    pub(crate) const INSTANCE: u32 = 0;

    pub(crate) const TOPIC: u32 = 1;

    pub(crate) const GROUP: u32 = 2;

    /// The offset of the flag for coherent access.
    pub(crate) const COHERENT: usize = 4;
    /// The offset of the flag for ordered access.
    pub(crate) const ORDERED: usize = 5;
}

/// The octets of patterns that do not stand for themselves (IEEE Std 1003.1, 2.13 "Pattern Matching Notation").
pub(crate) mod pattern {
    /// Any octets, also none.
    pub(crate) const STAR: u8 = b'*';
    /// One octet.
    pub(crate) const QUESTION: u8 = b'?';
    /// What a set begins with.
    pub(crate) const OPENING: u8 = b'[';
    /// What it ends with.
    pub(crate) const CLOSING: u8 = b']';
    /// What makes it one of the octets outside.
    pub(crate) const MARK: u8 = b'!';
    /// Another such mark.
    pub(crate) const CARET: u8 = b'^';
    /// What stands between the ends of a range.
    pub(crate) const HYPHEN: u8 = b'-';
}

/// A list of texts, or of ids of representations: a count, and then the items (DDSI-RTPS 2.5, 10.2 "RTPS Serialized Payload").
pub(crate) mod sequence {
    /// The size of the count.
    pub(crate) const COUNT_SIZE: usize = 4;
    /// The size of the length of a text.
    pub(crate) const LENGTH_SIZE: usize = 4;
    /// Each text begins at a multiple of this.
    pub(crate) const ALIGNMENT: usize = 4;
    /// The size of the id of a representation.
    pub(crate) const ID_SIZE: usize = 2;
}

/// The ids of representations (XTypes 1.3, 7.6.3.1.1 "DataRepresentationQosPolicy").
pub(crate) mod representation {
    pub(crate) const XCDR1: u16 = 0;
}

/// The beginning of a payload (DDSI-RTPS 2.5, 10 "Serialized Payload Representation").
pub(crate) mod header {
    /// The size of a representation: its id, and two octets of options.
    pub(crate) const SIZE: usize = 4;
    /// The size of its id.
    pub(crate) const ID_SIZE: usize = 2;
    /// A parameter list whose numbers have the highest octet first.
    pub(crate) const PL_CDR_BE: [u8; 2] = [0x00, 0x02];
    /// A parameter list whose numbers have the lowest octet first.
    pub(crate) const PL_CDR_LE: [u8; 2] = [0x00, 0x03];
}

/// Entity ids (DDSI-RTPS 2.5, 9.3.1.3 "Predefined EntityIds").
pub(crate) mod entity {
    use rtps_ids::EntityId;

    /// ENTITYID_PARTICIPANT.
    pub(crate) const PARTICIPANT: EntityId = EntityId([0x00, 0x00, 0x01, 0xc1]);
    /// The built-in writer that announces participants.
    pub(crate) const PARTICIPANTS: EntityId = EntityId([0x00, 0x01, 0x00, 0xc2]);
}

/// The lease of a participant (DDSI-RTPS 2.5, 9.6.3).
pub(crate) mod lease {
    /// What it is where none is announced: 100 s, in nanoseconds.
    pub(crate) const DEFAULT: u64 = 100_000_000_000;
}

/// A locator: its kind, its port and its address (DDSI-RTPS 2.5, 9.3.2 "Mapping of the Types that Appear Within Submessages or
/// Built-in Topic Data", "Locator_t").
pub(crate) mod locator {
    /// The size of a locator.
    pub(crate) const SIZE: usize = 24;
    /// LOCATOR_KIND_UDPv4.
    pub(crate) const UDP_V4: u32 = 1;
    /// LOCATOR_KIND_UDPv6.
    pub(crate) const UDP_V6: u32 = 2;
    /// The least kind of memory that processes of one host share, of Fast DDS.
    pub(crate) const MEMORY: u32 = 16;
    /// From here on a kind is below 0: it has a sign.
    pub(crate) const BELOW_ZERO: u32 = 0x8000_0000;
    /// The offset of the port.
    pub(crate) const PORT: usize = 4;
    /// The offset of the address.
    pub(crate) const ADDRESS: usize = 8;
    /// The offset of an address of four octets, which is the end of the address.
    pub(crate) const V4_ADDRESS: usize = 20;
}

/// The ports for discovery (DDSI-RTPS 2.5, 9.6).
pub(crate) mod discovery_port {
    /// Those of domain 0 begin with it.
    pub(crate) const BASE: u32 = 7400;
    /// How many ports each domain has.
    pub(crate) const GAIN: u32 = 250;
}

/// The ids of vendors (DDSI-RTPS 2.5, 8.3.3.1.3 "vendorId").
pub(crate) mod vendor {
    /// eProsima Fast DDS.
    pub(crate) const FAST_DDS: [u8; 2] = [0x01, 0x0f];
}
