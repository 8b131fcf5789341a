//! The numbers of announcements: ids of writers, of representations and of parameters, and kinds of reliability and
//! durability. The code and the definitions use these names.

/// The built-in writers that announce participants, writers and readers (DDSI-RTPS 2.5, 9.3.1.3 "Predefined
/// EntityIds").
pub(crate) mod entity {
    use rtps_ids::EntityId;

    pub(crate) const PARTICIPANTS: EntityId = EntityId([0x00, 0x01, 0x00, 0xc2]);

    pub(crate) const PUBLICATIONS: EntityId = EntityId([0x00, 0x00, 0x03, 0xc2]);

    pub(crate) const SUBSCRIPTIONS: EntityId = EntityId([0x00, 0x00, 0x04, 0xc2]);

    /// The last octet of each. It says that the entity is a built-in writer of samples with keys (9.3.1.2 "Mapping of
    /// the EntityId_t").
    pub(crate) const KIND: u8 = 0xc2;
}

/// The beginning of a payload (DDSI-RTPS 2.5, 10 "Serialized Payload Representation").
pub(crate) mod representation {
    /// The size of a representation: its id, and two octets of options.
    pub(crate) const SIZE: usize = 4;
    /// The size of its id.
    pub(crate) const ID_SIZE: usize = 2;
    /// A parameter list whose numbers have the highest octet first.
    pub(crate) const PL_CDR_BE: [u8; 2] = [0x00, 0x02];
    /// A parameter list whose numbers have the lowest octet first.
    pub(crate) const PL_CDR_LE: [u8; 2] = [0x00, 0x03];
}

/// The ids of the parameters that are read (DDSI-RTPS 2.5, 9.6 "Mapping of the RTPS Protocol").
pub(crate) mod pid {
    pub(crate) const TOPIC_NAME: u16 = 0x0005;

    pub(crate) const TYPE_NAME: u16 = 0x0007;

    pub(crate) const RELIABILITY: u16 = 0x001a;

    pub(crate) const DURABILITY: u16 = 0x001d;

    pub(crate) const PARTICIPANT_GUID: u16 = 0x0050;

    pub(crate) const ENDPOINT_GUID: u16 = 0x005a;

    pub(crate) const KEY_HASH: u16 = 0x0070;

    pub(crate) const STATUS_INFO: u16 = 0x0071;
}

/// A status (DDSI-RTPS 2.5, 9.6.4.9 "StatusInfo_t (PID_STATUS_INFO)").
pub(crate) mod status {
    pub(crate) const SIZE: usize = 4;
    /// The place of the octet with the flags.
    pub(crate) const FLAGS: usize = 3;
    /// Its remainder by this is 0 where neither disposed (1) nor unregistered (2) is set.
    pub(crate) const ENDS: u8 = 4;
}

/// The kinds of reliability (DDSI-RTPS 2.5, 9.3.2 "Mapping of the Types that Appear Within Submessages or Built-in Topic
/// Data", "ReliabilityKind_t").
pub(crate) mod reliability {
    pub(crate) const BEST_EFFORT: u32 = 1;

    pub(crate) const RELIABLE: u32 = 2;
}

/// The kinds of durability, numbered in the order in which DDS has them (DDS 1.4, 2.2.3.4 "DURABILITY").
pub(crate) mod durability {
    pub(crate) const VOLATILE: u32 = 0;

    pub(crate) const TRANSIENT_LOCAL: u32 = 1;

    pub(crate) const TRANSIENT: u32 = 2;

    pub(crate) const PERSISTENT: u32 = 3;
}
