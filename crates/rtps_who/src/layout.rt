//! The ids, sizes and octets of what is read of processes and of nodes. The code that reads and the definitions use these names.

/// The ids of the parameters that are read (DDSI-RTPS 2.5, 9.6.3; DDS Security 1.1, 7.3.1 "PROPERTY_LIST").
pub(crate) mod pid {
    pub(crate) const USER_DATA: u16 = 0x002c;

    pub(crate) const PROPERTY_LIST: u16 = 0x0059;

    pub(crate) const ENTITY_NAME: u16 = 0x0062;
}

/// The beginning of a payload (DDSI-RTPS 2.5, 10 "Serialized Payload Representation").
pub(crate) mod header {
    /// The size of a representation: its id, and two octets of options.
    pub(crate) const SIZE: usize = 4;
    /// The size of its id.
    pub(crate) const ID_SIZE: usize = 2;
    /// A value whose numbers have the highest octet first.
    pub(crate) const CDR_BE: [u8; 2] = [0x00, 0x00];
    /// A value whose numbers have the lowest octet first.
    pub(crate) const CDR_LE: [u8; 2] = [0x00, 0x01];
}

/// A list of texts or of gids: a count, and then the items (DDSI-RTPS 2.5, 10.2 "RTPS Serialized Payload").
pub(crate) mod sequence {
    /// The size of the count.
    pub(crate) const COUNT_SIZE: usize = 4;
    /// The size of the length of a text.
    pub(crate) const LENGTH_SIZE: usize = 4;
    /// Each text begins at a multiple of this.
    pub(crate) const ALIGNMENT: usize = 4;
}

/// What ROS 2 calls an endpoint by: its GUID, and in the wider form zeros behind it.
pub(crate) mod gid {
    /// The size of a GUID.
    pub(crate) const GUID_SIZE: usize = 16;
    /// The size of the wider form.
    pub(crate) const WIDE_SIZE: usize = 24;
    /// How many octets a sample with gids of the wider form has at least.
    pub(crate) const WIDE_ROOM: usize = 28;
    /// What is behind the GUID in the wider form.
    pub(crate) const ZEROS: [u8; 8] = [0; 8];
    /// How many octets at most may be behind the last node.
    pub(crate) const PADDING: usize = 3;
}

/// Octets that part texts.
pub(crate) mod mark {
    /// What the host ends at.
    pub(crate) const COLON: u8 = b':';
    /// What each part of the user data ends with.
    pub(crate) const SEMICOLON: u8 = b';';
    /// What a namespace ends with.
    pub(crate) const SLASH: u8 = b'/';
    /// The least decimal digit.
    pub(crate) const ZERO: u8 = b'0';
    /// The greatest one.
    pub(crate) const NINE: u8 = b'9';
}
