//! The ids and the sizes of what is read of announcements, the vendors for which two lives are told, and how soon a participant is told. The code
//! and the definitions use these names.

/// Built-in entities (DDSI-RTPS 2.5, 9.3.1.3 "Predefined EntityIds").
pub(crate) mod entity {
    use rtps_ids::EntityId;

    /// The writer that announces participants.
    pub(crate) const PARTICIPANTS: EntityId = EntityId([0x00, 0x01, 0x00, 0xc2]);

    /// The writer that announces writers.
    pub(crate) const PUBLICATIONS: EntityId = EntityId([0x00, 0x00, 0x03, 0xc2]);

    /// Its reader.
    pub(crate) const PUBLICATIONS_READER: EntityId = EntityId([0x00, 0x00, 0x03, 0xc7]);

    /// The writer that announces readers.
    pub(crate) const SUBSCRIPTIONS: EntityId = EntityId([0x00, 0x00, 0x04, 0xc2]);

    /// Its reader.
    pub(crate) const SUBSCRIPTIONS_READER: EntityId = EntityId([0x00, 0x00, 0x04, 0xc7]);
}

/// The status of a sample (DDSI-RTPS 2.5, 9.6.4.9 "StatusInfo_t (PID_STATUS_INFO)").
pub(crate) mod status {
    /// The id of the parameter.
    pub(crate) const PID: u16 = 0x0071;

    pub(crate) const SIZE: usize = 4;
    /// The place of the octet with the flags.
    pub(crate) const FLAGS: usize = 3;
    /// Its remainder by this is 0 where neither disposed (1) nor unregistered (2) is set.
    pub(crate) const ENDS: u8 = 4;
}

/// The vendors whose stacks repeat the source time of a number: there it was tried that two source times are two lives.
pub(crate) mod vendor {
    use rtps_ids::Vendor;

    pub(crate) const CYCLONE: Vendor = Vendor([0x01, 0x10]);

    pub(crate) const FAST: Vendor = Vendor([0x01, 0x0f]);
}

/// What is told so long before somebody is gone counts: a second, in nanoseconds.
pub(crate) const GRACE: u64 = 1_000_000_000;

/// A clock fits that is no further away than this: 0.1 s, in nanoseconds.
pub(crate) const NEAR: u64 = 100_000_000;

/// All numbers are below this one.
pub(crate) const END: u64 = 0x8000_0000_0000_0000;
