//! The layout of messages: ids, flags, sizes and offsets. The code that reads, the code that writes and the definitions
//! all use these names. Offsets count from 0 at the first octet of a header, or of the body of a submessage.

/// The header of a message (DDSI-RTPS 2.5, 9.4.4 "Mapping of the RTPS Header"). The body of an INFO_SRC has its
/// version, vendor id and prefix at the same offsets.
pub mod header {
    pub const SIZE: usize = 20;
    /// The first octets, from offset 0 on.
    pub const PROTOCOL: [u8; 4] = [b'R', b'T', b'P', b'S'];

    pub const MAJOR: usize = 4;

    pub const MINOR: usize = 5;

    pub const VENDOR: usize = 6;

    pub const PREFIX: usize = 8;
    /// The major version of the messages that are read.
    pub const VERSION: u8 = 2;
}

/// The header of a submessage (DDSI-RTPS 2.5, 9.4.5.1 "Submessage Header").
pub mod submessage {
    pub const SIZE: usize = 4;

    pub const ID: usize = 0;

    pub const FLAGS: usize = 1;

    pub const OCTETS_TO_NEXT: usize = 2;
    /// A submessage begins at a multiple of this many octets after the header of the message.
    pub const ALIGNMENT: u16 = 4;
    /// Flag E: numbers have the lowest octet first.
    pub const E: u8 = 1;
}

/// The ids of submessages (DDSI-RTPS 2.5, 9.4.5.1.1 "SubmessageId").
pub mod id {
    pub const PAD: u8 = 0x01;

    pub const ACKNACK: u8 = 0x06;

    pub const HEARTBEAT: u8 = 0x07;

    pub const GAP: u8 = 0x08;

    pub const INFO_TS: u8 = 0x09;

    pub const INFO_SRC: u8 = 0x0c;

    pub const INFO_DST: u8 = 0x0e;

    pub const NACK_FRAG: u8 = 0x12;

    pub const HEARTBEAT_FRAG: u8 = 0x13;

    pub const DATA: u8 = 0x15;

    pub const DATA_FRAG: u8 = 0x16;
}

/// ACKNACK (DDSI-RTPS 2.5, 9.4.5.3 "AckNack Submessage"). Its count comes after the set.
pub mod ack_nack {
    pub const READER: usize = 0;

    pub const WRITER: usize = 4;

    pub const SET: usize = 8;
    /// The size with a set that has no words.
    pub const LEAST: usize = 24;
    /// Flag F.
    pub const FINAL: u8 = 2;
}

/// DATA (DDSI-RTPS 2.5, 9.4.5.4 "Data Submessage").
pub mod data {
    pub const OCTETS_TO_QOS: usize = 2;
    /// The offset from which octetsToInlineQos counts.
    pub const QOS_FROM: usize = 4;

    pub const READER: usize = 4;

    pub const WRITER: usize = 8;

    pub const NUMBER: usize = 12;
    /// The size of the fields.
    pub const SIZE: usize = 20;
    /// Flag Q: there is an inline QoS.
    pub const Q: u8 = 0x02;
    /// Flag D: the payload is data.
    pub const D: u8 = 0x04;
    /// Flag K: the payload is a key.
    pub const K: u8 = 0x08;
    /// Flag N: the payload is in no standard representation.
    pub const N: u8 = 0x10;
}

/// DATA_FRAG (DDSI-RTPS 2.5, 9.4.5.5 "DataFrag Submessage"). octetsToInlineQos and flag Q are as in a DATA.
pub mod data_frag {
    pub const READER: usize = 4;

    pub const WRITER: usize = 8;

    pub const NUMBER: usize = 12;
    /// The offset of the number of the first fragment.
    pub const FIRST: usize = 20;
    /// The offset of how many fragments there are.
    pub const COUNT: usize = 24;
    /// The offset of the size of a fragment.
    pub const FRAGMENT: usize = 26;
    /// The offset of the size of the sample.
    pub const SAMPLE: usize = 28;
    /// The size of the fields.
    pub const SIZE: usize = 32;
    /// Flag K: the sample is a key.
    pub const K: u8 = 0x04;
}

/// NACK_FRAG (DDSI-RTPS 2.5, 9.4.5.14 "NackFrag Submessage"). Its count comes after the words of its set.
pub mod nack_frag {
    pub const READER: usize = 0;

    pub const WRITER: usize = 4;

    pub const NUMBER: usize = 8;
    /// The offset of the base of the set of fragment numbers.
    pub const BASE: usize = 16;
    /// The offset of how many bits the set has.
    pub const BITS: usize = 20;
    /// The offset of the words of the set.
    pub const WORDS: usize = 24;
}

/// GAP (DDSI-RTPS 2.5, 9.4.5.6 "Gap Submessage").
pub mod gap {
    pub const READER: usize = 0;

    pub const WRITER: usize = 4;

    pub const START: usize = 8;

    pub const LIST: usize = 16;
    /// The size with a list that has no words.
    pub const LEAST: usize = 28;
}

/// HEARTBEAT (DDSI-RTPS 2.5, 9.4.5.7 "Heartbeat Submessage").
pub mod heartbeat {
    pub const READER: usize = 0;

    pub const WRITER: usize = 4;

    pub const FIRST: usize = 8;

    pub const LAST: usize = 16;

    pub const COUNT: usize = 24;

    pub const SIZE: usize = 28;
    /// Flag F.
    pub const FINAL: u8 = 2;
    /// Flag L.
    pub const LIVELINESS: u8 = 4;
}

/// INFO_TS (DDSI-RTPS 2.5, 9.4.5.12 "InfoTimestamp Submessage").
pub mod info_ts {
    pub const SECONDS: usize = 0;

    pub const FRACTION: usize = 4;

    pub const SIZE: usize = 8;
    /// Flag I: there is no time.
    pub const INVALIDATE: u8 = 2;
}

/// INFO_DST (DDSI-RTPS 2.5, 9.4.5.9 "InfoDestination Submessage").
pub mod info_dst {
    pub const PREFIX: usize = 0;

    pub const SIZE: usize = 12;
}
