use rtps_ids::{EntityId, GuidPrefix, NumberSet, Order, SeqNum, Stamp, Vendor, Version};
use rtps_params::ParamList;

/// What a DATA carries: nothing, a whole sample, or only the key of a sample (DDSI-RTPS 2.5, 9.4.5.4 "Data Submessage",
/// flags D and K).
#[derive(Clone, Copy, PartialEq, Eq, Debug)]
pub enum Payload<'a> {
    Absent,
    Whole(&'a [u8]),
    Key(&'a [u8]),
}

/// What a DATA says: a sample of a writer, or only its key (DDSI-RTPS 2.5, 8.3.8.2 "Data").
#[derive(Clone, Copy, PartialEq, Eq, Debug)]
pub struct DataBody<'a> {
    pub reader: EntityId,
    pub writer: EntityId,
    pub number: SeqNum,
    /// The parameters of this sample alone (DDSI-RTPS 2.5, 8.7.2 "DDS QoS Parameters").
    pub qos: Option<ParamList<'a>>,
    pub payload: Payload<'a>,
}

/// What a HEARTBEAT says: the writer has the numbers from `first` to `last`, or none if `last` is `first` - 1
/// (DDSI-RTPS 2.5, 8.3.8.6 "Heartbeat").
#[derive(Clone, Copy, PartialEq, Eq, Debug)]
pub struct HeartbeatBody {
    pub reader: EntityId,
    pub writer: EntityId,
    pub first: SeqNum,
    pub last: i64,
    /// own: read as a number without a sign. No verdict depends on it.
    pub count: u32,
    pub is_final: bool,
    pub live: bool,
}

/// What an ACKNACK says: the reader has all numbers below the base of the set, and asks for the numbers in the set
/// (DDSI-RTPS 2.5, 8.3.8.1 "AckNack").
#[derive(Clone, Copy, PartialEq, Eq, Debug)]
pub struct AckNackBody {
    pub reader: EntityId,
    pub writer: EntityId,
    pub set: NumberSet,
    /// own: read as a number without a sign. No verdict depends on it.
    pub count: u32,
    pub is_final: bool,
}

/// What a GAP says: these numbers will not come: those from `start` to below the base of `list`, and those in `list`
/// (DDSI-RTPS 2.5, 8.3.8.4 "Gap").
#[derive(Clone, Copy, PartialEq, Eq, Debug)]
pub struct GapBody {
    pub reader: EntityId,
    pub writer: EntityId,
    pub start: SeqNum,
    pub list: NumberSet,
}

/// What a submessage says.
#[derive(Clone, Copy, PartialEq, Eq, Debug)]
pub enum Body<'a> {
    Data(DataBody<'a>),
    Heartbeat(HeartbeatBody),
    AckNack(AckNackBody),
    Gap(GapBody),
    /// The time of the submessages that follow, or none (DDSI-RTPS 2.5, 8.3.8.11 "InfoTimestamp").
    InfoTs(Option<Stamp>),
    /// The destination of the submessages that follow (DDSI-RTPS 2.5, 8.3.8.8 "InfoDestination").
    InfoDst(GuidPrefix),
    /// The source of the submessages that follow (DDSI-RTPS 2.5, 8.3.8.10 "InfoSource").
    InfoSrc {
        version: Version,
        vendor: Vendor,
        prefix: GuidPrefix,
    },
    /// A submessage that is not read: PAD, INFO_REPLY, the kinds of fragments and of security, and unknown ids.
    Skipped {
        id: u8,
    },
}

/// One submessage of a datagram.
#[derive(Clone, Copy, PartialEq, Eq, Debug)]
pub struct Item<'a> {
    /// The place of its first octet in the datagram, from 0.
    pub at: usize,
    /// The order of the octets of its numbers.
    pub order: Order,
    pub body: Body<'a>,
}
