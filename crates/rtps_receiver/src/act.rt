ghost use Rattle.std.specs.Prelude.{◌≡◌};
ghost use Rattle.rtps_receiver.specs.Values as values;

use crate::spoken::{Spoken, SpokenBody};
use rtps_ids::{GuidPrefix, Order, Stamp, Vendor, Version};
use rtps_wire::{AckNackBody, DataBody, GapBody, HeartbeatBody};

/// What an act says.
#[derive(Clone, Copy, PartialEq, Eq, Debug)]
pub enum ActBody<'a> {
    Data(DataBody<'a>),
    Heartbeat(HeartbeatBody),
    AckNack(AckNackBody),
    Gap(GapBody),
}

/// A DATA, HEARTBEAT, ACKNACK or GAP with the receiver's state at its place (DDSI-RTPS 2.5, 8.3.4 "The RTPS Message
/// Receiver").
#[derive(Clone, Copy, PartialEq, Eq, Debug)]
pub struct Act<'a> {
    /// The place of its first octet in the datagram, from 0.
    pub at: usize,
    /// The participant that it is from.
    pub source: GuidPrefix,
    /// The version of the protocol that its source uses.
    pub version: Version,
    /// The vendor of its source.
    pub vendor: Vendor,
    /// The participant that it is sent to, or None for everyone.
    pub dest: Option<GuidPrefix>,
    /// When it was sent, if its source says so.
    pub stamp: Option<Stamp>,
    /// The order of the octets of its numbers.
    pub order: Order,
    pub body: ActBody<'a>,
}

impl<'a> ActBody<'a> {
    /// The same once more.
    pub fn copied(&self) -> ActBody<'a>
        ensures { values.act_body_value result ≡ values.act_body_value self.now }
    {
        match self {
            ActBody::Data(data) => ActBody::Data(DataBody {
                reader: data.reader,
                writer: data.writer,
                number: data.number,
                qos: data.qos,
                payload: data.payload,
            }),
            ActBody::Heartbeat(heartbeat) => ActBody::Heartbeat(*heartbeat),
            ActBody::AckNack(ack_nack) => ActBody::AckNack(*ack_nack),
            ActBody::Gap(gap) => ActBody::Gap(*gap),
        }
    }
}

impl<'a> Act<'a> {
    /// The act as one of all that a walk hands on.
    pub fn spoken(&self) -> Spoken<'a>
        ensures { values.spoken_value result ≡ values.act_value self.now }
    {
        Spoken {
            at: self.at,
            source: self.source,
            version: self.version,
            vendor: self.vendor,
            dest: self.dest,
            stamp: self.stamp,
            order: self.order,
            body: SpokenBody::Act(self.body.copied()),
        }
    }
}
