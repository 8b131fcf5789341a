ghost use Rattle.std.specs.Prelude.{◌≡◌, if◌then◌else◌, None, Some};
ghost use Rattle.std.specs.Option.{option_map};
ghost use Rattle.rtps_receiver.specs.Acts as acts;
ghost use Rattle.rtps_receiver.specs.Destination as destination;
ghost use Rattle.rtps_receiver.specs.Values as values;
ghost use Rattle.rtps_wire.specs.Values as wire_values;

use crate::act::{Act, ActBody};
use crate::spoken::{Spoken, SpokenBody};
use rtps_ids::{GuidPrefix, Stamp};
use rtps_wire::{Body, DataBody, Header, Item};

/// The receiver's state at a place of a message: the source, the destination (None is everyone) and the time of what
/// follows.
#[derive(Clone, Copy, Debug)]
pub struct State {
    pub source: Header,
    pub dest: Option<GuidPrefix>,
    pub stamp: Option<Stamp>,
}

impl State {
    ghost use Rattle.std.specs.Prelude.{◌≡◌, [], ◌∷◌, MatchOption, None};

    /// The state at the start of a message.
    pub fn at_start(header: Header) -> State
        ensures { result ≡ acts.state_at_start header }
    {
        State {
            source: header,
            dest: None,
            stamp: None,
        }
    }

    /// The act that this item is in this state, or None if it is no act.
    #[inline(always)]
    pub fn act<'a>(&self, item: &Item<'a>) -> Option<Act<'a>>
        ensures { MatchOption result (acts.act_body (wire_values.item_value item.now).body ≡ None) (λ act. acts.IsActIn self.now (wire_values.item_value item.now) (values.act_value act)) }
    {
        let Some(body) = body_of_act(&item.body) else {
            return None;
        };
        Some(Act {
            at: item.at,
            source: self.source.prefix,
            version: self.source.version,
            vendor: self.source.vendor,
            dest: self.dest,
            stamp: self.stamp,
            order: item.order,
            body,
        })
    }

    /// The act that this item is in this state, as what a walk hands on, or None if it is no act.
    #[inline(always)]
    pub fn spoken<'a>(&self, item: &Item<'a>) -> Option<Spoken<'a>>
        ensures { MatchOption result (acts.act_body (wire_values.item_value item.now).body ≡ None) (λ act. acts.IsActIn self.now (wire_values.item_value item.now) (values.spoken_value act)) }
    {
        let Some(body) = body_of_act(&item.body) else {
            return None;
        };
        Some(Spoken {
            at: item.at,
            source: self.source.prefix,
            version: self.source.version,
            vendor: self.source.vendor,
            dest: self.dest,
            stamp: self.stamp,
            order: item.order,
            body: SpokenBody::Act(body),
        })
    }

    /// Changes the state as this item says.
    #[inline(always)]
    pub fn interpret(&mut self, item: &Item<'_>)
        ensures { self.new ≡ acts.state_behind self.old (wire_values.item_value item.now ∷ []) }
    {
        match &item.body {
            Body::InfoTs(stamp) => self.stamp = *stamp,
            Body::InfoDst(prefix) => self.dest = destination(*prefix),
            Body::InfoSrc {
                version,
                vendor,
                prefix,
            } => {
                self.source = Header {
                    version: *version,
                    vendor: *vendor,
                    prefix: *prefix,
                };
                self.stamp = None;
            }
            _ => {}
        }
    }
}

/// The body of an act, or None if a submessage with this body is no act.
#[inline(always)]
fn body_of_act<'a>(body: &Body<'a>) -> Option<ActBody<'a>>
    ensures { option_map values.act_body_value result ≡ acts.act_body (wire_values.body_value body.now) }
{
    match body {
        Body::Data(data) => Some(ActBody::Data(DataBody {
            reader: data.reader,
            writer: data.writer,
            number: data.number,
            qos: data.qos,
            payload: data.payload,
        })),
        Body::Heartbeat(heartbeat) => Some(ActBody::Heartbeat(*heartbeat)),
        Body::AckNack(ack_nack) => Some(ActBody::AckNack(*ack_nack)),
        Body::Gap(gap) => Some(ActBody::Gap(*gap)),
        _ => None,
    }
}

/// The participant that this prefix names. None, which is everyone, if all its octets are zero.
fn destination(prefix: GuidPrefix) -> Option<GuidPrefix>
    ensures { result ≡ (if destination.is_unknown prefix then None else Some prefix) }
{
    if prefix.0.iter().all(|octet| *octet == 0) {
        None
    } else {
        Some(prefix)
    }
}
