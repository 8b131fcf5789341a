use crate::act::{Act, ActBody};
use crate::spoken::{FragmentBody, Spoken, SpokenBody};
use rtps_ids::{EntityId, Guid, GuidPrefix};

/// The entity id that names every reader (DDSI-RTPS 2.5, 9.3.1.2 "Mapping of the EntityId_t").
pub const EVERY_READER: EntityId = EntityId([0; 4]);

/// The readers that an act of a writer is sent to: of everyone or of one participant, every reader or one (DDSI-RTPS
/// 2.5, 8.3.4 "The RTPS Message Receiver"). Audiences are ordered by destination, everyone first, and then by the
/// reader, octet by octet.
#[derive(Clone, Copy, PartialEq, Eq, PartialOrd, Ord, Debug)]
pub struct Audience {
    /// The participant, or None for everyone.
    pub dest: Option<GuidPrefix>,
    /// The reader that is named; [`EVERY_READER`] names all.
    pub reader: EntityId,
}

impl Audience {
    ghost use Rattle.std.specs.Prelude.{◌≡◌, Some};
    ghost use Rattle.rtps_receiver.specs.Speech as speech;

    /// Whether this reader is among them: the destination is everyone or the reader's participant, and the reader that
    /// is named is this one, or none is.
    #[inline]
    pub fn has(&self, reader: Guid) -> bool
        ensures { result ≡ speech.is_among self.now.dest (Some self.now.reader) reader }
    {
        let for_it = match self.dest {
            None => true,
            Some(prefix) => prefix == reader.prefix,
        };
        for_it && (self.reader == EVERY_READER || self.reader == reader.entity)
    }
}

impl<'a> ActBody<'a> {
    ghost use Rattle.std.specs.Prelude.{◌≡◌};
    ghost use Rattle.rtps_receiver.specs.Speech as speech;
    ghost use Rattle.rtps_receiver.specs.Values as values;

    /// The entity that it is from.
    fn entity_from(&self) -> EntityId
        ensures { result ≡ speech.entity_from (values.act_body_value self.now) }
    {
        match self {
            ActBody::Data(data) => data.writer,
            ActBody::Heartbeat(heartbeat) => heartbeat.writer,
            ActBody::Gap(gap) => gap.writer,
            ActBody::AckNack(ack_nack) => ack_nack.reader,
        }
    }

    /// The writer that it names, unless it is an ACKNACK.
    fn writer_named(&self) -> Option<EntityId>
        ensures { result ≡ speech.writer_named (values.act_body_value self.now) }
    {
        match self {
            ActBody::Data(data) => Some(data.writer),
            ActBody::Heartbeat(heartbeat) => Some(heartbeat.writer),
            ActBody::Gap(gap) => Some(gap.writer),
            ActBody::AckNack(_) => None,
        }
    }

    /// The reader that it names, unless it is an ACKNACK.
    fn reader_named(&self) -> Option<EntityId>
        ensures { result ≡ speech.reader_named (values.act_body_value self.now) }
    {
        match self {
            ActBody::Data(data) => Some(data.reader),
            ActBody::Heartbeat(heartbeat) => Some(heartbeat.reader),
            ActBody::Gap(gap) => Some(gap.reader),
            ActBody::AckNack(_) => None,
        }
    }
}

impl<'a> SpokenBody<'a> {
    ghost use Rattle.std.specs.Prelude.{◌≡◌};
    ghost use Rattle.rtps_receiver.specs.Speech as speech;
    ghost use Rattle.rtps_receiver.specs.Values as values;

    /// The same once more.
    fn copied(&self) -> SpokenBody<'a>
        ensures { values.spoken_body_value result ≡ values.spoken_body_value self.now }
    {
        match self {
            SpokenBody::Act(body) => SpokenBody::Act(body.copied()),
            SpokenBody::DataFrag(fragment) => SpokenBody::DataFrag(FragmentBody {
                reader: fragment.reader,
                writer: fragment.writer,
                number: fragment.number,
                sent: fragment.sent,
                told: fragment.told,
            }),
            SpokenBody::NackFrag(nack_frag) => SpokenBody::NackFrag(*nack_frag),
        }
    }

    /// The entity that it is from.
    fn entity_from(&self) -> EntityId
        ensures { result ≡ speech.entity_from (values.spoken_body_value self.now) }
    {
        match self {
            SpokenBody::Act(body) => body.entity_from(),
            SpokenBody::DataFrag(fragment) => fragment.writer,
            SpokenBody::NackFrag(nack_frag) => nack_frag.reader,
        }
    }

    /// The writer that it names, unless it is an ACKNACK or a NACK_FRAG.
    fn writer_named(&self) -> Option<EntityId>
        ensures { result ≡ speech.writer_named (values.spoken_body_value self.now) }
    {
        match self {
            SpokenBody::Act(body) => body.writer_named(),
            SpokenBody::DataFrag(fragment) => Some(fragment.writer),
            SpokenBody::NackFrag(_) => None,
        }
    }

    /// The reader that it names, unless it is an ACKNACK or a NACK_FRAG.
    fn reader_named(&self) -> Option<EntityId>
        ensures { result ≡ speech.reader_named (values.spoken_body_value self.now) }
    {
        match self {
            SpokenBody::Act(body) => body.reader_named(),
            SpokenBody::DataFrag(fragment) => Some(fragment.reader),
            SpokenBody::NackFrag(_) => None,
        }
    }

    /// Whether it is an ACKNACK or a NACK_FRAG that names these two.
    fn asks_pair(&self, reader: EntityId, writer: EntityId) -> bool
        ensures { result ≡ speech.asks_pair (values.spoken_body_value self.now) reader writer }
    {
        match self {
            SpokenBody::Act(ActBody::AckNack(ack_nack)) => {
                ack_nack.reader == reader && ack_nack.writer == writer
            }
            SpokenBody::NackFrag(nack_frag) => {
                nack_frag.reader == reader && nack_frag.writer == writer
            }
            _ => false,
        }
    }
}

impl<'a> Act<'a> {
    ghost use Rattle.std.specs.Prelude.{◌↔◌, ◌≡◌, IsTrue, Some};
    ghost use Rattle.rtps_ids.specs.declared.identity.Guid.{Guid as GuidValue};
    ghost use Rattle.rtps_receiver.specs.Audience as audience;
    ghost use Rattle.rtps_receiver.specs.Speech as speech;
    ghost use Rattle.rtps_receiver.specs.Values as values;

    /// The GUID that it is from: its source, and the reader that an ACKNACK names, or the writer that any other act names.
    pub fn origin(&self) -> Guid
        ensures { result ≡ speech.origin_of (values.act_value self.now) }
    {
        Guid {
            prefix: self.source,
            entity: self.body.entity_from(),
        }
    }

    /// Whether this writer sent it: an act from its participant that names it as the writer. False for an ACKNACK.
    pub fn spoken_by(&self, writer: Guid) -> bool
        ensures relation { IsTrue result ↔ speech.IsSpokenBy (values.act_value self.now) writer }
        ensures test { result ≡ speech.is_spoken_by (values.act_value self.now) writer }
    {
        self.source == writer.prefix && self.body.writer_named() == Some(writer.entity)
    }

    /// Whether it is sent to this reader: an act to everyone or to its participant that names this reader or every reader.
    /// False for an ACKNACK. It does not say whether the reader received it.
    pub fn heard_by(&self, reader: Guid) -> bool
        ensures relation { IsTrue result ↔ speech.IsHeardBy (values.act_value self.now) reader }
        ensures test { result ≡ speech.is_heard_by (values.act_value self.now) reader }
    {
        match self.audience() {
            Some(audience) => audience.has(reader),
            None => false,
        }
    }

    /// The readers that an act of a writer is sent to. None for an ACKNACK.
    pub fn audience(&self) -> Option<Audience>
        ensures { result ≡ audience.audience_of (values.act_value self.now) }
    {
        Some(Audience {
            dest: self.dest,
            reader: self.body.reader_named()?,
        })
    }

    /// Whether it is an ACKNACK of this reader that answers this writer: its destination is the writer's participant. False
    /// for any other act, and for an ACKNACK to everyone.
    pub fn answers(&self, reader: Guid, writer: Guid) -> bool
        ensures relation { IsTrue result ↔ speech.IsAnswer (values.act_value self.now) reader writer }
        ensures test { result ≡ speech.is_answer (values.act_value self.now) reader writer }
    {
        self.origin() == reader && self.answered() == Some(writer)
    }

    /// The writer that it answers: the writer that an ACKNACK names, of the participant that is its destination. None for any
    /// other act, and for an ACKNACK to everyone. The answer is that of its origin.
    pub fn answered(&self) -> Option<Guid>
        ensures relation { (reader writer : GuidValue)
            → speech.IsAnswer (values.act_value self.now) reader writer ↔ ((speech.origin_of (values.act_value self.now) ≡ reader) × (result ≡ Some writer)) }
        ensures value { result ≡ speech.writer_answered (values.act_value self.now) }
    {
        let ActBody::AckNack(ack_nack) = &self.body else {
            return None;
        };
        Some(Guid {
            prefix: self.dest?,
            entity: ack_nack.writer,
        })
    }
}

impl<'a> Spoken<'a> {
    ghost use Rattle.std.specs.Prelude.{◌↔◌, ◌≡◌, IsTrue, Some};
    ghost use Rattle.rtps_ids.specs.declared.identity.Guid.{Guid as GuidValue};
    ghost use Rattle.rtps_receiver.specs.Audience as audience;
    ghost use Rattle.rtps_receiver.specs.Speech as speech;
    ghost use Rattle.rtps_receiver.specs.Values as values;

    /// The same once more.
    pub fn copied(&self) -> Spoken<'a>
        ensures { values.spoken_value result ≡ values.spoken_value self.now }
    {
        Spoken {
            at: self.at,
            source: self.source,
            version: self.version,
            vendor: self.vendor,
            dest: self.dest,
            stamp: self.stamp,
            order: self.order,
            body: self.body.copied(),
        }
    }

    /// The GUID that it is from: its source, and the reader that an ACKNACK or a NACK_FRAG names, or the writer that any other act names.
    pub fn origin(&self) -> Guid
        ensures { result ≡ speech.origin_of (values.spoken_value self.now) }
    {
        Guid {
            prefix: self.source,
            entity: self.body.entity_from(),
        }
    }

    /// Whether this writer sent it: an act from its participant that names it as the writer. False for an ACKNACK or a NACK_FRAG.
    pub fn spoken_by(&self, writer: Guid) -> bool
        ensures relation { IsTrue result ↔ speech.IsSpokenBy (values.spoken_value self.now) writer }
        ensures test { result ≡ speech.is_spoken_by (values.spoken_value self.now) writer }
    {
        self.source == writer.prefix && self.body.writer_named() == Some(writer.entity)
    }

    /// Whether it is sent to this reader: an act to everyone or to its participant that names this reader or every reader.
    /// False for an ACKNACK or a NACK_FRAG. It does not say whether the reader received it.
    pub fn heard_by(&self, reader: Guid) -> bool
        ensures relation { IsTrue result ↔ speech.IsHeardBy (values.spoken_value self.now) reader }
        ensures test { result ≡ speech.is_heard_by (values.spoken_value self.now) reader }
    {
        match self.audience() {
            Some(audience) => audience.has(reader),
            None => false,
        }
    }

    /// The readers that an act of a writer is sent to. None for an ACKNACK or a NACK_FRAG.
    pub fn audience(&self) -> Option<Audience>
        ensures { result ≡ audience.audience_of (values.spoken_value self.now) }
    {
        Some(Audience {
            dest: self.dest,
            reader: self.body.reader_named()?,
        })
    }

    /// Whether it is an ACKNACK of this reader that answers this writer: its destination is the writer's participant. False
    /// for any other act, and for an ACKNACK to everyone.
    pub fn answers(&self, reader: Guid, writer: Guid) -> bool
        ensures relation { IsTrue result ↔ speech.IsAnswer (values.spoken_value self.now) reader writer }
        ensures test { result ≡ speech.is_answer (values.spoken_value self.now) reader writer }
    {
        self.answered() == Some(writer) && self.origin() == reader
    }

    /// The writer that it answers: the writer that an ACKNACK names, of the participant that is its destination. None for any
    /// other act, and for an ACKNACK to everyone. The answer is that of its origin.
    pub fn answered(&self) -> Option<Guid>
        ensures relation { (reader writer : GuidValue)
            → speech.IsAnswer (values.spoken_value self.now) reader writer ↔ ((speech.origin_of (values.spoken_value self.now) ≡ reader) × (result ≡ Some writer)) }
        ensures value { result ≡ speech.writer_answered (values.spoken_value self.now) }
    {
        let SpokenBody::Act(ActBody::AckNack(ack_nack)) = &self.body else {
            return None;
        };
        Some(Guid {
            prefix: self.dest?,
            entity: ack_nack.writer,
        })
    }

    /// Whether it is a request of this reader to this writer: an ACKNACK or a NACK_FRAG of the reader, whose destination is
    /// the writer's participant. False for any other act, and for one to everyone.
    pub fn asks(&self, reader: Guid, writer: Guid) -> bool
        ensures relation { IsTrue result ↔ speech.IsRequest (values.spoken_value self.now) reader writer }
        ensures test { result ≡ speech.is_request (values.spoken_value self.now) reader writer }
    {
        self.source == reader.prefix
            && self.dest == Some(writer.prefix)
            && self.body.asks_pair(reader.entity, writer.entity)
    }
}
