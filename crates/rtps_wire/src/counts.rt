ghost use Rattle.std.specs.Prelude.{◌≡◌};
ghost use Rattle.rtps_wire.specs.Values as values;

use crate::body::Body;
use crate::layout::id;

/// What is counted of one datagram.
#[derive(Clone, Copy, PartialEq, Eq, Debug)]
pub struct Tally {
    /// Whether it is malformed: its header, or a submessage, is refused.
    pub refused: bool,
    /// How many of its items are skipped and are no fragments. A PAD counts too.
    pub skipped: u64,
    /// How many of its items are NACK_FRAG, HEARTBEAT_FRAG or DATA_FRAG.
    pub fragments: u64,
}

impl<'a> Body<'a> {
    ghost use Rattle.rtps_wire.specs.Tally as tally;

    /// Whether it is a NACK_FRAG, HEARTBEAT_FRAG or DATA_FRAG, which are skipped and counted apart (DDSI-RTPS 2.5,
    /// 9.4.5.1.1 "SubmessageId").
    #[inline(always)]
    pub fn is_fragment(&self) -> bool
        ensures { result ≡ tally.is_fragment (values.body_value self.now) }
    {
        match self {
            Body::Skipped {
                id: id::NACK_FRAG | id::HEARTBEAT_FRAG | id::DATA_FRAG,
            } => true,
            _ => false,
        }
    }

    /// Whether it is skipped and is no fragment. A PAD is such an item.
    #[inline(always)]
    pub fn is_skipped(&self) -> bool
        ensures { result ≡ tally.is_skipped (values.body_value self.now) }
    {
        match self {
            Body::Skipped { .. } => !self.is_fragment(),
            _ => false,
        }
    }
}
