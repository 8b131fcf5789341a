ghost use Rattle.std.specs.Prelude.{◌≡◌};
ghost use Rattle.rtps_evidence.specs.Spans as spans_spec;

use crate::listener::Listener;
use crate::span::Span;
use crate::times::Times;
use crate::way::Way;
use rtps_audit::Said;
use rtps_coverage::Stretch;
use rtps_discovery::Pair;
use rtps_ids::SeqNum;

/// Which numbers and which datagrams rows are by.
#[derive(Clone, Copy)]
pub struct Extent {
    /// The numbers from this one on.
    pub from: SeqNum,
    /// Each row is in the span of its pair; else all are by the whole recording.
    pub in_spans: bool,
}

/// What a pair said to each other in the datagrams that its row is by.
#[derive(Clone, Copy)]
pub(crate) struct Exchange<'s, 'a> {
    pub(crate) pair: Pair,
    /// The span of the pair, where rows are in spans, or else the whole recording.
    pub(crate) span: Span,
    pub(crate) in_spans: bool,
    pub(crate) said: Said<'s, 'a>,
    /// Which way round this recording and another one are for the pair.
    pub(crate) way: Option<Way>,
    /// Whether the pair is held against that.
    pub(crate) is_held: bool,
    /// The numbers of which the reader hears a payload in that; none where the pair is not held.
    pub(crate) there: &'s [Stretch],
    /// When the datagrams of the recording came.
    pub(crate) times: &'s Times,
}

impl<'s, 'a> Exchange<'s, 'a> {
    pub(crate) fn copied(&self) -> Exchange<'s, 'a>
        ensures { result ≡ self.now }
    {
        Exchange {
            pair: self.pair,
            ..*self
        }
    }

    /// The two, and where the reader is there.
    pub(crate) fn listener(&self) -> Listener
        ensures pair { result.pair ≡ self.now.pair }
        ensures since { result.since ≡ spans_spec.since_of self.now.span }
    {
        Listener {
            pair: self.pair,
            since: self.span.since(),
        }
    }
}
