ghost use Rattle.std.specs.Prelude.{◌≡◌, true};

use rtps_evidence::Extent;
use rtps_ids::SeqNum;

/// What is asked of a report: by which numbers, of which topics, and when its run ends clean.
#[derive(Clone, Copy)]
pub struct Asked<'a> {
    /// The number from which on is asked: smaller numbers are not asked for.
    pub from: SeqNum,
    /// Patterns, in which `*` stands for any octets: the name of the topic of a row fits one of them, or the name that ROS 2 gives
    /// it. All topics where there is none.
    pub topics: &'a [String],
    /// Patterns of the same form: the node of the writer or of the reader of a row fits one of them. All pairs where there is none.
    pub nodes: &'a [String],
    /// How many rows it has to have, or more; None where any number will do.
    pub expect: Option<u64>,
    /// The most numbers that the tail of a clean row may have, of a reader that did not leave.
    pub tail: u64,
    /// Whether each number of a row also has to be received for certain.
    pub certain: bool,
}

impl Asked<'_> {
    /// Which numbers and which datagrams rows are by: each is in the span of its pair.
    pub(crate) fn extent(&self) -> Extent
        ensures { result ≡ record { from = self.now.from; in_spans = true } }
    {
        Extent {
            from: self.from,
            in_spans: true,
        }
    }

    /// The number from which on is asked.
    pub fn first_asked(&self) -> u64
        ensures { result ≡ self.now.from }
    {
        self.from.get().cast_unsigned()
    }
}
