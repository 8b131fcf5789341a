ghost use Rattle.std.specs.Prelude.{◌≡◌, ◌<◌, ◌^◌};
ghost use Rattle.rtps_capture.specs.Course as course;

use rtps_capture::Summary;

/// A capture whose datagrams were all read.
#[derive(Clone, Copy)]
pub(crate) struct WholeCapture {
    /// What is told of its frames.
    pub(crate) summary: Summary,
    /// How many octets it has.
    pub(crate) octets: u64,
    ghost few: { course.ignored_of summary < 2 ^ 64 },
}

impl WholeCapture {
    /// How many frames gave no datagram.
    pub(crate) fn ignored(&self) -> u64
        ensures { result ≡ course.ignored_of self.now.summary }
    {
        let summary = self.summary;
        summary.pieces + summary.cut + summary.other + summary.links
    }
}
