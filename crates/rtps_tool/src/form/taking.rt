ghost use Rattle.std.specs.Prelude.{[], ◌∷◌, ◌++◌, List, OnOk};
ghost use Rattle.rtps_capture.specs.Course as course;

use rtps_capture::Datagram;
use rtps_ids::Memory;

/// Is told the datagrams of a recording, one after another.
pub(crate) trait Take {
    /// From what it was at first, it was told these datagrams and is what it is.
    ghost has_taken: { Self → List course.DatagramValue → Self → Type 0 };

    /// Is told one datagram more, the next one. After `Memory` it is of no use.
    fn take(&mut self, datagram: &Datagram<'_>) -> Result<(), Memory>
        ensures { OnOk result ((start : Self) (before : List course.DatagramValue) → has_taken start before self.old
            → has_taken start (before ++ (record { octets = datagram.now.octets.now; time = datagram.now.time; frame = datagram.now.frame }) ∷ []) self.new) };
}
