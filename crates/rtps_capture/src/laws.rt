//! Laws of the definitions, as contracts of functions that do nothing.

ghost use Rattle.rtps_capture.specs.Agreement as agreement;
ghost use Rattle.rtps_capture.specs.Capture as capture;
ghost use Rattle.rtps_capture.specs.Forgetting as forgetting;
ghost use Rattle.rtps_capture.specs.Frames as frames;
ghost use Rattle.rtps_capture.specs.Layout as layout;
ghost use Rattle.rtps_capture.specs.Sent as sent;

/// A file has one list of frames: from each place on, what its records and blocks give step by step is decided by its octets, and it is
/// what [`crate::CaptureReader`] reads. What a step gives is `specs/Records.antt` and `specs/Blocks.antt`.
pub fn one_reading()
    ensures { frames.HasOneReading }
{}

/// The start that [`crate::CaptureReader`] gives is the first time among those of all frames of the file, whatever they carry.
pub fn start_is_first_time()
    ensures { capture.StartIsFirstTime }
{}

/// The end that it gives is the greatest time among those of all frames of the file, whatever they carry.
pub fn end_is_greatest_time()
    ensures { capture.EndIsGreatestTime }
{}

/// Each datagram that [`crate::CaptureReader`] gives was carried by a packet whose octets stand in the capture: whole in one frame, or
/// in fragments of one key that go on from 0 without a gap to one with no more behind it, with a right checksum.
pub fn each_was_carried()
    ensures { sent.EachWasCarried }
{}

/// Packets are put together, step by step: where the fragments of one packet come one after another for their key, which is not forgotten
/// between them, each has an octet, none of them clashes with another or equals one that waits, and they have a right checksum, the last of
/// them gives its datagram, whatever waited before, unless one of them gave another.
pub fn each_packet_is_given()
    ensures { sent.EachPacketIsGiven }
{}

/// Of the packets in pieces that a host sends to another, [`crate::CaptureReader`] remembers those that came and behind whose last piece
/// stand pieces of fewer than 64 others: no more than 64, however long the file is.
pub fn keys_are_forgotten()
    ensures { forgetting.KeysAreForgotten }
{}

/// What [`crate::CaptureReader`] tells of a file, datagram by datagram, is what is told of all of it at once: the same datagrams in
/// their order, with their times and frames, and the same numbers, or the same fault.
pub fn course_is_told()
    ensures { agreement.CourseIsTold }
{}

/// The numbers, sizes and places that readers and definitions name are those of the standards.
pub fn layout_is_that_of_the_standards()
    ensures { layout.LayoutIsStandard }
{}
