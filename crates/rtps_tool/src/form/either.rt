ghost use Rattle.std.specs.Prelude.{◌≡◌, Ok, MatchResult};
ghost use Rattle.rtps_tool.specs.Outcomes as outcomes;
ghost use Rattle.rtps_tool.specs.Forms as forms_spec;
ghost use Rattle.rtps_capture.specs.declared.captures.Captures.TheVariants.{Classic};

use crate::faults::{RecFault, RunFault};
use crate::form::capture_blocks::read_capture;
use crate::form::hex_lines::read_text;
use crate::runs::Limits;
use crate::streams::FORM;
use rtps_capture::{Captures, capture_order, is_pcapng};
use rtps_report::Recording;
use std::alloc::Global;

/// Reads a recording in one of two forms, which the first four octets tell apart, within the usual limits
/// ([`Limits::usual`]).
///
/// A text has one datagram a line, in hexadecimal digits of either case. Lines end at LF, the last LF may lack, and one CR
/// at the end of a line is dropped. Empty lines and lines that begin with `#` are skipped. A capture is a file as
/// `tcpdump` writes it, whose frames are Ethernet frames or IP packets: the UDP datagrams of IPv4 that were sent in one
/// packet are the recording, and other frames are ignored.
///
/// An `Err` is the first fault of the input, or [`RecFault::Memory`], which may come before any other.
pub fn read_recording(alloc: Global, input: &[u8]) -> Result<Recording, RecFault>
    ensures { MatchResult result (λ recording. forms_spec.recording_of input.now ≡ Ok recording) (outcomes.IsFaultOf (forms_spec.recording_of input.now)) }
{
    read_recording_within(alloc, Limits::usual(), input)
}

/// Reads a recording within limits. One that has more octets or datagrams is refused as [`RecFault::TooMany`], octets
/// before any other fault. Else it is [`read_recording`]. [`crate::read_input`] reads other captures, too.
pub fn read_recording_within(
    alloc: Global,
    limits: Limits,
    input: &[u8],
) -> Result<Recording, RecFault>
    ensures { MatchResult result
        (λ recording. forms_spec.recording_within limits Classic input.now ≡ Ok recording)
        (outcomes.IsFaultOf (forms_spec.recording_within limits Classic input.now)) }
{
    if input.len() as u64 > limits.octets {
        return Err(RecFault::TooMany);
    }
    if input.len() < FORM {
        return read_text(alloc, limits.datagrams, input);
    }
    if !begins_capture(Captures::Classic, input) {
        return read_text(alloc, limits.datagrams, input);
    }
    let mut rest = &input[FORM..];
    match read_capture(alloc, limits, Captures::Classic, &mut rest, &input[..FORM]) {
        Ok(recording) => Ok(recording),
        Err(RunFault::Recording(fault)) => Err(fault),
        Err(_) => Err(RecFault::Memory),
    }
}

/// Whether an input begins as a capture does, of those that are read: its first four octets tell. What is no capture of these is
/// a text.
pub(crate) fn begins_capture(captures: Captures, octets: &[u8]) -> bool
    ensures { result ≡ forms_spec.begins_capture captures octets.now }
{
    match captures {
        Captures::Classic => capture_order(octets).is_some(),
        Captures::Any => capture_order(octets).is_some() || is_pcapng(octets),
    }
}
