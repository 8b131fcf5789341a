ghost use Rattle.std.specs.Prelude.{◌≡◌, ◌<◌, ◌^◌, [], IfOk, OnOk};
ghost use Rattle.rtps_capture.specs.Course as course;
ghost use Rattle.rtps_tool.specs.Collected as collected_spec;
ghost use Rattle.rtps_tool.specs.RecordingCapture as recording_capture;

use crate::form::taking::Take;
use rtps_capture::{Captures, Datagram, Summary};
use rtps_ids::Memory;
use rtps_report::{DatagramSpan, Links, Reasons, Recording, Times, make_room, push_octets};
use std::alloc::Global;
use std::marker::Model;

/// The datagrams of a capture that came so far, when each came, and the numbers of their frames.
#[derive(Drop)]
pub(crate) struct Collected {
    /// The octets of the datagrams, one behind another.
    octets: Vec<u8>,
    spans: Vec<DatagramSpan>,
    times: Vec<Option<u64>>,
    frames: Vec<u64>,
}

impl Model for Collected {
    ghost use Rattle.rtps_report.specs.DatagramSpan as datagram_span;
    ghost use Rattle.rtps_tool.specs.Collected as collected_spec;

    ghost Value = { collected_spec.CollectedValue };

    ghost view = { λ collected. record { datagrams = datagram_span.pieces collected.octets.items collected.spans.items; times = collected.times.items; frames = collected.frames.items } };

    ghost invariant = { λ collected. datagram_span.AreSpans collected.octets.items collected.spans.items };
}

impl Collected {
    /// No datagram yet.
    pub(crate) fn new(alloc: Global) -> Collected
        ensures { result ≡ collected_spec.collected_of [] }
    {
        Collected {
            octets: Vec::new(alloc),
            spans: Vec::new(alloc),
            times: Vec::new(alloc),
            frames: Vec::new(alloc),
        }
    }

    /// Collects one datagram more. `Memory` is answered, too, where it has no span ([`DatagramSpan::new`]).
    fn push(&mut self, octets: &[u8], time: Option<u64>, frame: u64) -> Result<(), Memory>
        ensures { OnOk result (self.new ≡ collected_spec.with_one self.old octets.now time frame) }
    {
        let from = self.octets.len();
        let Some(span) = DatagramSpan::new(from, from + octets.len()) else {
            return Err(Memory);
        };
        make_room(&mut self.spans, 1)?;
        push_octets(&mut self.octets, octets)?;
        self.spans.push_reserved(span);
        self.times.push(time)?;
        self.frames.push(frame)?;
        Ok(())
    }

    /// The recording that is the datagrams that were collected of a capture, of whose frames this is told.
    pub(crate) fn recording(
        self,
        alloc: Global,
        captures: Captures,
        summary: Summary,
    ) -> Result<Recording, Memory>
        requires { course.ignored_of summary < 2 ^ 64 }
        ensures { IfOk result (λ recording. recording ≡ recording_capture.recording_collected captures self summary) }
    {
        let bounds = (summary.start, summary.end);
        let times = Times::of(alloc, bounds, self.times, self.frames)?;
        let reasons = Reasons {
            pieces: summary.pieces,
            cut: summary.cut,
            other: summary.other,
            links: Links {
                number: summary.links,
                first: summary.first_link,
            },
        };
        let ignored = summary.pieces + summary.cut + summary.other + summary.links;
        match captures {
            Captures::Classic => Ok(Recording::of_capture(self.octets, self.spans, times, ignored)),
            Captures::Any => Ok(Recording::of_any_capture(self.octets, self.spans, times, reasons)),
        }
    }
}

impl Take for Collected {
    ghost use Rattle.rtps_tool.specs.Collected as collected_spec;

    ghost has_taken = { collected_spec.HasTaken };

    fn take(&mut self, datagram: &Datagram<'_>) -> Result<(), Memory> {
        self.push(datagram.octets, datagram.time, datagram.frame)
    }
}
