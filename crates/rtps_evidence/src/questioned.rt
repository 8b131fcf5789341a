ghost use Rattle.std.specs.Prelude.{ℕ, Bool, false, ◌≡◌, ◌≤◌, ◌^◌, ◌&&◌, ◌||◌, nat_le, nat_lt, if◌then◌else◌, OnOk};
ghost use Rattle.rtps_coverage.specs.Stretches as stretches_spec;
ghost use Rattle.rtps_evidence.specs.GoneRanges as gone_ranges;
ghost use Rattle.rtps_evidence.specs.Outcomes as outcomes;
ghost use Rattle.rtps_evidence.specs.Silences as silences;

use crate::gone_ranges::{GoneRanges, first_past};
use crate::times::Times;
use rtps_coverage::Stretch;
use rtps_coverage::stretches::push;
use rtps_ids::Memory;
use std::alloc::Global;
use std::collections::BTreeMap;
use std::ops::Range;

/// When an act is heard.
#[derive(Clone, Copy)]
pub(crate) struct Moment<'s> {
    /// When all datagrams came.
    pub(crate) times: &'s Times,
    pub(crate) datagram: u64,
}

/// Which numbers a writer asked its reader about, as far as a recording has come, and which of them it told gone.
#[derive(Drop)]
pub(crate) struct Questioned {
    /// The HEARTBEATs since the last answer that asked about numbers which none had asked about: the datagram of each, by where its
    /// numbers end.
    asked: BTreeMap<u64, u64>,
    /// The numbers below were asked about.
    once: u64,
    /// The numbers below were asked about again.
    again: u64,
    /// The numbers below were asked about, and an answer stands behind that.
    answered: u64,
    /// The numbers that were told gone, and not answered before.
    gone: GoneRanges,
}

/// Notes that a HEARTBEAT in a datagram asks about the numbers below `end`, where those below `once` were asked about. After `Memory` they
/// are of no use.
fn note_asked(
    asked: &mut BTreeMap<u64, u64>,
    once: u64,
    end: u64,
    datagram: u64,
) -> Result<(), Memory>
    ensures { OnOk result (gone_ranges.HasNonePast asked.old once → silences.IsAskedMore asked.old asked.new once end datagram) }
{
    if once < end {
        asked.insert(end, datagram)?;
    }
    Ok(())
}

/// Appends a stretch, where there is reason to. After `Memory` the stretches are of no use.
pub(crate) fn push_if(
    stretches: &mut Vec<Stretch>,
    reason: bool,
    stretch: Stretch,
) -> Result<(), Memory>
    ensures { OnOk result ((n : ℕ) → stretches_spec.stretches_have stretches.new.items n ≡ (stretches_spec.stretches_have stretches.old.items n || (reason && stretches_spec.stretch_has n stretch))) }
{
    if reason {
        push(stretches, stretch)?;
    }
    Ok(())
}

impl Questioned {
    /// The writer asked about no number.
    pub(crate) fn new(alloc: Global) -> Questioned
        ensures { (n : ℕ) → silences.IsAt n outcomes.Silence.Unasked result false }
    {
        Questioned {
            asked: BTreeMap::new(alloc),
            once: 0,
            again: 0,
            answered: 0,
            gone: GoneRanges::new(alloc),
        }
    }

    /// The reader answers.
    pub(crate) fn answer(&mut self)
        ensures { (n : ℕ) (silence : outcomes.Silence) (silent : Bool) → silences.IsAt n silence self.old silent → silences.IsAt n (outcomes.answered silence) self.new silent }
    {
        self.answered = self.once;
        self.asked.clear();
        self.gone.forget(self.once);
    }

    /// The writer asks, in a datagram, about the numbers below `end` that were not told gone. After `Memory` it is of no use.
    pub(crate) fn ask(&mut self, end: u64, datagram: u64) -> Result<(), Memory>
        ensures { OnOk result ((n : ℕ) (silence : outcomes.Silence) (silent : Bool) → silences.IsAt n silence self.old silent
            → silences.IsAt n (if nat_lt n end then outcomes.asked_about datagram silence else silence) self.new silent) }
    {
        note_asked(&mut self.asked, self.once, end, datagram)?;
        self.again = self.again.max(self.once.min(end));
        self.once = self.once.max(end);
        Ok(())
    }

    /// Appends those of these numbers that were not told gone and were asked about first long ago. After `Memory` the stretches are of no
    /// use.
    fn push_silent(
        &self,
        silent: &mut Vec<Stretch>,
        numbers: Range<u64>,
        moment: &Moment<'_>,
    ) -> Result<(), Memory>
        requires { numbers.end ≤ 2 ^ 63 }
        ensures { OnOk result (silences.AreHushed self.now moment.now numbers.start numbers.end (stretches_spec.stretches_have silent.old.items) (stretches_spec.stretches_have silent.new.items)) }
    {
        let mut at = numbers.start;
        'pieces: while at < numbers.end {
            let (is_gone, alike_end) = self.gone.alike(at);
            let alike_end = alike_end.min(numbers.end);
            if is_gone {
                at = alike_end;
                continue;
            }
            let Some((asked_end, asked)) = first_past(&self.asked, at) else {
                return Ok(());
            };
            let hi = alike_end.min(asked_end);
            let is_long = moment.times.is_long(asked, moment.datagram);
            push_if(silent, is_long, Stretch { lo: at, hi })?;
            at = hi;
        }
        Ok(())
    }

    /// The writer tells the numbers from `lo` on and below `hi` gone: appends those of them that are told so in silence. After `Memory` it is
    /// of no use, nor are the stretches.
    pub(crate) fn tell_gone(
        &mut self,
        silent: &mut Vec<Stretch>,
        numbers: Range<u64>,
        moment: &Moment<'_>,
    ) -> Result<(), Memory>
        requires { numbers.end ≤ 2 ^ 63 }
        ensures { OnOk result ((n : ℕ) (silence : outcomes.Silence) → silences.IsAt n silence self.old (stretches_spec.stretches_have silent.old.items n)
            → silences.IsAt n (if nat_le numbers.start n && nat_lt n numbers.end then outcomes.told_gone moment.now.times.now.of_datagrams moment.now.datagram silence else silence) self.new (stretches_spec.stretches_have silent.new.items n)) }
    {
        let start = numbers.start.max(self.answered);
        let end = numbers.end;
        self.push_silent(silent, start..end.min(self.again), moment)?;
        self.gone.add(start, end)
    }
}
