ghost use Rattle.std.specs.Prelude.{ℕ, ◌≡◌, ◌+◌, ◌<◌, ◌^◌, ◌++◌, ◌∷◌, [], drop, length, map, take, IfOk, List, OnOk};
ghost use Rattle.rtps_audit.specs.Index as index_spec;
ghost use Rattle.rtps_audit.specs.Intake as intake_spec;
ghost use Rattle.rtps_fragments.specs.Announcements as announcements;
ghost use Rattle.rtps_fragments.specs.Merging as merging;
ghost use Rattle.rtps_fragments.specs.ReadDatagrams as read_datagrams;
ghost use Rattle.rtps_fragments.specs.RecordedSamples as recorded_samples;
ghost use Rattle.rtps_fragments.specs.FragmentWalk as fragment_walk;
ghost use Rattle.rtps_fragments.specs.ToldSamples as told_samples;
ghost use Rattle.rtps_fragments.specs.Whole as whole_spec;
ghost use Rattle.rtps_fragments.specs.declared.fragments.Fragments.TheVariants.{Read, Skipped};

use crate::announcements::{DatagramActs, Indexed};
use crate::fragment_walk::FragmentWalk;
use crate::fragments::Fragments;
use crate::listen::{Deaf, Listen};
use crate::merging::merge;
use crate::samples::Samples;
use crate::told_sample::ToldSample;
use crate::whole::WholeNumbers;
use bumpalo::Bump;
use rtps_audit::Index;
use rtps_ids::Memory;
use rtps_receiver::{Spoken, Walk};
use std::alloc::Global;

/// The samples that the acts of one datagram tell.
#[derive(Clone, Copy)]
struct DatagramSamples<'r, 's> {
    /// The number of the datagram, counted from 1.
    datagram: usize,
    /// Those of built-in writers, whoever hears them.
    overheard: &'r [ToldSample<'s>],
    /// The numbers of which some sample of the recording is ever whole.
    whole: &'r WholeNumbers,
}

/// What datagrams are read into, one after another.
#[derive(Drop)]
struct Reading<'s> {
    /// What they are all taken in to.
    indexed: Indexed<'s>,
    walk: FragmentWalk<'s>,
    /// Its acts, and behind each the samples of a built-in writer that it tells.
    announcing: Vec<Spoken<'s>>,
}

impl<'s> Reading<'s> {
    /// Nothing is read. It takes no memory.
    fn new(alloc: Global) -> Reading<'s>
        ensures { announcements.IsIndexedBy intake_spec.no_intake result.indexed }
    {
        Reading {
            indexed: Indexed::new(alloc),
            walk: FragmentWalk::new(alloc),
            announcing: Vec::new(alloc),
        }
    }

    /// The index of what is read.
    fn into_index(self) -> Indexed<'s>
        ensures { result ≡ self.entry.indexed }
    {
        let Reading {
            indexed,
            walk: _,
            announcing: _,
        } = self;
        indexed
    }
}

/// Takes in one datagram more. A listener is told what is read of it. After `Memory`
/// the index and the listener are of no use.
fn note_datagram<'s, L: Listen>(
    reading: &mut Reading<'s>,
    octets: &'s [u8],
    samples: &DatagramSamples<'_, 's>,
    listener: &mut L,
) -> Result<(), Memory>
    requires few { reading.old.indexed.index.tallies.datagrams + 1 < 2 ^ 64 }
    requires next { (start : L) × (before : List read_datagrams.ReadDatagramValue) × L.has_heard start before listener.old × (length before + 1 ≡ samples.now.datagram) }
    ensures heard { OnOk result ((start : L) (before : List read_datagrams.ReadDatagramValue) → L.has_heard start before listener.old
        → L.has_heard start (before ++ read_datagrams.datagram_read samples.now.datagram (map (λ one. one.act) (fragment_walk.piece_acts_of octets.now))
        (merging.merged_from 0 (map (λ one. one.act) (fragment_walk.piece_acts_of octets.now)) (map told_samples.told_value samples.now.overheard.now)) ∷ []) listener.new) }
    ensures index { OnOk result ((intake : intake_spec.Intake) (all : List told_samples.SentValue) → whole_spec.AreWholeIn all samples.now.whole.now
        → samples.now.datagram ≡ length intake.announcing + 1 → announcements.IsIndexedBy intake reading.old.indexed
        → announcements.IsIndexedBy (intake_spec.intake_more intake (whole_spec.tally_left all octets.now) (map (λ one. one.act) (fragment_walk.piece_acts_of octets.now))
        (merging.merged_from 0 (map (λ one. one.act) (fragment_walk.piece_acts_of octets.now)) (map told_samples.told_value samples.now.overheard.now))) reading.new.indexed) }
{
    reading.walk.read(octets)?;
    let tally = samples.whole.tally(&reading.walk);
    let own = &reading.walk.acts;
    merge(&mut reading.announcing, own, samples.overheard)?;
    let noted = DatagramActs {
        datagram: samples.datagram,
        own,
        acts: own,
        announcing: &reading.announcing,
    };
    reading.indexed.note(tally, &noted, listener)?;
    Ok(())
}

/// A recording, any datagrams in the order of sending, and what becomes of samples that come in fragments.
#[derive(Clone, Copy)]
pub struct Source<'r, 's> {
    pub recording: &'r [&'s [u8]],
    pub fragments: Fragments,
}

/// The first datagrams of a recording, as they are taken in without samples.
#[derive(Drop)]
struct PlainStart<'s> {
    reading: Reading<'s>,
    /// How many they are.
    datagrams: usize,
}

/// The datagrams of a recording up to the first one with a submessage of fragments, where these are to be read; else all of them.
/// A listener is told what is read of each. `Memory` is answered where there is none for their index, or for the listener.
fn plain_start<'s, L: Listen>(
    alloc: Global,
    source: Source<'_, 's>,
    listener: &mut L,
) -> Result<PlainStart<'s>, Memory>
    requires { L.has_heard listener.old [] listener.old }
    ensures start { IfOk result (recorded_samples.IsPlainStart source.entry.fragments (map (λ datagram. datagram.now) source.entry.recording.now)) }
    ensures heard { IfOk result (λ start. L.has_heard listener.old (read_datagrams.read_of Skipped (map (λ datagram. datagram.now) (take start.datagrams source.entry.recording.now))) listener.new) }
{
    let Source {
        recording,
        fragments,
    } = source;
    let mut reading = Reading::new(alloc);
    let mut walk = Walk::new(alloc);
    for place in 0..recording.len() {
        let tally = walk.read(recording[place])?;
        if fragments.are_read() && tally.fragments > 0 {
            return Ok(PlainStart {
                reading,
                datagrams: place,
            });
        }
        let noted = DatagramActs {
            datagram: place + 1,
            own: walk.acts(),
            acts: walk.acts(),
            announcing: walk.acts(),
        };
        reading.indexed.note(tally, &noted, listener)?;
    }
    Ok(PlainStart {
        reading,
        datagrams: recording.len(),
    })
}

/// Takes in the other datagrams of a recording, of which these are the samples, and tells a listener what is read of each. `Memory` is
/// answered where there is none for the index, or for the listener.
fn index_behind<'s, L: Listen>(
    start: PlainStart<'s>,
    recording: &[&'s [u8]],
    samples: &Samples<'s>,
    listener: &mut L,
) -> Result<Indexed<'s>, Memory>
    requires start { recorded_samples.IsPlainStart Read (map (λ datagram. datagram.now) recording.now) start }
    requires samples { recorded_samples.AreSamplesOf (drop start.datagrams (map (λ datagram. datagram.now) recording.now)) samples.now }
    requires heard { (first : L) × L.has_heard first (read_datagrams.read_of Skipped (map (λ datagram. datagram.now) (take start.datagrams recording.now))) listener.old }
    ensures index { IfOk result (announcements.IsIndexedBy (recorded_samples.intake_with (map (λ datagram. datagram.now) recording.now))) }
    ensures heard { OnOk result ((first : L) → L.has_heard first (read_datagrams.read_of Skipped (map (λ datagram. datagram.now) (take start.entry.datagrams recording.now))) listener.old
        → L.has_heard first (read_datagrams.read_of Read (map (λ datagram. datagram.now) recording.now)) listener.new) }
{
    let PlainStart {
        mut reading,
        datagrams,
    } = start;
    for place in datagrams..recording.len() {
        let here = DatagramSamples {
            datagram: place + 1,
            overheard: &samples.overheard[place - datagrams],
            whole: &samples.whole,
        };
        note_datagram(&mut reading, recording[place], &here, listener)?;
    }
    Ok(reading.into_index())
}

/// The index of a recording, with its fragments where these are read, and its announcements. The samples of built-in writers have their octets in
/// the arena. A listener is told what is read of each datagram, where fragments are read with its fragments.
///
/// The octets of each datagram are read once up to the first one with a submessage of fragments, where these are read. Those behind it are
/// read twice, for the samples and for the index, and that one three times. `Memory` is answered where there is none for it, and then
/// the listener is of no use.
pub fn index_told<'s, L: Listen>(
    alloc: Global,
    source: Source<'_, 's>,
    arena: &'s Bump,
    listener: &mut L,
) -> Result<Indexed<'s>, Memory>
    requires { L.has_heard listener.old [] listener.old }
    ensures index { IfOk result (announcements.IsIndexedBy (recorded_samples.intake_as source.entry.fragments (map (λ datagram. datagram.now) source.entry.recording.now))) }
    ensures heard { OnOk result (L.has_heard listener.old (read_datagrams.read_of source.entry.fragments (map (λ datagram. datagram.now) source.entry.recording.now)) listener.new) }
{
    let recording = source.recording;
    let start = plain_start(alloc, source, listener)?;
    if start.datagrams == recording.len() {
        return Ok(start.reading.into_index());
    }
    let samples = Samples::of(alloc, arena, &recording[start.datagrams..])?;
    let indexed = index_behind(start, recording, &samples, listener)?;
    Ok(indexed)
}

/// The index of a recording, as [`index_told`] makes it, with nobody who listens. `Memory` is answered where there is none for it.
pub fn index_as<'s>(
    alloc: Global,
    recording: &[&'s [u8]],
    fragments: Fragments,
    arena: &'s Bump,
) -> Result<Indexed<'s>, Memory>
    ensures { IfOk result (announcements.IsIndexedBy (recorded_samples.intake_as fragments (map (λ datagram. datagram.now) recording.now))) }
{
    let source = Source {
        recording,
        fragments,
    };
    index_told(alloc, source, arena, &mut Deaf)
}
