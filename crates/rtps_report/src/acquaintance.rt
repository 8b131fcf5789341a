ghost use Rattle.std.specs.Prelude.{◌≡◌, ◌++◌, [], IfOk, List, OnOk, map};
ghost use Rattle.rtps_audit.specs.Placed as placed;
ghost use Rattle.rtps_evidence.specs.UnansweredLaw as unanswered_law;
ghost use Rattle.rtps_known.specs.Matched as matched;
ghost use Rattle.rtps_known.specs.Places as places;
ghost use Rattle.rtps_known.specs.Recorded as recorded;
ghost use Rattle.rtps_known.specs.Tellings as tellings;
ghost use Rattle.rtps_policies.specs.Namings as namings_spec;
ghost use Rattle.rtps_receiver.specs.Values as values;
ghost use Rattle.rtps_report.specs.Acquaintance as acquaintance;
ghost use Rattle.rtps_report.specs.ActsRead as acts_read;
ghost use Rattle.rtps_report.specs.MatchingActs as matching_acts;

use rtps_audit::{Placed, place};
use rtps_evidence::Times;
use rtps_fragments::{FragmentWalk, Listen, ReadDatagram};
use rtps_ids::Memory;
use rtps_known::{Known, Matches, Place};
use rtps_policies::Namings;
use rtps_receiver::{Spoken, SpokenBody};
use std::alloc::Global;

/// Who knows whom in a recording, by what the datagrams say that were heard, fragments among them.
#[derive(Drop)]
pub(crate) struct Acquaintance<'t> {
    /// Which participants name which.
    pub(crate) namings: Namings,
    /// What discovery has told whom.
    pub(crate) known: Known,
    /// When writers and readers matched.
    pub(crate) matches: Matches,
    /// When the datagrams of the recording came.
    pub(crate) times: &'t Times,
}

/// The number of a datagram, counted from 1, and when it came.
#[derive(Clone, Copy)]
pub(crate) struct Came {
    pub(crate) datagram: u64,
    pub(crate) time: Option<u64>,
}

/// The datagram of this number, as it came.
fn came_as(times: &Times, datagram: u64) -> Came
    ensures { result ≡ matching_acts.came_as times.now.of_datagrams datagram }
{
    Came {
        datagram,
        time: times.of_datagram(datagram),
    }
}

/// Keeps what the acts of a datagram say of discovery, which came then. After `Memory` it is of no use.
fn note_known(known: &mut Known, acts: &[Spoken<'_>], time: Option<u64>) -> Result<(), Memory>
    ensures { OnOk result ((before : List tellings.TimedAct) → recorded.IsKnownOf before known.old
        → recorded.IsKnownOf (before ++ acts_read.acts_at time (map values.spoken_value acts.now)) known.new) }
{
    for act in acts {
        known.note(act, time)?;
    }
    Ok(())
}

/// Where an act stands.
fn place_in(came: Came, act: &Spoken<'_>) -> Place
    ensures { result ≡ (matching_acts.act_placed came (values.spoken_value act.now)).place }
{
    Place {
        datagram: came.datagram,
        at: act.at,
        time: came.time,
    }
}

fn is_data_frag(act: &Spoken<'_>) -> bool
    ensures { result ≡ unanswered_law.is_data_frag (values.spoken_value act.now).body }
{
    match &act.body {
        SpokenBody::Act(_) | SpokenBody::NackFrag(_) => false,
        SpokenBody::DataFrag(_) => true,
    }
}

/// A sample, for those to whom the act is sent that completes it.
fn sent_as<'a>(act: &Spoken<'_>, sample: &Placed<'a>) -> Spoken<'a>
    ensures { values.spoken_value result ≡ matching_acts.sent_as (values.spoken_value act.now) (placed.placed_value sample.now).act }
{
    let copy = place(sample.datagram, &sample.act);
    Spoken {
        dest: act.dest,
        ..copy.act
    }
}

/// Keeps those of the samples of a datagram that an act completes. After `Memory` it is of no use.
fn note_samples(
    matches: &mut Matches,
    act: &Spoken<'_>,
    samples: &[Placed<'_>],
    came: Came,
) -> Result<(), Memory>
    ensures { OnOk result ((before : List places.PlacedAct) → matched.AreMatchesOf before matches.old
        → matched.AreMatchesOf (before ++ map (matching_acts.act_placed came) (acquaintance.samples_at (values.spoken_value act.now) (map placed.placed_value samples.now))) matches.new) }
{
    for sample in samples {
        if sample.act.at == act.at {
            matches.note(&sent_as(act, sample), place_in(came, act))?;
        }
    }
    Ok(())
}

/// Keeps an act, and behind it the samples that it completes, of these of its datagram. After `Memory` it is of no use.
fn note_act(
    matches: &mut Matches,
    act: &Spoken<'_>,
    samples: &[Placed<'_>],
    came: Came,
) -> Result<(), Memory>
    ensures { OnOk result ((before : List places.PlacedAct) → matched.AreMatchesOf before matches.old
        → matched.AreMatchesOf (before ++ map (matching_acts.act_placed came) (acquaintance.with_samples_at (map placed.placed_value samples.now) (values.spoken_value act.now))) matches.new) }
{
    matches.note(act, place_in(came, act))?;
    if is_data_frag(act) {
        note_samples(matches, act, samples, came)?;
    }
    Ok(())
}

/// Keeps the acts of a datagram, each with the samples that it completes. After `Memory` it is of no use.
fn note_matches(
    matches: &mut Matches,
    acts: &[Spoken<'_>],
    samples: &[Placed<'_>],
    came: Came,
) -> Result<(), Memory>
    ensures { OnOk result ((before : List places.PlacedAct) → matched.AreMatchesOf before matches.old
        → matched.AreMatchesOf (before ++ acquaintance.acts_heard came (map placed.placed_value samples.now) (map values.spoken_value acts.now)) matches.new) }
{
    for act in acts {
        note_act(matches, act, samples, came)?;
    }
    Ok(())
}

/// Which participants of a recording, any datagrams, name which, by all acts that are read. `Memory` is answered where they
/// cannot grow.
pub(crate) fn namings_of(alloc: Global, recording: &[&[u8]]) -> Result<Namings, Memory>
    ensures { IfOk result (namings_spec.AreNamingsOf (acts_read.datagrams_read (map (λ datagram. datagram.now) recording.now))) }
{
    let mut namings = Namings::new(alloc);
    let mut walk = FragmentWalk::new(alloc);
    for place in 0..recording.len() {
        walk.read(recording[place])?;
        namings.note(walk.acts())?;
    }
    Ok(namings)
}

impl<'t> Acquaintance<'t> {
    /// That of no datagrams, of a recording whose datagrams came then. It takes no memory.
    pub(crate) fn new(alloc: Global, times: &'t Times) -> Acquaintance<'t>
        ensures heard { acquaintance.HasHeard result [] result }
        ensures times { result.times.now ≡ times.now }
    {
        Acquaintance {
            namings: Namings::new(alloc),
            known: Known::new(alloc),
            matches: Matches::new(alloc),
            times,
        }
    }
}

impl Listen for Acquaintance<'_> {
    ghost has_heard = { acquaintance.HasHeard };

    fn hear(&mut self, read: &ReadDatagram<'_, '_>) -> Result<(), Memory> {
        let came = came_as(self.times, read.datagram as u64);
        self.namings.note(read.acts)?;
        note_known(&mut self.known, read.acts, came.time)?;
        note_matches(&mut self.matches, read.acts, read.announcements, came)?;
        Ok(())
    }
}
