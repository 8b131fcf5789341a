ghost use Rattle.std.specs.Prelude.{◌≡◌, ◌≤◌, filter, get_or, map, IfOk};
ghost use Rattle.rtps_receiver.specs.Values as receiver_values;
ghost use Rattle.rtps_audit.specs.Index as index_spec;
ghost use Rattle.rtps_audit.specs.Intake as intake;
ghost use Rattle.rtps_audit.specs.Placed as placed;
ghost use Rattle.rtps_fragments.specs.SampleCounts as sample_counts;
ghost use Rattle.rtps_page.specs.ChartEntries as chart_entries;

use rtps_audit::{Index, Placed};
use rtps_discovery::Pair;
use rtps_fragments::{SampleCount, have_fragments, overheard_counted, samples_counted};
use rtps_ids::{Guid, Memory};
use rtps_receiver::Spoken;
use std::alloc::{AllocError, Global};

/// How many samples each act of a writer tells a reader.
#[derive(Drop)]
pub(crate) struct Telling {
    pub(crate) reader: Guid,
    pub(crate) counts: Vec<SampleCount>,
}

/// How many samples each act of a writer tells.
#[derive(Drop)]
pub(crate) struct Tellings {
    /// To one who hears everything.
    pub(crate) all: Vec<SampleCount>,
    /// To each reader of the writer's rows.
    pub(crate) each: Vec<Telling>,
}

/// What a recording says, and the pairs of all rows.
#[derive(Clone, Copy)]
pub(crate) struct Said<'r, 'a> {
    pub(crate) index: &'r Index<'a>,
    pub(crate) pairs: &'r [Pair],
}

/// What is counted of one act.
#[derive(Clone, Copy)]
pub(crate) struct Told<'t> {
    pub(crate) tellings: &'t Tellings,
    /// The place of the act among those that are counted.
    pub(crate) at: usize,
}

/// How many samples the act at this place tells; none where nothing is counted of it.
pub(crate) fn count_at(counts: &[SampleCount], at: usize) -> u64
    ensures value { result ≡ get_or (map sample_counts.number_of counts.now) at 0 }
    ensures few { result ≤ 2 }
{
    match counts.get(at) {
        Some(count) => count.number(),
        None => 0,
    }
}

/// The readers of a writer's pairs.
fn readers_of(alloc: Global, pairs: &[Pair], writer: Guid) -> Result<Vec<Guid>, AllocError>
    ensures { IfOk result (λ readers. readers.items ≡ chart_entries.readers_of pairs.now writer) }
{
    let mut readers = Vec::new(alloc);
    for pair in pairs {
        if pair.writer == writer {
            readers.push(pair.reader)?;
        }
    }
    Ok(readers)
}

/// How many samples each of these acts tells each reader.
fn tellings_to(alloc: Global, acts: &[Placed<'_>], readers: &[Guid]) -> Result<Vec<Telling>, Memory>
    ensures { IfOk result (λ each. map chart_entries.counted_of each.items ≡ map (chart_entries.counts_for (map placed.placed_value acts.now)) readers.now) }
{
    let mut each = Vec::with_capacity(alloc, readers.len())?;
    for reader in readers {
        let counts = samples_counted(alloc, acts, *reader)?;
        each.push(Telling {
            reader: *reader,
            counts,
        })?;
    }
    Ok(each)
}

impl Tellings {
    /// Of these acts of a writer and the readers of its rows.
    fn counted(alloc: Global, acts: &[Placed<'_>], readers: &[Guid]) -> Result<Tellings, Memory>
        ensures { IfOk result (chart_entries.AreTellings readers.now (map placed.placed_value acts.now)) }
    {
        let all = overheard_counted(alloc, acts)?;
        let each = tellings_to(alloc, acts, readers)?;
        Ok(Tellings { all, each })
    }

    /// The same. Where no act sends fragments, nothing is counted.
    fn of(alloc: Global, acts: &[Placed<'_>], readers: &[Guid]) -> Result<Tellings, Memory>
        ensures { IfOk result (chart_entries.AreTellings readers.now (map placed.placed_value acts.now)) }
    {
        if have_fragments(acts) {
            return Tellings::counted(alloc, acts, readers);
        }
        Ok(Tellings {
            all: Vec::new(alloc),
            each: Vec::new(alloc),
        })
    }
}

impl Said<'_, '_> {
    /// How many samples each act of a writer tells.
    pub(crate) fn tellings_of(self, alloc: Global, writer: Guid) -> Result<Tellings, Memory>
        ensures { (intake : intake.Intake) → index_spec.IsIndexBy intake self.entry.index.now
            → IfOk result (chart_entries.AreTellings (chart_entries.readers_of self.entry.pairs.now writer) (filter (placed.is_from writer) (placed.placed_in intake.acts))) }
    {
        let readers = readers_of(alloc, self.pairs, writer)?;
        Tellings::of(alloc, self.index.acts_of(writer), &readers)
    }
}

impl Told<'_> {
    /// How many samples the act tells one who hears everything.
    pub(crate) fn all(self) -> u64
        ensures value { result ≡ get_or (map sample_counts.number_of self.entry.tellings.now.all.items) self.entry.at 0 }
        ensures few { result ≤ 2 }
    {
        count_at(&self.tellings.all, self.at)
    }

    /// How many it tells a reader.
    pub(crate) fn by(self, telling: &Telling) -> u64
        ensures value { result ≡ (chart_entries.told_of self.entry.at telling.now).samples }
        ensures few { result ≤ 2 }
    {
        count_at(&telling.counts, self.at)
    }

    /// Whether a reader does not hear the act, or is told as many as one who hears everything.
    fn is_alike(self, act: &Spoken<'_>, telling: &Telling) -> bool
        ensures { result ≡ chart_entries.is_told_alike (receiver_values.spoken_value act.now) (get_or (map sample_counts.number_of self.entry.tellings.now.all.items) self.entry.at 0) (chart_entries.told_of self.entry.at telling.now) }
    {
        !act.heard_by(telling.reader) || self.by(telling) == self.all()
    }

    /// Whether it tells each reader that hears it as many as one who hears everything.
    pub(crate) fn are_alike(self, act: &Spoken<'_>) -> bool
        ensures { result ≡ chart_entries.are_told_alike (receiver_values.spoken_value act.now) (get_or (map sample_counts.number_of self.entry.tellings.now.all.items) self.entry.at 0) (map (chart_entries.told_of self.entry.at) self.entry.tellings.now.each.items) }
    {
        for telling in &self.tellings.each {
            if !self.is_alike(act, telling) {
                return false;
            }
        }
        true
    }
}
