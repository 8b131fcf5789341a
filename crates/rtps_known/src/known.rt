ghost use Rattle.std.specs.Prelude.{◌<◌, ◌++◌, ◌∷◌, [], IfOk, List, OnOk};
ghost use Rattle.rtps_receiver.specs.Values as values;
ghost use Rattle.rtps_known.specs.Lacking as lacking_spec;
ghost use Rattle.rtps_known.specs.Lives as lives_spec;
ghost use Rattle.rtps_known.specs.Meetings as meetings;
ghost use Rattle.rtps_known.specs.Recorded as recorded;
ghost use Rattle.rtps_known.specs.Tellings as tellings;

use crate::bulletin::Bulletin;
use crate::lacking::Lacking;
use crate::layout::END;
use crate::life::{Birth, Life, Sent, lives_among, note_birth};
use crate::telling::subject;
use rtps_ids::{Guid, GuidPrefix, Memory};
use rtps_policies::Naming;
use rtps_receiver::Spoken;
use std::alloc::Global;
use std::collections::{BTreeMap, BTreeSet};

/// What a recording says of discovery: what the built-in writers of endpoints tell and who acknowledges it, which participants name which, and
/// when participants announce themselves.
#[derive(Drop)]
pub struct Known {
    pub(crate) bulletins: BTreeMap<Guid, Bulletin>,
    /// Who names whom as a destination, and the other way round.
    pub(crate) met: BTreeSet<Naming>,
    pub(crate) births: BTreeMap<Birth, Sent>,
    pub(crate) alloc: Global,
}

impl Known {
    /// That of no acts. It takes no memory.
    pub fn new(alloc: Global) -> Known
        ensures { recorded.IsKnownOf [] result }
    {
        Known {
            bulletins: BTreeMap::new(alloc),
            met: BTreeSet::new(alloc),
            births: BTreeMap::new(alloc),
            alloc,
        }
    }

    /// Keeps what an act says, the next one of the recording, and when its datagram came, in nanoseconds, if that is known. After `Memory` it
    /// is of no use.
    pub fn note(&mut self, act: &Spoken<'_>, time: Option<u64>) -> Result<(), Memory>
        ensures { OnOk result ((acts : List tellings.TimedAct) → recorded.IsKnownOf acts self.old
            → recorded.IsKnownOf (acts ++ (record { act = values.spoken_value act.now; time = time }) ∷ []) self.new) }
    {
        note_meeting(&mut self.met, act, time)?;
        note_bulletin(&mut self.bulletins, self.alloc, act, time)?;
        note_birth(&mut self.births, act)?;
        Ok(())
    }

    /// The numbers of the writer that announces a participant that have two source times, by participant and then by number. Such a participant
    /// has two lives under one GUID.
    pub fn lives(&self) -> Result<Vec<Life>, Memory>
        ensures { IfOk result (λ lives. (acts : List tellings.TimedAct) → recorded.IsKnownOf acts self.now → lives_spec.AreLivesOf (recorded.acts_of acts) lives.items) }
    {
        let lives = lives_among(self.alloc, &self.births)?;
        Ok(lives)
    }

    /// What a participant lacks of what a built-in writer tells up to a time.
    pub(crate) fn lacking_of(
        &self,
        writer: Guid,
        prefix: GuidPrefix,
        end: u64,
    ) -> Result<Lacking, Memory>
        ensures lacking { IfOk result (λ lacking. (acts : List tellings.TimedAct) → recorded.IsKnownOf acts self.now → lacking_spec.IsLackingOf (recorded.about writer acts) prefix end lacking) }
        ensures bounded { IfOk result (λ lacking. lacking.unnamed < END) }
    {
        let Some(bulletin) = self.bulletins.get(&writer) else {
            return Ok(Lacking {
                endpoints: Vec::new(self.alloc),
                unnamed: 0,
            });
        };
        let lacking = bulletin.lacking(self.alloc, prefix, end)?;
        Ok(lacking)
    }
}

/// Keeps who is named, by whom. After `Memory` it is of no use.
fn note_meeting(
    met: &mut BTreeSet<Naming>,
    act: &Spoken<'_>,
    time: Option<u64>,
) -> Result<(), Memory>
    ensures { OnOk result ((acts : List tellings.TimedAct) → meetings.AreMetBy acts met.old
        → meetings.AreMetBy (acts ++ (record { act = values.spoken_value act.now; time = time }) ∷ []) met.new) }
{
    let Some(dest) = act.dest else {
        return Ok(());
    };
    let source = act.source;
    let is_new = met.insert(Naming { source, dest })?;
    if is_new {
        met.insert(Naming {
            source: dest,
            dest: source,
        })?;
    }
    Ok(())
}

/// Keeps what an act says of a built-in writer of endpoints. After `Memory` it is of no use.
fn note_bulletin(
    bulletins: &mut BTreeMap<Guid, Bulletin>,
    alloc: Global,
    act: &Spoken<'_>,
    time: Option<u64>,
) -> Result<(), Memory>
    ensures { OnOk result ((acts : List tellings.TimedAct) → recorded.AreBulletinsOf acts bulletins.old
        → recorded.AreBulletinsOf (acts ++ (record { act = values.spoken_value act.now; time = time }) ∷ []) bulletins.new) }
{
    let Some(writer) = subject(act) else {
        return Ok(());
    };
    if let Some(bulletin) = bulletins.get_mut(&writer) {
        bulletin.note(act, time)?;
        return Ok(());
    }
    let mut bulletin = Bulletin::new(alloc);
    bulletin.note(act, time)?;
    bulletins.insert(writer, bulletin)?;
    Ok(())
}
