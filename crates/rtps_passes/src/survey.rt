ghost use Rattle.std.specs.Prelude.{◌≡◌, ◌≤◌, ◌*◌, map, OnOk};
ghost use Rattle.rtps_receiver.specs.Values as values;
ghost use Rattle.rtps_discovery.specs.Directory as directory_spec;
ghost use Rattle.rtps_discovery.specs.Notice as notice;
ghost use Rattle.rtps_audit.specs.Intake as intake_spec;

use bumpalo::Bump;
use rtps_audit::{Tallies, undirected_among};
use rtps_discovery::Directory;
use rtps_ids::Memory;
use rtps_receiver::Spoken;
use rtps_wire::Tally;
use std::alloc::Global;

/// What the first pass over a recording finds: what is announced, how many announcements have a fault, and the counts. It grows with
/// what is announced, and not with the datagrams.
#[derive(Drop)]
pub struct Survey<'n> {
    pub(crate) directory: Directory<'n>,
    pub(crate) tallies: Tallies,
    faults: u128,
    ghost few_faults: { faults ≤ tallies.datagrams * 18446744073709551615 },
}

impl<'n> Survey<'n> {
    ghost use Rattle.rtps_passes.specs.Survey as survey;

    /// Of no datagrams. It takes no memory.
    pub fn new(alloc: Global) -> Self
        ensures { survey.IsSurveyBy intake_spec.no_intake result }
    {
        Survey {
            directory: Directory::new(alloc),
            tallies: Tallies::new(),
            faults: 0,
        }
    }

    /// Takes in one datagram more: its tally and its acts. The names in what is announced are copied into an arena. `Memory` is answered
    /// where there is none for what is announced, and past 2^64 - 1 datagrams; then the survey is of no use.
    pub fn note(&mut self, tally: Tally, acts: &[Spoken<'_>], names: &'n Bump) -> Result<(), Memory>
        ensures { OnOk result ((intake : intake_spec.Intake) → survey.IsSurveyBy intake self.old
            → survey.IsSurveyBy (intake_spec.intake_more intake tally (map values.spoken_value acts.now) (map values.spoken_value acts.now)) self.new) }
    {
        if self.tallies.datagrams() == u64::MAX {
            return Err(Memory);
        }
        let faults = self.directory.note_all_copied(acts, names)?;
        self.tallies.note(tally, undirected_among(acts));
        self.faults += u128::from(faults);
        Ok(())
    }

    /// What the recording announces. It takes no memory.
    pub fn directory(&self) -> &Directory<'n>
        ensures value { result.now ≡ self.now.directory }
        ensures map { (intake : intake_spec.Intake) → survey.IsSurveyBy intake self.now → directory_spec.IsMapOf (intake_spec.acts_together intake.announcing) result.now }
    {
        &self.directory
    }

    /// How many announcements have a fault.
    pub fn faults(&self) -> u128
        ensures { (intake : intake_spec.Intake) → survey.IsSurveyBy intake self.now → result ≡ notice.faults_in (intake_spec.acts_together intake.announcing) }
    {
        self.faults
    }
}
