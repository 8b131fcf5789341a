ghost use Rattle.std.specs.Prelude.{ℕ, ◌≡◌, IfOk, List, map};
ghost use Rattle.rtps_audit.specs.Index as index;
ghost use Rattle.rtps_audit.specs.Intake as intake_spec;
ghost use Rattle.rtps_audit.specs.Placed as placed;
ghost use Rattle.rtps_fragments.specs.Announcements as announcements;
ghost use Rattle.rtps_policies.specs.Announcing as announcing;
ghost use Rattle.rtps_known.specs.Recorded as recorded;
ghost use Rattle.rtps_report.specs.ActsRead as acts_read;
ghost use Rattle.rtps_report.specs.NotTold as not_told_spec;
ghost use Rattle.rtps_report.specs.Participants as participants_spec;
ghost use Rattle.rtps_report.specs.TwoLives as two_lives;
ghost use Rattle.rtps_report.specs.Visits as visits_spec;

use crate::not_told::{NotTold, all_not_told};
use crate::participant::{Participant, joined_of};
use crate::presence::Presences;
use crate::talk::{ReadRecording, participants_of};
use crate::two_lives::{TwoLives, first_lives};
use crate::visits::{Seen, visits_of};
use rtps_evidence::Times;
use rtps_ids::{GuidPrefix, Memory};
use rtps_known::{Known, Visit};
use rtps_policies::Announced;
use std::alloc::{AllocError, Global};
use std::collections::BTreeMap;

/// Who is there, and what discovery has told whom.
#[derive(Drop)]
pub(crate) struct Discovered<'a> {
    pub(crate) participants: Vec<Participant>,
    pub(crate) not_told: Vec<NotTold<'a>>,
    pub(crate) lives: Vec<TwoLives>,
}

/// Who is there, and when.
#[derive(Drop)]
struct Attending {
    participants: Vec<Participant>,
    visits: BTreeMap<GuidPrefix, Visit>,
}

/// Who is announced, and when.
fn attend(
    alloc: Global,
    announced: &Announced<'_>,
    read: &ReadRecording<'_, '_, '_, '_>,
) -> Result<Attending, Memory>
    ensures participants { IfOk result (λ attending. (intake : intake_spec.Intake) → index.IsIndexBy intake read.now.index.now
        → map placed.placed_value read.now.announcements.now ≡ announcements.announcements_in intake.announcing
        → announcing.IsAnnouncedBy (intake_spec.acts_together intake.announcing) announced.now
        → attending.participants.items
        ≡ map (participants_spec.participant_told intake (map (λ datagram. datagram.now) read.now.datagrams.now) read.now.times.now) read.now.directory.now.participants) }
    ensures visits { IfOk result (λ attending. (intake : intake_spec.Intake) → index.IsIndexBy intake read.now.index.now
        → map placed.placed_value read.now.announcements.now ≡ announcements.announcements_in intake.announcing
        → announcing.IsAnnouncedBy (intake_spec.acts_together intake.announcing) announced.now
        → visits_spec.AreVisitsIn intake (map (λ datagram. datagram.now) read.now.datagrams.now) read.now.times.now.of_datagrams read.now.directory.now.participants attending.visits) }
{
    let joined = joined_of(alloc, read.announcements)?;
    let presences = Presences::of(alloc, read.datagrams, read.times)?;
    let seen = Seen {
        joined: &joined,
        presences: &presences,
        times: read.times,
    };
    let participants = participants_of(alloc, announced, read, seen)?;
    let visits = visits_of(alloc, &participants, seen)?;
    Ok(Attending {
        participants,
        visits,
    })
}

/// Who has two lives, where the recording has times.
fn lives_of(alloc: Global, known: &Known, times: &Times) -> Result<Vec<TwoLives>, Memory>
    ensures { IfOk result (λ found. (recording : List (List ℕ)) → recorded.IsKnownOf (acts_read.timed_acts recording times.now.of_datagrams) known.now
        → two_lives.AreTwoLivesIn recording times.now.of_datagrams found.items) }
{
    let lives = known.lives()?;
    if !times.are_there() {
        return Ok(Vec::new(alloc));
    }
    let found = first_lives(alloc, &lives)?;
    Ok(found)
}

/// Who is there, and what discovery has told whom, by what is known of that.
pub(crate) fn discovered_in<'a>(
    alloc: Global,
    announced: &Announced<'_>,
    read: &ReadRecording<'_, 'a, '_, '_>,
    known: &Known,
) -> Result<Discovered<'a>, Memory>
    requires { recorded.IsKnownOf (acts_read.timed_acts (map (λ datagram. datagram.now) read.now.datagrams.now) read.now.times.now.of_datagrams) known.now }
    ensures participants { IfOk result (λ found. (intake : intake_spec.Intake) → index.IsIndexBy intake read.now.index.now
        → map placed.placed_value read.now.announcements.now ≡ announcements.announcements_in intake.announcing
        → announcing.IsAnnouncedBy (intake_spec.acts_together intake.announcing) announced.now
        → found.participants.items
        ≡ map (participants_spec.participant_told intake (map (λ datagram. datagram.now) read.now.datagrams.now) read.now.times.now) read.now.directory.now.participants) }
    ensures not_told { IfOk result (λ found. (intake : intake_spec.Intake) → index.IsIndexBy intake read.now.index.now
        → map placed.placed_value read.now.announcements.now ≡ announcements.announcements_in intake.announcing
        → announcing.IsAnnouncedBy (intake_spec.acts_together intake.announcing) announced.now
        → not_told_spec.AreNotToldIn intake (map (λ datagram. datagram.now) read.now.datagrams.now) read.now.times.now.of_datagrams read.now.directory.now
        (map not_told_spec.not_told_value found.not_told.items)) }
    ensures lives { IfOk result (λ found. two_lives.AreTwoLivesIn (map (λ datagram. datagram.now) read.now.datagrams.now) read.now.times.now.of_datagrams found.lives.items) }
{
    let Attending {
        participants,
        visits,
    } = attend(alloc, announced, read)?;
    let untold = known.untold(&visits, announced)?;
    let not_told = all_not_told(alloc, read.directory, &untold)?;
    let lives = lives_of(alloc, known, read.times)?;
    Ok(Discovered {
        participants,
        not_told,
        lives,
    })
}
