ghost use Rattle.std.specs.Prelude.{◌≡◌, ◌++◌, IfOk, List, OnOk, map};
ghost use Rattle.rtps_receiver.specs.Values as values;
ghost use Rattle.rtps_audit.specs.Index as index_spec;
ghost use Rattle.rtps_audit.specs.Intake as intake;
ghost use Rattle.rtps_audit.specs.Placed as placed;
ghost use Rattle.rtps_fragments.specs.Announcements as announcements_spec;
ghost use Rattle.rtps_fragments.specs.Hearing as hearing;
ghost use Rattle.rtps_who.specs.Introducing as introducing;
ghost use Rattle.rtps_who.specs.Recorded as recorded;
ghost use Rattle.rtps_who.specs.Telling as telling;
ghost use Rattle.rtps_report.specs.Ends as ends;

use crate::talk::ReadRecording;
use bumpalo::Bump;
use rtps_audit::Placed;
use rtps_fragments::laws::acts_are_overheard_without_fragments;
use rtps_fragments::{have_fragments, overheard_of};
use rtps_ids::Memory;
use rtps_policies::Address;
use rtps_who::{Introductions, Node, Process, ToldNodes, Who, tells_nodes};
use std::alloc::Global;

/// By what people know a writer, a reader or a participant.
#[derive(Clone, Copy)]
pub struct End<'a> {
    /// Its node; of a participant the one that it has alone.
    pub node: Option<Node<'a>>,
    pub process: Process<'a>,
    /// The address of its participant.
    pub address: Option<Address>,
}

/// What acts announce of processes, of the writers that tell of nodes, and of parameter services.
fn introductions_of<'a>(
    alloc: Global,
    announcements: &[Placed<'a>],
) -> Result<Introductions<'a>, Memory>
    ensures { IfOk result (introducing.IsIntroducedBy (map (λ placed. placed.act) (map placed.placed_value announcements.now))) }
{
    let mut introductions = Introductions::new(alloc);
    for placed in announcements {
        introductions.note(&placed.act)?;
    }
    Ok(introductions)
}

/// Notes the nodes that the acts of a writer tell. After `Memory` what is kept is of no use.
fn note_writer<'a>(
    told: &mut ToldNodes<'a>,
    introductions: &Introductions<'_>,
    acts: &[Placed<'a>],
) -> Result<(), Memory>
    ensures { OnOk result ((announcing before : List values.ActValue) → introducing.IsIntroducedBy announcing introductions.now → telling.IsToldBy announcing before told.old
        → telling.IsToldBy announcing (before ++ map (λ placed. placed.act) (map placed.placed_value acts.now)) told.new) }
{
    for placed in acts {
        told.note(introductions, &placed.act)?;
    }
    Ok(())
}

/// Notes the nodes that these acts tell, by the samples in fragments that they tell whoever hears them. After `Memory` what is kept is of no
/// use.
fn note_overheard<'a>(
    alloc: Global,
    told: &mut ToldNodes<'a>,
    introductions: &Introductions<'_>,
    acts: &[Placed<'a>],
    arena: &'a Bump,
) -> Result<(), Memory>
    ensures { OnOk result ((announcing before : List values.ActValue) → introducing.IsIntroducedBy announcing introductions.now → telling.IsToldBy announcing before told.old
        → telling.IsToldBy announcing (before ++ map (λ placed. placed.act) (hearing.overheard_of (map placed.placed_value acts.now))) told.new) }
{
    acts_are_overheard_without_fragments();
    if !have_fragments(acts) {
        return note_writer(told, introductions, acts);
    }
    let heard = overheard_of(alloc, arena, acts)?;
    note_writer(told, introductions, heard)
}

/// What the writers that tell of nodes tell, one writer after another.
fn told_of<'a>(
    alloc: Global,
    introductions: &Introductions<'_>,
    read: &ReadRecording<'_, 'a, '_, '_>,
) -> Result<ToldNodes<'a>, Memory>
    ensures { IfOk result (λ told. (intake : intake.Intake) (announcing : List values.ActValue) → index_spec.IsIndexBy intake read.now.index.now → introducing.IsIntroducedBy announcing introductions.now
        → telling.IsToldBy announcing (ends.acts_told intake read.now.directory.now.endpoints) told) }
{
    let mut told = ToldNodes::new(alloc);
    for endpoint in &read.directory.endpoints()? {
        if tells_nodes(endpoint) {
            let acts = read.index.acts_of(endpoint.guid);
            note_overheard(alloc, &mut told, introductions, acts, read.arena)?;
        }
    }
    Ok(told)
}

/// By which names people know the ends of a recording: by its announcements, its index, and what it announces.
pub(crate) fn who_of<'a>(
    alloc: Global,
    read: &ReadRecording<'_, 'a, '_, '_>,
) -> Result<Who<'a>, Memory>
    ensures { IfOk result (λ who. (intake : intake.Intake) → index_spec.IsIndexBy intake read.now.index.now → map placed.placed_value read.now.announcements.now ≡ announcements_spec.announcements_in intake.announcing
        → recorded.IsWhoIn (ends.recorded_in intake read.now.directory.now.endpoints) who) }
{
    let introductions = introductions_of(alloc, read.announcements)?;
    let told = told_of(alloc, &introductions, read)?;
    Ok(Who {
        introductions,
        told,
    })
}
