ghost use Rattle.std.specs.Prelude.{◌≡◌, ◌+◌, ◌<◌, ◌^◌, count_by, filter, map, IfOk, OnOk};
ghost use Rattle.rtps_receiver.specs.Values as values;
ghost use Rattle.rtps_discovery.specs.Directory as directory_spec;
ghost use Rattle.rtps_audit.specs.Delivered as delivered;
ghost use Rattle.rtps_audit.specs.Index as index;
ghost use Rattle.rtps_audit.specs.Intake as intake_spec;
ghost use Rattle.rtps_audit.specs.Placed as placed;
ghost use Rattle.rtps_audit.specs.Report as report;
ghost use Rattle.rtps_audit.specs.Said as said;
ghost use Rattle.rtps_audit.specs.Speech as speech;

use crate::announced_places::{AnnouncedPlace, note_places};
use crate::answer::{Answer, Answers, note_answers};
use crate::first_asked::FirstAsked;
use crate::groups::Groups;
use crate::placed::{Placed, note_acts};
use crate::said_between::Said;
use crate::tallies::Tallies;
use crate::verdict::Verdict;
use rtps_discovery::{Directory, Pair};
use rtps_ids::{Guid, Memory, SeqNum};
use rtps_receiver::{ActBody, Spoken, SpokenBody, Walk};
use rtps_wire::Tally;
use std::alloc::Global;

/// What one walk over a recording finds: the acts of each GUID, the answers of each pair, what is announced, and the
/// counts. It holds no octets, but borrows those of the recording.
#[derive(Drop)]
pub struct Index<'a> {
    pub(crate) acts: Groups<Guid, Placed<'a>>,
    pub(crate) answers: Answers,
    pub(crate) announced: Groups<Guid, AnnouncedPlace>,
    pub(crate) directory: Directory<'a>,
    pub(crate) tallies: Tallies,
    pub(crate) alloc: Global,
}

impl<'a> Index<'a> {
    /// The index of no datagrams. It takes no memory.
    pub fn new(alloc: Global) -> Self
        ensures { index.IsIndexBy intake_spec.no_intake result }
    {
        Index {
            acts: Groups::new(alloc),
            answers: Answers::new(alloc),
            announced: Groups::new(alloc),
            directory: Directory::new(alloc),
            tallies: Tallies::new(),
            alloc,
        }
    }

    /// Takes in one datagram more, the next in the order of sending: its tally, the acts that verdicts are by, and the acts
    /// of which the directory notes what they announce. Of a datagram as it is, both are all its acts. There are fewer than
    /// 2^64 datagrams. After `Memory` the index is of no use.
    pub fn note(
        &mut self,
        tally: Tally,
        acts: &[Spoken<'a>],
        announcing: &[Spoken<'a>],
    ) -> Result<(), Memory>
        requires { self.old.tallies.datagrams + 1 < 2 ^ 64 }
        ensures { OnOk result ((intake : intake_spec.Intake) → index.IsIndexBy intake self.old
            → index.IsIndexBy (intake_spec.intake_more intake tally (map values.spoken_value acts.now) (map values.spoken_value announcing.now)) self.new) }
    {
        let place = self.tallies.datagrams as usize + 1;
        note_acts(&mut self.acts, place, acts)?;
        note_answers(&mut self.answers, place, acts)?;
        note_places(&mut self.announced, place, announcing)?;
        let _ = self.directory.note_all(announcing)?;
        self.tallies.note(tally, undirected_among(acts));
        Ok(())
    }

    /// The index of a recording, any datagrams in the order of sending. The octets of each are read once. `Memory` is
    /// answered where there is none for it.
    pub fn build(alloc: Global, recording: &[&'a [u8]]) -> Result<Index<'a>, Memory>
        ensures { IfOk result (index.IsIndexOf (map (λ datagram. datagram.now) recording.now)) }
    {
        let mut index = Index::new(alloc);
        let mut walk = Walk::new(alloc);
        for datagram in recording {
            let tally = walk.read(datagram)?;
            index.note(tally, walk.acts(), walk.acts())?;
        }
        Ok(index)
    }

    /// The acts from this GUID, by datagram and then by place: of a writer its DATA, HEARTBEAT, GAP and, in an index with
    /// samples, DATA_FRAG, of a reader its ACKNACK and, in an index with samples, NACK_FRAG. It takes no memory.
    pub fn acts_of(&self, origin: Guid) -> &[Placed<'a>]
        ensures { (intake : intake_spec.Intake) → index.IsIndexBy intake self.now
            → map placed.placed_value result.now ≡ filter (placed.is_from origin) (placed.placed_in intake.acts) }
    {
        self.acts.of(origin)
    }

    /// The answers of a pair's reader to its writer, in the order of sending. It takes no memory.
    pub fn answers_of(&self, pair: Pair) -> &[Answer]
        ensures { (intake : intake_spec.Intake) → index.IsIndexBy intake self.now
            → result.now ≡ placed.answers_among pair (placed.placed_in intake.acts) }
    {
        self.answers.of(pair)
    }

    /// Where the recording announces the endpoint of this GUID, as a writer or a reader, in the order of sending. It takes no
    /// memory.
    pub fn announced_at(&self, guid: Guid) -> &[AnnouncedPlace]
        ensures { (intake : intake_spec.Intake) → index.IsIndexBy intake self.now
            → result.now ≡ placed.announced_among guid (placed.placed_in intake.announcing) }
    {
        self.announced.of(guid)
    }

    /// What the recording announces. It takes no memory.
    pub fn directory(&self) -> &Directory<'a>
        ensures { (intake : intake_spec.Intake) → index.IsIndexBy intake self.now → directory_spec.IsMapOf (intake_spec.acts_together intake.announcing) result.now }
    {
        &self.directory
    }

    /// Judges what the recording says of a writer and a reader, any two GUIDs, of the writer's numbers from `from` on, by
    /// what the two said. Smaller numbers are not asked for, as of [`crate::judge_from`]. `Memory` is answered where what
    /// is kept of that cannot grow.
    pub fn judge_from(&self, pair: Pair, from: SeqNum) -> Result<Verdict, Memory>
        ensures { (intake : intake_spec.Intake) → index.IsIndexBy intake self.now
            → IfOk result (delivered.IsExactVerdictFrom from (speech.speech_by pair.writer pair.reader intake.acts)) }
    {
        self.judge_until(pair, FirstAsked::of(from), None)
    }

    /// Judges by the datagrams before this one, which is counted from 1, as [`Index::judge_from`] does by all: what stands behind
    /// them is as if it were not recorded.
    pub fn judge_until(
        &self,
        pair: Pair,
        from: FirstAsked,
        until: Option<u64>,
    ) -> Result<Verdict, Memory>
        ensures { (intake : intake_spec.Intake) → index.IsIndexBy intake self.now
            → IfOk result (delivered.IsExactVerdictFrom from (speech.speech_by pair.writer pair.reader (said.datagrams_until until intake.acts))) }
    {
        Said::until(self, pair, until).judge_from(self.alloc, pair, from)
    }

    /// Judges by all of the writer's numbers, as [`Index::judge_from`] does.
    pub fn judge(&self, pair: Pair) -> Result<Verdict, Memory>
        ensures { (intake : intake_spec.Intake) → index.IsIndexBy intake self.now
            → IfOk result (delivered.IsExactVerdict (speech.speech_by pair.writer pair.reader intake.acts)) }
    {
        self.judge_from(pair, SeqNum::first())
    }
}

/// Whether an act is an ACKNACK for everyone.
fn is_undirected(act: &Spoken<'_>) -> bool
    ensures { result ≡ report.is_undirected (values.spoken_value act.now) }
{
    match &act.body {
        SpokenBody::Act(ActBody::AckNack(_)) => act.dest.is_none(),
        SpokenBody::Act(ActBody::Data(_))
        | SpokenBody::Act(ActBody::Heartbeat(_))
        | SpokenBody::Act(ActBody::Gap(_))
        | SpokenBody::DataFrag(_)
        | SpokenBody::NackFrag(_) => false,
    }
}

/// How many ACKNACKs for everyone are among acts.
pub fn undirected_among(acts: &[Spoken<'_>]) -> u64
    ensures { result ≡ count_by report.is_undirected (map values.spoken_value acts.now) }
{
    let mut undirected = 0u64;
    for act in acts {
        if is_undirected(act) {
            undirected += 1;
        }
    }
    undirected
}
