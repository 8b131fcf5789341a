ghost use Rattle.std.specs.Prelude.{◌≡◌, ◌≢◌, ◌∷◌, [], ◌++◌, if◌then◌else◌, List, IfOk, OnOk, OnErr, length, map};
ghost use Rattle.rtps_receiver.specs.Acts as acts_spec;
ghost use Rattle.std.specs.Option.{option_map};
ghost use Rattle.rtps_receiver.specs.Values as values;
ghost use Rattle.rtps_discovery.specs.Directory as directory;
ghost use Rattle.rtps_discovery.specs.Endpoint as endpoint;
ghost use Rattle.rtps_discovery.specs.Matching as matching;
ghost use Rattle.rtps_discovery.specs.Notice as notice_spec;

use crate::announcement::{read_endpoint, read_participant};
use crate::endpoint::Endpoint;
use crate::kept::{
    Kept, count_unsettled, keep_copied, keep_endpoint, keep_participant, settled, settled_at,
};
use crate::matching::{Match, Pair, reliable_among, reliable_pairs};
use crate::notice::{Noted, Subject, notice};
use crate::topic_index::matches_among;
use bumpalo::Bump;
use rtps_ids::{Guid, Memory};
use rtps_receiver::{Act, Spoken, SpokenBody};
use std::alloc::Global;
use std::collections::{BTreeMap, BTreeSet};
use std::marker::Model;

/// The participants and endpoints that acts announced; the order of the acts does not matter (DDSI-RTPS 2.5, 8.5
/// "Discovery Module"). Topics and types are parts of the caller's datagrams. Each listing is a new `Vec`, or `Memory`
/// if there is no memory for it.
#[derive(Drop)]
pub struct Directory<'a> {
    participants: BTreeSet<Guid>,
    endpoints: BTreeMap<Guid, Kept<'a>>,
    alloc: Global,
}

impl<'a> Model for Directory<'a> {
    ghost use Rattle.rtps_discovery.specs.Directory as directory;

    ghost Value = { directory.DirectoryValue };

    ghost use Rattle.rtps_discovery.specs.Kept as kept;

    ghost view = { (λ directory. record {
      participants = directory.participants.keys;
      endpoints = kept.entries_value directory.endpoints.entries;
    }) };
}

impl<'a> Directory<'a> {
    /// The directory of no acts. It takes no memory.
    pub fn new(alloc: Global) -> Self
        ensures map { directory.IsMapOf [] result }
        ensures empty { result ≡ record { participants = []; endpoints = [] } }
    {
        Directory {
            participants: BTreeSet::new(alloc),
            endpoints: BTreeMap::new(alloc),
            alloc,
        }
    }

    /// Keeps what an act announces, whatever its source and destination. An act that announces nothing, that has a
    /// fault, or that announces what is known already changes nothing and takes no memory. What is known already is
    /// `Kept` too. After `Memory` the directory is as it was.
    pub fn note(&mut self, act: &Act<'a>) -> Result<Noted, Memory>
        ensures map { OnOk result ((acts : List values.ActValue)
            → directory.IsMapOf acts self.old → directory.IsMapOf (acts ++ values.act_value act.now ∷ []) self.new) }
        ensures noted { IfOk result (λ noted. noted ≡ notice_spec.answer_of (notice_spec.announcement_of (values.act_value act.now))) }
        ensures err { OnErr result (self.new ≡ self.old) }

        // With nothing to keep, it does not fail.
        ensures unkept { let answer = notice_spec.answer_of (notice_spec.announcement_of (values.act_value act.now)) in
            answer ≢ Noted.Kept → (result ≡ Ok answer) × (self.new ≡ self.old) }
        ensures again { let answer = notice_spec.answer_of (notice_spec.announcement_of (values.act_value act.now)) in
            (acts : List values.ActValue) → directory.IsMapOf acts self.old → notice_spec.RepeatsOneOf acts (values.act_value act.now)
            → (result ≡ Ok answer) × (self.new ≡ self.old) }
    {
        let spoken = Spoken {
            at: act.at,
            source: act.source,
            version: act.version,
            vendor: act.vendor,
            dest: act.dest,
            stamp: act.stamp,
            order: act.order,
            body: SpokenBody::Act(act.body.copied()),
        };
        self.note_spoken(&spoken)
    }

    /// [`Directory::note`] of an act among what a walk hands on. Of a DATA_FRAG or a NACK_FRAG nothing is kept.
    pub fn note_spoken(&mut self, act: &Spoken<'a>) -> Result<Noted, Memory>
        ensures map { OnOk result ((acts : List values.ActValue)
            → directory.IsMapOf acts self.old → directory.IsMapOf (acts ++ values.spoken_value act.now ∷ []) self.new) }
        ensures noted { IfOk result (λ noted. noted ≡ notice_spec.answer_of (notice_spec.announcement_of (values.spoken_value act.now))) }
        ensures err { OnErr result (self.new ≡ self.old) }

        // With nothing to keep, it does not fail.
        ensures unkept { let answer = notice_spec.answer_of (notice_spec.announcement_of (values.spoken_value act.now)) in
            answer ≢ Noted.Kept → (result ≡ Ok answer) × (self.new ≡ self.old) }
        ensures again { let answer = notice_spec.answer_of (notice_spec.announcement_of (values.spoken_value act.now)) in
            (acts : List values.ActValue) → directory.IsMapOf acts self.old → notice_spec.RepeatsOneOf acts (values.spoken_value act.now)
            → (result ≡ Ok answer) × (self.new ≡ self.old) }
    {
        let Some((subject, payload)) = notice(act) else {
            return Ok(Noted::Nothing);
        };
        match subject {
            Subject::Participant => match read_participant(payload) {
                Ok(guid) => {
                    keep_participant(&mut self.participants, guid)?;
                    Ok(Noted::Kept)
                }
                Err(fault) => Ok(Noted::Fault(fault)),
            },
            Subject::Endpoint(side) => match read_endpoint(payload, side) {
                Ok(endpoint) => {
                    keep_endpoint(&mut self.endpoints, endpoint)?;
                    Ok(Noted::Kept)
                }
                Err(fault) => Ok(Noted::Fault(fault)),
            },
        }
    }

    /// [`Directory::note_spoken`] of an act whose octets are let go afterwards: the names of an endpoint are copied into an arena, where its GUID is
    /// new.
    pub fn note_copied(&mut self, act: &Spoken<'_>, names: &'a Bump) -> Result<Noted, Memory>
        ensures map { OnOk result ((acts : List values.ActValue)
            → directory.IsMapOf acts self.old → directory.IsMapOf (acts ++ values.spoken_value act.now ∷ []) self.new) }
        ensures noted { IfOk result (λ noted. noted ≡ notice_spec.answer_of (notice_spec.announcement_of (values.spoken_value act.now))) }
        ensures err { OnErr result (self.new ≡ self.old) }

        // With nothing to keep, it does not fail.
        ensures unkept { let answer = notice_spec.answer_of (notice_spec.announcement_of (values.spoken_value act.now)) in
            answer ≢ Noted.Kept → (result ≡ Ok answer) × (self.new ≡ self.old) }
        ensures again { let answer = notice_spec.answer_of (notice_spec.announcement_of (values.spoken_value act.now)) in
            (acts : List values.ActValue) → directory.IsMapOf acts self.old → notice_spec.RepeatsOneOf acts (values.spoken_value act.now)
            → (result ≡ Ok answer) × (self.new ≡ self.old) }
    {
        let Some((subject, payload)) = notice(act) else {
            return Ok(Noted::Nothing);
        };
        match subject {
            Subject::Participant => match read_participant(payload) {
                Ok(guid) => {
                    keep_participant(&mut self.participants, guid)?;
                    Ok(Noted::Kept)
                }
                Err(fault) => Ok(Noted::Fault(fault)),
            },
            Subject::Endpoint(side) => match read_endpoint(payload, side) {
                Ok(endpoint) => {
                    keep_copied(&mut self.endpoints, &endpoint, names)?;
                    Ok(Noted::Kept)
                }
                Err(fault) => Ok(Noted::Fault(fault)),
            },
        }
    }

    /// The GUIDs of the participants, in order.
    pub fn participants(&self) -> Result<Vec<Guid>, Memory>
        ensures { IfOk result (λ guids. guids.items ≡ self.now.participants) }
    {
        let mut guids = Vec::with_capacity(self.alloc, self.participants.len())?;
        guids.extend(self.participants.iter().copied())?;
        Ok(guids)
    }

    /// The endpoints whose announcements agree, in the order of their GUIDs.
    #[tactic(auto, using(crate::proofs::Entries::settled))]
    pub fn endpoints(&self) -> Result<Vec<Endpoint<'a>>, Memory>
        ensures { IfOk result (λ endpoints. map endpoint.endpoint_value endpoints.items ≡ directory.settled_in self.now.endpoints) }
    {
        settled(self.alloc, &self.endpoints)
    }

    /// The endpoint of a GUID. None if there is none, or if its announcements disagree.
    pub fn endpoint(&self, guid: Guid) -> Option<Endpoint<'a>>
        ensures { option_map endpoint.endpoint_value result ≡ directory.settled_at self.now.endpoints guid }
    {
        settled_at(&self.endpoints, guid)
    }

    /// The matches among the endpoints whose announcements agree, sorted by writer and then by reader.
    pub fn matched(&self) -> Result<Vec<Match>, Memory>
        ensures { IfOk result (λ found. found.items ≡ matching.matches_among (directory.settled_in self.now.endpoints)) }
    {
        let endpoints = self.endpoints()?;
        matches_among(self.alloc, &endpoints)
    }

    /// The pairs of the matches in which both are RELIABLE, in the same order. It takes no memory for other matches.
    #[tactic(auto, using(crate::proofs::ReliablePairs::of_the_reliable))]
    pub fn pairs(&self) -> Result<Vec<Pair>, Memory>
        ensures { IfOk result (λ pairs. pairs.items
            ≡ matching.reliable_pairs (matching.matches_among (directory.settled_in self.now.endpoints))) }
    {
        // There may be many matches of other endpoints, and none of them is such a pair.
        let reliable = reliable_among(self.alloc, &self.endpoints()?)?;
        reliable_pairs(self.alloc, &matches_among(self.alloc, &reliable)?)
    }

    /// How many GUIDs have announcements that disagree.
    #[tactic(auto, using(crate::proofs::Entries::unsettled))]
    pub fn unsettled(&self) -> usize
        ensures { result ≡ length (directory.unsettled_in self.now.endpoints) }
    {
        count_unsettled(&self.endpoints)
    }

    /// Notes acts in their order, as [`Directory::note`] does, and says how many are announcements with a fault. Only
    /// DATA can be announcements, so the DATA of a recording are enough. After `Memory` the acts before one of them are
    /// noted.
    pub fn note_all(&mut self, acts: &[Spoken<'a>]) -> Result<u64, Memory>
        ensures map { OnOk result ((before : List values.ActValue)
            → directory.IsMapOf before self.old → directory.IsMapOf (before ++ map values.spoken_value acts.now) self.new) }
        ensures faults { IfOk result (λ faults. faults ≡ notice_spec.faults_in (map values.spoken_value acts.now)) }

        // The same, if these are the DATA among other acts.
        ensures data_map { OnOk result ((before all : List values.ActValue) → map values.spoken_value acts.now ≡ acts_spec.data_among all
            → directory.IsMapOf before self.old → directory.IsMapOf (before ++ all) self.new) }
        ensures data_faults { (all : List values.ActValue) → map values.spoken_value acts.now ≡ acts_spec.data_among all
            → IfOk result (λ faults. faults ≡ notice_spec.faults_in all) }
        ensures err { OnErr result (directory.HasNotedSome (map values.spoken_value acts.now) self.old self.new) }
    {
        let faults = self.note_each(acts)?;
        Ok(faults)
    }

    /// Notes acts in their order, as [`Directory::note_copied`] does, and says how many are announcements with a fault. After `Memory` the acts
    /// before one of them are noted.
    pub fn note_all_copied(&mut self, acts: &[Spoken<'_>], names: &'a Bump) -> Result<u64, Memory>
        ensures map { OnOk result ((before : List values.ActValue)
            → directory.IsMapOf before self.old → directory.IsMapOf (before ++ map values.spoken_value acts.now) self.new) }
        ensures faults { IfOk result (λ faults. faults ≡ notice_spec.faults_in (map values.spoken_value acts.now)) }
        ensures err { OnErr result (directory.HasNotedSome (map values.spoken_value acts.now) self.old self.new) }
    {
        let mut faults = 0u64;
        for act in acts {
            let noted = self.note_copied(act, names)?;
            faults += fault_count(noted);
        }
        Ok(faults)
    }

    /// Notes acts in their order, and says how many are announcements with a fault.
    fn note_each(&mut self, acts: &[Spoken<'a>]) -> Result<u64, Memory>
        ensures map { OnOk result ((before : List values.ActValue)
            → directory.IsMapOf before self.old → directory.IsMapOf (before ++ map values.spoken_value acts.now) self.new) }
        ensures faults { IfOk result (λ faults. faults ≡ notice_spec.faults_in (map values.spoken_value acts.now)) }
        ensures err { OnErr result (directory.HasNotedSome (map values.spoken_value acts.now) self.old self.new) }
    {
        let mut faults = 0u64;
        for act in acts {
            let noted = self.note_spoken(act)?;
            faults += fault_count(noted);
        }
        Ok(faults)
    }
}

/// 1 for an act with a fault, and else 0.
fn fault_count(noted: Noted) -> u64
    ensures { result ≡ (if notice_spec.is_fault noted then 1 else 0) }
{
    match noted {
        Noted::Nothing | Noted::Kept => 0,
        Noted::Fault(_) => 1,
    }
}
