ghost use Rattle.std.specs.Prelude.{◌≡◌, filter, IfOk, Option, map, not};
ghost use Rattle.std.specs.BTreeSet.{contains};
ghost use Rattle.rtps_audit.specs.Index as index_spec;
ghost use Rattle.rtps_audit.specs.Intake as intake_spec;
ghost use Rattle.rtps_audit.specs.Placed as placed;
ghost use Rattle.rtps_discovery.specs.Listings as listings;
ghost use Rattle.rtps_evidence.specs.OtherSide as other_side;
ghost use Rattle.rtps_evidence.specs.Spans as spans;
ghost use Rattle.rtps_fragments.specs.RecordedSamples as recorded_samples;
ghost use Rattle.rtps_fragments.specs.declared.fragments.Fragments.TheVariants.{Read};
ghost use Rattle.rtps_policies.specs.Announcing as announcing;
ghost use Rattle.rtps_policies.specs.Silence as silence;
ghost use Rattle.rtps_policies.specs.Unmatched as unmatched_spec;
ghost use Rattle.rtps_report.specs.Acquaintance as acquaintance_spec;
ghost use Rattle.rtps_report.specs.Asked as asked_spec;
ghost use Rattle.rtps_report.specs.BestEfforts as best_efforts;
ghost use Rattle.rtps_report.specs.Ends as ends;
ghost use Rattle.rtps_report.specs.Participants as participants_spec;
ghost use Rattle.rtps_report.specs.Stays as stays;
ghost use Rattle.rtps_report.specs.Rows as rows;
ghost use Rattle.rtps_who.specs.Recorded as recorded;
ghost use Rattle.rtps_who.specs.Samples as samples;
ghost use Rattle.std.specs.Option.{option_map};
ghost use Rattle.rtps_report.specs.Talk as talk_spec;

use crate::acquaintance::Acquaintance;
use crate::asked::Asked;
use crate::best_effort::{
    BestEffort, Counted, HeldPair, arrived_among, held_among, sums_of, total_of,
};
use crate::discovered::{Discovered, discovered_in};
use crate::end::{End, who_of};
use crate::late_matches::{LateMatch, judged_pairs, late_among};
use crate::not_told::NotTold;
use crate::participant::{Participant, is_silent};
use crate::rows::{are_observed, is_chosen};
use crate::topics::topic_of;
use crate::two_lives::TwoLives;
use crate::visits::Seen;
use crate::ways::{Ways, ways_of_counted};
use bumpalo::Bump;
use rtps_audit::{Index, Placed};
use rtps_discovery::{Directory, Match, Pair};
use rtps_evidence::{
    Location, OtherSide, Sides, Times, acknowledges, arrived_of, left_in, recorded_of,
};
use rtps_ids::{Guid, GuidPrefix, Memory};
use rtps_policies::{
    Announced, Namings, OneWay, Silence, Unmatched, one_way_namings, reason_of_silence,
    unmatched_pairs,
};
use rtps_who::{Node, Who};
use std::alloc::{AllocError, Global};
use std::collections::{BTreeMap, BTreeSet};

/// Who does not talk, and what is known of those who do beside their rows.
#[derive(Drop)]
pub struct Talk<'a> {
    pub(crate) announced: Announced<'a>,
    pub(crate) who: Who<'a>,
    pub(crate) namings: Namings,
    /// All that do not match, of the topics that are asked for.
    pub(crate) unfit: BTreeSet<Pair>,
    /// Writers and readers of one topic that do not match, of the topics that are asked for, by writer and then by reader: those that
    /// do not talk either.
    pub unmatched: Vec<Unmatched<'a>>,
    /// Those that talk all the same, since the reader acknowledges numbers of the writer: they have a row.
    pub talking: Vec<Unmatched<'a>>,
    /// Matches of topics that are asked for, reliable or not, of which the recording cannot speak, by writer and then by reader.
    pub left_out: Vec<LeftOut<'a>>,
    /// Who names another that never answers, by the one that names and then by the other.
    pub one_way: Vec<OneWay>,
    /// The pairs of best effort that are observed, by topic.
    pub best_effort: Vec<BestEffort<'a>>,
    /// The sums of all of them.
    pub best_effort_total: BestEffort<'a>,
    /// Those of them that are held against another recording, by writer and then by reader.
    pub held: Vec<HeldPair<'a>>,
    /// What arrived of these, by topic.
    pub held_sums: Vec<BestEffort<'a>>,
    /// What arrived of all of them.
    pub held_total: BestEffort<'a>,
    /// By how many pairs of best effort the two recordings are which way round.
    pub(crate) ways: Ways,
    /// Those that are announced, by GUID.
    pub participants: Vec<Participant>,
    /// Who of them was never told of which endpoints of another, by that one and then by the one that was not told.
    pub not_told: Vec<NotTold<'a>>,
    /// Participants of which two lives have one GUID, by GUID. There are none of a recording without times.
    pub lives: Vec<TwoLives>,
    /// Which pairs matched late, of those of which rows may be.
    pub(crate) late: BTreeMap<Pair, LateMatch>,
}

/// A match of which the recording cannot speak: the reader's participant never names the writer's.
#[derive(Clone, Copy)]
pub struct LeftOut<'a> {
    pub topic: &'a [u8],
    pub pair: Pair,
}

/// What is known of a recording, to say who does not talk.
#[derive(Clone, Copy)]
pub(crate) struct ReadRecording<'r, 'a, 'o, 'b> {
    pub(crate) datagrams: &'r [&'a [u8]],
    pub(crate) times: &'r Times,
    pub(crate) asked: &'r Asked<'r>,
    pub(crate) index: &'r Index<'a>,
    pub(crate) other: Option<OtherSide<'o, 'b>>,
    pub(crate) directory: &'r Directory<'a>,
    pub(crate) announcements: &'r [Placed<'a>],
    /// Where the octets are kept that the report borrows, of samples that come in fragments.
    pub(crate) arena: &'a Bump,
}

impl<'a> Talk<'a> {
    /// By what people know a writer, a reader or a participant.
    pub fn end(&self, guid: Guid) -> End<'a>
        ensures { ends.end_value result ≡ (talk_spec.talk_value self.now).ends guid }
    {
        End {
            node: self.who.node_of_end(guid),
            process: self.who.process(guid.prefix),
            address: self.announced.host_of(guid.prefix).address,
        }
    }

    /// The node of an endpoint.
    pub fn node(&self, endpoint: Guid) -> Option<Node<'a>>
        ensures { option_map samples.node_value result ≡ (talk_spec.talk_value self.now).node endpoint }
    {
        self.who.node(endpoint)
    }

    /// The nodes of a participant.
    pub fn nodes(&self, alloc: Global, prefix: GuidPrefix) -> Result<Vec<Node<'a>>, AllocError>
        ensures { IfOk result (λ nodes. map samples.node_value nodes.items ≡ (talk_spec.talk_value self.now).nodes prefix) }
    {
        self.who.nodes(alloc, prefix)
    }

    /// Why the recording says nothing of a pair that matches, and whose reader's participant never names the writer's.
    pub fn silence(&self, pair: Pair) -> Silence
        ensures { result ≡ silence.silence_by self.now.announced self.now.namings pair }
    {
        reason_of_silence(&self.announced, &self.namings, pair)
    }

    /// That the two of a pair matched late, if they did. Of pairs of which no row can be nothing is said.
    pub fn late(&self, pair: Pair) -> Option<LateMatch>
        ensures { result ≡ (talk_spec.talk_value self.now).late pair }
    {
        self.late.get(&pair).copied()
    }

    /// Whether the two of a pair do not match.
    pub(crate) fn is_unfit(&self, pair: Pair) -> bool
        ensures { result ≡ contains listings.pair_cmp self.now.unfit pair }
    {
        self.unfit.contains(&pair)
    }
}

/// What is announced, by those acts of a recording that announce something.
fn announced_in<'a>(alloc: Global, announcements: &[Placed<'a>]) -> Result<Announced<'a>, Memory>
    ensures { IfOk result (announcing.IsAnnouncedBy (map (λ placed. placed.act) (map placed.placed_value announcements.now))) }
{
    let mut announced = Announced::new(alloc);
    for placed in announcements {
        announced.note(&placed.act)?;
    }
    Ok(announced)
}

/// The writer and the reader of two that do not match.
pub(crate) fn pair_of(one: &Unmatched<'_>) -> Pair
    ensures { result ≡ unmatched_spec.pair_of (unmatched_spec.unmatched_value one.now) }
{
    Pair {
        writer: one.writer.endpoint.guid,
        reader: one.reader.endpoint.guid,
    }
}

/// The pairs that do not match.
fn unfit_of(alloc: Global, unmatched: &[Unmatched<'_>]) -> Result<BTreeSet<Pair>, Memory>
    ensures { IfOk result (talk_spec.AreUnfit (map unmatched_spec.unmatched_value unmatched.now)) }
{
    let mut unfit = BTreeSet::new(alloc);
    for one in unmatched {
        unfit.insert(pair_of(one))?;
    }
    Ok(unfit)
}

/// Two that do not match, parted by whether they talk.
#[derive(Drop)]
struct PartedUnfit<'a> {
    silent: Vec<Unmatched<'a>>,
    talking: Vec<Unmatched<'a>>,
}

impl<'a> PartedUnfit<'a> {
    ghost use Rattle.std.specs.Prelude.{◌++◌, ◌∷◌, [], if◌then◌else◌, OnOk, not};

    /// One more, which talks or does not.
    fn push(&mut self, one: Unmatched<'a>, talks: bool) -> Result<(), Memory>
        ensures silent { OnOk result (self.new.silent.items ≡ self.old.silent.items ++ (if not talks then one.entry ∷ [] else [])) }
        ensures talking { OnOk result (self.new.talking.items ≡ self.old.talking.items ++ (if talks then one.entry ∷ [] else [])) }
    {
        if talks {
            self.talking.push(one)?;
        } else {
            self.silent.push(one)?;
        }
        Ok(())
    }
}

/// Those of a recording, parted.
fn parted_unfit<'a>(
    alloc: Global,
    index: &Index<'_>,
    unfit: Vec<Unmatched<'a>>,
) -> Result<PartedUnfit<'a>, Memory>
    ensures { IfOk result (λ parted. (intake : intake_spec.Intake) → index_spec.IsIndexBy intake index.now
        → (map unmatched_spec.unmatched_value parted.silent.items ≡ filter (λ one. not (talk_spec.talks intake (unmatched_spec.pair_of one))) (map unmatched_spec.unmatched_value unfit.entry.items))
        × (map unmatched_spec.unmatched_value parted.talking.items ≡ filter (λ one. talk_spec.talks intake (unmatched_spec.pair_of one)) (map unmatched_spec.unmatched_value unfit.entry.items))) }
{
    let mut parted = PartedUnfit {
        silent: Vec::new(alloc),
        talking: Vec::new(alloc),
    };
    for one in unfit {
        let talks = acknowledges(index, pair_of(&one));
        parted.push(one, talks)?;
    }
    Ok(parted)
}

/// Whether a match of this topic is left out.
fn is_left_out(talk: &Talk<'_>, asked: &Asked<'_>, found: Match, topic: &[u8]) -> bool
    ensures { result ≡ talk_spec.is_left_out_by talk.now.unfit talk.now.namings (rows.chosen_by (asked_spec.asked_value asked.now) (recorded.node_in talk.now.who)) topic.now found }
{
    !talk.is_unfit(found.pair)
        && is_chosen(asked, &talk.who, topic, found.pair)
        && !are_observed(&talk.namings, found.pair)
}

/// The matches that are left out.
fn left_out_of<'a>(
    alloc: Global,
    talk: &Talk<'a>,
    read: &ReadRecording<'_, 'a, '_, '_>,
    matched: &[Match],
) -> Result<Vec<LeftOut<'a>>, Memory>
    ensures { IfOk result (λ left. map talk_spec.left_out_value left.items ≡ map (talk_spec.left_out_of read.now.directory.now.endpoints)
        (filter (talk_spec.is_left_out_of talk.now.unfit talk.now.namings (rows.chosen_by (asked_spec.asked_value read.now.asked.now) (recorded.node_in talk.now.who)) read.now.directory.now.endpoints) matched.now)) }
{
    let mut left = Vec::new(alloc);
    for found in matched {
        let topic = topic_of(read.directory, found.pair.writer);
        if is_left_out(talk, read.asked, *found, topic) {
            left.push(LeftOut {
                topic,
                pair: found.pair,
            })?;
        }
    }
    Ok(left)
}

/// Whether a match of this topic is counted as one of best effort.
fn is_counted(talk: &Talk<'_>, asked: &Asked<'_>, found: Match, topic: &[u8]) -> bool
    ensures { result ≡ talk_spec.is_counted_by talk.now.unfit talk.now.namings (rows.chosen_by (asked_spec.asked_value asked.now) (recorded.node_in talk.now.who)) topic.now found }
{
    !found.reliable
        && !talk.is_unfit(found.pair)
        && is_chosen(asked, &talk.who, topic, found.pair)
        && are_observed(&talk.namings, found.pair)
}

/// The pairs of best effort that are counted, of these matches.
fn counted_of<'a>(
    alloc: Global,
    talk: &Talk<'a>,
    read: &ReadRecording<'_, 'a, '_, '_>,
    matched: &[Match],
) -> Result<Vec<Counted<'a>>, Memory>
    ensures { IfOk result (λ counted. (intake : intake_spec.Intake) (other : Option other_side.OtherRecording) → index_spec.IsIndexBy intake read.now.index.now
        → other_side.IsOtherSide other read.now.other → talk_spec.AreCounted (asked_spec.asked_value read.now.asked.now) other intake read.now.directory.now.endpoints
        (filter (talk_spec.is_counted_of talk.now.unfit talk.now.namings (rows.chosen_by (asked_spec.asked_value read.now.asked.now) (recorded.node_in talk.now.who)) read.now.directory.now.endpoints) matched.now)
        (map best_efforts.counted_value counted.items)) }
{
    let sides = Sides {
        index: read.index,
        other: read.other,
        times: read.times,
        arena: read.arena,
    };
    let mut counted = Vec::new(alloc);
    for found in matched {
        let topic = topic_of(read.directory, found.pair.writer);
        if is_counted(talk, read.asked, *found, topic) {
            let pair = found.pair;
            let recorded = recorded_of(alloc, read.index, pair, read.asked.extent())?;
            let arrived = arrived_of(alloc, &sides, pair, read.asked.extent())?;
            counted.push(Counted {
                topic,
                pair,
                recorded,
                arrived,
            })?;
        }
    }
    Ok(counted)
}

/// When a participant leaves that joins at this place, if it does.
fn left_of(index: &Index<'_>, guid: Guid, place: Option<Location>) -> Option<u64>
    ensures { (intake : intake_spec.Intake) → index_spec.IsIndexBy intake index.now → result ≡ spans.left_in place guid (placed.placed_in intake.acts) }
{
    match place {
        Some(place) => left_in(index, guid, place),
        None => None,
    }
}

/// What is told of each participant, of those that are seen so.
pub(crate) fn participants_of(
    alloc: Global,
    announced: &Announced<'_>,
    read: &ReadRecording<'_, '_, '_, '_>,
    seen: Seen<'_>,
) -> Result<Vec<Participant>, Memory>
    ensures { IfOk result (λ participants. (intake : intake_spec.Intake) → index_spec.IsIndexBy intake read.now.index.now
        → participants_spec.AreJoined (placed.placed_in intake.announcing) seen.entry.joined.now
        → stays.ArePresencesOf (map (λ datagram. datagram.now) read.now.datagrams.now) read.now.times.now.of_datagrams seen.entry.presences.now
        → announcing.IsAnnouncedBy (intake_spec.acts_together intake.announcing) announced.now
        → participants.items
        ≡ map (participants_spec.participant_told intake (map (λ datagram. datagram.now) read.now.datagrams.now) read.now.times.now) read.now.directory.now.participants) }
{
    let end = read.times.of_last_frame();
    let mut participants = Vec::new(alloc);
    for guid in &read.directory.participants()? {
        let host = announced.host(*guid);
        let left = left_of(read.index, *guid, seen.joined.get(guid).copied());
        let latest = seen.presences.latest(guid.prefix);
        participants.push(Participant {
            guid: *guid,
            host,
            stay: seen.presences.stay(guid.prefix),
            left,
            silent: is_silent(host.lease, left, latest, end),
        })?;
    }
    Ok(participants)
}

/// Those that do not match and are asked for.
fn unfit_in<'a>(
    announced: &Announced<'a>,
    who: &Who<'_>,
    read: &ReadRecording<'_, 'a, '_, '_>,
) -> Result<Vec<Unmatched<'a>>, Memory>
    ensures { IfOk result (λ unfit. (traffic : silence.Traffic) → announcing.IsAnnouncedBy traffic.announcing announced.now
        → map unmatched_spec.unmatched_value unfit.items ≡ talk_spec.unfit_in (rows.chosen_by (asked_spec.asked_value read.now.asked.now) (recorded.node_in who.now)) traffic read.now.directory.now.endpoints) }
{
    let asked = read.asked;
    let mut unfit = unmatched_pairs(announced, read.directory)?;
    unfit.retain(|one| is_chosen(asked, who, one.writer.endpoint.topic, pair_of(one)));
    Ok(unfit)
}

/// Who does not talk in a recording, of the topics that are asked for, by who knows whom. `Memory` is answered where what is kept cannot grow.
pub(crate) fn talk_in<'a>(
    alloc: Global,
    read: &ReadRecording<'_, 'a, '_, '_>,
    acquaintance: Acquaintance<'_>,
) -> Result<Talk<'a>, Memory>
    requires { acquaintance_spec.IsAcquaintanceOf (map (λ datagram. datagram.now) read.now.datagrams.now) read.now.times.now.of_datagrams acquaintance }
    ensures talks { IfOk result (λ talk. (other : Option other_side.OtherRecording)
        → talk_spec.IsReadIn (recorded_samples.intake_as Read (map (λ datagram. datagram.now) read.now.datagrams.now)) other read.now
        → talk_spec.IsTalkOf (asked_spec.asked_value read.now.asked.now) other (map (λ datagram. datagram.now) read.now.datagrams.now)
        read.now.times.now (talk_spec.talk_value talk)) }
    ensures kept { IfOk result (λ talk. (other : Option other_side.OtherRecording)
        → talk_spec.IsReadIn (recorded_samples.intake_as Read (map (λ datagram. datagram.now) read.now.datagrams.now)) other read.now
        → talk_spec.IsKeptOf (asked_spec.asked_value read.now.asked.now) (recorded_samples.intake_as Read (map (λ datagram. datagram.now) read.now.datagrams.now))
        (talk_spec.traffic_of (map (λ datagram. datagram.now) read.now.datagrams.now)) read.now.directory.now.endpoints talk) }
{
    let announced = announced_in(alloc, read.announcements)?;
    let Discovered {
        participants,
        not_told,
        lives,
    } = discovered_in(alloc, &announced, read, &acquaintance.known)?;
    let Acquaintance {
        namings,
        known: _,
        matches,
        times: _,
    } = acquaintance;
    let who = who_of(alloc, read)?;
    let unfit = unfit_in(&announced, &who, read)?;
    let mut talk = Talk {
        unfit: unfit_of(alloc, &unfit)?,
        unmatched: Vec::new(alloc),
        talking: Vec::new(alloc),
        left_out: Vec::new(alloc),
        one_way: one_way_namings(alloc, &announced, &namings)?,
        best_effort: Vec::new(alloc),
        best_effort_total: total_of(&[]),
        held: Vec::new(alloc),
        held_sums: Vec::new(alloc),
        held_total: total_of(&[]),
        ways: Ways::none(),
        announced,
        who,
        namings,
        participants,
        not_told,
        lives,
        late: BTreeMap::new(alloc),
    };
    let parted = parted_unfit(alloc, read.index, unfit)?;
    talk.unmatched = parted.silent;
    talk.talking = parted.talking;
    let matched = read.directory.matched()?;
    let judged = judged_pairs(alloc, &matched, &talk.talking)?;
    talk.late = late_among(alloc, &matches, &talk.lives, &judged)?;
    talk.left_out = left_out_of(alloc, &talk, read, &matched)?;
    let mut counted = counted_of(alloc, &talk, read, &matched)?;
    talk.best_effort_total = total_of(&counted);
    talk.ways = ways_of_counted(&counted);
    talk.held = held_among(alloc, &counted)?;
    let mut arrived = arrived_among(alloc, &counted)?;
    talk.held_total = total_of(&arrived);
    talk.held_sums = sums_of(alloc, &mut arrived)?;
    talk.best_effort = sums_of(alloc, &mut counted)?;
    Ok(talk)
}
