ghost use Rattle.std.specs.Prelude.{ℕ, ◌≡◌, ◌≤◌, ◌<◌, ◌^◌, ◌++◌, ◌∷◌, [], filter, map, IfSome, List};
ghost use Rattle.std.specs.List.{find, list_any};
ghost use Rattle.std.specs.Option.{option_map};
ghost use Rattle.rtps_receiver.specs.Said as said;
ghost use Rattle.rtps_audit.specs.Index as index_spec;
ghost use Rattle.rtps_audit.specs.Intake as intake;
ghost use Rattle.rtps_audit.specs.Placed as placed_spec;
ghost use Rattle.rtps_evidence.specs.Missed as missed;
ghost use Rattle.rtps_evidence.specs.Newcomers as newcomers;
ghost use Rattle.rtps_evidence.specs.ReaderNotes as reader_notes;
ghost use Rattle.rtps_evidence.specs.Spans as spans;

use crate::location::{Location, is_behind};
use crate::newcomer::{Newcomer, Owing, lesser};
use crate::reader_notes::ReaderNotes;
use rtps_audit::{AnnouncedPlace, Answer, FirstAsked, Index, Placed};
use rtps_discovery::{Durability, Pair, leaves, leaving_writers};
use rtps_ids::{Guid, SeqNum};
use rtps_receiver::Numbers;

/// How much of a recording the row of a pair is by: what is owed to its reader.
#[derive(Clone, Copy)]
pub struct Span {
    /// Where the reader joins: the first act that announces it; None where none does.
    pub joined: Option<Location>,
    /// Whether the reader claims no number of the writer before that. Acts behind the place are then those
    /// since it joined; else all acts are.
    pub is_joined_here: bool,
    /// The row is by the numbers from this one on.
    pub from: FirstAsked,
    /// The row is by the datagrams before this one, in which the reader leaves; None where it does not.
    pub until: Option<u64>,
}

/// The span of a pair, as far as the acts of its writer have come.
#[derive(Clone, Copy)]
pub(crate) struct Spanning {
    /// All but the number that it begins with, where there is a newcomer.
    span: Span,
    /// The reader, where it joins in the recording.
    newcomer: Option<Newcomer>,
    owing: Owing,
}

/// Whether an answer claims some number, before a place.
fn claims_at(answer: &Answer, place: Location) -> bool
    ensures { result ≡ spans.claims_at_before place answer.now }
{
    let datagram = answer.datagram as u64;
    let before = datagram < place.datagram || (datagram == place.datagram && answer.at < place.at);
    before && answer.base > 1
}

/// Whether one of these answers of a pair does.
fn claims_before(answers: &[Answer], place: Location) -> bool
    ensures { result ≡ list_any (spans.claims_at_before place) answers.now }
{
    for answer in answers {
        if claims_at(answer, place) {
            return true;
        }
    }
    false
}

/// The least of these numbers from `lo` on.
fn first_number_from(numbers: &Numbers<'_>, lo: u64) -> Option<u64>
    ensures least { spans.IsLeastFrom (said.numbers_have numbers.now) lo result }
    ensures in_range { IfSome result (λ number. number < 2 ^ 63) }
{
    match numbers.range_from(lo) {
        Some(range) => Some(range.start),
        None => None,
    }
}

/// The least number from `lo` on that the pair's reader asks its writer for by an act.
#[tactic(auto, using(crate::proofs::SpanLemmas::asked_least))]
fn asked_from(placed: &Placed<'_>, pair: Pair, lo: u64) -> Option<u64>
    ensures least { spans.IsLeastFrom (λ n. missed.asks_for pair.writer pair.reader n (placed_spec.placed_value placed.now)) lo result }
    ensures in_range { IfSome result (λ number. number < 2 ^ 63) }
{
    let said = placed.act.said();
    let least = first_number_from(&said.lacked, lo)?;
    if placed.act.asks(pair.reader, pair.writer) {
        Some(least)
    } else {
        None
    }
}

/// The least number from `lo` on that the pair's reader asks its writer for, with one act more of the reader.
pub(crate) fn asked_with(
    least: Option<u64>,
    placed: &Placed<'_>,
    pair: Pair,
    lo: u64,
) -> Option<u64>
    ensures least { (acts : List placed_spec.PlacedValue) → spans.IsLeastFrom (λ n. list_any (missed.asks_for pair.writer pair.reader n) acts) lo least
        → spans.IsLeastFrom (λ n. list_any (missed.asks_for pair.writer pair.reader n) (acts ++ placed_spec.placed_value placed.now ∷ [])) lo result }
    ensures in_range { IfSome least (λ number. number < 2 ^ 63) → IfSome result (λ number. number < 2 ^ 63) }
{
    lesser(least, asked_from(placed, pair, lo))
}

/// The least number from `lo` on that the pair's reader asks its writer for by one of these acts.
fn least_asked(acts: &[Placed<'_>], pair: Pair, lo: u64) -> Option<u64>
    ensures least { spans.IsLeastFrom (λ n. list_any (missed.asks_for pair.writer pair.reader n) (map placed_spec.placed_value acts.now)) lo result }
    ensures in_range { IfSome result (λ number. number < 2 ^ 63) }
{
    let mut least = None;
    for placed in acts {
        least = asked_with(least, placed, pair, lo);
    }
    least
}

/// The least number from `lo` on that the pair's reader asks its writer for. The acts of a reader that is known to ask for none are not gone
/// through.
fn least_asked_of(index: &Index<'_>, readers: &ReaderNotes, pair: Pair, lo: u64) -> Option<u64>
    ensures least { (intake : intake.Intake) → index_spec.IsIndexBy intake index.now → reader_notes.AreNotes intake readers.now.notes
        → spans.IsLeastFrom (λ n. list_any (missed.asks_for pair.writer pair.reader n) (filter (placed_spec.is_from pair.reader) (placed_spec.placed_in intake.acts))) lo result }
    ensures high { IfSome result (λ number. lo ≤ number) }
    ensures in_range { IfSome result (λ number. number < 2 ^ 63) }
{
    if readers.asks_for_none(pair.reader) {
        return None;
    }
    least_asked(index.acts_of(pair.reader), pair, lo)
}

/// Whether it is the durability of a reader that asks for nothing that was written before.
fn is_lowest(durability: Durability) -> bool
    ensures { result ≡ spans.is_lowest durability }
{
    match durability {
        Durability::Volatile => true,
        Durability::TransientLocal => false,
        Durability::Transient => false,
        Durability::Persistent => false,
    }
}

/// Whether a reader, all of whose announcements agree, has it.
fn is_volatile(index: &Index<'_>, reader: Guid) -> bool
    ensures { (intake : intake.Intake) → index_spec.IsIndexBy intake index.now → spans.IsVolatileIn intake reader result }
{
    match index.directory().endpoint(reader) {
        Some(endpoint) => is_lowest(endpoint.durability),
        None => false,
    }
}

/// The least number that is owed to a newcomer, which the writer's acts tell: the least that is for it, of those that may be owed.
fn first_owed(index: &Index<'_>, readers: &ReaderNotes, newcomer: &Newcomer, owing: &Owing) -> u64
    ensures first { (intake : intake.Intake) → index_spec.IsIndexBy intake index.now → reader_notes.AreNotes intake readers.now.notes
        → newcomers.IsOwing newcomer.now (filter (placed_spec.is_from newcomer.now.pair.writer) (placed_spec.placed_in intake.acts)) owing.now
        → spans.IsFirstOwed (newcomers.owed_to newcomer.now owing.now) newcomer.now.place newcomer.now.pair (placed_spec.placed_in intake.acts) result }
    ensures positive { 1 ≤ result }
    ensures in_range { result ≤ 2 ^ 63 }
{
    let pair = newcomer.pair;
    let owed = owing.owed(newcomer);
    let brought = owing.brought(index.acts_of(pair.writer), newcomer);
    let asked = least_asked_of(index, readers, pair, owed);
    match lesser(brought, asked) {
        Some(number) => number,
        None => owed,
    }
}

/// Whether an act behind the place where the reader joins says that it leaves.
fn leaves_behind(placed: &Placed<'_>, reader: Guid, place: Location) -> bool
    ensures { result ≡ spans.leaves_behind place reader (placed_spec.placed_value placed.now) }
{
    is_behind(Some(place), placed) && leaves(&placed.act, reader)
}

/// The datagram of the first act, behind the place where the reader joins, that says that it leaves, with one act more.
pub(crate) fn left_with(
    left: Option<u64>,
    placed: &Placed<'_>,
    reader: Guid,
    place: Location,
) -> Option<u64>
    ensures { (acts : List placed_spec.PlacedValue) → left ≡ option_map (λ placed. placed.datagram) (find (spans.leaves_behind place reader) acts)
        → result ≡ option_map (λ placed. placed.datagram) (find (spans.leaves_behind place reader) (acts ++ placed_spec.placed_value placed.now ∷ [])) }
{
    if left.is_some() {
        return left;
    }
    if leaves_behind(placed, reader, place) {
        return Some(placed.datagram as u64);
    }
    left
}

/// The datagram of the first of these acts, behind the place where the reader joins, that says that it leaves.
fn left_among(acts: &[Placed<'_>], reader: Guid, place: Location) -> Option<u64>
    ensures { result ≡ option_map (λ placed. placed.datagram) (find (spans.leaves_behind place reader) (map placed_spec.placed_value acts.now)) }
{
    let mut left = None;
    for placed in acts {
        left = left_with(left, placed, reader, place);
        if left.is_some() {
            return left;
        }
    }
    left
}

/// The datagram in which a reader, or a participant, that joins at a place leaves; None where it does not.
pub fn left_in(index: &Index<'_>, reader: Guid, place: Location) -> Option<u64>
    ensures { (intake : intake.Intake) → index_spec.IsIndexBy intake index.now → result ≡ spans.left_in (Some place) reader (placed_spec.placed_in intake.acts) }
{
    let (readers, participants) = leaving_writers(reader);
    let reader_left = left_among(index.acts_of(readers), reader, place);
    let participant_left = left_among(index.acts_of(participants), reader, place);
    lesser(reader_left, participant_left)
}

/// The number from which on a row is, of a newcomer, which the writer's acts tell.
#[tactic(auto, using(crate::proofs::NewcomerLemmas::first_in))]
fn first_number(
    index: &Index<'_>,
    readers: &ReaderNotes,
    newcomer: &Newcomer,
    owing: &Owing,
) -> FirstAsked
    ensures { (intake : intake.Intake) → index_spec.IsIndexBy intake index.now → reader_notes.AreNotes intake readers.now.notes → spans.IsVolatileIn intake newcomer.now.pair.reader newcomer.now.is_volatile
        → newcomers.IsOwing newcomer.now (filter (placed_spec.is_from newcomer.now.pair.writer) (placed_spec.placed_in intake.acts)) owing.now
        → spans.IsFirstIn newcomer.now.from newcomer.now.place newcomer.now.pair intake result }
{
    match FirstAsked::new(first_owed(index, readers, newcomer, owing)) {
        Some(first) => first,
        None => newcomer.from,
    }
}

/// The first of these places.
fn first_place(places: &[AnnouncedPlace]) -> Option<Location>
    ensures { result ≡ missed.first_place places.now }
{
    if places.is_empty() {
        return None;
    }
    let first = &places[0];
    Some(Location {
        datagram: first.datagram as u64,
        at: first.at,
    })
}

/// Whether a reader that is announced first at a place, if there is one, joins there: it claims no number of the writer before.
fn joins_here(index: &Index<'_>, pair: Pair, joined: Option<Location>) -> bool
    ensures { (intake : intake.Intake) → index_spec.IsIndexBy intake index.now → result ≡ spans.is_joined_here joined pair (placed_spec.placed_in intake.acts) }
{
    match joined {
        Some(place) => !claims_before(index.answers_of(pair), place),
        None => false,
    }
}

impl Span {
    /// The whole recording for a writer and a reader, by the numbers from `from` on.
    pub(crate) fn whole(index: &Index<'_>, pair: Pair, from: SeqNum) -> Span
        ensures { (intake : intake.Intake) → index_spec.IsIndexBy intake index.now → spans.IsWhole from pair intake result }
    {
        let joined = first_place(index.announced_at(pair.reader));
        Span {
            joined,
            is_joined_here: joins_here(index, pair, joined),
            from: FirstAsked::of(from),
            until: None,
        }
    }

    /// The span of a writer and a reader, any two GUIDs, by the numbers from `from` on. It takes no memory.
    pub(crate) fn of(index: &Index<'_>, readers: &ReaderNotes, pair: Pair, from: SeqNum) -> Span
        ensures { (intake : intake.Intake) → index_spec.IsIndexBy intake index.now → reader_notes.AreNotes intake readers.now.notes → spans.IsSpan from pair intake result }
    {
        let mut spanning = Spanning::new(index, pair, from);
        if spanning.newcomer.is_none() {
            return spanning.span;
        }
        for placed in index.acts_of(pair.writer) {
            spanning.hear(placed);
        }
        spanning.span(index, readers)
    }

    /// The place behind which acts are since the reader joined; None where all are.
    pub fn since(&self) -> Option<Location>
        ensures { result ≡ spans.since_of self.now }
    {
        if self.is_joined_here {
            self.joined
        } else {
            None
        }
    }
}

/// The reader of a pair, of which this is the whole recording; None where it does not join in that.
fn newcomer_of(index: &Index<'_>, pair: Pair, whole: &Span) -> Option<Newcomer>
    ensures { (from : ℕ) (intake : intake.Intake) → index_spec.IsIndexBy intake index.now → spans.IsWhole from pair intake whole.now
        → newcomers.IsJoinedAs from whole.now.joined pair intake whole.now.is_joined_here result }
{
    match whole.since() {
        Some(place) => Some(Newcomer {
            pair,
            place,
            from: whole.from,
            is_volatile: is_volatile(index, pair.reader),
        }),
        None => None,
    }
}

impl Spanning {
    ghost use Rattle.rtps_discovery.specs.declared.matching.Pair.{Pair as PairValue};

    /// The writer said nothing yet. It takes no memory.
    pub(crate) fn new(index: &Index<'_>, pair: Pair, from: SeqNum) -> Spanning
        ensures { (intake : intake.Intake) → index_spec.IsIndexBy intake index.now → newcomers.IsSpanning from pair intake [] result }
    {
        let whole = Span::whole(index, pair, from);
        let until = match whole.joined {
            Some(place) => left_in(index, pair.reader, place),
            None => None,
        };
        Spanning {
            span: Span { until, ..whole },
            newcomer: newcomer_of(index, pair, &whole),
            owing: Owing::new(),
        }
    }

    /// Is told the next act of the writer.
    pub(crate) fn hear(&mut self, placed: &Placed<'_>)
        ensures { (from : ℕ) (pair : PairValue) (intake : intake.Intake) (acts : List placed_spec.PlacedValue) → newcomers.IsSpanning from pair intake acts self.old
            → newcomers.IsSpanning from pair intake (acts ++ placed_spec.placed_value placed.now ∷ []) self.new }
    {
        if let Some(newcomer) = &self.newcomer {
            self.owing.hear(placed, newcomer);
        }
    }

    /// The span, where all acts of the writer were told.
    pub(crate) fn span(&self, index: &Index<'_>, readers: &ReaderNotes) -> Span
        ensures { (from : ℕ) (pair : PairValue) (intake : intake.Intake) → index_spec.IsIndexBy intake index.now → reader_notes.AreNotes intake readers.now.notes
            → newcomers.IsSpanning from pair intake (filter (placed_spec.is_from pair.writer) (placed_spec.placed_in intake.acts)) self.now → spans.IsSpan from pair intake result }
    {
        match &self.newcomer {
            Some(newcomer) => Span {
                from: first_number(index, readers, newcomer, &self.owing),
                ..self.span
            },
            None => self.span,
        }
    }
}
