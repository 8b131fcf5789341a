ghost use Rattle.std.specs.Prelude.{ℕ, Bool, ◌≡◌, ◌≢◌, ◌<◌, ◌≤◌, ◌^◌, ◌↔◌, false, true, length, map, take, All, Contains, IfOk, IfSome, IsTrue, List, MatchOption, Some};
ghost use Rattle.std.specs.List.{AllWithin, HoldsAt};
ghost use Rattle.std.specs.List.Sorted.{IsNonDecreasingBy};
ghost use Rattle.rtps_ids.specs.declared.identity.Guid.{Guid as GuidValue};
ghost use Rattle.rtps_receiver.specs.Values as receiver_values;
ghost use Rattle.rtps_wire.specs.Values as wire_values;
ghost use Rattle.rtps_audit.specs.Delivery as delivery;
ghost use Rattle.rtps_audit.specs.Answered as answered;
ghost use Rattle.rtps_audit.specs.PayloadConflict as payload_conflict;
ghost use Rattle.rtps_audit.specs.Placed as placed_spec;
ghost use Rattle.rtps_audit.specs.RunVerdict as run_verdict;
ghost use Rattle.rtps_audit.specs.Speech as speech;

use crate::placed::Placed;
use rtps_coverage::{Coverage, MergedRanges};
use rtps_ids::{EntityId, Guid, GuidPrefix, Memory};
use rtps_receiver::{Audience, Spoken};
use rtps_wire::Payload;
use std::alloc::Global;

/// A payload that an act tells, and whom it is for. It borrows both, so that little is moved where these are put in order.
#[derive(Clone, Copy)]
pub struct AddressedPayload<'x, 'a> {
    pub number: u64,
    pub dest: &'x Option<GuidPrefix>,
    pub reader: EntityId,
    pub payload: &'x Payload<'a>,
}

/// Of the payloads that a writer tells, those of each number that has two different ones, whoever hears them, in the order
/// of numbers. Mostly there are none.
#[derive(Drop)]
pub struct PayloadConflicts<'x, 'a> {
    pub(crate) payloads: Vec<AddressedPayload<'x, 'a>>,
    ghost sorted: { IsNonDecreasingBy payload_conflict.number_in payloads.items },
    ghost in_range: { All payload_conflict.IsInRange payloads.items },
}

/// Whether two payloads are equal in kind and octets.
fn is_same_payload(one: Payload<'_>, other: Payload<'_>) -> bool
    ensures { IsTrue result ↔ (wire_values.payload_value one.entry ≡ wire_values.payload_value other.entry) }
{
    match (one, other) {
        (Payload::Absent, Payload::Absent) => true,
        (Payload::Whole(one), Payload::Whole(other)) => one == other,
        (Payload::Key(one), Payload::Key(other)) => one == other,
        _ => false,
    }
}

/// The numbers whose payloads are compared: those from `from` on of which a payload came again, and the greatest number, which
/// no set has.
#[derive(Clone, Copy)]
pub struct Questions<'q> {
    pub(crate) from: u64,
    pub(crate) again: &'q MergedRanges,
}

impl<'q> Questions<'q> {
    /// Whether payloads of a number are compared.
    pub fn ask_for(&self, number: u64) -> bool
        requires positive { 1 ≤ number }
        requires in_range { number < 2 ^ 63 }
        ensures { result ≡ payload_conflict.asks_for self.now number }
    {
        if number < self.from {
            return false;
        }
        number == i64::MAX.cast_unsigned() || self.again.covers(number.cast_signed())
    }
}

/// The payload that an act tells, where its number is in question; None of any other act. A DATA tells one, and a DATA_FRAG at
/// which a sample was put together.
pub fn addressed<'x, 'a>(
    act: &'x Spoken<'a>,
    questions: Questions<'_>,
) -> Option<AddressedPayload<'x, 'a>>
    ensures { MatchOption result
        ((n : ℕ) (x : wire_values.PayloadValue) → payload_conflict.asks_for questions.entry n ≡ true → speech.word_of (receiver_values.spoken_value act.now).body n ≢ Some (delivery.Word.Told x))
        (λ entry. payload_conflict.IsSentBy (receiver_values.spoken_value act.now) entry × (payload_conflict.asks_for questions.entry entry.number ≡ true) × payload_conflict.IsInRange entry) }
{
    let said = act.said();
    let number = said.told?;
    let payload = said.payload?;
    let reader = act.audience()?.reader;
    if !questions.ask_for(number) {
        return None;
    }
    Some(AddressedPayload {
        number,
        dest: &act.dest,
        reader,
        payload,
    })
}

/// The payloads that these acts tell for numbers that are in question, in the order of sending.
fn collect<'x, 'a>(
    alloc: Global,
    acts: &'x [Placed<'a>],
    questions: Questions<'_>,
) -> Result<Vec<AddressedPayload<'x, 'a>>, Memory>
    ensures sent { IfOk result (λ entries. payload_conflict.AreSentIn (payload_conflict.asks_for questions.entry) (map placed_spec.placed_value acts.now) entries.items) }
    ensures in_range { IfOk result (λ entries. All payload_conflict.IsInRange entries.items) }
{
    let mut entries = Vec::new(alloc);
    for place in 0..acts.len() {
        if let Some(entry) = addressed(&acts[place].act, questions) {
            entries.push(entry)?;
        }
    }
    Ok(entries)
}

/// The first place from this one on that has another number; the end, where none has.
fn run_end(entries: &[AddressedPayload<'_, '_>], start: usize, number: u64) -> usize
    requires { start ≤ length entries.now }
    ensures onward { start ≤ result }
    ensures within { result ≤ length entries.now }
    ensures run { AllWithin (λ entry. entry.number ≡ number) entries.now start result }
    ensures end { result < length entries.now → HoldsAt (λ entry. entry.number ≢ number) entries.now result }
{
    for place in start..entries.len() {
        if entries[place].number != number {
            return place;
        }
    }
    entries.len()
}

/// Whether one of these payloads is another one than this, which is the first of them. It is not compared with itself.
fn has_other(entries: &[AddressedPayload<'_, '_>], payload: &Payload<'_>) -> bool
    requires first { All (λ entry. wire_values.payload_value entry.payload.now ≡ wire_values.payload_value payload.now) (take 1 entries.now) }
    ensures other { result ≡ true → (entry : AddressedPayload) × Contains entries.now entry × (wire_values.payload_value entry.payload.now ≢ wire_values.payload_value payload.now) }
    ensures same { result ≡ false → All (λ entry. wire_values.payload_value entry.payload.now ≡ wire_values.payload_value payload.now) entries.now }
{
    for place in 1..entries.len() {
        let other = entries[place];
        if !is_same_payload(*other.payload, *payload) {
            return true;
        }
    }
    false
}

/// Whether the payload that was heard before is another one for the same number.
fn is_another(before: Option<AddressedPayload<'_, '_>>, here: AddressedPayload<'_, '_>) -> bool
    ensures { IsTrue result ↔ payload_conflict.IsAnother before.entry here.entry }
{
    match before {
        Some(before) => {
            before.number == here.number && !is_same_payload(*before.payload, *here.payload)
        }
        None => false,
    }
}

impl<'x, 'a> PayloadConflicts<'x, 'a> {
    /// Of these, which are in the order of numbers: the runs of one number in which two payloads differ. `Memory` is answered where there is
    /// none for these payloads.
    pub fn among(alloc: Global, entries: &[AddressedPayload<'x, 'a>]) -> Result<Self, Memory>
        requires sorted { IsNonDecreasingBy payload_conflict.number_in entries.now }
        requires in_range { All payload_conflict.IsInRange entries.now }
        ensures { IfOk result (λ conflicts. payload_conflict.AreConflictsAmong entries.now conflicts.payloads.items) }
    {
        let mut payloads = Vec::new(alloc);
        let mut start = 0;
        'runs: while start < entries.len() {
            let first = entries[start];
            let end = run_end(entries, start + 1, first.number);
            let run = &entries[start..end];
            if has_other(run, first.payload) {
                payloads.extend_from_slice(run)?;
            }
            start = end;
        }
        Ok(PayloadConflicts { payloads })
    }

    /// Of the payloads that a writer's acts tell for numbers that are in question. It takes the time of the acts where their
    /// numbers came in order, as most do. `Memory` is answered where there is none for these payloads.
    pub(crate) fn of(
        alloc: Global,
        acts: &'x [Placed<'a>],
        questions: Questions<'_>,
    ) -> Result<Self, Memory>
        ensures { IfOk result (λ conflicts. payload_conflict.AreConflictsOf (payload_conflict.asks_for questions.entry) conflicts.payloads.items (map placed_spec.placed_value acts.now)) }
    {
        let mut entries = collect(alloc, acts, questions)?;
        entries.sort_by_key(|entry| entry.number)?;
        let conflicts = PayloadConflicts::among(alloc, &entries)?;
        Ok(conflicts)
    }

    /// The least number for which a reader hears two different payloads. Each payload is compared with the one that the
    /// reader heard before, since where two of a number differ, two that follow one another do. It takes no memory.
    pub(crate) fn least_for(&self, reader: Guid) -> Option<u64>
        ensures conflict { (from : ℕ) (wanted : ℕ → Bool) (writer : GuidValue) (placed : List placed_spec.PlacedValue)
            → payload_conflict.AreConflictsOf wanted self.now.payloads.items placed → All (λ at. placed_spec.is_from writer at ≡ true) placed
            → ((n : ℕ) → wanted n ≡ true → delivery.IsAsked from n) → ((n : ℕ) → answered.HearsTwo from writer reader placed n → wanted n ≡ true)
            → MatchOption result ((n : ℕ) → ¬ answered.HearsTwo from writer reader placed n) (run_verdict.IsLeast (answered.HearsTwo from writer reader placed)) }
        ensures in_range { IfSome result (λ n. (1 ≤ n) × (n < 2 ^ 63)) }
    {
        let mut before = None;
        for place in 0..self.payloads.len() {
            let here = self.payloads[place];
            let audience = Audience {
                dest: *here.dest,
                reader: here.reader,
            };
            if audience.has(reader) {
                if is_another(before, here) {
                    return Some(here.number);
                }
                before = Some(here);
            }
        }
        None
    }
}
