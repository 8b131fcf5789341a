ghost use Rattle.std.specs.Prelude.{ℕ, ◌≡◌, ◌≤◌, ◌<◌, ◌^◌, [], flat_map, get_or, length, map, List, option_map};
ghost use Rattle.rtps_ids.specs.NumberSet as number_set;
ghost use Rattle.rtps_ids.specs.declared.identity.Guid.{Guid as GuidValue};
ghost use Rattle.rtps_receiver.specs.Values as receiver_values;
ghost use Rattle.rtps_audit.specs.Placed as placed_spec;
ghost use Rattle.rtps_evidence.specs.declared.location.Location.{Location as LocationValue};
ghost use Rattle.rtps_fragments.specs.SampleCounts as sample_counts;
ghost use Rattle.rtps_page.specs.ChartEntries as chart_entries;
ghost use Rattle.rtps_page.specs.ChartTimes as chart_times;

use crate::tellings::{Tellings, Told};
use rtps_audit::Placed;
use rtps_ids::NumberSet;
use rtps_receiver::{ActBody, FragmentBody, Spoken, SpokenBody};

pub(crate) fn has_number(set: &NumberSet, number: u64) -> bool
    requires { number < 2 ^ 63 }
    ensures { result ≡ number_set.is_member set.now number }
{
    set.contains(number.cast_signed())
}

fn members_among(set: &NumberSet) -> u64
    ensures value { result ≡ length (chart_entries.members_of set.now) }
    ensures few { result ≤ 256 }
{
    let base = set.base().cast_unsigned();
    let mut count = 0;
    for bit in 0..set.count() {
        if has_number(set, base + u64::from(bit)) {
            count += 1;
        }
    }
    count
}

/// 1 where there are numbers from one on and below another, and else 0.
fn one_if_gone(from: u64, past: u64) -> u64
    ensures value { (place : LocationValue) (named : List ℕ) → result ≡ length (chart_entries.gone_json place named from past) }
    ensures few { result ≤ 1 }
{
    if from < past { 1 } else { 0 }
}

/// 1 where an act sends fragments, and else 0.
fn one_if_sent(piece: &FragmentBody<'_>) -> u64
    ensures value { (place : LocationValue) (named : List ℕ) → result ≡ length (chart_entries.piece_json place named piece.now.number (option_map receiver_values.sent_part_value piece.now.sent)) }
    ensures few { result ≤ 1 }
{
    match piece.sent {
        Some(_) => 1,
        None => 0,
    }
}

/// How many entries what an act says has.
fn entries_in(body: &SpokenBody<'_>) -> u64
    ensures value { (place : LocationValue) (named : List ℕ) → result ≡ length (chart_entries.entries_at place named (receiver_values.spoken_body_value body.now)) }
    ensures few { result ≤ 257 }
{
    match body {
        SpokenBody::Act(ActBody::Data(_)) => 1,
        SpokenBody::Act(ActBody::Heartbeat(heartbeat)) => one_if_gone(
            1,
            heartbeat.first.get().cast_unsigned(),
        ) + 1,
        SpokenBody::Act(ActBody::Gap(gap)) => {
            let start = gap.start.get().cast_unsigned();
            one_if_gone(start, gap.list.base().cast_unsigned()) + members_among(&gap.list)
        }
        SpokenBody::DataFrag(piece) => one_if_sent(piece),
        SpokenBody::Act(ActBody::AckNack(_)) | SpokenBody::NackFrag(_) => 0,
    }
}

/// Whether an act has an entry.
pub(crate) fn has_entry(placed: &Placed<'_>) -> bool
    ensures { result ≡ chart_times.has_entry (placed_spec.placed_value placed.now) }
{
    entries_in(&placed.act.body) > 0
}

/// How many samples an act tells the readers of a writer's rows, one reader after another.
fn samples_of_each(told: Told<'_>) -> u128
    ensures value { (place : LocationValue) (number : ℕ) → result ≡ length (flat_map (chart_entries.samples_to place number) (map (chart_entries.told_of told.entry.at) told.entry.tellings.now.each.items)) }
    ensures few { result ≤ 2 ^ 64 }
{
    let mut count = 0u128;
    for telling in &told.tellings.each {
        count += u128::from(told.by(telling));
    }
    count
}

/// How many entries samples have that an act tells.
fn samples_of(told: Told<'_>, act: &Spoken<'_>) -> u128
    ensures value { (datagram number : ℕ) → result ≡ length (chart_entries.samples_json (record { datagram = datagram; act = receiver_values.spoken_value act.now })
        (get_or (map sample_counts.number_of told.entry.tellings.now.all.items) told.entry.at 0) (map (chart_entries.told_of told.entry.at) told.entry.tellings.now.each.items) number) }
    ensures few { result ≤ 2 ^ 64 }
{
    if told.are_alike(act) {
        return u128::from(told.all());
    }
    samples_of_each(told)
}

/// The same; acts that are no DATA_FRAG tell none.
fn entries_told(told: Told<'_>, act: &Spoken<'_>) -> u128
    ensures value { (datagram : ℕ) → result ≡ length (chart_entries.samples_counted told.entry.tellings.now told.entry.at (record { datagram = datagram; act = receiver_values.spoken_value act.now })) }
    ensures few { result ≤ 2 ^ 64 }
{
    match &act.body {
        SpokenBody::DataFrag(_) => samples_of(told, act),
        SpokenBody::Act(_) | SpokenBody::NackFrag(_) => 0,
    }
}

/// How many entries a writer has by these acts and what is counted of them.
pub(crate) fn entries_of_writer(acts: &[Placed<'_>], tellings: &Tellings) -> u128
    ensures { (readers : List GuidValue) → chart_entries.AreTellings readers (map placed_spec.placed_value acts.now) tellings.now
        → result ≡ length (chart_entries.entries_behind readers [] (map placed_spec.placed_value acts.now)) }
{
    let mut count = 0u128;
    for at in 0..acts.len() {
        let act = &acts[at].act;
        count += u128::from(entries_in(&act.body)) + entries_told(Told { tellings, at }, act);
    }
    count
}

/// How many numbers an answer has: its base, and those that it asks for.
fn numbers_in(body: &SpokenBody<'_>) -> u64
    ensures value { result ≡ length (chart_entries.numbers_in (receiver_values.spoken_body_value body.now)) }
    ensures few { result ≤ 257 }
{
    match body {
        SpokenBody::Act(ActBody::AckNack(ack_nack)) => members_among(&ack_nack.set) + 1,
        SpokenBody::Act(ActBody::Data(_))
        | SpokenBody::Act(ActBody::Heartbeat(_))
        | SpokenBody::Act(ActBody::Gap(_))
        | SpokenBody::DataFrag(_)
        | SpokenBody::NackFrag(_) => 0,
    }
}

/// How many entries these answers have.
pub(crate) fn entries_of_answers(answers: &[Placed<'_>]) -> u128
    ensures { result ≡ length (flat_map (λ placed. chart_entries.numbers_in placed.act.body) (map placed_spec.placed_value answers.now)) }
{
    let mut count = 0u128;
    for placed in answers {
        count += u128::from(numbers_in(&placed.act.body));
    }
    count
}
