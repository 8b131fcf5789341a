//! Which built-in writer of endpoints an act is about, and what its source asks for and acknowledges.

ghost use Rattle.std.specs.Prelude.{ℕ, ◌≡◌, ◌≤◌, ◌<◌, ◌&&◌, OnOk, Some, None, cond, is_some, nat_lt, not, true};
ghost use Rattle.std.specs.BTreeMap.{get, is_at};
ghost use Rattle.rtps_ids.specs.declared.identity.GuidPrefix.{GuidPrefix as GuidPrefixValue};
ghost use Rattle.rtps_receiver.specs.Said as said;
ghost use Rattle.rtps_receiver.specs.Values as values;
ghost use Rattle.rtps_known.specs.Learning as learning;
ghost use Rattle.rtps_known.specs.declared.sending.Sending.{Sending as SendingValue};
ghost use Rattle.rtps_known.specs.Spreads as spreads;

use crate::layout::entity;
use crate::place::Place;
use crate::sending::{Sending, first_sent, is_acknowledged};
use rtps_coverage::Stretch;
use rtps_ids::{EntityId, Guid, GuidPrefix, Memory};
use rtps_receiver::{ActBody, Spoken, SpokenBody};
use std::collections::BTreeMap;

/// The built-in writer of endpoints of a participant, where these are its entity and that of its reader.
fn writer_asked(dest: Option<GuidPrefix>, writer: EntityId, reader: EntityId) -> Option<Guid>
    ensures { result ≡ learning.writer_for dest writer reader }
{
    let prefix = dest?;
    let publications = writer == entity::PUBLICATIONS && reader == entity::PUBLICATIONS_READER;
    let subscriptions = writer == entity::SUBSCRIPTIONS && reader == entity::SUBSCRIPTIONS_READER;
    if publications || subscriptions {
        Some(Guid {
            prefix,
            entity: writer,
        })
    } else {
        None
    }
}

/// The built-in writer of endpoints that an act sends a number of, or that it asks.
pub(crate) fn subject(act: &Spoken<'_>) -> Option<Guid>
    ensures { result ≡ learning.subject_in (values.spoken_value act.now) }
{
    match &act.body {
        SpokenBody::Act(ActBody::Data(data)) => {
            if data.writer == entity::PUBLICATIONS || data.writer == entity::SUBSCRIPTIONS {
                Some(Guid {
                    prefix: act.source,
                    entity: data.writer,
                })
            } else {
                None
            }
        }
        SpokenBody::Act(ActBody::AckNack(ack_nack)) => {
            writer_asked(act.dest, ack_nack.writer, ack_nack.reader)
        }
        SpokenBody::NackFrag(nack_frag) => {
            writer_asked(act.dest, nack_frag.writer, nack_frag.reader)
        }
        _ => None,
    }
}

/// The base of an ACKNACK; 0 of any other act.
pub(crate) fn base(act: &Spoken<'_>) -> u64
    ensures { result ≡ learning.base_in (values.spoken_value act.now).body }
{
    match &act.body {
        SpokenBody::Act(ActBody::AckNack(ack_nack)) => ack_nack.set.base().cast_unsigned(),
        _ => 0,
    }
}

/// Whether an act asks for a number.
fn lacks(act: &Spoken<'_>, number: u64) -> bool
    ensures { result ≡ (said.said (values.spoken_value act.now).body).lacked number }
{
    match act.said().lacked.range_from(number) {
        Some(range) => range.start == number,
        None => false,
    }
}

/// Numbers among which are all that an act asks for.
pub(crate) fn window(act: &Spoken<'_>) -> Stretch
    ensures among { (n : ℕ) → (said.said (values.spoken_value act.now).body).lacked n ≡ true → (result.lo ≤ n) × (n < result.hi) }
    ensures ordered { result.lo ≤ result.hi }
{
    match &act.body {
        SpokenBody::Act(ActBody::AckNack(ack_nack)) => {
            let lo = ack_nack.set.base().cast_unsigned();
            let hi = lo + u64::from(ack_nack.set.count());
            Stretch { lo, hi }
        }
        SpokenBody::NackFrag(nack_frag) => {
            let lo = nack_frag.number.get().cast_unsigned();
            Stretch { lo, hi: lo + 1 }
        }
        _ => Stretch { lo: 0, hi: 0 },
    }
}

/// Keeps that a participant asks for a number, where a condition holds. After `Memory` nothing has changed.
fn open_if(
    again: &mut BTreeMap<Sending, Option<Place>>,
    request: Sending,
    holds: bool,
) -> Result<(), Memory>
    ensures { OnOk result ((other : SendingValue) → get spreads.sending_cmp again.new other
        ≡ cond (holds && is_at (spreads.sending_cmp request) other) (Some None) (get spreads.sending_cmp again.old other)) }
{
    if holds {
        again.insert(request, None)?;
    }
    Ok(())
}

/// Whether an act asks for a number that its source was sent and has not acknowledged.
fn may_open(
    sent: &BTreeMap<Sending, Place>,
    bases: &BTreeMap<GuidPrefix, u64>,
    act: &Spoken<'_>,
    number: u64,
) -> bool
    ensures { result ≡ ((said.said (values.spoken_value act.now).body).lacked number
        && (not (nat_lt number (spreads.base_kept bases.now act.now.source)) && is_some (spreads.first_kept sent.now act.now.source number))) }
{
    lacks(act, number)
        && !is_acknowledged(bases, act.source, number)
        && first_sent(sent, act.source, number).is_some()
}

/// Keeps what an act asks for of what its source was sent and has not acknowledged. After `Memory` it is of no use.
pub(crate) fn note_asked(
    again: &mut BTreeMap<Sending, Option<Place>>,
    sent: &BTreeMap<Sending, Place>,
    bases: &BTreeMap<GuidPrefix, u64>,
    act: &Spoken<'_>,
) -> Result<(), Memory>
    ensures { OnOk result ((prefix : GuidPrefixValue) (n : ℕ) → spreads.again_kept again.new prefix n
        ≡ cond (spreads.opens sent.now bases.now (values.spoken_value act.now) prefix n) (Some None) (spreads.again_kept again.old prefix n)) }
{
    let source = act.source;
    let asked = window(act);
    for number in asked.lo..asked.hi {
        let open = may_open(sent, bases, act, number);
        let dest = Some(source);
        open_if(again, Sending { number, dest }, open)?;
    }
    Ok(())
}
