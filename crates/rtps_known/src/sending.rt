//! The numbers of a built-in writer of endpoints that are sent, where, and to whom.

ghost use Rattle.std.specs.Prelude.{ℕ, ◌≡◌, ◌&&◌, ◌||◌, OnOk, Some, None, cond, is_some, nat_lt, not, unwrap_or};
ghost use Rattle.std.specs.BTreeMap.{get, is_at};
ghost use Rattle.std.specs.Option.{option_or};
ghost use Rattle.rtps_ids.specs.declared.identity.GuidPrefix.{GuidPrefix as GuidPrefixValue};
ghost use Rattle.rtps_receiver.specs.Values as values;
ghost use Rattle.rtps_known.specs.declared.sending.Sending.{Sending as SendingValue};
ghost use Rattle.rtps_known.specs.Spreads as spreads;
ghost use Rattle.rtps_known.specs.Tellings as tellings;

use crate::place::Place;
use rtps_ids::{GuidPrefix, Memory};
use rtps_receiver::{ActBody, Spoken, SpokenBody};
use std::collections::{BTreeMap, BTreeSet};

/// A number, and who is sent it: None is everyone.
#[derive(Clone, Copy, PartialEq, Eq, PartialOrd, Ord)]
pub(crate) struct Sending {
    pub(crate) number: u64,
    pub(crate) dest: Option<GuidPrefix>,
}

/// A number that is sent, and where.
#[derive(Clone, Copy)]
pub(crate) struct Hearing {
    pub(crate) sending: Sending,
    pub(crate) place: Place,
}

/// Where a participant is sent a number again that it asks for.
pub(crate) fn again_of(
    again: &BTreeMap<Sending, Option<Place>>,
    prefix: GuidPrefix,
    number: u64,
) -> Option<Place>
    ensures { result ≡ unwrap_or (spreads.again_kept again.now prefix number) None }
{
    let request = Sending {
        number,
        dest: Some(prefix),
    };
    match again.get(&request) {
        Some(again) => *again,
        None => None,
    }
}

/// The number that an act sends.
pub(crate) fn hearing_in(act: &Spoken<'_>, place: Place) -> Option<Hearing>
    ensures { result ≡ spreads.hearing_in (values.spoken_value act.now) place }
{
    match &act.body {
        SpokenBody::Act(ActBody::Data(data)) => Some(Hearing {
            sending: Sending {
                number: data.number.get().cast_unsigned(),
                dest: act.dest,
            },
            place,
        }),
        _ => None,
    }
}

/// Whether a participant is sent what is sent so.
fn is_sent_to(dest: Option<GuidPrefix>, prefix: GuidPrefix) -> bool
    ensures { result ≡ tellings.is_to dest prefix }
{
    match dest {
        Some(dest) => dest == prefix,
        None => true,
    }
}

/// Where a participant is sent a number first.
pub(crate) fn first_sent(
    sent: &BTreeMap<Sending, Place>,
    prefix: GuidPrefix,
    number: u64,
) -> Option<Place>
    ensures { result ≡ spreads.first_kept sent.now prefix number }
{
    let own = Sending {
        number,
        dest: Some(prefix),
    };
    match sent.get(&own) {
        Some(place) => Some(*place),
        None => sent.get(&Sending { number, dest: None }).copied(),
    }
}

/// Whether a number was sent to these before, or to everyone.
fn was_sent(sent: &BTreeMap<Sending, Place>, sending: Sending) -> bool
    ensures { result ≡ (is_some (get spreads.sending_cmp sent.now sending) || is_some (get spreads.sending_cmp sent.now (spreads.sending sending.number None))) }
{
    let everyone = Sending {
        number: sending.number,
        dest: None,
    };
    sent.contains_key(&sending) || sent.contains_key(&everyone)
}

/// Keeps where a number is sent, unless who is sent it was sent it before. After `Memory` nothing has changed.
pub(crate) fn note_sent(sent: &mut BTreeMap<Sending, Place>, hearing: Hearing) -> Result<(), Memory>
    ensures { OnOk result ((prefix : GuidPrefixValue) (n : ℕ) → spreads.first_kept sent.new prefix n
        ≡ option_or (spreads.first_kept sent.old prefix n) (cond (spreads.hears_by hearing.sending prefix n) (Some hearing.place) None)) }
{
    if was_sent(sent, hearing.sending) {
        return Ok(());
    }
    sent.insert(hearing.sending, hearing.place)?;
    Ok(())
}

/// Whether a participant acknowledges a number.
pub(crate) fn is_acknowledged(
    bases: &BTreeMap<GuidPrefix, u64>,
    prefix: GuidPrefix,
    number: u64,
) -> bool
    ensures { result ≡ nat_lt number (spreads.base_kept bases.now prefix) }
{
    match bases.get(&prefix) {
        Some(base) => number < *base,
        None => false,
    }
}

/// Keeps where a participant is sent a number that it asks for, unless it was sent it since.
fn fill(again: &mut BTreeMap<Sending, Option<Place>>, request: Sending, place: Place)
    ensures { (other : SendingValue) → get spreads.sending_cmp again.new other
        ≡ spreads.filled (is_at (spreads.sending_cmp request) other) place (get spreads.sending_cmp again.old other) }
{
    if let Some(kept) = again.get_mut(&request) {
        *kept = Some((*kept).unwrap_or(place));
    }
}

/// The same where a condition holds.
fn fill_if(
    again: &mut BTreeMap<Sending, Option<Place>>,
    request: Sending,
    place: Place,
    holds: bool,
)
    ensures { (other : SendingValue) → get spreads.sending_cmp again.new other
        ≡ spreads.filled (holds && is_at (spreads.sending_cmp request) other) place (get spreads.sending_cmp again.old other) }
{
    if holds {
        fill(again, request, place);
    }
}

/// Whether a participant is sent a number that it does not acknowledge.
fn is_awaited(bases: &BTreeMap<GuidPrefix, u64>, sending: Sending, prefix: GuidPrefix) -> bool
    ensures { result ≡ (tellings.is_to sending.dest prefix && not (nat_lt sending.number (spreads.base_kept bases.now prefix))) }
{
    is_sent_to(sending.dest, prefix) && !is_acknowledged(bases, prefix, sending.number)
}

/// Keeps where those who ask for a number, and do not acknowledge it, are sent it.
pub(crate) fn note_again(
    again: &mut BTreeMap<Sending, Option<Place>>,
    askers: &BTreeSet<GuidPrefix>,
    bases: &BTreeMap<GuidPrefix, u64>,
    hearing: Hearing,
)
    ensures { (prefix : GuidPrefixValue) (n : ℕ) → spreads.again_kept again.new prefix n
        ≡ spreads.filled (spreads.refills askers.now bases.now hearing.sending prefix n) hearing.place (spreads.again_kept again.old prefix n) }
{
    let number = hearing.sending.number;
    for prefix in askers.iter() {
        let awaited = is_awaited(bases, hearing.sending, *prefix);
        let dest = Some(*prefix);
        fill_if(again, Sending { number, dest }, hearing.place, awaited);
    }
}
