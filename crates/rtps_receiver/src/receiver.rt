ghost use Rattle.std.specs.Prelude.{◌≡◌, ◌≤◌, [], length, MatchResult};
ghost use Rattle.std.specs.Iterator.{YieldsFirstBy, item_count};
ghost use Rattle.rtps_receiver.specs.Acts as acts_spec;
ghost use Rattle.rtps_receiver.specs.Values as values;
ghost use Rattle.rtps_wire.specs.Reading as reading;

use crate::act::Act;
use crate::state::State;
use rtps_wire::{Items, Refusal};
use std::marker::Model;

/// The unread acts of a datagram in order, each with the receiver's state at its place, and then the refusal of the
/// datagram, if there is one (DDSI-RTPS 2.5, 8.3.4 "The RTPS Message Receiver").
#[derive(Drop)]
pub struct Acts<'a> {
    items: Items<'a>,
    state: State,
}

impl<'a> Model for Acts<'a> {
    ghost use Rattle.rtps_receiver.specs.Acts as acts_spec;

    ghost Value = { acts_spec.Awaited };

    ghost view = { λ acts. record { state = acts.state; unread = acts.items } };
}

impl<'a> Acts<'a> {
    /// Reads the header of a datagram of any length, and leaves its acts to be read: no more than it has octets. The
    /// refusal is `Short`, `NotRtps` or `BadVersion`, at place 0.
    #[inline(always)]
    pub fn open(bytes: &'a [u8]) -> Result<Acts<'a>, Refusal>
        ensures { MatchResult result
            (λ acts. (acts_spec.acts_left acts ≡ acts_spec.acts_then (acts_spec.acts_of (reading.reading_of bytes.now)) (reading.reading_of bytes.now).ending)
            × (acts_spec.acts_among (acts_spec.acts_left acts) ≡ acts_spec.acts_of (reading.reading_of bytes.now)) × (length (acts_spec.acts_left acts) ≤ length bytes.now))
            (λ refusal. (reading.reading_of bytes.now ≡ reading.refused_with refusal.fault) × (refusal.at ≡ 0) × (acts_spec.acts_of (reading.reading_of bytes.now) ≡ [])) }
    {
        match Items::open(bytes) {
            Ok((header, items)) => {
                let state = State::at_start(header);
                Ok(Acts { items, state })
            }
            Err(refusal) => Err(refusal),
        }
    }
}

impl<'a> Iterator for Acts<'a> {
    type Item = Result<Act<'a>, Refusal>;

    ghost next_gives = { YieldsFirstBy values.act_outcome_value acts_spec.acts_left };

    ghost remaining = { item_count acts_spec.acts_left };

    /// The next act, or the refusal that ends the message. After a refusal or the end it always gives None.
    #[inline(always)]
    fn next(&mut self) -> Option<Result<Act<'a>, Refusal>> {
        while let Some(outcome) = self.items.next() {
            match outcome {
                Ok(item) => {
                    if let Some(act) = self.state.act(&item) {
                        return Some(Ok(act));
                    }
                    self.state.interpret(&item);
                }
                Err(refusal) => return Some(Err(refusal)),
            }
        }
        None
    }
}
