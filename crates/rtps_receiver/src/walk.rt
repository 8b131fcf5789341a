ghost use Rattle.std.specs.Prelude.{◌≡◌, ◌<◌, ◌^◌, [], length, map, if◌then◌else◌, IfOk, OnOk};
ghost use Rattle.rtps_receiver.specs.Acts as acts_spec;
ghost use Rattle.rtps_receiver.specs.Values as values;
ghost use Rattle.rtps_wire.specs.Reading as reading;
ghost use Rattle.rtps_wire.specs.Tally as tally_spec;

use crate::spoken::Spoken;
use crate::state::State;
use rtps_ids::Memory;
use rtps_wire::{Body, Items, Tally};
use std::alloc::Global;
use std::marker::Model;
use std::slice;

/// Reads the datagrams of a recording, one after another, each once. It keeps the acts of the last datagram until the
/// next one is read, so it takes memory for the acts of one datagram.
#[derive(Drop)]
pub struct Walk<'a> {
    acts: Vec<Spoken<'a>>,
}

impl<'a> Model for Walk<'a> {
    ghost use Rattle.std.specs.Prelude.{List, map};
    ghost use Rattle.rtps_receiver.specs.Values as values;

    ghost Value = { List values.ActValue };

    ghost view = { λ walk. map values.spoken_value walk.acts.items };
}

impl<'a> Walk<'a> {
    /// A walk that has read nothing. It takes no memory.
    pub fn new(alloc: Global) -> Self
        ensures { result ≡ [] }
    {
        Walk {
            acts: Vec::new(alloc),
        }
    }

    /// Reads a datagram of any length, up to its refusal, if it has one. Its acts replace those of the datagram before.
    /// Returns its tally. After `Memory` the acts mean nothing.
    pub fn read(&mut self, datagram: &'a [u8]) -> Result<Tally, Memory>
        ensures acts { OnOk result (self.new ≡ acts_spec.acts_of (reading.reading_of datagram.now)) }
        ensures tally { IfOk result (λ tally. tally ≡ tally_spec.tally_of (reading.reading_of datagram.now)) }
    {
        self.acts.clear();
        match Items::open(datagram) {
            Ok((header, items)) => push_acts(&mut self.acts, State::at_start(header), items),
            Err(_) => Ok(Tally {
                refused: true,
                skipped: 0,
                fragments: 0,
            }),
        }
    }

    /// Reads a datagram as [`Walk::read`] does, but keeps only its DATA. It is faster if only DATA are wanted. After
    /// `Memory` the acts mean nothing.
    pub fn read_data(&mut self, datagram: &'a [u8]) -> Result<(), Memory>
        ensures { OnOk result (self.new ≡ acts_spec.data_among (acts_spec.acts_of (reading.reading_of datagram.now))) }
    {
        self.acts.truncate(0);
        match Items::open(datagram) {
            Ok((header, items)) => push_data(&mut self.acts, State::at_start(header), items),
            Err(_) => Ok(()),
        }
    }

    /// The acts of the datagram that was read last, in order, each with the receiver's state at its place.
    pub fn acts(&self) -> &[Spoken<'a>]
        ensures { map values.spoken_value result.now ≡ self.now }
    {
        &self.acts
    }
}

/// Appends the acts of the unread part of a datagram, from this state on, and counts its items.
fn push_acts<'a>(
    acts: &mut Vec<Spoken<'a>>,
    start: State,
    items: Items<'a>,
) -> Result<Tally, Memory>
    requires empty { acts.old.items ≡ [] }
    requires few { length (reading.outcomes_left items) < 2 ^ 64 }
    ensures acts { OnOk result (map values.spoken_value acts.new.items ≡ acts_spec.acts_behind start [] (reading.items_among (reading.outcomes_left items.entry))) }
    ensures tally { IfOk result (λ tally. tally ≡ tally_spec.tally_of_outcomes (reading.outcomes_left items.entry)) }
{
    let mut state = start;
    let mut items = items;
    let mut tally = Tally {
        refused: false,
        skipped: 0,
        fragments: 0,
    };
    'items: loop {
        if let Some(id) = items.take_skipped() {
            let body = Body::Skipped { id };
            tally.skipped += one_if(body.is_skipped());
            tally.fragments += one_if(body.is_fragment());
            continue;
        }
        match items.next() {
            Some(Ok(item)) => {
                if let Some(act) = state.spoken(&item) {
                    acts.extend_from_slice(slice::from_ref(&act))?;
                } else {
                    state.interpret(&item);
                }
            }
            Some(Err(_)) => tally.refused = true,
            None => return Ok(tally),
        }
    }
}

/// Appends the DATA of the unread part of a datagram, from this state on.
fn push_data<'a>(acts: &mut Vec<Spoken<'a>>, start: State, items: Items<'a>) -> Result<(), Memory>
    requires { acts.old.items ≡ [] }
    ensures { OnOk result (map values.spoken_value acts.new.items
        ≡ acts_spec.data_among (acts_spec.acts_behind start [] (reading.items_among (reading.outcomes_left items.entry)))) }
{
    let mut state = start;
    let mut items = items;
    'items: loop {
        if items.take_dataless() {
            continue;
        }
        match items.next() {
            Some(Ok(item)) => match &item.body {
                Body::Data(_) => {
                    if let Some(act) = state.spoken(&item) {
                        acts.extend_from_slice(slice::from_ref(&act))?;
                    }
                }
                _ => state.interpret(&item),
            },
            Some(Err(_)) => {}
            None => return Ok(()),
        }
    }
}

/// 1 if the test holds, and else 0.
#[inline(always)]
fn one_if(test: bool) -> u64
    ensures { result ≡ (if test then 1 else 0) }
{
    if test { 1 } else { 0 }
}
