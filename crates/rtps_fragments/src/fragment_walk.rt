ghost use Rattle.std.specs.Prelude.{◌≡◌, ◌<◌, ◌+◌, ◌^◌, ◌∷◌, [], length, None, OnOk, Some};
ghost use Rattle.rtps_receiver.specs.Acts as acts_spec;
ghost use Rattle.rtps_receiver.specs.Values as receiver_values;
ghost use Rattle.rtps_wire.specs.DataFrag as data_frag;
ghost use Rattle.rtps_wire.specs.Reading as reading;
ghost use Rattle.rtps_wire.specs.Tally as tally;
ghost use Rattle.rtps_wire.specs.Values as wire_values;
ghost use Rattle.rtps_fragments.specs.Heard as heard;
ghost use Rattle.rtps_fragments.specs.FragmentWalk as fragment_walk;
ghost use Rattle.rtps_fragments.specs.ToldSamples as told_samples;

use crate::piece::{FragmentRun, SampleKey, SentFragments};
use rtps_ids::{Guid, Memory};
use rtps_receiver::{FragmentBody, SentPart, Spoken, SpokenBody, State};
use rtps_wire::{DataFrag, Item, Items, NackFrag, Tally};
use std::alloc::Global;
use std::slice;

/// A walk over datagrams with their fragments. It keeps what the last one has: its acts, the fragments that its DATA_FRAG send, and
/// its counts.
#[derive(Drop)]
pub struct FragmentWalk<'a> {
    pub(crate) acts: Vec<Spoken<'a>>,
    pub(crate) sents: Vec<SentFragments<'a>>,
    /// How many DATA_FRAG have no fragments that can be used.
    pub(crate) unusable: u64,
    /// What is counted where fragments are skipped.
    pub(crate) plain: Tally,
}

/// What is counted of a datagram before its first item.
const NO_TALLY: Tally = Tally {
    refused: false,
    skipped: 0,
    fragments: 0,
};

/// The fragments of a DATA_FRAG, which is the act at this place, in this state.
fn sent_of<'a>(act: usize, state: &State, fragments: &DataFrag<'a>) -> SentFragments<'a>
    requires { data_frag.IsDataFrag (data_frag.data_frag_value fragments.now) }
    ensures well { told_samples.IsSent result }
    ensures value { told_samples.sent_value result ≡ record {
      act = act;
      key = record {
        writer = record { prefix = state.now.source.prefix; entity = fragments.now.writer };
        number = fragments.now.number;
        sample = fragments.now.shape.sample;
        fragment = fragments.now.shape.fragment;
        is_key = fragments.now.shape.is_key;
      };
      came = heard.came_from fragments.now.first (data_frag.parts_of (data_frag.data_frag_value fragments.now));
    } }
{
    SentFragments {
        act,
        key: SampleKey {
            writer: Guid {
                prefix: state.source.prefix,
                entity: fragments.writer,
            },
            number: fragments.number,
            sample: fragments.shape.sample,
            fragment: fragments.shape.fragment,
            is_key: fragments.shape.is_key,
        },
        fragments: FragmentRun {
            first: fragments.first,
            count: usize::from(fragments.count),
            octets: fragments.octets,
        },
    }
}

/// The act that a DATA_FRAG is, which stands there, in this state.
fn act_of<'a>(state: &State, item: &Item<'_>, fragments: &DataFrag<'a>) -> Spoken<'a>
    ensures { receiver_values.spoken_value result ≡ acts_spec.act_at state.now (wire_values.item_value item.now).at (wire_values.item_value item.now).order
        (receiver_values.ActBodyValue.DataFrag (fragment_walk.fragment_of (data_frag.data_frag_value fragments.now))) }
{
    Spoken {
        at: item.at,
        source: state.source.prefix,
        version: state.source.version,
        vendor: state.source.vendor,
        dest: state.dest,
        stamp: state.stamp,
        order: item.order,
        body: SpokenBody::DataFrag(FragmentBody {
            reader: fragments.reader,
            writer: fragments.writer,
            number: fragments.number,
            sent: Some(SentPart {
                first: fragments.first,
                shape: fragments.shape,
                octets: fragments.octets,
            }),
            told: None,
        }),
    }
}

/// The act that a NACK_FRAG is, which stands there, in this state.
fn asks_act<'a>(state: &State, item: &Item<'_>, asks: NackFrag) -> Spoken<'a>
    ensures { receiver_values.spoken_value result ≡ acts_spec.act_at state.now (wire_values.item_value item.now).at (wire_values.item_value item.now).order (receiver_values.ActBodyValue.NackFrag asks) }
{
    Spoken {
        at: item.at,
        source: state.source.prefix,
        version: state.source.version,
        vendor: state.source.vendor,
        dest: state.dest,
        stamp: state.stamp,
        order: item.order,
        body: SpokenBody::NackFrag(asks),
    }
}

impl<'a> FragmentWalk<'a> {
    /// No acts. It takes no memory.
    pub fn new(alloc: Global) -> FragmentWalk<'a>
        ensures { fragment_walk.IsFragmentWalk [] 0 result }
    {
        FragmentWalk {
            acts: Vec::new(alloc),
            sents: Vec::new(alloc),
            unusable: 0,
            plain: NO_TALLY,
        }
    }

    /// Adds a DATA_FRAG that stands there, in this state. After `Memory` it is of no use.
    fn add_fragments(
        &mut self,
        state: &State,
        item: &Item<'_>,
        fragments: &DataFrag<'a>,
    ) -> Result<(), Memory>
        requires { data_frag.IsDataFrag (data_frag.data_frag_value fragments.now) }
        ensures acts { OnOk result (fragment_walk.AddsActs self.old self.new (fragment_walk.skipped_acts state.now (wire_values.item_value item.now) (Some (data_frag.data_frag_value fragments.now)) None) 0) }
        ensures plain { OnOk result (self.new.plain ≡ self.old.plain) }
    {
        let place = self.acts.len();
        let act = act_of(state, item, fragments);
        self.acts.extend_from_slice(slice::from_ref(&act))?;
        let sent = sent_of(place, state, fragments);
        self.sents.extend_from_slice(slice::from_ref(&sent))?;
        Ok(())
    }

    /// Adds a NACK_FRAG that stands there, in this state. After `Memory` it is of no use.
    fn add_asks(&mut self, state: &State, item: &Item<'_>, asks: NackFrag) -> Result<(), Memory>
        ensures acts { OnOk result (fragment_walk.AddsActs self.old self.new (fragment_walk.skipped_acts state.now (wire_values.item_value item.now) None (Some asks)) 0) }
        ensures plain { OnOk result (self.new.plain ≡ self.old.plain) }
    {
        let act = asks_act(state, item, asks);
        self.acts.extend_from_slice(slice::from_ref(&act))?;
        Ok(())
    }

    /// Adds the act that an item of a datagram is, if it is one, counts the item, and changes the state as it says. A DATA_FRAG that
    /// is no act is counted by itself. After `Memory` it is of no use.
    fn add(&mut self, state: &mut State, item: &Item<'a>, datagram: &'a [u8]) -> Result<(), Memory>
        requires unusable { self.old.unusable + 1 < 2 ^ 64 }
        requires skipped { self.old.plain.skipped + 1 < 2 ^ 64 }
        requires fragments { self.old.plain.fragments + 1 < 2 ^ 64 }
        ensures acts { OnOk result (fragment_walk.AddsActs self.old self.new (fragment_walk.piece_acts_of_item datagram.now state.old (wire_values.item_value item.now) (acts_spec.act_body (wire_values.item_value item.now).body))
            (fragment_walk.one_unusable datagram.now (wire_values.item_value item.now))) }
        ensures plain { OnOk result (fragment_walk.CountsItem self.old.plain self.new.plain (wire_values.item_value item.now).body) }
        ensures state { OnOk result (state.new ≡ acts_spec.state_behind state.old (wire_values.item_value item.now ∷ [])) }
    {
        if let Some(act) = state.spoken(item) {
            self.acts.extend_from_slice(slice::from_ref(&act))?;
        } else if let Some(fragments) = item.data_frag(datagram) {
            self.add_fragments(state, item, &fragments)?;
        } else if let Some(asks) = item.nack_frag(datagram) {
            self.add_asks(state, item, asks)?;
        } else if item.body.is_data_frag() {
            self.unusable += 1;
        }
        self.plain.skipped += u64::from(item.body.is_skipped());
        self.plain.fragments += u64::from(item.body.is_fragment());
        state.interpret(item);
        Ok(())
    }

    /// Adds the acts of the unread part of a datagram, from this state on. After `Memory` it is of no use.
    fn add_items(
        &mut self,
        start: State,
        items: Items<'a>,
        datagram: &'a [u8],
    ) -> Result<(), Memory>
        requires few { self.old.unusable + length self.old.sents.items + length (reading.outcomes_left items) < 2 ^ 64 }
        requires plain { self.old.plain ≡ fragment_walk.no_tally }
        ensures plain { OnOk result (self.new.plain ≡ tally.tally_of_outcomes (reading.outcomes_left items.entry)) }
        ensures acts { OnOk result (fragment_walk.IsFragmentWalk [] 0 self.old → fragment_walk.IsFragmentWalk (fragment_walk.piece_acts_behind datagram.now start (reading.items_among (reading.outcomes_left items.entry)))
            (fragment_walk.unusable_among datagram.now (reading.items_among (reading.outcomes_left items.entry))) self.new) }
    {
        let mut state = start;
        let mut items = items;
        'items: loop {
            match items.next() {
                Some(Ok(item)) => self.add(&mut state, &item, datagram)?,
                Some(Err(_)) => self.plain.refused = true,
                None => return Ok(()),
            }
        }
    }

    /// Takes out what is kept of a datagram.
    fn clear(&mut self)
        ensures acts { fragment_walk.IsFragmentWalk [] 0 self.new }
        ensures plain { self.new.plain ≡ fragment_walk.no_tally }
    {
        self.acts.clear();
        self.sents.clear();
        self.unusable = 0;
        self.plain = NO_TALLY;
    }

    /// Reads a datagram of any length, up to its refusal, if it has one. Its acts, the fragments that its DATA_FRAG send, and its
    /// counts replace those of the datagram before. After `Memory` it is of no use.
    pub fn read(&mut self, datagram: &'a [u8]) -> Result<(), Memory>
        ensures acts { OnOk result (fragment_walk.IsFragmentWalk (fragment_walk.piece_acts_of datagram.now) (fragment_walk.unusable_in datagram.now) self.new) }
        ensures plain { OnOk result (self.new.plain ≡ tally.tally_of (reading.reading_of datagram.now)) }
    {
        self.clear();
        match Items::open(datagram) {
            Ok((header, items)) => self.add_items(State::at_start(header), items, datagram),
            Err(_) => {
                self.plain.refused = true;
                Ok(())
            }
        }
    }

    /// The acts of the datagram that was read last.
    pub fn acts(&self) -> &[Spoken<'a>]
        ensures { result.now ≡ self.now.acts.items }
    {
        &self.acts
    }
}
