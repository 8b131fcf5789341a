ghost use Rattle.std.specs.Prelude.{◌≡◌, [], ◌∷◌, ◌++◌, ◌<◌, length, IfOk, MatchOption, OnOk, Some, None, string_bytes};
ghost use Rattle.rtps_receiver.specs.Acts as acts;
ghost use Rattle.rtps_wire.specs.Message as message;
ghost use Rattle.rtps_wire.specs.Reading as reading;
ghost use Rattle.rtps_wire.specs.Values as values;
ghost use Rattle.rtps_text.specs.ShowText as show_text_spec;

use crate::text::item_lines::{
    push_data_frag, push_item, push_nack_frag, push_origin, push_skipped,
};
use rtps_fragments::Fragments;
use rtps_ids::{Memory, Order};
use rtps_lines::push_field;
use rtps_receiver::State;
use rtps_report::{Ending, Recording};
use rtps_wire::{Body, DataFrag, Header, Item, Items, NackFrag, Refusal};
use std::alloc::{AllocError, Global};

/// A datagram, and what becomes of fragments in it.
#[derive(Clone, Copy)]
struct ShownDatagram<'a> {
    octets: &'a [u8],
    fragments: Fragments,
}

/// What `show` prints of a recording, and that it ends [`Ending::Clean`].
/// `Memory` is answered where the text, or what is kept for it, cannot grow.
pub fn show_text(
    alloc: Global,
    recording: &Recording,
    fragments: Fragments,
) -> Result<(String, Ending), Memory>
    ensures { IfOk result (λ shown. show_text_spec.IsShownWith fragments recording.now (string_bytes shown.0) shown.1) }
{
    let mut text = String::new(alloc);
    let mut tail = String::new(alloc);
    push_datagrams(&mut text, &mut tail, recording, fragments)?;
    Ok((text, Ending::Clean))
}

fn push_datagrams(
    text: &mut String,
    tail: &mut String,
    recording: &Recording,
    fragments: Fragments,
) -> Result<(), AllocError>
    ensures { OnOk result (string_bytes text.new ≡ string_bytes text.old ++ show_text_spec.text_from fragments 1 recording.now.datagrams) }
{
    let mut number = 0;
    for octets in recording.datagrams() {
        number += 1;
        push_datagram(text, tail, number, ShownDatagram { octets, fragments })?;
    }
    Ok(())
}

fn push_datagram(
    text: &mut String,
    tail: &mut String,
    number: usize,
    datagram: ShownDatagram<'_>,
) -> Result<(), AllocError>
    ensures { OnOk result (string_bytes text.new ≡ string_bytes text.old ++ show_text_spec.datagram_text datagram.entry.fragments number datagram.entry.octets.now) }
{
    match Items::open(datagram.octets) {
        Ok((header, items)) => {
            push_opened(text, number, &header)?;
            push_items(text, tail, State::at_start(header), items, datagram)
        }
        Err(refusal) => {
            push_field(text, "datagram ", number)?;
            text.push_str(" unread\n")?;
            push_refusal(text, refusal)
        }
    }
}

fn push_opened(text: &mut String, number: usize, header: &Header) -> Result<(), AllocError>
    ensures { OnOk result (string_bytes text.new ≡ string_bytes text.old ++ show_text_spec.datagram_line number (Some header.now)) }
{
    push_field(text, "datagram ", number)?;
    push_origin(text, header.version, header.vendor, header.prefix)
}

/// The lines of what is left of a datagram, from a state of the receiver on. No item is made of a submessage that
/// is skipped. The end of an act's line is made once for all acts in one state, in the tail.
fn push_items(
    text: &mut String,
    tail: &mut String,
    start: State,
    items: Items<'_>,
    datagram: ShownDatagram<'_>,
) -> Result<(), AllocError>
    ensures { OnOk result (string_bytes text.new
        ≡ string_bytes text.old ++ show_text_spec.outcomes_text (show_text_spec.fragments_at datagram.entry.fragments datagram.entry.octets.now) start (reading.outcomes_left items.entry)) }
{
    let mut state = start;
    let mut items = items;
    tail.clear();
    'items: loop {
        let at = items.at();
        if let Some(id) = items.take_skipped() {
            match fragments_at(datagram, at) {
                Some(submessage) => push_said(text, tail, &state, at, id, submessage)?,
                None => push_skipped(text, at, id)?,
            }
            continue;
        }
        match items.next() {
            Some(Ok(item)) => {
                push_item(text, tail, &state, &item)?;
                interpret(&mut state, tail, &item);
            }
            Some(Err(refusal)) => push_refusal(text, refusal)?,
            None => return Ok(()),
        }
    }
}

/// The octets from this place on, if what is said of fragments is read.
#[inline(always)]
fn fragments_at<'a>(datagram: ShownDatagram<'a>, at: usize) -> Option<&'a [u8]>
    ensures { MatchOption result (show_text_spec.fragments_at datagram.entry.fragments datagram.entry.octets.now at ≡ None)
        (λ submessage. show_text_spec.fragments_at datagram.entry.fragments datagram.entry.octets.now at ≡ show_text_spec.said_at submessage.now) }
{
    match datagram.fragments {
        Fragments::Skipped => None,
        Fragments::Read => datagram.octets.get(at..),
    }
}

/// The order of the octets of a submessage's numbers, by its flags.
fn order_of(submessage: &[u8]) -> Order
    requires { 1 < length submessage.now }
    ensures { result ≡ message.order_of (message.flags_of submessage.now) }
{
    if submessage[1] & 1 != 0 {
        Order::Little
    } else {
        Order::Big
    }
}

/// The line of a submessage that is not read, or of what it says of fragments.
fn push_said(
    text: &mut String,
    tail: &mut String,
    state: &State,
    at: usize,
    id: u8,
    submessage: &[u8],
) -> Result<(), AllocError>
    requires { show_text_spec.IsTailIn state.now (string_bytes tail.old) }
    ensures line { OnOk result (string_bytes text.new ≡ string_bytes text.old ++ show_text_spec.unread_line state.now at id (show_text_spec.said_at submessage.now)) }
    ensures tail { OnOk result (show_text_spec.IsTailIn state.now (string_bytes tail.new)) }
{
    if let Some(read) = DataFrag::read(submessage) {
        return push_data_frag(text, tail, state, at, &read);
    }
    match NackFrag::read(submessage) {
        Some(read) => {
            let order = order_of(submessage);
            push_nack_frag(text, tail, state, at, order, &read)
        }
        None => push_skipped(text, at, id),
    }
}

/// Takes what an item says of the state of what follows it. Where it says something, the tail is given up.
#[inline(always)]
fn interpret(state: &mut State, tail: &mut String, item: &Item<'_>)
    requires { show_text_spec.IsTailIn state.old (string_bytes tail.old) }
    ensures state { state.new ≡ acts.state_behind state.old (values.item_value item.now ∷ []) }
    ensures tail { show_text_spec.IsTailIn state.new (string_bytes tail.new) }
{
    state.interpret(item);
    if says_state(&item.body) {
        tail.clear();
    }
}

#[inline(always)]
fn says_state(body: &Body<'_>) -> bool
    ensures { result ≡ show_text_spec.says_of_state (values.body_value body.now) }
{
    matches!(
        body,
        Body::InfoTs(_) | Body::InfoDst(_) | Body::InfoSrc { .. }
    )
}

fn push_refusal(text: &mut String, refusal: Refusal) -> Result<(), AllocError>
    ensures { OnOk result (string_bytes text.new ≡ string_bytes text.old ++ show_text_spec.refusal_line refusal) }
{
    writeln!(text, "refused {} {}", refusal.at, refusal.fault)
}
