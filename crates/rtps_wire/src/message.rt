ghost use Rattle.std.specs.Prelude.{◌≡◌, ◌≤◌, ◌+◌, drop, false, length, true, IfOk, MatchBool, MatchOption, MatchResult};
ghost use Rattle.std.specs.Iterator.{YieldsFirstBy, item_count};
ghost use Rattle.rtps_wire.specs.Dataless as dataless;
ghost use Rattle.rtps_wire.specs.Fault as fault;
ghost use Rattle.rtps_wire.specs.Message as message_spec;
ghost use Rattle.rtps_wire.specs.Reading as reading;
ghost use Rattle.rtps_wire.specs.Skipped as skipped_spec;
ghost use Rattle.rtps_wire.specs.Values as values;
ghost use Rattle.rtps_wire.specs.declared.layout.submessage.TheConstants.{SIZE};

use crate::body::{Body, Item};
use crate::fault::{Refusal, WireFault};
use crate::header::{Header, read_header};
use crate::layout::{header, id, submessage};
use crate::read;
use crate::read::fields::rest_at;
use rtps_ids::{Order, u16_at};
use std::marker::Model;

/// The unread part of a datagram: its items in order, and then its refusal, if there is one (DDSI-RTPS 2.5, 8.3.4.1
/// "Rules Followed By The Message Receiver"). A refused submessage makes the rest of the message invalid; the items
/// before it stay.
#[derive(Drop)]
pub struct Items<'a> {
    rest: &'a [u8],
    at: usize,
}

impl<'a> Model for Items<'a> {
    ghost use Rattle.std.specs.Prelude.{◌+◌, ◌<◌, ◌^◌, length};
    ghost use Rattle.rtps_wire.specs.Reading as reading;

    ghost Value = { reading.Unread };

    ghost view = { λ items. record { rest = items.rest.now; at = items.at } };

    ghost invariant = { λ items. items.at + length items.rest.now < 2 ^ 64 };
}

impl<'a> Items<'a> {
    /// Reads the header of a datagram of any length. What follows the header is left to be read: no more items than
    /// there are octets. The refusal is `Short`, `NotRtps` or `BadVersion`, at place 0.
    #[inline(always)]
    pub fn open(bytes: &'a [u8]) -> Result<(Header, Items<'a>), Refusal>
        ensures { MatchResult result
            (λ opened. (reading.reading_of bytes.now ≡ reading.read_as opened.0 (reading.outcomes_left opened.1)) × (length (reading.outcomes_left opened.1) ≤ length bytes.now))
            (λ refusal. (reading.reading_of bytes.now ≡ reading.refused_with refusal.fault) × (refusal.at ≡ 0)) }
    {
        match read_header(bytes) {
            Ok(header) => {
                let rest = rest_at(bytes, header::SIZE);
                let at = header::SIZE;
                Ok((header, Items { rest, at }))
            }
            Err(fault) => Err(Refusal { at: 0, fault }),
        }
    }

    /// The place of the first unread octet: that of the next item or of the refusal. It means nothing if nothing is
    /// left.
    pub fn at(&self) -> usize
        ensures { result ≡ self.now.at }
    {
        self.at
    }

    /// Takes the next item if it is skipped, and returns its id. Takes nothing if the next item is another, if there is
    /// a refusal, or if nothing is left. It is faster than the iterator, which makes an `Item`.
    #[inline(always)]
    pub fn take_skipped(&mut self) -> Option<u8>
        ensures id { result ≡ skipped_spec.skipped_next (reading.outcomes_left self.old) }
        ensures left { MatchOption result (self.new ≡ self.old) (λ id. reading.outcomes_left self.new ≡ drop 1 (reading.outcomes_left self.old)) }
    {
        if self.rest.len() < submessage::SIZE {
            return None;
        }
        let id = self.rest[submessage::ID];
        let declared = declared_by(self.rest);
        let left = self.rest.len() - submessage::SIZE;
        if is_read(id) {
            return None;
        }
        if declared > left {
            return None;
        }
        let size = submessage::SIZE + extent(id, declared, left);
        self.rest = rest_at(self.rest, size);
        self.at += size;
        Some(id)
    }

    /// Takes the next item if it is no DATA and does not change the receiver's state: if it is an ACKNACK, a HEARTBEAT,
    /// a GAP, or skipped. Returns whether it did. If not, nothing is taken, as in [`Items::take_skipped`]. It is faster
    /// than the iterator if only DATA are wanted.
    #[inline(always)]
    pub fn take_dataless(&mut self) -> bool
        ensures taken { result ≡ dataless.dataless_next (reading.outcomes_left self.old) }
        ensures left { MatchBool result (reading.outcomes_left self.new ≡ drop 1 (reading.outcomes_left self.old)) (self.new ≡ self.old) }
    {
        let Some(size) = dataless_size(self.rest) else {
            return false;
        };
        self.rest = rest_at(self.rest, size);
        self.at += size;
        true
    }
}

impl<'a> Iterator for Items<'a> {
    type Item = Result<Item<'a>, Refusal>;

    ghost next_gives = { YieldsFirstBy reading.outcome_value reading.outcomes_left };

    ghost remaining = { item_count reading.outcomes_left };

    /// The next item, or the refusal that ends the message. After a refusal or the end it always gives None.
    #[inline(always)]
    fn next(&mut self) -> Option<Result<Item<'a>, Refusal>> {
        if self.rest.is_empty() {
            return None;
        }
        let at = self.at;
        match read_item(self.rest, at) {
            Ok((item, size)) => {
                self.rest = rest_at(self.rest, size);
                self.at += size;
                Some(Ok(item))
            }
            Err(fault) => {
                self.rest = &[];
                Some(Err(Refusal { at, fault }))
            }
        }
    }
}

/// The octetsToNextHeader of the submessage at the front.
#[inline(always)]
pub(crate) fn declared_by(rest: &[u8]) -> usize
    requires { SIZE ≤ length rest.now }
    ensures { result ≡ message_spec.octets_to_next_header rest.now }
{
    let order = order_of(rest[submessage::FLAGS]);
    u16_at(order, rest, submessage::OCTETS_TO_NEXT).unwrap_or(0) as usize
}

/// Whether submessages of this id are read, and not skipped.
#[inline(always)]
fn is_read(id: u8) -> bool
    ensures { result ≡ skipped_spec.is_read id }
{
    match id {
        id::ACKNACK
        | id::HEARTBEAT
        | id::GAP
        | id::INFO_TS
        | id::INFO_SRC
        | id::INFO_DST
        | id::DATA => true,
        _ => false,
    }
}

/// The size of the submessage at the front, if it has no fault, is no DATA and does not change the receiver's state.
#[inline(always)]
fn dataless_size(rest: &[u8]) -> Option<usize>
    ensures { MatchOption result (dataless.is_dataless_at rest.now ≡ false)
        (λ size. (dataless.is_dataless_at rest.now ≡ true) × (size ≡ SIZE + message_spec.body_length rest.now) × (size ≤ length rest.now)) }
{
    if rest.len() < submessage::SIZE {
        return None;
    }
    let (id, flags, behind) = (
        rest[submessage::ID],
        rest[submessage::FLAGS],
        rest_at(rest, submessage::SIZE),
    );
    let declared = declared_by(rest);
    if declared > behind.len() {
        return None;
    }
    let size = extent(id, declared, behind.len());
    let (octets, _) = behind.split_at(size);
    if is_dataless(id, flags, octets) {
        Some(submessage::SIZE + size)
    } else {
        None
    }
}

/// The flags and the body of the submessage at the front, if it has this id, which is not read, and no fault.
pub(crate) fn skipped_body(rest: &[u8], id: u8) -> Option<(u8, &[u8])>
    requires { skipped_spec.is_read id ≡ false }
    ensures { MatchOption result (skipped_spec.begins_with id rest.now ≡ false)
        (λ found. (skipped_spec.begins_with id rest.now ≡ true) × (found.0 ≡ message_spec.flags_of rest.now) × (found.1.now ≡ message_spec.body_octets rest.now)) }
{
    if rest.len() < submessage::SIZE || rest[submessage::ID] != id {
        return None;
    }
    let declared = declared_by(rest);
    let behind = rest_at(rest, submessage::SIZE);
    if declared > behind.len() {
        return None;
    }
    let size = extent(id, declared, behind.len());
    let (octets, _) = behind.split_at(size);
    Some((rest[submessage::FLAGS], octets))
}

/// Whether the body of a submessage has no fault, is not that of a DATA and does not change the receiver's state.
#[inline(always)]
fn is_dataless(id: u8, flags: u8, octets: &[u8]) -> bool
    ensures { result ≡ dataless.is_dataless_with (message_spec.body_fault id flags octets.now) (message_spec.body_of id flags octets.now) }
{
    let order = order_of(flags);
    match id {
        id::ACKNACK => read::ack_nack(order, flags, octets).is_ok(),
        id::HEARTBEAT => read::heartbeat(order, flags, octets).is_ok(),
        id::GAP => read::gap(order, octets).is_ok(),
        id::INFO_TS | id::INFO_SRC | id::INFO_DST | id::DATA => false,
        _ => true,
    }
}

/// Reads the submessage at the front, which begins at place `at`, and says how many octets it has.
#[tactic(auto, unfolding(crate::specs::Message::fault_at, crate::specs::Message::item_at))]
#[inline(always)]
fn read_item(rest: &[u8], at: usize) -> Result<(Item<'_>, usize), WireFault>
    ensures item { fault.ReadsOrFaults (λ found. values.item_value found.0) result (message_spec.fault_at rest.now) (message_spec.item_at rest.now at) }
    ensures size { IfOk result (λ found. (found.1 ≡ SIZE + message_spec.body_length rest.now) × (found.1 ≤ length rest.now)) }
{
    if rest.len() < submessage::SIZE {
        return Err(WireFault::CutHeader);
    }
    let (id, flags, behind) = (
        rest[submessage::ID],
        rest[submessage::FLAGS],
        rest_at(rest, submessage::SIZE),
    );
    let order = order_of(flags);
    let declared = declared_by(rest);
    if declared > behind.len() {
        return Err(WireFault::Overrun);
    }
    let size = extent(id, declared, behind.len());
    let (octets, _) = behind.split_at(size);
    match read_body(id, flags, octets) {
        Ok(body) => Ok((Item { at, order, body }, submessage::SIZE + size)),
        Err(fault) => Err(fault),
    }
}

/// The size of the body of a submessage, if `left` octets come after its header.
#[inline(always)]
pub(crate) fn extent(id: u8, declared: usize, left: usize) -> usize
    ensures { result ≡ message_spec.extent_of id declared left }
{
    match (declared, id) {
        (0, id::PAD | id::INFO_TS) => 0,
        (0, _) => left,
        _ => declared,
    }
}

/// The order that flag E gives.
#[inline(always)]
pub(crate) fn order_of(flags: u8) -> Order
    ensures { result ≡ message_spec.order_of flags }
{
    if flags & submessage::E != 0 {
        Order::Little
    } else {
        Order::Big
    }
}

/// Reads the body of a submessage.
#[inline(always)]
fn read_body(id: u8, flags: u8, octets: &[u8]) -> Result<Body<'_>, WireFault>
    ensures { fault.ReadsOrFaults values.body_value result (message_spec.body_fault id flags octets.now) (message_spec.body_of id flags octets.now) }
{
    let order = order_of(flags);
    match id {
        id::ACKNACK => Ok(Body::AckNack(read::ack_nack(order, flags, octets)?)),
        id::HEARTBEAT => Ok(Body::Heartbeat(read::heartbeat(order, flags, octets)?)),
        id::GAP => Ok(Body::Gap(read::gap(order, octets)?)),
        id::INFO_TS => Ok(Body::InfoTs(read::info_ts(order, flags, octets)?)),
        id::INFO_SRC => {
            let Header {
                version,
                vendor,
                prefix,
            } = read::info_src(octets)?;
            Ok(Body::InfoSrc {
                version,
                vendor,
                prefix,
            })
        }
        id::INFO_DST => Ok(Body::InfoDst(read::info_dst(octets)?)),
        id::DATA => match read::data(order, flags, octets) {
            Ok(data) => Ok(Body::Data(data)),
            Err(fault) => Err(fault),
        },
        _ => Ok(Body::Skipped { id }),
    }
}
