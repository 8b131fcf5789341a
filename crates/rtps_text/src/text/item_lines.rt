ghost use Rattle.std.specs.Prelude.{◌≡◌, ◌++◌, OnOk, codes, length, decimal, option_map, string_bytes};
ghost use Rattle.std.specs.Fmt.{signed_decimal};
ghost use Rattle.hex.specs.Hex.{encode_lower};
ghost use Rattle.rtps_params.specs.Lists as lists;
ghost use Rattle.rtps_wire.specs.DataFrag as data_frag_spec;
ghost use Rattle.rtps_wire.specs.Values as values;
ghost use Rattle.rtps_text.specs.ShowText as show_text;

use crate::text::parts::{
    order_name, push_bitmap, push_digits, push_flag, push_id, push_tail, push_time, push_version,
};
use rtps_ids::{EntityId, GuidPrefix, NumberSet, Order, Stamp, Vendor, Version};
use rtps_lines::{push_field, push_payload};
use rtps_params::ParamList;
use rtps_receiver::State;
use rtps_wire::{AckNackBody, Body, DataBody, DataFrag, GapBody, HeartbeatBody, Item, NackFrag};
use std::alloc::AllocError;

pub(crate) fn push_item(
    text: &mut String,
    tail: &mut String,
    state: &State,
    item: &Item<'_>,
) -> Result<(), AllocError>
    requires { show_text.IsTailIn state.now (string_bytes tail.old) }
    ensures line { OnOk result (string_bytes text.new ≡ string_bytes text.old ++ show_text.item_line state.now (values.item_value item.now)) }
    ensures tail { OnOk result (show_text.IsTailIn state.now (string_bytes tail.new)) }
{
    let Item { at, order, body } = item;
    match body {
        Body::Data(data) => push_data(text, tail, state, *at, *order, data),
        Body::Heartbeat(heartbeat) => push_heartbeat(text, tail, state, *at, *order, heartbeat),
        Body::AckNack(ack_nack) => push_ack_nack(text, tail, state, *at, *order, ack_nack),
        Body::Gap(gap) => push_gap(text, tail, state, *at, *order, gap),
        Body::InfoTs(time) => push_info_ts(text, *at, *order, *time),
        Body::InfoDst(prefix) => push_info_dst(text, *at, *order, *prefix),
        Body::InfoSrc {
            version,
            vendor,
            prefix,
        } => push_info_src(text, *at, *order, *version, *vendor, *prefix),
        Body::Skipped { id } => push_skipped(text, *at, *id),
    }
}

#[inline(always)]
fn push_head(text: &mut String, name: &str, at: usize, order: Order) -> Result<(), AllocError>
    ensures { OnOk result (string_bytes text.new
        ≡ string_bytes text.old ++ (name.now ++ (decimal at ++ (codes " " ++ show_text.order_text order)))) }
{
    push_field(text, name, at)?;
    text.push_str(" ")?;
    text.push_str(order_name(order))
}

fn push_act(
    text: &mut String,
    name: &str,
    at: usize,
    order: Order,
    reader: EntityId,
    writer: EntityId,
) -> Result<(), AllocError>
    ensures { OnOk result (string_bytes text.new
        ≡ string_bytes text.old ++ (name.now ++ (decimal at ++ (codes " " ++ (show_text.order_text order
        ++ (codes " reader " ++ (encode_lower reader.0 ++ (codes " writer " ++ encode_lower writer.0)))))))) }
{
    push_head(text, name, at, order)?;
    text.push_str(" reader ")?;
    push_digits(text, &reader.0)?;
    text.push_str(" writer ")?;
    push_digits(text, &writer.0)
}

fn push_data(
    text: &mut String,
    tail: &mut String,
    state: &State,
    at: usize,
    order: Order,
    sent: &DataBody<'_>,
) -> Result<(), AllocError>
    requires { show_text.IsTailIn state.now (string_bytes tail.old) }
    ensures line { OnOk result (string_bytes text.new ≡ string_bytes text.old ++ show_text.data_line state.now at order (values.data_value sent.now)) }
    ensures tail { OnOk result (show_text.IsTailIn state.now (string_bytes tail.new)) }
{
    push_act(text, "data ", at, order, sent.reader, sent.writer)?;
    push_field(text, " number ", sent.number.get())?;
    push_field(text, " qos ", qos_octets(&sent.qos))?;
    push_payload(text, sent.payload)?;
    push_tail(text, tail, state)
}

pub(crate) fn push_data_frag(
    text: &mut String,
    tail: &mut String,
    state: &State,
    at: usize,
    data_frag: &DataFrag<'_>,
) -> Result<(), AllocError>
    requires { show_text.IsTailIn state.now (string_bytes tail.old) }
    ensures line { OnOk result (string_bytes text.new ≡ string_bytes text.old ++ show_text.data_frag_line state.now at (data_frag_spec.data_frag_value data_frag.now)) }
    ensures tail { OnOk result (show_text.IsTailIn state.now (string_bytes tail.new)) }
{
    push_act(
        text,
        "data_frag ",
        at,
        data_frag.order,
        data_frag.reader,
        data_frag.writer,
    )?;
    push_fragments(text, data_frag)?;
    push_sample(text, data_frag)?;
    push_tail(text, tail, state)
}

fn push_fragments(text: &mut String, data_frag: &DataFrag<'_>) -> Result<(), AllocError>
    ensures { OnOk result (string_bytes text.new
        ≡ string_bytes text.old ++ (codes " number " ++ (decimal data_frag.now.number
        ++ (codes " start " ++ (decimal data_frag.now.first ++ (codes " count " ++ (decimal data_frag.now.count
        ++ (codes " size " ++ (decimal data_frag.now.shape.fragment ++ (codes " sample " ++ decimal data_frag.now.shape.sample)))))))))) }
{
    push_field(text, " number ", data_frag.number.get())?;
    push_field(text, " start ", data_frag.first)?;
    push_field(text, " count ", data_frag.count)?;
    push_field(text, " size ", data_frag.shape.fragment)?;
    push_field(text, " sample ", data_frag.shape.sample)
}

fn push_sample(text: &mut String, data_frag: &DataFrag<'_>) -> Result<(), AllocError>
    ensures { OnOk result (string_bytes text.new
        ≡ string_bytes text.old ++ (codes " qos " ++ (decimal (show_text.qos_octets (option_map lists.list_value data_frag.now.qos))
        ++ (codes " key " ++ (show_text.digit_of data_frag.now.shape.is_key ++ (codes " octets " ++ decimal (length data_frag.now.octets.now))))))) }
{
    push_field(text, " qos ", qos_octets(&data_frag.qos))?;
    push_flag(text, " key ", data_frag.shape.is_key)?;
    push_field(text, " octets ", data_frag.octets.len())
}

/// How many octets the inline QoS has.
#[tactic(auto, unfolding(crate::specs::ShowText::qos_octets))]
fn qos_octets(qos: &Option<ParamList>) -> usize
    ensures { result ≡ show_text.qos_octets (option_map lists.list_value qos.now) }
{
    match qos {
        None => 0,
        Some(list) => list.octets().len(),
    }
}

fn push_heartbeat(
    text: &mut String,
    tail: &mut String,
    state: &State,
    at: usize,
    order: Order,
    heartbeat: &HeartbeatBody,
) -> Result<(), AllocError>
    requires { show_text.IsTailIn state.now (string_bytes tail.old) }
    ensures line { OnOk result (string_bytes text.new ≡ string_bytes text.old ++ show_text.heartbeat_line state.now at order heartbeat.now) }
    ensures tail { OnOk result (show_text.IsTailIn state.now (string_bytes tail.new)) }
{
    push_act(
        text,
        "heartbeat ",
        at,
        order,
        heartbeat.reader,
        heartbeat.writer,
    )?;
    push_numbers(text, heartbeat)?;
    push_flag(text, " final ", heartbeat.is_final)?;
    push_flag(text, " live ", heartbeat.live)?;
    push_tail(text, tail, state)
}

fn push_numbers(text: &mut String, heartbeat: &HeartbeatBody) -> Result<(), AllocError>
    ensures { OnOk result (string_bytes text.new
        ≡ string_bytes text.old ++ (codes " first " ++ (decimal heartbeat.now.first
        ++ (codes " last " ++ (signed_decimal heartbeat.now.last ++ (codes " count " ++ decimal heartbeat.now.count)))))) }
{
    push_field(text, " first ", heartbeat.first.get())?;
    push_field(text, " last ", heartbeat.last)?;
    push_field(text, " count ", heartbeat.count)
}

fn push_ack_nack(
    text: &mut String,
    tail: &mut String,
    state: &State,
    at: usize,
    order: Order,
    ack_nack: &AckNackBody,
) -> Result<(), AllocError>
    requires { show_text.IsTailIn state.now (string_bytes tail.old) }
    ensures line { OnOk result (string_bytes text.new ≡ string_bytes text.old ++ show_text.ack_nack_line state.now at order ack_nack.now) }
    ensures tail { OnOk result (show_text.IsTailIn state.now (string_bytes tail.new)) }
{
    push_act(
        text,
        "acknack ",
        at,
        order,
        ack_nack.reader,
        ack_nack.writer,
    )?;
    push_set(text, &ack_nack.set)?;
    push_field(text, " count ", ack_nack.count)?;
    push_flag(text, " final ", ack_nack.is_final)?;
    push_tail(text, tail, state)
}

pub(crate) fn push_nack_frag(
    text: &mut String,
    tail: &mut String,
    state: &State,
    at: usize,
    order: Order,
    nack_frag: &NackFrag,
) -> Result<(), AllocError>
    requires { show_text.IsTailIn state.now (string_bytes tail.old) }
    ensures line { OnOk result (string_bytes text.new ≡ string_bytes text.old ++ show_text.nack_frag_line state.now at order nack_frag.now) }
    ensures tail { OnOk result (show_text.IsTailIn state.now (string_bytes tail.new)) }
{
    push_act(
        text,
        "nack_frag ",
        at,
        order,
        nack_frag.reader,
        nack_frag.writer,
    )?;
    push_field(text, " number ", nack_frag.number.get())?;
    push_set(text, &nack_frag.set)?;
    push_field(text, " count ", nack_frag.count)?;
    push_tail(text, tail, state)
}

fn push_gap(
    text: &mut String,
    tail: &mut String,
    state: &State,
    at: usize,
    order: Order,
    gap: &GapBody,
) -> Result<(), AllocError>
    requires { show_text.IsTailIn state.now (string_bytes tail.old) }
    ensures line { OnOk result (string_bytes text.new ≡ string_bytes text.old ++ show_text.gap_line state.now at order gap.now) }
    ensures tail { OnOk result (show_text.IsTailIn state.now (string_bytes tail.new)) }
{
    push_act(text, "gap ", at, order, gap.reader, gap.writer)?;
    push_field(text, " start ", gap.start.get())?;
    push_set(text, &gap.list)?;
    push_tail(text, tail, state)
}

#[inline(always)]
fn push_set(text: &mut String, set: &NumberSet) -> Result<(), AllocError>
    ensures { OnOk result (string_bytes text.new
        ≡ string_bytes text.old ++ (codes " base " ++ (decimal set.now.base ++ (codes " bits " ++ (decimal set.now.count ++ (codes " " ++ show_text.bitmap_text set.now)))))) }
{
    push_field(text, " base ", set.base())?;
    push_field(text, " bits ", set.count())?;
    text.push_str(" ")?;
    push_bitmap(text, set)
}

fn push_info_ts(
    text: &mut String,
    at: usize,
    order: Order,
    time: Option<Stamp>,
) -> Result<(), AllocError>
    ensures { OnOk result (string_bytes text.new ≡ string_bytes text.old ++ show_text.info_ts_line at order time) }
{
    push_head(text, "info_ts ", at, order)?;
    text.push_str(" time ")?;
    push_time(text, time)?;
    text.push_str("\n")
}

fn push_info_dst(
    text: &mut String,
    at: usize,
    order: Order,
    prefix: GuidPrefix,
) -> Result<(), AllocError>
    ensures { OnOk result (string_bytes text.new ≡ string_bytes text.old ++ show_text.info_dst_line at order prefix) }
{
    push_head(text, "info_dst ", at, order)?;
    text.push_str(" prefix ")?;
    push_digits(text, &prefix.0)?;
    text.push_str("\n")
}

fn push_info_src(
    text: &mut String,
    at: usize,
    order: Order,
    version: Version,
    vendor: Vendor,
    prefix: GuidPrefix,
) -> Result<(), AllocError>
    ensures { OnOk result (string_bytes text.new ≡ string_bytes text.old ++ show_text.info_src_line at order version vendor prefix) }
{
    push_head(text, "info_src ", at, order)?;
    push_origin(text, version, vendor, prefix)
}

pub(crate) fn push_origin(
    text: &mut String,
    version: Version,
    vendor: Vendor,
    prefix: GuidPrefix,
) -> Result<(), AllocError>
    ensures { OnOk result (string_bytes text.new
        ≡ string_bytes text.old ++ (codes " version " ++ (show_text.version_text version ++ (codes " vendor " ++ (encode_lower vendor.0 ++ (codes " prefix " ++ (encode_lower prefix.0 ++ codes "\n"))))))) }
{
    text.push_str(" version ")?;
    push_version(text, version)?;
    text.push_str(" vendor ")?;
    push_digits(text, &vendor.0)?;
    text.push_str(" prefix ")?;
    push_digits(text, &prefix.0)?;
    text.push_str("\n")
}

pub(crate) fn push_skipped(text: &mut String, at: usize, id: u8) -> Result<(), AllocError>
    ensures { OnOk result (string_bytes text.new ≡ string_bytes text.old ++ show_text.skipped_line at id) }
{
    push_field(text, "skipped ", at)?;
    push_id(text, id)
}
