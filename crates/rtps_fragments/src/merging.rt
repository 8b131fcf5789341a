ghost use Rattle.std.specs.Prelude.{◌≡◌, ◌≤◌, ◌++◌, drop, length, map, take, OnOk};
ghost use Rattle.rtps_receiver.specs.Values as receiver_values;
ghost use Rattle.rtps_wire.specs.Values as wire_values;
ghost use Rattle.rtps_fragments.specs.Merging as merging;
ghost use Rattle.rtps_fragments.specs.SamplesSent as samples_sent;
ghost use Rattle.rtps_fragments.specs.ToldSamples as told_samples;

use crate::told_sample::ToldSample;
use rtps_ids::{Memory, SeqNum};
use rtps_receiver::{ActBody, EVERY_READER, Spoken, SpokenBody};
use rtps_wire::{DataBody, Payload};
use std::slice;

/// The payload of a sample.
pub(crate) fn payload_of<'s>(told: &ToldSample<'s>) -> Payload<'s>
    ensures { wire_values.payload_value result ≡ (told_samples.told_value told.now).payload }
{
    if told.is_key {
        Payload::Key(told.octets)
    } else {
        Payload::Whole(told.octets)
    }
}

/// A sample that a DATA_FRAG of this number tells, as a DATA for everyone.
fn noted_act<'s>(act: &Spoken<'s>, number: SeqNum, told: &ToldSample<'s>) -> Spoken<'s>
    ensures { receiver_values.spoken_value result ≡ samples_sent.noted_act (receiver_values.spoken_value act.now) number (told_samples.told_value told.now).payload }
{
    let data = DataBody {
        reader: EVERY_READER,
        writer: act.origin().entity,
        number,
        qos: None,
        payload: payload_of(told),
    };
    Spoken {
        dest: None,
        body: SpokenBody::Act(ActBody::Data(data)),
        ..*act
    }
}

/// Appends the samples that an act tells.
fn push_told<'s>(
    acts: &mut Vec<Spoken<'s>>,
    act: &Spoken<'s>,
    told: &[ToldSample<'s>],
) -> Result<(), Memory>
    ensures { OnOk result (map receiver_values.spoken_value acts.new.items ≡ map receiver_values.spoken_value acts.old.items ++ merging.acts_told (receiver_values.spoken_value act.now) (receiver_values.spoken_value act.now).body (map told_samples.told_value told.now)) }
{
    let SpokenBody::DataFrag(fragment) = &act.body else {
        return Ok(());
    };
    for one in told {
        let sample = noted_act(act, fragment.number, one);
        acts.extend_from_slice(slice::from_ref(&sample))?;
    }
    Ok(())
}

/// How many of these, from the first on, the act at this place tells.
fn run_length(told: &[ToldSample<'_>], act: usize) -> usize
    ensures within { result ≤ length told.now }
    ensures run { merging.run_of act (map told_samples.told_value told.now) ≡ map told_samples.told_value (take result told.now) }
    ensures past { merging.run_past act (map told_samples.told_value told.now) ≡ map told_samples.told_value (drop result told.now) }
{
    for place in 0..told.len() {
        if told[place].act != act {
            return place;
        }
    }
    told.len()
}

/// Puts the acts of a datagram there in place of others, and behind each the samples that it tells.
pub(crate) fn merge<'s>(
    merged: &mut Vec<Spoken<'s>>,
    acts: &[Spoken<'s>],
    told: &[ToldSample<'s>],
) -> Result<(), Memory>
    ensures { OnOk result (map receiver_values.spoken_value merged.new.items ≡ merging.merged_from 0 (map receiver_values.spoken_value acts.now) (map told_samples.told_value told.now)) }
{
    merged.clear();
    let mut done = 0;
    for place in 0..acts.len() {
        let act = &acts[place];
        merged.extend_from_slice(slice::from_ref(act))?;
        let rest = &told[done..];
        let count = run_length(rest, place);
        push_told(merged, act, &rest[..count])?;
        done += count;
    }
    Ok(())
}
