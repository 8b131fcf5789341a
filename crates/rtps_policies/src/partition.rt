ghost use Rattle.std.specs.Prelude.{◌≡◌, ◌==◌, MatchOption, Some, None, drop, length};
ghost use Rattle.std.specs.List.{list_any};
ghost use Rattle.std.specs.Option.{option_map};
ghost use Rattle.rtps_params.specs.Values as values;
ghost use Rattle.rtps_policies.specs.NamePatterns as name_patterns;
ghost use Rattle.rtps_policies.specs.Sequences as sequences;
ghost use Rattle.rtps_policies.specs.Views as views;

use crate::layout::sequence::{ALIGNMENT, COUNT_SIZE, LENGTH_SIZE};
use crate::name_pattern::names_fit;
use rtps_ids::Order;
use rtps_params::{read_text, read_u32};
use std::marker::Model;

/// The names of the partitions that an endpoint is in, as they are announced (DDS 1.4, 2.2.3.13 "PARTITION"). They are parts of
/// the payload that announces it, and have any octets.
#[derive(Clone, Copy)]
pub struct Partition<'a> {
    count: u32,
    octets: &'a [u8],
    order: Order,
}

/// The names that are still to come.
#[derive(Clone, Drop)]
pub struct Names<'a> {
    count: u32,
    rest: &'a [u8],
    order: Order,
}

impl<'a> Model for Names<'a> {
    ghost use Rattle.std.specs.Prelude.{ℕ, List};
    ghost use Rattle.rtps_policies.specs.Sequences as sequences;

    ghost Value = { List (List ℕ) };

    ghost view = { λ names. sequences.texts_in names.count names.order names.rest.now };
}

impl<'a> Iterator for Names<'a> {
    ghost use Rattle.std.specs.Iterator.{YieldsFirstRef, item_count};

    type Item = &'a [u8];

    ghost next_gives = { YieldsFirstRef (λ names. names) };

    ghost remaining = { item_count (λ names. names) };

    fn next(&mut self) -> Option<&'a [u8]> {
        if self.count == 0 {
            return None;
        }
        let (name, behind) = front_text(self.rest, self.order)?;
        self.count -= 1;
        self.rest = behind;
        Some(name)
    }
}

impl<'a> Partition<'a> {
    /// The partition of an endpoint that announces none: one empty name.
    pub const UNNAMED: Partition<'static> = Partition {
        count: 1,
        octets: &[0; 4],
        order: Order::Big,
    };

    /// The names in a value, or None if one of them cannot be read.
    pub(crate) fn read(value: &'a [u8], order: Order) -> Option<Partition<'a>>
        ensures { option_map views.partition_value result ≡ sequences.partition_of order value.now }
    {
        let count = read_u32(value, order)?;
        let octets = &value[COUNT_SIZE..];
        if count == 0 {
            return Some(Partition::UNNAMED);
        }
        if !are_texts(octets, order, count) {
            return None;
        }
        Some(Partition {
            count,
            octets,
            order,
        })
    }

    /// Its names, in the order in which they are announced: one at least.
    pub fn names(&self) -> Names<'a>
        ensures { result ≡ views.partition_value self.now }
    {
        Names {
            count: self.count,
            rest: self.octets,
            order: self.order,
        }
    }

    /// Whether some name of one fits some name of the other.
    pub(crate) fn fits(&self, other: &Partition<'_>) -> bool
        ensures { result ≡ list_any (λ one. list_any (name_patterns.names_fit one) (views.partition_value other.now)) (views.partition_value self.now) }
    {
        for name in self.names() {
            if has_fitting(name, other) {
                return true;
            }
        }
        false
    }
}

/// Whether a name fits some name of a partition.
fn has_fitting(name: &[u8], partition: &Partition<'_>) -> bool
    ensures { result ≡ list_any (name_patterns.names_fit name.now) (views.partition_value partition.now) }
{
    for other in partition.names() {
        if names_fit(name, other) {
            return true;
        }
    }
    false
}

/// The text at the beginning of octets, and what is from the next one on. None if it cannot be read.
fn front_text(octets: &[u8], order: Order) -> Option<(&[u8], &[u8])>
    ensures { MatchOption result (values.text_of order octets.now ≡ None)
        (λ found. (values.text_of order octets.now ≡ Some found.0.now) × (found.1.now ≡ drop (sequences.text_room order octets.now) octets.now)) }
{
    let text = read_text(octets, order)?;
    let size = read_u32(octets, order)? as usize;
    let room = (LENGTH_SIZE + size + (ALIGNMENT - 1)) / ALIGNMENT * ALIGNMENT;
    let behind = if room < octets.len() {
        &octets[room..]
    } else {
        &[]
    };
    Some((text, behind))
}

/// Whether so many texts are at the beginning of octets.
fn are_texts(octets: &[u8], order: Order, count: u32) -> bool
    ensures { result ≡ (length (sequences.texts_in count order octets.now) == count) }
{
    let mut rest = octets;
    for _ in 0..count {
        let Some((_, behind)) = front_text(rest, order) else {
            return false;
        };
        rest = behind;
    }
    true
}
