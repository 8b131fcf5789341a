ghost use Rattle.std.specs.Prelude.{◌≡◌, ◌==◌, length};
ghost use Rattle.std.specs.List.{list_any};
ghost use Rattle.std.specs.Option.{option_map};
ghost use Rattle.rtps_policies.specs.Sequences as sequences;
ghost use Rattle.rtps_policies.specs.Views as views;

use crate::layout::representation::XCDR1;
use crate::layout::sequence::{COUNT_SIZE, ID_SIZE};
use rtps_ids::{Order, u16_at};
use rtps_params::read_u32;
use std::marker::Model;

/// The ids of the representations that an endpoint announces, the best first (XTypes 1.3, 7.6.3.1.1
/// "DataRepresentationQosPolicy"). An id is read without its sign.
#[derive(Clone, Copy)]
pub struct Representations<'a> {
    octets: &'a [u8],
    order: Order,
}

impl<'a> Representations<'a> {
    /// Those of an endpoint that announces none.
    pub const NONE: Representations<'static> = Representations {
        octets: &[],
        order: Order::Big,
    };

    /// The ids in a value, or None if it is cut.
    pub(crate) fn read(value: &'a [u8], order: Order) -> Option<Representations<'a>>
        ensures { option_map views.representations_value result ≡ sequences.representations_of order value.now }
    {
        let count = read_u32(value, order)? as usize;
        let octets = value[COUNT_SIZE..].get(..ID_SIZE * count)?;
        Some(Representations { octets, order })
    }

    /// What a writer sends: the first of them, or XCDR1 if there is none.
    pub fn sent(&self) -> u16
        ensures { result ≡ views.first_in (views.representations_value self.now) }
    {
        u16_at(self.order, self.octets, 0).unwrap_or(XCDR1)
    }

    /// Whether a reader takes a representation: it is among them, or it is XCDR1 and there is none.
    pub fn accept(&self, id: u16) -> bool
        ensures { result ≡ list_any (λ own. own == id) (views.accepted_in (views.representations_value self.now)) }
    {
        if self.octets.len() < ID_SIZE {
            return id == XCDR1;
        }
        self.has(id)
    }

    /// Whether none is announced.
    pub fn is_empty(&self) -> bool
        ensures { result ≡ (length (views.representations_value self.now) == 0) }
    {
        self.octets.len() < ID_SIZE
    }

    /// The ids, in the order in which they are announced.
    pub fn ids(&self) -> Ids<'a>
        ensures { result ≡ views.representations_value self.now }
    {
        Ids {
            rest: self.octets,
            order: self.order,
        }
    }

    /// Whether an id is among them.
    fn has(&self, id: u16) -> bool
        ensures { result ≡ list_any (λ own. own == id) (views.representations_value self.now) }
    {
        for own in self.ids() {
            if own == id {
                return true;
            }
        }
        false
    }
}

/// The ids that are still to come.
#[derive(Clone, Drop)]
pub struct Ids<'a> {
    rest: &'a [u8],
    order: Order,
}

impl<'a> Model for Ids<'a> {
    ghost use Rattle.std.specs.Prelude.{ℕ, List};
    ghost use Rattle.rtps_policies.specs.Sequences as sequences;

    ghost Value = { List ℕ };

    ghost view = { λ ids. sequences.ids_in ids.order ids.rest.now };
}

impl<'a> Iterator for Ids<'a> {
    ghost use Rattle.std.specs.Iterator.{YieldsFirst, item_count};

    type Item = u16;

    ghost next_gives = { YieldsFirst (λ ids. ids) };

    ghost remaining = { item_count (λ ids. ids) };

    fn next(&mut self) -> Option<u16> {
        let [_, _, behind @ ..] = self.rest else {
            return None;
        };
        let id = u16_at(self.order, self.rest, 0)?;
        self.rest = behind;
        Some(id)
    }
}
