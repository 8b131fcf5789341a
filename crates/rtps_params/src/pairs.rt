ghost use Rattle.std.specs.Prelude.{◌≡◌};
ghost use Rattle.rtps_params.specs.Reading as reading;

use crate::layout::pid::PAD;
use crate::parameter::front;
use rtps_ids::Order;
use std::marker::Model;

/// The parameters of a list, ids and values in order, without pads (PID_PAD: DDSI-RTPS 2.5, 9.4.2.11 "ParameterList").
/// After the last one it always gives None.
#[derive(Clone, Debug, Drop)]
pub struct Params<'a> {
    rest: &'a [u8],
    order: Order,
}

impl<'a> Model for Params<'a> {
    ghost use Rattle.std.specs.Prelude.{ℕ, List};
    ghost use Rattle.rtps_params.specs.Reading as reading;

    // the pairs that are still to come
    ghost Value = { List (ℕ × List ℕ) };

    ghost view = { λ params. reading.pairs_of params.order params.rest.now };
}

impl<'a> Params<'a> {
    /// The parameters at the beginning of octets, up to a sentinel or a fault.
    pub(crate) fn new(octets: &'a [u8], order: Order) -> Params<'a>
        ensures { result ≡ reading.pairs_of order octets.now }
    {
        Params {
            rest: octets,
            order,
        }
    }
}

impl<'a> Iterator for Params<'a> {
    ghost use Rattle.std.specs.Iterator.{YieldsFirstBy, item_count};
    ghost use Rattle.rtps_params.specs.Item as item;

    type Item = (u16, &'a [u8]);

    ghost next_gives = { YieldsFirstBy item.pair_of (λ params. params) };

    ghost remaining = { item_count (λ params. params) };

    fn next(&mut self) -> Option<(u16, &'a [u8])> {
        while let Some(parameter) = front(self.rest, self.order).unwrap_or(None) {
            self.rest = parameter.rest;
            if parameter.pid != PAD {
                return Some((parameter.pid, parameter.value));
            }
        }
        None
    }
}
