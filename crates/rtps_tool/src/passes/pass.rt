ghost use Rattle.std.specs.Prelude.{◌≡◌};
ghost use Rattle.rtps_tool.specs.Sums as sums;

use crate::form::taking::Take;
use crate::passes::sum::{INITIAL, sum_octets};
use rtps_capture::Datagram;
use rtps_ids::Memory;

/// A pass over the datagrams of a recording: its taker, and a sum over the datagrams that it was told.
#[derive(Drop)]
pub(crate) struct Pass<T> {
    /// Its number, from 1 on.
    pub(crate) number: u8,
    pub(crate) taker: T,
    sum: u64,
}

impl<T> Pass<T> {
    /// Before all datagrams.
    pub(crate) fn new(number: u8, taker: T) -> Self
        ensures taker { result.taker ≡ taker }
        ensures sum { result.sum ≡ sums.initial }
    {
        Pass {
            number,
            taker,
            sum: INITIAL,
        }
    }

    /// The sum over the datagrams that it was told.
    pub(crate) fn sum(&self) -> u64
        ensures { result ≡ self.now.sum }
    {
        self.sum
    }

    pub(crate) fn into_taker(self) -> T
        ensures { result ≡ self.taker }
    {
        self.taker
    }
}

impl<T: Take> Take for Pass<T> {
    ghost has_taken = { λ start datagrams pass. T.has_taken start.taker datagrams pass.taker × (pass.sum ≡ sums.sum_of start.sum datagrams) };

    fn take(&mut self, datagram: &Datagram<'_>) -> Result<(), Memory> {
        self.sum = sum_octets(self.sum, datagram.octets);
        self.taker.take(datagram)
    }
}
