ghost use Rattle.std.specs.Prelude.{◌≡◌, ◌++◌, ◌∷◌, [], ◌<◌, ◌^◌, length, OnErr, OnOk};
ghost use Rattle.std.specs.Iterator.{YieldsFirstRef, item_count};
ghost use Rattle.rtps_report.specs.DatagramSpan as datagram_span;

use crate::datagram_span::{DatagramSpan, make_room, push_octets};
use std::alloc::{AllocError, Global};
use std::marker::Model;

/// Datagrams in their order, which stand among octets. It is seen as the list of its datagrams.
#[derive(Drop)]
pub struct DatagramList {
    octets: Vec<u8>,
    spans: Vec<DatagramSpan>,
}

impl Model for DatagramList {
    ghost use Rattle.std.specs.Prelude.{ℕ, List};
    ghost use Rattle.rtps_report.specs.DatagramSpan as datagram_span;

    ghost Value = { List (List ℕ) };

    ghost view = { λ list. datagram_span.pieces list.octets.items list.spans.items };

    ghost invariant = { λ list. datagram_span.AreSpans list.octets.items list.spans.items };
}

impl DatagramList {
    /// No datagram yet.
    pub fn new(alloc: Global) -> DatagramList
        ensures { result ≡ [] }
    {
        DatagramList {
            octets: Vec::new(alloc),
            spans: Vec::new(alloc),
        }
    }

    /// The datagrams that stand so in octets.
    pub fn at_spans(octets: Vec<u8>, spans: Vec<DatagramSpan>) -> DatagramList
        requires { datagram_span.AreSpans octets.items spans.items }
        ensures { result ≡ datagram_span.pieces octets.items spans.items }
    {
        DatagramList { octets, spans }
    }

    /// How many datagrams there are.
    pub fn len(&self) -> usize
        ensures { result ≡ length self.now }
    {
        self.spans.len()
    }

    /// The datagrams, in their order. There are no more than a `usize` counts.
    pub fn datagrams(&self) -> Datagrams<'_>
        ensures all { result ≡ self.now }
        ensures few { length self.now < 2 ^ 64 }
    {
        Datagrams {
            octets: self.octets.as_slice(),
            spans: self.spans.as_slice(),
        }
    }

    /// Appends a datagram. Nothing changes after an `Err`: that is want of memory, or of a span ([`DatagramSpan::new`]), where it has more
    /// than 65,535 octets or would begin behind 2^48 of them.
    pub fn push(&mut self, octets: &[u8]) -> Result<(), AllocError>
        ensures pushed { OnOk result (self.new ≡ self.old ++ octets.now ∷ []) }
        ensures err { OnErr result (self.new ≡ self.old) }
    {
        let from = self.octets.len();
        let Some(span) = DatagramSpan::new(from, from + octets.len()) else {
            return Err(AllocError);
        };
        make_room(&mut self.spans, 1)?;
        push_octets(&mut self.octets, octets)?;
        self.spans.push_reserved(span);
        Ok(())
    }
}

/// The datagrams of a list that are still to come, in their order.
#[derive(Drop)]
pub struct Datagrams<'a> {
    octets: &'a [u8],
    spans: &'a [DatagramSpan],
}

impl<'a> Model for Datagrams<'a> {
    ghost use Rattle.std.specs.Prelude.{ℕ, List};
    ghost use Rattle.rtps_report.specs.DatagramSpan as datagram_span;

    ghost Value = { List (List ℕ) };

    ghost view = { λ d. datagram_span.pieces d.octets.now d.spans.now };

    ghost invariant = { λ d. datagram_span.AreSpans d.octets.now d.spans.now };
}

impl<'a> Iterator for Datagrams<'a> {
    type Item = &'a [u8];

    ghost next_gives = { YieldsFirstRef (λ datagrams. datagrams) };

    ghost remaining = { item_count (λ datagrams. datagrams) };

    /// The octets of the next datagram. After the last it answers None for good.
    #[inline(always)]
    fn next(&mut self) -> Option<&'a [u8]> {
        if self.spans.is_empty() {
            return None;
        }
        let span = self.spans[0];
        self.spans = &self.spans[1..];
        Some(&self.octets[span.start()..span.end()])
    }
}
