ghost use Rattle.std.specs.Prelude.{◌≡◌, ◌++◌, ◌+◌, ◌≤◌, max, true, false, vec_len, vec_capacity, MatchOption, OnOk, OnErr};
ghost use Rattle.rtps_report.specs.DatagramSpan as datagram_span;

use std::alloc::AllocError;

/// The least that room is asked for besides what is needed, in octets or spans.
const ROOM_MIN: usize = 1 << 16;

/// How many sizes a datagram may have: 0 to 65,535 octets.
const SIZES: u64 = 1 << 16;

/// How many places there are where a datagram may begin.
const STARTS: usize = 1 << 48;

/// Where a datagram stands in the octets that are kept of a recording: from the place of its first octet on, up to the one behind
/// its last. It takes 8 octets: 48 bits say where the datagram begins, and 16 how many octets it has.
#[derive(Clone, Copy)]
pub struct DatagramSpan {
    // The place of the first octet times 2^16, and how many octets there are.
    bits: u64,
}

impl DatagramSpan {
    /// From place `from` up to place `to`, in octets. None where it would end before it begins, have more than 65,535
    /// octets, or begin at 2^48 or behind.
    #[tactic(auto, unfolding(crate::specs::DatagramSpan::start_of, crate::specs::DatagramSpan::end_of))]
    pub fn new(from: usize, to: usize) -> Option<DatagramSpan>
        ensures { MatchOption result
            (datagram_span.has_span from to ≡ false)
            (λ span. (datagram_span.has_span from to ≡ true) × (datagram_span.start_of span ≡ from) × (datagram_span.end_of span ≡ to)) }
    {
        if from > to || from >= STARTS {
            return None;
        }
        let size = (to - from) as u64;
        if size >= SIZES {
            return None;
        }
        Some(DatagramSpan {
            bits: from as u64 * SIZES + size,
        })
    }

    /// The place of the first octet.
    #[inline]
    #[tactic(auto, unfolding(crate::specs::DatagramSpan::start_of))]
    pub fn start(self) -> usize
        ensures { result ≡ datagram_span.start_of self }
    {
        (self.bits / SIZES) as usize
    }

    /// The place behind the last octet.
    #[inline]
    #[tactic(auto, unfolding(crate::specs::DatagramSpan::end_of))]
    pub fn end(self) -> usize
        ensures { result ≡ datagram_span.end_of self }
    {
        (self.bits / SIZES + self.bits % SIZES) as usize
    }
}

/// Appends octets, in room that [`make_room`] makes. They stay as they are after an `Err`.
pub fn push_octets(octets: &mut Vec<u8>, more: &[u8]) -> Result<(), AllocError>
    ensures ok { OnOk result (octets.new.items ≡ octets.old.items ++ more.now) }
    ensures err { OnErr result (octets.new.items ≡ octets.old.items) }
{
    make_room(octets, more.len())?;
    octets.extend_from_slice(more)
}

/// Makes room for so many items more where there is none yet, and besides for an eighth of those that are there, 65,536 at
/// least: so the room of a recording is never much more than what it needs, and is seldom asked for. The items stay as they are, after an
/// `Err` too.
pub fn make_room<T>(items: &mut Vec<T>, more: usize) -> Result<(), AllocError>
    ensures items { items.new.items ≡ items.old.items }
    ensures room { OnOk result (vec_len items.new + more ≤ vec_capacity items.new) }
    ensures sparing { vec_capacity items.new ≤ max (vec_capacity items.old) (datagram_span.roomy_size (vec_len items.old) more) }
{
    if more <= items.capacity() - items.len() {
        return Ok(());
    }
    let besides = (items.len() / 8).max(ROOM_MIN);
    items.reserve_exact(more.saturating_add(besides))
}
