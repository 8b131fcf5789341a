ghost use Rattle.std.specs.Prelude.{◌≡◌, ◌≤◌, ◌<◌, ◌+◌, ◌^◌, [], ◌∷◌, length, take, IfOk, IfSome, OnOk, None};
ghost use Rattle.std.specs.List.{position};
ghost use Rattle.rtps_capture.specs.Alike as alike;
ghost use Rattle.rtps_capture.specs.Assembly as assembly;
ghost use Rattle.rtps_capture.specs.Packets as packets;
ghost use Rattle.rtps_capture.specs.Pieces as pieces;
ghost use Rattle.rtps_capture.specs.Recent as recent;
ghost use Rattle.rtps_capture.specs.declared.fragment.FragmentHosts.{FragmentHosts as HostsValue};
ghost use Rattle.rtps_capture.specs.declared.layout.packet.TheConstants.{MOST_KEPT};

use crate::byte_range::ByteRange;
use crate::checksum::is_right;
use crate::fragment::{Fragment, FragmentHosts, FragmentKey};
use crate::layout::{packet, udp};
use crate::octet_number::two_octets;
use crate::pieces::{Piece, Pieces, piece_of};
use rtps_ids::{Memory, Order};
use std::alloc::Global;
use std::collections::{BTreeMap, VecDeque};

/// What one fragment more gives.
#[derive(Clone, Copy)]
pub(crate) struct Taken {
    /// It is no repeat.
    pub(crate) fresh: bool,
    /// How many fragments that are no repeats are of a packet that gives its datagram now.
    pub(crate) settled: usize,
    /// Where the datagram stands of a packet that gives it now, among the octets of the packet.
    pub(crate) datagram: Option<ByteRange>,
}

impl Taken {
    fn nothing(fresh: bool) -> Taken
        ensures { result ≡ record { fresh = fresh; settled = 0; datagram = None } }
    {
        Taken {
            fresh,
            settled: 0,
            datagram: None,
        }
    }
}

/// The fragments of one key.
#[derive(Drop)]
pub(crate) struct Making {
    /// Those of the packet in the making.
    making: Pieces,
    /// Those of the last packet that was given.
    given: Pieces,
}

impl Making {
    fn new(alloc: Global) -> Making
        ensures { result ≡ assembly.fresh_making }
    {
        Making {
            making: Pieces::new(alloc),
            given: Pieces::new(alloc),
        }
    }

    /// Takes one fragment more of this key. The octets of a packet that gives its datagram now are put into `packet`.
    #[tactic(auto, unfolding(crate::specs::Assembly::taken_piece))]
    fn take(
        &mut self,
        file: &[u8],
        key: &FragmentKey,
        piece: Piece,
        packet: &mut Vec<u8>,
    ) -> Result<Taken, Memory>
        requires ordered { piece.start ≤ piece.end }
        requires none { packet.old.items ≡ [] }
        ensures taken { IfOk result (λ taken. assembly.IsJoined (assembly.taken_piece file.now key.now self.old piece) taken self.new packet.new.items) }
        ensures within { IfOk result (λ taken. assembly.StandsInPacket packet.new.items taken.datagram) }
    {
        if self.making.has(file, &piece) {
            return Ok(Taken::nothing(false));
        }
        let fresh = !self.given.has(file, &piece);
        self.making.join(piece)?;
        if self.making.is_whole() {
            return self.give(file, key, fresh, packet);
        }
        Ok(Taken::nothing(fresh))
    }

    /// The same fragments, whose octets are put behind those of `to`.
    fn moved(self, alloc: Global, from: &[u8], to: &mut Vec<u8>) -> Result<Making, Memory>
        ensures moved { IfOk result (λ moved. alike.MakingIsMoved from.now to.new.items self moved) }
        ensures behind { IfOk result (λ _. alike.GrowsTo to.old.items to.new.items) }
    {
        let making = self.making.moved(alloc, from, to)?;
        let given = self.given.moved(alloc, from, to)?;
        Ok(Making { making, given })
    }

    /// Gives the packet in the making, which is whole, if it is right.
    #[tactic(auto, unfolding(crate::specs::Assembly::given))]
    fn give(
        &mut self,
        file: &[u8],
        key: &FragmentKey,
        fresh: bool,
        packet: &mut Vec<u8>,
    ) -> Result<Taken, Memory>
        requires { packet.old.items ≡ [] }
        ensures taken { IfOk result (λ taken. assembly.IsJoined (assembly.given file.now key.now self.old fresh) taken self.new packet.new.items) }
        ensures within { IfOk result (λ taken. assembly.StandsInPacket packet.new.items taken.datagram) }
    {
        self.making.append_to(file, packet)?;
        let datagram = datagram_of_whole(key, packet);
        if datagram.is_none() {
            packet.clear();
            self.making.drop_oldest();
            return Ok(Taken::nothing(fresh));
        }
        let settled = self.making.count_new(file, &self.given);
        std::mem::swap(&mut self.making, &mut self.given);
        self.making.clear();
        Ok(Taken {
            fresh,
            settled,
            datagram,
        })
    }
}

#[tactic(auto, unfolding(crate::specs::Assembly::has_right_datagram))]
fn datagram_of_whole(key: &FragmentKey, packet: &[u8]) -> Option<ByteRange>
    ensures datagram { result ≡ assembly.datagram_of_whole key.now packet.now }
    ensures within { IfSome result (λ range. (range.from ≤ range.to) × (range.to ≤ length packet.now)) }
{
    if packet.len() < udp::SIZE {
        return None;
    }
    let size = usize::from(two_octets(Order::Big, packet, udp::LENGTH));
    if size < udp::SIZE || size > packet.len() || !is_right(key, &packet[..size]) {
        return None;
    }
    Some(ByteRange {
        from: udp::SIZE,
        to: size,
    })
}

/// The fragments of the key with this identification.
#[derive(Drop)]
pub(crate) struct KeyedMaking {
    identification: u32,
    making: Making,
}

/// The fragments of the keys of two hosts that are remembered, by their last fragments: the key whose fragment came last is the
/// first one.
#[derive(Drop)]
pub(crate) struct RecentMakings {
    alloc: Global,
    makings: VecDeque<KeyedMaking>,
}

impl RecentMakings {
    fn new(alloc: Global) -> RecentMakings
        ensures { result.makings.items ≡ [] }
    {
        RecentMakings {
            alloc,
            makings: VecDeque::new(alloc),
        }
    }

    /// Takes one fragment more of this key. The octets of a packet that gives its datagram now are put into `packet`.
    fn take(
        &mut self,
        file: &[u8],
        key: &FragmentKey,
        piece: Piece,
        packet: &mut Vec<u8>,
    ) -> Result<Taken, Memory>
        requires ordered { piece.start ≤ piece.end }
        requires none { packet.old.items ≡ [] }
        ensures taken { IfOk result (λ taken. recent.TakesPiece (assembly.taken_piece file.now key.now (recent.making_in self.old.makings.items key.now.identification) piece) key.now taken self.old.makings.items self.new.makings.items packet.new.items) }
        ensures within { IfOk result (λ taken. assembly.StandsInPacket packet.new.items taken.datagram) }
    {
        let mut making = self.take_out(key.identification);
        let taken = making.take(file, key, piece, packet)?;
        self.put_first(key.identification, making)?;
        Ok(taken)
    }

    /// Takes out the fragments of the key with this identification.
    fn take_out(&mut self, identification: u32) -> Making
        ensures making { result ≡ recent.making_in self.old.makings.items identification }
        ensures others { self.new.makings.items ≡ recent.without (recent.is_of identification) self.old.makings.items }
    {
        let place = self.place_of(identification).unwrap_or(self.makings.len());
        match self.makings.remove(place) {
            Some(there) => there.making,
            None => Making::new(self.alloc),
        }
    }

    fn place_of(&self, identification: u32) -> Option<usize>
        ensures { result ≡ position (recent.is_of identification) self.now.makings.items }
    {
        self.makings
            .iter()
            .position(|one| one.identification == identification)
    }

    /// The same keys, the octets of whose fragments are put behind those of `to`.
    fn moved(self, from: &[u8], to: &mut Vec<u8>) -> Result<RecentMakings, Memory>
        ensures moved { IfOk result (λ moved. alike.KeysAreMoved from.now to.new.items self.makings.items moved.makings.items) }
        ensures behind { IfOk result (λ _. alike.GrowsTo to.old.items to.new.items) }
    {
        let mut moved = RecentMakings::new(self.alloc);
        let mut left = self.makings;
        'keys: while let Some(one) = left.pop_front() {
            let making = one.making.moved(self.alloc, from, to)?;
            moved.makings.push_back(KeyedMaking {
                identification: one.identification,
                making,
            })?;
        }
        Ok(moved)
    }

    /// Puts the fragments of a key in front of the others. The last key goes where there are as many as are kept.
    fn put_first(&mut self, identification: u32, making: Making) -> Result<(), Memory>
        ensures { OnOk result (self.new.makings.items ≡ take MOST_KEPT (record { identification = identification; making = making } ∷ self.old.makings.items)) }
    {
        self.makings.truncate(packet::MOST_KEPT - 1);
        self.makings.push_front(KeyedMaking {
            identification,
            making,
        })?;
        Ok(())
    }
}

/// The fragments of all keys that are remembered.
#[derive(Drop)]
pub(crate) struct Assembly {
    alloc: Global,
    recents: BTreeMap<FragmentHosts, RecentMakings>,
}

impl Assembly {
    pub(crate) fn new(alloc: Global) -> Assembly
        ensures none { (hosts : HostsValue) → recent.recent_of result.recents hosts ≡ [] }
    {
        Assembly {
            alloc,
            recents: BTreeMap::new(alloc),
        }
    }

    /// Puts the octets of all fragments that are remembered behind those of `to`. After `Memory` nothing is promised of them.
    pub(crate) fn settle(&mut self, from: &[u8], to: &mut Vec<u8>) -> Result<(), Memory>
        ensures moved { IfOk result (λ _. (hosts : HostsValue) → alike.KeysAreMoved from.now to.new.items (recent.recent_of self.old.recents hosts) (recent.recent_of self.new.recents hosts)) }
    {
        let mut left = std::mem::replace(&mut self.recents, BTreeMap::new(self.alloc));
        'hosts: while let Some((hosts, recent)) = left.pop_first() {
            let moved = recent.moved(from, to)?;
            self.recents.insert(hosts, moved)?;
        }
        Ok(())
    }

    /// Takes one fragment more, whose range is one of the file. The octets of a packet that gives its datagram now are put into
    /// `packet`.
    pub(crate) fn take(
        &mut self,
        file: &[u8],
        fragment: &Fragment,
        packet: &mut Vec<u8>,
    ) -> Result<Taken, Memory>
        requires stands { fragment.now.start + packets.fragment_size fragment.now < 2 ^ 32 }
        requires none { packet.old.items ≡ [] }
        ensures taken { IfOk result (λ taken. recent.TakesFragment (assembly.taken_piece file.now fragment.now.key (recent.making_in (recent.recent_of self.old.recents (recent.hosts_of fragment.now.key)) fragment.now.key.identification) (pieces.piece_of fragment.now)) fragment.now.key taken self.old.recents self.new.recents packet.new.items) }
        ensures within { IfOk result (λ taken. assembly.StandsInPacket packet.new.items taken.datagram) }
    {
        let piece = piece_of(fragment);
        let hosts = fragment.key.hosts();
        if let Some(recent) = self.recents.get_mut(&hosts) {
            return recent.take(file, &fragment.key, piece, packet);
        }
        let mut recent = RecentMakings::new(self.alloc);
        let taken = recent.take(file, &fragment.key, piece, packet)?;
        self.recents.insert(hosts, recent)?;
        Ok(taken)
    }
}
