ghost use Rattle.std.specs.Prelude.{◌≡◌, ◌≤◌, ◌<◌, ◌+◌, ◌^◌, ◌++◌, ◌∷◌, [], drop, false, length, not, count_by, IfOk, IfSome, OnOk};
ghost use Rattle.rtps_capture.specs.Alike as alike;
ghost use Rattle.rtps_capture.specs.Pieces as pieces_spec;
ghost use Rattle.rtps_capture.specs.Packets as packets;

use crate::fragment::Fragment;
use rtps_ids::Memory;
use std::alloc::Global;
use std::collections::{BTreeMap, VecDeque};
use std::marker::Model;

/// A fragment that is kept.
#[derive(Clone, Copy)]
pub(crate) struct Piece {
    /// Where its octets stand in the file.
    pub(crate) at: usize,
    /// Where they begin among those of the packet.
    pub(crate) start: u32,
    /// Where they end among those of the packet.
    pub(crate) end: u32,
    /// Whether the packet has more octets behind these.
    pub(crate) more: bool,
}

/// The fragment, whose range is one of the file, as it is kept.
pub(crate) fn piece_of(fragment: &Fragment) -> Piece
    requires { fragment.now.start + packets.fragment_size fragment.now < 2 ^ 32 }
    ensures { result ≡ pieces_spec.piece_of fragment.now }
{
    let size = fragment.range.to.saturating_sub(fragment.range.from);
    Piece {
        at: fragment.range.from,
        start: fragment.start as u32,
        end: (fragment.start + size) as u32,
        more: fragment.more,
    }
}

#[inline]
pub(crate) fn piece_octets<'a>(file: &'a [u8], piece: &Piece) -> &'a [u8]
    ensures { result.now ≡ pieces_spec.piece_octets file.now piece.now }
{
    if file.len() <= piece.at {
        return &[];
    }
    let rest = &file[piece.at..];
    let size = piece.end.saturating_sub(piece.start) as usize;
    &rest[..size.min(rest.len())]
}

/// The octets of a piece, where the file has all of them.
fn whole_octets<'a>(file: &'a [u8], piece: &Piece) -> Option<&'a [u8]>
    ensures { IfSome result (λ octets. (octets.now ≡ pieces_spec.piece_octets file.now piece.now) × (piece.now.start ≤ piece.now.end) × (piece.now.at + pieces_spec.piece_size piece.now ≤ length file.now)) }
{
    let size = piece.end.checked_sub(piece.start)? as usize;
    let end = piece.at.checked_add(size)?;
    if end > file.len() {
        return None;
    }
    Some(piece_octets(file, piece))
}

fn is_same(file: &[u8], one: &Piece, other: &Piece) -> bool
    ensures { result ≡ pieces_spec.is_same file.now one.now other.now }
{
    one.start == other.start
        && one.end == other.end
        && one.more == other.more
        && piece_octets(file, one) == piece_octets(file, other)
}

#[inline]
fn stands_before(one: &Piece, other: &Piece) -> bool
    ensures { result ≡ pieces_spec.stands_before one.now other.now }
{
    one.start < other.start
        && one.end <= other.start
        && (one.more || (!other.more && one.end == other.end))
}

/// Pieces that can be of one packet, in the order in which they came.
#[derive(Drop)]
pub(crate) struct Pieces {
    came: VecDeque<Piece>,
    by_place: BTreeMap<u32, Piece>,
    // How many octets they have.
    held: usize,
}

impl Model for Pieces {
    ghost use Rattle.std.specs.Prelude.{List};
    ghost use Rattle.rtps_capture.specs.declared.pieces.Piece.{Piece as PieceValue};
    ghost use Rattle.rtps_capture.specs.Pieces as pieces_spec;

    ghost Value = { List PieceValue };

    ghost view = { λ pieces. pieces.came.items };

    ghost invariant = { λ pieces. pieces_spec.AreKept pieces.came.items pieces.by_place pieces.held };
}

impl Pieces {
    pub(crate) fn new(alloc: Global) -> Pieces
        ensures { result ≡ [] }
    {
        Pieces {
            came: VecDeque::new(alloc),
            by_place: BTreeMap::new(alloc),
            held: 0,
        }
    }

    pub(crate) fn has(&self, file: &[u8], piece: &Piece) -> bool
        ensures { result ≡ pieces_spec.is_repeat file.now piece.now self.now }
    {
        match self.by_place.get(&piece.start) {
            Some(there) => is_same(file, piece, there),
            None => false,
        }
    }

    /// Whether no packet has this piece and all of these: it does not stand between its neighbours.
    fn clashes(&self, piece: &Piece) -> bool
        ensures { result ≡ pieces_spec.clashes_with self.now piece.now }
    {
        if let Some((_, before)) = self.by_place.range(..piece.start).next_back() {
            if !stands_before(before, piece) {
                return true;
            }
        }
        match self.by_place.range(piece.start..).next() {
            Some((_, behind)) => !stands_before(piece, behind),
            None => false,
        }
    }

    /// Adds a piece that is no repeat. The oldest pieces go as long as it clashes with one of them.
    pub(crate) fn join(&mut self, piece: Piece) -> Result<(), Memory>
        requires { piece.start ≤ piece.end }
        ensures { OnOk result (self.new ≡ pieces_spec.pieces_with piece self.old) }
    {
        while self.clashes(&piece) {
            self.drop_oldest();
        }
        self.add(piece)
    }

    /// Adds a piece that clashes with none of these.
    fn add(&mut self, piece: Piece) -> Result<(), Memory>
        requires ordered { piece.start ≤ piece.end }
        requires apart { pieces_spec.clashes_with self.old piece ≡ false }
        ensures { OnOk result (self.new ≡ self.old ++ piece ∷ []) }
    {
        self.came.reserve(1)?;
        self.by_place.insert(piece.start, piece)?;
        self.came.push_back_reserved(piece);
        self.held += (piece.end - piece.start) as usize;
        Ok(())
    }

    pub(crate) fn drop_oldest(&mut self)
        ensures { self.new ≡ drop 1 self.old }
    {
        if let Some(oldest) = self.came.pop_front() {
            self.by_place.remove(&oldest.start);
            self.held -= (oldest.end - oldest.start) as usize;
        }
    }

    pub(crate) fn is_whole(&self) -> bool
        ensures { result ≡ pieces_spec.fills 0 (pieces_spec.in_order self.now) }
    {
        match self.by_place.last_key_value() {
            Some((_, last)) => !last.more && self.held == last.end as usize,
            None => false,
        }
    }

    /// How many of them are no repeats of these others.
    pub(crate) fn count_new(&self, file: &[u8], others: &Pieces) -> usize
        ensures { result ≡ count_by (λ piece. not (pieces_spec.is_repeat file.now piece others.now)) self.now }
    {
        self.came
            .iter()
            .filter(|piece| !others.has(file, piece))
            .count()
    }

    pub(crate) fn append_to(&self, file: &[u8], out: &mut Vec<u8>) -> Result<(), Memory>
        ensures { OnOk result (out.new.items ≡ out.old.items ++ pieces_spec.joined file.now (pieces_spec.in_order self.now)) }
    {
        for piece in self.by_place.values() {
            out.extend_from_slice(piece_octets(file, piece))?;
        }
        Ok(())
    }

    /// The same pieces, whose octets are put behind those of `to`. `Memory` is answered, too, where a piece does not have all of its
    /// octets in `from`.
    pub(crate) fn moved(
        self,
        alloc: Global,
        from: &[u8],
        to: &mut Vec<u8>,
    ) -> Result<Pieces, Memory>
        ensures moved { IfOk result (λ moved. alike.AreMoved from.now to.new.items self moved) }
        ensures behind { IfOk result (λ _. alike.GrowsTo to.old.items to.new.items) }
    {
        let mut moved = Pieces::new(alloc);
        let mut left = self.came;
        'pieces: while let Some(piece) = left.pop_front() {
            let Some(octets) = whole_octets(from, &piece) else {
                return Err(Memory);
            };
            let at = to.len();
            to.extend_from_slice(octets)?;
            moved.add(Piece { at, ..piece })?;
        }
        Ok(moved)
    }

    pub(crate) fn clear(&mut self)
        ensures { self.new ≡ [] }
    {
        self.came.clear();
        self.by_place.clear();
        self.held = 0;
    }
}
