ghost use Rattle.std.specs.Prelude.{◌≡◌, ◌<◌, ◌∷◌, ◌==◌, [], IfSome, MatchOption, length, position, true};
ghost use Rattle.std.specs.List.{list_any};
ghost use Rattle.rtps_policies.specs.NamePatterns as name_patterns;
ghost use Rattle.rtps_policies.specs.Segments as segments;
ghost use Rattle.rtps_policies.specs.Sets as sets;

use crate::layout::pattern::{CARET, CLOSING, HYPHEN, MARK, OPENING, QUESTION, STAR};

/// What one octet of a pattern stands for, or several.
#[derive(Clone, Copy)]
pub(crate) enum Part<'p> {
    /// This octet.
    Octet(u8),
    /// Any one octet.
    One,
    /// Any octets, also none.
    Many,
    /// One octet that is a member; or one that is not, where it is of those outside.
    Among { outside: bool, members: &'p [u8] },
}

/// A set, and what is behind it.
#[derive(Clone, Copy)]
pub(crate) struct Set<'p> {
    outside: bool,
    members: &'p [u8],
    behind: &'p [u8],
}

/// What came of the parts of a pattern up to its first `*`, held against the beginning of a name.
#[derive(Clone, Copy)]
pub(crate) enum Segment<'s> {
    /// The name does not fit.
    Failed,
    /// There is no `*`, and the name fits.
    Whole,
    /// The name begins so. This is behind the `*`, and left of the name.
    Many { behind: &'s [u8], left: &'s [u8] },
}

/// Whether a set begins with a mark, and what is behind it.
fn unmarked(behind: &[u8]) -> (bool, &[u8])
    ensures marked { result.0 ≡ name_patterns.is_marked behind.now }
    ensures body { result.1.now ≡ name_patterns.without_mark behind.now }
{
    match behind {
        [MARK | CARET, body @ ..] => (true, body),
        _ => (false, behind),
    }
}

/// The place of the first closing bracket.
fn first_closing(octets: &[u8]) -> Option<usize>
    ensures { result ≡ position (λ octet. octet == CLOSING) octets.now }
{
    octets.iter().position(|octet| *octet == CLOSING)
}

/// The place of the bracket that closes a set. One that comes first is a member, and closes nothing.
fn closing_in(body: &[u8]) -> Option<usize>
    ensures place { result ≡ name_patterns.closing_in body.now }
    ensures within { IfSome result (λ place. place < length body.now) }
{
    let (_, further) = body.split_first()?;
    let place = first_closing(further)?;
    Some(place + 1)
}

/// The set whose opening bracket is before these octets. None where no bracket closes it.
fn set_in(behind: &[u8]) -> Option<Set<'_>>
    ensures { sets.IsSetIn behind.now result }
{
    let (outside, body) = unmarked(behind);
    let place = closing_in(body)?;
    let (members, rest) = body.split_at(place);
    Some(Set {
        outside,
        members,
        behind: &rest[1..],
    })
}

/// The part that an opening bracket begins: a set, or the bracket itself where nothing closes it.
fn opened(behind: &[u8]) -> (Part<'_>, &[u8])
    ensures { segments.IsOpened behind.now (segments.part_value result.0) result.1.now }
{
    let Some(set) = set_in(behind) else {
        return (Part::Octet(OPENING), behind);
    };
    let outside = set.outside;
    let members = set.members;
    (Part::Among { outside, members }, set.behind)
}

/// The first part of a pattern, and what is behind it.
fn front(pattern: &[u8]) -> Option<(Part<'_>, &[u8])>
    ensures { MatchOption result (pattern.now ≡ []) (λ found. segments.IsFront pattern.now (segments.part_value found.0) found.1.now) }
{
    let (octet, behind) = pattern.split_first()?;
    match *octet {
        STAR => Some((Part::Many, behind)),
        QUESTION => Some((Part::One, behind)),
        OPENING => Some(opened(behind)),
        octet => Some((Part::Octet(octet), behind)),
    }
}

/// The first range of the members of a set, from its first octet to its last, and what is behind it. None where there is none.
fn front_range(members: &[u8]) -> Option<(u8, u8, &[u8])>
    ensures { sets.IsFrontRange members.now result }
{
    match members {
        [first, HYPHEN, last, behind @ ..] => Some((*first, *last, behind)),
        [octet, behind @ ..] => Some((*octet, *octet, behind)),
        [] => None,
    }
}

/// Whether an octet is a member of a set.
fn has_member(members: &[u8], octet: u8) -> bool
    ensures { result ≡ name_patterns.is_member members.now octet }
{
    let mut rest = members;
    while let Some((first, last, behind)) = front_range(rest) {
        if first <= octet && octet <= last {
            return true;
        }
        rest = behind;
    }
    false
}

impl Part<'_> {
    /// Whether an octet is what it stands for. A `*` stands for no octet alone.
    fn accepts(self, octet: u8) -> bool
        ensures { result ≡ name_patterns.accepts (segments.part_value self.entry) octet }
    {
        match self {
            Part::Octet(own) => octet == own,
            Part::One => true,
            Part::Many => false,
            Part::Among { outside, members } => has_member(members, octet) != outside,
        }
    }

    /// Whether it is `*`.
    fn is_many(self) -> bool
        ensures { result ≡ name_patterns.is_many (segments.part_value self.entry) }
    {
        matches!(self, Part::Many)
    }

    /// Whether it stands for other octets than itself.
    fn is_open(self) -> bool
        ensures { result ≡ name_patterns.is_open (segments.part_value self.entry) }
    {
        !matches!(self, Part::Octet(_))
    }
}

/// Holds the parts of a pattern up to its first `*` against the beginning of a name.
fn leading_segment<'s>(pattern: &'s [u8], name: &'s [u8]) -> Segment<'s>
    ensures { segments.IsSegment pattern.now name.now result }
{
    let mut rest = pattern;
    let mut left = name;
    while let Some((part, behind)) = front(rest) {
        if part.is_many() {
            return Segment::Many { behind, left };
        }
        let Some((octet, onward)) = left.split_first() else {
            return Segment::Failed;
        };
        if !part.accepts(*octet) {
            return Segment::Failed;
        }
        rest = behind;
        left = onward;
    }
    if left.is_empty() {
        Segment::Whole
    } else {
        Segment::Failed
    }
}

/// How many parts a pattern has, where none of them is `*`. Each of them stands for one octet.
fn fixed_count(pattern: &[u8]) -> Option<usize>
    ensures { MatchOption result (list_any name_patterns.is_many (name_patterns.parts_of pattern.now) ≡ true) (λ count. segments.AreFixed (name_patterns.parts_of pattern.now) × (count ≡ length (name_patterns.parts_of pattern.now))) }
{
    let mut count = 0;
    let mut rest = pattern;
    while let Some((part, behind)) = front(rest) {
        if part.is_many() {
            return None;
        }
        count += 1;
        rest = behind;
    }
    Some(count)
}

/// Whether a name is what a pattern behind a `*` stands for, which has so many parts and none of them is `*`: its last octets are what the
/// parts stand for, and no other place of the name is tried.
fn fits_last(pattern: &[u8], count: usize, name: &[u8]) -> bool
    requires fixed { segments.AreFixed (name_patterns.parts_of pattern.now) }
    requires count { count ≡ length (name_patterns.parts_of pattern.now) }
    ensures { result ≡ name_patterns.fits_parts (name_patterns.PartValue.Many ∷ name_patterns.parts_of pattern.now) name.now }
{
    if name.len() < count {
        return false;
    }
    let last = &name[name.len() - count..];
    match leading_segment(pattern, last) {
        Segment::Whole => true,
        Segment::Failed => false,
        Segment::Many { .. } => false,
    }
}

/// The first place of a name, behind a `*`, where the parts of a pattern up to its next `*` stand.
fn later_segment<'s>(pattern: &'s [u8], name: &'s [u8]) -> Segment<'s>
    ensures { segments.IsLaterSegment pattern.now name.now result }
{
    let mut left = name;
    'places: loop {
        match leading_segment(pattern, left) {
            Segment::Whole => return Segment::Whole,
            Segment::Many {
                behind,
                left: onward,
            } => {
                return Segment::Many {
                    behind,
                    left: onward,
                };
            }
            Segment::Failed => {}
        }
        let Some((_, onward)) = left.split_first() else {
            return Segment::Failed;
        };
        left = onward;
    }
}

/// Whether a name is what a pattern behind a `*` stands for.
fn fits_behind(pattern: &[u8], name: &[u8]) -> bool
    ensures { result ≡ name_patterns.fits_parts (name_patterns.PartValue.Many ∷ name_patterns.parts_of pattern.now) name.now }
{
    let mut rest = pattern;
    let mut left = name;
    'segments: loop {
        if let Some(count) = fixed_count(rest) {
            return fits_last(rest, count, left);
        }
        match later_segment(rest, left) {
            Segment::Whole => return true,
            Segment::Failed => return false,
            Segment::Many {
                behind,
                left: onward,
            } => {
                rest = behind;
                left = onward;
            }
        }
    }
}

/// Whether a name is what a pattern stands for.
fn fits(pattern: &[u8], name: &[u8]) -> bool
    ensures { result ≡ name_patterns.fits pattern.now name.now }
{
    match leading_segment(pattern, name) {
        Segment::Many { behind, left } => fits_behind(behind, left),
        Segment::Whole => true,
        Segment::Failed => false,
    }
}

/// Whether a name is a pattern.
fn is_pattern(name: &[u8]) -> bool
    ensures { result ≡ name_patterns.is_pattern name.now }
{
    let mut rest = name;
    while let Some((part, behind)) = front(rest) {
        if part.is_open() {
            return true;
        }
        rest = behind;
    }
    false
}

/// Whether two names of partitions fit: both are no patterns and equal, or one is a pattern of the other, which is none (DDS
/// 1.4, 2.2.3.13 "PARTITION").
pub(crate) fn names_fit(one: &[u8], other: &[u8]) -> bool
    ensures { result ≡ name_patterns.names_fit one.now other.now }
{
    match (is_pattern(one), is_pattern(other)) {
        (false, false) => one == other,
        (true, false) => fits(one, other),
        (false, true) => fits(other, one),
        (true, true) => false,
    }
}
