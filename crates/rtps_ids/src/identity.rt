ghost use Rattle.std.specs.Prelude.{◌≡◌, ◌+◌, ◌*◌, ◌^◌, ◌&&◌, ◌++◌, ◌∷◌, drop, length, take, Some, refl};
ghost use Rattle.std.specs.Cmp.{and_equiv, and_per, both_tied, on_equiv, on_per, on_po, on_total, partial_equiv_from_equiv, then_agrees, then_po, then_total};
ghost use Rattle.std.specs.Cmp.Lexicographic.{nat_list_cmp_total, nat_list_eq_equiv, slice_cmp, texts_po, texts_ties};
ghost use Rattle.std.specs.Fmt.{WritesOnOk};
ghost use Rattle.std.specs.Ordering.{nat_cmp, ordering_then, partial_ordering_then};
ghost use Rattle.std.specs.Str.{bytes_eq};
ghost use Rattle.byteorder.specs.Endian.{big_number};
ghost use Rattle.hex.specs.Hex.{encode_lower};

use byteorder::{BigEndian, ByteOrder};
use std::cmp::Ordering;
use std::fmt;

/// The prefix of a GUID, which all endpoints of one participant share (DDSI-RTPS 2.5, 8.2.4.1 "Identifying RTPS
/// entities: The GUID"). Prefixes are ordered octet by octet. It is printed as 24 lower-case hexadecimal digits.
#[derive(Clone, Copy, Debug)]
pub struct GuidPrefix(pub [u8; 12]);

impl PartialEq for GuidPrefix {
    ghost eq = { λ x y. bytes_eq x.0 y.0 };

    ghost laws = { on_per (λ prefix. prefix.0) (partial_equiv_from_equiv nat_list_eq_equiv) };

    // Compares numbers, as `cmp` does. The equality of arrays compares octet by octet.
    #[inline]
    fn eq(&self, other: &GuidPrefix) -> bool {
        self.cmp(other).is_eq()
    }
}

impl Eq for GuidPrefix {
    ghost laws = { on_equiv (λ prefix. prefix.0) nat_list_eq_equiv };
}

impl PartialOrd for GuidPrefix {
    ghost partial_cmp = { λ x y. Some (slice_cmp nat_cmp x.0 y.0) };

    ghost laws = { on_po (λ prefix. prefix.0) texts_po };

    fn partial_cmp(&self, other: &GuidPrefix) -> Option<Ordering> {
        Some(self.cmp(other))
    }
}

impl Ord for GuidPrefix {
    ghost cmp = { λ x y. slice_cmp nat_cmp x.0 y.0 };

    ghost total = { on_total (λ prefix. prefix.0) nat_list_cmp_total };

    ghost matches_partial_cmp = { λ x y. refl };

    ghost matches_eq = { λ x y. texts_ties x.0 y.0 };

    #[inline]
    fn cmp(&self, other: &GuidPrefix) -> Ordering {
        let (first, last) = self.0.split_at(8);
        let (other_first, other_last) = other.0.split_at(8);
        eight_octets_order(first, other_first).then(four_octets_order(last, other_last))
    }
}

impl fmt::Display for GuidPrefix {
    ghost output = { λ prefix. Some (encode_lower prefix.0) };

    fn fmt<W: fmt::Write>(&self, f: &mut fmt::Formatter<W>) -> fmt::Result {
        let mut digits = [0; 24];
        write_digits(&self.0, &mut digits, f)
    }
}

/// The part of a GUID that names one entity of a participant (DDSI-RTPS 2.5, 8.2.4.1 "Identifying RTPS entities: The
/// GUID"). It is printed as 8 lower-case hexadecimal digits.
#[derive(Clone, Copy, Debug)]
pub struct EntityId(pub [u8; 4]);

impl PartialEq for EntityId {
    ghost eq = { λ x y. bytes_eq x.0 y.0 };

    ghost laws = { on_per (λ entity. entity.0) (partial_equiv_from_equiv nat_list_eq_equiv) };

    // Compares numbers, as `cmp` does.
    #[inline]
    fn eq(&self, other: &EntityId) -> bool {
        self.cmp(other).is_eq()
    }
}

impl Eq for EntityId {
    ghost laws = { on_equiv (λ entity. entity.0) nat_list_eq_equiv };
}

impl PartialOrd for EntityId {
    ghost partial_cmp = { λ x y. Some (slice_cmp nat_cmp x.0 y.0) };

    ghost laws = { on_po (λ entity. entity.0) texts_po };

    fn partial_cmp(&self, other: &EntityId) -> Option<Ordering> {
        Some(self.cmp(other))
    }
}

impl Ord for EntityId {
    ghost cmp = { λ x y. slice_cmp nat_cmp x.0 y.0 };

    ghost total = { on_total (λ entity. entity.0) nat_list_cmp_total };

    ghost matches_partial_cmp = { λ x y. refl };

    ghost matches_eq = { λ x y. texts_ties x.0 y.0 };

    // The four octets are compared as one number.
    #[inline]
    fn cmp(&self, other: &EntityId) -> Ordering {
        four_octets_order(&self.0, &other.0)
    }
}

impl fmt::Display for EntityId {
    ghost output = { λ entity. Some (encode_lower entity.0) };

    fn fmt<W: fmt::Write>(&self, f: &mut fmt::Formatter<W>) -> fmt::Result {
        let mut digits = [0; 8];
        write_digits(&self.0, &mut digits, f)
    }
}

/// The name of an entity: the prefix of its participant and its entity id (DDSI-RTPS 2.5, 8.2.4.1 "Identifying RTPS
/// entities: The GUID"). GUIDs are ordered by prefix, and then by entity id. It is printed as the digits of the prefix,
/// a dot and the digits of the entity id.
#[derive(Clone, Copy, Debug)]
pub struct Guid {
    pub prefix: GuidPrefix,
    pub entity: EntityId,
}

impl PartialEq for Guid {
    ghost eq = { λ x y. bytes_eq x.prefix.0 y.prefix.0 && bytes_eq x.entity.0 y.entity.0 };

    ghost laws = { and_per (on_per (λ guid. guid.prefix.0) (partial_equiv_from_equiv nat_list_eq_equiv))
        (on_per (λ guid. guid.entity.0) (partial_equiv_from_equiv nat_list_eq_equiv)) };

    // Compares numbers, as `cmp` does.
    #[inline]
    fn eq(&self, other: &Guid) -> bool {
        self.cmp(other).is_eq()
    }
}

impl Eq for Guid {
    ghost laws = { and_equiv (on_equiv (λ guid. guid.prefix.0) nat_list_eq_equiv)
        (on_equiv (λ guid. guid.entity.0) nat_list_eq_equiv) };
}

impl PartialOrd for Guid {
    ghost partial_cmp = { λ x y. partial_ordering_then (Some (slice_cmp nat_cmp x.prefix.0 y.prefix.0)) (Some (slice_cmp nat_cmp x.entity.0 y.entity.0)) };

    ghost laws = { then_po (on_po (λ guid. guid.prefix.0) texts_po) (on_po (λ guid. guid.entity.0) texts_po) };

    fn partial_cmp(&self, other: &Guid) -> Option<Ordering> {
        Some(self.cmp(other))
    }
}

impl Ord for Guid {
    ghost cmp = { λ x y. ordering_then (slice_cmp nat_cmp x.prefix.0 y.prefix.0) (slice_cmp nat_cmp x.entity.0 y.entity.0) };

    ghost total = { then_total (on_total (λ guid. guid.prefix.0) nat_list_cmp_total) (on_total (λ guid. guid.entity.0) nat_list_cmp_total) };

    ghost matches_partial_cmp = { then_agrees (λ x y. refl) (λ x y. refl) };

    ghost matches_eq = { λ x y. both_tied _ _ _ _ (texts_ties x.prefix.0 y.prefix.0) (texts_ties x.entity.0 y.entity.0) };

    #[inline]
    fn cmp(&self, other: &Guid) -> Ordering {
        identity_order(
            &self.prefix.0,
            &self.entity.0,
            &other.prefix.0,
            &other.entity.0,
        )
    }
}

impl fmt::Display for Guid {
    ghost output = { λ guid. Some (encode_lower guid.prefix.0 ++ 46 ∷ encode_lower guid.entity.0) };

    fn fmt<W: fmt::Write>(&self, f: &mut fmt::Formatter<W>) -> fmt::Result {
        write!(f, "{}.{}", self.prefix, self.entity)
    }
}

/// The vendor of the implementation that sent a message (DDSI-RTPS 2.5, 8.3.3.1.3 "vendorId"). It is printed as 4
/// lower-case hexadecimal digits.
#[derive(Clone, Copy, PartialEq, Eq, Debug)]
pub struct Vendor(pub [u8; 2]);

impl fmt::Display for Vendor {
    ghost output = { λ vendor. Some (encode_lower vendor.0) };

    fn fmt<W: fmt::Write>(&self, f: &mut fmt::Formatter<W>) -> fmt::Result {
        let mut digits = [0; 4];
        write_digits(&self.0, &mut digits, f)
    }
}

/// The version of the protocol that a message follows (DDSI-RTPS 2.5, 8.3.3.1.2 "version").
#[derive(Clone, Copy, PartialEq, Eq, Debug)]
pub struct Version {
    pub major: u8,
    pub minor: u8,
}

/// A time as a message carries it: seconds, and fractions of 2^-32 seconds (DDSI-RTPS 2.5, 9.3.2 "Mapping of the Types that
/// Appear Within Submessages or Built-in Topic Data").
#[derive(Clone, Copy, PartialEq, Eq, Debug)]
pub struct Stamp {
    pub seconds: u32,
    pub fraction: u32,
}

/// The order of four octets, octet by octet. They are compared as one number, the highest octet first.
#[inline(always)]
fn four_octets_order(one: &[u8], other: &[u8]) -> Ordering
    requires one { length one.now ≡ 4 }
    requires other { length other.now ≡ 4 }
    ensures { result ≡ slice_cmp nat_cmp one.now other.now }
{
    BigEndian::read_u32(one).cmp(&BigEndian::read_u32(other))
}

/// The order of eight octets, octet by octet. They are compared as one number, the highest octet first.
#[inline(always)]
fn eight_octets_order(one: &[u8], other: &[u8]) -> Ordering
    requires one { length one.now ≡ 8 }
    requires other { length other.now ≡ 8 }
    ensures { result ≡ slice_cmp nat_cmp one.now other.now }
{
    BigEndian::read_u64(one).cmp(&BigEndian::read_u64(other))
}

/// The number of 16 octets, the highest first: the twelve of a prefix, and then the four of an entity id.
#[inline(always)]
fn identity_number(prefix: &[u8], entity: &[u8]) -> u128
    requires prefix { length prefix.now ≡ 12 }
    requires entity { length entity.now ≡ 4 }
    ensures { result ≡ big_number 8 (take 8 prefix.now) * 2 ^ 64 + big_number 4 (drop 8 prefix.now) * 2 ^ 32
        + big_number 4 entity.now }
{
    let (first, last) = prefix.split_at(8);
    let high = u128::from(BigEndian::read_u64(first)) * (1 << 64);
    let middle = u128::from(BigEndian::read_u32(last)) * (1 << 32);
    high + middle + u128::from(BigEndian::read_u32(entity))
}

/// The order of two GUIDs: by prefix, and then by entity id. They are compared as numbers of 16 octets.
#[inline(always)]
fn identity_order(
    prefix: &[u8],
    entity: &[u8],
    other_prefix: &[u8],
    other_entity: &[u8],
) -> Ordering
    requires prefix { length prefix.now ≡ 12 }
    requires entity { length entity.now ≡ 4 }
    requires other_prefix { length other_prefix.now ≡ 12 }
    requires other_entity { length other_entity.now ≡ 4 }
    ensures { result ≡ ordering_then (slice_cmp nat_cmp prefix.now other_prefix.now) (slice_cmp nat_cmp entity.now other_entity.now) }
{
    let number = identity_number(prefix, entity);
    number.cmp(&identity_number(other_prefix, other_entity))
}

/// Writes octets in lower-case hexadecimal. `digits` is the memory for the digits, two for each octet.
fn write_digits<W: fmt::Write>(
    octets: &[u8],
    digits: &mut [u8],
    f: &mut fmt::Formatter<W>,
) -> fmt::Result
    requires { length digits.old ≡ 2 * length octets.now }
    ensures { WritesOnOk W.write_str_gives f.old result (encode_lower octets.now) f.new }
{
    let _ = hex::encode_to_slice(octets, digits);
    let Ok(text) = str::from_utf8(digits) else {
        return Err(fmt::Error);
    };
    f.write_str(text)
}
