ghost use Rattle.std.specs.Prelude.{◌≡◌, ◌≤◌, ◌++◌, ◌∷◌, MatchOption, codes, length, true};
ghost use Rattle.rtps_report.specs.Patterns as patterns;
ghost use Rattle.rtps_who.specs.Samples as samples;

use rtps_who::Node;

/// The octet that stands for any octets.
const STAR: u8 = b'*';

/// The part of a pattern before its first `*`, and the one behind it. None where it has none.
fn cut(pattern: &[u8]) -> Option<(&[u8], &[u8])>
    ensures { MatchOption result (patterns.is_plain pattern.now ≡ true)
        (λ parts. (patterns.is_plain parts.0.now ≡ true) × (pattern.now ≡ parts.0.now ++ patterns.star ∷ parts.1.now)) }
{
    for (place, octet) in pattern.iter().enumerate() {
        if *octet == STAR {
            let (part, behind) = pattern.split_at(place);
            return Some((part, &behind[1..]));
        }
    }
    None
}

fn fits_behind(pattern: &[u8], topic: &[u8]) -> bool
    ensures { result ≡ patterns.fits (patterns.star ∷ pattern.now) topic.now }
{
    let mut rest = pattern;
    let mut left = topic;
    'parts: while let Some((part, behind)) = cut(rest) {
        if let Some(onward) = left.strip_prefix(part) {
            left = onward;
            rest = behind;
        } else if let Some((_, onward)) = left.split_first() {
            left = onward;
        } else {
            return false;
        }
    }
    left.ends_with(rest)
}

/// Whether a topic fits a pattern, in which each `*` stands for any octets, also for none.
pub fn fits(pattern: &[u8], topic: &[u8]) -> bool
    ensures { result ≡ patterns.fits pattern.now topic.now }
{
    let Some((part, behind)) = cut(pattern) else {
        return pattern == topic;
    };
    match topic.strip_prefix(part) {
        Some(left) => fits_behind(behind, left),
        None => false,
    }
}

/// Whether a name fits the part of a pattern up to this place, and a word behind it fits the part from there on; an octet of the
/// pattern there that stands for any octets belongs to both.
fn parts_fit(pattern: &[u8], place: usize, name: &[u8], word: &[u8]) -> bool
    requires { place ≤ length pattern.now }
    ensures { result ≡ patterns.parts_fit pattern.now place name.now word.now }
{
    let (front, behind) = pattern.split_at(place);
    let shared = match behind.first() {
        Some(octet) if *octet == STAR => &pattern[..place + 1],
        _ => front,
    };
    fits(shared, name) && fits(behind, word)
}

/// Whether a name with a word behind it fits a pattern, as [`fits`] says of one text.
pub(crate) fn fits_followed(pattern: &[u8], name: &[u8], word: &[u8]) -> bool
    ensures { result ≡ patterns.fits pattern.now (name.now ++ word.now) }
{
    for place in 0..pattern.len() {
        if parts_fit(pattern, place, name, word) {
            return true;
        }
    }
    parts_fit(pattern, pattern.len(), name, word)
}

/// Whether a namespace fits the part of a pattern up to this place, and a slash and a name fit the part from there on, as
/// [`parts_fit`] says.
fn slashed_fit(pattern: &[u8], place: usize, namespace: &[u8], name: &[u8]) -> bool
    requires { place ≤ length pattern.now }
    ensures { result ≡ patterns.parts_fit pattern.now place namespace.now (codes "/" ++ name.now) }
{
    let (front, behind) = pattern.split_at(place);
    let shared = match behind.first() {
        Some(octet) if *octet == STAR => &pattern[..place + 1],
        _ => front,
    };
    fits(shared, namespace) && fits_followed(behind, b"/", name)
}

/// Whether a namespace, a slash and a name fit a pattern, as [`fits`] says of one text.
fn fits_slashed(pattern: &[u8], namespace: &[u8], name: &[u8]) -> bool
    ensures { result ≡ patterns.fits pattern.now (namespace.now ++ (codes "/" ++ name.now)) }
{
    for place in 0..pattern.len() {
        if slashed_fit(pattern, place, namespace, name) {
            return true;
        }
    }
    slashed_fit(pattern, pattern.len(), namespace, name)
}

/// Whether the full name of a node fits a pattern, as [`fits`] says of a text.
pub(crate) fn fits_node(pattern: &[u8], node: &Node<'_>) -> bool
    ensures { result ≡ patterns.fits pattern.now (samples.full_name (samples.node_value node.now)) }
{
    if node.namespace.ends_with(b"/") {
        fits_followed(pattern, node.namespace, node.name)
    } else {
        fits_slashed(pattern, node.namespace, node.name)
    }
}
