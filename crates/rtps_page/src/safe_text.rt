ghost use Rattle.std.specs.Prelude.{ℕ, ◌≡◌, ◌≤◌, ◌-◌, ◌++◌, true, drop, length, take, List, OnOk};
ghost use Rattle.rtps_page.specs.SafeText as safe_text;

use memchr::memchr3;
use std::alloc::AllocError;

/// Where a text stands in the page.
#[derive(Clone, Copy)]
pub(crate) enum Place {
    /// In the text of an element.
    Html,
    /// In a string of JSON, or between two.
    Json,
}

/// What is written there for `&`, `<` or `>`.
fn escape_of(place: Place, octet: u8) -> &'static str
    requires { safe_text.is_markup octet ≡ true }
    ensures { result.now ≡ safe_text.escape_in place octet }
{
    match (place, octet) {
        (Place::Html, b'&') => "&amp;",
        (Place::Html, b'<') => "&lt;",
        (Place::Html, _) => "&gt;",
        (Place::Json, b'&') => "\\u0026",
        (Place::Json, b'<') => "\\u003c",
        (Place::Json, _) => "\\u003e",
    }
}

/// Appends a text without its octets `&`, `<` and `>`. After an `Err` some of it is appended.
pub(crate) fn push_safe(out: &mut Vec<u8>, place: Place, text: &[u8]) -> Result<(), AllocError>
    ensures { OnOk result (out.new.items ≡ out.old.items ++ safe_text.safe_text (safe_text.escape_in place) text.now) }
{
    let mut start = 0;
    'runs: while start < text.len() {
        let end = plain_end(text, start);
        out.extend_from_slice(&text[start..end])?;
        start = end;
        if end < text.len() {
            push_octet(out, place, text[end])?;
            start = end + 1;
        }
    }
    Ok(())
}

/// The first place from this one on of one of the three octets; the end, where there is none.
fn plain_end(text: &[u8], start: usize) -> usize
    requires { start ≤ length text.now }
    ensures onward { start ≤ result }
    ensures within { result ≤ length text.now }
    ensures plain { (escape : ℕ → List ℕ) → safe_text.safe_text escape (drop start text.now)
        ≡ take (result - start) (drop start text.now) ++ safe_text.safe_text escape (drop result text.now) }
{
    match memchr3(b'&', b'<', b'>', &text[start..]) {
        Some(place) => start + place,
        None => text.len(),
    }
}

#[tactic(auto, unfolding(crate::specs::SafeText::safe_octet))]
fn push_octet(out: &mut Vec<u8>, place: Place, octet: u8) -> Result<(), AllocError>
    ensures { OnOk result (out.new.items ≡ out.old.items ++ safe_text.safe_octet (safe_text.escape_in place) octet) }
{
    if octet != b'&' && octet != b'<' && octet != b'>' {
        out.push(octet)?;
        return Ok(());
    }
    out.extend_from_slice(escape_of(place, octet).as_bytes())?;
    Ok(())
}
