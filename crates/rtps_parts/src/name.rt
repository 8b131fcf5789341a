ghost use Rattle.std.specs.Prelude.{◌∷◌, [], Some};
ghost use Rattle.std.specs.Fmt.{WritesOnOk};
ghost use Rattle.std.specs.List.{flat_map};
ghost use Rattle.hex.specs.Hex.{encode_lower};
ghost use Rattle.rtps_parts.specs.Names as names;

use std::fmt;

/// A name between quotes.
#[derive(Drop)]
pub struct NameText<'a>(pub &'a [u8]);

impl fmt::Display for NameText<'_> {
    ghost output = { λ name. Some (names.name_text name.0.now) };

    fn fmt<W: fmt::Write>(&self, f: &mut fmt::Formatter<W>) -> fmt::Result {
        write!(f, "\"")?;
        write_name(self.0, f)?;
        write!(f, "\"")
    }
}

/// A name as it stands between the quotes.
#[derive(Drop)]
pub struct NameOctets<'a>(pub &'a [u8]);

impl fmt::Display for NameOctets<'_> {
    ghost output = { λ name. Some (flat_map names.octet_text name.0.now) };

    fn fmt<W: fmt::Write>(&self, f: &mut fmt::Formatter<W>) -> fmt::Result {
        write_name(self.0, f)
    }
}

pub(crate) fn write_name<W: fmt::Write>(name: &[u8], f: &mut fmt::Formatter<W>) -> fmt::Result
    ensures { WritesOnOk W.write_str_gives f.old result (flat_map names.octet_text name.now) f.new }
{
    for octet in name {
        write!(f, "{}", OctetText(*octet))?;
    }
    Ok(())
}

#[derive(Drop)]
pub(crate) struct OctetText(pub(crate) u8);

impl fmt::Display for OctetText {
    ghost output = { λ text. Some (names.octet_text text.0) };

    #[tactic(auto, unfolding(crate::specs::Names::octet_text))]
    fn fmt<W: fmt::Write>(&self, f: &mut fmt::Formatter<W>) -> fmt::Result {
        let octet = self.0;
        match octet {
            b'"' | b'\\' => write!(f, "\\x{}", OctetDigits(octet)),
            b' '..=b'~' => write!(f, "{}", char::from(octet)),
            _ => write!(f, "\\x{}", OctetDigits(octet)),
        }
    }
}

#[derive(Drop)]
struct OctetDigits(u8);

impl fmt::Display for OctetDigits {
    ghost output = { λ octet. Some (encode_lower (octet.0 ∷ [])) };

    fn fmt<W: fmt::Write>(&self, f: &mut fmt::Formatter<W>) -> fmt::Result {
        let mut digits = [0; 2];
        let _ = hex::encode_to_slice(&[self.0], &mut digits);
        let Ok(text) = str::from_utf8(&digits) else {
            return Err(fmt::Error);
        };
        f.write_str(text)
    }
}
