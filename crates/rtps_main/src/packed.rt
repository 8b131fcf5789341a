//! Files that hold a recording in a form that is not read, and what makes a recording of them.

/// A form that is not read.
#[derive(Clone, Copy)]
pub struct Packed {
    // The octets that such a file begins with.
    start: &'static [u8],
    /// What such a file is.
    pub what: &'static str,
    /// The command that makes a recording of it, without the file.
    pub unpack: &'static str,
    /// What the command reads.
    pub read: &'static str,
}

/// The forms of files that are told.
const FORMS: [Packed; 6] = [
    Packed {
        start: b"\x1f\x8b",
        what: "a gzip file",
        unpack: "gunzip -c",
        read: "what it holds",
    },
    Packed {
        start: b"\xfd7zXZ\0",
        what: "an xz file",
        unpack: "xz -dc",
        read: "what it holds",
    },
    Packed {
        start: b"\x28\xb5\x2f\xfd",
        what: "a zstd file",
        unpack: "zstd -dc",
        read: "what it holds",
    },
    Packed {
        start: b"\xff\xfe",
        what: "a text in UTF-16",
        unpack: "iconv -f UTF-16 -t ASCII",
        read: "it",
    },
    Packed {
        start: b"\xfe\xff",
        what: "a text in UTF-16",
        unpack: "iconv -f UTF-16 -t ASCII",
        read: "it",
    },
    Packed {
        start: b"\xef\xbb\xbf",
        what: "a text that begins with a byte order mark",
        unpack: "sed '1s/^\\xef\\xbb\\xbf//'",
        read: "it",
    },
];

/// The form of a file that begins with these octets, if it is one of those that are told.
pub fn packed_as(start: &[u8]) -> Option<&'static Packed> {
    FORMS.iter().find(|form| start.starts_with(form.start))
}
