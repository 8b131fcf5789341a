//! The inputs of a run, and what is known of them.

ghost use Rattle.std.specs.Io.{ReadsAtMost};

use crate::progress::Progress;
use rtps_tool::{CAPTURE_HEADER_SIZE, Source};
use std::fs::File;
use std::io::{self, Read, Seek};
use std::rt::Stdin;

/// How many octets are kept from the beginning of an input, to say why it is refused: as many as the header of a
/// capture has.
const START: usize = CAPTURE_HEADER_SIZE;

/// What is known of an input: its first octets, how many octets were read, and why its last read failed.
#[derive(Drop)]
pub struct Seen {
    start: [u8; START],
    known: usize,
    octets: u64,
    failure: Option<io::Error>,
}

impl Seen {
    /// For an input of which nothing was read yet.
    fn nothing() -> Seen {
        Seen {
            start: [0; START],
            known: 0,
            octets: 0,
            failure: None,
        }
    }

    /// Notes that these octets were read.
    fn take(&mut self, octets: &[u8]) {
        self.known = remember(&mut self.start, self.known, octets);
        self.octets = self.octets.saturating_add(octets.len() as u64);
    }

    /// The first octets of the input: no more than the header of a capture has.
    pub fn front(&self) -> &[u8] {
        self.start.get(..self.known).unwrap_or(&[])
    }

    /// How many octets were read.
    pub fn octets(&self) -> u64 {
        self.octets
    }

    /// Why its last read failed, if it did.
    pub fn failure(&self) -> Option<&io::Error> {
        self.failure.as_ref()
    }
}

/// Where an input comes from.
#[derive(Drop)]
pub enum Opened {
    /// Nothing is read.
    Nothing,
    Standard(Stdin),
    File(File),
    /// A file that cannot be opened, and why: each read fails so.
    Unopened(io::Error),
}

impl Opened {
    /// The file of this name, `-` for standard input. Nothing is read where there is no name.
    pub fn open(rt: &HostRuntime, name: Option<&str>) -> Opened {
        let Some(name) = name else {
            return Opened::Nothing;
        };
        if name == "-" {
            return Opened::Standard(rt.stdin());
        }
        match File::open(rt, name) {
            Ok(file) => Opened::File(file),
            Err(error) => Opened::Unopened(error),
        }
    }

    /// How many octets it has, if it is a regular file.
    fn size(&self) -> Option<u64> {
        let Opened::File(file) = self else {
            return None;
        };
        let metadata = file.metadata().ok()?;
        if metadata.is_file() {
            Some(metadata.len())
        } else {
            None
        }
    }

    /// Reads on.
    fn read(&self, buf: &mut [u8]) -> io::Result<usize>
        ensures { ReadsAtMost result buf.new }
    {
        match self {
            Opened::Nothing => Ok(0),
            Opened::Standard(input) => {
                let mut input = *input;
                input.read(buf)
            }
            Opened::File(file) => {
                let mut file = file;
                file.read(buf)
            }
            Opened::Unopened(error) => Err(same_error(error)),
        }
    }

    /// Goes to the start. Only a file has one that can be gone to.
    fn go_to_start(&self) -> io::Result<()> {
        let Opened::File(file) = self else {
            return Err(io::Error::from(io::ErrorKind::Unsupported));
        };
        let mut file = file;
        file.rewind()
    }
}

impl<'a> Source<&mut Remembering<'a>> for &'a Opened {
    fn rewind(&self, reader: &mut &mut Remembering<'a>, pass: u8) -> io::Result<()> {
        let outcome = self.go_to_start();
        match &outcome {
            Ok(()) => {
                reader.pass = pass;
                reader.seen = Seen::nothing();
            }
            Err(failure) => reader.seen.failure = Some(same_error(failure)),
        }
        outcome
    }
}

/// An input that notes what was read of it, and shows progress.
#[derive(Drop)]
pub struct Remembering<'a> {
    opened: &'a Opened,
    /// How many octets it has, if it is a regular file.
    size: Option<u64>,
    /// The pass over it; 0 where it is read once.
    pass: u8,
    progress: Progress<'a>,
    pub seen: Seen,
}

impl<'a> Remembering<'a> {
    /// For an input of which nothing was read yet. Of a file that cannot be opened a read fails.
    pub fn new(opened: &'a Opened, progress: Progress<'a>) -> Remembering<'a> {
        Remembering {
            opened,
            size: opened.size(),
            pass: 0,
            progress,
            seen: Seen::nothing(),
        }
    }

    /// Where it comes from.
    pub fn opened(&self) -> &'a Opened {
        self.opened
    }

    /// Whether it is a regular file, which can be read again.
    pub fn is_file(&self) -> bool {
        self.size.is_some()
    }

    /// Shows how far it is read.
    fn show(&mut self) {
        let octets = self.seen.octets;
        match self.size {
            Some(size) if self.pass > 0 => self.progress.pass(self.pass, octets, size),
            _ => self.progress.read(octets),
        }
    }
}

impl Read for Remembering<'_> {
    fn read(&mut self, buf: &mut [u8]) -> io::Result<usize> {
        let outcome = self.opened.read(buf);
        match &outcome {
            Ok(got) => {
                self.seen.take(&buf[..*got]);
                self.show();
            }
            Err(failure) => self.seen.failure = Some(same_error(failure)),
        }
        outcome
    }
}

/// Appends octets to those that are known, as many as there is room for. Returns how many are known then.
fn remember(start: &mut [u8], known: usize, octets: &[u8]) -> usize {
    let mut known = known;
    for octet in octets {
        if known >= start.len() {
            return known;
        }
        start[known] = *octet;
        known += 1;
    }
    known
}

/// A copy of the error, with the reason that the system gave.
fn same_error(error: &io::Error) -> io::Error {
    match error.raw_os_error() {
        Some(code) => io::Error::from_raw_os_error(code),
        None => io::Error::from(error.kind()),
    }
}
