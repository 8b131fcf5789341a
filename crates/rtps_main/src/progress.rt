//! The progress of a run that takes long, on a terminal.

use rtps_tool::{Follow, Watch};
use std::env;
use std::io::{self, IsTerminal, Write};
use std::time::Instant;

/// After how many milliseconds progress is shown first.
const SILENCE: u128 = 1000;

/// The least number of milliseconds between one line of progress and the next.
const PAUSE: u128 = 200;

/// Goes to the start of the line of a terminal and clears it.
const WIPE: &str = "\r\x1b[K";

/// Shows on standard error how far a run is, if that is a terminal and the run takes longer than a second.
#[derive(Clone, Copy, Drop)]
pub struct Progress<'a> {
    rt: &'a HostRuntime,
    // Whether standard error is a terminal.
    is_terminal: bool,
    // When the run began. None if standard error is no terminal that clears a line, or if the time is not known.
    begin: Option<Instant>,
    // After how many milliseconds progress is shown next.
    next: u128,
    // How many passes are made over a file at most.
    passes: u8,
    // How many frames of a capture were ignored.
    ignored: u64,
}

impl<'a> Progress<'a> {
    /// For a run that begins now, with so many passes over a file at most.
    pub fn new(rt: &'a HostRuntime, passes: u8) -> Progress<'a> {
        let is_terminal = rt.stderr().is_terminal();
        let begin = if is_terminal && clears_lines(rt) {
            Instant::now(rt).ok()
        } else {
            None
        };
        Progress {
            rt,
            is_terminal,
            begin,
            next: SILENCE,
            passes,
            ignored: 0,
        }
    }

    /// How many milliseconds the run has taken so far.
    fn elapsed(&self) -> Option<u128> {
        let elapsed = self.begin?.elapsed(self.rt).ok()?;
        Some(elapsed.as_millis())
    }

    /// Whether it is time to show progress.
    fn is_due(&mut self) -> bool {
        let Some(elapsed) = self.elapsed() else {
            return false;
        };
        if elapsed < self.next {
            return false;
        }
        self.next = elapsed.saturating_add(PAUSE);
        true
    }

    /// Shows that so many octets of the input are read.
    pub fn read(&mut self, octets: u64) {
        if self.is_due() {
            let _ = write!(
                self.rt.stderr(),
                "{WIPE}rtps-audit: reading, {} MiB",
                octets / 1_048_576
            );
        }
    }

    /// Shows how far a pass over a file has come that has so many octets.
    pub fn pass(&mut self, pass: u8, octets: u64, size: u64) {
        if self.is_due() {
            let percent = octets.saturating_mul(100) / size.max(1);
            let _ = write!(
                self.rt.stderr(),
                "{WIPE}rtps-audit: pass {pass} of {}, {} %",
                self.passes,
                percent.min(100)
            );
        }
    }

    /// How many frames of a capture were ignored. None if there are none, or if standard error is no terminal.
    pub fn ignored(&self) -> Option<u64> {
        if self.is_terminal && self.ignored > 0 {
            Some(self.ignored)
        } else {
            None
        }
    }

    /// Whether the run has taken so long that progress may be shown.
    fn is_long(&self) -> bool {
        self.elapsed().is_some_and(|elapsed| elapsed >= SILENCE)
    }

    /// Clears what was shown.
    fn wipe(&self) {
        if self.is_long() {
            let _ = write!(self.rt.stderr(), "{WIPE}");
        }
    }
}

impl Watch for Progress<'_> {
    fn judged(&mut self, done: usize, all: usize) {
        if self.is_due() {
            let _ = write!(
                self.rt.stderr(),
                "{WIPE}rtps-audit: judging, {done} of {all} pairs"
            );
        }
    }

    fn explained(&mut self, done: usize, all: usize) {
        if self.is_due() {
            let _ = write!(
                self.rt.stderr(),
                "{WIPE}rtps-audit: explaining, {done} of {all} pairs"
            );
        }
    }
}

impl Follow for Progress<'_> {
    fn recorded(&mut self, ignored: Option<u64>) {
        self.ignored = ignored.unwrap_or(0);
    }

    fn writing(&mut self) {
        if self.is_long() {
            let _ = write!(self.rt.stderr(), "{WIPE}rtps-audit: writing");
        }
    }
}

/// Whether a terminal clears a line by these escapes: all do but one that says that it does not.
fn clears_lines(rt: &HostRuntime) -> bool {
    match env::var(rt, "TERM") {
        Ok(name) => name.as_str() != "dumb",
        Err(_) => true,
    }
}

/// An output that clears what was shown before its first write.
#[derive(Drop)]
pub struct Wiping<'a, W> {
    output: W,
    progress: Progress<'a>,
    is_wiped: bool,
}

impl<'a, W: Drop> Wiping<'a, W> {
    /// For an output to which nothing was written yet.
    pub fn new(output: W, progress: Progress<'a>) -> Wiping<'a, W> {
        Wiping {
            output,
            progress,
            is_wiped: false,
        }
    }

    /// Clears what was shown, once.
    pub fn wipe(&mut self) {
        if !self.is_wiped {
            self.progress.wipe();
            self.is_wiped = true;
        }
    }
}

impl<W: Write + Drop> Write for Wiping<'_, W> {
    fn write(&mut self, buf: &[u8]) -> io::Result<usize> {
        self.wipe();
        self.output.write(buf)
    }

    fn flush(&mut self) -> io::Result<()> {
        self.output.flush()
    }
}
