//! How much was read, shown while it is read; and the first octets, which are kept.

ghost use Rattle.std.specs.Prelude.{◌≡◌, Some};
ghost use Rattle.opgp_tool.specs.Progress.{counts_text, read_of};

use crate::beginning::Beginning;
use opgp_stack::Source;
use std::alloc::Global;
use std::io::Write;
use std::{fmt, io};

/// How many octets are read before the next text.
const STEP: u64 = 16_777_216;

/// How much was read.
#[derive(Clone, Copy)]
pub struct Counts {
    octets: u64,
    packets: u64,
}

/// The text that is written over the one before, behind a carriage return.
impl fmt::Display for Counts {
    ghost output = { λ counts. Some (counts_text counts) };

    fn fmt<W: fmt::Write>(&self, f: &mut fmt::Formatter<W>) -> fmt::Result {
        let octets = self.octets;
        let packets = self.packets;
        write!(f, "\ropgp: {octets} octets, {packets} packets")
    }
}

/// A source that counts what is read of another one, shows it on a writer, if there is one, and
/// keeps the first octets.
#[derive(Drop)]
pub struct Progress<R, W> {
    alloc: Global,
    reader: R,
    shown: Option<W>,
    counts: Counts,
    due: u64,
    beginning: Beginning,
    skipped: u64,
}

impl<R: Source, W: Write + Drop> Progress<R, W> {
    /// This source, of which nothing was counted.
    pub fn new(alloc: Global, reader: R, shown: Option<W>) -> Self
        ensures { read_of result ≡ reader }
    {
        Progress {
            alloc,
            reader,
            shown,
            counts: Counts {
                octets: 0,
                packets: 0,
            },
            due: STEP,
            beginning: Beginning::new(alloc),
            skipped: 0,
        }
    }

    /// The first octets that were read, at most 65,536, or fewer where there was no memory for
    /// them.
    pub fn beginning(&self) -> &[u8] {
        self.beginning.octets()
    }

    /// How many octets were read.
    pub fn octets(&self) -> u64 {
        self.counts.octets
    }

    /// How many octets outside of armored blocks were passed over though they are no text.
    pub fn skipped(&self) -> u64 {
        self.skipped
    }

    /// Shows the counts, with this text behind them. A writer that fails, or no memory for the
    /// text, changes nothing else.
    fn show(&mut self, behind: &str)
        ensures { read_of self.new ≡ read_of self.old }
    {
        if let Some(writer) = &mut self.shown {
            if let Ok(text) = self.counts.to_string(self.alloc) {
                let _ = writer.write_all(text.as_bytes());
                let _ = writer.write_all(behind.as_bytes());
            }
        }
    }

    /// Shows the last counts, and ends the line.
    pub fn end(&mut self)
        ensures { read_of self.new ≡ read_of self.old }
    {
        self.show("\n");
    }
}

impl<R: Source, W: Write + Drop> Source for Progress<R, W> {
    ghost left = { λ p. R.left (read_of p) };

    ghost has_failed = { λ p. R.has_failed (read_of p) };

    fn pull(&mut self, buf: &mut [u8]) -> io::Result<usize> {
        let result = self.reader.pull(buf);
        if let Ok(n) = &result {
            self.counts.octets = self.counts.octets.saturating_add(*n as u64);
            self.beginning.add(&buf[..*n]);
        }
        result
    }

    fn failed(&self) -> bool {
        self.reader.failed()
    }

    fn note(&mut self, packets: u64, skipped: u64) {
        self.counts.packets = packets;
        self.skipped = skipped;
        if self.counts.octets >= self.due {
            self.due = self.counts.octets.saturating_add(STEP);
            self.show("");
        }
    }
}
