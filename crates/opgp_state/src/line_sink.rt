//! A sink in memory that holds a line.

ghost use Rattle.std.specs.Prelude.{◌≡◌, [], Some, false};

use opgp_io::Sink;
use std::alloc::Global;
use std::io;

/// A sink in memory that holds what it takes in one piece.
#[derive(Drop)]
pub(crate) struct LineSink {
    pub(crate) octets: Vec<u8>,
    pub(crate) has_failed: bool,
}

impl LineSink {
    /// A sink that holds nothing. Allocates nothing.
    pub(crate) fn new(alloc: Global) -> LineSink
        ensures octets { result.octets.items ≡ [] }
        ensures sound { result.has_failed ≡ false }
    {
        LineSink {
            octets: Vec::new(alloc),
            has_failed: false,
        }
    }
}

impl Sink for LineSink {
    ghost held = { λ s. Some s.octets.items };

    ghost has_failed = { λ s. s.has_failed };

    fn put(&mut self, octets: &[u8]) -> io::Result<usize> {
        match self.octets.extend_from_slice(octets) {
            Ok(()) => Ok(octets.len()),
            Err(_) => {
                self.has_failed = true;
                Err(io::Error::from(io::ErrorKind::OutOfMemory))
            }
        }
    }

    fn failed(&self) -> bool {
        self.has_failed
    }
}
