//! Readers and writers that remember a failure.

ghost use Rattle.std.specs.Prelude.{◌≡◌, true, false};
ghost use Rattle.opgp_io.specs.Watch.{watched_inner, watched_failed};

use crate::sink::Sink;
use crate::source::Source;
use std::io;
use std::io::{Read, Write};

/// A reader or a writer, and whether it has failed.
#[derive(Drop)]
pub struct Watched<T> {
    inner: T,
    has_failed: bool,
}

impl<T> Watched<T> {
    /// This reader or writer, which hasn't failed.
    pub fn new(inner: T) -> Self
        ensures inner { watched_inner result ≡ inner }
        ensures fresh { watched_failed result ≡ false }
    {
        Watched {
            inner,
            has_failed: false,
        }
    }

    /// The reader or writer itself.
    pub fn into_inner(self) -> T
        ensures { result ≡ watched_inner self }
    {
        self.inner
    }

    /// Whether some call has failed.
    pub fn failed(&self) -> bool
        ensures { result ≡ watched_failed self.now }
    {
        self.has_failed
    }
}

impl<T: Read> Source for Watched<T> {
    ghost left = { λ w. T.remaining (watched_inner w) };

    ghost has_failed = { λ w. watched_failed w };

    fn pull(&mut self, buf: &mut [u8]) -> io::Result<usize> {
        let result = self.inner.read(buf);
        if result.is_err() {
            self.has_failed = true;
        }
        result
    }

    fn failed(&self) -> bool {
        self.has_failed
    }
}

impl<T: Write> Sink for Watched<T> {
    ghost held = { λ w. T.contents (watched_inner w) };

    ghost has_failed = { λ w. watched_failed w };

    fn put(&mut self, octets: &[u8]) -> io::Result<usize> {
        match self.inner.write(octets) {
            Ok(n) => {
                if n == 0 && !octets.is_empty() {
                    self.has_failed = true;
                }
                Ok(n)
            }
            Err(e) => {
                self.has_failed = true;
                Err(e)
            }
        }
    }

    fn failed(&self) -> bool {
        self.has_failed
    }
}
