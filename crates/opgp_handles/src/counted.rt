//! Sources of which it is counted how much outside of armored blocks was passed over.

ghost use Rattle.std.specs.Prelude.{◌≡◌};
ghost use Rattle.opgp_handles.specs.Counted.{source_of};

use opgp_codec::Source;
use std::io;

/// A source, and how many octets outside of armored blocks were passed over though they are no
/// text.
#[derive(Drop)]
pub(crate) struct Counted<R> {
    source: R,
    skipped: u64,
}

impl<R: Source> Counted<R> {
    /// This source, of which nothing was counted.
    pub(crate) fn new(source: R) -> Self
        ensures { source_of result ≡ source }
    {
        Counted { source, skipped: 0 }
    }

    /// How many octets were passed over.
    pub(crate) fn skipped(&self) -> u64
        ensures { result ≡ self.now.skipped }
    {
        self.skipped
    }
}

impl<R: Source> Source for Counted<R> {
    ghost left = { λ c. R.left (source_of c) };

    ghost has_failed = { λ c. R.has_failed (source_of c) };

    fn pull(&mut self, buf: &mut [u8]) -> io::Result<usize> {
        self.source.pull(buf)
    }

    fn failed(&self) -> bool {
        self.source.failed()
    }

    fn note(&mut self, _packets: u64, skipped: u64) {
        self.skipped = skipped;
    }
}
