//! What octets are read from.

ghost use Rattle.std.specs.Prelude.{◌≡◌, ◌||◌, ◌≤◌, ℕ, Bool, false, List, Option, IfOk, length};
ghost use Rattle.std.specs.Io.KnownBytes.{ReadConsumes};
ghost use Rattle.opgp_io.specs.Stream.{pull_fails};

use std::io;

/// A reader that knows whether it has failed.
pub trait Source {
    // The octets that later pulls give, or None if they aren't known.
    ghost left: { Self → Option (List ℕ) };

    // Some call has returned an error.
    ghost has_failed: { Self → Bool };

    /// Reads into the front of the buffer, and returns how many octets it read.
    ///
    /// Zero means the end, unless the buffer is empty. With an error, even an interruption, nothing
    /// was read. The condition is that no call has failed (see `failed`).
    fn pull(&mut self, buf: &mut [u8]) -> io::Result<usize>
        requires sound { has_failed self.old ≡ false }
        ensures bound { IfOk result (λ n. n ≤ length buf.new) }
        ensures octets { ReadConsumes (left self.old) (left self.new) result buf.new }
        ensures failed { has_failed self.new ≡ (has_failed self.old || pull_fails result) };

    /// Whether some call has returned an error.
    fn failed(&self) -> bool
        ensures { result ≡ has_failed self.now };

    /// Hears how many packets the octets so far have, and how many octets outside of armored blocks
    /// were passed over though they are no text. A source that tells nobody does nothing.
    fn note(&mut self, _packets: u64, _skipped: u64)
        ensures left { left self.new ≡ left self.old }
        ensures failed { has_failed self.new ≡ has_failed self.old }
    {}
}
