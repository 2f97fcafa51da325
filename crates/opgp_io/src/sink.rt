//! What octets are written to.

ghost use Rattle.std.specs.Prelude.{◌≡◌, ◌||◌, ◌≤◌, ℕ, Bool, false, List, Option, IfOk, length};
ghost use Rattle.std.specs.Io.KnownBytes.{WriteAppends};
ghost use Rattle.opgp_io.specs.Stream.{put_fails};

use std::io;

/// A writer that knows whether it has failed.
pub trait Sink {
    // The octets that it has taken, or None if they aren't known.
    ghost held: { Self → Option (List ℕ) };

    // Some call has returned an error, or taken nothing of a piece that isn't empty.
    ghost has_failed: { Self → Bool };

    /// Writes the first of the octets, and returns how many it took.
    ///
    /// With an error nothing was written. The condition is that no call has failed (see `failed`).
    fn put(&mut self, octets: &[u8]) -> io::Result<usize>
        requires sound { has_failed self.old ≡ false }
        ensures bound { IfOk result (λ n. n ≤ length octets.now) }
        ensures octets { WriteAppends (held self.old) (held self.new) result octets.now }
        ensures failed { has_failed self.new
            ≡ (has_failed self.old || put_fails result octets.now) };

    /// Whether some call has returned an error, or taken nothing of a piece that isn't empty.
    fn failed(&self) -> bool
        ensures { result ≡ has_failed self.now };
}
