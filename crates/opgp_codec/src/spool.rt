//! Octets that are held outside of memory.

ghost use Rattle.std.specs.Prelude.{◌≡◌, ◌||◌, ◌≤◌, [], ℕ, Bool, List, Some, IfOk, length, true};
ghost use Rattle.std.specs.Prelude.{false};
ghost use Rattle.std.specs.Io.KnownBytes.{ReadConsumes, WriteAppends};
ghost use Rattle.opgp_io.specs.Stream.{pull_fails, put_fails};

use std::io;

/// Octets held outside of memory, as in a file: they are put in one after the other, and then taken
/// out in the same order. No octet is put in once some were taken.
pub trait Spool {
    // Whether a text may be held in such a spool.
    ghost serves: { Bool };

    // Whether it is known what such a spool holds.
    ghost tells: { Bool };

    // The octets that it holds, if that is known.
    ghost holds: { Self → List ℕ };

    // Some call has returned an error, or put nothing of a piece that isn't empty.
    ghost has_failed: { Self → Bool };

    /// Puts the first of the octets behind those that it holds, and returns how many.
    ///
    /// With an error nothing was put. The condition is that no call has failed (see `failed`).
    fn put(&mut self, octets: &[u8]) -> io::Result<usize>
        requires sound { has_failed self.old ≡ false }
        ensures bound { IfOk result (λ n. n ≤ length octets.now) }
        ensures octets { tells ≡ true
            → WriteAppends (Some (holds self.old)) (Some (holds self.new)) result octets.now }
        ensures failed { has_failed self.new
            ≡ (has_failed self.old || put_fails result octets.now) };

    /// Takes the first octets that it holds into the front of the buffer, and returns how many.
    ///
    /// Zero means that it holds none, unless the buffer is empty. With an error nothing was taken.
    /// The condition is that no call has failed (see `failed`).
    fn get(&mut self, buf: &mut [u8]) -> io::Result<usize>
        requires sound { has_failed self.old ≡ false }
        ensures bound { IfOk result (λ n. n ≤ length buf.new) }
        ensures octets { tells ≡ true
            → ReadConsumes (Some (holds self.old)) (Some (holds self.new)) result buf.new }
        ensures failed { has_failed self.new ≡ (has_failed self.old || pull_fails result) };

    /// Whether some call has returned an error, or put nothing of a piece that isn't empty.
    fn failed(&self) -> bool
        ensures { result ≡ has_failed self.now };
}

/// No spool: no text is held in it, so a draft over it is held in memory. It drops what is put.
#[derive(Clone, Copy)]
pub struct NoSpool;

impl Spool for NoSpool {
    ghost serves = { false };

    ghost tells = { false };

    ghost holds = { λ _. [] };

    ghost has_failed = { λ _. false };

    fn put(&mut self, octets: &[u8]) -> io::Result<usize> {
        Ok(octets.len())
    }

    fn get(&mut self, _buf: &mut [u8]) -> io::Result<usize> {
        Ok(0)
    }

    fn failed(&self) -> bool {
        false
    }
}
