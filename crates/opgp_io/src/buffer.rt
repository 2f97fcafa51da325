//! The buffer of an output.

ghost use Rattle.std.specs.Prelude.{◌≡◌, ◌+◌, ◌≤◌, ◌++◌, true, false, [], length, vec_len, IfOk};
ghost use Rattle.opgp_io.specs.Line.{line_text};

use crate::line::Word;
use crate::place::write_words;
use opgp_octets::OutOfMemory;
use std::alloc::Global;

/// The capacity of a buffer in octets.
pub(crate) const SIZE: usize = 65_536;

/// A buffer of 65,536 octets that wait to be written into a sink. It never grows.
#[derive(Drop)]
pub struct Buffer {
    octets: Vec<u8>,
    filled: usize,
    ghost sized: { vec_len octets ≡ 65536 },
    ghost within: { filled ≤ 65536 },
}

impl Buffer {
    ghost use Rattle.opgp_io.specs.Output.{held_in};

    /// The only allocation of an output. Fails only when out of memory.
    pub fn new(alloc: Global) -> Result<Self, OutOfMemory>
        ensures { IfOk result (λ b. held_in b ≡ []) }
    {
        let octets = vec![in alloc; 0u8; SIZE]?;
        Ok(Buffer { octets, filled: 0 })
    }

    /// The octets that wait.
    pub(crate) fn octets(&self) -> &[u8]
        ensures { result.now ≡ held_in self.now }
    {
        &self.octets.as_slice()[..self.filled]
    }

    /// How many more octets fit.
    pub(crate) fn room(&self) -> usize
        ensures { result + length (held_in self.now) ≡ 65536 }
    {
        SIZE - self.filled
    }

    /// Buffers octets, which must fit.
    pub(crate) fn hold(&mut self, octets: &[u8])
        requires { length (held_in self.old) + length octets.now ≤ 65536 }
        ensures { held_in self.new ≡ held_in self.old ++ octets.now }
    {
        let start = self.filled;
        let end = start + octets.len();
        let place = &mut self.octets.as_mut_slice()[start..end];
        place.copy_from_slice(octets);
        self.filled = end;
    }

    /// Buffers octets and then others, and returns true; or returns false and changes nothing, if
    /// there is no room for both.
    pub(crate) fn hold_both(&mut self, front: &[u8], back: &[u8]) -> bool
        ensures held { result ≡ true
            → held_in self.new ≡ held_in self.old ++ (front.now ++ back.now) }
        ensures same { result ≡ false → held_in self.new ≡ held_in self.old }
    {
        let room = self.room();
        if front.len() > room || back.len() > room - front.len() {
            return false;
        }
        self.hold(front);
        self.hold(back);
        true
    }

    /// Buffers words, one after the other, and returns true; or returns false and changes nothing,
    /// if there may be no room for them, or if an octet among them has to be escaped.
    pub(crate) fn hold_words(&mut self, words: &[Word<'_>]) -> bool
        ensures held { result ≡ true → held_in self.new ≡ held_in self.old ++ line_text words.now }
        ensures same { result ≡ false → held_in self.new ≡ held_in self.old }
    {
        let start = self.filled;
        let place = &mut self.octets.as_mut_slice()[start..];
        match write_words(place, words) {
            Some(count) => {
                self.filled = start + count;
                true
            }
            None => false,
        }
    }

    /// Empties the buffer.
    pub(crate) fn clear(&mut self)
        ensures { held_in self.new ≡ [] }
    {
        self.filled = 0;
    }
}
