//! A sink in memory.

ghost use Rattle.std.specs.Prelude.{◌≡◌, ◌<◌, ◌≤◌, ◌++◌, [], Some, false, length, take};
ghost use Rattle.std.specs.Prelude.{IfOk, OnErr};
ghost use Rattle.opgp_io.specs.Held.{held_failed, held_octets, pieces_octets};

use crate::sink::Sink;
use opgp_octets::OutOfMemory;
use std::alloc::{AllocError, Global};
use std::{io, mem};

/// The capacity of the first piece in octets.
const FIRST: usize = 65_536;

/// The capacity of each other piece in octets.
const PIECE: usize = 1_048_576;

/// A sink in memory: it holds what it takes, until that is written into another sink.
///
/// The octets are in pieces, the first of 65,536 and the others of 1,048,576, none of which is
/// copied to grow.
#[derive(Drop)]
pub struct Held {
    alloc: Global,
    full: Vec<Vec<u8>>,
    last: Vec<u8>,
    has_failed: bool,
}

impl Held {
    /// A sink that holds nothing yet. Fails only when out of memory.
    pub fn new(alloc: Global) -> Result<Held, OutOfMemory>
        ensures octets { IfOk result (λ h. held_octets h ≡ []) }
        ensures sound { IfOk result (λ h. held_failed h ≡ false) }
    {
        let last = Vec::with_capacity(alloc, FIRST)?;
        Ok(Held {
            alloc,
            full: Vec::new(alloc),
            last,
            has_failed: false,
        })
    }

    /// Begins a piece.
    fn turn(&mut self) -> Result<(), OutOfMemory>
        ensures octets { held_octets self.new ≡ held_octets self.old }
        ensures sound { held_failed self.new ≡ held_failed self.old }
    {
        let next = Vec::with_capacity(self.alloc, PIECE)?;
        let full = mem::replace(&mut self.last, next);
        match self.full.push(full) {
            Ok(()) => Ok(()),
            Err(failed) => {
                drop(mem::replace(&mut self.last, failed.value));
                Err(AllocError)
            }
        }
    }

    /// How many octets the last piece has room for: at least one.
    fn make_room(&mut self) -> Result<usize, OutOfMemory>
        ensures some { IfOk result (λ n. 0 < n) }
        ensures octets { held_octets self.new ≡ held_octets self.old }
        ensures sound { held_failed self.new ≡ held_failed self.old }
    {
        let room = self.last.capacity().saturating_sub(self.last.len());
        if room > 0 {
            return Ok(room);
        }
        self.turn()?;
        Ok(PIECE)
    }

    /// Adds the first of the octets, and returns how many.
    fn take_in(&mut self, octets: &[u8]) -> Result<usize, OutOfMemory>
        ensures bound { IfOk result (λ n. n ≤ length octets.now) }
        ensures some { IfOk result (λ n. n ≡ 0 → length octets.now ≡ 0) }
        ensures octets { IfOk result
            (λ n. held_octets self.new ≡ held_octets self.old ++ take n octets.now) }
        ensures err { OnErr result (held_octets self.new ≡ held_octets self.old) }
        ensures sound { held_failed self.new ≡ held_failed self.old }
    {
        let n = self.make_room()?.min(octets.len());
        self.last.extend_from_slice(&octets[..n])?;
        Ok(n)
    }

    /// Whether memory ran out in some call.
    pub fn failed(&self) -> bool
        ensures { result ≡ held_failed self.now }
    {
        self.has_failed
    }

    /// The pieces, in order: those that are full, and the last one.
    pub fn pieces(&self) -> (&[Vec<u8>], &[u8])
        ensures { pieces_octets result.0.now ++ result.1.now ≡ held_octets self.now }
    {
        (&self.full, &self.last)
    }
}

impl Sink for Held {
    ghost held = { λ h. Some (held_octets h) };

    ghost has_failed = { λ h. held_failed h };

    fn put(&mut self, octets: &[u8]) -> io::Result<usize> {
        match self.take_in(octets) {
            Ok(n) => Ok(n),
            Err(_) => {
                self.has_failed = true;
                Err(io::Error::from(io::ErrorKind::OutOfMemory))
            }
        }
    }

    fn failed(&self) -> bool {
        self.has_failed
    }
}
