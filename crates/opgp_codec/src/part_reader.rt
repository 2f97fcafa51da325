//! Reads a keyring in pieces, and keeps its parts until they are taken.

ghost use Rattle.std.specs.Prelude.{◌≡◌, ◌<◌, ◌≤◌, ◌+◌, ◌^◌, ◌++◌, [], length, None, OnOk, IfOk};
ghost use Rattle.opgp_octets.specs.declared.limits.Limits.{Limits};
ghost use Rattle.opgp_keyring.specs.State.{ready_parts};
ghost use Rattle.opgp_codec.specs.PartReader.{Ends, IsReading, IsUsed, Use, given, held_of};
ghost use Rattle.opgp_codec.specs.PartReader.{most_held, octets_given, shown_count, taken_count};
ghost use Rattle.opgp_codec.specs.PartReader.{taking, unused, waits};

use crate::mode::Mode;
use crate::parts::Parts;
use crate::waiting::{Waiting, counted};
use opgp_keyring::Ready;
use opgp_octets::{Fault, Limits, OutOfMemory};
use std::alloc::Global;

/// Reads a keyring (RFC 9580, 10.1) whose octets, armored or binary, come in pieces of any size, as
/// [`Parts`] does, for callers who push a whole piece: the lead and each certificate wait, once
/// complete, until they are taken.
///
/// Between calls its readers hold at most `line + body + pieces + cert + 32` octets of its limits.
/// Beside that there are the parts that wait to be taken: those that the last piece completed,
/// where the parts are taken after each piece; and memory that is used again. An armored block must
/// be a `PUBLIC KEY BLOCK`. Whether the input is a keyring is known only at its end: a fault may
/// follow the parts that were handed out.
#[derive(Drop)]
pub struct PartReader {
    parts: Parts,
    waiting: Waiting,
    taken: u64,
}

impl PartReader {
    /// A reader that was given nothing. Allocates nothing; pushes do, from `alloc`.
    pub fn new(alloc: Global, mode: Mode, limits: Limits) -> PartReader
        ensures used { IsUsed (unused mode limits) result }
        ensures count { octets_given result ≡ 0 }
        ensures held { held_of result ≤ most_held limits }
        ensures going { IsReading limits result }
    {
        PartReader {
            parts: Parts::new(alloc, mode, limits),
            waiting: Waiting::new(alloc),
            taken: 0,
        }
    }

    /// Takes a whole piece. The condition is that fewer than 2^63 octets are given in all.
    ///
    /// Fails only when out of memory; nothing is known of the reader then.
    pub fn push(&mut self, piece: &[u8]) -> Result<(), OutOfMemory>
        requires used { (so_far : Use) × IsUsed so_far self.old }
        requires room { octets_given self.old + length piece.now < 2 ^ 63 }
        ensures used { OnOk result ((so_far : Use) → IsUsed so_far self.old
            → IsUsed (given so_far piece.now) self.new) }
        ensures count { OnOk result
            (octets_given self.new ≡ octets_given self.old + length piece.now) }
        ensures held { OnOk result ((so_far : Use) → IsUsed so_far self.old
            → held_of self.new ≤ most_held so_far.limits) }
        // So a loop keeps that it is used within its limits.
        ensures going { OnOk result ((limits : Limits)
            → IsReading limits self.old → IsReading limits self.new) }
    {
        let mut at = 0;
        'parts: while let Some((n, part)) = self.parts.next(&piece[at..])? {
            self.waiting.add(part)?;
            at += n;
        }
        Ok(())
    }

    /// Takes the next part of the keyring, if one waits.
    pub fn take(&mut self) -> Option<Ready>
        ensures waits { waits self.old ≡ ready_parts result ++ waits self.new }
        ensures none { result ≡ None → waits self.old ≡ [] }
        ensures used { (so_far : Use) → IsUsed so_far self.old
            → IsUsed (taking so_far (ready_parts result)) self.new }
        ensures count { octets_given self.new ≡ octets_given self.old }
        ensures held { held_of self.new ≡ held_of self.old }
        ensures going { (limits : Limits) → IsReading limits self.old → IsReading limits self.new }
    {
        let part = self.waiting.take();
        self.taken = counted(self.taken, part.is_some());
        part
    }

    /// How many parts were taken, at most 2^64 - 1.
    pub fn taken(&self) -> u64
        ensures value { result ≡ taken_count self.now }
        ensures used { (so_far : Use) → IsUsed so_far self.now → result ≡ shown_count so_far.taken }
    {
        self.taken
    }

    /// Ends the input: the parts that weren't taken, or the one fault of the lowest layer that
    /// refuses it: input, armor, framing, bodies, composition.
    ///
    /// Fails only when out of memory.
    pub fn finish(self) -> Result<Result<Waiting, Fault>, OutOfMemory>
        requires { (so_far : Use) × IsUsed so_far self }
        ensures { IfOk result (λ answer. (so_far : Use) → IsUsed so_far self → Ends so_far answer) }
    {
        let mut waiting = self.waiting;
        let ended = self.parts.finish()?;
        match ended {
            Ok(None) => Ok(Ok(waiting)),
            Ok(Some(last)) => {
                waiting.add(last)?;
                Ok(Ok(waiting))
            }
            Err(fault) => Ok(Err(fault)),
        }
    }
}
