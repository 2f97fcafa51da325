//! The parts of a keyring, one after the other, from pieces of any size.

ghost use Rattle.std.specs.Prelude.{◌≡◌, ◌<◌, ◌≤◌, ◌+◌, ◌-◌, ◌^◌, ◌%◌, ◌++◌, [], ℕ, List, length};
ghost use Rattle.std.specs.Prelude.{map, false, IfOk, IfSome, None, OnErr, OnOk};
ghost use Rattle.opgp_octets.specs.declared.limits.Limits.{Limits};
ghost use Rattle.opgp_keyring.specs.Composed.{PartValue};
ghost use Rattle.opgp_keyring.specs.Composition.{Item, of_packet, placed_in};
ghost use Rattle.opgp_keyring.specs.Fed.{KeepsFed, is_ready, limits_of};
ghost use Rattle.opgp_codec.specs.Found.{opened};
ghost use Rattle.opgp_codec.specs.Blocks.{viewed_in};
ghost use Rattle.opgp_codec.specs.Items.{skipped_in};
ghost use Rattle.opgp_codec.specs.Reading.{Outcome};

use crate::accepts::Accepts;
use crate::found::Opening;
use crate::items::Items;
use crate::mode::Mode;
use opgp_armor::laws::a_block_has_no_more_octets_than_the_text;
use opgp_frame::PlacedView;
use opgp_keyring::{Composer, Ready};
use opgp_octets::{Fault, Limits, OutOfMemory};
use std::alloc::{AllocError, Global};

/// Reads a keyring (RFC 9580, 10.1) whose octets, armored or binary, come in pieces of any size,
/// and hands out the lead and each certificate as soon as it is complete:
///
/// ```text
/// while let Some((n, part)) = parts.next(&piece[at..])? {
///     at += n;
///     ..
/// }
/// ```
///
/// Behind each call its readers hold at most `line + body + pieces + cert + 32` octets of its
/// limits. That leaves out the packet found last, where its octets came in several pieces; the
/// octets of lines that are framed together, some 8 KiB; and memory that is used again, that of a
/// line and of a part. An armored block must be a `PUBLIC KEY BLOCK`. Whether the input is a
/// keyring is known only at its end: a fault may follow the parts that were handed out.
#[derive(Drop)]
pub struct Parts {
    items: Items,
    composer: Composer,
    ghost free: { is_ready composer ≡ false },
}

impl Parts {
    ghost use Rattle.opgp_codec.specs.Parts.{Ends, IsDone, IsUsed, Use, after, count_of, held_of};
    ghost use Rattle.opgp_codec.specs.Parts.{left_of, most_held, taken_by, unused};

    /// A reader that was given nothing. Allocates nothing; calls of `next` do, from `alloc`.
    pub fn new(alloc: Global, mode: Mode, limits: Limits) -> Parts
        ensures used { IsUsed (unused mode limits) result }
        ensures count { count_of result ≡ 0 }
        ensures done { IsDone result }
        ensures held { held_of result ≤ most_held limits }
    {
        Parts {
            items: Items::new(alloc, mode, limits, Accepts::Keys),
            composer: Composer::new(alloc, limits),
        }
    }

    /// Takes octets of the piece up to the end of the next part that they complete: how many these
    /// are, and the part. None: all of the piece was taken, and no more part is complete. The
    /// condition is that fewer than 2^63 octets are given in all.
    ///
    /// Fails only when out of memory; nothing is known of the reader then.
    pub fn next(&mut self, piece: &[u8]) -> Result<Option<(usize, Ready)>, OutOfMemory>
        requires used { (so_far : Use) × IsUsed so_far self.old }
        requires room { count_of self.old + length piece.now < 2 ^ 63 }
        ensures used { IfOk result (λ r. (so_far : Use) → IsUsed so_far self.old
            → IsUsed (after so_far piece.now r) self.new) }
        ensures count { IfOk result (λ r. count_of self.new
            ≡ count_of self.old + length (taken_by r piece.now)) }
        ensures within { IfOk result (λ r. IfSome r (λ p. p.0 ≤ length piece.now)) }
        ensures done { IfOk result (λ r. r ≡ None → IsDone self.new) }
        ensures lessens { IfOk result (λ r. IfSome r (λ p. left_of self.new (length piece.now - p.0)
            < left_of self.old (length piece.now))) }
        ensures held { IfOk result (λ r. (so_far : Use) → IsUsed so_far self.old
            → held_of self.new ≤ most_held so_far.limits) }
    {
        let mut at = 0;
        'steps: while let Some(n) = self.items.step(&piece[at..])? {
            open_block(self.items.opening(), &mut self.composer);
            compose(self.items.packet(&piece[at..]), &mut self.composer)?;
            at += n;
            if let Some(part) = self.composer.take() {
                return Ok(Some((at, part)));
            }
        }
        Ok(None)
    }

    /// Gives back a part that was taken, whose memory the next certificate uses. Allocates nothing.
    pub fn reuse(&mut self, part: Ready)
        ensures used { (so_far : Use) → IsUsed so_far self.old → IsUsed so_far self.new }
        ensures count { count_of self.new ≡ count_of self.old }
        ensures done { IsDone self.old → IsDone self.new }
        ensures left { (rest : ℕ) → left_of self.new rest ≡ left_of self.old rest }
        ensures held { held_of self.new ≡ held_of self.old }
    {
        self.composer.reuse(part);
    }

    /// How many packets were found, modulo 2^64.
    pub fn packets(&self) -> u64
        ensures { (so_far : Use) (used : IsUsed so_far self.now)
            → result ≡ length (placed_in used.0) % 2 ^ 64 }
    {
        self.items.packets()
    }

    /// How many octets outside of armored blocks were passed over, if they are no text; else 0.
    pub fn skipped(&self) -> u64
        ensures { result ≡ skipped_in self.now.items }
    {
        self.items.skipped()
    }

    /// Ends the input: the last part, if there is one; or the one fault of the lowest layer that
    /// refuses the input: input, armor, framing, bodies, composition. The condition is that `next`
    /// has returned None.
    ///
    /// Fails only when out of memory.
    pub fn finish(self) -> Result<Result<Option<Ready>, Fault>, OutOfMemory>
        requires used { (so_far : Use) × IsUsed so_far self }
        requires done { IsDone self }
        ensures { IfOk result (λ answer. (so_far : Use) → IsUsed so_far self → Ends so_far answer) }
    {
        let Parts {
            items,
            mut composer,
        } = self;
        a_block_has_no_more_octets_than_the_text();
        let ended = items.finish()?;
        match ended {
            Ok(opening) => {
                open_block(opening, &mut composer);
                Ok(composer.finish())
            }
            Err(fault) => Ok(Err(fault)),
        }
    }
}

/// Tells the composer of the block that begins, where one does.
pub(crate) fn open_block(opening: Option<Opening>, composer: &mut Composer)
    requires { is_ready composer.old ≡ false }
    ensures fed { KeepsFed composer.old composer.new (opened opening) [] }
    ensures free { is_ready composer.new ≡ false }
    ensures limits { limits_of composer.new ≡ limits_of composer.old }
{
    match opening {
        Some(opening) => composer.begin_block(opening.number, opening.fits),
        None => {}
    }
}

/// Passes the packet that was found to the composer, where one was.
pub(crate) fn compose(
    packet: Option<PlacedView<'_>>,
    composer: &mut Composer,
) -> Result<(), OutOfMemory>
    requires { is_ready composer.old ≡ false }
    ensures fed { OnOk result
        (KeepsFed composer.old composer.new (map of_packet (viewed_in packet.entry)) []) }
    ensures quiet { OnErr result (is_ready composer.new ≡ false) }
    ensures limits { limits_of composer.new ≡ limits_of composer.old }
{
    match packet {
        Some(packet) => match composer.push_view(packet) {
            Ok(()) => Ok(()),
            Err(_) => Err(AllocError),
        },
        None => Ok(()),
    }
}
