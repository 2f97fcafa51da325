//! The parts of a keyring that comes from a source, one after the other.

ghost use Rattle.std.specs.Prelude.{◌≡◌, ◌<◌, ◌++◌, [], ℕ, List, Option, false, true, None};
ghost use Rattle.std.specs.Prelude.{Err, IfOk, IfSome, Ok, OnOk};
ghost use Rattle.opgp_octets.specs.declared.fault.Fault.{Fault};
ghost use Rattle.opgp_octets.specs.declared.limits.Limits.{Limits};
ghost use Rattle.opgp_keyring.specs.Composed.{PartValue};
ghost use Rattle.opgp_keyring.specs.Fed.{is_ready};
ghost use Rattle.opgp_keyring.specs.Parts.{AreParts};
ghost use Rattle.opgp_keyring.specs.State.{ready_parts};
ghost use Rattle.opgp_codec.specs.Incoming.{IsLeftAlone, left_in};
ghost use Rattle.opgp_codec.specs.declared.mode.Mode.{Mode};
ghost use Rattle.opgp_codec.specs.declared.read_error.ReadError.TheVariants as read;

use crate::accepts::Accepts;
use crate::incoming::Incoming;
use crate::mode::Mode;
use crate::parts::{compose, open_block};
use crate::read_error::ReadError;
use opgp_armor::laws::a_block_has_no_more_octets_than_the_text;
use opgp_io::Source;
use opgp_keyring::laws::parts_taken_are_a_keyrings;
use opgp_keyring::{Composer, Ready};
use opgp_octets::{Limits, OutOfMemory};
use std::alloc::Global;

/// Reads a keyring (RFC 9580, 10.1) from a source, and hands out the lead and each certificate as
/// soon as it is complete:
///
/// ```text
/// while let Some(part) = parts.next(source)? {
///     ..
/// }
/// let last = parts.finish()?;
/// ```
///
/// An armored block must be a `PUBLIC KEY BLOCK`. Whether the input is a keyring is known only at
/// its end: a fault may follow the parts that were handed out.
#[derive(Drop)]
pub struct IncomingParts {
    incoming: Incoming,
    composer: Composer,
    ghost free: { is_ready composer ≡ false },
}

impl IncomingParts {
    ghost use Rattle.opgp_codec.specs.IncomingParts.{EndsAs, IsOver, PartsCame};

    /// A reader to which nothing has come. Fails only when out of memory.
    pub fn new(alloc: Global, mode: Mode, limits: Limits) -> Result<IncomingParts, OutOfMemory>
        ensures { IfOk result (λ p. (before : Option (List ℕ))
            → PartsCame mode limits before before p []) }
    {
        let incoming = Incoming::new(alloc, mode, limits, Accepts::Keys)?;
        Ok(IncomingParts {
            incoming,
            composer: Composer::new(alloc, limits),
        })
    }

    /// Reads on up to the end of the next part. None: there is no more before the end, since the
    /// source has ended, or one octet past the limit `input` has come. The condition is that the
    /// source hasn't failed.
    ///
    /// Each read but the last brings at least one octet, and none is made once it has returned None.
    ///
    /// The errors are `Read`: the source has failed, and `Memory`. Nothing is known of the reader
    /// then.
    pub fn next<R: Source>(&mut self, source: &mut R) -> Result<Option<Ready>, ReadError>
        requires sound { R.has_failed source.old ≡ false }
        requires came { (mode : Mode) × (limits : Limits) × (before : Option (List ℕ))
            × (parts : List PartValue)
            × PartsCame mode limits before (R.left source.old) self.old parts }
        ensures came { IfOk result (λ r. (mode : Mode) (limits : Limits) (before : Option (List ℕ))
            (parts : List PartValue)
            → PartsCame mode limits before (R.left source.old) self.old parts
            → PartsCame mode limits before (R.left source.new) self.new (parts ++ ready_parts r)) }
        ensures whole { IfOk result (λ r. (mode : Mode) (limits : Limits) (before : Option (List ℕ))
            (parts : List PartValue)
            → PartsCame mode limits before (R.left source.old) self.old parts
            → AreParts (parts ++ ready_parts r)) }
        ensures over { IfOk result (λ r. r ≡ None → IsOver self.new (R.left source.new)) }
        ensures lessens { IfOk result (λ r. IfSome r (λ p.
            left_in self.new.incoming < left_in self.old.incoming)) }
        ensures last { IfOk result (λ r. r ≡ None → self.new.incoming.ended ≡ true) }
        ensures alone { IsLeftAlone self.old.incoming self.new.incoming source.old source.new }
        ensures sound { OnOk result (R.has_failed source.new ≡ false) }
        ensures read { result ≡ Err read.Read → R.has_failed source.new ≡ true }
        ensures memory { result ≡ Err read.Memory → R.has_failed source.new ≡ false }
        ensures other { (fault : Fault) → result ≡ Err (read.Refused fault) → ⊥ }
    {
        parts_taken_are_a_keyrings();
        'steps: while self.incoming.step(source)? {
            open_block(self.incoming.opening(), &mut self.composer);
            match compose(self.incoming.packet(), &mut self.composer) {
                Ok(()) => {}
                Err(_) => return Err(ReadError::Memory),
            }
            if let Some(part) = self.composer.take() {
                return Ok(Some(part));
            }
        }
        Ok(None)
    }

    /// Gives back a part that was taken, whose memory the next certificate uses. Allocates nothing.
    pub fn reuse(&mut self, part: Ready)
        ensures came { (mode : Mode) (limits : Limits) (before now : Option (List ℕ))
            (parts : List PartValue) → PartsCame mode limits before now self.old parts
            → PartsCame mode limits before now self.new parts }
        ensures left { left_in self.new.incoming ≡ left_in self.old.incoming }
    {
        self.composer.reuse(part);
    }

    /// Ends the input: the last part, if there is one. The condition is that `next` has returned
    /// None.
    ///
    /// The errors are `Refused`: the one fault of the lowest layer that refuses the input: input,
    /// armor, framing, bodies, composition; and `Memory`.
    pub fn finish(self) -> Result<Option<Ready>, ReadError>
        requires { (mode : Mode) × (limits : Limits) × (before now : Option (List ℕ))
            × (parts : List PartValue) × PartsCame mode limits before now self parts
            × IsOver self now }
        ensures { (mode : Mode) (limits : Limits) (before now : Option (List ℕ))
            (parts : List PartValue) → PartsCame mode limits before now self parts → IsOver self now
            → EndsAs mode limits before now parts result }
    {
        let IncomingParts {
            incoming,
            mut composer,
        } = self;
        a_block_has_no_more_octets_than_the_text();
        match incoming.finish() {
            Ok(Ok(opening)) => {
                open_block(opening, &mut composer);
                match composer.finish() {
                    Ok(last) => Ok(last),
                    Err(fault) => Err(ReadError::Refused(fault)),
                }
            }
            Ok(Err(fault)) => Err(ReadError::Refused(fault)),
            Err(_) => Err(ReadError::Memory),
        }
    }
}
