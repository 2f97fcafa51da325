//! Reads the keyring of a source.

ghost use Rattle.std.specs.Prelude.{◌≡◌, ℕ, List, Option, Err, OnOk, true, false};
ghost use Rattle.opgp_octets.specs.declared.fault.Fault.{Fault};
ghost use Rattle.opgp_octets.specs.declared.limits.Limits.{Limits};
ghost use Rattle.opgp_keyring.specs.Composed.{PartValue};
ghost use Rattle.opgp_keyring.specs.Parts.{HasParts};
ghost use Rattle.opgp_codec.specs.IncomingParts.{IsOver, PartsCame};
ghost use Rattle.opgp_codec.specs.Keyrings.{ComposesTo, key_label, keyring_told};
ghost use Rattle.opgp_codec.specs.Pulled.{AnswersAs, ReadsAs, ReadsTo};
ghost use Rattle.opgp_codec.specs.Reading.{AnswerOf};
ghost use Rattle.opgp_codec.specs.declared.mode.Mode.{Mode};
ghost use Rattle.opgp_codec.specs.declared.read_error.ReadError.TheVariants as read;

use crate::answer::Answer;
use crate::engine_error::EngineError;
use crate::incoming_parts::IncomingParts;
use crate::mode::Mode;
use crate::read_error::ReadError;
use opgp_io::Source;
use opgp_keyring::Keyring;
use opgp_octets::Limits;
use std::alloc::Global;

/// The keyring of all that a source gives (RFC 9580, 10.1), or the one fault of the lowest layer
/// that refuses it: input, armor, framing, bodies, composition.
///
/// An armored block must be a `PUBLIC KEY BLOCK`. No octet is read past the limit `input` but one,
/// which shows that the input is too long. The condition is that the source hasn't failed.
///
/// The errors are `Read`, if the source has failed, and `Memory`.
pub fn read_keyring<R: Source>(
    alloc: Global,
    reader: &mut R,
    mode: Mode,
    limits: &Limits,
) -> Result<Answer, EngineError>
    requires { R.has_failed reader.old ≡ false }
    ensures { AnswersAs keyring_told (ReadsAs R.left R.has_failed reader.old reader.new limits.now
        (AnswerOf key_label (ComposesTo limits.now) mode limits.now)) result }
{
    match keyring_of(alloc, reader, mode, *limits) {
        Ok(keyring) => Ok(Answer::Ring(keyring)),
        Err(ReadError::Refused(fault)) => Ok(Answer::Refused(fault)),
        Err(ReadError::Read) => Err(EngineError::Read),
        Err(ReadError::Memory) => Err(EngineError::Memory),
    }
}

/// All parts of what comes, one after the other.
fn keyring_of<R: Source>(
    alloc: Global,
    reader: &mut R,
    mode: Mode,
    limits: Limits,
) -> Result<Keyring, ReadError>
    requires { R.has_failed reader.old ≡ false }
    ensures { ReadsAs R.left R.has_failed reader.old reader.new limits
        (AnswerOf key_label (ComposesTo limits) mode limits) result }
{
    let mut ring = Keyring::empty(alloc);
    let mut parts = IncomingParts::new(alloc, mode, limits)?;
    keep_all(&mut parts, reader, &mut ring)?;
    finish(parts, ring)
}

/// Keeps all parts that come before the last one.
fn keep_all<R: Source>(
    parts: &mut IncomingParts,
    reader: &mut R,
    ring: &mut Keyring,
) -> Result<(), ReadError>
    requires sound { R.has_failed reader.old ≡ false }
    requires came { (mode : Mode) × (limits : Limits) × (before : Option (List ℕ))
        × (list : List PartValue)
        × PartsCame mode limits before (R.left reader.old) parts.old list }
    ensures came { OnOk result ((mode : Mode) (limits : Limits) (before : Option (List ℕ))
        (list : List PartValue)
        → PartsCame mode limits before (R.left reader.old) parts.old list → HasParts ring.old list
        → (all : List PartValue) × PartsCame mode limits before (R.left reader.new) parts.new all
        × HasParts ring.new all) }
    ensures over { OnOk result (IsOver parts.new (R.left reader.new)) }
    ensures sound { OnOk result (R.has_failed reader.new ≡ false) }
    ensures read { result ≡ Err read.Read → R.has_failed reader.new ≡ true }
    ensures memory { result ≡ Err read.Memory → R.has_failed reader.new ≡ false }
    ensures other { (fault : Fault) → result ≡ Err (read.Refused fault) → ⊥ }
{
    'each: while let Some(part) = parts.next(reader)? {
        ring.keep(part)?;
    }
    Ok(())
}

/// With the last part, if there is one.
fn finish(parts: IncomingParts, mut ring: Keyring) -> Result<Keyring, ReadError>
    requires { (mode : Mode) × (limits : Limits) × (before now : Option (List ℕ))
        × (list : List PartValue) × PartsCame mode limits before now parts list × IsOver parts now }
    ensures { (mode : Mode) (limits : Limits) (before now : Option (List ℕ))
        (list : List PartValue) → PartsCame mode limits before now parts list → IsOver parts now
        → HasParts ring list
        → ReadsTo before now limits (AnswerOf key_label (ComposesTo limits) mode limits) result }
{
    match parts.finish() {
        Ok(None) => Ok(ring),
        Ok(Some(last)) => {
            ring.keep(last)?;
            Ok(ring)
        }
        Err(error) => Err(error),
    }
}
