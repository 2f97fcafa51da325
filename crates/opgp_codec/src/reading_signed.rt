//! Reads the signed literal of a source.

ghost use Rattle.std.specs.Prelude.{◌≡◌, ◌++◌, ℕ, List, Option, OnOk, false, map};
ghost use Rattle.opgp_octets.specs.declared.limits.Limits.{Limits};
ghost use Rattle.opgp_octets.specs.declared.malformed.Malformed.{Malformed};
ghost use Rattle.opgp_octets.specs.Limits.{malformed_of};
ghost use Rattle.opgp_frame.specs.declared.packet.Placed.{Placed};
ghost use Rattle.opgp_keyring.specs.Composition.{Item, of_packet};
ghost use Rattle.opgp_keyring.specs.SignedGathering.{GathersSigned};
ghost use Rattle.opgp_keyring.specs.SignedLiteral.{signed_packets};
ghost use Rattle.opgp_codec.specs.Found.{opened};
ghost use Rattle.opgp_codec.specs.Incoming.{Came, HasEnded, IsHere, IsThrough, left_in};
ghost use Rattle.opgp_codec.specs.Pulled.{AnswersAs, ReadsAs, ReadsTo};
ghost use Rattle.opgp_codec.specs.Reading.{AnswerOf, shown};
ghost use Rattle.opgp_codec.specs.Signed.{AreSigned, message_label, signed_told};
ghost use Rattle.opgp_codec.specs.declared.accepts.Accepts.TheVariants.{Messages};
ghost use Rattle.opgp_codec.specs.declared.accepts.Accepts.{Accepts};
ghost use Rattle.opgp_codec.specs.declared.mode.Mode.{Mode};

use crate::accepts::Accepts;
use crate::answer::SignedAnswer;
use crate::engine_error::EngineError;
use crate::found::Opening;
use crate::incoming::Incoming;
use crate::mode::Mode;
use crate::read_error::ReadError;
use opgp_armor::laws::a_block_has_no_more_octets_than_the_text;
use opgp_io::Source;
use opgp_keyring::{SignedGathering, SignedLiteral};
use opgp_octets::{Limits, OutOfMemory};
use std::alloc::Global;

/// The signed literal of all that a source gives (RFC 9580, 10.3), or the one fault of the lowest
/// layer that refuses it: input, armor, framing, bodies, composition.
///
/// An armored block must be a `MESSAGE`. No octet is read past the limit `input` but one, which
/// shows that the input is too long. The condition is that the source hasn't failed.
///
/// The errors are `Read`, if the source has failed, and `Memory`.
pub fn read_signed<R: Source>(
    alloc: Global,
    reader: &mut R,
    mode: Mode,
    limits: &Limits,
) -> Result<SignedAnswer, EngineError>
    requires { R.has_failed reader.old ≡ false }
    ensures { AnswersAs signed_told (ReadsAs R.left R.has_failed reader.old reader.new limits.now
        (λ octets answer. AnswerOf message_label (AreSigned limits.now) mode limits.now octets
        (shown signed_packets answer))) result }
{
    match signed_of(alloc, reader, mode, limits) {
        Ok(signed) => Ok(SignedAnswer::Literal(signed)),
        Err(ReadError::Refused(fault)) => Ok(SignedAnswer::Refused(fault)),
        Err(ReadError::Read) => Err(EngineError::Read),
        Err(ReadError::Memory) => Err(EngineError::Memory),
    }
}

/// The signed literal of all labels and packets that come.
fn signed_of<R: Source>(
    alloc: Global,
    reader: &mut R,
    mode: Mode,
    limits: &Limits,
) -> Result<SignedLiteral, ReadError>
    requires { R.has_failed reader.old ≡ false }
    ensures { ReadsAs R.left R.has_failed reader.old reader.new limits.now (λ octets answer.
        AnswerOf message_label (AreSigned limits.now) mode limits.now octets
        (shown signed_packets answer)) result }
{
    let mut signed = SignedGathering::new(alloc, limits.malformed());
    let mut incoming = Incoming::new(alloc, mode, *limits, Accepts::Messages)?;
    'steps: while incoming.step(reader)? {
        take_in(&mut incoming, &mut signed)?;
    }
    finish(incoming, signed)
}

/// Adds the label and the packet that were found.
fn take_in(incoming: &mut Incoming, signed: &mut SignedGathering) -> Result<(), OutOfMemory>
    requires { (packets : List Placed) × IsHere incoming.old packets }
    ensures kept { OnOk result ((packets : List Placed) (policy : Malformed) (given : List Item)
        → IsHere incoming.old packets
        → GathersSigned policy signed.old given
        → GathersSigned policy signed.new
        (given ++ opened incoming.old.items.framer.opening ++ map of_packet packets)) }
    ensures came { (accepts : Accepts) (mode : Mode) (limits : Limits)
        (before now : Option (List ℕ)) (items : List Item)
        → Came accepts mode limits before now incoming.old items
        → Came accepts mode limits before now incoming.new items }
    ensures left { left_in incoming.new ≡ left_in incoming.old }
{
    open_block(incoming.opening(), signed);
    if let Some(packet) = incoming.own()? {
        signed.add(packet)?;
    }
    Ok(())
}

/// Begins the block whose label was found, where one was.
fn open_block(opening: Option<Opening>, signed: &mut SignedGathering)
    ensures { (policy : Malformed) (given : List Item) → GathersSigned policy signed.old given
        → GathersSigned policy signed.new (given ++ opened opening) }
{
    if let Some(opening) = opening {
        signed.begin_block(opening.number, opening.fits);
    }
}

/// The signed literal, if it is one.
fn finish(incoming: Incoming, mut signed: SignedGathering) -> Result<SignedLiteral, ReadError>
    requires { (mode : Mode) × (limits : Limits) × (before now : Option (List ℕ))
        × (items : List Item) × Came Messages mode limits before now incoming items
        × IsThrough incoming × GathersSigned (malformed_of limits) signed items }
    ensures { (mode : Mode) (limits : Limits) (before now : Option (List ℕ)) (items : List Item)
        → Came Messages mode limits before now incoming items → HasEnded incoming now
        → GathersSigned (malformed_of limits) signed items
        → ReadsTo before now limits (λ octets answer. AnswerOf message_label (AreSigned limits) mode
        limits octets (shown signed_packets answer)) result }
{
    a_block_has_no_more_octets_than_the_text();
    match incoming.finish()? {
        Ok(opening) => {
            open_block(opening, &mut signed);
            match signed.finish() {
                Ok(literal) => Ok(literal),
                Err(fault) => Err(ReadError::Refused(fault)),
            }
        }
        Err(fault) => Err(ReadError::Refused(fault)),
    }
}
