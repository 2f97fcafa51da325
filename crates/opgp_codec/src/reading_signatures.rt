//! Reads the detached signatures of a source.

ghost use Rattle.std.specs.Prelude.{◌≡◌, ◌++◌, ℕ, List, Option, OnOk, false, map};
ghost use Rattle.opgp_octets.specs.declared.limits.Limits.{Limits};
ghost use Rattle.opgp_octets.specs.declared.malformed.Malformed.{Malformed};
ghost use Rattle.opgp_octets.specs.Limits.{malformed_of};
ghost use Rattle.opgp_frame.specs.declared.packet.Placed.{Placed};
ghost use Rattle.opgp_keyring.specs.Composition.{Item, of_packet};
ghost use Rattle.opgp_keyring.specs.DetachedGathering.{GathersDetached};
ghost use Rattle.opgp_keyring.specs.DetachedSignatures.{detached_packets};
ghost use Rattle.opgp_codec.specs.Found.{opened};
ghost use Rattle.opgp_codec.specs.Incoming.{Came, HasEnded, IsHere, IsThrough, left_in};
ghost use Rattle.opgp_codec.specs.Pulled.{ReadsAs, ReadsTo};
ghost use Rattle.opgp_codec.specs.Reading.{AnswerOf, shown};
ghost use Rattle.opgp_codec.specs.Signatures.{AreDetachedSignatures, signature_label};
ghost use Rattle.opgp_codec.specs.declared.accepts.Accepts.TheVariants.{Signatures};
ghost use Rattle.opgp_codec.specs.declared.accepts.Accepts.{Accepts};
ghost use Rattle.opgp_codec.specs.declared.mode.Mode.{Mode};

use crate::accepts::Accepts;
use crate::found::Opening;
use crate::incoming::Incoming;
use crate::mode::Mode;
use crate::read_error::ReadError;
use opgp_armor::laws::a_block_has_no_more_octets_than_the_text;
use opgp_io::Source;
use opgp_keyring::{DetachedGathering, DetachedSignatures};
use opgp_octets::{Limits, OutOfMemory};
use std::alloc::Global;

/// The detached signatures of all that a source gives (RFC 9580, 10.4), or the one fault of the
/// lowest layer that refuses it: input, armor, framing, bodies, composition.
///
/// An armored block must be a `SIGNATURE`. No octet is read past the limit `input` but one, which
/// shows that the input is too long. The condition is that the source hasn't failed.
pub fn read_signatures<R: Source>(
    alloc: Global,
    reader: &mut R,
    mode: Mode,
    limits: &Limits,
) -> Result<DetachedSignatures, ReadError>
    requires { R.has_failed reader.old ≡ false }
    ensures { ReadsAs R.left R.has_failed reader.old reader.new limits.now (λ octets answer.
        AnswerOf signature_label (AreDetachedSignatures limits.now) mode limits.now octets
        (shown detached_packets answer)) result }
{
    let mut gathering = DetachedGathering::new(alloc, limits.malformed());
    let mut incoming = Incoming::new(alloc, mode, *limits, Accepts::Signatures)?;
    'steps: while incoming.step(reader)? {
        take_in(&mut incoming, &mut gathering)?;
    }
    finish(incoming, gathering)
}

/// Adds the label and the packet that were found.
fn take_in(incoming: &mut Incoming, gathering: &mut DetachedGathering) -> Result<(), OutOfMemory>
    requires { (packets : List Placed) × IsHere incoming.old packets }
    ensures kept { OnOk result ((packets : List Placed) (policy : Malformed) (given : List Item)
        → IsHere incoming.old packets
        → GathersDetached policy gathering.old given
        → GathersDetached policy gathering.new
        (given ++ opened incoming.old.items.framer.opening ++ map of_packet packets)) }
    ensures came { (accepts : Accepts) (mode : Mode) (limits : Limits)
        (before now : Option (List ℕ)) (items : List Item)
        → Came accepts mode limits before now incoming.old items
        → Came accepts mode limits before now incoming.new items }
    ensures left { left_in incoming.new ≡ left_in incoming.old }
{
    open_block(incoming.opening(), gathering);
    if let Some(packet) = incoming.own()? {
        gathering.add(packet)?;
    }
    Ok(())
}

/// Begins the block whose label was found, where one was.
fn open_block(opening: Option<Opening>, gathering: &mut DetachedGathering)
    ensures { (policy : Malformed) (given : List Item) → GathersDetached policy gathering.old given
        → GathersDetached policy gathering.new (given ++ opened opening) }
{
    if let Some(opening) = opening {
        gathering.begin_block(opening.number, opening.fits);
    }
}

/// The detached signatures, if they are some.
fn finish(
    incoming: Incoming,
    mut gathering: DetachedGathering,
) -> Result<DetachedSignatures, ReadError>
    requires { (mode : Mode) × (limits : Limits) × (before now : Option (List ℕ))
        × (items : List Item) × Came Signatures mode limits before now incoming items
        × IsThrough incoming × GathersDetached (malformed_of limits) gathering items }
    ensures { (mode : Mode) (limits : Limits) (before now : Option (List ℕ)) (items : List Item)
        → Came Signatures mode limits before now incoming items → HasEnded incoming now
        → GathersDetached (malformed_of limits) gathering items
        → ReadsTo before now limits (λ octets answer.
        AnswerOf signature_label (AreDetachedSignatures limits) mode limits octets
        (shown detached_packets answer)) result }
{
    a_block_has_no_more_octets_than_the_text();
    match incoming.finish()? {
        Ok(opening) => {
            open_block(opening, &mut gathering);
            match gathering.finish() {
                Ok(signatures) => Ok(signatures),
                Err(fault) => Err(ReadError::Refused(fault)),
            }
        }
        Err(fault) => Err(ReadError::Refused(fault)),
    }
}
