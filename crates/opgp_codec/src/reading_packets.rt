//! Reads the packets of a source.

ghost use Rattle.std.specs.Prelude.{◌≡◌, ◌++◌, ℕ, List, Option, OnOk, false, map};
ghost use Rattle.opgp_octets.specs.declared.limits.Limits.{Limits};
ghost use Rattle.opgp_octets.specs.Limits.{malformed_of};
ghost use Rattle.opgp_frame.specs.declared.packet.Placed.{Placed};
ghost use Rattle.opgp_keyring.specs.Composition.{Item, of_packet};
ghost use Rattle.opgp_codec.specs.Found.{handed, opened};
ghost use Rattle.opgp_codec.specs.Incoming.{Came, HasEnded, IsHere, IsThrough, left_in};
ghost use Rattle.opgp_codec.specs.Packets.{AreIn, ArePackets, any_label, block_values};
ghost use Rattle.opgp_codec.specs.Packets.{packets_told};
ghost use Rattle.opgp_codec.specs.Pulled.{AnswersAs, ReadsAs, ReadsTo};
ghost use Rattle.opgp_codec.specs.Reading.{AnswerOf, shown};
ghost use Rattle.opgp_codec.specs.declared.accepts.Accepts.TheVariants.{Any};
ghost use Rattle.opgp_codec.specs.declared.accepts.Accepts.{Accepts};
ghost use Rattle.opgp_codec.specs.declared.mode.Mode.{Mode};

use crate::accepts::Accepts;
use crate::answer::PacketsAnswer;
use crate::engine_error::EngineError;
use crate::found::Opening;
use crate::incoming::Incoming;
use crate::mode::Mode;
use crate::read_error::ReadError;
use opgp_armor::laws::a_block_has_no_more_octets_than_the_text;
use opgp_frame::Placed;
use opgp_io::Source;
use opgp_keyring::{BlockOf, check_bodies_by};
use opgp_octets::{Limits, Malformed, OutOfMemory};
use std::alloc::Global;

/// The packets of all that a source gives (RFC 9580, 4), in their blocks, or the one fault of the
/// lowest layer that refuses it: input, armor, framing, bodies.
///
/// A block may have any of the four labels. No octet is read past the limit `input` but one, which
/// shows that the input is too long. The condition is that the source hasn't failed.
///
/// The errors are `Read`, if the source has failed, and `Memory`.
pub fn read_packets<R: Source>(
    alloc: Global,
    reader: &mut R,
    mode: Mode,
    limits: &Limits,
) -> Result<PacketsAnswer, EngineError>
    requires { R.has_failed reader.old ≡ false }
    ensures { AnswersAs packets_told (ReadsAs R.left R.has_failed reader.old reader.new limits.now
        (λ octets answer. AnswerOf any_label (ArePackets limits.now) mode limits.now octets
        (shown block_values answer))) result }
{
    match packets_of(alloc, reader, mode, limits) {
        Ok(blocks) => Ok(PacketsAnswer::Packets(blocks)),
        Err(ReadError::Refused(fault)) => Ok(PacketsAnswer::Refused(fault)),
        Err(ReadError::Read) => Err(EngineError::Read),
        Err(ReadError::Memory) => Err(EngineError::Memory),
    }
}

/// The blocks of all labels and packets that come.
fn packets_of<R: Source>(
    alloc: Global,
    reader: &mut R,
    mode: Mode,
    limits: &Limits,
) -> Result<Vec<BlockOf>, ReadError>
    requires { R.has_failed reader.old ≡ false }
    ensures { ReadsAs R.left R.has_failed reader.old reader.new limits.now (λ octets answer.
        AnswerOf any_label (ArePackets limits.now) mode limits.now octets
        (shown block_values answer)) result }
{
    let mut blocks = Vec::new(alloc);
    let mut incoming = Incoming::new(alloc, mode, *limits, Accepts::Any)?;
    'steps: while incoming.step(reader)? {
        take_in(alloc, &mut incoming, &mut blocks)?;
    }
    finish(alloc, incoming, blocks, limits.malformed())
}

/// Keeps the label and the packet that were found.
fn take_in(
    alloc: Global,
    incoming: &mut Incoming,
    blocks: &mut Vec<BlockOf>,
) -> Result<(), OutOfMemory>
    requires { (packets : List Placed) × IsHere incoming.old packets }
    ensures kept { OnOk result ((packets : List Placed) (given : List Item)
        → IsHere incoming.old packets
        → AreIn blocks.old given
        → AreIn blocks.new
        (given ++ opened incoming.old.items.framer.opening ++ map of_packet packets)) }
    ensures came { (accepts : Accepts) (mode : Mode) (limits : Limits)
        (before now : Option (List ℕ)) (items : List Item)
        → Came accepts mode limits before now incoming.old items
        → Came accepts mode limits before now incoming.new items }
    ensures left { left_in incoming.new ≡ left_in incoming.old }
{
    open_block(alloc, incoming.opening(), blocks)?;
    add_packet(incoming.own()?, blocks)
}

/// Begins the block whose label was found, where one was.
fn open_block(
    alloc: Global,
    opening: Option<Opening>,
    blocks: &mut Vec<BlockOf>,
) -> Result<(), OutOfMemory>
    ensures { OnOk result ((given : List Item) → AreIn blocks.old given
        → AreIn blocks.new (given ++ opened opening)) }
{
    let Some(opening) = opening else {
        return Ok(());
    };
    blocks.push(BlockOf {
        block: opening.number,
        label_fits: opening.fits,
        packets: Vec::new(alloc),
    })?;
    Ok(())
}

/// Adds the packet that was found to its block, where one was.
fn add_packet(packet: Option<Placed>, blocks: &mut Vec<BlockOf>) -> Result<(), OutOfMemory>
    ensures { OnOk result ((given : List Item) → AreIn blocks.old given
        → AreIn blocks.new (given ++ map of_packet (handed packet))) }
{
    let Some(packet) = packet else {
        return Ok(());
    };
    match blocks.last_mut() {
        Some(last) => {
            last.packets.push(packet)?;
            Ok(())
        }
        // Unreachable: each block begins before its packets.
        None => Ok(()),
    }
}

/// The blocks, if no body has a fault.
fn finish(
    alloc: Global,
    incoming: Incoming,
    mut blocks: Vec<BlockOf>,
    malformed: Malformed,
) -> Result<Vec<BlockOf>, ReadError>
    requires { (mode : Mode) × (limits : Limits) × (before now : Option (List ℕ))
        × (items : List Item) × Came Any mode limits before now incoming items
        × IsThrough incoming }
    ensures { (mode : Mode) (limits : Limits) (before now : Option (List ℕ)) (items : List Item)
        → Came Any mode limits before now incoming items → HasEnded incoming now
        → malformed ≡ malformed_of limits → AreIn blocks items
        → ReadsTo before now limits (λ octets answer. AnswerOf any_label (ArePackets limits) mode
        limits octets (shown block_values answer)) result }
{
    a_block_has_no_more_octets_than_the_text();
    match incoming.finish()? {
        Ok(opening) => {
            open_block(alloc, opening, &mut blocks)?;
            match check_bodies_by(&blocks, malformed) {
                None => Ok(blocks),
                Some(fault) => Err(ReadError::Refused(fault)),
            }
        }
        Err(fault) => Err(ReadError::Refused(fault)),
    }
}
