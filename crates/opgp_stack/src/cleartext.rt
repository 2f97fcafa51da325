//! The parts of a message in the cleartext signature framework.

ghost use Rattle.std.specs.Prelude.{◌≡◌, false};
ghost use Rattle.opgp_stack.specs.CleartextRun.{HasPart, OfCleartext};
ghost use Rattle.opgp_stack.specs.Running.{IsMade, RunsOf};

use crate::hashing::OctetsText;
use crate::reading_octets::read_octets;
use crate::run_fault::RunFault;
use crate::running::end;
use opgp_codec::{read_cleartext, write};
use opgp_io::{Sink, Source};
use opgp_octets::Limits;
use std::alloc::Global;

/// A part of a message in the cleartext signature framework (RFC 9580, 7).
#[derive(Clone, Copy, Debug, PartialEq, Eq)]
pub enum CleartextPart {
    /// The document: its lines with a line feed between them, and none at the end.
    Document,
    /// What signatures of type 01 hash: the same lines with a carriage return and a line feed
    /// between them.
    Hashed,
    /// The octets behind the document, as they are: the armored signatures.
    Signatures,
}

/// Reads a message in the cleartext signature framework (RFC 9580, 7), and writes a part of it.
/// It verifies nothing. The text is held in memory. The conditions are that neither the source nor
/// the sink has failed.
///
/// Behind the document must be armored blocks of signatures alone: a line outside of them must be
/// blank, whatever the limits say of such lines.
///
/// The errors are `Refused`: the fault of the lowest layer that refuses the text; `Read`, `Memory`,
/// and `Write`, after which the sink holds a prefix of the part. With any other nothing was
/// written.
pub fn run_cleartext<R: Source, W: Sink>(
    alloc: Global,
    limits: &Limits,
    part: CleartextPart,
    reader: &mut R,
    writer: &mut W,
) -> Result<(), RunFault>
    requires reader { R.has_failed reader.old ≡ false }
    requires writer { W.has_failed writer.old ≡ false }
    ensures { RunsOf R.left R.has_failed (IsMade W.held W.has_failed) limits.now
        (OfCleartext limits.now part) reader.old reader.new writer.old writer.new result }
{
    let text = read_octets(alloc, reader, limits)?;
    let octets = part_of(alloc, limits, part, &text)?;
    end(write(alloc, OctetsText { octets: &octets }, writer))
}

/// The part of a text. The errors are `Refused` and `Memory`.
fn part_of(
    alloc: Global,
    limits: &Limits,
    part: CleartextPart,
    text: &[u8],
) -> Result<Vec<u8>, RunFault>
    ensures { HasPart limits.now part text.now result }
{
    let (message, _signatures) = read_cleartext(alloc, text, limits)?;
    let mut octets = Vec::new(alloc);
    match part {
        CleartextPart::Document => message.write_document(&mut octets)?,
        CleartextPart::Hashed => message.write_hashed(&mut octets)?,
        CleartextPart::Signatures => octets.extend_from_slice(message.signatures())?,
    }
    Ok(octets)
}
