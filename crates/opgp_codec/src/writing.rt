//! Writing packets, and any other text, without an allocation once it has begun.

ghost use Rattle.std.specs.Prelude.{◌≡◌, ℕ, [], List, false};
ghost use Rattle.opgp_armor.specs.Written.{armor_text};
ghost use Rattle.opgp_codec.specs.Writing.{Puts, certificates_text, octets_text};
ghost use Rattle.opgp_codec.specs.Written.{IsWritten};
ghost use Rattle.opgp_io.specs.Output.{Extends, sink_name, sink_of, waiting_in};

use crate::engine_error::EngineError;
use crate::out::Out;
use crate::via::Payload;
use opgp_armor::Label;
use opgp_io::{Armoring, Buffer, Output, Sink};
use opgp_keyring::{Certificate, Packets};
use std::alloc::Global;
use std::io;

/// Adds octets as they are.
fn add_bare<W: Sink, P: Payload + Copy>(output: &mut Output<'_, W>, payload: P) -> io::Result<()>
    requires { W.has_failed (sink_of output.old) ≡ false }
    ensures { Extends W.held W.has_failed output.old output.new result (P.octets payload) }
{
    let mut none = None;
    payload.add_via(output, &mut none)
}

/// Adds octets as one block of armor (RFC 9580, 6.2).
fn add_block<W: Sink, P: Payload + Copy>(
    output: &mut Output<'_, W>,
    label: Label,
    payload: P,
) -> io::Result<()>
    requires { W.has_failed (sink_of output.old) ≡ false }
    ensures { Extends W.held W.has_failed output.old output.new result
        (armor_text label [] (P.octets payload)) }
{
    let mut armoring = Some(Armoring::begin(output, label)?);
    payload.add_via(output, &mut armoring)?;
    match armoring {
        Some(armoring) => armoring.end(output),
        None => unreachable!(),
    }
}

/// Adds octets, in binary or as one block of armor.
pub(crate) fn add_text<W: Sink, P: Payload + Copy>(
    output: &mut Output<'_, W>,
    out: Out,
    payload: P,
) -> io::Result<()>
    requires { W.has_failed (sink_of output.old) ≡ false }
    ensures { Extends W.held W.has_failed output.old output.new result
        (octets_text out (P.octets payload)) }
{
    match out {
        Out::Armor => add_block(output, Label::PublicKeyBlock, payload),
        Out::Binary => add_bare(output, payload),
    }
}

/// Adds certificates, one after the other, each on its own.
pub(crate) fn add_certificates<W: Sink>(
    output: &mut Output<'_, W>,
    out: Out,
    certificates: &[Certificate],
) -> io::Result<()>
    requires { W.has_failed (sink_of output.old) ≡ false }
    ensures { Extends W.held W.has_failed output.old output.new result
        (certificates_text out certificates.now) }
{
    for certificate in certificates {
        add_text(output, out, Packets::of_certificate(certificate))?;
    }
    Ok(())
}

/// What is written: a text that is added to an output.
pub trait Text {
    // Its octets.
    ghost octets: { Self → List ℕ };

    /// Adds the text. The condition is that the sink hasn't failed.
    fn add<W: Sink>(self, output: &mut Output<'_, W>) -> io::Result<()>
        requires { W.has_failed (sink_of output.old) ≡ false }
        ensures { Extends W.held W.has_failed output.old output.new result (octets self) };
}

/// Writes a text into an empty output.
pub(crate) fn put<W: Sink, T: Text>(output: &mut Output<'_, W>, text: T) -> io::Result<()>
    requires none { waiting_in output.old ≡ [] }
    requires sound { W.has_failed (sink_of output.old) ≡ false }
    ensures same { sink_name output.new ≡ sink_name output.old }
    ensures put { Puts W.held W.has_failed (sink_of output.old) (sink_of output.new) result
        (T.octets text) }
{
    text.add(output)?;
    output.finish()
}

/// Writes a text through a buffer of its own. The condition is that the sink hasn't failed.
///
/// All memory that writing needs is taken before the first octet is written. The errors are
/// `Memory`, with nothing written, and `Write`: the sink has failed, and holds a prefix of the
/// text.
pub fn write<W: Sink, T: Text + Copy>(
    alloc: Global,
    text: T,
    writer: &mut W,
) -> Result<(), EngineError>
    requires { W.has_failed writer.old ≡ false }
    ensures { IsWritten W.held W.has_failed writer.old writer.new result (T.octets text) }
{
    let mut buffer = match Buffer::new(alloc) {
        Ok(buffer) => buffer,
        Err(_) => return Err(EngineError::Memory),
    };
    let mut output = Output::new(writer, &mut buffer);
    match put(&mut output, text) {
        Ok(()) => Ok(()),
        Err(_) => Err(EngineError::Write),
    }
}
