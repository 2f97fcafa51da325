//! Lists detached signatures.

ghost use Rattle.std.specs.Prelude.{◌≡◌, false};
ghost use Rattle.opgp_io.specs.Output.{Extends, sink_of};
ghost use Rattle.opgp_keyring.specs.DetachedSignatures.{detached_left, detached_packets};
ghost use Rattle.opgp_stack.specs.Documents.{OfSignatures};
ghost use Rattle.opgp_stack.specs.Running.{IsMade, Made, RunsOf};
ghost use Rattle.opgp_stack.specs.ValuedListing.{valued_listing};

use crate::run_fault::RunFault;
use crate::running::end;
use crate::valued_listing::add_valued_line;
use opgp_codec::{Mode, Text, read_signatures, write};
use opgp_io::{Output, Sink, Source};
use opgp_keyring::{DetachedPackets, DetachedSignatures};
use opgp_octets::Limits;
use std::alloc::Global;
use std::io;

/// Reads detached signatures (RFC 9580, 10.4), and writes a line for each of their packets, as the
/// listing of a keyring with values has it. The conditions are that neither the source nor the sink
/// has failed.
///
/// The errors are `Refused`, `Read`, `Memory`, and `Write`, after which the sink holds a prefix of
/// the lines. With any other nothing was written.
pub fn run_signatures<R: Source, W: Sink>(
    alloc: Global,
    mode: Mode,
    limits: &Limits,
    reader: &mut R,
    writer: &mut W,
) -> Result<(), RunFault>
    requires reader { R.has_failed reader.old ≡ false }
    requires writer { W.has_failed writer.old ≡ false }
    ensures { RunsOf R.left R.has_failed (IsMade W.held W.has_failed) limits.now
        (OfSignatures (λ ps. Made.Text (valued_listing ps)) mode limits.now) reader.old reader.new
        writer.old writer.new result }
{
    let signatures = read_signatures(alloc, reader, mode, limits)?;
    write_lines(alloc, &signatures, writer)
}

/// Writes a line for each packet.
fn write_lines<W: Sink>(
    alloc: Global,
    signatures: &DetachedSignatures,
    writer: &mut W,
) -> Result<(), RunFault>
    requires { W.has_failed writer.old ≡ false }
    ensures { IsMade W.held W.has_failed writer.old writer.new result
        (Made.Text (valued_listing (detached_packets signatures.now))) }
{
    let packets = signatures.packets();
    end(write(alloc, SignatureLines { packets }, writer))
}

/// A line for each packet, with values.
#[derive(Clone, Copy)]
struct SignatureLines<'a> {
    packets: DetachedPackets<'a>,
}

impl Text for SignatureLines<'_> {
    ghost octets = { λ text. valued_listing (detached_left text.packets) };

    fn add<W: Sink>(self, output: &mut Output<'_, W>) -> io::Result<()> {
        add_lines(output, self.packets)
    }
}

/// Adds the lines of all packets that are left.
fn add_lines<W: Sink>(
    output: &mut Output<'_, W>,
    mut packets: DetachedPackets<'_>,
) -> io::Result<()>
    requires { W.has_failed (sink_of output.old) ≡ false }
    ensures { Extends W.held W.has_failed output.old output.new result
        (valued_listing (detached_left packets.entry)) }
{
    'packets: while let Some(packet) = packets.next() {
        add_valued_line(output, packet)?;
    }
    Ok(())
}
