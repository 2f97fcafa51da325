//! Writes a keyring into a sink.

ghost use Rattle.std.specs.Prelude.{◌≡◌, false};
ghost use Rattle.opgp_keyring.specs.Keyring.{certificate_packets, flat};
ghost use Rattle.opgp_keyring.specs.Packets.{packets_left};
ghost use Rattle.opgp_codec.specs.Writing.{certificates_text, packets_text};
ghost use Rattle.opgp_codec.specs.Written.{IsWritten};

use crate::engine_error::EngineError;
use crate::out::Out;
use crate::writing::{Text, add_certificates, add_text, write};
use opgp_io::{Output, Sink};
use opgp_keyring::{Certificate, Keyring, Packets};
use std::alloc::Global;
use std::io;

/// Packets, in binary or as one block of armor.
#[derive(Clone, Copy)]
pub struct PacketsText<'a> {
    /// How they are written.
    pub out: Out,
    /// The packets.
    pub packets: Packets<'a>,
}

impl Text for PacketsText<'_> {
    ghost octets = { λ text. packets_text text.out (packets_left text.packets) };

    fn add<W: Sink>(self, output: &mut Output<'_, W>) -> io::Result<()> {
        add_text(output, self.out, self.packets)
    }
}

/// Certificates, each for itself, bare or as blocks of armor.
#[derive(Clone, Copy)]
struct CertificatesText<'a> {
    out: Out,
    certificates: &'a [Certificate],
}

impl Text for CertificatesText<'_> {
    ghost octets = { λ text. certificates_text text.out text.certificates.now };

    fn add<W: Sink>(self, output: &mut Output<'_, W>) -> io::Result<()> {
        add_certificates(output, self.out, self.certificates)
    }
}

/// Writes a keyring's packets (RFC 9580, 4), in binary or as one block of armor (6.2). The
/// condition is that the sink hasn't failed.
///
/// All memory is allocated before the first octet is written. The errors are `Memory`, with
/// nothing written, and `Write`: the sink has failed, and holds a prefix of the octets.
pub fn write_keyring<W: Sink>(
    alloc: Global,
    keyring: &Keyring,
    out: Out,
    writer: &mut W,
) -> Result<(), EngineError>
    requires { W.has_failed writer.old ≡ false }
    ensures { IsWritten W.held W.has_failed writer.old writer.new result
        (packets_text out (flat keyring.now)) }
{
    let packets = Packets::of(keyring);
    write(alloc, PacketsText { out, packets }, writer)
}

/// Writes each certificate of a keyring on its own, one after the other, in binary or as a block of
/// armor; the fillers before the first one are left out. The condition is that the sink hasn't
/// failed.
///
/// The errors are those of [`write_keyring`].
pub fn write_certificates<W: Sink>(
    alloc: Global,
    keyring: &Keyring,
    out: Out,
    writer: &mut W,
) -> Result<(), EngineError>
    requires { W.has_failed writer.old ≡ false }
    ensures { IsWritten W.held W.has_failed writer.old writer.new result
        (certificates_text out keyring.now.certificates) }
{
    let certificates = keyring.certificates();
    write(alloc, CertificatesText { out, certificates }, writer)
}

/// Writes one certificate, in binary or as a block of armor. The condition is that the sink hasn't
/// failed.
///
/// The errors are those of [`write_keyring`].
pub fn write_certificate<W: Sink>(
    alloc: Global,
    certificate: &Certificate,
    out: Out,
    writer: &mut W,
) -> Result<(), EngineError>
    requires { W.has_failed writer.old ≡ false }
    ensures { IsWritten W.held W.has_failed writer.old writer.new result
        (packets_text out (certificate_packets certificate.now)) }
{
    let packets = Packets::of_certificate(certificate);
    write(alloc, PacketsText { out, packets }, writer)
}
