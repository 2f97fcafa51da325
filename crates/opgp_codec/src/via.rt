//! Packets on their way to an output, in binary or as armor, without an allocation.

ghost use Rattle.std.specs.Prelude.{◌≡◌, ◌++◌, [], ℕ, List, if◌then◌else◌, true, false};
ghost use Rattle.opgp_frame.specs.Packet.{packets_octets, spelling};
ghost use Rattle.opgp_keyring.specs.Member.{member_packet};
ghost use Rattle.opgp_keyring.specs.Packets.{packets_left};
ghost use Rattle.opgp_codec.specs.Via.{AddsVia, ExtendsVia};
ghost use Rattle.opgp_io.specs.Added.{Adds};
ghost use Rattle.opgp_io.specs.Held.{held_octets, pieces_octets};
ghost use Rattle.opgp_io.specs.Output.{sink_name, sink_of, state_of};

use opgp_frame::Spelling;
use opgp_io::{Armoring, Held, Output, Sink};
use opgp_keyring::{Member, Packets};
use std::io;

/// Adds octets, as rows of armor if a block is open.
pub(crate) fn add<W: Sink>(
    output: &mut Output<'_, W>,
    armoring: &mut Option<Armoring>,
    octets: &[u8],
) -> io::Result<()>
    requires { W.has_failed (sink_of output.old) ≡ false }
    ensures { ExtendsVia W.held W.has_failed output.old armoring.old output.new armoring.new result
        octets.now }
{
    match armoring {
        Some(armoring) => armoring.add(output, octets),
        None => output.add(octets),
    }
}

/// Adds a header and what follows it.
fn add_part<W: Sink>(
    output: &mut Output<'_, W>,
    armoring: &mut Option<Armoring>,
    header: &[u8],
    piece: &[u8],
) -> io::Result<()>
    requires { W.has_failed (sink_of output.old) ≡ false }
    ensures { ExtendsVia W.held W.has_failed output.old armoring.old output.new armoring.new result
        (header.now ++ piece.now) }
{
    if armoring.is_none() {
        return output.add_both(header, piece);
    }
    add(output, armoring, header)?;
    add(output, armoring, piece)?;
    Ok(())
}

/// Adds a packet of a keyring (RFC 9580, 4.2).
fn add_packet<W: Sink>(
    output: &mut Output<'_, W>,
    armoring: &mut Option<Armoring>,
    packet: Member<'_>,
) -> io::Result<()>
    requires { W.has_failed (sink_of output.old) ≡ false }
    ensures { ExtendsVia W.held W.has_failed output.old armoring.old output.new armoring.new result
        (spelling (member_packet packet.entry)) }
{
    let form = packet.form();
    let mut spelling = Spelling::new(&form, packet.kind(), packet.body());
    'parts: while let Some((header, piece)) = spelling.next() {
        add_part(output, armoring, header.as_slice(), piece)?;
    }
    Ok(())
}

/// Adds a packet if it has one header and the output has room for it, and returns true; else
/// changes nothing and returns false.
#[inline(always)]
fn hold_packet<W: Sink>(output: &mut Output<'_, W>, packet: Member<'_>) -> bool
    requires { W.has_failed (sink_of output.old) ≡ false }
    ensures same { sink_name output.new ≡ sink_name output.old }
    ensures held { result ≡ true → Adds (state_of W.held W.has_failed output.old)
        (state_of W.held W.has_failed output.new) (spelling (member_packet packet.entry)) }
    ensures left { result ≡ false → state_of W.held W.has_failed output.new
        ≡ state_of W.held W.has_failed output.old }
{
    let form = packet.form();
    let mut spelling = Spelling::new(&form, packet.kind(), packet.body());
    match (spelling.next(), spelling.next()) {
        (Some((header, piece)), None) => output.hold_both(header.as_slice(), piece),
        _ => false,
    }
}

/// Adds a packet if the output is binary and has room for it, and returns true; else adds nothing
/// and returns false. So nearly all packets are added without an `io::Result`, which is large and
/// would be moved from call to call.
#[inline(always)]
fn hold_one<W: Sink>(
    output: &mut Output<'_, W>,
    armoring: &Option<Armoring>,
    packet: Member<'_>,
) -> bool
    requires { W.has_failed (sink_of output.old) ≡ false }
    ensures { AddsVia W.held W.has_failed output.old armoring.now output.new armoring.now
        (if result then spelling (member_packet packet.entry) else []) }
{
    if armoring.is_some() {
        return false;
    }
    hold_packet(output, packet)
}

/// Octets that go to an output, as they are or as rows of armor.
pub(crate) trait Payload {
    // All of them.
    ghost octets: { Self → List ℕ };

    /// Adds them, as rows of armor if a block is open.
    fn add_via<W: Sink>(
        self,
        output: &mut Output<'_, W>,
        armoring: &mut Option<Armoring>,
    ) -> io::Result<()>
        requires { W.has_failed (sink_of output.old) ≡ false }
        ensures { ExtendsVia W.held W.has_failed output.old armoring.old output.new armoring.new
            result (octets self) };
}

impl Payload for Packets<'_> {
    ghost octets = { λ packets. packets_octets (packets_left packets) };

    fn add_via<W: Sink>(
        self,
        output: &mut Output<'_, W>,
        armoring: &mut Option<Armoring>,
    ) -> io::Result<()> {
        add_packets(output, armoring, self)
    }
}

impl Payload for &Held {
    ghost octets = { λ held. held_octets held.now };

    fn add_via<W: Sink>(
        self,
        output: &mut Output<'_, W>,
        armoring: &mut Option<Armoring>,
    ) -> io::Result<()> {
        let (full, last) = self.pieces();
        add_pieces(output, armoring, full)?;
        add(output, armoring, last)
    }
}

/// Adds pieces, one after the other.
fn add_pieces<W: Sink>(
    output: &mut Output<'_, W>,
    armoring: &mut Option<Armoring>,
    pieces: &[Vec<u8>],
) -> io::Result<()>
    requires { W.has_failed (sink_of output.old) ≡ false }
    ensures { ExtendsVia W.held W.has_failed output.old armoring.old output.new armoring.new result
        (pieces_octets pieces.now) }
{
    let mut rest = pieces;
    'pieces: while let Some((piece, more)) = rest.split_first() {
        add(output, armoring, piece)?;
        rest = more;
    }
    Ok(())
}

/// Adds all packets that are left.
fn add_packets<W: Sink>(
    output: &mut Output<'_, W>,
    armoring: &mut Option<Armoring>,
    mut packets: Packets<'_>,
) -> io::Result<()>
    requires { W.has_failed (sink_of output.old) ≡ false }
    ensures { ExtendsVia W.held W.has_failed output.old armoring.old output.new armoring.new result
        (packets_octets (packets_left packets.entry)) }
{
    'packets: while let Some(packet) = packets.next() {
        if !hold_one(output, armoring, packet) {
            add_packet(output, armoring, packet)?;
        }
    }
    Ok(())
}
