//! Writing packets.

ghost use Rattle.std.specs.Prelude.{◌≡◌, ◌<◌, ◌≤◌, ◌+◌, ◌++◌, ℕ, List, length, OnOk, OnErr};
ghost use Rattle.std.specs.Prelude.{vec_len, vec_capacity};
ghost use Rattle.opgp_frame.specs.Form.{FormSpells, exponents_of, last_length};
ghost use Rattle.opgp_frame.specs.Length.{length_octets};
ghost use Rattle.opgp_frame.specs.Packet.{PacketValue, IsPacket, spelling};
ghost use Rattle.opgp_frame.specs.Reframed.{reframed, IsCurrent};
ghost use Rattle.opgp_frame.specs.Spelling.{octets_left};

use crate::form::Form;
use crate::packet::Packet;
use crate::spelling::Spelling;
use opgp_octets::{OutOfMemory, put};

/// Writes the packet's octets (RFC 9580, 4.2) at the end of `out`, in the packet's form.
///
/// Fails only when out of memory; `out` is then unchanged.
pub fn write_packet(packet: &Packet, out: &mut Vec<u8>) -> Result<(), OutOfMemory>
    ensures ok { OnOk result (out.new.items ≡ out.old.items ++ spelling packet.now) }
    ensures err { OnErr result (out.new.items ≡ out.old.items) }
    // It fails only if the vector lacked the room.
    ensures full { OnErr result
        (vec_capacity out.old < vec_len out.old + length (spelling packet.now)) }
{
    write_parts(packet.form(), packet.kind(), packet.body(), out)
}

/// Writes the octets (RFC 9580, 4.2) of the packet with this form, type and body at the end of
/// `out`. The condition is that there is such a packet.
///
/// Fails only when out of memory; `out` is then unchanged.
pub fn write_parts(form: &Form, kind: u8, body: &[u8], out: &mut Vec<u8>) -> Result<(), OutOfMemory>
    requires { IsPacket (record { form = form.now; kind = kind; body = body.now }) }
    ensures ok { OnOk result (out.new.items ≡ out.old.items
        ++ spelling (record { form = form.now; kind = kind; body = body.now })) }
    ensures err { OnErr result (out.new.items ≡ out.old.items) }
    // It fails only if the vector lacked the room.
    ensures full { OnErr result (vec_capacity out.old < vec_len out.old
        + length (spelling (record { form = form.now; kind = kind; body = body.now }))) }
{
    out.reserve(spelled_len_of(form, body.len() as u64) as usize)?;
    append(Spelling::new(form, kind, body), out);
    Ok(())
}

/// How many octets a packet with this form and a body of `n` octets takes (RFC 9580, 4.2). The
/// condition is that the form can encode such a body.
///
/// Allocates nothing.
#[tactic(auto, using(crate::proofs::Cuts::cut_body_size))]
pub fn spelled_len_of(form: &Form, n: u64) -> u64
    requires { FormSpells form.now n }
    ensures { (kind : ℕ) (body : List ℕ) → length body ≡ n
        → result ≡ length (spelling (record { form = form.now; kind = kind; body = body })) }
{
    size_in(form, n)
}

/// How many octets its first octet, its length headers and a body of `n` octets take together.
#[inline(always)]
pub(crate) fn size_in(form: &Form, n: u64) -> u64
    requires { FormSpells form.now n }
    ensures { result ≡ 1 + length (exponents_of form.now)
        + length (length_octets (last_length form.now n)) + n }
{
    let pieces = form.exponents().len() as u64;
    match form.last_length(n) {
        Some(length) => 1 + pieces + length.octets().as_slice().len() as u64 + n,
        None => unreachable!(),
    }
}

/// Writes the octets that are left at the end of `out`, which has room for them.
fn append(mut spelling: Spelling, out: &mut Vec<u8>)
    requires room { vec_len out.old + length (octets_left spelling) ≤ vec_capacity out.old }
    ensures { out.new.items ≡ out.old.items ++ octets_left spelling.entry }
{
    while let Some((header, piece)) = spelling.next() {
        put(header.as_slice(), out);
        put(piece, out);
    }
}

/// The same packet in the current format with its shortest length (RFC 9580, 4.2.1), never partial.
///
/// Allocates nothing.
pub fn reframe(mut packet: Packet) -> Packet
    ensures same { (result.kind ≡ packet.kind) × (result.body ≡ packet.body) }
    ensures current { IsCurrent result.form }
    ensures least { (other : PacketValue) → IsPacket other → IsCurrent other.form
        → other.kind ≡ packet.kind → other.body ≡ packet.body
        → length (spelling result) ≤ length (spelling other) }
    ensures exact { result ≡ reframed packet }
{
    packet.reframe();
    packet
}
