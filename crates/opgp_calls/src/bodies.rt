//! Bodies of packets, lengths and integers.

ghost use Rattle.opgp_octets.specs.Octets.{IsBodySized};

use opgp_octets::{Mpi, PacketLen, ParseFault, SubLen, write_len, write_sub_len};
use opgp_packet::{Body, Parsed, Signature, UserId};
use std::alloc::Global;

/// A body that is parsed: of a copy of the value, of a copy of its view, and its own.
pub(crate) fn add_value<F: Body + Drop>(
    alloc: Global,
    parsed: Result<Parsed<Vec<u8>, F>, ParseFault>,
    out: &mut Vec<u8>,
) -> Option<()> {
    let value = parsed.ok()?;
    value.copy(alloc).ok()?.write_body(out).ok()?;
    Parsed::of(alloc, value.view()).ok()?.write_body(out).ok()?;
    value.write_body(out).ok()
}

/// The same of a user ID, which has no view.
pub(crate) fn add_user_id(alloc: Global, body: &[u8], out: &mut Vec<u8>) -> Option<()>
    requires { IsBodySized body.now }
{
    let user_id = UserId::parse_body(alloc, body).ok()?;
    user_id.copy(alloc).ok()?.write_body(out).ok()?;
    user_id.write_body(out).ok()
}

/// The same of a signature; of one that is kept as it is also that of its own copy.
pub(crate) fn add_signature(alloc: Global, body: &[u8], out: &mut Vec<u8>) -> Option<()>
    requires { IsBodySized body.now }
{
    let signature = Signature::parse_body(alloc, body).ok()?;
    signature.copy(alloc).ok()?.write_body(out).ok()?;
    if let Signature::Other(other) = &signature {
        out.extend_from_slice(other.copy(alloc).ok()?.body()).ok()?;
    }
    signature.write_body(out).ok()
}

/// The length of a packet, of five octets, and that of a subpacket, of two, behind octets.
pub(crate) fn add_lengths(before: &[u8], out: &mut Vec<u8>) -> Option<()> {
    out.extend_from_slice(before).ok()?;
    write_len(&PacketLen::Five(100), out).ok()?;
    write_sub_len(&SubLen::Two(300), out).ok()
}

/// The octets of a copy of an integer.
pub(crate) fn add_integer(alloc: Global, octets: &[u8], out: &mut Vec<u8>) -> Option<()> {
    let (integer, _) = Mpi::read(alloc, octets, true).ok()?;
    out.extend_from_slice(integer.copy(alloc).ok()?.octets())
        .ok()
}
