//! How large keys are.

ghost use Rattle.std.specs.Prelude.{◌≡◌, ◌<◌, ◌≤◌, ◌^◌, false, length, option_map};
ghost use Rattle.opgp_packet.specs.Parsed.{body_octets};
ghost use Rattle.opgp_io.specs.Output.{Extends, sink_of};
ghost use Rattle.opgp_valid.specs.Policy.{without_zeros};
ghost use Rattle.opgp_stack.specs.KeySize.{bits_of, curve_name, curve_of, key_size, size_text};
ghost use Rattle.opgp_stack.specs.KeySize.{size_value, size_words};

use opgp_io::{Output, Sink, Word};
use opgp_packet::{KeyView, Material};
use std::io;

/// How large a key is.
#[derive(Clone, Copy)]
pub(crate) enum KeySize<'a> {
    /// The bits of RSA's modulus, or of the prime of DSA or Elgamal.
    Bits(u64),
    /// The name of its curve.
    Curve(&'a [u8]),
    /// The object identifier of a curve that has no name here.
    Identifier(&'a [u8]),
    /// It has an unknown algorithm.
    Unknown,
}

/// The name of the curve of an object identifier (RFC 9580, 9.2), as gpg has it.
fn curve_name(oid: &[u8]) -> Option<&'static [u8]>
    ensures { option_map (λ name. name.now) result ≡ curve_name oid.now }
{
    if oid == b"\x2A\x86\x48\xCE\x3D\x03\x01\x07".as_slice() {
        Some(b"nistp256".as_slice())
    } else if oid == b"\x2B\x81\x04\x00\x22".as_slice() {
        Some(b"nistp384".as_slice())
    } else if oid == b"\x2B\x81\x04\x00\x23".as_slice() {
        Some(b"nistp521".as_slice())
    } else if oid == b"\x2B\x24\x03\x03\x02\x08\x01\x01\x07".as_slice() {
        Some(b"brainpoolP256r1".as_slice())
    } else if oid == b"\x2B\x24\x03\x03\x02\x08\x01\x01\x0B".as_slice() {
        Some(b"brainpoolP384r1".as_slice())
    } else if oid == b"\x2B\x24\x03\x03\x02\x08\x01\x01\x0D".as_slice() {
        Some(b"brainpoolP512r1".as_slice())
    } else if oid == b"\x2B\x06\x01\x04\x01\xDA\x47\x0F\x01".as_slice() {
        Some(b"ed25519".as_slice())
    } else if oid == b"\x2B\x06\x01\x04\x01\x97\x55\x01\x05\x01".as_slice() {
        Some(b"cv25519".as_slice())
    } else if oid == b"\x2B\x81\x04\x00\x0A".as_slice() {
        Some(b"secp256k1".as_slice())
    } else {
        None
    }
}

/// The curve of an object identifier.
fn curve_of(oid: &[u8]) -> KeySize<'_>
    ensures { size_value result ≡ curve_of oid.now }
{
    match curve_name(oid) {
        Some(name) => KeySize::Curve(name),
        None => KeySize::Identifier(oid),
    }
}

/// An integer without the zeros in front of it.
fn without_zeros(octets: &[u8]) -> &[u8]
    ensures value { result.now ≡ without_zeros octets.now }
    ensures few { length result.now ≤ length octets.now }
{
    let mut rest = octets;
    'octets: while let [0, more @ ..] = rest {
        rest = more;
    }
    rest
}

/// How many bits an integer has, from the highest one that is set.
fn bits_of(octets: &[u8]) -> u64
    requires { length octets.now < 2 ^ 32 }
    ensures { result ≡ bits_of octets.now }
{
    let integer = without_zeros(octets);
    match integer {
        [first, ..] => 8 * (integer.len() as u64 - 1) + u64::from(8 - first.leading_zeros()),
        [] => 0,
    }
}

/// How large a key is, by its material (RFC 9580, 5.5.5).
pub(crate) fn size_of(key: KeyView<'_>) -> KeySize<'_>
    ensures { size_value result ≡ key_size (body_octets key.entry) }
{
    opgp_packet::key_laws::written(&key);
    // Called for their contracts, which tie the material to the body's first octets.
    let _version = key.version();
    let _algorithm = key.algorithm();
    match key.material() {
        Material::Rsa { n, .. } => KeySize::Bits(bits_of(n.octets())),
        Material::Elgamal { p, .. } => KeySize::Bits(bits_of(p.octets())),
        Material::Dsa { p, .. } => KeySize::Bits(bits_of(p.octets())),
        Material::Ecdh { oid, .. } => curve_of(oid),
        Material::Ecdsa { oid, .. } => curve_of(oid),
        Material::Eddsa { oid, .. } => curve_of(oid),
        Material::X25519(_) => KeySize::Curve(b"x25519".as_slice()),
        Material::X448(_) => KeySize::Curve(b"x448".as_slice()),
        Material::Ed25519(_) => KeySize::Curve(b"ed25519".as_slice()),
        Material::Ed448(_) => KeySize::Curve(b"ed448".as_slice()),
        Material::Opaque(_) => KeySize::Unknown,
    }
}

/// Adds a size.
fn add_size_text<W: Sink>(output: &mut Output<'_, W>, size: KeySize<'_>) -> io::Result<()>
    requires { W.has_failed (sink_of output.old) ≡ false }
    ensures { Extends W.held W.has_failed output.old output.new result
        (size_text (size_value size.entry)) }
{
    match size {
        KeySize::Bits(n) => output.add_decimal(n),
        KeySize::Curve(name) => output.add(name),
        KeySize::Identifier(oid) => output.add_words(&[Word::Text(b"oid:"), Word::Hex(oid)]),
        KeySize::Unknown => output.add(b"-"),
    }
}

/// Adds how large a key is, and the line's end.
pub(crate) fn add_size<W: Sink>(output: &mut Output<'_, W>, size: KeySize<'_>) -> io::Result<()>
    requires { W.has_failed (sink_of output.old) ≡ false }
    ensures { Extends W.held W.has_failed output.old output.new result
        (size_words (size_value size.entry)) }
{
    output.add(b" size ")?;
    add_size_text(output, size)?;
    output.add(b"\n")
}
