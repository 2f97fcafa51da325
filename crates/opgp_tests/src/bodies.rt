//! How many allocations the bodies of packets take, and how large their values are.

ghost use Rattle.std.specs.Prelude.{IfSome};
ghost use Rattle.opgp_octets.specs.Octets.{IsBodySized};

use opgp_octets::BodyFault;
use opgp_packet::{Attribute, Body, Key, KeyView, Literal, Parsed, SigView, Signature, UserId};
use std::alloc::Global;
use std::mem::size_of;

// The key of RFC 9580, A.1.
const KEY: &[u8] =
    b"\x04\x53\xF3\x5F\x0B\x16\x09\x2B\x06\x01\x04\x01\xDA\x47\x0F\x01\x01\x07\x40\x3F\x09\x89\
      \x94\xBD\xD9\x16\xED\x40\x53\x19\x79\x34\xE4\xA8\x7C\x80\x73\x3A\x12\x80\xD6\x2F\x80\x10\
      \x99\x2E\x43\xEE\x3B\x24\x06";

const ATTRIBUTE: &[u8] = b"\x02\x01\x61";

const LITERAL: &[u8] = b"\x62\x00\x00\x00\x00\x00";

// A version 4 signature with two subpackets: an expression without its last octet 0, and a kind
// that is unknown.
const ODD: &[u8] =
    b"\x04\x18\x16\x08\x00\x03\x02\x06\x61\x00\x03\x02\xE3\x01\xAB\xCD\x00\x00\x00\x00";

// Signatures of version 3, by RSA, of version 4, of version 6, and of one that is unknown.
const SIGNATURES: [&[u8]; 4] = [
    b"\x03\x05\x10\x53\xF3\x5F\x0B\x8C\xFD\xE1\x21\x97\x96\x5A\x9A\x01\x08\xAB\xCD\x00\x01\x01",
    ODD,
    b"\x06\x1F\xC8\x08\x00\x00\x00\x03\x02\x64\x01\x00\x00\x00\x00\xAB\xCD\x10ssssssssssssssssm",
    b"\x05",
];

/// A copy of a short body; None where memory runs out.
fn owned(alloc: Global, body: &[u8]) -> Option<Vec<u8>>
    ensures { IfSome result (λ copy. IsBodySized copy.items) }
{
    if body.len() > 1000 {
        return None;
    }
    body.to_vec(alloc).ok()
}

/// Whether a value gives back the body that it was made of.
fn gives_back<F: Body + Drop>(parsed: Result<Parsed<Vec<u8>, F>, BodyFault>, body: &[u8]) -> bool {
    match parsed {
        Ok(value) => value.into_body().as_slice() == body,
        Err(_) => false,
    }
}

/// The same of a signature; None where memory runs out.
fn signature_gives_back(alloc: Global, body: &[u8]) -> Option<bool> {
    match Signature::from_body(owned(alloc, body)?) {
        Ok(signature) => Some(signature.into_body().as_slice() == body),
        Err(_) => Some(false),
    }
}

/// The same of the other bodies.
fn others_give_back(alloc: Global) -> Option<bool> {
    let key = gives_back(Key::from_body(owned(alloc, KEY)?), KEY);
    let attribute = gives_back(Attribute::from_body(owned(alloc, ATTRIBUTE)?), ATTRIBUTE);
    let literal = gives_back(Literal::from_body(owned(alloc, LITERAL)?), LITERAL);
    let user_id = UserId::from_body(owned(alloc, b"a")?).into_body();
    Some(key && attribute && literal && user_id.as_slice() == b"a".as_slice())
}

// One allocation makes each body; none copies it on its way into a value and out again.
#[test]
fn bodies_are_moved_in_8_growths(rt: HostRuntime) {
    assert!(rt; others_give_back(rt.alloc()) != Some(false));
    for body in SIGNATURES {
        assert!(rt; signature_gives_back(rt.alloc(), body) != Some(false));
    }
}

/// How many octets a hundred bodies are that are written behind one another.
fn written(alloc: Global) -> Option<usize> {
    let signature = Signature::parse_body(alloc, ODD).ok()?;
    let mut out = Vec::new(alloc);
    for _ in 0..100 {
        signature.write_body(&mut out).ok()?;
    }
    Some(out.len())
}

// A vector that bodies are written behind one another into grows by doubling; one growth more makes
// the signature.
#[test]
fn bodies_written_in_9_growths(rt: HostRuntime) {
    if let Some(size) = written(rt.alloc()) {
        assert_eq!(rt; size, 100 * ODD.len());
    }
}

// A value is its body's vector or slice, and where its fields lie.
#[test]
fn values_are_small(rt: HostRuntime) {
    let signatures = (size_of::<Signature>(), size_of::<SigView>());
    let keys = (size_of::<Key>(), size_of::<KeyView>());
    assert_eq!(rt; (signatures, keys), ((88, 80), (72, 64)));
}
