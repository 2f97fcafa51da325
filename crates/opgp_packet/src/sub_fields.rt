//! The fields of a subpacket's data, by its form alone.

use crate::sub_meaning::KeyId8;

/// The fields of a subpacket's data, by the form that its kind has (RFC 9580, 5.2.3.11 to
/// 5.2.3.36). Several kinds share a form: whoever stores or shows data without minding its kind
/// needs no more.
#[derive(Clone, Copy)]
pub enum SubFields<'a> {
    /// A number of four octets: a time, or a number of seconds.
    Number(u32),
    /// An octet.
    Octet(u8),
    /// Two octets.
    TwoOctets(u8, u8),
    /// A text, without the octet 0 that ends it.
    EndedText(&'a [u8]),
    /// Any octets: a text, flags, or a list of algorithms.
    Octets(&'a [u8]),
    /// A class, an algorithm, and a fingerprint of 20 octets.
    Revoker(u8, u8, &'a [u8]),
    /// A key ID.
    KeyId(KeyId8),
    /// Flags, a name, and a value.
    Notation(u32, &'a [u8], &'a [u8]),
    /// A code, and a text.
    CodeAndText(u8, &'a [u8]),
    /// A key algorithm, a hash algorithm, and a digest.
    Target(u8, u8, &'a [u8]),
    /// The body of a signature.
    Signature(&'a [u8]),
    /// The version of a key, and its fingerprint.
    Fingerprint(u8, &'a [u8]),
    /// Pairs of octets.
    Pairs(&'a [u8]),
}
