//! The results of reading: a refusal is a result, and no error.

use opgp_keyring::{BlockOf, Keyring, SignedLiteral};
use opgp_octets::Fault;

/// The result of reading a keyring.
#[derive(Drop)]
pub enum Answer {
    /// The keyring (RFC 9580, 10.1).
    Ring(Keyring),
    /// The fault of the lowest layer that refuses the input.
    Refused(Fault),
}

/// The result of reading a signed literal.
#[derive(Drop)]
pub enum SignedAnswer {
    /// The signed literal (RFC 9580, 10.3).
    Literal(SignedLiteral),
    /// The fault of the lowest layer that refuses the input.
    Refused(Fault),
}

/// The result of reading packets.
#[derive(Drop)]
pub enum PacketsAnswer {
    /// The packets (RFC 9580, 4), in their blocks.
    Packets(Vec<BlockOf>),
    /// The fault of the lowest layer that refuses the input.
    Refused(Fault),
}
