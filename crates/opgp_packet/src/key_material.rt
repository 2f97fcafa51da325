//! The public material of a key, by its algorithm.

ghost use Rattle.std.specs.Prelude.{◌≡◌, ⊤};

use crate::{MpiSpan, Span};
use opgp_octets::MpiView;
use std::alloc::AllocError;

/// The public material of a key (RFC 9580, 5.5.5), by its algorithm (9.1). `I` stands for an
/// integer, `O` for octets.
#[derive(Copy)]
pub enum Material<I, O> {
    /// RSA, algorithms 1, 2 and 3.
    Rsa {
        /// The modulus.
        n: I,
        /// The exponent.
        e: I,
    },
    /// Elgamal, algorithm 16.
    Elgamal {
        /// The prime.
        p: I,
        /// The generator.
        g: I,
        /// The public value.
        y: I,
    },
    /// DSA, algorithm 17.
    Dsa {
        /// The prime.
        p: I,
        /// The group's order.
        q: I,
        /// The generator.
        g: I,
        /// The public value.
        y: I,
    },
    /// ECDH, algorithm 18.
    Ecdh {
        /// The curve's object identifier, without its size.
        oid: O,
        /// The public point.
        point: I,
        /// The parameters of the key derivation function, without their size.
        kdf: O,
    },
    /// ECDSA, algorithm 19.
    Ecdsa {
        /// The curve's object identifier, without its size.
        oid: O,
        /// The public point.
        point: I,
    },
    /// EdDSALegacy, algorithm 22.
    Eddsa {
        /// The curve's object identifier, without its size.
        oid: O,
        /// The public point.
        point: I,
    },
    /// X25519, algorithm 25: 32 octets.
    X25519(O),
    /// X448, algorithm 26: 56 octets.
    X448(O),
    /// Ed25519, algorithm 27: 32 octets.
    Ed25519(O),
    /// Ed448, algorithm 28: 57 octets.
    Ed448(O),
    /// Any other algorithm: the rest of the body.
    Opaque(O),
}

impl<I: Copy, O: Copy> Clone for Material<I, O> {
    ghost is_clone = { λ p q. q ≡ p };

    ghost is_infallible = { λ _. ⊤ };

    fn clone(&self) -> Result<Material<I, O>, AllocError> {
        Ok(*self)
    }
}

/// The public material of a key, borrowed from the key's body (RFC 9580, 5.5.5).
pub type MaterialView<'a> = Material<MpiView<'a>, &'a [u8]>;

/// Where the public material of a key lies in its body.
pub(crate) type MaterialPlaces = Material<MpiSpan, Span>;
