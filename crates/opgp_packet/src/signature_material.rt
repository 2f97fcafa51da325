//! The algorithm-specific fields of a signature.

ghost use Rattle.std.specs.Prelude.{◌≡◌, ⊤};

use crate::{MpiSpan, Span};
use opgp_octets::MpiView;
use std::alloc::AllocError;

/// The algorithm-specific fields of a signature (RFC 9580, 5.2.3.1 to 5.2.3.5, 9.1). `I` stands for
/// an integer, `O` for octets.
#[derive(Copy)]
pub enum SignatureMaterial<I, O> {
    /// RSA, algorithms 1 and 3.
    Rsa(I),
    /// DSA, algorithm 17.
    Dsa {
        /// The first value.
        r: I,
        /// The second.
        s: I,
    },
    /// ECDSA, algorithm 19.
    Ecdsa {
        /// The first value.
        r: I,
        /// The second.
        s: I,
    },
    /// EdDSALegacy, algorithm 22.
    Eddsa {
        /// The first value.
        r: I,
        /// The second.
        s: I,
    },
    /// Ed25519, algorithm 27: 64 octets.
    Ed25519(O),
    /// Ed448, algorithm 28: 114 octets.
    Ed448(O),
    /// Any other algorithm: the rest of the body.
    Opaque(O),
}

impl<I: Copy, O: Copy> Clone for SignatureMaterial<I, O> {
    ghost is_clone = { λ p q. q ≡ p };

    ghost is_infallible = { λ _. ⊤ };

    fn clone(&self) -> Result<SignatureMaterial<I, O>, AllocError> {
        Ok(*self)
    }
}

/// The algorithm-specific fields of a signature, borrowed from its body (RFC 9580, 5.2.3.1 to
/// 5.2.3.5).
pub type SignatureMaterialView<'a> = SignatureMaterial<MpiView<'a>, &'a [u8]>;

/// Where the algorithm-specific fields lie in the signature's body.
pub(crate) type MaterialPlaces = SignatureMaterial<MpiSpan, Span>;
