//! Public-key algorithms (RFC 9580, 9.1).

ghost use Rattle.std.specs.Prelude.{◌≡◌};
ghost use Rattle.opgp_octets.specs.KeyAlgorithm.{key_algorithm_of, key_algorithm_number};
ghost use Rattle.opgp_octets.specs.KeyAlgorithm.{key_algorithm_name};

use crate::rows::{by_number, name_of, number_of};

// The table: a number, a variant, a name.
macro_rules! rows {
    ($read:ident, $what:expr) => {
        $read! { $what, KeyAlgorithm;
            1 Rsa "RSA (Encrypt or Sign)";
            2 RsaEncrypt "RSA Encrypt-Only";
            3 RsaSign "RSA Sign-Only";
            16 Elgamal "Elgamal (Encrypt-Only)";
            17 Dsa "DSA (Digital Signature Algorithm)";
            18 Ecdh "ECDH public key algorithm";
            19 Ecdsa "ECDSA public key algorithm";
            22 EddsaLegacy "EdDSALegacy";
            25 X25519 "X25519";
            26 X448 "X448";
            27 Ed25519 "Ed25519";
            28 Ed448 "Ed448";
        }
    };
}

/// A public-key algorithm (RFC 9580, 9.1).
#[derive(Clone, Copy, PartialEq, Eq)]
pub enum KeyAlgorithm {
    /// 1: RSA, to encrypt or to sign.
    Rsa,
    /// 2: RSA, to encrypt alone.
    RsaEncrypt,
    /// 3: RSA, to sign alone.
    RsaSign,
    /// 16: Elgamal, to encrypt alone.
    Elgamal,
    /// 17: DSA.
    Dsa,
    /// 18: ECDH over a curve that its object identifier names.
    Ecdh,
    /// 19: ECDSA over a curve that its object identifier names.
    Ecdsa,
    /// 22: EdDSA over a curve that its object identifier names.
    EddsaLegacy,
    /// 25: X25519.
    X25519,
    /// 26: X448.
    X448,
    /// 27: Ed25519.
    Ed25519,
    /// 28: Ed448.
    Ed448,
    /// Any other number.
    Other(u8),
}

impl From<u8> for KeyAlgorithm {
    ghost use Rattle.opgp_octets.specs.KeyAlgorithm.{key_algorithm_of, key_algorithm_number};

    ghost from_gives = { λ n t. (t ≡ key_algorithm_of n) × (key_algorithm_number t ≡ n) };

    #[tactic(auto, unfolding(crate::specs::KeyAlgorithm::key_algorithm_of))]
    fn from(number: u8) -> KeyAlgorithm {
        rows!(by_number, number)
    }
}

impl KeyAlgorithm {
    /// Its number.
    pub fn number(self) -> u8
        ensures { result ≡ key_algorithm_number self }
    {
        rows!(number_of, self)
    }

    /// Its name in the standard; `unknown` for any other number.
    #[tactic(auto, unfolding(crate::specs::KeyAlgorithm::key_algorithm_name))]
    pub fn name(self) -> &'static str
        ensures { result.now ≡ key_algorithm_name self }
    {
        rows!(name_of, self)
    }
}
