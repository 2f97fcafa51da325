//! Hash algorithms (RFC 9580, 9.5).

ghost use Rattle.std.specs.Prelude.{◌≡◌};
ghost use Rattle.opgp_octets.specs.HashAlgorithm.{hash_algorithm_of, hash_algorithm_number};
ghost use Rattle.opgp_octets.specs.HashAlgorithm.{hash_algorithm_name, salt_size};

use crate::rows::{by_number, name_of, number_of};

// The table: a number, a variant, a name.
macro_rules! rows {
    ($read:ident, $what:expr) => {
        $read! { $what, HashAlgorithm;
            1 Md5 "MD5";
            2 Sha1 "SHA-1";
            3 Ripemd160 "RIPEMD-160";
            8 Sha256 "SHA2-256";
            9 Sha384 "SHA2-384";
            10 Sha512 "SHA2-512";
            11 Sha224 "SHA2-224";
            12 Sha3_256 "SHA3-256";
            14 Sha3_512 "SHA3-512";
        }
    };
}

/// A hash algorithm (RFC 9580, 9.5).
#[derive(Clone, Copy, PartialEq, Eq)]
pub enum HashAlgorithm {
    /// 1: MD5.
    Md5,
    /// 2: SHA-1.
    Sha1,
    /// 3: RIPEMD-160.
    Ripemd160,
    /// 8: SHA2-256.
    Sha256,
    /// 9: SHA2-384.
    Sha384,
    /// 10: SHA2-512.
    Sha512,
    /// 11: SHA2-224.
    Sha224,
    /// 12: SHA3-256.
    Sha3_256,
    /// 14: SHA3-512.
    Sha3_512,
    /// Any other number.
    Other(u8),
}

impl From<u8> for HashAlgorithm {
    ghost use Rattle.opgp_octets.specs.HashAlgorithm.{hash_algorithm_of, hash_algorithm_number};

    ghost from_gives = { λ n t. (t ≡ hash_algorithm_of n) × (hash_algorithm_number t ≡ n) };

    #[tactic(auto, unfolding(crate::specs::HashAlgorithm::hash_algorithm_of))]
    fn from(number: u8) -> HashAlgorithm {
        rows!(by_number, number)
    }
}

impl HashAlgorithm {
    /// Its number.
    pub fn number(self) -> u8
        ensures { result ≡ hash_algorithm_number self }
    {
        rows!(number_of, self)
    }

    /// Its name in the standard; `unknown` for any other number.
    #[tactic(auto, unfolding(crate::specs::HashAlgorithm::hash_algorithm_name))]
    pub fn name(self) -> &'static str
        ensures { result.now ≡ hash_algorithm_name self }
    {
        rows!(name_of, self)
    }

    /// How many octets of salt a version 6 signature has under it (RFC 9580, 9.5); None if the
    /// standard gives no size.
    pub fn salt_size(self) -> Option<u8>
        ensures { result ≡ salt_size self }
    {
        match self {
            HashAlgorithm::Sha224 | HashAlgorithm::Sha256 | HashAlgorithm::Sha3_256 => Some(16),
            HashAlgorithm::Sha384 => Some(24),
            HashAlgorithm::Sha512 | HashAlgorithm::Sha3_512 => Some(32),
            _ => None,
        }
    }
}
