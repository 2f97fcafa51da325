//! What a policy relies on.

ghost use Rattle.std.specs.Prelude.{◌≡◌};
ghost use Rattle.opgp_octets.specs.HashAlgorithm.{hash_algorithm_of};
ghost use Rattle.opgp_valid.specs.Policy.{relied_size, relies_on};

use opgp_octets::HashAlgorithm;

/// Which hash algorithms and keys are relied on (RFC 9580, 9.5, 12.4).
#[derive(Clone, Copy, Debug, PartialEq, Eq)]
pub enum Policy {
    /// Not MD5, SHA-1 and RIPEMD-160, nor a digest shorter than the key asks for (5.2.3.2 to
    /// 5.2.3.5); RSA keys from 2048 bits on, DSA keys from 2048 and 224 bits on, and ECDSA keys on
    /// curves from 224 bits on.
    Usual,
    /// All.
    Any,
}

impl Policy {
    /// Whether it relies on a signature with this hash algorithm (RFC 9580, 9.5), by a key that is
    /// strong or isn't, and asks for a digest of so many octets at least.
    pub fn relies_on(self, hash: u8, is_strong: bool, least: usize) -> bool
        ensures { result ≡ relies_on self hash is_strong least }
    {
        match self {
            Policy::Any => true,
            Policy::Usual => match relied_size(hash) {
                Some(size) => is_strong && least <= size,
                None => false,
            },
        }
    }
}

/// How many octets a digest of this hash algorithm has; None if it isn't relied on.
#[tactic(auto, unfolding(opgp_octets::specs::HashAlgorithm::hash_algorithm_of))]
fn relied_size(hash: u8) -> Option<usize>
    ensures { result ≡ relied_size (hash_algorithm_of hash) }
{
    match HashAlgorithm::from(hash) {
        HashAlgorithm::Sha224 => Some(28),
        HashAlgorithm::Sha256 | HashAlgorithm::Sha3_256 => Some(32),
        HashAlgorithm::Sha384 => Some(48),
        HashAlgorithm::Sha512 | HashAlgorithm::Sha3_512 => Some(64),
        HashAlgorithm::Md5
        | HashAlgorithm::Sha1
        | HashAlgorithm::Ripemd160
        | HashAlgorithm::Other(_) => None,
    }
}
