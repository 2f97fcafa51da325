//! The digest of a question, whose parts are fed to a hasher one after the other.

ghost use Rattle.std.specs.Prelude.{◌≡◌, ◌++◌, ℕ, List};
ghost use Rattle.opgp_hash.specs.Digest.{digest_of};
ghost use Rattle.opgp_hash.specs.Part.{part_octets};
ghost use Rattle.opgp_hash.specs.Parts.{parts_octets};
ghost use Rattle.opgp_hash.specs.Question.{question_value};

use crate::digests::Digest;
use crate::hashers::Sha1Hasher;
use crate::part::Part;
use crate::parts::Parts;
use crate::question::Question;
use opgp_octets::HashAlgorithm;
use sha2::{Sha224, Sha256, Sha384, Sha512};

/// The digest of the question under its hash algorithm. Allocates nothing.
///
/// All its octets are hashed again. For many signatures of one certificate there is
/// [`CertificateHasher`](crate::CertificateHasher).
#[tactic(auto, unfolding(opgp_octets::specs::HashAlgorithm::hash_algorithm_of))]
pub fn digest(question: &Question<'_>) -> Digest
    ensures { result ≡ digest_of (question_value question.now) }
{
    let parts = Parts::of(question);
    match HashAlgorithm::from(question.hash) {
        HashAlgorithm::Sha1 => Digest::Sha1(digest_by::<Sha1Hasher>(&parts)),
        HashAlgorithm::Sha256 => Digest::Sha256(digest_by::<Sha256>(&parts)),
        HashAlgorithm::Sha384 => Digest::Sha384(digest_by::<Sha384>(&parts)),
        HashAlgorithm::Sha512 => Digest::Sha512(digest_by::<Sha512>(&parts)),
        _ => Digest::Sha224(digest_by::<Sha224>(&parts)),
    }
}

fn digest_by<D: sha2::Digest>(parts: &Parts<'_>) -> D::Output
    ensures { D.digest_of (parts_octets parts.now) result }
{
    let mut hasher = D::new();
    feed(&parts.salt, &mut hasher);
    feed(&parts.first, &mut hasher);
    feed(&parts.second, &mut hasher);
    feed(&parts.front, &mut hasher);
    feed(&parts.trailer, &mut hasher);
    hasher.finalize()
}

/// Feeds the part to the hasher.
pub(crate) fn feed<D: sha2::Digest>(part: &Part<'_>, hasher: &mut D)
    ensures { (m : List ℕ) → D.holds hasher.old m → D.holds hasher.new (m ++ part_octets part.now) }
{
    hasher.update(part.head.octets());
    if !part.body.is_empty() {
        hasher.update(part.body);
    }
}
