//! The interface of a verifier of signatures.

ghost use Rattle.std.specs.Prelude.{◌≡◌};
ghost use Rattle.opgp_report.specs.Row.{job_value};
ghost use Rattle.opgp_report.specs.RowValue.{JobValue};
ghost use Rattle.opgp_report.specs.declared.verifier.Verdict.{Verdict};

use opgp_hash::Digest;
use opgp_packet::{KeyView, SigView};

/// The verdict on a signature.
#[derive(Clone, Copy, Debug, PartialEq, Eq)]
pub enum Verdict {
    /// The signer made it.
    Good,
    /// The signer didn't make it. From [`LeftOctets`](crate::LeftOctets), which does no arithmetic,
    /// it says only that the digest doesn't begin with the 16 bits that the signature states. These
    /// aren't signed: either it was made over other octets, or they were changed (RFC 9580, 5.2.3).
    Bad,
    /// It can't be said.
    Undecided,
}

/// What a verifier is given: a signature of version 4 or 6 and the digest of what it hashes where
/// it is.
///
/// A verifier isn't given a signature over a key of another version than its own, though the
/// standard frames that key by the signature's version (RFC 9580, 5.2.4), nor a revocation of type
/// 30 on a primary key, though it may revoke a direct key signature there (5.2.1.13).
#[derive(Clone, Copy)]
pub struct Job<'a> {
    /// The signature.
    pub signature: SigView<'a>,
    /// The digest of its question (RFC 9580, 5.2.4).
    pub digest: Digest,
    /// The key that it names as its issuer, if the keyring has it: by the first fingerprint (kind
    /// 33) that fits in its hashed area, else by a key ID (kind 16). It is a hint, and may be of
    /// any version.
    pub signer: Option<KeyView<'a>>,
}

/// Decides whether signatures are good. The verdict depends on the verifier and the job alone.
///
/// Nothing else is checked before it is called. So before it returns [`Good`](Verdict::Good) it
/// must itself refuse what the standard wants refused: a signature of another version than its
/// signer's key, or one that names that key by a fingerprint of another version (RFC 9580, 5.2,
/// 5.2.3.35); and one with a critical subpacket in its hashed area whose kind it doesn't know, or
/// that is unfit (5.2.3.7, 5.2.5).
pub trait Verifier {
    // The verdict on a job.
    ghost says: { Self → JobValue → Verdict };

    /// Whether the signature is good.
    fn verify(&self, job: &Job<'_>) -> Verdict
        ensures { result ≡ says self.now (job_value job.now) };
}
