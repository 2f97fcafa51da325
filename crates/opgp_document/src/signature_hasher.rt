//! The document of one signature, hashed (RFC 9580, 5.2.4).

ghost use Rattle.std.specs.Prelude.{◌≡◌, ◌==◌, ◌++◌, ℕ, List, [], true, false};
ghost use Rattle.std.specs.Prelude.{IfSome, IfNone, IfOk, IfErr, Ok};
ghost use Rattle.opgp_hash.specs.Digest.{digest_under};
ghost use Rattle.opgp_hash.specs.QuestionValue.{is_hash};
ghost use Rattle.opgp_hash.specs.SignedValue.{SignedValue};
ghost use Rattle.opgp_document.specs.SignatureHasher.{IsOver, Opens, RunsAs};
ghost use Rattle.opgp_document.specs.Answer.{IsWhyNot, asked_of};
ghost use Rattle.opgp_document.specs.HashedDocument.{HashesDocument};
ghost use Rattle.opgp_document.specs.Text.{HasText};

use crate::document_hasher::DocumentHasher;
use crate::document_why::DocumentWhy;
use crate::own_octets::OwnOctets;
use opgp_hash::{Digest, Sha1Hasher};
use opgp_octets::{HashAlgorithm, OutOfMemory};
use opgp_packet::SigView;
use sha2::{Sha224, Sha256, Sha384, Sha512};
use std::alloc::Global;

/// A hasher of a document by one of the five algorithms.
#[derive(Drop)]
pub(crate) enum AlgorithmHasher {
    Sha1(DocumentHasher<Sha1Hasher>),
    Sha224(DocumentHasher<Sha224>),
    Sha256(DocumentHasher<Sha256>),
    Sha384(DocumentHasher<Sha384>),
    Sha512(DocumentHasher<Sha512>),
}

impl AlgorithmHasher {
    /// A copy; None if none can be made.
    fn copy(&self) -> Option<AlgorithmHasher>
        ensures { IfSome result (λ copy. copy ≡ self.now) }
    {
        match self {
            AlgorithmHasher::Sha1(hasher) => Some(AlgorithmHasher::Sha1(hasher.copy()?)),
            AlgorithmHasher::Sha224(hasher) => Some(AlgorithmHasher::Sha224(hasher.copy()?)),
            AlgorithmHasher::Sha256(hasher) => Some(AlgorithmHasher::Sha256(hasher.copy()?)),
            AlgorithmHasher::Sha384(hasher) => Some(AlgorithmHasher::Sha384(hasher.copy()?)),
            AlgorithmHasher::Sha512(hasher) => Some(AlgorithmHasher::Sha512(hasher.copy()?)),
        }
    }
}

/// Begins a hasher by the algorithm of this number, which is supported.
#[tactic(auto, unfolding(opgp_octets::specs::HashAlgorithm::hash_algorithm_of))]
fn begin(version: u8, hash: u8, is_text: bool, salt: &[u8]) -> AlgorithmHasher
    requires { is_hash version hash ≡ true }
    ensures { RunsAs result hash is_text salt.now [] }
{
    match HashAlgorithm::from(hash) {
        HashAlgorithm::Sha1 => AlgorithmHasher::Sha1(DocumentHasher::new(is_text, salt)),
        HashAlgorithm::Sha256 => AlgorithmHasher::Sha256(DocumentHasher::new(is_text, salt)),
        HashAlgorithm::Sha384 => AlgorithmHasher::Sha384(DocumentHasher::new(is_text, salt)),
        HashAlgorithm::Sha512 => AlgorithmHasher::Sha512(DocumentHasher::new(is_text, salt)),
        _ => AlgorithmHasher::Sha224(DocumentHasher::new(is_text, salt)),
    }
}

/// Whether there is a salt.
fn is_salted(salt: &[u8]) -> bool
    ensures { result ≡ false → salt.now ≡ [] }
{
    match salt {
        [] => false,
        _ => true,
    }
}

/// Hashes what a signature over a document hashes (RFC 9580, 5.2.4), of which the document comes
/// in pieces of any size: as it is for type 00, as canonical text for type 01.
///
/// It owns all that it needs. Only [`SignatureHasher::open`] allocates: a copy of what the
/// signature hashes behind the document.
#[derive(Drop)]
pub struct SignatureHasher {
    hash: u8,
    kind: u8,
    is_salted: bool,
    behind: Vec<u8>,
    running: AlgorithmHasher,
}

impl SignatureHasher {
    /// Begins a document, for a signature of version 4 or 6 and type 00 or 01.
    ///
    /// The errors are the first of these reasons why none is hashed for it: another version is
    /// [`DocumentWhy::Opaque`], another type [`DocumentWhy::Kind`], and a hash algorithm that isn't
    /// supported [`DocumentWhy::Hash`]. The outer error is out of memory.
    pub fn open(
        alloc: Global,
        signature: SigView<'_>,
    ) -> Result<Result<SignatureHasher, DocumentWhy>, OutOfMemory>
        ensures ok { IfOk result (λ opened. IfOk opened (Opens (asked_of (Ok signature.entry)))) }
        ensures err { IfOk result (λ opened.
            IfErr opened (IsWhyNot (asked_of (Ok signature.entry)))) }
    {
        let Some(own) = OwnOctets::of(signature) else {
            return Ok(Err(DocumentWhy::Opaque));
        };
        let kind = own.kind();
        if kind > 1 {
            return Ok(Err(DocumentWhy::Kind));
        }
        if !own.has_digest() {
            return Ok(Err(DocumentWhy::Hash));
        }
        let behind = own.behind(alloc)?;
        let running = begin(own.version(), own.hash(), kind == 1, own.salt());
        Ok(Ok(SignatureHasher {
            hash: own.hash(),
            kind,
            is_salted: is_salted(own.salt()),
            behind,
            running,
        }))
    }

    /// Takes the next piece of the document.
    pub fn push(&mut self, piece: &[u8])
        ensures { (s : SignedValue) (document : List ℕ) → IsOver self.old s document
            → IsOver self.new s (document ++ piece.now) }
    {
        match &mut self.running {
            AlgorithmHasher::Sha1(hasher) => hasher.push(piece),
            AlgorithmHasher::Sha224(hasher) => hasher.push(piece),
            AlgorithmHasher::Sha256(hasher) => hasher.push(piece),
            AlgorithmHasher::Sha384(hasher) => hasher.push(piece),
            AlgorithmHasher::Sha512(hasher) => hasher.push(piece),
        }
    }

    /// Whether the same is hashed of a document for another signature: by the same algorithm, for
    /// the same type, and behind no salt.
    fn is_like(&self, other: &SignatureHasher) -> bool
        ensures { result ≡ true → (s t : SignedValue) (document begun : List ℕ)
            → IsOver self.now s document → IsOver other.now t begun
            → (s.hash ≡ t.hash) × (s.kind ≡ t.kind) × (s.salt ≡ t.salt) }
    {
        self.hash == other.hash && self.kind == other.kind && !self.is_salted && !other.is_salted
    }

    /// What runs, copied for another signature for which the same is hashed of a document; None if
    /// it isn't the same, or if no copy can be made.
    pub(crate) fn running_for(&self, other: &SignatureHasher) -> Option<AlgorithmHasher>
        ensures { IfSome result (λ running. (s t : SignedValue) (document begun : List ℕ)
            → IsOver self.now s document → IsOver other.now t begun
            → RunsAs running t.hash (t.kind == 1) t.salt document) }
    {
        if self.is_like(other) {
            self.running.copy()
        } else {
            None
        }
    }

    /// Takes over what ran for another signature.
    pub(crate) fn put(&mut self, running: AlgorithmHasher)
        ensures { (s : SignedValue) (document begun : List ℕ) → IsOver self.old s begun
            → RunsAs running s.hash (s.kind == 1) s.salt document
            → IsOver self.new s document }
    {
        self.running = running;
    }

    /// The digest of what the signature hashes, over the whole document, however it was cut into
    /// pieces; None if and only if the signature is of type 01, and the document has no canonical
    /// text.
    pub fn finish(self) -> Option<Digest>
        ensures some { IfSome result (λ digest. (s : SignedValue) (document : List ℕ)
            → IsOver self s document
            → (octets : List ℕ) × HashesDocument s document octets
            × (digest ≡ digest_under s.hash octets)) }
        ensures none { IfNone result ((s : SignedValue) (document : List ℕ)
            → IsOver self s document
            → (s.kind ≡ 1) × ((text : List ℕ) → HasText document text → ⊥)) }
    {
        let SignatureHasher {
            hash: _,
            kind: _,
            is_salted: _,
            behind,
            running,
        } = self;
        let octets = behind.as_slice();
        match running {
            AlgorithmHasher::Sha1(hasher) => match hasher.finish(octets) {
                Some(digest) => Some(Digest::Sha1(digest)),
                None => None,
            },
            AlgorithmHasher::Sha224(hasher) => match hasher.finish(octets) {
                Some(digest) => Some(Digest::Sha224(digest)),
                None => None,
            },
            AlgorithmHasher::Sha256(hasher) => match hasher.finish(octets) {
                Some(digest) => Some(Digest::Sha256(digest)),
                None => None,
            },
            AlgorithmHasher::Sha384(hasher) => match hasher.finish(octets) {
                Some(digest) => Some(Digest::Sha384(digest)),
                None => None,
            },
            AlgorithmHasher::Sha512(hasher) => match hasher.finish(octets) {
                Some(digest) => Some(Digest::Sha512(digest)),
                None => None,
            },
        }
    }
}
