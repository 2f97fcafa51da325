//! The digests of one certificate's signatures.

ghost use Rattle.std.specs.Prelude.{◌≡◌, true, Some};
ghost use Rattle.std.proofs.Props.{props};
ghost use Rattle.sha2.specs.Hashers.{Holds224, Holds256, Holds384, Holds512};
ghost use Rattle.opgp_packet.specs.Parsed.{body_octets};
ghost use Rattle.opgp_hash.specs.Hashed.{key_hashed, subject_hashed};
ghost use Rattle.opgp_hash.specs.Hasher.{HoldsSha1};
ghost use Rattle.opgp_hash.specs.HoldsProps.{sha1-prop, sha224-prop, sha256-prop};
ghost use Rattle.opgp_hash.specs.HoldsProps.{sha384-prop, sha512-prop};
ghost use Rattle.opgp_hash.specs.Kept.{Keeps};
ghost use Rattle.opgp_hash.specs.Subject.{subject_value};
ghost use Rattle.opgp_hash.specs.SubjectValue.{first_key, is_within};

use crate::digesting::digest;
use crate::digests::Digest;
use crate::hashers::Sha1Hasher;
use crate::kept::Kept;
use crate::parts::Parts;
use crate::question::Question;
use crate::subject::Subject;
use opgp_octets::HashAlgorithm;
use opgp_packet::KeyView;
use sha2::{Sha224, Sha256, Sha384, Sha512};

/// Makes the digests of one certificate's signatures, over one subject after the other.
///
/// In version 4 the primary key is hashed once for each hash algorithm that its signatures use, and
/// so is each subject while it is the current one: a signature adds only its own fields. In version
/// 6 the salt comes first (RFC 9580, 5.2.4), so each digest hashes its whole subject again.
#[derive(Drop)]
pub struct CertificateHasher<'a> {
    primary: KeyView<'a>,
    subject: Subject<'a>,
    sha1: Kept<Sha1Hasher>,
    sha224: Kept<Sha224>,
    sha256: Kept<Sha256>,
    sha384: Kept<Sha384>,
    sha512: Kept<Sha512>,
    ghost first: { first_key (subject_value subject) ≡ Some (body_octets primary) },
    ghost within: { is_within (subject_value subject) ≡ true },
    ghost keeps_sha1: { Keeps HoldsSha1 sha1 (key_hashed 4 (body_octets primary))
        (subject_hashed 4 (subject_value subject)) } by { Prim.hlevel (props, sha1-prop) },
    ghost keeps_sha224: { Keeps Holds224 sha224 (key_hashed 4 (body_octets primary))
        (subject_hashed 4 (subject_value subject)) } by { Prim.hlevel (props, sha224-prop) },
    ghost keeps_sha256: { Keeps Holds256 sha256 (key_hashed 4 (body_octets primary))
        (subject_hashed 4 (subject_value subject)) } by { Prim.hlevel (props, sha256-prop) },
    ghost keeps_sha384: { Keeps Holds384 sha384 (key_hashed 4 (body_octets primary))
        (subject_hashed 4 (subject_value subject)) } by { Prim.hlevel (props, sha384-prop) },
    ghost keeps_sha512: { Keeps Holds512 sha512 (key_hashed 4 (body_octets primary))
        (subject_hashed 4 (subject_value subject)) } by { Prim.hlevel (props, sha512-prop) },
}

impl<'a> CertificateHasher<'a> {
    ghost use Rattle.opgp_hash.specs.CertificateHasher.{hasher_subject};
    ghost use Rattle.opgp_hash.specs.Digest.{digest_of};
    ghost use Rattle.opgp_hash.specs.Question.{question_value};
    ghost use Rattle.opgp_hash.specs.SubjectValue.{one};

    /// The hasher of the certificate with this primary key; its subject is the key alone. Nothing
    /// is hashed yet.
    pub fn new(primary: KeyView<'a>) -> CertificateHasher<'a>
        ensures { hasher_subject result ≡ one (body_octets primary.entry) }
    {
        CertificateHasher {
            primary,
            subject: Subject::One(primary),
            sha1: Kept::new(),
            sha224: Kept::new(),
            sha256: Kept::new(),
            sha384: Kept::new(),
            sha512: Kept::new(),
        }
    }

    /// The current subject.
    pub fn subject(&self) -> Subject<'a>
        ensures value { subject_value result ≡ hasher_subject self.now }
        ensures within { is_within (hasher_subject self.now) ≡ true }
    {
        self.subject
    }

    /// Makes this the current subject.
    ///
    /// The conditions are that it begins with the same primary key, and that it fits, which
    /// [`Subject::fits`] tells.
    pub fn turn_to(&mut self, subject: Subject<'a>)
        requires first { first_key (subject_value subject) ≡ first_key (hasher_subject self.old) }
        requires within { is_within (subject_value subject) ≡ true }
        ensures { hasher_subject self.new ≡ subject_value subject.entry }
    {
        self.sha1.forget_subject();
        self.sha224.forget_subject();
        self.sha256.forget_subject();
        self.sha384.forget_subject();
        self.sha512.forget_subject();
        self.subject = subject;
    }

    /// The digest of a question over the current subject, under its hash algorithm. Allocates
    /// nothing, and compares no octets.
    #[tactic(auto, unfolding(opgp_octets::specs::HashAlgorithm::hash_algorithm_of))]
    pub fn digest(&mut self, question: &Question<'_>) -> Digest
        requires { (question_value question.now).subject ≡ hasher_subject self.old }
        ensures value { result ≡ digest_of (question_value question.now) }
        ensures subject { hasher_subject self.new ≡ hasher_subject self.old }
    {
        if question.version != 4 {
            return digest(question);
        }
        let parts = Parts::of(question);
        match HashAlgorithm::from(question.hash) {
            HashAlgorithm::Sha1 => Digest::Sha1(self.sha1.digest(&parts)),
            HashAlgorithm::Sha256 => Digest::Sha256(self.sha256.digest(&parts)),
            HashAlgorithm::Sha384 => Digest::Sha384(self.sha384.digest(&parts)),
            HashAlgorithm::Sha512 => Digest::Sha512(self.sha512.digest(&parts)),
            _ => Digest::Sha224(self.sha224.digest(&parts)),
        }
    }
}
