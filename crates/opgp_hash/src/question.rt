//! What a signature hashes, and what for.

ghost use Rattle.std.specs.Prelude.{◌≡◌, ◌≤◌, length, true};
ghost use Rattle.opgp_hash.specs.QuestionValue.{is_version, is_hash, salt_amount, area_most};
ghost use Rattle.opgp_hash.specs.Subject.{subject_value};
ghost use Rattle.opgp_hash.specs.SubjectValue.{is_about, are_keys_of, is_within};

use crate::bodies::are_octets;
use crate::subject::Subject;

/// The data that a signature hashes (RFC 9580, 5.2.4): the subject that it is made over, and the
/// fields of the signature itself that are hashed.
#[derive(Clone, Copy)]
pub struct Question<'a> {
    pub(crate) version: u8,
    pub(crate) salt: &'a [u8],
    pub(crate) subject: Subject<'a>,
    pub(crate) kind: u8,
    pub(crate) algorithm: u8,
    pub(crate) hash: u8,
    pub(crate) area: &'a [u8],
    ghost version_known: { is_version version ≡ true },
    ghost hash_known: { is_hash version hash ≡ true },
    ghost salt_size: { length salt.now ≡ salt_amount version hash },
    ghost about: { is_about kind (subject_value subject) ≡ true },
    ghost keys: { are_keys_of version (subject_value subject) ≡ true },
    ghost within: { is_within (subject_value subject) ≡ true },
    ghost room: { length area.now ≤ area_most version },
}

impl<'a> Question<'a> {
    ghost use Rattle.opgp_hash.specs.Question.{question_value};
    ghost use Rattle.opgp_hash.specs.QuestionValue.{IsQuestion};

    /// The version of the signature and of the keys: 4 or 6.
    pub fn version(&self) -> u8
        ensures { result ≡ (question_value self.now).version }
    {
        self.version
    }

    /// The salt; version 4 has none.
    pub fn salt(&self) -> &'a [u8]
        ensures { result.now ≡ (question_value self.now).salt }
    {
        self.salt
    }

    /// The subject that the signature is made over.
    pub fn subject(&self) -> Subject<'a>
        ensures value { subject_value result ≡ (question_value self.now).subject }
        // The parts of every question fit together.
        ensures question { IsQuestion (question_value self.now) }
    {
        self.stands();
        self.subject
    }

    /// The signature's type (RFC 9580, 5.2.1).
    pub fn kind(&self) -> u8
        ensures { result ≡ (question_value self.now).kind }
    {
        self.kind
    }

    /// The number of the signature's key algorithm (RFC 9580, 9.1).
    pub fn algorithm(&self) -> u8
        ensures { result ≡ (question_value self.now).algorithm }
    {
        self.algorithm
    }

    /// The number of the signature's hash algorithm (RFC 9580, 9.5).
    pub fn hash(&self) -> u8
        ensures { result ≡ (question_value self.now).hash }
    {
        self.hash
    }

    /// The octets of the signature's hashed area, without its length.
    pub fn hashed_area(&self) -> &'a [u8]
        ensures { result.now ≡ (question_value self.now).area }
    {
        self.area
    }

    /// A fact for proofs: its keys have its version, and its parts fit together.
    pub(crate) fn stands(&self)
        ensures { IsQuestion (question_value self.now) }
    {
        are_octets(self.salt);
        are_octets(self.area);
        // Called for its contract: its number is that of a hash algorithm.
        let _algorithm = self.algorithm();
        self.subject.stands(self.version);
    }
}
