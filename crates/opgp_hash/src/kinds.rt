//! Which types of signatures are made over what, and which hash algorithms are supported.

ghost use Rattle.std.specs.Prelude.{◌≡◌};
ghost use Rattle.opgp_hash.specs.Asking.{is_kind, is_one};
ghost use Rattle.opgp_hash.specs.QuestionValue.{is_hash};
ghost use Rattle.opgp_hash.specs.Site.{is_asked_at};
ghost use Rattle.opgp_hash.specs.Subject.{subject_value};
ghost use Rattle.opgp_hash.specs.SubjectValue.{is_on_content, is_certification, is_on_key};
ghost use Rattle.opgp_hash.specs.SubjectValue.{is_on_subkey, is_about, are_keys_of};

use crate::bodies::version_in;
use crate::site::Site;
use crate::subject::Subject;
use opgp_octets::{HashAlgorithm, SignatureType};

/// Whether signatures of this type are made over a document (RFC 9580, 5.2.1.1).
#[tactic(auto, unfolding(opgp_octets::specs::SignatureType::signature_type_of))]
pub(crate) fn is_on_content(kind: u8) -> bool
    ensures { result ≡ is_on_content kind }
{
    matches!(SignatureType::from(kind), SignatureType::Binary)
}

/// Whether they are made over a key and a user ID or user attribute (RFC 9580, 5.2.1.4 to 5.2.1.7,
/// 5.2.1.13).
#[tactic(auto, unfolding(opgp_octets::specs::SignatureType::signature_type_of))]
pub(crate) fn is_certification(kind: u8) -> bool
    ensures { result ≡ is_certification kind }
{
    matches!(
        SignatureType::from(kind),
        SignatureType::GenericCertification
            | SignatureType::PersonaCertification
            | SignatureType::CasualCertification
            | SignatureType::PositiveCertification
            | SignatureType::CertificationRevocation
    )
}

/// Whether they are made over a key alone (RFC 9580, 5.2.1.10, 5.2.1.11).
#[tactic(auto, unfolding(opgp_octets::specs::SignatureType::signature_type_of))]
pub(crate) fn is_on_key(kind: u8) -> bool
    ensures { result ≡ is_on_key kind }
{
    matches!(
        SignatureType::from(kind),
        SignatureType::DirectKey | SignatureType::KeyRevocation
    )
}

/// Whether they are made over a primary key and a subkey (RFC 9580, 5.2.1.8, 5.2.1.9, 5.2.1.12).
#[tactic(auto, unfolding(opgp_octets::specs::SignatureType::signature_type_of))]
pub(crate) fn is_on_subkey(kind: u8) -> bool
    ensures { result ≡ is_on_subkey kind }
{
    matches!(
        SignatureType::from(kind),
        SignatureType::SubkeyBinding
            | SignatureType::PrimaryKeyBinding
            | SignatureType::SubkeyRevocation
    )
}

/// Whether they are made over anything that this crate hashes.
pub(crate) fn is_kind(kind: u8) -> bool
    ensures { result ≡ is_kind kind }
{
    is_on_content(kind) || is_on_key(kind) || is_on_subkey(kind) || is_certification(kind)
}

/// Whether they are made over a subject of this sort.
pub(crate) fn is_about(kind: u8, subject: &Subject<'_>) -> bool
    ensures { result ≡ is_about kind (subject_value subject.now) }
{
    match subject {
        Subject::Binary(_) => is_on_content(kind),
        Subject::One(_) => is_on_key(kind),
        Subject::Two(_, _) => is_on_subkey(kind),
        Subject::OnUserId(_, _) | Subject::OnAttribute(_, _) => is_certification(kind),
    }
}

/// Whether they are made over a subject of this sort and belong at this site.
pub(crate) fn is_asked_at(site: Site, kind: u8, subject: &Subject<'_>) -> bool
    ensures { result ≡ is_asked_at site kind (subject_value subject.now) }
{
    let embeds = kind == SignatureType::PrimaryKeyBinding.number();
    match site {
        Site::Hung => is_about(kind, subject) && !embeds,
        Site::Embedded => is_about(kind, subject) && embeds,
    }
}

/// Whether the subject is a key alone.
pub(crate) fn is_one(subject: &Subject<'_>) -> bool
    ensures { result ≡ is_one (subject_value subject.now) }
{
    matches!(subject, Subject::One(_))
}

/// Whether the subject's keys have this version.
pub(crate) fn are_keys_of(version: u8, subject: &Subject<'_>) -> bool
    ensures { result ≡ are_keys_of version (subject_value subject.now) }
{
    match subject {
        Subject::Binary(_) => true,
        Subject::One(key) => version_in(key) == version,
        Subject::Two(primary, subkey) => {
            version_in(primary) == version && version_in(subkey) == version
        }
        Subject::OnUserId(primary, _) | Subject::OnAttribute(primary, _) => {
            version_in(primary) == version
        }
    }
}

/// Whether the hash algorithm of this number is supported, in a signature of this version.
#[tactic(auto, unfolding(opgp_octets::specs::HashAlgorithm::hash_algorithm_of))]
pub(crate) fn is_hash(version: u8, hash: u8) -> bool
    ensures { result ≡ is_hash version hash }
{
    match HashAlgorithm::from(hash) {
        HashAlgorithm::Sha256
        | HashAlgorithm::Sha384
        | HashAlgorithm::Sha512
        | HashAlgorithm::Sha224 => true,
        HashAlgorithm::Sha1 => version == 4,
        _ => false,
    }
}
