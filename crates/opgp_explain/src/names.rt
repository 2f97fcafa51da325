//! Names of fields.

ghost use Rattle.std.specs.Prelude.{◌≡◌};
ghost use Rattle.opgp_explain.specs.Meaning.{attribute_name, data_name, key_name, meaning_name};
ghost use Rattle.opgp_explain.specs.Meaning.{signature_name, subkey_name, subpacket_name};
ghost use Rattle.opgp_explain.specs.Meaning.{trailer_name, user_id_name};

use crate::meaning::{BodyPart, KeyPart, Meaning, Role, SignaturePart, SubpacketPart, TrailerPart};
use opgp_octets::SubpacketKind;

impl Meaning {
    /// Its name: words of the standard in lower case, with hyphens between them.
    pub fn name(self) -> &'static str
        ensures { result.now ≡ meaning_name self }
    {
        match self {
            Meaning::Salt => "salt",
            Meaning::Key(Role::Primary, part) => key_name(part),
            Meaning::Key(Role::Subkey, part) => subkey_name(part),
            Meaning::UserId(part) => user_id_name(part),
            Meaning::Attribute(part) => attribute_name(part),
            Meaning::Content => "content",
            Meaning::Signature(part) => signature_name(part),
            Meaning::Subpacket(part) => subpacket_name(part),
            Meaning::Area => "hashed-area",
            Meaning::Trailer(part) => trailer_name(part),
        }
    }
}

fn key_name(part: KeyPart) -> &'static str
    ensures { result.now ≡ key_name part }
{
    match part {
        KeyPart::Prefix => "primary-key-prefix",
        KeyPart::Length => "primary-key-length",
        KeyPart::Version => "primary-key-version",
        KeyPart::Created => "primary-key-creation-time",
        KeyPart::Algorithm => "primary-key-algorithm",
        KeyPart::MaterialLength => "primary-key-material-length",
        KeyPart::Material => "primary-key-material",
    }
}

fn subkey_name(part: KeyPart) -> &'static str
    ensures { result.now ≡ subkey_name part }
{
    match part {
        KeyPart::Prefix => "subkey-prefix",
        KeyPart::Length => "subkey-length",
        KeyPart::Version => "subkey-version",
        KeyPart::Created => "subkey-creation-time",
        KeyPart::Algorithm => "subkey-algorithm",
        KeyPart::MaterialLength => "subkey-material-length",
        KeyPart::Material => "subkey-material",
    }
}

fn user_id_name(part: BodyPart) -> &'static str
    ensures { result.now ≡ user_id_name part }
{
    match part {
        BodyPart::Prefix => "user-id-prefix",
        BodyPart::Length => "user-id-length",
        BodyPart::Body => "user-id",
    }
}

fn attribute_name(part: BodyPart) -> &'static str
    ensures { result.now ≡ attribute_name part }
{
    match part {
        BodyPart::Prefix => "user-attribute-prefix",
        BodyPart::Length => "user-attribute-length",
        BodyPart::Body => "user-attribute",
    }
}

fn signature_name(part: SignaturePart) -> &'static str
    ensures { result.now ≡ signature_name part }
{
    match part {
        SignaturePart::Version => "signature-version",
        SignaturePart::Type => "signature-type",
        SignaturePart::KeyAlgorithm => "key-algorithm",
        SignaturePart::HashAlgorithm => "hash-algorithm",
        SignaturePart::AreaLength => "hashed-area-length",
    }
}

fn subpacket_name(part: SubpacketPart) -> &'static str
    ensures { result.now ≡ subpacket_name part }
{
    match part {
        SubpacketPart::Length => "subpacket-length",
        SubpacketPart::Type => "subpacket-type",
        SubpacketPart::Data(kind) => data_name(kind),
    }
}

fn trailer_name(part: TrailerPart) -> &'static str
    ensures { result.now ≡ trailer_name part }
{
    match part {
        TrailerPart::Version => "trailer-version",
        TrailerPart::Marker => "trailer-marker",
        TrailerPart::Length => "trailer-length",
    }
}

fn data_name(kind: SubpacketKind) -> &'static str
    ensures { result.now ≡ data_name kind }
{
    match kind {
        SubpacketKind::Created => "signature-creation-time",
        SubpacketKind::Expires => "signature-expiration-time",
        SubpacketKind::Exportable => "exportable-certification",
        SubpacketKind::Trust => "trust-signature",
        SubpacketKind::RegularExpression => "regular-expression",
        SubpacketKind::Revocable => "revocable",
        SubpacketKind::KeyExpires => "key-expiration-time",
        SubpacketKind::PreferredSymmetric => "preferred-symmetric-ciphers",
        SubpacketKind::RevocationKey => "revocation-key",
        SubpacketKind::Issuer => "issuer-key-id",
        SubpacketKind::Notation => "notation-data",
        SubpacketKind::PreferredHash => "preferred-hash-algorithms",
        SubpacketKind::PreferredCompression => "preferred-compression-algorithms",
        SubpacketKind::KeyServerPreferences => "key-server-preferences",
        SubpacketKind::PreferredKeyServer => "preferred-key-server",
        SubpacketKind::PrimaryUserId => "primary-user-id",
        SubpacketKind::PolicyUri => "policy-uri",
        SubpacketKind::KeyFlags => "key-flags",
        SubpacketKind::SignersUserId => "signers-user-id",
        SubpacketKind::RevocationReason => "reason-for-revocation",
        SubpacketKind::Features => "features",
        SubpacketKind::SignatureTarget => "signature-target",
        SubpacketKind::EmbeddedSignature => "embedded-signature",
        SubpacketKind::IssuerFingerprint => "issuer-fingerprint",
        SubpacketKind::IntendedRecipient => "intended-recipient-fingerprint",
        SubpacketKind::PreferredAead => "preferred-aead-ciphersuites",
        SubpacketKind::Other(_) => "other-subpacket",
    }
}
