//! Where the standard says what a field is.

ghost use Rattle.std.specs.Prelude.{◌≡◌};
ghost use Rattle.opgp_explain.specs.Sections.{attribute_section, data_section, key_section};
ghost use Rattle.opgp_explain.specs.Sections.{meaning_section, signature_section};
ghost use Rattle.opgp_explain.specs.Sections.{subpacket_section, user_id_section};

use crate::meaning::{BodyPart, KeyPart, Meaning, SignaturePart, SubpacketPart};
use opgp_octets::SubpacketKind;

impl Meaning {
    /// The section of RFC 9580 that says what it is, such as `5.2.4`.
    pub fn section(self) -> &'static str
        ensures { result.now ≡ meaning_section self }
    {
        match self {
            Meaning::Salt | Meaning::Content | Meaning::Trailer(_) => "5.2.4",
            Meaning::Key(_, part) => key_section(part),
            Meaning::UserId(part) => user_id_section(part),
            Meaning::Attribute(part) => attribute_section(part),
            Meaning::Signature(part) => signature_section(part),
            Meaning::Subpacket(part) => subpacket_section(part),
            Meaning::Area => "5.2.3",
        }
    }
}

fn key_section(part: KeyPart) -> &'static str
    ensures { result.now ≡ key_section part }
{
    match part {
        KeyPart::Prefix | KeyPart::Length => "5.2.4",
        KeyPart::Version | KeyPart::Created => "5.5.2",
        KeyPart::Algorithm => "9.1",
        KeyPart::MaterialLength => "5.5.2.3",
        KeyPart::Material => "5.5.5",
    }
}

fn user_id_section(part: BodyPart) -> &'static str
    ensures { result.now ≡ user_id_section part }
{
    match part {
        BodyPart::Prefix | BodyPart::Length => "5.2.4",
        BodyPart::Body => "5.11",
    }
}

fn attribute_section(part: BodyPart) -> &'static str
    ensures { result.now ≡ attribute_section part }
{
    match part {
        BodyPart::Prefix | BodyPart::Length => "5.2.4",
        BodyPart::Body => "5.12",
    }
}

fn signature_section(part: SignaturePart) -> &'static str
    ensures { result.now ≡ signature_section part }
{
    match part {
        SignaturePart::Version | SignaturePart::AreaLength => "5.2.3",
        SignaturePart::Type => "5.2.1",
        SignaturePart::KeyAlgorithm => "9.1",
        SignaturePart::HashAlgorithm => "9.5",
    }
}

fn subpacket_section(part: SubpacketPart) -> &'static str
    ensures { result.now ≡ subpacket_section part }
{
    match part {
        SubpacketPart::Length | SubpacketPart::Type => "5.2.3.7",
        SubpacketPart::Data(kind) => data_section(kind),
    }
}

fn data_section(kind: SubpacketKind) -> &'static str
    ensures { result.now ≡ data_section kind }
{
    match kind {
        SubpacketKind::Created => "5.2.3.11",
        SubpacketKind::Issuer => "5.2.3.12",
        SubpacketKind::KeyExpires => "5.2.3.13",
        SubpacketKind::PreferredSymmetric => "5.2.3.14",
        SubpacketKind::PreferredAead => "5.2.3.15",
        SubpacketKind::PreferredHash => "5.2.3.16",
        SubpacketKind::PreferredCompression => "5.2.3.17",
        SubpacketKind::Expires => "5.2.3.18",
        SubpacketKind::Exportable => "5.2.3.19",
        SubpacketKind::Revocable => "5.2.3.20",
        SubpacketKind::Trust => "5.2.3.21",
        SubpacketKind::RegularExpression => "5.2.3.22",
        SubpacketKind::RevocationKey => "5.2.3.23",
        SubpacketKind::Notation => "5.2.3.24",
        SubpacketKind::KeyServerPreferences => "5.2.3.25",
        SubpacketKind::PreferredKeyServer => "5.2.3.26",
        SubpacketKind::PrimaryUserId => "5.2.3.27",
        SubpacketKind::PolicyUri => "5.2.3.28",
        SubpacketKind::KeyFlags => "5.2.3.29",
        SubpacketKind::SignersUserId => "5.2.3.30",
        SubpacketKind::RevocationReason => "5.2.3.31",
        SubpacketKind::Features => "5.2.3.32",
        SubpacketKind::SignatureTarget => "5.2.3.33",
        SubpacketKind::EmbeddedSignature => "5.2.3.34",
        SubpacketKind::IssuerFingerprint => "5.2.3.35",
        SubpacketKind::IntendedRecipient => "5.2.3.36",
        SubpacketKind::Other(_) => "5.2.3.7",
    }
}
