//! The types of signatures (RFC 9580, 5.2.1).

ghost use Rattle.std.specs.Prelude.{◌≡◌};
ghost use Rattle.opgp_octets.specs.SignatureType.{signature_type_of, signature_type_number};
ghost use Rattle.opgp_octets.specs.SignatureType.{signature_type_name};

use crate::rows::{by_number, name_of, number_of};

// The table: a number, a variant, a name.
macro_rules! rows {
    ($read:ident, $what:expr) => {
        $read! { $what, SignatureType;
            0 Binary "Binary Signature";
            1 Text "Text Signature";
            2 Standalone "Standalone Signature";
            16 GenericCertification "Generic Certification Signature";
            17 PersonaCertification "Persona Certification Signature";
            18 CasualCertification "Casual Certification Signature";
            19 PositiveCertification "Positive Certification Signature";
            24 SubkeyBinding "Subkey Binding Signature";
            25 PrimaryKeyBinding "Primary Key Binding Signature";
            31 DirectKey "Direct Key Signature";
            32 KeyRevocation "Key Revocation Signature";
            40 SubkeyRevocation "Subkey Revocation Signature";
            48 CertificationRevocation "Certification Revocation Signature";
            64 Timestamp "Timestamp Signature";
            80 ThirdPartyConfirmation "Third-Party Confirmation Signature";
        }
    };
}

/// The type of a signature (RFC 9580, 5.2.1).
#[derive(Clone, Copy, PartialEq, Eq)]
pub enum SignatureType {
    /// 0x00: over a document (5.2.1.1).
    Binary,
    /// 0x01: over a text, its line ends canonical (5.2.1.2).
    Text,
    /// 0x02: over its own subpackets alone (5.2.1.3).
    Standalone,
    /// 0x10: A certification that says nothing of how it was checked (5.2.1.4).
    GenericCertification,
    /// 0x11: A certification without a check (5.2.1.5).
    PersonaCertification,
    /// 0x12: A certification after a casual check (5.2.1.6).
    CasualCertification,
    /// 0x13: A certification after a thorough check (5.2.1.7).
    PositiveCertification,
    /// 0x18: a primary key binds its subkey (5.2.1.8).
    SubkeyBinding,
    /// 0x19: a signing subkey binds its primary key (5.2.1.9).
    PrimaryKeyBinding,
    /// 0x1F: over a key (5.2.1.10).
    DirectKey,
    /// 0x20: the revocation of a key (5.2.1.11).
    KeyRevocation,
    /// 0x28: the revocation of a subkey (5.2.1.12).
    SubkeyRevocation,
    /// 0x30: the revocation of a certification (5.2.1.13).
    CertificationRevocation,
    /// 0x40: over its own subpackets, for its time (5.2.1.14).
    Timestamp,
    /// 0x50: over another signature (5.2.1.15).
    ThirdPartyConfirmation,
    /// Any other number.
    Other(u8),
}

impl From<u8> for SignatureType {
    ghost use Rattle.opgp_octets.specs.SignatureType.{signature_type_of, signature_type_number};

    ghost from_gives = { λ n t. (t ≡ signature_type_of n) × (signature_type_number t ≡ n) };

    #[tactic(auto, unfolding(crate::specs::SignatureType::signature_type_of))]
    fn from(number: u8) -> SignatureType {
        rows!(by_number, number)
    }
}

impl SignatureType {
    /// Its number.
    pub fn number(self) -> u8
        ensures { result ≡ signature_type_number self }
    {
        rows!(number_of, self)
    }

    /// Its name in the standard; `unknown` for any other number.
    #[tactic(auto, unfolding(crate::specs::SignatureType::signature_type_name))]
    pub fn name(self) -> &'static str
        ensures { result.now ≡ signature_type_name self }
    {
        rows!(name_of, self)
    }
}
