//! The kinds of subpackets of a signature (RFC 9580, 5.2.3.7).

ghost use Rattle.std.specs.Prelude.{◌≡◌};
ghost use Rattle.opgp_octets.specs.SubpacketKind.{subpacket_kind_of, subpacket_kind_number};
ghost use Rattle.opgp_octets.specs.SubpacketKind.{subpacket_kind_name};

use crate::rows::{by_number, name_of, number_of};

// The table: a number, a variant, a name.
macro_rules! rows {
    ($read:ident, $what:expr) => {
        $read! { $what, SubpacketKind;
            2 Created "Signature Creation Time";
            3 Expires "Signature Expiration Time";
            4 Exportable "Exportable Certification";
            5 Trust "Trust Signature";
            6 RegularExpression "Regular Expression";
            7 Revocable "Revocable";
            9 KeyExpires "Key Expiration Time";
            11 PreferredSymmetric "Preferred Symmetric Ciphers for v1 SEIPD";
            12 RevocationKey "Revocation Key";
            16 Issuer "Issuer Key ID";
            20 Notation "Notation Data";
            21 PreferredHash "Preferred Hash Algorithms";
            22 PreferredCompression "Preferred Compression Algorithms";
            23 KeyServerPreferences "Key Server Preferences";
            24 PreferredKeyServer "Preferred Key Server";
            25 PrimaryUserId "Primary User ID";
            26 PolicyUri "Policy URI";
            27 KeyFlags "Key Flags";
            28 SignersUserId "Signer's User ID";
            29 RevocationReason "Reason for Revocation";
            30 Features "Features";
            31 SignatureTarget "Signature Target";
            32 EmbeddedSignature "Embedded Signature";
            33 IssuerFingerprint "Issuer Fingerprint";
            35 IntendedRecipient "Intended Recipient Fingerprint";
            39 PreferredAead "Preferred AEAD Ciphersuites";
        }
    };
}

/// The kind of a signature's subpacket (RFC 9580, 5.2.3.7).
#[derive(Clone, Copy, PartialEq, Eq)]
pub enum SubpacketKind {
    /// 2: when the signature was made (5.2.3.11).
    Created,
    /// 3: when it expires (5.2.3.18).
    Expires,
    /// 4: whether it is exportable (5.2.3.19).
    Exportable,
    /// 5: a trust signature (5.2.3.21).
    Trust,
    /// 6: limits the scope of a trust signature (5.2.3.22).
    RegularExpression,
    /// 7: whether it is revocable (5.2.3.20).
    Revocable,
    /// 9: when the key expires (5.2.3.13).
    KeyExpires,
    /// 11: symmetric algorithms (5.2.3.14).
    PreferredSymmetric,
    /// 12: who may revoke the key (5.2.3.23).
    RevocationKey,
    /// 16: the issuer's key ID (5.2.3.12).
    Issuer,
    /// 20: a notation (5.2.3.24).
    Notation,
    /// 21: hash algorithms (5.2.3.16).
    PreferredHash,
    /// 22: compression algorithms (5.2.3.17).
    PreferredCompression,
    /// 23: flags for key servers (5.2.3.25).
    KeyServerPreferences,
    /// 24: where updates of the key are (5.2.3.26).
    PreferredKeyServer,
    /// 25: whether the user ID is the main one (5.2.3.27).
    PrimaryUserId,
    /// 26: where the signature's policy is (5.2.3.28).
    PolicyUri,
    /// 27: what the key is for (5.2.3.29).
    KeyFlags,
    /// 28: the signer's user ID (5.2.3.30).
    SignersUserId,
    /// 29: why a key or certification was revoked (5.2.3.31).
    RevocationReason,
    /// 30: features that are supported (5.2.3.32).
    Features,
    /// 31: the signature that this one refers to (5.2.3.33).
    SignatureTarget,
    /// 32: another signature (5.2.3.34).
    EmbeddedSignature,
    /// 33: the issuer's fingerprint (5.2.3.35).
    IssuerFingerprint,
    /// 35: the fingerprint of an intended recipient (5.2.3.36).
    IntendedRecipient,
    /// 39: AEAD ciphersuites (5.2.3.15).
    PreferredAead,
    /// Any other number.
    Other(u8),
}

impl From<u8> for SubpacketKind {
    ghost use Rattle.opgp_octets.specs.SubpacketKind.{subpacket_kind_of, subpacket_kind_number};

    ghost from_gives = { λ n t. (t ≡ subpacket_kind_of n) × (subpacket_kind_number t ≡ n) };

    #[tactic(auto, unfolding(crate::specs::SubpacketKind::subpacket_kind_of))]
    fn from(number: u8) -> SubpacketKind {
        rows!(by_number, number)
    }
}

impl SubpacketKind {
    /// Its number.
    pub fn number(self) -> u8
        ensures { result ≡ subpacket_kind_number self }
    {
        rows!(number_of, self)
    }

    /// Its name in the standard; `unknown` for any other number.
    #[tactic(auto, unfolding(crate::specs::SubpacketKind::subpacket_kind_name))]
    pub fn name(self) -> &'static str
        ensures { result.now ≡ subpacket_kind_name self }
    {
        rows!(name_of, self)
    }
}
