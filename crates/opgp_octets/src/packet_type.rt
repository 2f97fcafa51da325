//! The types of packets (RFC 9580, 5).

ghost use Rattle.std.specs.Prelude.{◌≡◌};
ghost use Rattle.opgp_octets.specs.PacketType.{packet_type_of, packet_type_number};
ghost use Rattle.opgp_octets.specs.PacketType.{packet_type_name};

use crate::rows::{by_number, name_of, number_of};

// The table: a number, a variant, a name.
macro_rules! rows {
    ($read:ident, $what:expr) => {
        $read! { $what, PacketType;
            0 Reserved "Reserved";
            1 PublicKeyEncryptedSessionKey "Public Key Encrypted Session Key";
            2 Signature "Signature";
            3 SymmetricKeyEncryptedSessionKey "Symmetric Key Encrypted Session Key";
            4 OnePassSignature "One-Pass Signature";
            5 SecretKey "Secret Key";
            6 PublicKey "Public Key";
            7 SecretSubkey "Secret Subkey";
            8 CompressedData "Compressed Data";
            9 SymmetricallyEncryptedData "Symmetrically Encrypted Data";
            10 Marker "Marker";
            11 LiteralData "Literal Data";
            12 Trust "Trust";
            13 UserId "User ID";
            14 PublicSubkey "Public Subkey";
            17 UserAttribute "User Attribute";
            18 EncryptedIntegrityProtectedData "Symmetrically Encrypted and Integrity Protected Data";
            21 Padding "Padding";
        }
    };
}

/// The type of a packet (RFC 9580, 5).
#[derive(Clone, Copy, PartialEq, Eq)]
pub enum PacketType {
    /// 0: reserved; no packet has it.
    Reserved,
    /// 1: A session key, encrypted to a public key (5.1).
    PublicKeyEncryptedSessionKey,
    /// 2: A signature (5.2).
    Signature,
    /// 3: A session key, encrypted by a passphrase (5.3).
    SymmetricKeyEncryptedSessionKey,
    /// 4: announces a signature that follows the signed data (5.4).
    OnePassSignature,
    /// 5: A secret primary key (5.5.1.3).
    SecretKey,
    /// 6: A public primary key (5.5.1.1).
    PublicKey,
    /// 7: A secret subkey (5.5.1.4).
    SecretSubkey,
    /// 8: compressed packets (5.6).
    CompressedData,
    /// 9: encrypted data without integrity protection (5.7).
    SymmetricallyEncryptedData,
    /// 10: A marker, which is ignored (5.8).
    Marker,
    /// 11: A literal (5.9).
    LiteralData,
    /// 12: trust, kept by an implementation for itself (5.10).
    Trust,
    /// 13: A user ID (5.11).
    UserId,
    /// 14: A public subkey (5.5.1.2).
    PublicSubkey,
    /// 17: A user attribute (5.12).
    UserAttribute,
    /// 18: encrypted data with integrity protection (5.13).
    EncryptedIntegrityProtectedData,
    /// 21: padding, which is ignored (5.14).
    Padding,
    /// Any other number.
    Other(u8),
}

impl From<u8> for PacketType {
    ghost use Rattle.opgp_octets.specs.PacketType.{packet_type_of, packet_type_number};

    ghost from_gives = { λ n t. (t ≡ packet_type_of n) × (packet_type_number t ≡ n) };

    #[tactic(auto, unfolding(crate::specs::PacketType::packet_type_of))]
    fn from(number: u8) -> PacketType {
        rows!(by_number, number)
    }
}

impl PacketType {
    /// Its number.
    pub fn number(self) -> u8
        ensures { result ≡ packet_type_number self }
    {
        rows!(number_of, self)
    }

    /// Its name in the standard; `unknown` for any other number.
    #[tactic(auto, unfolding(crate::specs::PacketType::packet_type_name))]
    pub fn name(self) -> &'static str
        ensures { result.now ≡ packet_type_name self }
    {
        rows!(name_of, self)
    }
}
