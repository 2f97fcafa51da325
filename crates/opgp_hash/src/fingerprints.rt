//! Fingerprints and key IDs.

ghost use Rattle.std.specs.Prelude.{◌≡◌, length, Some};
ghost use Rattle.std.specs.Fmt.{padded};
ghost use Rattle.hex.specs.Hex.{encode_upper};
ghost use Rattle.opgp_hash.specs.Fingerprint.{print_octets};

use opgp_octets::write_hexadecimal;
use std::fmt;

/// The fingerprint of a key (RFC 9580, 5.5.4).
#[derive(Clone, Copy, Debug, PartialEq, Eq)]
pub enum Fingerprint {
    /// Of a version 4 key, by SHA-1.
    Four([u8; 20]),
    /// Of a version 6 key, by SHA2-256.
    Six([u8; 32]),
}

/// The key ID of a key: 8 octets of its fingerprint (RFC 9580, 5.5.4).
#[derive(Clone, Copy, Debug, PartialEq, Eq)]
pub struct KeyId(pub [u8; 8]);

impl Fingerprint {
    ghost use Rattle.opgp_hash.specs.Fingerprint.{print_version, print_size};
    ghost use Rattle.opgp_hash.specs.KeyId.{id_of};

    /// Its octets: 20 in version 4, 32 in version 6.
    pub fn octets(&self) -> &[u8]
        ensures value { result.now ≡ print_octets self.now }
        ensures size { length result.now ≡ print_size self.now }
    {
        match self {
            Fingerprint::Four(octets) => octets,
            Fingerprint::Six(octets) => octets,
        }
    }

    /// The version of the key: 4 or 6.
    pub fn version(&self) -> u8
        ensures { result ≡ print_version self.now }
    {
        match self {
            Fingerprint::Four(_) => 4,
            Fingerprint::Six(_) => 6,
        }
    }

    /// The key ID of the key that has this fingerprint: the last 8 octets in version 4, the first 8
    /// in version 6.
    pub fn key_id(&self) -> KeyId
        ensures { result.0 ≡ id_of self.now }
    {
        let mut id = [0; 8];
        match self {
            Fingerprint::Four(octets) => id.copy_from_slice(&octets[12..]),
            Fingerprint::Six(octets) => id.copy_from_slice(&octets[..8]),
        }
        KeyId(id)
    }

    /// Writes its hexadecimal digits, as `Display` does, into the buffer, and returns them as text.
    pub fn write_digits<'b>(&self, room: &'b mut [u8; 64]) -> &'b str
        ensures { result.now ≡ encode_upper (print_octets self.now) }
    {
        match self {
            Fingerprint::Four(octets) => write_hexadecimal(octets, &mut room[..40]),
            Fingerprint::Six(octets) => write_hexadecimal(octets, room),
        }
    }
}

/// Its octets in upper-case hexadecimal: 40 digits in version 4, 64 in version 6.
impl fmt::Display for Fingerprint {
    ghost output = { λ print. Some (encode_upper (print_octets print)) };

    ghost styled_output = { λ print spec. Some (padded spec (encode_upper (print_octets print))) };

    fn fmt<W: fmt::Write>(&self, f: &mut fmt::Formatter<W>) -> fmt::Result {
        f.pad(self.write_digits(&mut [0; 64]))
    }
}

impl KeyId {
    /// Writes its hexadecimal digits, as `Display` does, into the buffer, and returns them as text.
    pub fn write_digits<'b>(&self, room: &'b mut [u8; 16]) -> &'b str
        ensures { result.now ≡ encode_upper self.now.0 }
    {
        write_hexadecimal(&self.0, room)
    }
}

/// Its octets in upper-case hexadecimal: 16 digits.
impl fmt::Display for KeyId {
    ghost output = { λ id. Some (encode_upper id.0) };

    ghost styled_output = { λ id spec. Some (padded spec (encode_upper id.0)) };

    fn fmt<W: fmt::Write>(&self, f: &mut fmt::Formatter<W>) -> fmt::Result {
        f.pad(self.write_digits(&mut [0; 16]))
    }
}
