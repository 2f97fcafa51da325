//! Digests of five lengths.

ghost use Rattle.std.specs.Prelude.{◌≡◌, length, Some};
ghost use Rattle.std.specs.Fmt.{padded};
ghost use Rattle.hex.specs.Hex.{encode_upper};
ghost use Rattle.opgp_hash.specs.Digest.{digest_octets};

use opgp_octets::write_hexadecimal;
use std::fmt;

/// A digest under one of the five hash algorithms that are supported (RFC 9580, 9.5).
#[derive(Clone, Copy, PartialEq, Eq)]
pub enum Digest {
    /// By SHA-1.
    Sha1([u8; 20]),
    /// By SHA2-256.
    Sha256([u8; 32]),
    /// By SHA2-384.
    Sha384([u8; 48]),
    /// By SHA2-512.
    Sha512([u8; 64]),
    /// By SHA2-224.
    Sha224([u8; 28]),
}

impl Digest {
    ghost use Rattle.opgp_hash.specs.Digest.{digest_size};

    /// Its octets: 20, 32, 48, 64 or 28.
    pub fn octets(&self) -> &[u8]
        ensures value { result.now ≡ digest_octets self.now }
        ensures size { length result.now ≡ digest_size self.now }
    {
        match self {
            Digest::Sha1(octets) => octets,
            Digest::Sha256(octets) => octets,
            Digest::Sha384(octets) => octets,
            Digest::Sha512(octets) => octets,
            Digest::Sha224(octets) => octets,
        }
    }

    /// Writes its hexadecimal digits, as `Display` does, into the buffer, and returns them as text.
    pub fn write_digits<'b>(&self, room: &'b mut [u8; 128]) -> &'b str
        ensures { result.now ≡ encode_upper (digest_octets self.now) }
    {
        let octets = self.octets();
        write_hexadecimal(octets, &mut room[..2 * octets.len()])
    }
}

/// Its octets in upper-case hexadecimal, two digits an octet.
impl fmt::Display for Digest {
    ghost output = { λ d. Some (encode_upper (digest_octets d)) };

    ghost styled_output = { λ d spec. Some (padded spec (encode_upper (digest_octets d))) };

    fn fmt<W: fmt::Write>(&self, f: &mut fmt::Formatter<W>) -> fmt::Result {
        f.pad(self.write_digits(&mut [0; 128]))
    }
}
