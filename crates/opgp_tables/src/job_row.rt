//! A row of the table of jobs.

ghost use Rattle.std.specs.Prelude.{◌≡◌};
ghost use Rattle.opgp_hash.specs.Digest.{digest_octets};
ghost use Rattle.opgp_tables.specs.Room.{padded};

use opgp_hash::Digest;

/// A signature of a keyring, and what a verifier is asked about it. What its algorithm made is in
/// the table's octets: from `at` its first field, of `sizes[0]` octets, then the second, and then
/// its issuer's name.
#[repr(C)]
#[derive(Clone, Copy)]
pub struct JobRow {
    /// The number of its certificate.
    pub certificate: u64,
    /// The number of the component that it is on; `NONE` for the primary key.
    pub component: u64,
    /// Its number among all packets that follow the key or component, fillers included.
    pub hang: u64,
    /// Its number among the signatures that are embedded in that packet; `NONE` for the packet's
    /// own signature.
    pub nested: u64,
    /// The number, in the table of keys, of the key that it names as its issuer's; `NONE` if the
    /// keyring doesn't have it.
    pub signer: u64,
    /// Where what its algorithm made begins in the octets.
    pub at: u64,
    /// How many octets its fields have; 0 for one that it doesn't have.
    pub sizes: [u64; 2],
    /// When it says it was made, in seconds since 1970: in version 3 its field (RFC 9580, 5.2.2),
    /// else the one time in its hashed area (5.2.3.11); 0 if that has none or several.
    pub created: u32,
    /// 0 if it is hashed; else why not: 1 opaque, 2 kind, 3 misplaced, 4 version, 5 hash.
    pub why: u8,
    /// Its version: 3, 4 or 6; 0 if it isn't parsed.
    pub version: u8,
    /// Its type (RFC 9580, 5.2.1).
    pub kind: u8,
    /// The number of its key algorithm (9.1).
    pub algorithm: u8,
    /// The number of its hash algorithm (9.5).
    pub hash: u8,
    /// The left 16 bits of the signed hash value, as it states them (5.2.3).
    pub left: [u8; 2],
    /// 1 if it is hashed and its digest doesn't begin with them; else 0.
    pub is_bad: u8,
    /// How many octets its digest has; 0 if it isn't hashed.
    pub digest_size: u8,
    /// 1 if it says when it was made; else 0.
    pub is_dated: u8,
    /// How many octets the name of its issuer has: 20 or 32 for a fingerprint, 8 for a key ID, 0 if
    /// it names none. It stands behind what its algorithm made, whether or not the keyring has that
    /// key: the first fingerprint in its hashed area, or else the first key ID, of the hashed area
    /// first (5.2.3.12, 5.2.3.35); in version 3 the key ID in its field (5.2.2).
    pub issuer_size: u8,
    /// The digest of what it hashes, and zeros after it.
    pub digest: [u8; 64],
    /// Zero.
    pub reserved: u8,
}

/// What a row says of a signature's question.
#[derive(Clone, Copy)]
pub(crate) struct Answered {
    pub(crate) why: u8,
    pub(crate) is_bad: u8,
    pub(crate) digest_size: u8,
    pub(crate) digest: [u8; 64],
}

/// The octets of a digest, and zeros after them.
pub(crate) fn digest_padded(digest: Digest) -> [u8; 64]
    ensures { result ≡ padded 64 (digest_octets digest) }
{
    let mut room = [0; 64];
    match digest {
        Digest::Sha1(octets) => {
            room[..20].copy_from_slice(&octets);
            room
        }
        Digest::Sha256(octets) => {
            room[..32].copy_from_slice(&octets);
            room
        }
        Digest::Sha384(octets) => {
            room[..48].copy_from_slice(&octets);
            room
        }
        Digest::Sha512(octets) => octets,
        Digest::Sha224(octets) => {
            room[..28].copy_from_slice(&octets);
            room
        }
    }
}
