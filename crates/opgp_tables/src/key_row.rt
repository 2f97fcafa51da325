//! A row of the table of keys.

ghost use Rattle.std.specs.Prelude.{◌≡◌};
ghost use Rattle.opgp_hash.specs.Fingerprint.{print_octets};
ghost use Rattle.opgp_tables.specs.Room.{padded};

use opgp_hash::Fingerprint;

/// A key of a keyring. The fields of its material are in the table's octets: from `at` the first,
/// of `sizes[0]` octets, then the second, and so on.
#[repr(C)]
#[derive(Clone, Copy)]
pub struct KeyRow {
    /// The number of its certificate.
    pub certificate: u64,
    /// The number of the component that it is; `NONE` for a primary key.
    pub component: u64,
    /// Where its material begins in the octets.
    pub at: u64,
    /// How many octets the fields of its material have; 0 for one that it doesn't have.
    pub sizes: [u64; 4],
    /// The creation time, in seconds since 1970.
    pub created: u32,
    /// The version: 4 or 6.
    pub version: u8,
    /// The number of its algorithm (RFC 9580, 9.1).
    pub algorithm: u8,
    /// How many octets its fingerprint has: 20 or 32.
    pub print_size: u8,
    /// Its fingerprint (5.5.4), and zeros after it.
    pub print: [u8; 32],
    /// Its key ID (5.5.4).
    pub key_id: [u8; 8],
    /// Zeros.
    pub reserved: [u8; 9],
}

/// The number that says that there is none.
pub const NONE: u64 = 18_446_744_073_709_551_615;

/// The octets of a fingerprint, and zeros after them.
pub(crate) fn print_padded(print: Fingerprint) -> [u8; 32]
    ensures { result ≡ padded 32 (print_octets print) }
{
    match print {
        Fingerprint::Four(octets) => {
            let mut room = [0; 32];
            room[..20].copy_from_slice(&octets);
            room
        }
        Fingerprint::Six(octets) => octets,
    }
}
