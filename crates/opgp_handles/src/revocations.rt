//! The digests of all revocations of primary keys.

ghost use Rattle.std.specs.Prelude.{◌≡◌, ◌≢◌, ◌↔◌, ◌⊎◌, ◌++◌, ◌<◌, length, map, IfOk, false};
ghost use Rattle.opgp_hash.specs.Digest.{digest_octets};
ghost use Rattle.opgp_tables.specs.Room.{padded};
ghost use Rattle.opgp_handles.specs.Calls.{HoldsTheSame, IsFilled};
ghost use Rattle.opgp_handles.specs.Revocations.{revocation_row, revocation_rows};

use crate::ring::Ring;
use crate::status::{CLOSED, DONE, MEMORY, ROOM};
use opgp_hash::Digest;
use opgp_keyring::Keyring;
use opgp_octets::OutOfMemory;
use opgp_tables::fill;
use opgp_valid::{Revoked, list_revocations};
use std::alloc::Global;

/// A revocation of a primary key, and the digest of what it hashes over that key alone.
#[repr(C)]
#[derive(Clone, Copy)]
pub struct RevocationRow {
    /// The number of its row in the table of jobs.
    pub row: u64,
    /// How many octets its digest has.
    pub digest_size: u8,
    /// The digest, and zeros after it.
    pub digest: [u8; 64],
    /// Zeros.
    pub reserved: [u8; 7],
}

/// The octets of a digest, and zeros after them.
fn digest_padded(digest: Digest) -> [u8; 64]
    ensures { result ≡ padded 64 (digest_octets digest) }
{
    let mut room = [0; 64];
    match digest {
        Digest::Sha1(octets) => {
            room[..20].copy_from_slice(&octets);
            room
        }
        Digest::Sha256(octets) => {
            room[..32].copy_from_slice(&octets);
            room
        }
        Digest::Sha384(octets) => {
            room[..48].copy_from_slice(&octets);
            room
        }
        Digest::Sha512(octets) => octets,
        Digest::Sha224(octets) => {
            room[..28].copy_from_slice(&octets);
            room
        }
    }
}

/// The row of a revocation.
fn revocation_row(revoked: Revoked) -> RevocationRow
    ensures { result ≡ revocation_row revoked }
{
    RevocationRow {
        row: revoked.row as u64,
        digest_size: revoked.digest.octets().len() as u8,
        digest: digest_padded(revoked.digest),
        reserved: [0; 7],
    }
}

/// The rows of revocations. Fails only when out of memory.
fn rows_of(alloc: Global, found: &[Revoked]) -> Result<Vec<RevocationRow>, OutOfMemory>
    ensures { IfOk result (λ v. v.items ≡ map revocation_row found.now) }
{
    let mut rows = Vec::with_capacity(alloc, found.len())?;
    let mut rest = found;
    'found: while let [revoked, more @ ..] = rest {
        rows.push(revocation_row(*revoked))?;
        rest = more;
    }
    Ok(rows)
}

/// The rows of a keyring. Fails only when out of memory.
fn revocation_rows(alloc: Global, keyring: &Keyring) -> Result<Vec<RevocationRow>, OutOfMemory>
    ensures { IfOk result (λ v. v.items ≡ revocation_rows keyring.now) }
{
    let found = list_revocations(alloc, keyring)?;
    let rows = rows_of(alloc, &found)?;
    Ok(rows)
}

/// Puts the revocations of a keyring; the status.
fn put_revocations(
    alloc: Global,
    keyring: &Keyring,
    rows: &mut [RevocationRow],
    size: &mut u64,
) -> u32
    ensures done { result ≡ 0 → IsFilled (revocation_rows keyring.now) rows.old rows.new
        × (size.new ≡ length (revocation_rows keyring.now)) }
    ensures room { result ≡ 2 → (length rows.old < length (revocation_rows keyring.now))
        × (size.new ≡ length (revocation_rows keyring.now)) }
    ensures kept { result ≢ 0 → rows.new ≡ rows.old }
    ensures status { (result ≡ 0) ⊎ ((result ≡ 2) ⊎ (result ≡ 3)) }
{
    let found = match revocation_rows(alloc, keyring) {
        Ok(found) => found,
        Err(_) => return MEMORY,
    };
    *size = found.len() as u64;
    if fill(&found, rows) { DONE } else { ROOM }
}

/// Puts the revocations of primary keys of a keyring, and the digest of what each hashes.
pub fn ring_revocations(
    alloc: Global,
    ring: &mut Ring,
    rows: &mut [RevocationRow],
    size: &mut u64,
) -> u32
    ensures done { result ≡ 0
        → IsFilled (revocation_rows ring.old.slot.held.keyring) rows.old rows.new
        × (size.new ≡ length (revocation_rows ring.old.slot.held.keyring)) }
    ensures room { result ≡ 2
        → (length rows.old < length (revocation_rows ring.old.slot.held.keyring))
        × (size.new ≡ length (revocation_rows ring.old.slot.held.keyring)) }
    ensures kept { result ≢ 0 → rows.new ≡ rows.old }
    ensures closed { (result ≡ 5) ↔ (ring.old.is_open ≡ false) }
    ensures ring { HoldsTheSame ring.old ring.new }
    ensures status { (result ≡ 0) ⊎ ((result ≡ 2) ⊎ ((result ≡ 3) ⊎ (result ≡ 5))) }
{
    let Some(held) = ring.take(alloc) else {
        return CLOSED;
    };
    let status = put_revocations(alloc, &held.keyring, rows, size);
    ring.give(held);
    status
}
