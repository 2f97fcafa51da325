//! What all revocations of primary keys hash, by one walk.

ghost use Rattle.std.specs.Prelude.{◌≡◌, IfOk};
ghost use Rattle.opgp_valid.specs.Listing.{ListsRevocations, revocations_in};

use crate::revocation::revocation_of;
use opgp_hash::{CertificateHasher, Digest, digest};
use opgp_keyring::Keyring;
use opgp_octets::OutOfMemory;
use opgp_report::{Met, Visitor, visit};
use std::alloc::{AllocError, Global};

/// A revocation of a primary key, and the digest of what it hashes over that key alone.
#[derive(Clone, Copy)]
pub struct Revoked {
    /// Its row in the keyring's report, counted from 0.
    pub row: usize,
    /// The digest.
    pub digest: Digest,
}

/// Adds the revocations of primary keys.
#[derive(Drop)]
struct Lister {
    row: usize,
    found: Vec<Revoked>,
}

impl<'a> Visitor<'a> for Lister {
    type Stop = OutOfMemory;

    ghost becomes = { ListsRevocations };

    fn meet(
        &mut self,
        hasher: &mut CertificateHasher<'a>,
        met: &Met<'a>,
    ) -> Result<(), OutOfMemory> {
        let row = self.row;
        if row == usize::MAX {
            return Err(AllocError);
        }
        self.row = row + 1;
        if let Some(question) = revocation_of(hasher, met) {
            self.found.push(Revoked {
                row,
                digest: digest(&question),
            })?;
        }
        Ok(())
    }
}

/// The revocations of primary keys in a keyring's report, in order, and the digest of what each
/// hashes: that key alone, wherever in the certificate the revocation is (RFC 9580, 5.2.1.11,
/// 5.2.4). Hashes each at most once. Fails only when out of memory.
pub fn list_revocations(alloc: Global, keyring: &Keyring) -> Result<Vec<Revoked>, OutOfMemory>
    ensures { IfOk result (λ v. v.items ≡ revocations_in keyring.now) }
{
    let mut lister = Lister {
        row: 0,
        found: Vec::new(alloc),
    };
    visit(&mut lister, keyring)?;
    let Lister { found, .. } = lister;
    Ok(found)
}
