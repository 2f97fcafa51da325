//! Keyrings made of others.

ghost use Rattle.std.specs.Prelude.{◌≡◌, ◌++◌, IfOk};
ghost use Rattle.opgp_keyring.specs.Joining.{nth_of};
ghost use Rattle.opgp_keyring.specs.Keyring.{flat};

use crate::keyring::Keyring;
use crate::lead::Lead;
use opgp_octets::OutOfMemory;
use std::alloc::Global;

/// The keyring whose packets are those of the first, followed by those of the second (RFC 9580,
/// 10.1): the second one's lead follows the last packet of the first. No certificate is copied.
///
/// Fails only when out of memory.
pub fn join(first: Keyring, second: Keyring) -> Result<Keyring, OutOfMemory>
    ensures { IfOk result (λ r. flat r ≡ flat first ++ flat second) }
{
    let (fillers, mut more, _) = second.into_parts();
    let (lead, mut certificates, alloc) = follow(first, fillers)?.into_parts();
    certificates.append(&mut more)?;
    Ok(Keyring::new(alloc, lead, certificates))
}

/// The keyring with these fillers after its last packet.
fn follow(ring: Keyring, fillers: Lead) -> Result<Keyring, OutOfMemory>
    ensures { IfOk result (λ r. flat r ≡ flat ring ++ fillers) }
{
    let (mut lead, mut certificates, alloc) = ring.into_parts();
    match certificates.last_mut() {
        Some(last) => {
            last.hang_all(fillers)?;
            Ok(Keyring::new(alloc, lead, certificates))
        }
        None => {
            lead.append(fillers)?;
            Ok(Keyring::new(alloc, lead, certificates))
        }
    }
}

/// The certificate of this number, counted from 0, as a keyring without a lead; None if there is
/// none.
///
/// Fails only when out of memory.
pub fn nth(alloc: Global, ring: &Keyring, n: usize) -> Result<Option<Keyring>, OutOfMemory>
    ensures { IfOk result (λ o. o ≡ nth_of ring.now n) }
{
    match ring.certificates().get(n) {
        None => Ok(None),
        Some(certificate) => {
            let copy = certificate.copy(alloc)?;
            let mut certificates = Vec::new(alloc);
            certificates.push(copy)?;
            Ok(Some(Keyring::new(alloc, Lead::new(alloc), certificates)))
        }
    }
}
