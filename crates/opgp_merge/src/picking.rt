//! Picking certificates.

ghost use Rattle.std.specs.Prelude.{◌≡◌, IfOk};
ghost use Rattle.opgp_merge.specs.Picked.{is_picked, picked_keyring};

use opgp_keyring::Keyring;
use opgp_octets::OutOfMemory;
use std::alloc::Global;

/// The keyring of the certificates that are picked, in their order: the one of number n, counted
/// from 0, if `picked` has a number other than 0 in place n. What precedes the first certificate is
/// left out.
///
/// What is picked is copied. Fails only when out of memory.
pub fn pick(alloc: Global, ring: &Keyring, picked: &[u8]) -> Result<Keyring, OutOfMemory>
    ensures { IfOk result (λ r. r ≡ picked_keyring picked.now ring.now) }
{
    let (lead, mut certificates, alloc) = Keyring::empty(alloc).into_parts();
    for (number, certificate) in ring.certificates().iter().enumerate() {
        if is_picked(picked, number) {
            certificates.push(certificate.copy(alloc)?)?;
        }
    }
    Ok(Keyring::new(alloc, lead, certificates))
}

/// Whether the certificate of this number is picked.
fn is_picked(picked: &[u8], number: usize) -> bool
    ensures { result ≡ is_picked picked.now number }
{
    match picked.get(number) {
        Some(flag) => *flag != 0,
        None => false,
    }
}
