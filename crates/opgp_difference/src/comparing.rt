//! What changed between two keyrings.

ghost use Rattle.std.specs.Prelude.{◌≡◌, map, IfOk};
ghost use Rattle.opgp_difference.specs.Difference.{told};

use crate::place::PlacedPacket;
use crate::telling::tell;
use opgp_keyring::Keyring;
use opgp_octets::OutOfMemory;
use std::alloc::Global;

/// What changed between two keyrings, packet by packet.
#[derive(Drop)]
pub struct Difference<'a> {
    /// The packets of the old keyring that are gone, in its order.
    pub gone: Vec<PlacedPacket<'a>>,
    /// The packets of the new keyring that are new, in its order.
    pub new: Vec<PlacedPacket<'a>>,
}

/// What changed between two keyrings, taken as sets of packets (RFC 9580, 10.1). A packet of a
/// certificate is in the other keyring if that has a packet of the same type and body on the same:
/// on a user ID, attribute or subkey of the same type and body, with the same primary key. The form
/// of headers and the order of packets don't count. Fillers, also those before the first
/// certificate, aren't compared.
///
/// A packet that the other keyring lacks is told if that has what it hangs on: of a certificate
/// that is gone or new, the primary key alone is told. A packet that stands more than once is told
/// where it first stands.
///
/// Takes time in the octets of the keyrings times the logarithm of how many packets they have.
/// Fails only when out of memory.
pub fn compare<'a>(
    alloc: Global,
    old: &'a Keyring,
    new: &'a Keyring,
) -> Result<Difference<'a>, OutOfMemory>
    ensures gone { IfOk result (λ d. d.gone.items
        ≡ map (λ s. s.placed) (told new.now old.now)) }
    ensures new { IfOk result (λ d. d.new.items
        ≡ map (λ s. s.placed) (told old.now new.now)) }
{
    Ok(Difference {
        gone: tell(alloc, new, old)?,
        new: tell(alloc, old, new)?,
    })
}
