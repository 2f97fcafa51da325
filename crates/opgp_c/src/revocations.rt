//! The digests of all revocations of primary keys.

ghost use Rattle.std.specs.Prelude.{◌≡◌, ◌≢◌, ◌↔◌, ◌⊎◌, ◌<◌, length, false};
ghost use Rattle.opgp_handles.specs.Calls.{HoldsTheSame, IsFilled};
ghost use Rattle.opgp_handles.specs.Revocations.{revocation_rows};

use opgp_handles::{RevocationRow, Ring, ring_revocations};
use std::alloc::Global;

/// Puts the revocations of primary keys of the keyring, in the order of the table of jobs, and the
/// digest of what each hashes: that key alone, wherever in its certificate the revocation is
/// (RFC 9580, 5.2.1.11, 5.2.4). The size says how many rows there are.
///
/// The rows and digests are those for which `opgp_ring_revocation` has a digest.
///
/// The status says whether it is done; else the rows are unchanged: there are more than the table
/// has room for, memory ran out, or the handle holds nothing.
#[unsafe(no_mangle)]
pub extern "C" fn opgp_ring_revocations(
    alloc: Global,
    ring: &mut Ring,
    rows: &mut [RevocationRow],
    size: &mut u64,
) -> u32
    ensures done { result ≡ 0
        → IsFilled (revocation_rows ring.old.slot.held.keyring) rows.old rows.new
        × (size.new ≡ length (revocation_rows ring.old.slot.held.keyring)) }
    ensures room { result ≡ 2
        → (length rows.old < length (revocation_rows ring.old.slot.held.keyring))
        × (size.new ≡ length (revocation_rows ring.old.slot.held.keyring)) }
    ensures kept { result ≢ 0 → rows.new ≡ rows.old }
    ensures closed { (result ≡ 5) ↔ (ring.old.is_open ≡ false) }
    ensures ring { HoldsTheSame ring.old ring.new }
    ensures status { (result ≡ 0) ⊎ ((result ≡ 2) ⊎ ((result ≡ 3) ⊎ (result ≡ 5))) }
{
    ring_revocations(alloc, ring, rows, size)
}
