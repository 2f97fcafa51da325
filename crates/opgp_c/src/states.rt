//! How the parts of a keyring stand at a time.

ghost use Rattle.std.specs.Prelude.{◌≡◌, ◌≢◌, ◌↔◌, ◌⊎◌, ◌<◌, length, Some, None, false};
ghost use Rattle.opgp_valid.specs.declared.policy.Policy.{Policy};
ghost use Rattle.opgp_handles.specs.Calls.{HoldsTheSame, IsFilled};
ghost use Rattle.opgp_handles.specs.Standings.{policy_by};
ghost use Rattle.opgp_handles.specs.States.{state_rows};

use opgp_handles::{Ring, StateRow, ring_states};
use std::alloc::Global;

/// Puts how each key, user ID and user attribute of the keyring stands at a time, in seconds since
/// 1970, by verdicts on the signatures of the keyring and a policy: the primary key of each
/// certificate, and then its components in order. The size says how many rows there are.
///
/// The verdicts and the policy are those of `opgp_ring_standing`.
///
/// The status says whether it is done; else the rows are unchanged: there are more than the table
/// has room for, there is no such policy, memory ran out, or the handle holds nothing.
#[unsafe(no_mangle)]
pub extern "C" fn opgp_ring_states(
    alloc: Global,
    ring: &mut Ring,
    verdicts: &[u8],
    policy: u32,
    at: u64,
    rows: &mut [StateRow],
    size: &mut u64,
) -> u32
    ensures done { result ≡ 0 → (p : Policy) × (policy_by policy ≡ Some p)
        × IsFilled (state_rows ring.old.slot.held.keyring p verdicts.now at) rows.old rows.new
        × (size.new ≡ length (state_rows ring.old.slot.held.keyring p verdicts.now at)) }
    ensures room { result ≡ 2 → (p : Policy) × (policy_by policy ≡ Some p)
        × (length rows.old < length (state_rows ring.old.slot.held.keyring p verdicts.now at))
        × (size.new ≡ length (state_rows ring.old.slot.held.keyring p verdicts.now at)) }
    ensures limits { result ≡ 4 → policy_by policy ≡ None }
    ensures kept { result ≢ 0 → rows.new ≡ rows.old }
    ensures closed { (result ≡ 5) ↔ (ring.old.is_open ≡ false) }
    ensures ring { HoldsTheSame ring.old ring.new }
    ensures status { (result ≡ 0) ⊎ ((result ≡ 2) ⊎ ((result ≡ 3) ⊎ ((result ≡ 4)
        ⊎ (result ≡ 5)))) }
{
    ring_states(alloc, ring, verdicts, policy, at, rows, size)
}
