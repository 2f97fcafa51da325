//! Why a key may not be believed.

ghost use Rattle.std.specs.Prelude.{◌≡◌, ◌≢◌, ◌↔◌, ◌⊎◌, false, IfOk, Some, None};
ghost use Rattle.opgp_handles.specs.Calls.{HoldsTheSame};
ghost use Rattle.opgp_handles.specs.Causes.{caused_by};
ghost use Rattle.opgp_handles.specs.Standings.{place_by, policy_by};
ghost use Rattle.opgp_valid.specs.declared.policy.Policy.{Policy};

use crate::cause_row::CauseRow;
use crate::ring::Ring;
use crate::standings::{place_by, policy_by, verdicts_of};
use crate::status::{CLOSED, DONE, LIMITS, MEMORY, NO_ROW};
use opgp_keyring::Keyring;
use opgp_octets::OutOfMemory;
use opgp_valid::{KeyPlace, Policy, judge};
use std::alloc::Global;

/// The row of the judgement of a key of a keyring. Fails only when out of memory.
fn caused(
    alloc: Global,
    keyring: &Keyring,
    numbers: &[u8],
    policy: Policy,
    at: KeyPlace,
    made: u64,
    now: u64,
) -> Result<Option<CauseRow>, OutOfMemory>
    ensures { IfOk result (λ c. c ≡ caused_by keyring.now policy numbers.now at made now) }
{
    let verdicts = verdicts_of(alloc, numbers)?;
    let judgement = judge(alloc, keyring, &verdicts, policy, at, made, now)?;
    Ok(CauseRow::of(judgement))
}

/// Puts why a key of a keyring isn't believed; the status.
fn put_cause(
    alloc: Global,
    keyring: &Keyring,
    numbers: &[u8],
    policy: u32,
    at: KeyPlace,
    made: u64,
    now: u64,
    cause: &mut CauseRow,
) -> u32
    ensures done { result ≡ 0 → (p : Policy) × (policy_by policy ≡ Some p)
        × (caused_by keyring.now p numbers.now at made now ≡ Some cause.new) }
    ensures none { result ≡ 6 → (p : Policy) × (policy_by policy ≡ Some p)
        × (caused_by keyring.now p numbers.now at made now ≡ None) }
    ensures limits { (result ≡ 4) ↔ (policy_by policy ≡ None) }
    ensures kept { result ≢ 0 → cause.new ≡ cause.old }
    ensures status { (result ≡ 0) ⊎ ((result ≡ 3) ⊎ ((result ≡ 4) ⊎ (result ≡ 6))) }
{
    let Some(policy) = policy_by(policy) else {
        return LIMITS;
    };
    match caused(alloc, keyring, numbers, policy, at, made, now) {
        Ok(Some(row)) => {
            *cause = row;
            DONE
        }
        Ok(None) => NO_ROW,
        Err(_) => MEMORY,
    }
}

/// Puts why the key at a place of the keyring may not be believed.
pub fn ring_cause(
    alloc: Global,
    ring: &mut Ring,
    verdicts: &[u8],
    policy: u32,
    certificate: u64,
    component: u64,
    made: u64,
    now: u64,
    cause: &mut CauseRow,
) -> u32
    ensures done { result ≡ 0 → (p : Policy) × (policy_by policy ≡ Some p)
        × (caused_by ring.old.slot.held.keyring p verdicts.now (place_by certificate component)
        made now ≡ Some cause.new) }
    ensures none { result ≡ 6 → (p : Policy) × (policy_by policy ≡ Some p)
        × (caused_by ring.old.slot.held.keyring p verdicts.now (place_by certificate component)
        made now ≡ None) }
    ensures limits { result ≡ 4 → policy_by policy ≡ None }
    ensures kept { result ≢ 0 → cause.new ≡ cause.old }
    ensures closed { (result ≡ 5) ↔ (ring.old.is_open ≡ false) }
    ensures ring { HoldsTheSame ring.old ring.new }
    ensures status { (result ≡ 0) ⊎ ((result ≡ 3) ⊎ ((result ≡ 4) ⊎ ((result ≡ 5)
        ⊎ (result ≡ 6)))) }
{
    let Some(held) = ring.take(alloc) else {
        return CLOSED;
    };
    let at = place_by(certificate, component);
    let status = put_cause(alloc, &held.keyring, verdicts, policy, at, made, now, cause);
    ring.give(held);
    status
}
