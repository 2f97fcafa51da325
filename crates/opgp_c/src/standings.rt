//! Whether a key may be believed.

ghost use Rattle.std.specs.Prelude.{◌≡◌, ◌≢◌, ◌↔◌, ◌⊎◌, false, Some, None, ◌<◌, length};
ghost use Rattle.opgp_hash.specs.Digest.{digest_octets, digest_of};
ghost use Rattle.opgp_hash.specs.QuestionValue.{QuestionValue};
ghost use Rattle.opgp_handles.specs.Calls.{HoldsTheSame, IsFilled};
ghost use Rattle.opgp_handles.specs.Causes.{caused_by};
ghost use Rattle.opgp_handles.specs.Standings.{judged_by, place_by, policy_by};
ghost use Rattle.opgp_valid.specs.Revocation.{revocation_at};
ghost use Rattle.opgp_valid.specs.declared.policy.Policy.{Policy};

use opgp_handles::{CauseRow, Ring, ring_cause, ring_revocation, ring_standing};
use std::alloc::Global;

/// Puts whether the key at a place of the keyring may be believed for a signature that was made at
/// one time and is read at another, both in seconds since 1970, by verdicts on the signatures of
/// the keyring and a policy: 0 if it may, else the number of the first reason why not.
///
/// The verdicts are those on the rows of the table of jobs, in order: 1 good, 2 bad, any other
/// undecided, as is a row without one. A key revocation that is on a component has one over the
/// primary key alone. The policy is 0 for the usual one or 1 for any. The component is `NONE` for a
/// primary key.
///
/// The status says whether it is done; else the number is unchanged: there is no such key or no
/// such policy, memory ran out, or the handle holds nothing.
#[unsafe(no_mangle)]
pub extern "C" fn opgp_ring_standing(
    alloc: Global,
    ring: &mut Ring,
    verdicts: &[u8],
    policy: u32,
    certificate: u64,
    component: u64,
    made: u64,
    now: u64,
    why: &mut u8,
) -> u32
    ensures done { result ≡ 0 → (p : Policy) × (policy_by policy ≡ Some p)
        × (judged_by ring.old.slot.held.keyring p verdicts.now (place_by certificate component)
        made now ≡ Some why.new) }
    ensures none { result ≡ 6 → (p : Policy) × (policy_by policy ≡ Some p)
        × (judged_by ring.old.slot.held.keyring p verdicts.now (place_by certificate component)
        made now ≡ None) }
    ensures limits { result ≡ 4 → policy_by policy ≡ None }
    ensures kept { result ≢ 0 → why.new ≡ why.old }
    ensures closed { (result ≡ 5) ↔ (ring.old.is_open ≡ false) }
    ensures ring { HoldsTheSame ring.old ring.new }
    ensures status { (result ≡ 0) ⊎ ((result ≡ 3) ⊎ ((result ≡ 4) ⊎ ((result ≡ 5)
        ⊎ (result ≡ 6)))) }
{
    ring_standing(
        alloc,
        ring,
        verdicts,
        policy,
        certificate,
        component,
        made,
        now,
        why,
    )
}

/// Puts why the key at a place of the keyring may not be believed, as `opgp_ring_standing` judges it
/// by what it takes: the first reason, of which key and at which of the two times it holds, a date,
/// and the signature that says so. Of a key that may be believed the reason is 0.
///
/// The status says whether it is done; else the cause is unchanged: there is no such key or no such
/// policy, memory ran out, or the handle holds nothing.
#[unsafe(no_mangle)]
pub extern "C" fn opgp_ring_cause(
    alloc: Global,
    ring: &mut Ring,
    verdicts: &[u8],
    policy: u32,
    certificate: u64,
    component: u64,
    made: u64,
    now: u64,
    cause: &mut CauseRow,
) -> u32
    ensures done { result ≡ 0 → (p : Policy) × (policy_by policy ≡ Some p)
        × (caused_by ring.old.slot.held.keyring p verdicts.now (place_by certificate component)
        made now ≡ Some cause.new) }
    ensures none { result ≡ 6 → (p : Policy) × (policy_by policy ≡ Some p)
        × (caused_by ring.old.slot.held.keyring p verdicts.now (place_by certificate component)
        made now ≡ None) }
    ensures limits { result ≡ 4 → policy_by policy ≡ None }
    ensures kept { result ≢ 0 → cause.new ≡ cause.old }
    ensures closed { (result ≡ 5) ↔ (ring.old.is_open ≡ false) }
    ensures ring { HoldsTheSame ring.old ring.new }
    ensures status { (result ≡ 0) ⊎ ((result ≡ 3) ⊎ ((result ≡ 4) ⊎ ((result ≡ 5)
        ⊎ (result ≡ 6)))) }
{
    ring_cause(
        alloc,
        ring,
        verdicts,
        policy,
        certificate,
        component,
        made,
        now,
        cause,
    )
}

/// Puts the digest of what the revocation of a primary key hashes that is in this row of the table
/// of jobs: that key alone, wherever in its certificate the revocation is (RFC 9580, 5.2.1.11,
/// 5.2.4).
///
/// The status says whether it is done; else the octets are unchanged: they have too little room,
/// the row has no such signature or it isn't hashed, or the handle holds nothing.
#[unsafe(no_mangle)]
pub extern "C" fn opgp_ring_revocation(
    alloc: Global,
    ring: &mut Ring,
    row: u64,
    octets: &mut [u8],
    size: &mut u64,
) -> u32
    ensures done { result ≡ 0 → (q : QuestionValue)
        × (revocation_at ring.old.slot.held.keyring row ≡ Some q)
        × IsFilled (digest_octets (digest_of q)) octets.old octets.new
        × (size.new ≡ length (digest_octets (digest_of q))) }
    ensures room { result ≡ 2 → (q : QuestionValue)
        × (revocation_at ring.old.slot.held.keyring row ≡ Some q)
        × (length octets.old < length (digest_octets (digest_of q)))
        × (size.new ≡ length (digest_octets (digest_of q))) }
    ensures none { result ≡ 6 → revocation_at ring.old.slot.held.keyring row ≡ None }
    ensures kept { result ≢ 0 → octets.new ≡ octets.old }
    ensures closed { (result ≡ 5) ↔ (ring.old.is_open ≡ false) }
    ensures ring { HoldsTheSame ring.old ring.new }
    ensures status { (result ≡ 0) ⊎ ((result ≡ 2) ⊎ ((result ≡ 5) ⊎ (result ≡ 6))) }
{
    ring_revocation(alloc, ring, row, octets, size)
}
