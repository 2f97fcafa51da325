//! Whether a key may be believed.

ghost use Rattle.std.specs.Prelude.{◌≡◌, ◌≢◌, ◌↔◌, ◌⊎◌, ◌++◌, true, false, ℕ, map, IfOk, Some};
ghost use Rattle.std.specs.Prelude.{None, ◌<◌, length};
ghost use Rattle.opgp_hash.specs.Digest.{digest_octets, digest_of};
ghost use Rattle.opgp_hash.specs.QuestionValue.{QuestionValue};
ghost use Rattle.opgp_handles.specs.Calls.{HoldsTheSame, IsFilled};
ghost use Rattle.opgp_handles.specs.Standings.{component_by, judged_by, judgement_number, place_by};
ghost use Rattle.opgp_handles.specs.Standings.{policy_by, verdict_by, why_number};
ghost use Rattle.opgp_valid.specs.Revocation.{revocation_at};
ghost use Rattle.opgp_valid.specs.declared.policy.Policy.{Policy};

use crate::calls::put_octets;
use crate::ring::Ring;
use crate::status::{CLOSED, DONE, LIMITS, MEMORY, NO_ROW};
use opgp_hash::digest;
use opgp_keyring::Keyring;
use opgp_octets::OutOfMemory;
use opgp_report::Verdict;
use opgp_tables::NONE;
use opgp_valid::{Judgement, KeyPlace, Policy, Why, judge, revocation_at};
use std::alloc::Global;

/// The verdict of a number: 1 good, 2 bad, any other undecided.
fn verdict_by(number: u8) -> Verdict
    ensures { result ≡ verdict_by number }
{
    match number {
        1 => Verdict::Good,
        2 => Verdict::Bad,
        _ => Verdict::Undecided,
    }
}

/// The verdicts of these numbers. Fails only when out of memory.
pub(crate) fn verdicts_of(alloc: Global, numbers: &[u8]) -> Result<Vec<Verdict>, OutOfMemory>
    ensures { IfOk result (λ v. v.items ≡ map verdict_by numbers.now) }
{
    let mut verdicts = Vec::with_capacity(alloc, numbers.len())?;
    let mut rest = numbers;
    'numbers: while let [number, more @ ..] = rest {
        verdicts.push(verdict_by(*number))?;
        rest = more;
    }
    Ok(verdicts)
}

/// The policy of a number: 0 the usual one, 1 any.
pub(crate) fn policy_by(number: u32) -> Option<Policy>
    ensures { result ≡ policy_by number }
{
    match number {
        0 => Some(Policy::Usual),
        1 => Some(Policy::Any),
        _ => None,
    }
}

/// The place of a key by the numbers of its certificate and its component, where `NONE` is for the
/// primary key.
pub(crate) fn place_by(certificate: u64, component: u64) -> KeyPlace
    ensures { result ≡ place_by certificate component }
{
    KeyPlace {
        certificate: certificate as usize,
        component: if component == NONE {
            None
        } else {
            Some(component as usize)
        },
    }
}

/// The number of a reason.
pub(crate) fn why_number(why: Why) -> u8
    ensures { result ≡ why_number why }
{
    match why {
        Why::Future => 1,
        Why::Revoked => 2,
        Why::Early => 3,
        Why::Unbound => 4,
        Why::Expired => 5,
        Why::Flags => 6,
        Why::Back => 7,
    }
}

/// The number of a judgement: 0 if the key is believed; None if there is no key.
fn judgement_number(judgement: Judgement) -> Option<u8>
    ensures { result ≡ judgement_number judgement }
{
    match judgement {
        Judgement::Stands => Some(0),
        Judgement::Fails(cause) => Some(why_number(cause.why)),
        Judgement::NoKey => None,
    }
}

/// The number of the judgement of a key of a keyring. Fails only when out of memory.
fn judged(
    alloc: Global,
    keyring: &Keyring,
    numbers: &[u8],
    policy: Policy,
    at: KeyPlace,
    made: u64,
    now: u64,
) -> Result<Option<u8>, OutOfMemory>
    ensures { IfOk result (λ n. n ≡ judged_by keyring.now policy numbers.now at made now) }
{
    let verdicts = verdicts_of(alloc, numbers)?;
    let judgement = judge(alloc, keyring, &verdicts, policy, at, made, now)?;
    Ok(judgement_number(judgement))
}

/// Puts whether a key of a keyring is believed; the status.
fn put_judgement(
    alloc: Global,
    keyring: &Keyring,
    numbers: &[u8],
    policy: u32,
    at: KeyPlace,
    made: u64,
    now: u64,
    why: &mut u8,
) -> u32
    ensures done { result ≡ 0 → (p : Policy) × (policy_by policy ≡ Some p)
        × (judged_by keyring.now p numbers.now at made now ≡ Some why.new) }
    ensures none { result ≡ 6 → (p : Policy) × (policy_by policy ≡ Some p)
        × (judged_by keyring.now p numbers.now at made now ≡ None) }
    ensures limits { (result ≡ 4) ↔ (policy_by policy ≡ None) }
    ensures kept { result ≢ 0 → why.new ≡ why.old }
    ensures status { (result ≡ 0) ⊎ ((result ≡ 3) ⊎ ((result ≡ 4) ⊎ (result ≡ 6))) }
{
    let Some(policy) = policy_by(policy) else {
        return LIMITS;
    };
    match judged(alloc, keyring, numbers, policy, at, made, now) {
        Ok(Some(number)) => {
            *why = number;
            DONE
        }
        Ok(None) => NO_ROW,
        Err(_) => MEMORY,
    }
}

/// Puts whether the key at a place of the keyring may be believed.
pub fn ring_standing(
    alloc: Global,
    ring: &mut Ring,
    verdicts: &[u8],
    policy: u32,
    certificate: u64,
    component: u64,
    made: u64,
    now: u64,
    why: &mut u8,
) -> u32
    ensures done { result ≡ 0 → (p : Policy) × (policy_by policy ≡ Some p)
        × (judged_by ring.old.slot.held.keyring p verdicts.now (place_by certificate component)
        made now ≡ Some why.new) }
    ensures none { result ≡ 6 → (p : Policy) × (policy_by policy ≡ Some p)
        × (judged_by ring.old.slot.held.keyring p verdicts.now (place_by certificate component)
        made now ≡ None) }
    ensures limits { result ≡ 4 → policy_by policy ≡ None }
    ensures kept { result ≢ 0 → why.new ≡ why.old }
    ensures closed { (result ≡ 5) ↔ (ring.old.is_open ≡ false) }
    ensures ring { HoldsTheSame ring.old ring.new }
    ensures status { (result ≡ 0) ⊎ ((result ≡ 3) ⊎ ((result ≡ 4) ⊎ ((result ≡ 5)
        ⊎ (result ≡ 6)))) }
{
    let Some(held) = ring.take(alloc) else {
        return CLOSED;
    };
    let at = place_by(certificate, component);
    let status = put_judgement(alloc, &held.keyring, verdicts, policy, at, made, now, why);
    ring.give(held);
    status
}

/// Puts the digest of what the revocation of a primary key in a row of a keyring's report hashes;
/// the status.
fn put_revocation(keyring: &Keyring, row: u64, octets: &mut [u8], size: &mut u64) -> u32
    ensures done { result ≡ 0 → (q : QuestionValue)
        × (revocation_at keyring.now row ≡ Some q)
        × IsFilled (digest_octets (digest_of q)) octets.old octets.new
        × (size.new ≡ length (digest_octets (digest_of q))) }
    ensures room { result ≡ 2 → (q : QuestionValue)
        × (revocation_at keyring.now row ≡ Some q)
        × (length octets.old < length (digest_octets (digest_of q)))
        × (size.new ≡ length (digest_octets (digest_of q))) }
    ensures none { result ≡ 6 → revocation_at keyring.now row ≡ None }
    ensures kept { result ≢ 0 → octets.new ≡ octets.old }
    ensures status { (result ≡ 0) ⊎ ((result ≡ 2) ⊎ (result ≡ 6)) }
{
    let Some(question) = revocation_at(keyring, row as usize) else {
        return NO_ROW;
    };
    let found = digest(&question);
    put_octets(found.octets(), octets, size)
}

/// Puts the digest of what the revocation of a primary key in this row hashes.
pub fn ring_revocation(
    alloc: Global,
    ring: &mut Ring,
    row: u64,
    octets: &mut [u8],
    size: &mut u64,
) -> u32
    ensures done { result ≡ 0 → (q : QuestionValue)
        × (revocation_at ring.old.slot.held.keyring row ≡ Some q)
        × IsFilled (digest_octets (digest_of q)) octets.old octets.new
        × (size.new ≡ length (digest_octets (digest_of q))) }
    ensures room { result ≡ 2 → (q : QuestionValue)
        × (revocation_at ring.old.slot.held.keyring row ≡ Some q)
        × (length octets.old < length (digest_octets (digest_of q)))
        × (size.new ≡ length (digest_octets (digest_of q))) }
    ensures none { result ≡ 6 → revocation_at ring.old.slot.held.keyring row ≡ None }
    ensures kept { result ≢ 0 → octets.new ≡ octets.old }
    ensures closed { (result ≡ 5) ↔ (ring.old.is_open ≡ false) }
    ensures ring { HoldsTheSame ring.old ring.new }
    ensures status { (result ≡ 0) ⊎ ((result ≡ 2) ⊎ ((result ≡ 5) ⊎ (result ≡ 6))) }
{
    let Some(held) = ring.take(alloc) else {
        return CLOSED;
    };
    let status = put_revocation(&held.keyring, row, octets, size);
    ring.give(held);
    status
}
