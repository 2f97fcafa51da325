//! How the parts of a keyring stand at a time.

ghost use Rattle.std.specs.Prelude.{◌≡◌, ◌≢◌, ◌↔◌, ◌⊎◌, ◌++◌, ◌<◌, length, IfOk, OnOk, Some, None};
ghost use Rattle.std.specs.Prelude.{false};
ghost use Rattle.opgp_valid.specs.KnownKeys.{knowns};
ghost use Rattle.opgp_valid.specs.declared.policy.Policy.{Policy};
ghost use Rattle.opgp_handles.specs.Calls.{HoldsTheSame, IsFilled};
ghost use Rattle.opgp_handles.specs.Standings.{policy_by};
ghost use Rattle.opgp_handles.specs.States.{certificate_rows, component_rows, part_rows, rows_from};
ghost use Rattle.opgp_handles.specs.States.{state_rows};

use crate::ring::Ring;
use crate::standings::{policy_by, verdicts_of};
use crate::state_row::StateRow;
use crate::status::{CLOSED, DONE, LIMITS, MEMORY, ROOM};
use opgp_keyring::{Certificate, Keyring};
use opgp_octets::OutOfMemory;
use opgp_report::Verdict;
use opgp_tables::{NONE, fill};
use opgp_valid::{Certified, KnownKeys, PartState, Policy, part_states, verdicts_behind};
use std::alloc::Global;

/// Adds the rows of components. Fails only when out of memory.
fn add_components(
    rows: &mut Vec<StateRow>,
    certificate: u64,
    states: &[PartState],
) -> Result<(), OutOfMemory>
    ensures { OnOk result (rows.new.items
        ≡ rows.old.items ++ component_rows certificate 0 states.now) }
{
    let mut number = 0usize;
    let mut rest = states;
    'states: while let [state, more @ ..] = rest {
        rows.push(StateRow::of(certificate, number as u64, *state))?;
        number += 1;
        rest = more;
    }
    Ok(())
}

/// Adds the rows of the parts of a certificate. Fails only when out of memory.
fn add_parts(
    rows: &mut Vec<StateRow>,
    certificate: u64,
    states: &[PartState],
) -> Result<(), OutOfMemory>
    ensures { OnOk result (rows.new.items ≡ rows.old.items ++ part_rows certificate states.now) }
{
    match states {
        [primary, components @ ..] => {
            rows.push(StateRow::of(certificate, NONE, *primary))?;
            add_components(rows, certificate, components)
        }
        [] => Ok(()),
    }
}

/// Adds the rows of a certificate, by the verdicts from its first row on. Fails only when out of
/// memory.
fn add_certificate(
    alloc: Global,
    rows: &mut Vec<StateRow>,
    known: &KnownKeys,
    policy: Policy,
    number: u64,
    certificate: &Certificate,
    verdicts: &[Verdict],
    at: u64,
) -> Result<(), OutOfMemory>
    ensures { OnOk result (rows.new.items ≡ rows.old.items
        ++ certificate_rows (knowns known.now) policy at number certificate.now verdicts.now) }
{
    let certified = Certified::of(alloc, known, policy, certificate, verdicts)?;
    let states = part_states(alloc, certified.facts(), certificate, at)?;
    add_parts(rows, number, &states)
}

/// Adds the rows of certificates, by the verdicts from their first row on. Fails only when out of
/// memory.
fn add_certificates(
    alloc: Global,
    rows: &mut Vec<StateRow>,
    known: &KnownKeys,
    policy: Policy,
    certificates: &[Certificate],
    verdicts: &[Verdict],
    at: u64,
) -> Result<(), OutOfMemory>
    ensures { OnOk result (rows.new.items ≡ rows.old.items
        ++ rows_from (knowns known.now) policy at 0 certificates.now verdicts.now) }
{
    let mut number = 0usize;
    let mut found = verdicts;
    let mut rest = certificates;
    'certificates: while let [certificate, more @ ..] = rest {
        add_certificate(
            alloc,
            rows,
            known,
            policy,
            number as u64,
            certificate,
            found,
            at,
        )?;
        found = verdicts_behind(certificate, found);
        number += 1;
        rest = more;
    }
    Ok(())
}

/// The rows of a keyring. Fails only when out of memory.
fn state_rows(
    alloc: Global,
    keyring: &Keyring,
    numbers: &[u8],
    policy: Policy,
    at: u64,
) -> Result<Vec<StateRow>, OutOfMemory>
    ensures { IfOk result (λ v. v.items ≡ state_rows keyring.now policy numbers.now at) }
{
    let verdicts = verdicts_of(alloc, numbers)?;
    let known = KnownKeys::of(alloc, keyring)?;
    let mut rows = Vec::new(alloc);
    let certificates = keyring.certificates();
    add_certificates(
        alloc,
        &mut rows,
        &known,
        policy,
        certificates,
        &verdicts,
        at,
    )?;
    Ok(rows)
}

/// Puts rows into a table, if it has the room.
fn put_rows(found: &[StateRow], rows: &mut [StateRow], size: &mut u64) -> u32
    ensures done { result ≡ 0 → IsFilled found.now rows.old rows.new }
    ensures room { result ≡ 2 → length rows.old < length found.now }
    ensures kept { result ≢ 0 → rows.new ≡ rows.old }
    ensures size { size.new ≡ length found.now }
    ensures status { (result ≡ 0) ⊎ (result ≡ 2) }
{
    *size = found.len() as u64;
    if fill(found, rows) { DONE } else { ROOM }
}

/// Puts how the parts of a keyring stand; the status.
fn put_states(
    alloc: Global,
    keyring: &Keyring,
    numbers: &[u8],
    policy: u32,
    at: u64,
    rows: &mut [StateRow],
    size: &mut u64,
) -> u32
    ensures done { result ≡ 0 → (p : Policy) × (policy_by policy ≡ Some p)
        × IsFilled (state_rows keyring.now p numbers.now at) rows.old rows.new
        × (size.new ≡ length (state_rows keyring.now p numbers.now at)) }
    ensures room { result ≡ 2 → (p : Policy) × (policy_by policy ≡ Some p)
        × (length rows.old < length (state_rows keyring.now p numbers.now at))
        × (size.new ≡ length (state_rows keyring.now p numbers.now at)) }
    ensures limits { (result ≡ 4) ↔ (policy_by policy ≡ None) }
    ensures kept { result ≢ 0 → rows.new ≡ rows.old }
    ensures status { (result ≡ 0) ⊎ ((result ≡ 2) ⊎ ((result ≡ 3) ⊎ (result ≡ 4))) }
{
    let Some(policy) = policy_by(policy) else {
        return LIMITS;
    };
    match state_rows(alloc, keyring, numbers, policy, at) {
        Ok(found) => put_rows(&found, rows, size),
        Err(_) => MEMORY,
    }
}

/// Puts how each key, user ID and user attribute of the keyring stands at a time.
pub fn ring_states(
    alloc: Global,
    ring: &mut Ring,
    verdicts: &[u8],
    policy: u32,
    at: u64,
    rows: &mut [StateRow],
    size: &mut u64,
) -> u32
    ensures done { result ≡ 0 → (p : Policy) × (policy_by policy ≡ Some p)
        × IsFilled (state_rows ring.old.slot.held.keyring p verdicts.now at) rows.old rows.new
        × (size.new ≡ length (state_rows ring.old.slot.held.keyring p verdicts.now at)) }
    ensures room { result ≡ 2 → (p : Policy) × (policy_by policy ≡ Some p)
        × (length rows.old < length (state_rows ring.old.slot.held.keyring p verdicts.now at))
        × (size.new ≡ length (state_rows ring.old.slot.held.keyring p verdicts.now at)) }
    ensures limits { result ≡ 4 → policy_by policy ≡ None }
    ensures kept { result ≢ 0 → rows.new ≡ rows.old }
    ensures closed { (result ≡ 5) ↔ (ring.old.is_open ≡ false) }
    ensures ring { HoldsTheSame ring.old ring.new }
    ensures status { (result ≡ 0) ⊎ ((result ≡ 2) ⊎ ((result ≡ 3) ⊎ ((result ≡ 4)
        ⊎ (result ≡ 5)))) }
{
    let Some(held) = ring.take(alloc) else {
        return CLOSED;
    };
    let status = put_states(alloc, &held.keyring, verdicts, policy, at, rows, size);
    ring.give(held);
    status
}
