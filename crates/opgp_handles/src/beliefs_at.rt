//! Whether a signature over a document may be believed as one by each of several keys.

ghost use Rattle.std.specs.Prelude.{◌≡◌, ◌≢◌, ◌↔◌, ◌⊎◌, ◌<◌, ℕ, List, length, map, IfOk, Some, None};
ghost use Rattle.std.specs.Prelude.{false};
ghost use Rattle.std.specs.Option.{option_map};
ghost use Rattle.opgp_packet.specs.SigView.{sig_view_value};
ghost use Rattle.opgp_handles.specs.Calls.{HoldsTheSame, IsFilled};
ghost use Rattle.opgp_handles.specs.Documents.{IsGiven, KeepsItsOwn, WasGiven, bodies_in};
ghost use Rattle.opgp_handles.specs.Documents.{is_message};
ghost use Rattle.opgp_handles.specs.Standings.{all_some, belief_number, believed_at, held_value};
ghost use Rattle.opgp_handles.specs.Standings.{number_over, place_of, policy_by};
ghost use Rattle.opgp_valid.specs.declared.policy.Policy.{Policy};

use crate::beliefs::{belief_number, is_message, number_over, view_at};
use crate::calls::put_octets;
use crate::document::Document;
use crate::place_row::PlaceRow;
use crate::ring::Ring;
use crate::signed_tables::signatures_in;
use crate::slot::Signed;
use crate::standings::{place_by, policy_by, verdicts_of};
use crate::status::{CLOSED, LIMITS, MEMORY, NO_ROW};
use opgp_keyring::Keyring;
use opgp_octets::OutOfMemory;
use opgp_packet::SigView;
use opgp_valid::{Belief, KeyPlace, Policy, believe_at};
use std::alloc::Global;

/// The places of these rows. Fails only when out of memory.
fn places_of(alloc: Global, rows: &[PlaceRow]) -> Result<Vec<KeyPlace>, OutOfMemory>
    ensures { IfOk result (λ v. v.items ≡ map place_of rows.now) }
{
    let mut places = Vec::with_capacity(alloc, rows.len())?;
    let mut rest = rows;
    'rows: while let [row, more @ ..] = rest {
        places.push(place_by(row.certificate, row.component))?;
        rest = more;
    }
    Ok(places)
}

/// The numbers of beliefs in a signature; None if one of them is that there is no key. Fails only
/// when out of memory.
fn numbers_of(
    alloc: Global,
    is_message: bool,
    signature: SigView<'_>,
    beliefs: &[Belief],
) -> Result<Option<Vec<u8>>, OutOfMemory>
    ensures { IfOk result (λ found. option_map (λ v. v.items) found ≡ all_some (map
        (λ b. number_over is_message (sig_view_value signature.entry) (belief_number b))
        beliefs.now)) }
{
    let mut numbers = Vec::with_capacity(alloc, beliefs.len())?;
    let mut rest = beliefs;
    'beliefs: while let Some((belief, more)) = rest.split_first() {
        let Some(number) = number_over(is_message, signature, belief_number(*belief)) else {
            return Ok(None);
        };
        numbers.push(number)?;
        rest = more;
    }
    Ok(Some(numbers))
}

/// The same of the beliefs in a signature as one by the key at each of these places. Fails only
/// when out of memory.
fn believed_by(
    alloc: Global,
    is_message: bool,
    keyring: &Keyring,
    numbers: &[u8],
    policy: Policy,
    rows: &[PlaceRow],
    signature: SigView<'_>,
    now: u64,
) -> Result<Option<Vec<u8>>, OutOfMemory>
    ensures { IfOk result (λ found. option_map (λ v. v.items) found
        ≡ believed_at is_message keyring.now policy numbers.now rows.now now
        (Some (sig_view_value signature.entry))) }
{
    let verdicts = verdicts_of(alloc, numbers)?;
    let places = places_of(alloc, rows)?;
    let beliefs = believe_at(alloc, keyring, &verdicts, policy, &places, signature, now)?;
    numbers_of(alloc, is_message, signature, &beliefs)
}

/// The same of a signature, if there is one; None also if there is none, but places are.
fn believed(
    alloc: Global,
    is_message: bool,
    keyring: &Keyring,
    numbers: &[u8],
    policy: Policy,
    rows: &[PlaceRow],
    signature: Option<SigView<'_>>,
    now: u64,
) -> Result<Option<Vec<u8>>, OutOfMemory>
    ensures { IfOk result (λ found. option_map (λ v. v.items) found
        ≡ believed_at is_message keyring.now policy numbers.now rows.now now
        (option_map (λ v. sig_view_value v) signature.entry)) }
{
    match (signature, rows) {
        (_, []) => Ok(Some(Vec::new(alloc))),
        (None, [_, ..]) => Ok(None),
        (Some(signature), [_, ..]) => believed_by(
            alloc, is_message, keyring, numbers, policy, rows, signature, now,
        ),
    }
}

/// Puts whether the signature of a row is believed as one by the key at each place; the status.
fn put_beliefs(
    alloc: Global,
    held: &Signed,
    keyring: &Keyring,
    numbers: &[u8],
    policy: Policy,
    row: u64,
    places: &[PlaceRow],
    now: u64,
    whys: &mut [u8],
    size: &mut u64,
) -> u32
    ghost so_far: { List ℕ }
    requires { IsGiven so_far held.now }
    ensures done { result ≡ 0 → (found : List ℕ)
        × (believed_at (is_message held.now) keyring.now policy numbers.now places.now now
        (held_value (bodies_in held.now) row) ≡ Some found)
        × IsFilled found whys.old whys.new × (size.new ≡ length found) }
    ensures room { result ≡ 2 → (found : List ℕ)
        × (believed_at (is_message held.now) keyring.now policy numbers.now places.now now
        (held_value (bodies_in held.now) row) ≡ Some found)
        × (length whys.old < length found) × (size.new ≡ length found) }
    ensures none { result ≡ 6
        → believed_at (is_message held.now) keyring.now policy numbers.now places.now now
        (held_value (bodies_in held.now) row) ≡ None }
    ensures kept { result ≢ 0 → whys.new ≡ whys.old }
    ensures status { (result ≡ 0) ⊎ ((result ≡ 2) ⊎ ((result ≡ 3) ⊎ (result ≡ 6))) }
{
    let views = match signatures_in(held).views(alloc) {
        Ok(views) => views,
        Err(_) => return MEMORY,
    };
    match believed(
        alloc,
        is_message(held),
        keyring,
        numbers,
        policy,
        places,
        view_at(&views, row),
        now,
    ) {
        Ok(Some(found)) => put_octets(&found, whys, size),
        Ok(None) => NO_ROW,
        Err(_) => MEMORY,
    }
}

/// Puts whether the signature of a row over a document may be believed as one by the key at each
/// place.
pub fn document_standings(
    alloc: Global,
    document: &mut Document,
    ring: &mut Ring,
    verdicts: &[u8],
    policy: u32,
    row: u64,
    places: &[PlaceRow],
    now: u64,
    whys: &mut [u8],
    size: &mut u64,
) -> u32
    ghost so_far: { List ℕ }
    requires { WasGiven so_far document.old }
    ensures done { result ≡ 0 → (p : Policy) × (policy_by policy ≡ Some p) × (found : List ℕ)
        × (believed_at (is_message document.old.slot.held) ring.old.slot.held.keyring p
        verdicts.now places.now now (held_value (bodies_in document.old.slot.held) row)
        ≡ Some found)
        × IsFilled found whys.old whys.new × (size.new ≡ length found) }
    ensures room { result ≡ 2 → (p : Policy) × (policy_by policy ≡ Some p) × (found : List ℕ)
        × (believed_at (is_message document.old.slot.held) ring.old.slot.held.keyring p
        verdicts.now places.now now (held_value (bodies_in document.old.slot.held) row)
        ≡ Some found)
        × (length whys.old < length found) × (size.new ≡ length found) }
    ensures none { result ≡ 6 → (p : Policy) × (policy_by policy ≡ Some p)
        × (believed_at (is_message document.old.slot.held) ring.old.slot.held.keyring p
        verdicts.now places.now now (held_value (bodies_in document.old.slot.held) row) ≡ None) }
    ensures limits { (result ≡ 4) ↔ (policy_by policy ≡ None) }
    ensures kept { result ≢ 0 → whys.new ≡ whys.old }
    ensures closed { result ≡ 5 → (document.old.is_open ≡ false) ⊎ (ring.old.is_open ≡ false) }
    ensures shut { (document.old.is_open ≡ false) ⊎ (ring.old.is_open ≡ false)
        → (result ≡ 4) ⊎ (result ≡ 5) }
    ensures ring { HoldsTheSame ring.old ring.new }
    ensures document { KeepsItsOwn document.old document.new }
    ensures status { (result ≡ 0) ⊎ ((result ≡ 2) ⊎ ((result ≡ 3) ⊎ ((result ≡ 4)
        ⊎ ((result ≡ 5) ⊎ (result ≡ 6))))) }
{
    let Some(policy) = policy_by(policy) else {
        return LIMITS;
    };
    let Some(signed) = document.take(alloc) else {
        return CLOSED;
    };
    let Some(held) = ring.take(alloc) else {
        document.give(signed);
        return CLOSED;
    };
    let status = put_beliefs(
        alloc,
        &signed,
        &held.keyring,
        verdicts,
        policy,
        row,
        places,
        now,
        whys,
        size,
    );
    ring.give(held);
    document.give(signed);
    status
}
