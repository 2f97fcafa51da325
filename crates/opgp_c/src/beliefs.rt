//! Whether a signature over a document may be believed.

ghost use Rattle.std.specs.Prelude.{◌≡◌, ◌≢◌, ◌↔◌, ◌⊎◌, ◌<◌, ℕ, List, length, Some, None, false};
ghost use Rattle.opgp_handles.specs.Calls.{HoldsTheSame, IsFilled};
ghost use Rattle.opgp_handles.specs.Documents.{KeepsItsOwn, WasGiven, bodies_in, is_message};
ghost use Rattle.opgp_handles.specs.Standings.{believed_at, believed_in, held_value, place_by};
ghost use Rattle.opgp_handles.specs.Standings.{policy_by};
ghost use Rattle.opgp_valid.specs.declared.policy.Policy.{Policy};

use opgp_handles::{Document, PlaceRow, Ring, document_standing, document_standings};
use std::alloc::Global;

/// Puts whether the signature of a row over a document may be believed as one by the key at a place
/// of the keyring, where arithmetic finds it good, and it is read now, in seconds since 1970: 0 if
/// it may, else the number of the first reason why not. The verdicts, the policy and the component
/// are as `opgp_ring_standing` takes them. Over the document of a cleartext message none is
/// believed but those over text. The condition is that the document's handle was given so much of
/// the document.
///
/// The status says whether it is done; else the number is unchanged: there is no such key, or no
/// such row, or the signature is malformed; there is no such policy; memory ran out; or a handle
/// holds nothing.
#[unsafe(no_mangle)]
pub extern "C" fn opgp_document_standing(
    alloc: Global,
    document: &mut Document,
    ring: &mut Ring,
    verdicts: &[u8],
    policy: u32,
    row: u64,
    certificate: u64,
    component: u64,
    now: u64,
    why: &mut u8,
) -> u32
    ghost so_far: { List ℕ }
    requires { WasGiven so_far document.old }
    ensures done { result ≡ 0 → (p : Policy) × (policy_by policy ≡ Some p)
        × (believed_in (is_message document.old.slot.held) ring.old.slot.held.keyring p
        verdicts.now (place_by certificate component) now
        (held_value (bodies_in document.old.slot.held) row) ≡ Some why.new) }
    ensures none { result ≡ 6 → (p : Policy) × (policy_by policy ≡ Some p)
        × (believed_in (is_message document.old.slot.held) ring.old.slot.held.keyring p
        verdicts.now (place_by certificate component) now
        (held_value (bodies_in document.old.slot.held) row) ≡ None) }
    ensures limits { (result ≡ 4) ↔ (policy_by policy ≡ None) }
    ensures kept { result ≢ 0 → why.new ≡ why.old }
    ensures closed { result ≡ 5 → (document.old.is_open ≡ false) ⊎ (ring.old.is_open ≡ false) }
    ensures shut { (document.old.is_open ≡ false) ⊎ (ring.old.is_open ≡ false)
        → (result ≡ 4) ⊎ (result ≡ 5) }
    ensures ring { HoldsTheSame ring.old ring.new }
    ensures document { KeepsItsOwn document.old document.new }
    ensures status { (result ≡ 0) ⊎ ((result ≡ 3) ⊎ ((result ≡ 4) ⊎ ((result ≡ 5)
        ⊎ (result ≡ 6)))) }
{
    document_standing(
        alloc,
        document,
        ring,
        verdicts,
        policy,
        row,
        certificate,
        component,
        now,
        why,
    )
}

/// Puts for each place of a key of the keyring, in order, the number that `opgp_document_standing`
/// puts of it. The work is linear in the keyring and the places, where these come in the order of
/// their certificates.
///
/// The status says whether it is done; else the octets are unchanged: they have too little room;
/// there is no such row, or the signature is malformed, or no key at one of the places; there is no
/// such policy; memory ran out; or a handle holds nothing.
#[unsafe(no_mangle)]
pub extern "C" fn opgp_document_standings(
    alloc: Global,
    document: &mut Document,
    ring: &mut Ring,
    verdicts: &[u8],
    policy: u32,
    row: u64,
    places: &[PlaceRow],
    now: u64,
    whys: &mut [u8],
    size: &mut u64,
) -> u32
    ghost so_far: { List ℕ }
    requires { WasGiven so_far document.old }
    ensures done { result ≡ 0 → (p : Policy) × (policy_by policy ≡ Some p) × (found : List ℕ)
        × (believed_at (is_message document.old.slot.held) ring.old.slot.held.keyring p
        verdicts.now places.now now (held_value (bodies_in document.old.slot.held) row)
        ≡ Some found)
        × IsFilled found whys.old whys.new × (size.new ≡ length found) }
    ensures room { result ≡ 2 → (p : Policy) × (policy_by policy ≡ Some p) × (found : List ℕ)
        × (believed_at (is_message document.old.slot.held) ring.old.slot.held.keyring p
        verdicts.now places.now now (held_value (bodies_in document.old.slot.held) row)
        ≡ Some found)
        × (length whys.old < length found) × (size.new ≡ length found) }
    ensures none { result ≡ 6 → (p : Policy) × (policy_by policy ≡ Some p)
        × (believed_at (is_message document.old.slot.held) ring.old.slot.held.keyring p
        verdicts.now places.now now (held_value (bodies_in document.old.slot.held) row) ≡ None) }
    ensures limits { (result ≡ 4) ↔ (policy_by policy ≡ None) }
    ensures kept { result ≢ 0 → whys.new ≡ whys.old }
    ensures closed { result ≡ 5 → (document.old.is_open ≡ false) ⊎ (ring.old.is_open ≡ false) }
    ensures shut { (document.old.is_open ≡ false) ⊎ (ring.old.is_open ≡ false)
        → (result ≡ 4) ⊎ (result ≡ 5) }
    ensures ring { HoldsTheSame ring.old ring.new }
    ensures document { KeepsItsOwn document.old document.new }
    ensures status { (result ≡ 0) ⊎ ((result ≡ 2) ⊎ ((result ≡ 3) ⊎ ((result ≡ 4)
        ⊎ ((result ≡ 5) ⊎ (result ≡ 6))))) }
{
    document_standings(
        alloc, document, ring, verdicts, policy, row, places, now, whys, size,
    )
}
