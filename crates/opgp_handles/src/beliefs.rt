//! Whether a signature over a document may be believed.

ghost use Rattle.std.specs.Prelude.{◌≡◌, ◌≢◌, ◌↔◌, ◌⊎◌, ℕ, List, map, IfOk, Some, None, slice_get};
ghost use Rattle.std.specs.Prelude.{false};
ghost use Rattle.std.specs.Option.{option_map};
ghost use Rattle.opgp_packet.specs.SigView.{sig_view_value};
ghost use Rattle.opgp_handles.specs.Calls.{HoldsTheSame};
ghost use Rattle.opgp_handles.specs.Documents.{IsGiven, KeepsItsOwn, WasGiven, bodies_in};
ghost use Rattle.opgp_handles.specs.Documents.{is_message};
ghost use Rattle.opgp_handles.specs.Standings.{belief_number, believed_in, flaw_number, held_value};
ghost use Rattle.opgp_handles.specs.Standings.{number_over, place_by, policy_by, value_if};
ghost use Rattle.opgp_handles.specs.Standings.{value_read};
ghost use Rattle.opgp_valid.specs.declared.policy.Policy.{Policy};

use crate::document::Document;
use crate::ring::Ring;
use crate::signed_tables::signatures_in;
use crate::slot::Signed;
use crate::standings::{place_by, policy_by, verdicts_of, why_number};
use crate::status::{CLOSED, DONE, LIMITS, MEMORY, NO_ROW};
use opgp_keyring::Keyring;
use opgp_octets::{BodyFault, OutOfMemory};
use opgp_packet::SigView;
use opgp_tables::is_over_text;
use opgp_valid::{Belief, Flaw, KeyPlace, Policy, believe};
use std::alloc::Global;

/// The number of what is wrong with a signature.
fn flaw_number(flaw: Flaw) -> u8
    ensures { result ≡ flaw_number flaw }
{
    match flaw {
        Flaw::Kind => 8,
        Flaw::Critical => 9,
        Flaw::Weak => 10,
        Flaw::Time => 11,
        Flaw::Lapsed => 12,
        Flaw::Issuer => 13,
    }
}

/// The number of a belief: 0 if the signature is believed; None if there is no key.
pub(crate) fn belief_number(belief: Belief) -> Option<u8>
    ensures { result ≡ belief_number belief }
{
    match belief {
        Belief::Believed => Some(0),
        Belief::Flawed(flaw) => Some(flaw_number(flaw)),
        Belief::Unbelieved(cause) => Some(why_number(cause.why)),
        Belief::NoKey => None,
    }
}

/// The signature of a row, if there is one, and it is well-formed.
pub(crate) fn view_at<'a>(views: &[Result<SigView<'a>, BodyFault>], row: u64) -> Option<SigView<'a>>
    ensures { option_map (λ v. sig_view_value v) result
        ≡ value_if (slice_get (map value_read views.now) row) }
{
    match views.get(row as usize) {
        Some(Ok(view)) => Some(*view),
        Some(Err(_)) | None => None,
    }
}

/// Whether the document is that of a cleartext message.
pub(crate) fn is_message(held: &Signed) -> bool
    ensures { result ≡ is_message held.now }
{
    matches!(held, Signed::Message(_, _))
}

/// The number of a belief in a signature over the document of a cleartext message, if it is one:
/// there only those over text are signatures over a document.
pub(crate) fn number_over(
    is_message: bool,
    signature: SigView<'_>,
    number: Option<u8>,
) -> Option<u8>
    ensures { result ≡ number_over is_message (sig_view_value signature.entry) number }
{
    match number {
        Some(number) => {
            if is_message && !is_over_text(signature) {
                Some(flaw_number(Flaw::Kind))
            } else {
                Some(number)
            }
        }
        None => None,
    }
}

/// The number of the belief in a signature; None if there is none, or no key. Fails only when out
/// of memory.
fn believed(
    alloc: Global,
    is_message: bool,
    keyring: &Keyring,
    numbers: &[u8],
    policy: Policy,
    at: KeyPlace,
    signature: Option<SigView<'_>>,
    now: u64,
) -> Result<Option<u8>, OutOfMemory>
    ensures { IfOk result (λ n. n ≡ believed_in is_message keyring.now policy numbers.now at now
        (option_map (λ v. sig_view_value v) signature.entry)) }
{
    let Some(signature) = signature else {
        return Ok(None);
    };
    let verdicts = verdicts_of(alloc, numbers)?;
    let belief = believe(alloc, keyring, &verdicts, policy, at, signature, now)?;
    Ok(number_over(is_message, signature, belief_number(belief)))
}

/// Stores the belief in a row's signature; returns the status.
fn put_belief(
    alloc: Global,
    held: &Signed,
    keyring: &Keyring,
    numbers: &[u8],
    policy: Policy,
    row: u64,
    at: KeyPlace,
    now: u64,
    why: &mut u8,
) -> u32
    ghost so_far: { List ℕ }
    requires { IsGiven so_far held.now }
    ensures done { result ≡ 0
        → believed_in (is_message held.now) keyring.now policy numbers.now at now
        (held_value (bodies_in held.now) row) ≡ Some why.new }
    ensures none { result ≡ 6
        → believed_in (is_message held.now) keyring.now policy numbers.now at now
        (held_value (bodies_in held.now) row) ≡ None }
    ensures kept { result ≢ 0 → why.new ≡ why.old }
    ensures status { (result ≡ 0) ⊎ ((result ≡ 3) ⊎ (result ≡ 6)) }
{
    let views = match signatures_in(held).views(alloc) {
        Ok(views) => views,
        Err(_) => return MEMORY,
    };
    match believed(
        alloc,
        is_message(held),
        keyring,
        numbers,
        policy,
        at,
        view_at(&views, row),
        now,
    ) {
        Ok(Some(number)) => {
            *why = number;
            DONE
        }
        Ok(None) => NO_ROW,
        Err(_) => MEMORY,
    }
}

/// Stores the belief in a row's signature over a document.
pub fn document_standing(
    alloc: Global,
    document: &mut Document,
    ring: &mut Ring,
    verdicts: &[u8],
    policy: u32,
    row: u64,
    certificate: u64,
    component: u64,
    now: u64,
    why: &mut u8,
) -> u32
    ghost so_far: { List ℕ }
    requires { WasGiven so_far document.old }
    ensures done { result ≡ 0 → (p : Policy) × (policy_by policy ≡ Some p)
        × (believed_in (is_message document.old.slot.held) ring.old.slot.held.keyring p
        verdicts.now (place_by certificate component) now
        (held_value (bodies_in document.old.slot.held) row) ≡ Some why.new) }
    ensures none { result ≡ 6 → (p : Policy) × (policy_by policy ≡ Some p)
        × (believed_in (is_message document.old.slot.held) ring.old.slot.held.keyring p
        verdicts.now (place_by certificate component) now
        (held_value (bodies_in document.old.slot.held) row) ≡ None) }
    ensures limits { (result ≡ 4) ↔ (policy_by policy ≡ None) }
    ensures kept { result ≢ 0 → why.new ≡ why.old }
    ensures closed { result ≡ 5 → (document.old.is_open ≡ false) ⊎ (ring.old.is_open ≡ false) }
    ensures shut { (document.old.is_open ≡ false) ⊎ (ring.old.is_open ≡ false)
        → (result ≡ 4) ⊎ (result ≡ 5) }
    ensures ring { HoldsTheSame ring.old ring.new }
    ensures document { KeepsItsOwn document.old document.new }
    ensures status { (result ≡ 0) ⊎ ((result ≡ 3) ⊎ ((result ≡ 4) ⊎ ((result ≡ 5)
        ⊎ (result ≡ 6)))) }
{
    let Some(policy) = policy_by(policy) else {
        return LIMITS;
    };
    let Some(signed) = document.take(alloc) else {
        return CLOSED;
    };
    let Some(held) = ring.take(alloc) else {
        document.give(signed);
        return CLOSED;
    };
    let at = place_by(certificate, component);
    let status = put_belief(
        alloc,
        &signed,
        &held.keyring,
        verdicts,
        policy,
        row,
        at,
        now,
        why,
    );
    ring.give(held);
    document.give(signed);
    status
}
