//! Keyrings made of one that a handle holds, and kept in another handle.

ghost use Rattle.std.specs.Prelude.{◌≡◌, ◌≢◌, ◌⊎◌, ◌++◌, true, Some, None, Ok, IfOk};
ghost use Rattle.opgp_keyring.specs.Keyring.{flat};
ghost use Rattle.opgp_merge.specs.Chosen.{chosen_keyring};
ghost use Rattle.opgp_merge.specs.Picked.{picked_keyring};
ghost use Rattle.opgp_handles.specs.Calls.{KeepsMade, made_by};

use crate::ring::Ring;
use crate::slot::Held;
use crate::status::{CLOSED, DONE, MEMORY, NO_ROW};
use opgp_keyring::{Keyring, join, normalise};
use opgp_merge::{Choice, choose, merge, pick};
use opgp_octets::OutOfMemory;
use std::alloc::Global;

/// Keeps a keyring that was made in a handle; what that held before is let go.
pub(crate) fn keep(alloc: Global, into: &mut Ring, keyring: Keyring) -> u32
    ensures done { result ≡ 0 → (into.new.is_open ≡ true)
        × (into.new.slot.held.keyring ≡ keyring) }
    ensures kept { result ≢ 0 → into.new ≡ into.old }
    ensures status { (result ≡ 0) ⊎ (result ≡ 3) }
{
    let skipped = 0;
    keep_held(alloc, into, Held { keyring, skipped })
}

/// Keeps this in a handle; what that held before is let go.
pub(crate) fn keep_held(alloc: Global, into: &mut Ring, held: Held) -> u32
    ensures done { result ≡ 0 → (into.new.is_open ≡ true) × (into.new.slot.held ≡ held) }
    ensures kept { result ≢ 0 → into.new ≡ into.old }
    ensures status { (result ≡ 0) ⊎ (result ≡ 3) }
{
    match Ring::of(alloc, held) {
        Ok(new) => {
            drop(std::mem::replace(into, new).into_box());
            DONE
        }
        Err(_) => MEMORY,
    }
}

/// What is made of a keyring.
#[derive(Clone, Copy)]
pub enum Making {
    /// The same packets, each in the current format with its shortest length (RFC 9580, 4.2.1).
    Normal,
    /// Certificates of the same primary key as one, and equal packets of a place once.
    Merged,
}

/// Makes it of a copy. Fails only when out of memory.
fn make(alloc: Global, making: Making, keyring: &Keyring) -> Result<Keyring, OutOfMemory>
    ensures { IfOk result (λ r. r ≡ made_by making keyring.now) }
{
    let copy = keyring.copy(alloc)?;
    match making {
        Making::Normal => Ok(normalise(copy)),
        Making::Merged => merge(copy),
    }
}

/// Keeps in another handle what is made of the keyring that a handle holds, which it holds again
/// before that: so nothing is lost where a caller gives one handle for both.
pub fn keep_made(alloc: Global, making: Making, ring: &mut Ring, into: &mut Ring) -> u32
    ensures { KeepsMade (made_by making) ring.old ring.new into.old into.new result }
{
    let Some(held) = ring.take(alloc) else {
        return CLOSED;
    };
    let made = make(alloc, making, &held.keyring);
    ring.give(held);
    match made {
        Ok(made) => keep(alloc, into, made),
        Err(_) => MEMORY,
    }
}

/// Keeps in another handle the chosen parts of the keyring that a handle holds.
pub fn keep_chosen(alloc: Global, choice: Choice<'_>, ring: &mut Ring, into: &mut Ring) -> u32
    ensures { KeepsMade (chosen_keyring choice.entry) ring.old ring.new into.old into.new result }
{
    let Some(held) = ring.take(alloc) else {
        return CLOSED;
    };
    let made = chosen(alloc, choice, &held.keyring);
    ring.give(held);
    match made {
        Ok(made) => keep(alloc, into, made),
        Err(_) => MEMORY,
    }
}

/// The chosen parts of a copy. Fails only when out of memory.
fn chosen(alloc: Global, choice: Choice<'_>, keyring: &Keyring) -> Result<Keyring, OutOfMemory>
    ensures { IfOk result (λ r. r ≡ chosen_keyring choice.entry keyring.now) }
{
    choose(keyring.copy(alloc)?, choice)
}

/// Keeps in another handle the picked certificates of the keyring that a handle holds.
pub fn keep_picked(alloc: Global, picked: &[u8], ring: &mut Ring, into: &mut Ring) -> u32
    ensures { KeepsMade (picked_keyring picked.now) ring.old ring.new into.old into.new result }
{
    let Some(held) = ring.take(alloc) else {
        return CLOSED;
    };
    let made = pick(alloc, &held.keyring, picked);
    ring.give(held);
    match made {
        Ok(made) => keep(alloc, into, made),
        Err(_) => MEMORY,
    }
}

/// Keeps the certificate of this number, if there is one, as a keyring.
pub(crate) fn keep_found(
    alloc: Global,
    found: Result<Option<Keyring>, OutOfMemory>,
    into: &mut Ring,
) -> u32
    ensures done { result ≡ 0 → (into.new.is_open ≡ true)
        × (found ≡ Ok (Some into.new.slot.held.keyring)) }
    ensures none { result ≡ 6 → found ≡ Ok None }
    ensures kept { result ≢ 0 → into.new ≡ into.old }
    ensures status { (result ≡ 0) ⊎ ((result ≡ 3) ⊎ (result ≡ 6)) }
{
    match found {
        Ok(Some(made)) => keep(alloc, into, made),
        Ok(None) => NO_ROW,
        Err(_) => MEMORY,
    }
}

/// The packets of both, those of the second behind those of the first.
pub(crate) fn joined(
    alloc: Global,
    first: &Keyring,
    second: &Keyring,
) -> Result<Keyring, OutOfMemory>
    ensures { IfOk result (λ r. flat r ≡ flat first.now ++ flat second.now) }
{
    join(first.copy(alloc)?, second.copy(alloc)?)
}
