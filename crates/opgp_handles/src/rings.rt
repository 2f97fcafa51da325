//! The calls over a handle of a keyring.

ghost use Rattle.std.specs.Prelude.{◌≡◌, ◌≢◌, ◌↔◌, ◌⊎◌, ◌<◌, ◌++◌, length, true, false, Some, None};
ghost use Rattle.std.specs.Prelude.{Ok};
ghost use Rattle.std.specs.List.{slice_get};
ghost use Rattle.opgp_codec.specs.Writing.{packets_text};
ghost use Rattle.opgp_tables.specs.GivenLimits.{MayBeGiven};
ghost use Rattle.opgp_hash.specs.Hashed.{hashed};
ghost use Rattle.opgp_hash.specs.QuestionValue.{QuestionValue};
ghost use Rattle.opgp_report.specs.Asked.{asked_of, question_in};
ghost use Rattle.opgp_keyring.specs.Joining.{nth_of};
ghost use Rattle.opgp_keyring.specs.Keyring.{flat};
ghost use Rattle.opgp_handles.specs.Calls.{Answers, AnswersBy, HoldsTheSame, IsFilled, Refuses};
ghost use Rattle.opgp_handles.specs.Calls.{RefusesBy, mode_by, out_of};
ghost use Rattle.opgp_codec.specs.declared.mode.Mode.{Mode};

use crate::calls::{mode_by, put_text, read_ring};
use crate::making::{joined, keep, keep_found, keep_held};
use crate::ring::Ring;
use crate::status::{CLOSED, DONE, LIMITS, MEMORY};
use crate::tables::put_row_octets;
use opgp_codec::Mode;
use opgp_keyring::nth;
use opgp_tables::{FaultRow, GivenLimits};
use std::alloc::Global;

/// Reads the keyring of an input, armored or binary, and keeps it in the handle.
pub fn ring_open(
    alloc: Global,
    input: &[u8],
    limits: &GivenLimits,
    ring: &mut Ring,
    fault: &mut FaultRow,
) -> u32
    // It holds the one keyring that the octets encode.
    ensures done { result ≡ 0 → (ring.new.is_open ≡ true)
        × Answers limits.now input.now (Ok ring.new.slot.held.keyring) }
    // Or this is the one fault that refuses them.
    ensures refused { result ≡ 1 → Refuses limits.now input.now fault.new }
    ensures limits { result ≡ 4 → MayBeGiven limits.now → ⊥ }
    ensures allowed { result ≢ 4 → MayBeGiven limits.now }
    ensures kept { result ≢ 0 → ring.new ≡ ring.old }
    ensures fault { result ≢ 1 → fault.new ≡ fault.old }
    ensures status { (result ≡ 0) ⊎ ((result ≡ 1) ⊎ ((result ≡ 3) ⊎ (result ≡ 4))) }
{
    let held = match read_ring(alloc, input, Mode::Auto, limits, fault) {
        Ok(held) => held,
        Err(status) => return status,
    };
    keep_held(alloc, ring, held)
}

/// Reads the keyring of an input by the mode of a number, and keeps it in the handle.
pub fn ring_open_mode(
    alloc: Global,
    input: &[u8],
    mode: u32,
    limits: &GivenLimits,
    ring: &mut Ring,
    fault: &mut FaultRow,
) -> u32
    ensures done { result ≡ 0 → (m : Mode) × (mode_by mode ≡ Some m) × (ring.new.is_open ≡ true)
        × AnswersBy m limits.now input.now (Ok ring.new.slot.held.keyring) }
    ensures refused { result ≡ 1 → (m : Mode) × (mode_by mode ≡ Some m)
        × RefusesBy m limits.now input.now fault.new }
    ensures limits { result ≡ 4 → (mode < 3) × MayBeGiven limits.now → ⊥ }
    ensures allowed { result ≢ 4 → (mode < 3) × MayBeGiven limits.now }
    ensures kept { result ≢ 0 → ring.new ≡ ring.old }
    ensures fault { result ≢ 1 → fault.new ≡ fault.old }
    ensures status { (result ≡ 0) ⊎ ((result ≡ 1) ⊎ ((result ≡ 3) ⊎ (result ≡ 4))) }
{
    let Some(mode) = mode_by(mode) else {
        return LIMITS;
    };
    let held = match read_ring(alloc, input, mode, limits, fault) {
        Ok(held) => held,
        Err(status) => return status,
    };
    keep_held(alloc, ring, held)
}

/// Lets go what a handle holds.
pub fn ring_close(ring: Ring) {
    drop(ring.into_box());
}

/// Lets go what a handle holds, and leaves it closed.
pub fn ring_clear(alloc: Global, ring: &mut Ring)
    ensures { ring.new.is_open ≡ false }
{
    drop(ring.take(alloc));
}

/// Puts how many octets of the input outside of armored blocks were passed over though they are no
/// text.
pub fn ring_skipped(alloc: Global, ring: &mut Ring, count: &mut u64) -> u32
    ensures done { result ≡ 0 → count.new ≡ ring.old.slot.held.skipped }
    ensures kept { result ≢ 0 → count.new ≡ count.old }
    ensures closed { (result ≡ 5) ↔ (ring.old.is_open ≡ false) }
    ensures ring { HoldsTheSame ring.old ring.new }
    ensures status { (result ≡ 0) ⊎ (result ≡ 5) }
{
    let Some(held) = ring.take(alloc) else {
        return CLOSED;
    };
    *count = held.skipped;
    ring.give(held);
    DONE
}

/// Puts the octets that the signature of a row hashes (RFC 9580, 5.2.4).
pub fn ring_octets(
    alloc: Global,
    ring: &mut Ring,
    row: u64,
    octets: &mut [u8],
    size: &mut u64,
) -> u32
    ensures done { result ≡ 0 → (q : QuestionValue)
        × (question_in (slice_get (asked_of ring.old.slot.held.keyring) row) ≡ Some q)
        × IsFilled (hashed q) octets.old octets.new × (size.new ≡ length (hashed q)) }
    ensures room { result ≡ 2 → (q : QuestionValue)
        × (question_in (slice_get (asked_of ring.old.slot.held.keyring) row) ≡ Some q)
        × (length octets.old < length (hashed q)) × (size.new ≡ length (hashed q)) }
    ensures none { result ≡ 6
        → question_in (slice_get (asked_of ring.old.slot.held.keyring) row) ≡ None }
    ensures kept { result ≢ 0 → octets.new ≡ octets.old }
    ensures closed { (result ≡ 5) ↔ (ring.old.is_open ≡ false) }
    ensures ring { HoldsTheSame ring.old ring.new }
    ensures status { (result ≡ 0) ⊎ ((result ≡ 2) ⊎ ((result ≡ 3) ⊎ ((result ≡ 5)
        ⊎ (result ≡ 6)))) }
{
    let Some(held) = ring.take(alloc) else {
        return CLOSED;
    };
    let status = put_row_octets(alloc, &held.keyring, row, octets, size);
    ring.give(held);
    status
}

/// Puts the packets of a keyring: bare, or as one block of armor if `armor` isn't 0.
pub fn ring_write(
    alloc: Global,
    ring: &mut Ring,
    armor: u32,
    text: &mut [u8],
    size: &mut u64,
) -> u32
    ensures done { result ≡ 0 → IsFilled
        (packets_text (out_of armor) (flat ring.old.slot.held.keyring)) text.old text.new }
    ensures room { result ≡ 2 → length text.old
        < length (packets_text (out_of armor) (flat ring.old.slot.held.keyring)) }
    ensures kept { result ≢ 0 → text.new ≡ text.old }
    ensures size { (result ≡ 0) ⊎ (result ≡ 2) → size.new
        ≡ length (packets_text (out_of armor) (flat ring.old.slot.held.keyring)) }
    ensures closed { (result ≡ 5) ↔ (ring.old.is_open ≡ false) }
    ensures ring { HoldsTheSame ring.old ring.new }
    ensures status { (result ≡ 0) ⊎ ((result ≡ 2) ⊎ ((result ≡ 3) ⊎ (result ≡ 5))) }
{
    let Some(held) = ring.take(alloc) else {
        return CLOSED;
    };
    let status = put_text(alloc, &held.keyring, armor, text, size);
    ring.give(held);
    status
}

/// Keeps the certificate of this number, counted from 0, as a keyring.
pub fn ring_certificate(alloc: Global, ring: &mut Ring, number: u64, into: &mut Ring) -> u32
    ensures done { result ≡ 0 → (into.new.is_open ≡ true)
        × (nth_of ring.old.slot.held.keyring number ≡ Some into.new.slot.held.keyring) }
    ensures none { result ≡ 6 → nth_of ring.old.slot.held.keyring number ≡ None }
    ensures kept { result ≢ 0 → into.new ≡ into.old }
    ensures closed { (result ≡ 5) ↔ (ring.old.is_open ≡ false) }
    ensures ring { HoldsTheSame ring.old ring.new }
    ensures status { (result ≡ 0) ⊎ ((result ≡ 3) ⊎ ((result ≡ 5) ⊎ (result ≡ 6))) }
{
    let Some(held) = ring.take(alloc) else {
        return CLOSED;
    };
    let found = nth(alloc, &held.keyring, number as usize);
    ring.give(held);
    keep_found(alloc, found, into)
}

/// Keeps a keyring of the packets of two, those of the other behind those of the first.
pub fn ring_join(alloc: Global, ring: &mut Ring, other: &mut Ring, into: &mut Ring) -> u32
    ensures done { result ≡ 0 → (into.new.is_open ≡ true)
        × (flat into.new.slot.held.keyring
        ≡ flat ring.old.slot.held.keyring ++ flat other.old.slot.held.keyring) }
    ensures open { result ≡ 0 → (ring.old.is_open ≡ true) × (other.old.is_open ≡ true) }
    ensures kept { result ≢ 0 → into.new ≡ into.old }
    ensures closed { result ≡ 5 → (ring.old.is_open ≡ false) ⊎ (other.old.is_open ≡ false) }
    ensures first { ring.old.is_open ≡ false → result ≡ 5 }
    ensures ring { HoldsTheSame ring.old ring.new }
    ensures other { HoldsTheSame other.old other.new }
    ensures status { (result ≡ 0) ⊎ ((result ≡ 3) ⊎ (result ≡ 5)) }
{
    let Some(held) = ring.take(alloc) else {
        return CLOSED;
    };
    let Some(more) = other.take(alloc) else {
        ring.give(held);
        return CLOSED;
    };
    let made = joined(alloc, &held.keyring, &more.keyring);
    ring.give(held);
    other.give(more);
    match made {
        Ok(made) => keep(alloc, into, made),
        Err(_) => MEMORY,
    }
}
