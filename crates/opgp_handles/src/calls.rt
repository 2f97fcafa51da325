//! What the exported calls have in common.

ghost use Rattle.std.specs.Prelude.{◌≡◌, ◌≢◌, ◌↔◌, ◌⊎◌, ◌<◌, length, IfOk, IfErr, Ok, Err};
ghost use Rattle.opgp_keyring.specs.Keyring.{flat};
ghost use Rattle.opgp_codec.specs.Writing.{packets_text};
ghost use Rattle.opgp_tables.specs.GivenLimits.{MayBeGiven};
ghost use Rattle.opgp_handles.specs.Calls.{AnswersBy, AreSized, IsFilled, IsShort, RefusesBy};
ghost use Rattle.opgp_handles.specs.Calls.{mode_by, out_of};

use crate::counted::Counted;
use crate::sizes::Sizes;
use crate::slot::Held;
use crate::status::{DONE, LIMITS, MEMORY, REFUSED, ROOM};
use crate::text::keyring_text;
use opgp_codec::{Answer, Mode, Out, Watched, read_keyring};
use opgp_keyring::Keyring;
use opgp_tables::{FaultRow, GivenLimits, fill};
use std::alloc::Global;

/// What a handle of the keyring of an input holds, which is read by a mode; or the status that says
/// why there is none.
pub(crate) fn read_ring(
    alloc: Global,
    input: &[u8],
    mode: Mode,
    limits: &GivenLimits,
    fault: &mut FaultRow,
) -> Result<Held, u32>
    ensures ring { IfOk result (λ h. AnswersBy mode limits.now input.now (Ok h.keyring)) }
    ensures refused { result ≡ Err 1 → RefusesBy mode limits.now input.now fault.new }
    ensures fault { result ≢ Err 1 → fault.new ≡ fault.old }
    ensures limits { result ≡ Err 4 → MayBeGiven limits.now → ⊥ }
    ensures allowed { result ≢ Err 4 → MayBeGiven limits.now }
    ensures status { IfErr result (λ s. (s ≡ 1) ⊎ ((s ≡ 3) ⊎ (s ≡ 4))) }
{
    let Some(limits) = limits.limits() else {
        return Err(LIMITS);
    };
    let mut source = Counted::new(Watched::new(input));
    match read_keyring(alloc, &mut source, mode, &limits) {
        Ok(Answer::Ring(keyring)) => Ok(Held {
            keyring,
            skipped: source.skipped(),
        }),
        Ok(Answer::Refused(found)) => {
            *fault = FaultRow::of(found);
            Err(REFUSED)
        }
        Err(_) => Err(MEMORY),
    }
}

/// The mode of a number, if there is one.
pub(crate) fn mode_by(number: u32) -> Option<Mode>
    ensures { result ≡ mode_by number }
{
    match number {
        0 => Some(Mode::Auto),
        1 => Some(Mode::Armor),
        2 => Some(Mode::Binary),
        _ => None,
    }
}

/// Puts rows and octets into tables, if both have the room.
pub(crate) fn put_both<T: Copy>(
    found: &[T],
    octets: &[u8],
    rows: &mut [T],
    bytes: &mut [u8],
    sizes: &mut Sizes,
) -> u32
    ensures done { result ≡ 0 → IsFilled found.now rows.old rows.new
        × IsFilled octets.now bytes.old bytes.new }
    ensures room { result ≡ 2 → IsShort found.now octets.now rows.old bytes.old }
    ensures kept { result ≢ 0 → (rows.new ≡ rows.old) × (bytes.new ≡ bytes.old) }
    ensures sizes { AreSized found.now octets.now sizes.new }
    ensures status { (result ≡ 0) ⊎ (result ≡ 2) }
{
    *sizes = Sizes {
        rows: found.len() as u64,
        bytes: octets.len() as u64,
    };
    if octets.len() > bytes.len() {
        return ROOM;
    }
    if !fill(found, rows) {
        return ROOM;
    }
    fill(octets, bytes);
    DONE
}

/// Puts octets into a table, if it has the room.
pub(crate) fn put_octets(octets: &[u8], bytes: &mut [u8], size: &mut u64) -> u32
    ensures done { result ≡ 0 → IsFilled octets.now bytes.old bytes.new }
    ensures room { result ≡ 2 → length bytes.old < length octets.now }
    ensures kept { result ≢ 0 → bytes.new ≡ bytes.old }
    ensures size { size.new ≡ length octets.now }
    ensures status { (result ≡ 0) ⊎ (result ≡ 2) }
{
    *size = octets.len() as u64;
    if fill(octets, bytes) { DONE } else { ROOM }
}

/// How a keyring is written.
fn out_of(armor: u32) -> Out
    ensures { result ≡ out_of armor }
{
    if armor == 0 { Out::Binary } else { Out::Armor }
}

/// Puts a keyring's text into a table, if it has the room.
pub(crate) fn put_text(
    alloc: Global,
    keyring: &Keyring,
    armor: u32,
    text: &mut [u8],
    size: &mut u64,
) -> u32
    ensures done { result ≡ 0 → IsFilled (packets_text (out_of armor) (flat keyring.now)) text.old
        text.new }
    ensures room { result ≡ 2
        → length text.old < length (packets_text (out_of armor) (flat keyring.now)) }
    ensures kept { result ≢ 0 → text.new ≡ text.old }
    ensures size { result ≢ 3
        → size.new ≡ length (packets_text (out_of armor) (flat keyring.now)) }
    ensures status { (result ≡ 0) ⊎ ((result ≡ 2) ⊎ (result ≡ 3)) }
{
    match keyring_text(alloc, keyring, out_of(armor)) {
        Ok(found) => put_octets(&found, text, size),
        Err(_) => MEMORY,
    }
}
