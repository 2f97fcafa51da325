//! Files of verdicts on the signatures of a keyring.

ghost use Rattle.std.specs.Prelude.{◌≡◌, ◌≢◌, ◌↔◌, ◌⊎◌, ◌<◌, List, length, map, IfOk, false};
ghost use Rattle.opgp_report.specs.declared.verifier.Verdict.{Verdict};
ghost use Rattle.opgp_state.specs.VerdictFile.{HasVerdicts};
ghost use Rattle.opgp_handles.specs.Calls.{HoldsTheSame, IsFilled};
ghost use Rattle.opgp_handles.specs.Standings.{verdict_number};

use crate::calls::put_octets;
use crate::ring::Ring;
use crate::status::{CLOSED, MEMORY, NO_ROW};
use opgp_keyring::Keyring;
use opgp_octets::OutOfMemory;
use opgp_report::Verdict;
use opgp_state::read_verdicts;
use std::alloc::Global;

/// The number of a verdict: 1 good, 2 bad, 0 undecided.
fn verdict_number(verdict: Verdict) -> u8
    ensures { result ≡ verdict_number verdict }
{
    match verdict {
        Verdict::Good => 1,
        Verdict::Bad => 2,
        Verdict::Undecided => 0,
    }
}

/// The numbers of verdicts. Fails only when out of memory.
fn numbers_of(alloc: Global, verdicts: &[Verdict]) -> Result<Vec<u8>, OutOfMemory>
    ensures { IfOk result (λ v. v.items ≡ map verdict_number verdicts.now) }
{
    let mut numbers = Vec::with_capacity(alloc, verdicts.len())?;
    let mut rest = verdicts;
    'verdicts: while let [verdict, more @ ..] = rest {
        numbers.push(verdict_number(*verdict))?;
        rest = more;
    }
    Ok(numbers)
}

/// Puts the numbers of the verdicts that a file has on a keyring; the status.
fn put_verdicts(
    alloc: Global,
    keyring: &Keyring,
    file: &[u8],
    verdicts: &mut [u8],
    size: &mut u64,
) -> u32
    ensures done { result ≡ 0 → (found : List Verdict) × HasVerdicts file.now keyring.now found
        × IsFilled (map verdict_number found) verdicts.old verdicts.new
        × (size.new ≡ length (map verdict_number found)) }
    ensures room { result ≡ 2 → (found : List Verdict) × HasVerdicts file.now keyring.now found
        × (length verdicts.old < length (map verdict_number found))
        × (size.new ≡ length (map verdict_number found)) }
    ensures none { result ≡ 6 → (found : List Verdict) → HasVerdicts file.now keyring.now found
        → ⊥ }
    ensures kept { result ≢ 0 → verdicts.new ≡ verdicts.old }
    ensures status { (result ≡ 0) ⊎ ((result ≡ 2) ⊎ ((result ≡ 3) ⊎ (result ≡ 6))) }
{
    let found = match read_verdicts(alloc, keyring, file) {
        Ok(Some(found)) => found,
        Ok(None) => return NO_ROW,
        Err(_) => return MEMORY,
    };
    match numbers_of(alloc, &found) {
        Ok(numbers) => put_octets(&numbers, verdicts, size),
        Err(_) => MEMORY,
    }
}

/// Puts the verdicts that a file has on the signatures of the keyring.
pub fn ring_verdicts(
    alloc: Global,
    ring: &mut Ring,
    file: &[u8],
    verdicts: &mut [u8],
    size: &mut u64,
) -> u32
    ensures done { result ≡ 0 → (found : List Verdict)
        × HasVerdicts file.now ring.old.slot.held.keyring found
        × IsFilled (map verdict_number found) verdicts.old verdicts.new
        × (size.new ≡ length (map verdict_number found)) }
    ensures room { result ≡ 2 → (found : List Verdict)
        × HasVerdicts file.now ring.old.slot.held.keyring found
        × (length verdicts.old < length (map verdict_number found))
        × (size.new ≡ length (map verdict_number found)) }
    ensures none { result ≡ 6 → (found : List Verdict)
        → HasVerdicts file.now ring.old.slot.held.keyring found → ⊥ }
    ensures kept { result ≢ 0 → verdicts.new ≡ verdicts.old }
    ensures closed { (result ≡ 5) ↔ (ring.old.is_open ≡ false) }
    ensures ring { HoldsTheSame ring.old ring.new }
    ensures status { (result ≡ 0) ⊎ ((result ≡ 2) ⊎ ((result ≡ 3) ⊎ ((result ≡ 5)
        ⊎ (result ≡ 6)))) }
{
    let Some(held) = ring.take(alloc) else {
        return CLOSED;
    };
    let status = put_verdicts(alloc, &held.keyring, file, verdicts, size);
    ring.give(held);
    status
}
