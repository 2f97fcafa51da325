//! Files of verdicts on the signatures of a keyring.

ghost use Rattle.std.specs.Prelude.{◌≡◌, ◌≢◌, ◌↔◌, ◌⊎◌, ◌<◌, List, length, map, false};
ghost use Rattle.opgp_report.specs.declared.verifier.Verdict.{Verdict};
ghost use Rattle.opgp_state.specs.VerdictFile.{HasVerdicts};
ghost use Rattle.opgp_handles.specs.Calls.{HoldsTheSame, IsFilled};
ghost use Rattle.opgp_handles.specs.Standings.{verdict_number};

use opgp_handles::{Ring, ring_verdicts};
use std::alloc::Global;

/// Puts the verdicts that a file has on the signatures of the keyring, as `opgp-verify --verdicts`
/// writes it: one for each row of the table of jobs, in order, 1 good, 2 bad, 0 undecided. The file
/// says of which keyring it is, so that it is taken for no other one.
///
/// The status says whether it is done; else the verdicts are unchanged: they have too little room,
/// the file isn't one of verdicts on this keyring, memory ran out, or the handle holds nothing.
#[unsafe(no_mangle)]
pub extern "C" fn opgp_ring_verdicts(
    alloc: Global,
    ring: &mut Ring,
    file: &[u8],
    verdicts: &mut [u8],
    size: &mut u64,
) -> u32
    ensures done { result ≡ 0 → (found : List Verdict)
        × HasVerdicts file.now ring.old.slot.held.keyring found
        × IsFilled (map verdict_number found) verdicts.old verdicts.new
        × (size.new ≡ length (map verdict_number found)) }
    ensures room { result ≡ 2 → (found : List Verdict)
        × HasVerdicts file.now ring.old.slot.held.keyring found
        × (length verdicts.old < length (map verdict_number found))
        × (size.new ≡ length (map verdict_number found)) }
    ensures none { result ≡ 6 → (found : List Verdict)
        → HasVerdicts file.now ring.old.slot.held.keyring found → ⊥ }
    ensures kept { result ≢ 0 → verdicts.new ≡ verdicts.old }
    ensures closed { (result ≡ 5) ↔ (ring.old.is_open ≡ false) }
    ensures ring { HoldsTheSame ring.old ring.new }
    ensures status { (result ≡ 0) ⊎ ((result ≡ 2) ⊎ ((result ≡ 3) ⊎ ((result ≡ 5)
        ⊎ (result ≡ 6)))) }
{
    ring_verdicts(alloc, ring, file, verdicts, size)
}
