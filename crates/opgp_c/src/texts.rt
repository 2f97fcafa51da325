//! The calls for the canonical text of a document.

ghost use Rattle.std.specs.Prelude.{◌≡◌, ◌≢◌, ◌⊎◌, ◌<◌, ◌++◌, ℕ, List, length, false};
ghost use Rattle.opgp_document.specs.CanonicalText.{IsRead, TellsStray};
ghost use Rattle.opgp_document.specs.StrayReturn.{text_fault};
ghost use Rattle.opgp_document.specs.Text.{HasText, ends_cr, to_text};
ghost use Rattle.opgp_tables.specs.FaultRow.{fault_row};
ghost use Rattle.opgp_handles.specs.Calls.{IsFilled};
ghost use Rattle.opgp_handles.specs.Texts.{state_of, text_of};

use opgp_handles::{TextState, canonical, canonical_end};
use opgp_tables::FaultRow;

/// Takes the next piece of a document, and puts its canonical text (RFC 9580, 5.2.1.2) at the front
/// of the octets; the texts of all pieces, one after the other, are that of the document. The
/// condition is that so much of the document was given.
///
/// The status says whether it is done; or the document has a carriage return that no line feed
/// follows, and the fault says where the first one is; or the octets are too few, and the size says
/// how many are wanted. Where it isn't done, the piece isn't taken. Allocates nothing.
#[unsafe(no_mangle)]
pub extern "C" fn opgp_canonical(
    state: &mut TextState,
    piece: &[u8],
    octets: &mut [u8],
    size: &mut u64,
    fault: &mut FaultRow,
) -> u32
    ghost so_far: { List ℕ }
    requires { IsRead (text_of state.old) so_far }
    ensures done { result ≡ 0 → IsRead (text_of state.new) (so_far ++ piece.now)
        × IsFilled (to_text (ends_cr false so_far) piece.now) octets.old octets.new
        × (size.new ≡ length (to_text (ends_cr false so_far) piece.now)) }
    ensures state { result ≡ 0 → state.new ≡ state_of (text_of state.new) }
    // Whatever comes behind the piece.
    ensures refused { result ≡ 1 → (pos : ℕ) × (fault.new ≡ fault_row (text_fault pos))
        × ((more : List ℕ) → TellsStray (so_far ++ piece.now ++ more) pos) }
    ensures room { result ≡ 2
        → (length octets.old < length (to_text (ends_cr false so_far) piece.now))
        × (size.new ≡ length (to_text (ends_cr false so_far) piece.now)) }
    ensures kept { result ≢ 0 → (state.new ≡ state.old) × (octets.new ≡ octets.old) }
    ensures fault { result ≢ 1 → fault.new ≡ fault.old }
    ensures size { result ≡ 1 → size.new ≡ size.old }
    ensures status { (result ≡ 0) ⊎ ((result ≡ 1) ⊎ (result ≡ 2)) }
{
    canonical(state, piece, octets, size, fault)
}

/// Ends a document whose canonical text was made. The condition is that so much of it was given.
///
/// The status says whether what was put is the document's text; or the document ends in a carriage
/// return, and the fault says where it is. Allocates nothing.
#[unsafe(no_mangle)]
pub extern "C" fn opgp_canonical_end(state: &TextState, fault: &mut FaultRow) -> u32
    ghost so_far: { List ℕ }
    requires { IsRead (text_of state.now) so_far }
    ensures done { result ≡ 0 → HasText so_far (to_text false so_far) }
    ensures refused { result ≡ 1 → (pos : ℕ) × (fault.new ≡ fault_row (text_fault pos))
        × TellsStray so_far pos }
    ensures fault { result ≢ 1 → fault.new ≡ fault.old }
    ensures status { (result ≡ 0) ⊎ (result ≡ 1) }
{
    canonical_end(state, fault)
}
