//! The calls for the canonical text of a document.

ghost use Rattle.std.specs.Prelude.{◌≡◌, ◌≢◌, ◌⊎◌, ◌<◌, ◌++◌, ℕ, List, length, false};
ghost use Rattle.opgp_document.specs.CanonicalText.{IsRead, TellsStray};
ghost use Rattle.opgp_document.specs.StrayReturn.{text_fault};
ghost use Rattle.opgp_document.specs.Text.{HasText, ends_cr, to_text};
ghost use Rattle.opgp_tables.specs.FaultRow.{fault_row};
ghost use Rattle.opgp_handles.specs.Calls.{IsFilled};
ghost use Rattle.opgp_handles.specs.Texts.{state_of, text_of};

use crate::status::{DONE, REFUSED, ROOM};
use opgp_document::CanonicalText;
use opgp_tables::FaultRow;

/// How far the canonical text of a document is made: for C numbers, all zeros at first.
#[repr(C)]
#[derive(Clone, Copy)]
pub struct TextState {
    given: u64,
    last_return: u64,
    is_behind_return: u32,
    reserved: u32,
}

impl TextState {
    /// That of a text.
    fn of(text: CanonicalText) -> TextState
        ensures text { text_of result ≡ text }
        ensures state { result ≡ state_of text }
    {
        let (last_return, is_behind_return) = match text.last_return() {
            Some(place) => (place, 1),
            None => (0, 0),
        };
        TextState {
            given: text.given(),
            last_return,
            is_behind_return,
            reserved: 0,
        }
    }

    /// The text that is made so far.
    fn text(&self) -> CanonicalText
        ensures { result ≡ text_of self.now }
    {
        let last_return = if self.is_behind_return == 0 {
            None
        } else {
            Some(self.last_return)
        };
        CanonicalText::resumed(self.given, last_return)
    }
}

/// Takes the next piece of a document, and puts its canonical text (RFC 9580, 5.2.1.2).
pub fn canonical(
    state: &mut TextState,
    piece: &[u8],
    octets: &mut [u8],
    size: &mut u64,
    fault: &mut FaultRow,
) -> u32
    ghost so_far: { List ℕ }
    requires { IsRead (text_of state.old) so_far }
    ensures done { result ≡ 0 → IsRead (text_of state.new) (so_far ++ piece.now)
        × IsFilled (to_text (ends_cr false so_far) piece.now) octets.old octets.new
        × (size.new ≡ length (to_text (ends_cr false so_far) piece.now)) }
    ensures state { result ≡ 0 → state.new ≡ state_of (text_of state.new) }
    // Whatever comes behind the piece.
    ensures refused { result ≡ 1 → (pos : ℕ) × (fault.new ≡ fault_row (text_fault pos))
        × ((more : List ℕ) → TellsStray (so_far ++ piece.now ++ more) pos) }
    ensures room { result ≡ 2
        → (length octets.old < length (to_text (ends_cr false so_far) piece.now))
        × (size.new ≡ length (to_text (ends_cr false so_far) piece.now)) }
    ensures kept { result ≢ 0 → (state.new ≡ state.old) × (octets.new ≡ octets.old) }
    ensures fault { result ≢ 1 → fault.new ≡ fault.old }
    ensures size { result ≡ 1 → size.new ≡ size.old }
    ensures status { (result ≡ 0) ⊎ ((result ≡ 1) ⊎ (result ≡ 2)) }
{
    let mut text = state.text();
    match text.fill(piece, octets) {
        Ok(Ok(written)) => {
            *state = TextState::of(text);
            *size = written as u64;
            DONE
        }
        Ok(Err(stray)) => {
            *fault = FaultRow::of(stray.fault());
            REFUSED
        }
        Err(short) => {
            *size = short.wanted as u64;
            ROOM
        }
    }
}

/// Ends a document whose canonical text was made.
pub fn canonical_end(state: &TextState, fault: &mut FaultRow) -> u32
    ghost so_far: { List ℕ }
    requires { IsRead (text_of state.now) so_far }
    ensures done { result ≡ 0 → HasText so_far (to_text false so_far) }
    ensures refused { result ≡ 1 → (pos : ℕ) × (fault.new ≡ fault_row (text_fault pos))
        × TellsStray so_far pos }
    ensures fault { result ≢ 1 → fault.new ≡ fault.old }
    ensures status { (result ≡ 0) ⊎ (result ≡ 1) }
{
    match state.text().finish() {
        Ok(()) => DONE,
        Err(stray) => {
            *fault = FaultRow::of(stray.fault());
            REFUSED
        }
    }
}
