//! What the definitions of the calls imply for canonical text (RFC 9580, 5.2.1.2), and for the table
//! of states.

ghost use Rattle.std.specs.Prelude.{◌≡◌, ◌++◌, [], ℕ, List, false, map};
ghost use Rattle.opgp_document.specs.CanonicalText.{IsRead};
ghost use Rattle.opgp_document.specs.Text.{ends_cr, to_text};
ghost use Rattle.opgp_report.specs.Standing.{by_number};
ghost use Rattle.opgp_keyring.specs.Keyring.{KeyringValue};
ghost use Rattle.opgp_state.specs.KeyringStates.{keyring_states};
ghost use Rattle.opgp_valid.specs.declared.policy.Policy.{Policy};
ghost use Rattle.opgp_handles.specs.Standings.{verdict_by};
ghost use Rattle.opgp_handles.specs.States.{part_rows, state_rows};
ghost use Rattle.opgp_handles.specs.Texts.{text_of};
ghost use Rattle.opgp_handles.specs.declared.texts.TextState.{TextState};

/// Zeros begin a document: nothing of it was given.
pub fn zeros_begin_a_text()
    ensures { (state : TextState) → state.given ≡ 0 → state.is_behind_return ≡ 0
        → IsRead (text_of state) [] }
{}

/// The texts of the pieces of a document, one behind the other, are the text of the document.
pub fn texts_of_pieces()
    ensures { (so_far piece : List ℕ) → to_text false (so_far ++ piece)
        ≡ to_text false so_far ++ to_text (ends_cr false so_far) piece }
{}

/// The table of states has the rows of the states that the program writes lines of: those of each
/// certificate, in order.
#[tactic(auto, using(crate::proofs::StateRows::rows_are_states))]
pub fn rows_of_c_are_states()
    ensures { (r : KeyringValue) (policy : Policy) (founds : List ℕ) (at : ℕ)
        → state_rows r policy founds at
        ≡ by_number part_rows 0 (keyring_states r (map verdict_by founds) policy at) }
{}
