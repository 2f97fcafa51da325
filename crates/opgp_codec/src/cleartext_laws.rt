//! What the definition of a cleartext message with its signatures implies.

ghost use Rattle.std.specs.Prelude.{◌≡◌, ℕ, List};
ghost use Rattle.opgp_octets.specs.Octets.{IsOctets};
ghost use Rattle.opgp_octets.specs.declared.limits.Limits.{Limits};
ghost use Rattle.opgp_codec.specs.Cleartext.{CleartextAnswer, SignedLines};
ghost use Rattle.opgp_codec.specs.Reading.{Outcome};

use crate::laws::{one_list_of_signatures, some_list_of_signatures};

/// A text has at most one result as a cleartext message: its document and signatures, or one fault.
pub fn one_cleartext_message()
    ensures { (limits : Limits) (text : List ℕ) → IsOctets text → (a b : Outcome SignedLines)
        → CleartextAnswer limits text a → CleartextAnswer limits text b → a ≡ b }
{
    one_list_of_signatures();
}

/// All octets have a result as a cleartext message: its document and signatures, or one fault.
pub fn some_cleartext_message()
    ensures { (limits : Limits) (text : List ℕ) → IsOctets text
        → (a : Outcome SignedLines) × CleartextAnswer limits text a }
{
    some_list_of_signatures();
}
