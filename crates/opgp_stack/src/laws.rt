//! What the definitions of a run and of its texts imply.

ghost use Rattle.std.specs.Prelude.{◌≡◌, ℕ, List};
ghost use Rattle.opgp_octets.specs.Octets.{IsOctets};
ghost use Rattle.opgp_stack.specs.KeyText.{IsKeyText};
ghost use Rattle.opgp_stack.specs.Running.{Made, Makes};
ghost use Rattle.opgp_stack.specs.Time.{IsTime};
ghost use Rattle.opgp_stack.specs.declared.key_name.KeyName.{KeyName};
ghost use Rattle.opgp_stack.specs.declared.task.Task.{Task};

pub use opgp_codec::laws::{
    one_answer, one_list_of_packets, one_signed_literal, packets_are_written_again, some_answer,
    some_list_of_packets, some_signed_literal,
};
pub use opgp_state::laws::{
    a_date_is_that_of_one_time, a_time_is_written_as_its_date, days_count_dates,
};

/// A task makes at most one thing of octets: one text, or one fault.
pub fn one_thing_is_made()
    ensures { (task : Task) (octets : List ℕ) → IsOctets octets
        → (a b : Made) → Makes task octets a → Makes task octets b → a ≡ b }
{
    one_list_of_packets();
    one_answer();
    one_signed_literal();
}

/// A task makes something of all octets: one text, or one fault.
pub fn something_is_made()
    ensures { (task : Task) (octets : List ℕ) → IsOctets octets
        → (made : Made) × Makes task octets made }
{
    some_list_of_packets();
    some_answer();
    some_signed_literal();
}

/// A text names at most one key.
pub fn a_text_names_one_key()
    ensures { (text : List ℕ) (a b : KeyName) → IsKeyText text a → IsKeyText text b → a ≡ b }
{}

/// A text says one time at most.
pub fn a_text_says_one_time()
    ensures { (text : List ℕ) (a b : ℕ) → IsTime text a → IsTime text b → a ≡ b }
{}
