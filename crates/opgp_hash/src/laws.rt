//! What the definitions imply: hashed octets belong to one question, and can be read back as it.

ghost use Rattle.std.specs.Prelude.{◌≡◌, ◌↔◌, ℕ, List, Some};
ghost use Rattle.opgp_octets.specs.Octets.{IsOctets};
ghost use Rattle.opgp_hash.specs.Hashed.{hashed};
ghost use Rattle.opgp_hash.specs.QuestionValue.{QuestionValue, IsQuestion};
ghost use Rattle.opgp_hash.specs.Reopening.{question_at};

/// A question is read back from octets exactly if they are its hashed octets.
pub fn questions_are_reopened()
    ensures { (q : QuestionValue) (o : List ℕ) → IsOctets o
        → (question_at o ≡ Some q) ↔ (IsQuestion q × (hashed q ≡ o)) }
{
    opgp_packet::field_laws::fields_are_read();
}

/// The hashed octets of a question are read back as that question.
pub fn written_question()
    ensures { (q : QuestionValue) → IsQuestion q → question_at (hashed q) ≡ Some q }
{
    opgp_packet::field_laws::fields_are_read();
}

/// Two questions that differ in anything have different hashed octets.
pub fn one_question()
    ensures { (q r : QuestionValue) → IsQuestion q → IsQuestion r → hashed q ≡ hashed r → q ≡ r }
{
    opgp_packet::field_laws::fields_are_read();
}
