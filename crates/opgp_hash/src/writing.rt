//! Writing the octets that a signature hashes.

ghost use Rattle.std.specs.Prelude.{◌≡◌, ◌≤◌, ◌+◌, ◌++◌, length, Some, OnOk, OnErr, IsOk};
ghost use Rattle.std.specs.Prelude.{vec_len, vec_capacity};
ghost use Rattle.opgp_hash.specs.Hashed.{hashed};
ghost use Rattle.opgp_hash.specs.Part.{part_octets};
ghost use Rattle.opgp_hash.specs.Question.{question_value};
ghost use Rattle.opgp_hash.specs.Reopening.{question_at};

use crate::laws;
use crate::part::Part;
use crate::parts::Parts;
use crate::question::Question;
use opgp_octets::{OutOfMemory, put};

/// Writes the octets that the signature of this question hashes at the end of `out`.
///
/// Fails only when out of memory; `out` is then unchanged.
pub fn write_octets(question: &Question<'_>, out: &mut Vec<u8>) -> Result<(), OutOfMemory>
    ensures ok { OnOk result
        (out.new.items ≡ out.old.items ++ hashed (question_value question.now)) }
    ensures err { OnErr result (out.new.items ≡ out.old.items) }
    // These octets are read back as this question.
    ensures reopens { question_at (hashed (question_value question.now))
        ≡ Some (question_value question.now) }
    // It can't fail if the vector has the room.
    ensures succeeds { vec_len out.old + length (hashed (question_value question.now))
        ≤ vec_capacity out.old
        → IsOk result }
{
    question.stands();
    laws::written_question();
    let parts = Parts::of(question);
    out.reserve(parts.len())?;
    put_part(&parts.salt, out);
    put_part(&parts.first, out);
    put_part(&parts.second, out);
    put_part(&parts.front, out);
    put_part(&parts.trailer, out);
    Ok(())
}

/// Writes the part at the end of `out`, which has room for it.
fn put_part(part: &Part<'_>, out: &mut Vec<u8>)
    requires room { vec_len out.old + length (part_octets part.now) ≤ vec_capacity out.old }
    ensures items { out.new.items ≡ out.old.items ++ part_octets part.now }
    ensures len { vec_len out.new ≡ vec_len out.old + length (part_octets part.now) }
    ensures capacity { vec_capacity out.old ≤ vec_capacity out.new }
{
    put(part.head.octets(), out);
    put(part.body, out);
}
