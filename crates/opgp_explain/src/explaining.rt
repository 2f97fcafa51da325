//! The fields of what a signature hashes.

ghost use Rattle.std.specs.Prelude.{◌≡◌, ◌+◌, ◌≤◌, ◌++◌, ◌^◌, IfOk, length};
ghost use Rattle.opgp_explain.specs.Field.{octets_of, placed};
ghost use Rattle.opgp_explain.specs.Fields.{fields_of, salt_fields, front_fields, trailer_fields};
ghost use Rattle.opgp_explain.specs.Telling.{Tells};
ghost use Rattle.opgp_hash.specs.Hashed.{hashed, front_hashed};
ghost use Rattle.opgp_hash.specs.Question.{question_value};
ghost use Rattle.opgp_hash.specs.QuestionValue.{IsQuestion};

use crate::area::tell_area;
use crate::field::Field;
use crate::laws;
use crate::meaning::{Meaning, SignaturePart, TrailerPart};
use crate::subject::tell_subject;
use crate::telling::Telling;
use opgp_hash::Question;
use opgp_octets::OutOfMemory;
use std::alloc::Global;

/// The fields of what the signature of this question hashes, in the order in which they are hashed
/// (RFC 9580, 5.2.4): first the salt, then the keys and what else is signed, then the signature's
/// own fields, its subpackets, and the trailer.
///
/// The octets of a field are those at its offset in what [`opgp_hash::write_octets`] writes. Fails
/// only when out of memory.
pub fn fields_of(alloc: Global, question: &Question<'_>) -> Result<Vec<Field>, OutOfMemory>
    ensures exact { IfOk result (λ v.
        v.items ≡ placed 0 (fields_of (question_value question.now))) }
    // No octet is left out, and none is told twice.
    ensures whole { octets_of (fields_of (question_value question.now))
        ≡ hashed (question_value question.now) }
{
    laws::fields_are_whole();
    // Called for its contract: the subject is one of such a question.
    let _subject = question.subject();
    tell_all(alloc, question)
}

/// All fields, one after the other.
fn tell_all(alloc: Global, question: &Question<'_>) -> Result<Vec<Field>, OutOfMemory>
    ensures { IfOk result (λ v. v.items ≡ placed 0 (fields_of (question_value question.now))) }
{
    let subject = question.subject();
    let telling = tell_salt(Telling::new(alloc), question)?;
    let telling = tell_subject(telling, question.version(), &subject)?;
    let telling = tell_front(telling, question)?;
    let telling = tell_area(telling, question.hashed_area())?;
    let telling = tell_trailer(telling, question)?;
    Ok(telling.fields)
}

/// The salt, in version 6.
fn tell_salt(telling: Telling, question: &Question<'_>) -> Result<Telling, OutOfMemory>
    requires { telling.end ≡ 0 }
    ensures tells { IfOk result (λ t. Tells telling t
        (salt_fields (question_value question.now).version (question_value question.now).salt)) }
    ensures most { IfOk result (λ t. t.end ≤ 2 ^ 63) }
{
    if question.version() == 4 {
        return Ok(telling);
    }
    telling.with(Meaning::Salt, question.salt())
}

/// The fields of the signature's own body in front of its hashed area.
fn tell_front(telling: Telling, question: &Question<'_>) -> Result<Telling, OutOfMemory>
    requires room { telling.end ≤ 2 ^ 63 + 2 ^ 59 }
    requires question { IsQuestion (question_value question.now) }
    ensures tells { IfOk result (λ t. Tells telling t
        (front_fields (question_value question.now))) }
    ensures most { IfOk result (λ t. t.end ≤ telling.end + 8) }
{
    let (kind, algorithm, hash) = (question.kind(), question.algorithm(), question.hash());
    let area = question.hashed_area().len();
    let telling = telling.with(
        Meaning::Signature(SignaturePart::Version),
        &[question.version()],
    )?;
    let telling = telling.with(Meaning::Signature(SignaturePart::Type), &[kind])?;
    let telling = telling.with(
        Meaning::Signature(SignaturePart::KeyAlgorithm),
        &[algorithm],
    )?;
    let telling = telling.with(Meaning::Signature(SignaturePart::HashAlgorithm), &[hash])?;
    let length = Meaning::Signature(SignaturePart::AreaLength);
    if question.version() == 4 {
        telling.with(length, &(area as u16).to_be_bytes())
    } else {
        telling.with(length, &(area as u32).to_be_bytes())
    }
}

/// The fields of the trailer.
fn tell_trailer(telling: Telling, question: &Question<'_>) -> Result<Telling, OutOfMemory>
    requires room { telling.end ≤ 2 ^ 63 + 2 ^ 60 }
    requires question { IsQuestion (question_value question.now) }
    ensures { IfOk result (λ t. Tells telling t
        (trailer_fields (question_value question.now).version
        (length (front_hashed (question_value question.now))))) }
{
    let version = question.version();
    let front = if version == 4 { 6 } else { 8 };
    let count = (question.hashed_area().len() + front) as u32;
    let telling = telling.with(Meaning::Trailer(TrailerPart::Version), &[version])?;
    let telling = telling.with(Meaning::Trailer(TrailerPart::Marker), &[0xFF])?;
    telling.with(Meaning::Trailer(TrailerPart::Length), &count.to_be_bytes())
}
