//! The fields of what a signature is made over.

ghost use Rattle.std.specs.Prelude.{◌+◌, ◌≤◌, ◌^◌, IfOk};
ghost use Rattle.opgp_octets.specs.Octets.{IsBodySized};
ghost use Rattle.opgp_hash.specs.Subject.{subject_value};
ghost use Rattle.opgp_hash.specs.SubjectValue.{IsSubject};
ghost use Rattle.opgp_explain.specs.Fields.{body_fields, subject_fields};
ghost use Rattle.opgp_explain.specs.Telling.{Tells};
ghost use Rattle.opgp_explain.specs.declared.meaning.Meaning.TheVariants as meaning;

use crate::key::tell_key;
use crate::meaning::{BodyPart, Meaning, Role};
use crate::telling::Telling;
use opgp_hash::Subject;
use opgp_octets::OutOfMemory;

/// The fields of the subject of a question of this version.
pub(crate) fn tell_subject(
    telling: Telling,
    version: u8,
    subject: &Subject<'_>,
) -> Result<Telling, OutOfMemory>
    requires room { telling.end ≤ 2 ^ 63 }
    requires subject { IsSubject version (subject_value subject.now) }
    ensures tells { IfOk result (λ t. Tells telling t
        (subject_fields version (subject_value subject.now))) }
    ensures most { IfOk result (λ t. t.end ≤ telling.end + 2 ^ 57) }
{
    match subject {
        Subject::Binary(content) => telling.with(Meaning::Content, content),
        Subject::One(key) => tell_key(telling, Role::Primary, version, key),
        Subject::Two(primary, subkey) => {
            let telling = tell_key(telling, Role::Primary, version, primary)?;
            tell_key(telling, Role::Subkey, version, subkey)
        }
        Subject::OnUserId(primary, id) => {
            let telling = tell_key(telling, Role::Primary, version, primary)?;
            tell_user_id(telling, id)
        }
        Subject::OnAttribute(primary, attribute) => {
            let telling = tell_key(telling, Role::Primary, version, primary)?;
            tell_attribute(telling, attribute.body())
        }
    }
}

/// The fields of a user ID.
fn tell_user_id(telling: Telling, id: &[u8]) -> Result<Telling, OutOfMemory>
    requires room { telling.end ≤ 2 ^ 63 + 2 ^ 56 }
    requires sized { IsBodySized id.now }
    ensures tells { IfOk result (λ t. Tells telling t
        (body_fields meaning.UserId 0xB4 id.now)) }
    ensures most { IfOk result (λ t. t.end ≤ telling.end + 2 ^ 33) }
{
    let count = (id.len() as u32).to_be_bytes();
    let telling = telling.with(Meaning::UserId(BodyPart::Prefix), &[0xB4])?;
    let telling = telling.with(Meaning::UserId(BodyPart::Length), &count)?;
    telling.with(Meaning::UserId(BodyPart::Body), id)
}

/// The fields of a user attribute of this body.
fn tell_attribute(telling: Telling, body: &[u8]) -> Result<Telling, OutOfMemory>
    requires room { telling.end ≤ 2 ^ 63 + 2 ^ 56 }
    requires sized { IsBodySized body.now }
    ensures tells { IfOk result (λ t. Tells telling t
        (body_fields meaning.Attribute 0xD1 body.now)) }
    ensures most { IfOk result (λ t. t.end ≤ telling.end + 2 ^ 33) }
{
    let count = (body.len() as u32).to_be_bytes();
    let telling = telling.with(Meaning::Attribute(BodyPart::Prefix), &[0xD1])?;
    let telling = telling.with(Meaning::Attribute(BodyPart::Length), &count)?;
    telling.with(Meaning::Attribute(BodyPart::Body), body)
}
