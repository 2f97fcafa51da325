//! The hashed data of a question, part by part.

ghost use Rattle.std.specs.Prelude.{◌≡◌, ◌≤◌, ◌++◌, ◌^◌, ℕ, List, [], length, true, Some};
ghost use Rattle.opgp_hash.specs.Hashed.{hashed, key_hashed, subject_hashed, trailer_hashed};
ghost use Rattle.opgp_hash.specs.Part.{part_octets};
ghost use Rattle.opgp_hash.specs.Parts.{parts_octets, subject_octets};
ghost use Rattle.opgp_hash.specs.Question.{question_value};
ghost use Rattle.opgp_hash.specs.Subject.{subject_value};
ghost use Rattle.opgp_hash.specs.SubjectValue.{are_keys_of, first_key, is_within};

use crate::part::{Head, Part};
use crate::question::Question;
use crate::subject::Subject;

/// The parts of a question, in the order in which they are hashed (RFC 9580, 5.2.4).
#[derive(Clone, Copy)]
pub(crate) struct Parts<'a> {
    pub(crate) salt: Part<'a>,
    pub(crate) first: Part<'a>,
    pub(crate) second: Part<'a>,
    pub(crate) front: Part<'a>,
    pub(crate) trailer: Part<'a>,
}

impl<'a> Parts<'a> {
    /// The parts of this question.
    #[inline(always)]
    pub(crate) fn of(question: &Question<'a>) -> Parts<'a>
        ensures value { parts_octets result ≡ hashed (question_value question.now) }
        // Version 4 has no salt: its parts begin with the subject, and the subject with its first
        // key.
        ensures unsalted { (question_value question.now).version ≡ 4
            → part_octets result.salt ≡ [] }
        ensures subject { subject_octets result ≡ subject_hashed
            (question_value question.now).version (question_value question.now).subject }
        ensures first { (key : List ℕ)
            → first_key (question_value question.now).subject ≡ Some key
            → part_octets result.first ≡ key_hashed (question_value question.now).version key }
    {
        let (first, second) = subject_parts(question.version, &question.subject);
        let front = Part::front(question);
        Parts {
            salt: Part::bare(question.salt),
            first,
            second,
            front,
            trailer: trailer(question.version, front.len() as u32),
        }
    }

    /// How many octets they have together.
    pub(crate) fn len(&self) -> usize
        ensures { result ≡ length (parts_octets self.now) }
    {
        self.salt.len()
            + self.first.len()
            + self.second.len()
            + self.front.len()
            + self.trailer.len()
    }
}

/// The two parts of a subject of this version; the second may be empty.
fn subject_parts<'a>(version: u8, subject: &Subject<'a>) -> (Part<'a>, Part<'a>)
    requires keys { are_keys_of version (subject_value subject.now) ≡ true }
    requires within { is_within (subject_value subject.now) ≡ true }
    ensures value { part_octets result.0 ++ part_octets result.1
        ≡ subject_hashed version (subject_value subject.now) }
    ensures first { (key : List ℕ) → first_key (subject_value subject.now) ≡ Some key
        → part_octets result.0 ≡ key_hashed version key }
{
    match subject {
        Subject::Binary(content) => (Part::bare(content), Part::bare(&[])),
        Subject::One(key) => (Part::key(version, key), Part::bare(&[])),
        Subject::Two(primary, subkey) => (Part::key(version, primary), Part::key(version, subkey)),
        Subject::OnUserId(primary, id) => (Part::key(version, primary), Part::user_id(id)),
        Subject::OnAttribute(primary, attribute) => {
            (Part::key(version, primary), Part::attribute(attribute))
        }
    }
}

/// The trailer of a signature whose hashed part has `count` octets.
fn trailer<'a>(version: u8, count: u32) -> Part<'a>
    ensures { part_octets result ≡ trailer_hashed version count }
{
    let [a, b, c, d] = count.to_be_bytes();
    Part {
        head: Head::Six([version, 0xFF, a, b, c, d]),
        body: &[],
    }
}
