//! A part of the hashed data: a few octets that are made, and a slice after them.

ghost use Rattle.std.specs.Prelude.{◌≡◌, ◌≤◌, ◌+◌, ◌++◌, ◌∷◌, ◌^◌, length};

use crate::bodies::{attribute_body, key_body};
use crate::question::Question;
use opgp_packet::{AttributeView, KeyView};

/// The octets before a slice, by their number.
#[derive(Clone, Copy)]
pub(crate) enum Head {
    Bare,
    Three([u8; 3]),
    Five([u8; 5]),
    Six([u8; 6]),
    Eight([u8; 8]),
}

impl Head {
    ghost use Rattle.opgp_hash.specs.Part.{head_octets};

    pub(crate) fn octets(&self) -> &[u8]
        ensures value { result.now ≡ head_octets self.now }
        ensures few { length result.now ≤ 8 }
    {
        match self {
            Head::Bare => &[],
            Head::Three(octets) => octets,
            Head::Five(octets) => octets,
            Head::Six(octets) => octets,
            Head::Eight(octets) => octets,
        }
    }
}

/// A few octets that are made, and a slice after them.
#[derive(Clone, Copy)]
pub(crate) struct Part<'a> {
    pub(crate) head: Head,
    pub(crate) body: &'a [u8],
    ghost short: { length body.now ≤ 2 ^ 56 },
}

impl<'a> Part<'a> {
    ghost use Rattle.std.specs.Int.{w32, to_be_bytes};
    ghost use Rattle.opgp_octets.specs.Octets.{IsBodySized};
    ghost use Rattle.opgp_packet.specs.Parsed.{body_octets};
    ghost use Rattle.opgp_hash.specs.Hashed.{key_hashed, id_hashed, attribute_hashed};
    ghost use Rattle.opgp_hash.specs.Hashed.{front_hashed};
    ghost use Rattle.opgp_hash.specs.Part.{part_octets};
    ghost use Rattle.opgp_hash.specs.Question.{question_value};
    ghost use Rattle.opgp_hash.specs.SubjectValue.{version_of};

    /// How many octets it has.
    pub(crate) fn len(&self) -> usize
        ensures value { result ≡ length (part_octets self.now) }
        ensures most { result ≤ 2 ^ 56 + 8 }
    {
        self.head.octets().len() + self.body.len()
    }

    /// A slice alone.
    pub(crate) fn bare(body: &'a [u8]) -> Part<'a>
        requires { length body.now ≤ 2 ^ 56 }
        ensures { part_octets result ≡ body.now }
    {
        Part {
            head: Head::Bare,
            body,
        }
    }

    /// A body after a tag octet and its length in four octets.
    pub(crate) fn tagged(tag: u8, body: &'a [u8]) -> Part<'a>
        requires { IsBodySized body.now }
        ensures { part_octets result ≡ (tag ∷ to_be_bytes w32 (length body.now)) ++ body.now }
    {
        let [a, b, c, d] = (body.len() as u32).to_be_bytes();
        Part {
            head: Head::Five([tag, a, b, c, d]),
            body,
        }
    }

    /// A key of this version.
    pub(crate) fn key(version: u8, key: &KeyView<'a>) -> Part<'a>
        requires { version_of (body_octets key.now) ≡ version }
        ensures { part_octets result ≡ key_hashed version (body_octets key.now) }
    {
        let body = key_body(key, version);
        if version == 4 {
            let [a, b] = (body.len() as u16).to_be_bytes();
            Part {
                head: Head::Three([0x99, a, b]),
                body,
            }
        } else {
            Part::tagged(0x9B, body)
        }
    }

    /// A user ID.
    pub(crate) fn user_id(id: &'a [u8]) -> Part<'a>
        requires { IsBodySized id.now }
        ensures { part_octets result ≡ id_hashed id.now }
    {
        Part::tagged(0xB4, id)
    }

    /// A user attribute.
    pub(crate) fn attribute(attribute: &AttributeView<'a>) -> Part<'a>
        ensures { part_octets result ≡ attribute_hashed (body_octets attribute.now) }
    {
        Part::tagged(0xD1, attribute_body(attribute))
    }

    /// The part of the signature's own body that is hashed (RFC 9580, 5.2.4).
    pub(crate) fn front(question: &Question<'a>) -> Part<'a>
        ensures value { part_octets result ≡ front_hashed (question_value question.now) }
        ensures small { IsBodySized (front_hashed (question_value question.now)) }
    {
        let version = question.version;
        let (kind, algorithm, hash) = (question.kind, question.algorithm, question.hash);
        let body = question.area;
        if version == 4 {
            let [a, b] = (body.len() as u16).to_be_bytes();
            Part {
                head: Head::Six([version, kind, algorithm, hash, a, b]),
                body,
            }
        } else {
            let [a, b, c, d] = (body.len() as u32).to_be_bytes();
            Part {
                head: Head::Eight([version, kind, algorithm, hash, a, b, c, d]),
                body,
            }
        }
    }
}
