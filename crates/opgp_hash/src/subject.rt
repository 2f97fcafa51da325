//! What a signature is made over.

ghost use Rattle.std.specs.Prelude.{◌≡◌, true};

use crate::bodies::{are_octets, attribute_body, key_body};
use opgp_packet::{AttributeView, KeyView};

/// What a signature is made over (RFC 9580, 5.2.4).
#[derive(Clone, Copy)]
pub enum Subject<'a> {
    /// A document, its octets as they are.
    Binary(&'a [u8]),
    /// A key alone.
    One(KeyView<'a>),
    /// A primary key and a subkey.
    Two(KeyView<'a>, KeyView<'a>),
    /// A primary key and a user ID.
    OnUserId(KeyView<'a>, &'a [u8]),
    /// A primary key and a user attribute.
    OnAttribute(KeyView<'a>, AttributeView<'a>),
}

impl Subject<'_> {
    ghost use Rattle.opgp_hash.specs.Subject.{subject_value};
    ghost use Rattle.opgp_hash.specs.SubjectValue.{IsSubject, are_keys_of, is_within};

    /// Whether no part is too long: a document has at most 2^56 octets, a user ID at most 2^32 - 1.
    pub fn fits(&self) -> bool
        ensures { result ≡ is_within (subject_value self.now) }
    {
        match self {
            Subject::Binary(content) => content.len() <= 1 << 56,
            Subject::OnUserId(_, id) => id.len() <= 4294967295,
            Subject::One(_) | Subject::Two(_, _) | Subject::OnAttribute(_, _) => true,
        }
    }

    /// A fact for proofs: it can be the subject of a question of this version.
    pub(crate) fn stands(&self, version: u8)
        requires keys { are_keys_of version (subject_value self.now) ≡ true }
        requires within { is_within (subject_value self.now) ≡ true }
        ensures { IsSubject version (subject_value self.now) }
    {
        match self {
            Subject::Binary(content) => are_octets(content),
            Subject::One(key) => {
                let _key = key_body(key, version);
            }
            Subject::Two(primary, subkey) => {
                let _primary = key_body(primary, version);
                let _subkey = key_body(subkey, version);
            }
            Subject::OnUserId(primary, id) => {
                let _primary = key_body(primary, version);
                are_octets(id);
            }
            Subject::OnAttribute(primary, attribute) => {
                let _primary = key_body(primary, version);
                let _attribute = attribute_body(attribute);
            }
        }
    }
}
