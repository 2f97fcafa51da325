//! Keys by their names.

ghost use Rattle.std.specs.Prelude.{◌≡◌, IfNone, IfSome};
ghost use Rattle.std.specs.List.{flat_map};
ghost use Rattle.opgp_packet.specs.Parsed.{body_octets};
ghost use Rattle.opgp_report.specs.First.{print_of};
ghost use Rattle.opgp_report.specs.Report.{subkey_bodies};
ghost use Rattle.opgp_keyring.specs.Grouped.{components_left};
ghost use Rattle.opgp_stack.specs.KeyName.{has_key, is_any_named, is_named};
ghost use Rattle.opgp_stack.specs.KeyText.{IsKeyText};
ghost use Rattle.opgp_stack.specs.declared.key_name.KeyName.{KeyName};

use crate::key_text::{Digits, name_of};
use opgp_hash::{Fingerprint, fingerprint_of_view};
use opgp_keyring::{Certificate, Components, Head};
use opgp_packet::KeyView;

/// The name of a key: its key ID or its fingerprint (RFC 9580, 5.5.4).
#[derive(Clone, Copy, Debug, PartialEq, Eq)]
pub enum KeyName {
    /// A key ID.
    Id([u8; 8]),
    /// The fingerprint of a version 4 key.
    Four([u8; 20]),
    /// The fingerprint of a version 6 key.
    Six([u8; 32]),
}

impl KeyName {
    ghost use Rattle.opgp_stack.specs.KeyName.{name_octets};

    /// The name that a text says: 16 hexadecimal digits of a key ID, 40 or 64 of a fingerprint, in
    /// either case, with `0x` in front or not, and with blanks anywhere. None if it says no name.
    pub fn parse(text: &str) -> Option<KeyName>
        ensures some { IfSome result (IsKeyText text.now) }
        ensures none { IfNone result ((key : KeyName) → IsKeyText text.now key → ⊥) }
    {
        KeyName::read(text.as_bytes())
    }

    /// The name that the octets of a text say, as [`KeyName::parse`] reads it.
    pub(crate) fn read(octets: &[u8]) -> Option<KeyName>
        ensures some { IfSome result (IsKeyText octets.now) }
        ensures none { IfNone result ((key : KeyName) → IsKeyText octets.now key → ⊥) }
    {
        match Digits::of(octets) {
            Some(digits) => name_of(digits.digits()),
            None => None,
        }
    }

    /// Its octets: 8 of a key ID, 20 or 32 of a fingerprint.
    pub fn octets(&self) -> &[u8]
        ensures { result.now ≡ name_octets self.now }
    {
        match self {
            KeyName::Id(octets) => octets,
            KeyName::Four(octets) => octets,
            KeyName::Six(octets) => octets,
        }
    }

    /// Whether the key with this fingerprint has this name.
    pub fn names(&self, print: &Fingerprint) -> bool
        ensures { result ≡ is_named (name_octets self.now) print.now }
    {
        print.octets() == self.octets() || print.key_id().0.as_slice() == self.octets()
    }

    /// Whether the certificate has a key of this name: its primary key, or a subkey.
    pub fn is_in(&self, certificate: &Certificate) -> bool
        ensures { result ≡ has_key (name_octets self.now) certificate.now }
    {
        self.names(&print_of(&certificate.key())) || self.is_on(certificate.components())
    }

    /// Whether one of the components is a subkey of this name.
    fn is_on(&self, mut components: Components<'_>) -> bool
        ensures { result ≡ is_any_named (name_octets self.now)
            (flat_map subkey_bodies (components_left components.entry)) }
    {
        'components: while let Some(component) = components.next() {
            if let Head::Subkey(key) = component.head().head()
                && self.names(&print_of(&key))
            {
                return true;
            }
        }
        false
    }
}

/// The fingerprint of a key.
pub(crate) fn print_of(key: &KeyView<'_>) -> Fingerprint
    ensures { result ≡ print_of (body_octets key.now) }
{
    // Called for their contracts, which tie the version that is hashed to the body's first octet.
    let _body = key.body();
    let _version = key.version();
    fingerprint_of_view(*key)
}
