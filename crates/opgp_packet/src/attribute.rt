//! User attributes.

ghost use Rattle.std.specs.Prelude.{◌≡◌, ◌≤◌, ℕ, List, length, None};
ghost use Rattle.opgp_packet.specs.AreaReading.{subs_in};
ghost use Rattle.opgp_packet.specs.Attribute.{attribute_value, IsWhole, IsWhole-prop};
ghost use Rattle.opgp_packet.specs.AttributeBody.{attribute, attribute_fields};
ghost use Rattle.opgp_packet.specs.Walk.{subs_left};

use crate::parsed::{Body, Parsed};
use crate::{Subpacket, Walk, fault_in_area};
use opgp_octets::BodyFault;

/// A subpacket of a user attribute, whose kind is the whole type octet (RFC 9580, 5.12).
pub type AttributeSub<'a> = Subpacket<'a>;

/// A user attribute has nothing but subpackets, which fill its body.
#[derive(Clone, Copy)]
pub struct AttributePlaces;

/// A user attribute that owns its body (RFC 9580, 5.12).
///
/// The faults of its body are those of [`AttributeView`].
pub type Attribute = Parsed<Vec<u8>, AttributePlaces>;

/// A user attribute that borrows its body: subpackets, or none at all (RFC 9580, 5.12).
///
/// The faults of its body are [`SubEmpty`] and [`SubShort`], at the first subpacket that can't be
/// read.
///
/// [`SubEmpty`]: opgp_octets::Reason::SubEmpty
/// [`SubShort`]: opgp_octets::Reason::SubShort
pub type AttributeView<'a> = Parsed<&'a [u8], AttributePlaces>;

impl Body for AttributePlaces {
    ghost grammar = { attribute };

    ghost fields = { λ _ o. attribute_fields (subs_in o) };

    ghost lies = { IsWhole };

    ghost lies_prop = { IsWhole-prop };

    fn read(o: &[u8]) -> Result<AttributePlaces, BodyFault> {
        match fault_in_area(o, o.len()) {
            None => Ok(AttributePlaces),
            Some(fault) => Err(fault),
        }
    }
}

impl Parsed<Vec<u8>, AttributePlaces> {
    /// Its subpackets, one after the other.
    pub fn subpackets(&self) -> Walk<'_>
        ensures subs { subs_left result ≡ attribute_value self.now }
        ensures few { length (subs_left result) ≤ 4294967295 }
    {
        self.view().subpackets()
    }
}

impl<'a> Parsed<&'a [u8], AttributePlaces> {
    /// Its subpackets, one after the other.
    pub fn subpackets(&self) -> Walk<'a>
        ensures subs { subs_left result ≡ attribute_value self.now }
        ensures few { length (subs_left result) ≤ 4294967295 }
    {
        Walk::new(self.body)
    }
}
