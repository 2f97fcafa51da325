//! Signatures of versions 4 and 6.

ghost use Rattle.std.specs.Prelude.{◌≡◌, ◌+◌, ◌≤◌, ◌==◌, ℕ, length, Some};
ghost use Rattle.opgp_octets.specs.HashAlgorithm.{hash_algorithm_of, salt_size};
ghost use Rattle.opgp_octets.specs.KeyAlgorithm.{key_algorithm_of};
ghost use Rattle.opgp_octets.specs.Octets.{IsBodySized};
ghost use Rattle.opgp_packet.specs.AreaLength.{extent_of};
ghost use Rattle.opgp_packet.specs.AreaReading.{subs_in};
ghost use Rattle.opgp_packet.specs.AreasValue.{areas_fields, areas_in, AreasLie, AreasLie-prop};
ghost use Rattle.opgp_packet.specs.AreasValue.{areas_value, front_of};
ghost use Rattle.opgp_packet.specs.SignatureMaterial.{shape, material_fields, HasSizes};
ghost use Rattle.opgp_packet.specs.SignatureShape.{shape_of};
ghost use Rattle.opgp_packet.specs.SignatureBody.{extent, with_areas};
ghost use Rattle.opgp_packet.specs.Subpackets.{Area};
ghost use Rattle.opgp_packet.specs.Subs.{subs_to_come};

use crate::parsed::{Body, Parsed};
use crate::signature_fields::{material_at, salt_at};
use crate::signature_material::{MaterialPlaces, SignatureMaterialView};
use crate::subs::Subs;
use crate::{AreaLength, Cursor, Span};
use opgp_octets::{BodyFault, Reason};

/// The fields of a signature of version 4 or 6, which is `V`; for the longer ones, where they lie
/// in the body.
#[derive(Clone, Copy)]
pub struct AreaPlaces<const V: u8> {
    kind: u8,
    algorithm: u8,
    hash: u8,
    left: [u8; 2],
    hashed: Span,
    unhashed: Span,
    /// Empty in version 4.
    salt: Span,
    material: MaterialPlaces,
}

/// A signature of version 4 or 6, which is `V`, that owns its body, and knows where its fields lie
/// in them (RFC 9580, 5.2.3).
pub type AreasSignature<const V: u8> = Parsed<Vec<u8>, AreaPlaces<V>>;

/// A version 4 signature that owns its body (RFC 9580, 5.2.3).
pub type FourSignature = AreasSignature<4>;

/// A version 6 signature that owns its body (RFC 9580, 5.2.3).
pub type SixSignature = AreasSignature<6>;

/// A signature of version 4 or 6, which is `V`, that borrows its body (RFC 9580, 5.2.3).
pub type AreasView<'a, const V: u8> = Parsed<&'a [u8], AreaPlaces<V>>;

/// A version 4 signature that borrows its body (RFC 9580, 5.2.3).
pub type FourView<'a> = AreasView<'a, 4>;

/// A version 6 signature that borrows its body (RFC 9580, 5.2.3).
pub type SixView<'a> = AreasView<'a, 6>;

/// The width of an area's length field in this version.
fn width_of(version: u8) -> AreaLength
    ensures { extent_of result ≡ extent version }
{
    if version == 6 {
        AreaLength::Four
    } else {
        AreaLength::Two
    }
}

impl<const V: u8> Body for AreaPlaces<V> {
    ghost grammar = { with_areas V };

    ghost fields = { λ p o. areas_fields (areas_in p o) };

    ghost lies = { AreasLie };

    ghost lies_prop = { AreasLie-prop };

    #[inline(always)]
    #[tactic(auto, unfolding(crate::specs::FieldReading::body_at, crate::specs::SignatureBody::with_areas))]
    fn read(o: &[u8]) -> Result<AreaPlaces<V>, BodyFault> {
        let mut cursor = Cursor::new(o);
        cursor.exact(Reason::Short, V)?;
        let kind = cursor.octet()?;
        let algorithm = cursor.octet()?;
        let hash = cursor.octet()?;
        let width = width_of(V);
        let hashed = cursor.area(width)?;
        let unhashed = cursor.area(width)?;
        let left = cursor.array::<2>()?;
        let mut salt = Span { start: 0, end: 0 };
        if V == 6 {
            salt = salt_at(&mut cursor, hash)?;
        }
        let material = material_at(&mut cursor, V == 6, algorithm)?;
        cursor.end()?;
        Ok(AreaPlaces {
            kind,
            algorithm,
            hash,
            left,
            hashed,
            unhashed,
            salt,
            material,
        })
    }
}

impl<'a, const V: u8> Parsed<&'a [u8], AreaPlaces<V>> {
    /// Its type (RFC 9580, 5.2.1).
    pub fn kind(&self) -> u8
        ensures { result ≡ (areas_value self.now).kind }
    {
        self.places.kind
    }

    /// The number of its key algorithm (RFC 9580, 9.1).
    pub fn algorithm(&self) -> u8
        ensures { result ≡ (areas_value self.now).algorithm }
    {
        self.places.algorithm
    }

    /// The number of its hash algorithm (RFC 9580, 9.5).
    pub fn hash(&self) -> u8
        ensures { result ≡ (areas_value self.now).hash }
    {
        self.places.hash
    }

    /// The octets of the hashed area, without its length: its subpackets, one after the other.
    pub fn hashed_area(&self) -> &'a [u8]
        ensures value { result.now ≡ (areas_value self.now).hashed }
        ensures area { Area (subs_in result.now) result.now }
        // The trailer counts them and at most 8 octets more in four octets.
        ensures short { 8 + length result.now ≤ 4294967295 }
        ensures shorter { V ≡ 4 → length result.now ≤ 65535 }
    {
        self.places.hashed.lend(self.body)
    }

    /// The subpackets of the hashed area, one after the other.
    pub fn hashed(&self) -> Subs<'a>
        ensures subs { subs_to_come result ≡ subs_in (areas_value self.now).hashed }
        ensures few { length (subs_to_come result) ≤ 4294967295 }
    {
        Subs::new(self.places.hashed.lend(self.body))
    }

    /// The octets of the unhashed area, without its length: its subpackets, one after the other.
    pub fn unhashed_area(&self) -> &'a [u8]
        ensures value { result.now ≡ (areas_value self.now).unhashed }
        ensures area { Area (subs_in result.now) result.now }
        ensures short { IsBodySized result.now }
        ensures shorter { V ≡ 4 → length result.now ≤ 65535 }
    {
        self.places.unhashed.lend(self.body)
    }

    /// The subpackets of the unhashed area, one after the other.
    pub fn unhashed(&self) -> Subs<'a>
        ensures subs { subs_to_come result ≡ subs_in (areas_value self.now).unhashed }
        ensures few { length (subs_to_come result) ≤ 4294967295 }
    {
        Subs::new(self.places.unhashed.lend(self.body))
    }

    /// The part of the body that the signature hashes: from the version octet to the end of the
    /// hashed area (RFC 9580, 5.2.4).
    pub fn front(&self) -> &'a [u8]
        ensures value { result.now ≡ front_of (areas_value self.now) }
        ensures small { IsBodySized result.now }
    {
        &self.body[..self.places.hashed.end as usize]
    }

    /// The left 16 bits of the signed hash value, as the signature states them (RFC 9580, 5.2.3).
    pub fn left(&self) -> [u8; 2]
        ensures { result ≡ (areas_value self.now).left }
    {
        self.places.left
    }

    /// The salt, without its size; version 4 has none.
    pub fn salt(&self) -> &'a [u8]
        ensures value { result.now ≡ (areas_value self.now).salt }
        // In version 6 it has the size for its hash algorithm.
        ensures size { V ≡ 6 → (n : ℕ)
            → salt_size (hash_algorithm_of (areas_value self.now).hash) ≡ Some n
            → length result.now ≡ n }
    {
        self.places.salt.lend(self.body)
    }

    /// The algorithm-specific fields; the variant is that of its algorithm.
    pub fn material(&self) -> SignatureMaterialView<'a>
        ensures fields { material_fields result ≡ (areas_value self.now).material }
        ensures shape { shape result
            ≡ shape_of (key_algorithm_of (areas_value self.now).algorithm) }
        // Ed25519 has 64 octets, Ed448 has 114.
        ensures sizes { HasSizes result }
    {
        self.places.material.lend(self.body)
    }
}
