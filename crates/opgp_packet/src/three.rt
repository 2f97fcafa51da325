//! Signatures of version 3.

ghost use Rattle.std.specs.Prelude.{◌≡◌, ◌⊎◌};
ghost use Rattle.opgp_octets.specs.KeyAlgorithm.{key_algorithm_of};
ghost use Rattle.opgp_packet.specs.SignatureMaterial.{shape, material_fields, HasSizes};
ghost use Rattle.opgp_packet.specs.SignatureShape.{shape_of};
ghost use Rattle.opgp_packet.specs.SignatureBody.{version_three};
ghost use Rattle.opgp_packet.specs.Three.{three_fields, three_in, ThreeLies, ThreeLies-prop};
ghost use Rattle.opgp_packet.specs.Three.{three_value};

use crate::Cursor;
use crate::parsed::{Body, Octets, Parsed};
use crate::signature_fields::old_material_at;
use crate::signature_material::{MaterialPlaces, SignatureMaterialView};
use crate::sub_meaning::KeyId8;
use opgp_octets::{BodyFault, KeyAlgorithm, Reason};

/// The fields of a version 3 signature; for the longer ones, where they lie in the body.
#[derive(Clone, Copy)]
pub struct ThreePlaces {
    kind: u8,
    created: u32,
    issuer: KeyId8,
    algorithm: u8,
    hash: u8,
    left: [u8; 2],
    material: MaterialPlaces,
}

/// A version 3 signature that owns its body, and knows where its fields lie in it (RFC 9580,
/// 5.2.2).
pub type ThreeSignature = Parsed<Vec<u8>, ThreePlaces>;

/// A version 3 signature that borrows its body (RFC 9580, 5.2.2).
pub type ThreeView<'a> = Parsed<&'a [u8], ThreePlaces>;

impl Body for ThreePlaces {
    ghost grammar = { version_three };

    ghost fields = { λ p o. three_fields (three_in p o) };

    ghost lies = { ThreeLies };

    ghost lies_prop = { ThreeLies-prop };

    #[tactic(auto, unfolding(crate::specs::FieldReading::body_at, crate::specs::SignatureBody::version_three))]
    fn read(o: &[u8]) -> Result<ThreePlaces, BodyFault> {
        let mut cursor = Cursor::new(o);
        cursor.exact(Reason::Short, 3)?;
        cursor.exact(Reason::Short, 5)?;
        let kind = cursor.octet()?;
        let created = cursor.four()?;
        let issuer = cursor.array::<8>()?;
        let algorithm = cursor.octet()?;
        let hash = cursor.octet()?;
        let left = cursor.array::<2>()?;
        let material = old_material_at(&mut cursor, algorithm)?;
        cursor.end()?;
        Ok(ThreePlaces {
            kind,
            created,
            issuer,
            algorithm,
            hash,
            left,
            material,
        })
    }
}

impl<B: Octets + Drop> Parsed<B, ThreePlaces> {
    /// Its type (RFC 9580, 5.2.1).
    pub fn kind(&self) -> u8
        ensures { result ≡ (three_value self.now).kind }
    {
        self.places.kind
    }

    /// The creation time, in seconds since 1970.
    pub fn created(&self) -> u32
        ensures { result ≡ (three_value self.now).created }
    {
        self.places.created
    }

    /// The issuer's key ID.
    pub fn issuer(&self) -> KeyId8
        ensures { result ≡ (three_value self.now).issuer }
    {
        self.places.issuer
    }

    /// The number of its key algorithm (RFC 9580, 9.1): 1, 3 or 17.
    pub fn algorithm(&self) -> u8
        ensures value { result ≡ (three_value self.now).algorithm }
        ensures known { (result ≡ 1) ⊎ ((result ≡ 3) ⊎ (result ≡ 17)) }
    {
        // Called for its contract: the number is one of the three.
        let _read = KeyAlgorithm::from(self.places.algorithm);
        self.places.algorithm
    }

    /// The number of its hash algorithm (RFC 9580, 9.5).
    pub fn hash(&self) -> u8
        ensures { result ≡ (three_value self.now).hash }
    {
        self.places.hash
    }

    /// The left 16 bits of the signed hash value, as the signature states them (RFC 9580, 5.2.2).
    pub fn left(&self) -> [u8; 2]
        ensures { result ≡ (three_value self.now).left }
    {
        self.places.left
    }
}

impl Parsed<Vec<u8>, ThreePlaces> {
    /// The algorithm-specific fields; the variant is that of its algorithm.
    pub fn material(&self) -> SignatureMaterialView<'_>
        ensures fields { material_fields result ≡ (three_value self.now).material }
        ensures shape { shape result
            ≡ shape_of (key_algorithm_of (three_value self.now).algorithm) }
        ensures sizes { HasSizes result }
    {
        self.view().material()
    }
}

impl<'a> Parsed<&'a [u8], ThreePlaces> {
    /// The algorithm-specific fields; the variant is that of its algorithm.
    pub fn material(&self) -> SignatureMaterialView<'a>
        ensures fields { material_fields result ≡ (three_value self.now).material }
        ensures shape { shape result
            ≡ shape_of (key_algorithm_of (three_value self.now).algorithm) }
        ensures sizes { HasSizes result }
    {
        self.places.material.lend(self.body)
    }
}
