//! Public keys.

ghost use Rattle.std.specs.Prelude.{◌≡◌, ◌⊎◌, ◌≤◌, ◌<◌, ◌^◌, ℕ, List, length, IfOk};
ghost use Rattle.opgp_octets.specs.KeyAlgorithm.{key_algorithm_of};
ghost use Rattle.opgp_octets.specs.Octets.{IsBodySized};
ghost use Rattle.opgp_octets.specs.Reading.{Reads};
ghost use Rattle.opgp_packet.specs.Cursor.{body_under, ReadsAll};
ghost use Rattle.opgp_packet.specs.FieldReading.{body_at};
ghost use Rattle.opgp_packet.specs.Key.{key_in, key_value, fields_of_size, KeyLies, KeyLies-prop};
ghost use Rattle.opgp_packet.specs.KeyBody.{key, key_fields, material_grammar};
ghost use Rattle.opgp_packet.specs.KeyMaterial.{fields_in, material_fields, shape, AreIn, HasSizes};
ghost use Rattle.opgp_packet.specs.KeyShape.{shape_of};

use crate::Cursor;
use crate::key_material::{MaterialPlaces, MaterialView};
use crate::material_places::material_at;
use crate::parsed::{Body, Octets, Parsed};
use opgp_octets::{BodyFault, KeyAlgorithm};

/// The fields of a key; for its material, where they lie in the body.
#[derive(Clone, Copy)]
pub struct KeyPlaces {
    version: u8,
    created: u32,
    algorithm: u8,
    material: MaterialPlaces,
}

/// A public key that owns its body, and knows where its fields lie in it (RFC 9580, 5.5.2).
///
/// The faults of its body are those of [`KeyView`].
pub type Key = Parsed<Vec<u8>, KeyPlaces>;

/// A public key that borrows its body (RFC 9580, 5.5.2).
///
/// The faults of its body are [`Short`], [`KeyVersion`], [`KeyTooLong`] for a version 4 body of
/// more than 65,535 octets, [`Count`], [`MpiBits`] in version 6, [`OidSize`], [`KdfSize`] and
/// [`Trailing`], each at the first field that can't be read.
///
/// [`Short`]: opgp_octets::Reason::Short
/// [`KeyVersion`]: opgp_octets::Reason::KeyVersion
/// [`KeyTooLong`]: opgp_octets::Reason::KeyTooLong
/// [`Count`]: opgp_octets::Reason::Count
/// [`MpiBits`]: opgp_octets::Reason::MpiBits
/// [`OidSize`]: opgp_octets::Reason::OidSize
/// [`KdfSize`]: opgp_octets::Reason::KdfSize
/// [`Trailing`]: opgp_octets::Reason::Trailing
pub type KeyView<'a> = Parsed<&'a [u8], KeyPlaces>;

/// The key material of this version and algorithm, which comes next.
fn material_of(
    cursor: &mut Cursor<'_>,
    version: u8,
    algorithm: u8,
) -> Result<MaterialPlaces, BodyFault>
    ensures reads { ReadsAll (material_grammar version algorithm)
        (λ m. fields_in m (body_under cursor.old)) cursor.old cursor.new result }
    ensures shape { IfOk result (λ m. shape m ≡ shape_of (key_algorithm_of algorithm)) }
    ensures body { body_under cursor.new ≡ body_under cursor.old }
    ensures within { IfOk result (λ m. AreIn m (length (body_under cursor.old))) }
{
    material_at(cursor, version == 6, KeyAlgorithm::from(algorithm))
}

impl Body for KeyPlaces {
    ghost grammar = { key };

    ghost fields = { λ p o. key_fields (key_in p o) };

    ghost lies = { KeyLies };

    ghost lies_prop = { KeyLies-prop };

    fn read(o: &[u8]) -> Result<KeyPlaces, BodyFault> {
        KeyPlaces::read_fields(o)
    }
}

impl KeyPlaces {
    #[tactic(auto, unfolding(crate::specs::FieldReading::body_at, crate::specs::KeyBody::key))]
    fn read_fields(o: &[u8]) -> Result<KeyPlaces, BodyFault>
        requires { IsBodySized o.now }
        ensures exact { Reads (λ p. fields_of_size (length o.now) (key_in p o.now)) result
            (body_at key o.now) }
        ensures within { IfOk result (λ p. AreIn p.material (length o.now)) }
        ensures shape { IfOk result
            (λ p. shape p.material ≡ shape_of (key_algorithm_of p.algorithm)) }
    {
        let mut cursor = Cursor::new(o);
        let version = cursor.version()?;
        let created = cursor.four()?;
        let algorithm = cursor.octet()?;
        if version == 6 {
            let _count = cursor.count()?;
        }
        let material = material_of(&mut cursor, version, algorithm)?;
        cursor.end()?;
        Ok(KeyPlaces {
            version,
            created,
            algorithm,
            material,
        })
    }
}

impl<B: Octets + Drop> Parsed<B, KeyPlaces> {
    /// The version: 4 or 6.
    pub fn version(&self) -> u8
        ensures value { result ≡ (key_value self.now).version }
        ensures known { (result ≡ 4) ⊎ (result ≡ 6) }
    {
        self.places.version
    }

    /// The creation time, in seconds since 1970.
    pub fn created(&self) -> u32
        ensures { result ≡ (key_value self.now).created }
    {
        self.places.created
    }

    /// The number of its algorithm (RFC 9580, 9.1).
    pub fn algorithm(&self) -> u8
        ensures { result ≡ (key_value self.now).algorithm }
    {
        self.places.algorithm
    }
}

impl Parsed<Vec<u8>, KeyPlaces> {
    /// Its public key material; the variant is that of its algorithm.
    pub fn material(&self) -> MaterialView<'_>
        ensures fields { material_fields result ≡ (key_value self.now).material }
        ensures shape { shape result ≡ shape_of (key_algorithm_of (key_value self.now).algorithm) }
        ensures sizes { HasSizes result }
    {
        self.view().material()
    }
}

impl<'a> Parsed<&'a [u8], KeyPlaces> {
    /// Its public key material; the variant is that of its algorithm.
    pub fn material(&self) -> MaterialView<'a>
        ensures fields { material_fields result ≡ (key_value self.now).material }
        ensures shape { shape result ≡ shape_of (key_algorithm_of (key_value self.now).algorithm) }
        // X25519 and Ed25519 have 32 octets, X448 has 56, Ed448 has 57.
        ensures sizes { HasSizes result }
    {
        // Read, so that the type's invariant is known.
        let _algorithm = self.places.algorithm;
        self.places.material.lend(self.body)
    }
}
