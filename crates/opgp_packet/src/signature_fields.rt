//! The fields that signatures alone have.

ghost use Rattle.std.specs.Prelude.{◌≡◌, ◌≤◌, length, IfOk};
ghost use Rattle.opgp_octets.specs.KeyAlgorithm.{key_algorithm_of};
ghost use Rattle.opgp_packet.specs.Cursor.{body_under, ReadsField, ReadsAll};
ghost use Rattle.opgp_packet.specs.Fields.{named, sequence};
ghost use Rattle.opgp_packet.specs.Spans.{octets_in, IsIn};
ghost use Rattle.opgp_packet.specs.SignatureMaterial.{fields_in, shape, AreIn, material_fields};
ghost use Rattle.opgp_packet.specs.SignatureMaterial.{HasSizes};
ghost use Rattle.opgp_packet.specs.SignatureShape.{shape_of};
ghost use Rattle.opgp_packet.specs.SignatureBody.{salt_of, material_kinds, old_material_kinds};

use crate::signature_material::{MaterialPlaces, SignatureMaterial, SignatureMaterialView};
use crate::{Cursor, MpiSpan, Span};
use opgp_octets::{BodyFault, HashAlgorithm, KeyAlgorithm, Reason};

/// The salt, which comes next and has the size for its hash algorithm (RFC 9580, 9.5).
pub(crate) fn salt_at(cursor: &mut Cursor<'_>, hash: u8) -> Result<Span, BodyFault>
    ensures reads { ReadsField (salt_of hash)
        (λ p. named (octets_in p (body_under cursor.old))) cursor.old cursor.new result }
    ensures body { body_under cursor.new ≡ body_under cursor.old }
    ensures within { IfOk result (λ p. IsIn p (length (body_under cursor.old))) }
{
    match HashAlgorithm::from(hash).salt_size() {
        Some(size) => cursor.sized(Reason::SaltSize, size, size),
        None => cursor.sized(Reason::SaltSize, 0, 255),
    }
}

/// The algorithm-specific fields, which come next, their integers strict or not.
#[inline(always)]
pub(crate) fn material_at(
    cursor: &mut Cursor<'_>,
    strict: bool,
    algorithm: u8,
) -> Result<MaterialPlaces, BodyFault>
    ensures reads { ReadsAll (sequence
        (material_kinds strict (shape_of (key_algorithm_of algorithm))))
        (λ m. fields_in m (body_under cursor.old)) cursor.old cursor.new result }
    ensures shape { IfOk result (λ m. shape m ≡ shape_of (key_algorithm_of algorithm)) }
    ensures body { body_under cursor.new ≡ body_under cursor.old }
    ensures within { IfOk result (λ m. AreIn m (length (body_under cursor.old))) }
{
    match KeyAlgorithm::from(algorithm) {
        KeyAlgorithm::Rsa | KeyAlgorithm::RsaSign => {
            Ok(SignatureMaterial::Rsa(cursor.mpi(strict)?))
        }
        KeyAlgorithm::Dsa => {
            let r = cursor.mpi(strict)?;
            let s = cursor.mpi(strict)?;
            Ok(SignatureMaterial::Dsa { r, s })
        }
        KeyAlgorithm::Ecdsa => {
            let r = cursor.mpi(strict)?;
            let s = cursor.mpi(strict)?;
            Ok(SignatureMaterial::Ecdsa { r, s })
        }
        KeyAlgorithm::EddsaLegacy => {
            let r = cursor.mpi(strict)?;
            let s = cursor.mpi(strict)?;
            Ok(SignatureMaterial::Eddsa { r, s })
        }
        KeyAlgorithm::Ed25519 => Ok(SignatureMaterial::Ed25519(cursor.fixed(64)?)),
        KeyAlgorithm::Ed448 => Ok(SignatureMaterial::Ed448(cursor.fixed(114)?)),
        _ => Ok(SignatureMaterial::Opaque(cursor.whole())),
    }
}

/// The same in version 3, where algorithms other than RSA and DSA are refused.
#[tactic(auto, unfolding(crate::specs::FieldReading::step_at, crate::specs::FieldReading::kind_at))]
pub(crate) fn old_material_at(
    cursor: &mut Cursor<'_>,
    algorithm: u8,
) -> Result<MaterialPlaces, BodyFault>
    ensures reads { ReadsAll (sequence (old_material_kinds (shape_of (key_algorithm_of algorithm))))
        (λ m. fields_in m (body_under cursor.old)) cursor.old cursor.new result }
    ensures shape { IfOk result (λ m. shape m ≡ shape_of (key_algorithm_of algorithm)) }
    ensures body { body_under cursor.new ≡ body_under cursor.old }
    ensures within { IfOk result (λ m. AreIn m (length (body_under cursor.old))) }
{
    match KeyAlgorithm::from(algorithm) {
        KeyAlgorithm::Rsa | KeyAlgorithm::RsaSign => {
            Ok(SignatureMaterial::Rsa(cursor.mpi(false)?))
        }
        KeyAlgorithm::Dsa => {
            let r = cursor.mpi(false)?;
            let s = cursor.mpi(false)?;
            Ok(SignatureMaterial::Dsa { r, s })
        }
        _ => Err(cursor.fault(Reason::Short)),
    }
}

impl SignatureMaterial<MpiSpan, Span> {
    /// The algorithm-specific fields at these places of the body.
    pub(crate) fn lend(self, body: &[u8]) -> SignatureMaterialView<'_>
        requires { AreIn self (length body.now) }
        ensures fields { material_fields result ≡ fields_in self body.now }
        ensures shape { shape result ≡ shape self }
        ensures sizes { HasSizes result }
    {
        match self {
            SignatureMaterial::Rsa(s) => SignatureMaterial::Rsa(s.lend(body)),
            SignatureMaterial::Dsa { r, s } => SignatureMaterial::Dsa {
                r: r.lend(body),
                s: s.lend(body),
            },
            SignatureMaterial::Ecdsa { r, s } => SignatureMaterial::Ecdsa {
                r: r.lend(body),
                s: s.lend(body),
            },
            SignatureMaterial::Eddsa { r, s } => SignatureMaterial::Eddsa {
                r: r.lend(body),
                s: s.lend(body),
            },
            SignatureMaterial::Ed25519(octets) => SignatureMaterial::Ed25519(octets.lend(body)),
            SignatureMaterial::Ed448(octets) => SignatureMaterial::Ed448(octets.lend(body)),
            SignatureMaterial::Opaque(octets) => SignatureMaterial::Opaque(octets.lend(body)),
        }
    }
}
