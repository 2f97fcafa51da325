//! Where the fields of a key's material lie in its body.

ghost use Rattle.std.specs.Prelude.{◌≡◌, length, IfOk};
ghost use Rattle.opgp_packet.specs.Cursor.{body_under, ReadsAll};
ghost use Rattle.opgp_packet.specs.Fields.{sequence};
ghost use Rattle.opgp_packet.specs.KeyBody.{material_kinds};
ghost use Rattle.opgp_packet.specs.KeyMaterial.{fields_in, shape, AreIn, material_fields, HasSizes};
ghost use Rattle.opgp_packet.specs.KeyShape.{shape_of, rsa, elgamal, dsa, ecdh};

use crate::key_material::{Material, MaterialPlaces, MaterialView};
use crate::{Cursor, MpiSpan, Span};
use opgp_octets::{BodyFault, KeyAlgorithm, Reason};

/// The modulus and the exponent of RSA (RFC 9580, 5.5.5.1).
fn rsa(cursor: &mut Cursor<'_>, strict: bool) -> Result<MaterialPlaces, BodyFault>
    ensures reads { ReadsAll (sequence (material_kinds strict rsa))
        (λ m. fields_in m (body_under cursor.old))
        cursor.old cursor.new result }
    ensures shape { IfOk result (λ m. shape m ≡ rsa) }
    ensures body { body_under cursor.new ≡ body_under cursor.old }
    ensures within { IfOk result (λ m. AreIn m (length (body_under cursor.old))) }
{
    let n = cursor.mpi(strict)?;
    let e = cursor.mpi(strict)?;
    Ok(Material::Rsa { n, e })
}

/// The three integers of Elgamal (RFC 9580, 5.5.5.3).
fn elgamal(cursor: &mut Cursor<'_>, strict: bool) -> Result<MaterialPlaces, BodyFault>
    ensures reads { ReadsAll (sequence (material_kinds strict elgamal))
        (λ m. fields_in m (body_under cursor.old))
        cursor.old cursor.new result }
    ensures shape { IfOk result (λ m. shape m ≡ elgamal) }
    ensures body { body_under cursor.new ≡ body_under cursor.old }
    ensures within { IfOk result (λ m. AreIn m (length (body_under cursor.old))) }
{
    let p = cursor.mpi(strict)?;
    let g = cursor.mpi(strict)?;
    let y = cursor.mpi(strict)?;
    Ok(Material::Elgamal { p, g, y })
}

/// The four integers of DSA (RFC 9580, 5.5.5.2).
fn dsa(cursor: &mut Cursor<'_>, strict: bool) -> Result<MaterialPlaces, BodyFault>
    ensures reads { ReadsAll (sequence (material_kinds strict dsa))
        (λ m. fields_in m (body_under cursor.old))
        cursor.old cursor.new result }
    ensures shape { IfOk result (λ m. shape m ≡ dsa) }
    ensures body { body_under cursor.new ≡ body_under cursor.old }
    ensures within { IfOk result (λ m. AreIn m (length (body_under cursor.old))) }
{
    let p = cursor.mpi(strict)?;
    let q = cursor.mpi(strict)?;
    let g = cursor.mpi(strict)?;
    let y = cursor.mpi(strict)?;
    Ok(Material::Dsa { p, q, g, y })
}

/// The curve, the point and the key derivation parameters of ECDH (RFC 9580, 5.5.5.6).
fn ecdh(cursor: &mut Cursor<'_>, strict: bool) -> Result<MaterialPlaces, BodyFault>
    ensures reads { ReadsAll (sequence (material_kinds strict ecdh))
        (λ m. fields_in m (body_under cursor.old))
        cursor.old cursor.new result }
    ensures shape { IfOk result (λ m. shape m ≡ ecdh) }
    ensures body { body_under cursor.new ≡ body_under cursor.old }
    ensures within { IfOk result (λ m. AreIn m (length (body_under cursor.old))) }
{
    let oid = cursor.sized(Reason::OidSize, 1, 254)?;
    let point = cursor.mpi(strict)?;
    let kdf = cursor.sized(Reason::KdfSize, 1, 254)?;
    Ok(Material::Ecdh { oid, point, kdf })
}

/// The key material of this algorithm, which comes next, its integers strict or not.
pub(crate) fn material_at(
    cursor: &mut Cursor<'_>,
    strict: bool,
    algorithm: KeyAlgorithm,
) -> Result<MaterialPlaces, BodyFault>
    ensures reads { ReadsAll (sequence (material_kinds strict (shape_of algorithm)))
        (λ m. fields_in m (body_under cursor.old)) cursor.old cursor.new result }
    ensures shape { IfOk result (λ m. shape m ≡ shape_of algorithm) }
    ensures body { body_under cursor.new ≡ body_under cursor.old }
    ensures within { IfOk result (λ m. AreIn m (length (body_under cursor.old))) }
{
    match algorithm {
        KeyAlgorithm::Rsa | KeyAlgorithm::RsaEncrypt | KeyAlgorithm::RsaSign => rsa(cursor, strict),
        KeyAlgorithm::Elgamal => elgamal(cursor, strict),
        KeyAlgorithm::Dsa => dsa(cursor, strict),
        KeyAlgorithm::Ecdh => ecdh(cursor, strict),
        KeyAlgorithm::Ecdsa => {
            let oid = cursor.sized(Reason::OidSize, 1, 254)?;
            let point = cursor.mpi(strict)?;
            Ok(Material::Ecdsa { oid, point })
        }
        KeyAlgorithm::EddsaLegacy => {
            let oid = cursor.sized(Reason::OidSize, 1, 254)?;
            let point = cursor.mpi(strict)?;
            Ok(Material::Eddsa { oid, point })
        }
        KeyAlgorithm::X25519 => Ok(Material::X25519(cursor.fixed(32)?)),
        KeyAlgorithm::X448 => Ok(Material::X448(cursor.fixed(56)?)),
        KeyAlgorithm::Ed25519 => Ok(Material::Ed25519(cursor.fixed(32)?)),
        KeyAlgorithm::Ed448 => Ok(Material::Ed448(cursor.fixed(57)?)),
        KeyAlgorithm::Other(_) => Ok(Material::Opaque(cursor.whole())),
    }
}

impl Material<MpiSpan, Span> {
    /// The key material at these places of the body.
    pub(crate) fn lend(self, body: &[u8]) -> MaterialView<'_>
        requires { AreIn self (length body.now) }
        ensures fields { material_fields result ≡ fields_in self body.now }
        ensures shape { shape result ≡ shape self }
        ensures sizes { HasSizes result }
    {
        match self {
            Material::Rsa { n, e } => Material::Rsa {
                n: n.lend(body),
                e: e.lend(body),
            },
            Material::Elgamal { p, g, y } => Material::Elgamal {
                p: p.lend(body),
                g: g.lend(body),
                y: y.lend(body),
            },
            Material::Dsa { p, q, g, y } => Material::Dsa {
                p: p.lend(body),
                q: q.lend(body),
                g: g.lend(body),
                y: y.lend(body),
            },
            Material::Ecdh { oid, point, kdf } => Material::Ecdh {
                oid: oid.lend(body),
                point: point.lend(body),
                kdf: kdf.lend(body),
            },
            Material::Ecdsa { oid, point } => Material::Ecdsa {
                oid: oid.lend(body),
                point: point.lend(body),
            },
            Material::Eddsa { oid, point } => Material::Eddsa {
                oid: oid.lend(body),
                point: point.lend(body),
            },
            Material::X25519(octets) => Material::X25519(octets.lend(body)),
            Material::X448(octets) => Material::X448(octets.lend(body)),
            Material::Ed25519(octets) => Material::Ed25519(octets.lend(body)),
            Material::Ed448(octets) => Material::Ed448(octets.lend(body)),
            Material::Opaque(octets) => Material::Opaque(octets.lend(body)),
        }
    }
}
