//! The fields of what algorithms made, as octets.

ghost use Rattle.std.specs.Prelude.{◌≡◌, ◌++◌, ◌∷◌, [], map};
ghost use Rattle.opgp_packet.specs.KeyMaterial as of_key;
ghost use Rattle.opgp_packet.specs.Parsed.{body_octets};
ghost use Rattle.opgp_packet.specs.SignatureMaterial as of_signature;
ghost use Rattle.opgp_tables.specs.Keys.{key_parts};
ghost use Rattle.opgp_tables.specs.Parts.{four, two, values_of};

use opgp_packet::{KeyView, MaterialView, SignatureMaterialView};

/// The fields of a key's material; empty ones after them.
pub(crate) fn key_parts<'a>(material: MaterialView<'a>) -> [&'a [u8]; 4]
    ensures { map (λ o. o.now) result ≡ four (values_of (of_key.material_fields material.entry)) }
{
    match material {
        MaterialView::Rsa { n, e } => [n.octets(), e.octets(), &[], &[]],
        MaterialView::Elgamal { p, g, y } => [p.octets(), g.octets(), y.octets(), &[]],
        MaterialView::Dsa { p, q, g, y } => [p.octets(), q.octets(), g.octets(), y.octets()],
        MaterialView::Ecdh { oid, point, kdf } => [oid, point.octets(), kdf, &[]],
        MaterialView::Ecdsa { oid, point } | MaterialView::Eddsa { oid, point } => {
            [oid, point.octets(), &[], &[]]
        }
        MaterialView::X25519(octets)
        | MaterialView::X448(octets)
        | MaterialView::Ed25519(octets)
        | MaterialView::Ed448(octets)
        | MaterialView::Opaque(octets) => [octets, &[], &[], &[]],
    }
}

/// The fields of a key's material, by its body.
pub(crate) fn material_parts<'a>(key: KeyView<'a>) -> [&'a [u8]; 4]
    ensures { map (λ o. o.now) result ≡ key_parts (body_octets key.entry) }
{
    opgp_packet::key_laws::written(&key);
    key_parts(key.material())
}

/// The fields of what a signature's algorithm made; empty ones after them.
pub(crate) fn signature_parts<'a>(material: SignatureMaterialView<'a>) -> [&'a [u8]; 2]
    ensures { map (λ o. o.now) result
        ≡ two (values_of (of_signature.material_fields material.entry)) }
{
    match material {
        SignatureMaterialView::Rsa(s) => [s.octets(), &[]],
        SignatureMaterialView::Dsa { r, s }
        | SignatureMaterialView::Ecdsa { r, s }
        | SignatureMaterialView::Eddsa { r, s } => [r.octets(), s.octets()],
        SignatureMaterialView::Ed25519(octets)
        | SignatureMaterialView::Ed448(octets)
        | SignatureMaterialView::Opaque(octets) => [octets, &[]],
    }
}
