//! The strength of keys.

ghost use Rattle.std.specs.Prelude.{◌≡◌};
ghost use Rattle.opgp_packet.specs.Parsed.{body_octets};
ghost use Rattle.opgp_valid.specs.Policy.{fills, is_strong, least_digest, without_zeros};

use opgp_packet::{KeyView, Material};

/// An integer without the zeros in front of it.
fn without_zeros(octets: &[u8]) -> &[u8]
    ensures { result.now ≡ without_zeros octets.now }
{
    let mut rest = octets;
    'octets: while let [0, more @ ..] = rest {
        rest = more;
    }
    rest
}

/// Whether the highest bit of this many octets of an integer, or a higher one, is set.
fn fills(size: usize, octets: &[u8]) -> bool
    ensures { result ≡ fills size octets.now }
{
    let integer = without_zeros(octets);
    match integer {
        [first, ..] => integer.len() > size || (integer.len() == size && *first >= 128),
        [] => false,
    }
}

/// Whether a key is strong enough for [`Policy::Usual`]: RSA from 2048 bits on, DSA from 2048 and
/// 224 bits on, ECDSA with a point of 57 octets or more; others always.
///
/// [`Policy::Usual`]: crate::Policy::Usual
pub fn is_strong(key: KeyView<'_>) -> bool
    ensures { result ≡ is_strong (body_octets key.entry) }
{
    opgp_packet::key_laws::written(&key);
    // Called for their contracts, which tie the material to the body's first octets.
    let _version = key.version();
    let _algorithm = key.algorithm();
    match key.material() {
        Material::Rsa { n, .. } => fills(256, n.octets()),
        Material::Dsa { p, q, .. } => fills(256, p.octets()) && fills(28, q.octets()),
        Material::Ecdsa { point, .. } => point.octets().len() >= 57,
        _ => true,
    }
}

/// How many octets the digest has at least that a key signs: of DSA as many as its q, of ECDSA as
/// an integer of its curve, where 64 are enough (RFC 9580, 5.2.3.2); 32 for Ed25519 (5.2.3.3,
/// 5.2.3.4) and 64 for Ed448 (5.2.3.5); 0 for others.
pub fn least_digest(key: KeyView<'_>) -> usize
    ensures { result ≡ least_digest (body_octets key.entry) }
{
    opgp_packet::key_laws::written(&key);
    // Called for their contracts, which tie the material to the body's first octets.
    let _version = key.version();
    let _algorithm = key.algorithm();
    match key.material() {
        Material::Dsa { q, .. } => without_zeros(q.octets()).len(),
        Material::Ecdsa { point, .. } => (point.octets().len() / 2).min(64),
        Material::Eddsa { .. } | Material::Ed25519(_) => 32,
        Material::Ed448(_) => 64,
        _ => 0,
    }
}
