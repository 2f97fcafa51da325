//! The bodies that are hashed, with the facts about them that proofs need.

ghost use Rattle.std.specs.Prelude.{◌≡◌, ◌⊎◌, ◌≤◌, length};
ghost use Rattle.opgp_packet.specs.Parsed.{body_octets};
ghost use Rattle.opgp_octets.specs.Octets.{IsOctets, IsBodySized};
ghost use Rattle.opgp_hash.specs.SubjectValue.{IsKeyOf, IsAttribute, version_of};

use opgp_packet::{AttributeView, KeyView};

/// The body of a key of this version.
pub(crate) fn key_body<'a>(key: &KeyView<'a>, version: u8) -> &'a [u8]
    requires { version_of (body_octets key.now) ≡ version }
    ensures value { result.now ≡ body_octets key.now }
    ensures key { IsKeyOf version result.now }
    ensures small { IsBodySized result.now }
    ensures short { version ≡ 4 → length result.now ≤ 65535 }
{
    key.body()
}

/// The version of a key, which is the first octet of its body.
pub(crate) fn version_in(key: &KeyView<'_>) -> u8
    ensures value { result ≡ version_of (body_octets key.now) }
    ensures known { (result ≡ 4) ⊎ (result ≡ 6) }
{
    // Called for its contract: the version is the body's first octet.
    let _body = key.body();
    key.version()
}

/// The body of a user attribute.
pub(crate) fn attribute_body<'a>(attribute: &AttributeView<'a>) -> &'a [u8]
    ensures value { result.now ≡ body_octets attribute.now }
    ensures attribute { IsAttribute result.now }
    ensures small { IsBodySized result.now }
{
    attribute.body()
}

/// The elements of a slice are below 256: a fact for proofs.
pub(crate) fn are_octets(o: &[u8])
    ensures { IsOctets o.now }
{
    let _octets = o;
}
