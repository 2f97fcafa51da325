//! Fingerprints and key IDs: hashes of a key's body.

ghost use Rattle.std.specs.Prelude.{◌≡◌, ◌≤◌, length};
ghost use Rattle.opgp_packet.specs.Parsed.{body_octets};
ghost use Rattle.opgp_packet.specs.Key.{key_value};
ghost use Rattle.opgp_hash.specs.Fingerprint.{fingerprint_of, four_hashed, six_hashed};
ghost use Rattle.opgp_hash.specs.KeyId.{key_id_of};
ghost use Rattle.sha1.specs.Sha1.{sha1};
ghost use Rattle.sha2.specs.Sha256.{sha256};

use crate::fingerprints::{Fingerprint, KeyId};
use opgp_packet::{Key, KeyView};
use sha1::Sha1;
use sha2::{Digest, Sha256};

fn four(body: &[u8]) -> [u8; 20]
    requires { length body.now ≤ 65535 }
    ensures { result ≡ sha1 (four_hashed body.now) }
{
    let [high, low] = (body.len() as u16).to_be_bytes();
    let mut hasher = Sha1::new();
    hasher.update(&[0x99, high, low]);
    hasher.update(body);
    hasher.finalize()
}

fn six(body: &[u8]) -> [u8; 32]
    requires { length body.now ≤ 4294967295 }
    ensures { result ≡ sha256 (six_hashed body.now) }
{
    let [a, b, c, d] = (body.len() as u32).to_be_bytes();
    let mut hasher = Sha256::new();
    hasher.update([0x9B, a, b, c, d].as_slice());
    hasher.update(body);
    hasher.finalize()
}

/// The fingerprint of the viewed key: a hash of its body, whatever header its packet has (RFC 9580,
/// 5.5.4). Allocates nothing.
pub fn fingerprint_of_view(key: KeyView<'_>) -> Fingerprint
    ensures { result
        ≡ fingerprint_of (key_value key.entry).version (body_octets key.entry) }
{
    let body = key.body();
    if key.version() == 4 {
        Fingerprint::Four(four(body))
    } else {
        Fingerprint::Six(six(body))
    }
}

/// The fingerprint of the key: a hash of its body, whatever header its packet has (RFC 9580,
/// 5.5.4). Allocates nothing.
pub fn fingerprint(key: &Key) -> Fingerprint
    ensures { result ≡ fingerprint_of (key_value key.now).version (body_octets key.now) }
{
    fingerprint_of_view(key.view())
}

/// The key ID of the key, 8 octets of its fingerprint (RFC 9580, 5.5.4). Allocates nothing.
pub fn key_id(key: &Key) -> KeyId
    ensures { result.0 ≡ key_id_of (key_value key.now).version (body_octets key.now) }
{
    fingerprint(key).key_id()
}
