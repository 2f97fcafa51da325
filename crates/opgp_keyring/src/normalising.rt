//! Keyrings in the current format.

ghost use Rattle.std.specs.Prelude.{◌≡◌, map, All};
ghost use Rattle.opgp_frame.specs.Reframed.{reframed};
ghost use Rattle.opgp_keyring.specs.Keyring.{flat};
ghost use Rattle.opgp_keyring.specs.Normal.{normal_of, IsCurrentPacket};

use crate::keyring::Keyring;
use crate::reframing::{Reframe, reframe_all};

/// The same packets in the same places, each in the current format with its shortest length, never
/// partial (RFC 9580, 4.2.1). No body is changed or copied.
///
/// Allocates nothing.
pub fn normalise(ring: Keyring) -> Keyring
    ensures exact { result ≡ normal_of ring }
    ensures packets { flat result ≡ map reframed (flat ring) }
    ensures current { All IsCurrentPacket (flat result) }
{
    let (mut lead, mut certificates, alloc) = ring.into_parts();
    lead.reframe();
    reframe_all(&mut certificates);
    Keyring::new(alloc, lead, certificates)
}
