//! The packets of a keyring.

ghost use Rattle.std.specs.Prelude.{◌≡◌, IfOk};
ghost use Rattle.opgp_keyring.specs.Keyring.{flat};

use crate::keyring::Keyring;
use crate::packets::Packets;
use opgp_frame::Packet;
use opgp_octets::OutOfMemory;
use std::alloc::Global;

/// Copies of the keyring's packets, in order.
///
/// Fails only when out of memory.
pub fn flatten(alloc: Global, ring: &Keyring) -> Result<Vec<Packet>, OutOfMemory>
    ensures { IfOk result (λ ps. ps.items ≡ flat ring.now) }
{
    let mut packets = Vec::new(alloc);
    let mut members = Packets::of(ring);
    'members: while let Some(member) = members.next() {
        let packet = member.packet(alloc)?;
        packets.push(packet)?;
    }
    Ok(packets)
}
