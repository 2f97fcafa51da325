//! The digest of a keyring's packets.

ghost use Rattle.std.specs.Prelude.{◌≡◌, ◌++◌, ℕ, List};
ghost use Rattle.opgp_frame.specs.Packet.{packets_octets, spelling};
ghost use Rattle.opgp_keyring.specs.Member.{member_packet};
ghost use Rattle.opgp_keyring.specs.Packets.{packets_left};
ghost use Rattle.opgp_state.specs.VerdictFile.{keyring_digest};

use opgp_frame::Spelling;
use opgp_keyring::{Keyring, Member, Packets};
use sha2::{Digest, Sha256};

/// Feeds the octets of a packet to a hasher.
fn feed_packet<D: Digest>(hasher: &mut D, packet: Member<'_>)
    ensures { (m : List ℕ) → D.holds hasher.old m
        → D.holds hasher.new (m ++ spelling (member_packet packet.entry)) }
{
    let form = packet.form();
    let mut spelling = Spelling::new(&form, packet.kind(), packet.body());
    'parts: while let Some((header, piece)) = spelling.next() {
        hasher.update(header.as_slice());
        hasher.update(piece);
    }
}

/// Feeds the octets of packets to a hasher.
fn feed_packets<D: Digest>(hasher: &mut D, mut packets: Packets<'_>)
    ensures { (m : List ℕ) → D.holds hasher.old m
        → D.holds hasher.new (m ++ packets_octets (packets_left packets.entry)) }
{
    'packets: while let Some(packet) = packets.next() {
        feed_packet(hasher, packet);
    }
}

/// The SHA2-256 of the octets of a keyring's packets, in order, as they were read. Allocates
/// nothing.
pub(crate) fn keyring_digest(keyring: &Keyring) -> [u8; 32]
    ensures { result ≡ keyring_digest keyring.now }
{
    let mut hasher = Sha256::new();
    feed_packets(&mut hasher, Packets::of(keyring));
    hasher.finalize()
}
