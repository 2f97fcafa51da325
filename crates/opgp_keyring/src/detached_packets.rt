//! The packets of detached signatures, one after the other.

ghost use Rattle.std.specs.Prelude.{◌≡◌, ◌∷◌, [], All, MatchOption};
ghost use Rattle.opgp_octets.specs.declared.malformed.Malformed.TheVariants.{Keep};
ghost use Rattle.opgp_keyring.specs.Bodies.{HasNoFault};
ghost use Rattle.opgp_keyring.specs.Detached.{IsDetached};
ghost use Rattle.opgp_keyring.specs.Member.{member_packet};

use crate::composer::keyring_member;
use crate::member::Member;
use opgp_frame::{Packet, PacketView};
use opgp_octets::Malformed;

/// The packets of detached signatures that are left to be visited, in order (RFC 9580, 10.4).
/// Allocates nothing.
#[derive(Clone, Copy)]
pub struct DetachedPackets<'a> {
    packets: &'a [Packet],
    ghost sound: { All (HasNoFault Keep) packets.now },
    ghost types: { All IsDetached packets.now },
}

impl<'a> DetachedPackets<'a> {
    ghost use Rattle.opgp_keyring.specs.DetachedSignatures.{detached_left};

    /// All of these packets, which are signatures and fillers.
    pub(crate) fn new(packets: &'a [Packet]) -> DetachedPackets<'a>
        requires sound { All (HasNoFault Keep) packets.now }
        requires types { All IsDetached packets.now }
        ensures { detached_left result ≡ packets.now }
    {
        DetachedPackets { packets }
    }

    /// The next packet, or None at the end.
    pub fn next(&mut self) -> Option<Member<'a>>
        ensures { MatchOption result ((detached_left self.old ≡ []) × (detached_left self.new ≡ []))
            (λ m. detached_left self.old ≡ member_packet m ∷ detached_left self.new) }
    {
        match self.packets.split_first() {
            Some((packet, rest)) => {
                self.packets = rest;
                Some(keyring_member(PacketView::of(packet), Malformed::Keep))
            }
            None => None,
        }
    }
}
