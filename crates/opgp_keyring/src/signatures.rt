//! The signatures after a literal, one after the other.

ghost use Rattle.std.specs.Prelude.{◌≡◌, ◌∷◌, [], List, ℕ, All, IfSome, MatchOption};
ghost use Rattle.opgp_octets.specs.declared.malformed.Malformed.TheVariants.{Keep};
ghost use Rattle.opgp_keyring.specs.Bodies.{HasNoFault};
ghost use Rattle.opgp_keyring.specs.Signed.{bodies_of, signature_bodies};

use crate::packet_body::read_signature;
use opgp_frame::Packet;
use opgp_octets::{BodyFault, PacketType};
use opgp_packet::SigView;

/// The signatures that are left to be visited, in order. Allocates nothing.
#[derive(Clone, Copy)]
pub struct Signatures<'a> {
    packets: &'a [Packet],
    ghost sound: { All (HasNoFault Keep) packets.now },
}

impl<'a> Signatures<'a> {
    ghost use Rattle.opgp_keyring.specs.SignedLiteral.{IsReadAs, signatures_left};

    /// The signatures among packets whose bodies have no fault, but for malformed signatures.
    pub(crate) fn new(packets: &'a [Packet]) -> Signatures<'a>
        requires { All (HasNoFault Keep) packets.now }
        ensures { signatures_left result ≡ signature_bodies packets.now }
    {
        Signatures { packets }
    }

    /// The next signature, or its fault if it is malformed; None at the end.
    pub fn next(&mut self) -> Option<Result<SigView<'a>, BodyFault>>
        ensures { MatchOption result (signatures_left self.old ≡ [])
            (λ read. (body : List ℕ) × (signatures_left self.old ≡ body ∷ signatures_left self.new)
            × IsReadAs body read) }
    {
        match first_of(self.packets, PacketType::Signature.number()) {
            Some((packet, rest)) => {
                self.packets = rest;
                Some(read_signature(packet))
            }
            None => None,
        }
    }
}

/// The first packet of a type, and those after it.
pub(crate) fn first_of(packets: &[Packet], kind: u8) -> Option<(&Packet, &[Packet])>
    requires { All (HasNoFault Keep) packets.now }
    ensures bodies { MatchOption result (bodies_of kind packets.now ≡ [])
        (λ found. bodies_of kind packets.now
        ≡ found.0.now.body ∷ bodies_of kind found.1.now) }
    ensures kind { IfSome result (λ found. found.0.now.kind ≡ kind) }
    ensures sound { IfSome result (λ found. HasNoFault Keep found.0.now) }
    ensures rest { IfSome result (λ found. All (HasNoFault Keep) found.1.now) }
{
    for (i, packet) in packets.iter().enumerate() {
        if packet.kind() == kind {
            return Some((packet, &packets[i + 1..]));
        }
    }
    None
}
