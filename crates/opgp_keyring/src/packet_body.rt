//! Packets' bodies: their faults, by type, and signatures.

ghost use Rattle.std.specs.Prelude.{◌≡◌, IfSome, IfNone, None};
ghost use Rattle.opgp_octets.specs.declared.fault.BodyFault.{BodyFault};
ghost use Rattle.opgp_octets.specs.Octets.{IsBodySized};
ghost use Rattle.opgp_keyring.specs.PacketBody.{HasBodyFault};
ghost use Rattle.opgp_keyring.specs.SignedLiteral.{IsReadAs};

use opgp_frame::Packet;
use opgp_octets::{BodyFault, Malformed, PacketType};
use opgp_packet::{AttributeView, KeyView, Literal, SigView};

/// The first fault of the body of a packet of this type, if it has one. Allocates nothing.
///
/// Public keys and subkeys, literals and user attributes can have one, which is that of their
/// parsers, and signatures where malformed ones are refused; a user ID is any octets, and the
/// bodies of other types aren't read.
pub fn body_fault(kind: PacketType, body: &[u8], malformed: Malformed) -> Option<BodyFault>
    requires { IsBodySized body.now }
    ensures fault { IfSome result (HasBodyFault malformed kind body.now) }
    ensures none { IfNone result ((f : BodyFault) → HasBodyFault malformed kind body.now f → ⊥) }
{
    opgp_packet::field_laws::no_fault();
    opgp_packet::signature_laws::no_fault();
    match kind {
        PacketType::Signature => match malformed {
            Malformed::Refuse => SigView::parse_body(body).err(),
            Malformed::Keep => None,
        },
        PacketType::PublicKey | PacketType::PublicSubkey => KeyView::parse_body(body).err(),
        PacketType::LiteralData => Literal::check_body(body),
        PacketType::UserAttribute => match AttributeView::parse_body(body) {
            Ok(_) => None,
            Err(fault) => Some(fault),
        },
        _ => None,
    }
}

/// The signature of a packet, or its fault if it is malformed (RFC 9580, 5.2). Allocates nothing.
pub(crate) fn read_signature(packet: &Packet) -> Result<SigView<'_>, BodyFault>
    ensures { IsReadAs packet.now.body result }
{
    SigView::parse_body(packet.body())
}
