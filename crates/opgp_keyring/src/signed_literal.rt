//! A literal and the signatures on it.

ghost use Rattle.std.specs.Prelude.{◌≡◌, ◌∷◌, [], List, length, All, IfOk};
ghost use Rattle.opgp_octets.specs.declared.malformed.Malformed.TheVariants.{Keep};
ghost use Rattle.opgp_packet.specs.Parsed.{body_octets};
ghost use Rattle.opgp_keyring.specs.Bodies.{HasNoFault};
ghost use Rattle.opgp_keyring.specs.Signed.{IsSigned, literal_bodies, signature_bodies};

use crate::copying::copy_all;
use crate::signatures::{Signatures, first_of};
use opgp_frame::Packet;
use opgp_octets::{OutOfMemory, PacketType};
use opgp_packet::LiteralView;
use std::alloc::Global;

/// A literal with one-pass signatures before it and as many signatures after it; fillers may be
/// anywhere (RFC 9580, 10.3).
#[derive(Drop)]
pub struct SignedLiteral {
    flat: Vec<Packet>,
    ghost sound: { All (HasNoFault Keep) flat.items },
    ghost one: { length (literal_bodies flat.items) ≡ 1 },
}

impl SignedLiteral {
    ghost use Rattle.opgp_keyring.specs.SignedLiteral.{signatures_left, signed_packets};

    pub(crate) fn new(flat: Vec<Packet>) -> SignedLiteral
        requires signed { IsSigned flat.items }
        requires sound { All (HasNoFault Keep) flat.items }
        ensures { signed_packets result ≡ flat.items }
    {
        SignedLiteral { flat }
    }

    /// All its packets, in order.
    pub fn flat(&self) -> &[Packet]
        ensures { result.now ≡ signed_packets self.now }
    {
        &self.flat
    }

    /// The literal. Allocates nothing.
    pub fn literal(&self) -> LiteralView<'_>
        ensures { literal_bodies (signed_packets self.now) ≡ body_octets result ∷ [] }
    {
        match first_of(&self.flat, PacketType::LiteralData.number()) {
            Some((packet, _)) => match LiteralView::parse_body(packet.body()) {
                Ok(view) => view,
                Err(_) => unreachable!(),
            },
            None => unreachable!(),
        }
    }

    /// The signatures after the literal, in order, without fillers; of a malformed one its fault.
    /// Allocates nothing.
    pub fn signatures(&self) -> Signatures<'_>
        ensures { signatures_left result ≡ signature_bodies (signed_packets self.now) }
    {
        Signatures::new(&self.flat)
    }

    /// All its packets, in order, as a vector. Allocates nothing.
    pub fn into_packets(self) -> Vec<Packet>
        ensures { result.items ≡ signed_packets self }
    {
        let SignedLiteral { flat } = self;
        flat
    }

    /// A copy of this signed literal. Fails only when out of memory.
    pub fn copy(&self, alloc: Global) -> Result<SignedLiteral, OutOfMemory>
        ensures { IfOk result (λ l. signed_packets l ≡ signed_packets self.now) }
    {
        let flat = copy_all(alloc, &self.flat, |packet| packet.copy(alloc))?;
        Ok(SignedLiteral { flat })
    }
}
