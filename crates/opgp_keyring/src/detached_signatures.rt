//! Detached signatures.

ghost use Rattle.std.specs.Prelude.{◌≡◌, All, IfOk, length};
ghost use Rattle.std.specs.List.{AllZip};
ghost use Rattle.opgp_octets.specs.declared.malformed.Malformed.TheVariants.{Keep};
ghost use Rattle.opgp_keyring.specs.Bodies.{HasNoFault};
ghost use Rattle.opgp_keyring.specs.Detached.{AreDetached};
ghost use Rattle.opgp_keyring.specs.Signed.{signature_bodies};

use crate::copying::copy_all;
use crate::detached_packets::DetachedPackets;
use crate::packet_body::read_signature;
use crate::signatures::Signatures;
use opgp_frame::Packet;
use opgp_octets::{BodyFault, OutOfMemory, PacketType};
use opgp_packet::SigView;
use std::alloc::Global;

/// At least one signature, apart from what it signs; fillers may be anywhere (RFC 9580, 10.4).
#[derive(Drop)]
pub struct DetachedSignatures {
    flat: Vec<Packet>,
    ghost sound: { All (HasNoFault Keep) flat.items },
    ghost detached: { AreDetached flat.items },
}

impl DetachedSignatures {
    ghost use Rattle.opgp_keyring.specs.DetachedSignatures.{detached_left, detached_packets};
    ghost use Rattle.opgp_keyring.specs.SignedLiteral.{IsReadAs, signatures_left};

    pub(crate) fn new(flat: Vec<Packet>) -> DetachedSignatures
        requires detached { AreDetached flat.items }
        requires sound { All (HasNoFault Keep) flat.items }
        ensures { detached_packets result ≡ flat.items }
    {
        DetachedSignatures { flat }
    }

    /// All their packets, in order.
    pub fn flat(&self) -> &[Packet]
        ensures { result.now ≡ detached_packets self.now }
    {
        &self.flat
    }

    /// All their packets, one after the other, as those of a keyring are visited. Allocates
    /// nothing.
    pub fn packets(&self) -> DetachedPackets<'_>
        ensures { detached_left result ≡ detached_packets self.now }
    {
        DetachedPackets::new(&self.flat)
    }

    /// The signatures, in order, without fillers; of a malformed one its fault. Allocates nothing.
    pub fn signatures(&self) -> Signatures<'_>
        ensures { signatures_left result ≡ signature_bodies (detached_packets self.now) }
    {
        Signatures::new(&self.flat)
    }

    /// How many signatures there are, malformed ones too. Allocates nothing.
    pub fn count(&self) -> usize
        ensures { result ≡ length (signature_bodies (detached_packets self.now)) }
    {
        let mut count = 0;
        for packet in &self.flat {
            if packet.kind() == PacketType::Signature.number() {
                count += 1;
            }
        }
        count
    }

    /// The same signatures as [`signatures`](DetachedSignatures::signatures) has, as a vector.
    ///
    /// Fails only when out of memory.
    pub fn views(&self, alloc: Global) -> Result<Vec<Result<SigView<'_>, BodyFault>>, OutOfMemory>
        ensures { IfOk result (λ v. AllZip (λ read body. IsReadAs body read) v.items
            (signature_bodies (detached_packets self.now))) }
    {
        let mut views = Vec::new(alloc);
        for packet in &self.flat {
            if packet.kind() == PacketType::Signature.number() {
                views.push(read_signature(packet))?;
            }
        }
        Ok(views)
    }

    /// All their packets, in order, as a vector. Allocates nothing.
    pub fn into_packets(self) -> Vec<Packet>
        ensures { result.items ≡ detached_packets self }
    {
        let DetachedSignatures { flat } = self;
        flat
    }

    /// A copy of these signatures. Fails only when out of memory.
    pub fn copy(&self, alloc: Global) -> Result<DetachedSignatures, OutOfMemory>
        ensures { IfOk result (λ d. detached_packets d ≡ detached_packets self.now) }
    {
        let flat = copy_all(alloc, &self.flat, |packet| packet.copy(alloc))?;
        Ok(DetachedSignatures { flat })
    }
}
