//! Packets, borrowed (RFC 9580, 4).

ghost use Rattle.std.specs.Prelude.{◌≡◌, ◌↔◌, length, IsSome, IfSome, IfOk};
ghost use Rattle.opgp_frame.specs.PacketProp.{IsPacket-prop};
ghost use Rattle.opgp_frame.specs.Packet.{IsPacket, spelling};

use crate::form::Form;
use crate::packet::{Packet, Placed, is_packet};
use crate::writing::size_in;
use opgp_octets::OutOfMemory;
use std::alloc::Global;

/// A packet, borrowed (RFC 9580, 4): the form of its header, its type and its body. It doesn't
/// contain its place.
#[derive(Clone, Copy)]
pub struct PacketView<'a> {
    pub(crate) form: &'a Form,
    pub(crate) kind: u8,
    pub(crate) body: &'a [u8],
    ghost packet: { IsPacket
        (record { form = form.now; kind = kind; body = body.now }) } by { IsPacket-prop
            (record { form = form.now; kind = kind; body = body.now }) },
}

/// A packet, borrowed, and its place in the input.
#[derive(Clone, Copy)]
pub struct PlacedView<'a> {
    /// The packet.
    pub packet: PacketView<'a>,
    /// The armored block that it is in; 0 for binary input.
    pub block: u64,
    /// The offset of its first octet in the block's octets.
    pub pos: u64,
}

impl<'a> PacketView<'a> {
    ghost use Rattle.opgp_frame.specs.View.{viewed_packet};

    /// This packet, under the same conditions as `Packet::new`. Allocates nothing.
    #[inline(always)]
    pub fn new(form: &'a Form, kind: u8, body: &'a [u8]) -> Option<PacketView<'a>>
        ensures some { IsSome result
            ↔ IsPacket (record { form = form.now; kind = kind; body = body.now }) }
        ensures value { IfSome result
            (λ v. viewed_packet v ≡ record { form = form.now; kind = kind; body = body.now }) }
    {
        if is_packet(form, kind, body) {
            Some(PacketView { form, kind, body })
        } else {
            None
        }
    }

    /// A packet that is kept.
    #[inline(always)]
    pub fn of(packet: &'a Packet) -> PacketView<'a>
        ensures { viewed_packet result ≡ packet.now }
    {
        PacketView {
            form: packet.form(),
            kind: packet.kind(),
            body: packet.body(),
        }
    }

    /// The form of the header.
    pub fn form(self) -> &'a Form
        ensures value { result.now ≡ (viewed_packet self.entry).form }
        ensures packet { IsPacket (viewed_packet self.entry) }
    {
        self.form
    }

    /// The type (RFC 9580, 5).
    pub fn kind(self) -> u8
        ensures value { result ≡ (viewed_packet self.entry).kind }
        ensures packet { IsPacket (viewed_packet self.entry) }
    {
        self.kind
    }

    /// The body.
    pub fn body(self) -> &'a [u8]
        ensures value { result.now ≡ (viewed_packet self.entry).body }
        ensures packet { IsPacket (viewed_packet self.entry) }
    {
        self.body
    }

    /// How many octets the packet takes, header included (RFC 9580, 4.2). Allocates nothing.
    #[tactic(auto, using(crate::proofs::Cuts::cut_body_size))]
    #[inline(always)]
    pub fn spelled_len(self) -> u64
        ensures { result ≡ length (spelling (viewed_packet self.entry)) }
    {
        size_in(self.form, self.body.len() as u64)
    }

    /// A copy that is kept. Fails only when out of memory.
    #[inline(always)]
    pub fn copy(self, alloc: Global) -> Result<Packet, OutOfMemory>
        ensures { IfOk result (λ p. p ≡ viewed_packet self.entry) }
    {
        let form = self.form.copy(alloc)?;
        let body = Vec::from_slice(alloc, self.body)?;
        match Packet::new(form, self.kind, body) {
            Some(packet) => Ok(packet),
            None => unreachable!(),
        }
    }
}

impl<'a> PlacedView<'a> {
    ghost use Rattle.opgp_frame.specs.View.{viewed};

    /// A packet that is kept.
    #[inline(always)]
    pub fn of(placed: &'a Placed) -> PlacedView<'a>
        ensures { viewed result ≡ placed.now }
    {
        PlacedView {
            packet: PacketView::of(&placed.packet),
            block: placed.block,
            pos: placed.pos,
        }
    }

    /// A copy that is kept, in the same place. Fails only when out of memory.
    #[inline(always)]
    pub fn copy(self, alloc: Global) -> Result<Placed, OutOfMemory>
        ensures { IfOk result (λ p. p ≡ viewed self.entry) }
    {
        let packet = self.packet.copy(alloc)?;
        Ok(Placed {
            packet,
            block: self.block,
            pos: self.pos,
        })
    }
}
