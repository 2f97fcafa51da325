//! Packets (RFC 9580, 4).

ghost use Rattle.std.specs.Prelude.{◌≡◌, ◌↔◌, IsSome, IfSome, IfOk, IsTrue, length};
ghost use Rattle.opgp_frame.specs.Packet.{PacketValue, IsPacket, spelling};
ghost use Rattle.opgp_frame.specs.Reframed.{reframed};

use crate::form::Form;
use crate::header::is_read_kind;
use crate::writing::size_in;
use opgp_octets::OutOfMemory;
use std::alloc::Global;
use std::marker::Model;
use std::mem;

/// A packet (RFC 9580, 4): the form of its header, its type and its body. It doesn't contain its
/// place.
#[derive(Drop)]
pub struct Packet {
    form: Form,
    kind: u8,
    body: Vec<u8>,
}

impl Model for Packet {
    ghost use Rattle.opgp_frame.specs.Packet.{PacketValue, IsPacket};

    ghost Value = { PacketValue };

    ghost view = { λ p. record { form = p.form; kind = p.kind; body = p.body.items } };

    ghost invariant = { λ p.
        IsPacket (record { form = p.form; kind = p.kind; body = p.body.items }) };
}

/// A packet (RFC 9580, 4) and its place in the input.
#[derive(Drop)]
pub struct Placed {
    /// The packet.
    pub packet: Packet,
    /// The armored block that it is in; 0 for binary input.
    pub block: u64,
    /// The offset of its first octet in the block's octets.
    pub pos: u64,
}

impl Packet {
    /// This packet, or None unless all of these hold:
    ///
    /// - the type is read: below 64, and none of 0, 8, 15, 16, 19, 20 and 22 to 39;
    /// - packets of the type may have the form: types up to 15 the legacy format, 9, 11 and 18
    ///   partial lengths;
    /// - the form can encode the body's length, which is at most 4,294,967,295.
    ///
    /// Allocates nothing.
    #[inline(always)]
    pub fn new(form: Form, kind: u8, body: Vec<u8>) -> Option<Packet>
        ensures some { IsSome result
            ↔ IsPacket (record { form = form; kind = kind; body = body.items }) }
        ensures value { IfSome result
            (λ p. p ≡ record { form = form; kind = kind; body = body.items }) }
    {
        if is_packet(&form, kind, &body) {
            Some(Packet { form, kind, body })
        } else {
            None
        }
    }

    /// The form of the header, the type and the body.
    ///
    /// Allocates nothing.
    pub fn into_parts(self) -> (Form, u8, Vec<u8>)
        ensures form { result.0 ≡ self.form }
        ensures kind { result.1 ≡ self.kind }
        ensures body { result.2.items ≡ self.body }
        ensures packet { IsPacket self }
    {
        let Packet { form, kind, body } = self;
        (form, kind, body)
    }

    /// Gives it the current format with its shortest length (RFC 9580, 4.2.1), never partial.
    ///
    /// Allocates nothing.
    pub fn reframe(&mut self)
        ensures { self.new ≡ reframed self.old }
    {
        let form = Form::shortest(self.body.len() as u32);
        drop(mem::replace(&mut self.form, form));
    }

    /// A copy of this packet.
    ///
    /// Fails only when out of memory.
    pub fn copy(&self, alloc: Global) -> Result<Packet, OutOfMemory>
        ensures { IfOk result (λ p. p ≡ self.now) }
    {
        let form = self.form.copy(alloc)?;
        let body = Vec::from_slice(alloc, &self.body)?;
        Ok(Packet {
            form,
            kind: self.kind,
            body,
        })
    }

    /// The form of the header.
    pub fn form(&self) -> &Form
        ensures value { result.now ≡ self.now.form }
        ensures packet { IsPacket self.now }
    {
        &self.form
    }

    /// The type (RFC 9580, 5).
    pub fn kind(&self) -> u8
        ensures value { result ≡ self.now.kind }
        ensures packet { IsPacket self.now }
    {
        self.kind
    }

    /// The body; of a packet under partial lengths, its pieces joined.
    pub fn body(&self) -> &[u8]
        ensures value { result.now ≡ self.now.body }
        ensures packet { IsPacket self.now }
    {
        self.body.as_slice()
    }

    /// How many octets the packet takes, header included (RFC 9580, 4.2).
    ///
    /// Allocates nothing.
    #[tactic(auto, using(crate::proofs::Cuts::cut_body_size))]
    #[inline(always)]
    pub fn spelled_len(&self) -> u64
        ensures { result ≡ length (spelling self.now) }
    {
        size_in(&self.form, self.body.len() as u64)
    }
}

impl Placed {
    /// A copy of this packet, in the same place.
    ///
    /// Fails only when out of memory.
    pub fn copy(&self, alloc: Global) -> Result<Placed, OutOfMemory>
        ensures { IfOk result (λ p. p ≡ self.now) }
    {
        let packet = self.packet.copy(alloc)?;
        Ok(Placed {
            packet,
            block: self.block,
            pos: self.pos,
        })
    }
}

/// Whether there is a packet with this form, type and body.
#[inline(always)]
pub(crate) fn is_packet(form: &Form, kind: u8, body: &[u8]) -> bool
    ensures { IsTrue result
        ↔ IsPacket (record { form = form.now; kind = kind; body = body.now }) }
{
    is_read_kind(kind) && form.takes(kind) && form.last_length(body.len() as u64).is_some()
}
