//! Packets of a keyring, their bodies one after the other in one vector.

ghost use Rattle.std.specs.Prelude.{◌≡◌, ◌↔◌, ◌<◌, ◌^◌, ◌++◌, ◌∷◌, [], All};
ghost use Rattle.std.specs.Prelude.{IfOk, IsTrue, map, OnErr, OnOk};
ghost use Rattle.std.specs.Prelude.{length};
ghost use Rattle.opgp_frame.specs.Reframed.{reframed};
ghost use Rattle.opgp_keyring.specs.Member.{member_packet, members_left};
ghost use Rattle.opgp_keyring.specs.Packed.{MayStand};

use crate::header::Header;
use crate::member::Member;
use crate::members::Members;
use crate::reframing::{Reframe, reframe_all};
use opgp_octets::OutOfMemory;
use std::alloc::Global;
use std::marker::Model;

/// Packets of a keyring, in order. A packet takes its body's octets and 8 more, so a packet of two
/// octets takes 8; a vector that has just grown has room for as much again.
#[derive(Drop)]
pub(crate) struct Packed {
    bodies: Vec<u8>,
    headers: Vec<Header>,
}

impl Model for Packed {
    ghost use Rattle.std.specs.Prelude.{List};
    ghost use Rattle.opgp_frame.specs.Packet.{PacketValue};
    ghost use Rattle.opgp_keyring.specs.Packed.{ArePacked};
    ghost use Rattle.opgp_keyring.specs.Header.{packets_with};

    ghost Value = { List PacketValue };

    ghost view = { λ p. packets_with p.bodies.items p.headers.items };

    ghost invariant = { λ p. ArePacked p.bodies.items p.headers.items };
}

impl Packed {
    /// No packets. Allocates nothing.
    pub(crate) fn new(alloc: Global) -> Packed
        ensures { result ≡ [] }
    {
        Packed {
            bodies: Vec::new(alloc),
            headers: Vec::new(alloc),
        }
    }

    /// Adds a copy of a packet. Fails only when out of memory; nothing is added then.
    #[inline(always)]
    pub(crate) fn push(&mut self, member: Member<'_>) -> Result<(), OutOfMemory>
        ensures ok { OnOk result (self.new ≡ self.old ++ member_packet member.entry ∷ []) }
        ensures err { OnErr result (self.new ≡ self.old) }
    {
        let header = member.header();
        // Reserve first, so that the last step can't fail after the one before it.
        self.headers.reserve(1)?;
        self.bodies.extend_from_slice(member.body())?;
        self.headers.push(header)?;
        Ok(())
    }

    /// Adds all packets of another list, after those of this one. Fails only when out of memory;
    /// nothing is added then.
    pub(crate) fn append(&mut self, other: Packed) -> Result<(), OutOfMemory>
        ensures ok { OnOk result (self.new ≡ self.old ++ other) }
        ensures err { OnErr result (self.new ≡ self.old) }
    {
        let Packed { bodies, headers } = other;
        self.headers.reserve(headers.len())?;
        self.bodies.extend_from_slice(&bodies)?;
        self.headers.extend_from_slice(&headers)?;
        Ok(())
    }

    /// No packets, in the memory of these.
    pub(crate) fn emptied(self) -> Packed
        ensures { result ≡ [] }
    {
        let Packed {
            mut bodies,
            mut headers,
        } = self;
        bodies.clear();
        headers.clear();
        Packed { bodies, headers }
    }

    /// The packets, in order. Allocates nothing.
    pub(crate) fn members(&self) -> Members<'_>
        ensures value { members_left result ≡ self.now }
        ensures parts { All MayStand self.now }
        ensures few { length self.now < 2 ^ 64 }
    {
        Members::new(&self.bodies, &self.headers)
    }

    /// Whether there are none.
    pub(crate) fn is_empty(&self) -> bool
        ensures { IsTrue result ↔ (self.now ≡ []) }
    {
        self.members().is_empty()
    }

    /// A copy. Fails only when out of memory.
    pub(crate) fn copy(&self, alloc: Global) -> Result<Packed, OutOfMemory>
        ensures { IfOk result (λ p. p ≡ self.now) }
    {
        let bodies = Vec::from_slice(alloc, &self.bodies)?;
        let headers = Vec::from_slice(alloc, &self.headers)?;
        Ok(Packed { bodies, headers })
    }
}

impl Reframe for Packed {
    ghost normal = { map reframed };

    fn reframe(&mut self) {
        reframe_all(&mut self.headers);
    }
}
