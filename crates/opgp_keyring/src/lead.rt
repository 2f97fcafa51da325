//! The fillers before the first certificate of a keyring.

ghost use Rattle.std.specs.Prelude.{◌≡◌, ◌↔◌, ◌++◌, ◌∷◌, [], IsTrue, All, map, IfOk, OnOk, OnErr};
ghost use Rattle.opgp_frame.specs.Reframed.{reframed};
ghost use Rattle.opgp_keyring.specs.Keyring.{IsFiller};
ghost use Rattle.opgp_keyring.specs.Member.{member_packet, members_left};

use crate::member::Member;
use crate::members::Members;
use crate::packed::Packed;
use crate::reframing::Reframe;
use opgp_octets::OutOfMemory;
use std::alloc::Global;
use std::marker::Model;

/// Fillers: marker, trust and padding packets (RFC 9580, 5.8, 5.10, 5.14), and those of types that
/// aren't critical (4.3).
#[derive(Drop)]
pub struct Lead {
    packets: Packed,
}

impl Model for Lead {
    ghost use Rattle.opgp_frame.specs.Packet.{PacketValue};
    ghost use Rattle.std.specs.Prelude.{All, List};
    ghost use Rattle.opgp_keyring.specs.Keyring.{IsFiller};

    ghost Value = { List PacketValue };

    ghost view = { λ l. l.packets };

    ghost invariant = { λ l. All IsFiller l.packets };
}

impl Lead {
    /// No fillers. Allocates nothing.
    pub(crate) fn new(alloc: Global) -> Lead
        ensures { result ≡ [] }
    {
        Lead {
            packets: Packed::new(alloc),
        }
    }

    /// Adds a copy of a filler. Fails only when out of memory; nothing is added then.
    pub(crate) fn push(&mut self, filler: Member<'_>) -> Result<(), OutOfMemory>
        requires { IsFiller (member_packet filler) }
        ensures ok { OnOk result (self.new ≡ self.old ++ member_packet filler.entry ∷ []) }
        ensures err { OnErr result (self.new ≡ self.old) }
    {
        self.packets.push(filler)?;
        Ok(())
    }

    /// Adds all fillers of another lead, after those of this one. Fails only when out of memory.
    pub(crate) fn append(&mut self, other: Lead) -> Result<(), OutOfMemory>
        ensures ok { OnOk result (self.new ≡ self.old ++ other) }
        ensures fillers { OnOk result (All IsFiller self.new) }
    {
        self.packets.append(other.into_packed())?;
        Ok(())
    }

    /// Whether there are none.
    pub(crate) fn is_empty(&self) -> bool
        ensures { IsTrue result ↔ (self.now ≡ []) }
    {
        self.packets.is_empty()
    }

    /// The fillers, in order.
    pub fn packets(&self) -> Members<'_>
        ensures value { members_left result ≡ self.now }
        ensures fillers { All IsFiller self.now }
    {
        self.packets.members()
    }

    /// The fillers, in order.
    pub(crate) fn into_packed(self) -> Packed
        ensures value { result ≡ self }
        ensures fillers { All IsFiller self }
    {
        self.packets
    }

    /// A copy. Fails only when out of memory.
    pub fn copy(&self, alloc: Global) -> Result<Lead, OutOfMemory>
        ensures { IfOk result (λ l. l ≡ self.now) }
    {
        let packets = self.packets.copy(alloc)?;
        Ok(Lead { packets })
    }
}

impl Reframe for Lead {
    ghost normal = { map reframed };

    fn reframe(&mut self) {
        self.packets.reframe();
    }
}
