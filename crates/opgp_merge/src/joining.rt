//! Items that are joined with others of the same type and body.

ghost use Rattle.std.specs.Prelude.{◌≡◌, refl, OnOk};
ghost use Rattle.opgp_merge.specs.Slots.{Name, head_name, packet_name, primary_name};
ghost use Rattle.opgp_merge.specs.Slots.{stays, with_hangs, with_parts};

use crate::open::{OpenCertificate, OpenComponent, OpenPacket};
use opgp_octets::{OutOfMemory, PacketType};

/// An item that can be joined with others of the same type and body.
pub(crate) trait Joining: Drop {
    // The type and the body.
    ghost name: { Self → Name };

    // The item with what another one contains.
    ghost both: { Self → Self → Self };

    /// The type and the body.
    fn name(&self) -> (u8, &[u8])
        ensures kind { result.0 ≡ (name self.now).0 }
        ensures body { result.1.now ≡ (name self.now).1 };

    /// Takes what another one contains. Fails only when out of memory.
    fn take_in(&mut self, other: Self) -> Result<(), OutOfMemory>
        ensures { OnOk result (self.new ≡ both self.old other) };

    // That changes neither type nor body.
    ghost keeps: { (x y : Self) → name (both x y) ≡ name x };
}

impl Joining for OpenPacket<'_> {
    ghost name = { packet_name };

    ghost both = { stays };

    ghost keeps = { λ x y. refl };

    fn name(&self) -> (u8, &[u8]) {
        (self.member.kind(), self.member.body())
    }

    fn take_in(&mut self, packet: Self) -> Result<(), OutOfMemory> {
        drop(packet);
        Ok(())
    }
}

impl Joining for OpenComponent<'_> {
    ghost name = { head_name };

    ghost both = { with_hangs };

    ghost keeps = { λ x y. refl };

    fn name(&self) -> (u8, &[u8]) {
        self.head.name()
    }

    fn take_in(&mut self, component: Self) -> Result<(), OutOfMemory> {
        let mut hangs = component.hangs;
        self.hangs.append(&mut hangs)?;
        Ok(())
    }
}

impl Joining for OpenCertificate<'_> {
    ghost name = { primary_name };

    ghost both = { with_parts };

    ghost keeps = { λ x y. refl };

    fn name(&self) -> (u8, &[u8]) {
        (PacketType::PublicKey.number(), self.primary.member.body())
    }

    fn take_in(&mut self, certificate: Self) -> Result<(), OutOfMemory> {
        let OpenCertificate {
            primary: _,
            mut hangs,
            mut components,
        } = certificate;
        self.components.append(&mut components)?;
        self.hangs.append(&mut hangs)?;
        Ok(())
    }
}
