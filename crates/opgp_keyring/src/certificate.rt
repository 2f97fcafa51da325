//! Certificates (transferable public keys).

ghost use Rattle.std.specs.Prelude.{◌≡◌, ◌||◌, ◌++◌, ◌∷◌, ◌<◌, ◌^◌, [], true, All};
ghost use Rattle.std.specs.Prelude.{IfOk, OnErr, OnOk};
ghost use Rattle.std.specs.Prelude.{length};
ghost use Rattle.opgp_keyring.specs.Grouped.{components_left, hangs_left};
ghost use Rattle.opgp_keyring.specs.Keyring.{IsCertificate, IsFiller, IsPrimary, certificate_packets};
ghost use Rattle.opgp_keyring.specs.Keyring.{is_head, is_hung};
ghost use Rattle.opgp_keyring.specs.Member.{member_packet, members_left};

use crate::component::Components;
use crate::content::Content;
use crate::hangs::Hangs;
use crate::lead::Lead;
use crate::member::Member;
use crate::members::Members;
use crate::packed::Packed;
use crate::reframing::Reframe;
use opgp_octets::OutOfMemory;
use opgp_packet::KeyView;
use std::alloc::Global;
use std::marker::Model;

/// A certificate, or transferable public key: a primary key, the signatures and fillers on it, and
/// its components (RFC 9580, 10.1).
///
/// A packet of it takes its body's octets and 8 more.
#[derive(Drop)]
pub struct Certificate {
    packets: Packed,
}

impl Model for Certificate {
    ghost use Rattle.opgp_keyring.specs.Grouped.{BeginCertificate, certificate_of};
    ghost use Rattle.opgp_keyring.specs.Keyring.{CertificateValue};

    ghost Value = { CertificateValue };

    ghost view = { λ c. certificate_of c.packets };

    ghost invariant = { λ c. BeginCertificate c.packets };
}

impl Certificate {
    ghost use Rattle.opgp_packet.specs.Parsed.{body_octets};
    ghost use Rattle.opgp_keyring.specs.Grouped.{components_behind, hung_before};

    /// A certificate of a copy of a primary key alone. Fails only when out of memory.
    pub fn new(alloc: Global, primary: Member<'_>) -> Result<Certificate, OutOfMemory>
        requires { IsPrimary (member_packet primary) }
        ensures { IfOk result (λ c. c
            ≡ record { primary = member_packet primary.entry; hangs = []; components = [] }) }
    {
        Certificate::begin(Packed::new(alloc), primary)
    }

    /// A certificate of a copy of a primary key alone, in the memory of these packets, of which
    /// there are none. Fails only when out of memory.
    #[inline(always)]
    pub(crate) fn begin(
        mut packets: Packed,
        primary: Member<'_>,
    ) -> Result<Certificate, OutOfMemory>
        requires empty { packets ≡ [] }
        requires primary { IsPrimary (member_packet primary) }
        ensures { IfOk result (λ c. c
            ≡ record { primary = member_packet primary.entry; hangs = []; components = [] }) }
    {
        packets.push(primary)?;
        Ok(Certificate { packets })
    }

    /// No packets, in the memory of its own.
    pub(crate) fn emptied(self) -> Packed
        ensures { result ≡ [] }
    {
        self.packets.emptied()
    }

    /// Adds a copy of the next packet: a user ID, an attribute or a subkey begins a component; any
    /// other belongs to the last component, or to the primary key if there is none.
    ///
    /// Fails only when out of memory; the certificate is then unchanged.
    #[inline(always)]
    pub fn add(&mut self, member: Member<'_>) -> Result<(), OutOfMemory>
        requires { (is_head (member_packet member).kind || is_hung (member_packet member).kind)
            ≡ true }
        ensures ok { OnOk result (certificate_packets self.new
            ≡ certificate_packets self.old ++ member_packet member.entry ∷ []) }
        ensures certificate { OnOk result (IsCertificate self.new) }
        ensures err { OnErr result (self.new ≡ self.old) }
    {
        self.packets.push(member)?;
        Ok(())
    }

    /// Adds fillers to the last component, or to the primary key if there is none. Fails only when
    /// out of memory.
    pub(crate) fn hang_all(&mut self, fillers: Lead) -> Result<(), OutOfMemory>
        ensures ok { OnOk result
            (certificate_packets self.new ≡ certificate_packets self.old ++ fillers) }
        ensures certificate { OnOk result (IsCertificate self.new) }
    {
        self.packets.append(fillers.into_packed())?;
        Ok(())
    }

    /// All its packets, in order.
    pub fn packets(&self) -> Members<'_>
        ensures value { members_left result ≡ certificate_packets self.now }
        ensures certificate { IsCertificate self.now }
        ensures few { length (certificate_packets self.now) < 2 ^ 64 }
    {
        self.packets.members()
    }

    /// The primary key.
    pub fn primary(&self) -> Member<'_>
        ensures value { member_packet result ≡ self.now.primary }
        ensures certificate { IsCertificate self.now }
    {
        let mut packets = self.packets();
        match packets.next() {
            Some(primary) => primary,
            None => unreachable!(),
        }
    }

    /// The primary key, read (5.5.1.1).
    pub fn key(&self) -> KeyView<'_>
        ensures { body_octets result ≡ self.now.primary.body }
    {
        match self.primary().content() {
            Content::Primary(key) => key,
            _ => unreachable!(),
        }
    }

    /// The packets after the primary key.
    fn rest(&self) -> Members<'_>
        ensures hangs { hung_before (members_left result) ≡ self.now.hangs }
        ensures components { components_behind (members_left result) ≡ self.now.components }
        ensures certificate { IsCertificate self.now }
        ensures few { length (certificate_packets self.now) < 2 ^ 64 }
    {
        let mut packets = self.packets.members();
        let _primary = packets.next();
        packets
    }

    /// The signatures and fillers on the primary key, in order.
    pub fn hangs(&self) -> Hangs<'_>
        ensures value { hangs_left result ≡ self.now.hangs }
        ensures certificate { IsCertificate self.now }
        ensures few { length (certificate_packets self.now) < 2 ^ 64 }
    {
        Hangs::new(self.rest())
    }

    /// The user IDs, attributes and subkeys, in order.
    pub fn components(&self) -> Components<'_>
        ensures value { components_left result ≡ self.now.components }
        ensures certificate { IsCertificate self.now }
        ensures few { length (certificate_packets self.now) < 2 ^ 64 }
    {
        Components::new(self.rest())
    }

    /// A copy of this certificate. Fails only when out of memory.
    pub fn copy(&self, alloc: Global) -> Result<Certificate, OutOfMemory>
        ensures value { IfOk result (λ c. c ≡ self.now) }
        ensures certificate { IsCertificate self.now }
    {
        let packets = self.packets.copy(alloc)?;
        Ok(Certificate { packets })
    }
}

impl Reframe for Certificate {
    ghost use Rattle.opgp_keyring.specs.Normal.{normal_certificate};

    ghost normal = { normal_certificate };

    fn reframe(&mut self) {
        self.packets.reframe();
    }
}
