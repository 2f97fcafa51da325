//! Certificates of borrowed packets, which are moved from one to another.

ghost use Rattle.std.specs.Prelude.{◌≡◌, IfOk};
ghost use Rattle.opgp_keyring.specs.Grouped.{component_of, components_left, hangs_left};

use opgp_keyring::{Certificate, Component, Components, Hangs, Member};
use opgp_octets::OutOfMemory;
use std::alloc::Global;
use std::marker::Model;

/// A packet of a certificate, borrowed.
#[derive(Drop)]
pub(crate) struct OpenPacket<'a> {
    pub(crate) member: Member<'a>,
}

impl<'a> Model for OpenPacket<'a> {
    ghost use Rattle.opgp_frame.specs.Packet.{PacketValue};
    ghost use Rattle.opgp_keyring.specs.Member.{member_packet};

    ghost Value = { PacketValue };

    ghost view = { λ p. member_packet p.member };
}

/// A user ID, an attribute or a subkey, and the packets on it.
#[derive(Drop)]
pub(crate) struct OpenComponent<'a> {
    pub(crate) head: OpenPacket<'a>,
    pub(crate) hangs: Vec<OpenPacket<'a>>,
}

impl<'a> Model for OpenComponent<'a> {
    ghost use Rattle.opgp_keyring.specs.Keyring.{ComponentValue};

    ghost Value = { ComponentValue };

    ghost view = { λ c. record { head = c.head; hangs = c.hangs.items } };
}

/// A primary key, the packets on it, and the components of its certificate.
#[derive(Drop)]
pub(crate) struct OpenCertificate<'a> {
    pub(crate) primary: OpenPacket<'a>,
    pub(crate) hangs: Vec<OpenPacket<'a>>,
    pub(crate) components: Vec<OpenComponent<'a>>,
}

impl<'a> Model for OpenCertificate<'a> {
    ghost use Rattle.opgp_keyring.specs.Keyring.{CertificateValue};

    ghost Value = { CertificateValue };

    ghost view = { λ c. record {
      primary = c.primary;
      hangs = c.hangs.items;
      components = c.components.items;
    } };
}

/// The certificates' packets. Fails only when out of memory.
pub(crate) fn open_all(
    alloc: Global,
    certificates: &[Certificate],
) -> Result<Vec<OpenCertificate<'_>>, OutOfMemory>
    ensures { IfOk result (λ v. v.items ≡ certificates.now) }
{
    let mut open = Vec::new(alloc);
    for certificate in certificates {
        open.push(open_certificate(alloc, certificate)?)?;
    }
    Ok(open)
}

fn open_certificate(
    alloc: Global,
    certificate: &Certificate,
) -> Result<OpenCertificate<'_>, OutOfMemory>
    ensures { IfOk result (λ o. o ≡ certificate.now) }
{
    let hangs = open_hangs(alloc, certificate.hangs())?;
    let components = open_components(alloc, certificate.components())?;
    let primary = OpenPacket {
        member: certificate.primary(),
    };
    Ok(OpenCertificate {
        primary,
        hangs,
        components,
    })
}

fn open_hangs<'a>(alloc: Global, mut hangs: Hangs<'a>) -> Result<Vec<OpenPacket<'a>>, OutOfMemory>
    ensures { IfOk result (λ v. v.items ≡ hangs_left hangs.entry) }
{
    let mut open = Vec::new(alloc);
    'hangs: while let Some(member) = hangs.next() {
        open.push(OpenPacket { member })?;
    }
    Ok(open)
}

fn open_components<'a>(
    alloc: Global,
    mut components: Components<'a>,
) -> Result<Vec<OpenComponent<'a>>, OutOfMemory>
    ensures { IfOk result (λ v. v.items ≡ components_left components.entry) }
{
    let mut open = Vec::new(alloc);
    'components: while let Some(component) = components.next() {
        open.push(open_component(alloc, component)?)?;
    }
    Ok(open)
}

fn open_component(alloc: Global, component: Component<'_>) -> Result<OpenComponent<'_>, OutOfMemory>
    ensures { IfOk result (λ o. o ≡ component_of component.entry) }
{
    let hangs = open_hangs(alloc, component.hangs())?;
    let head = OpenPacket {
        member: component.head(),
    };
    Ok(OpenComponent { head, hangs })
}
