//! Certificates of copies of borrowed packets.

ghost use Rattle.std.specs.Prelude.{◌≡◌, ◌++◌, All, IfOk, OnOk};
ghost use Rattle.opgp_keyring.specs.Keyring.{IsCertificate, IsComponent, IsHung, certificate_packets};
ghost use Rattle.opgp_keyring.specs.Keyring.{component_packets};

use crate::open::{OpenCertificate, OpenComponent, OpenPacket};
use opgp_keyring::Certificate;
use opgp_octets::OutOfMemory;
use std::alloc::Global;

/// Certificates of copies of these packets. Fails only when out of memory.
pub(crate) fn close_all(
    alloc: Global,
    open: &[OpenCertificate<'_>],
) -> Result<Vec<Certificate>, OutOfMemory>
    requires { All IsCertificate open.now }
    ensures { IfOk result (λ v. v.items ≡ open.now) }
{
    let mut closed = Vec::new(alloc);
    for certificate in open {
        closed.push(close(alloc, certificate)?)?;
    }
    Ok(closed)
}

/// A certificate of copies of these packets. Fails only when out of memory.
fn close(alloc: Global, open: &OpenCertificate<'_>) -> Result<Certificate, OutOfMemory>
    requires { IsCertificate open.now }
    ensures { IfOk result (λ c. c ≡ open.now) }
{
    opgp_keyring::laws::one_certificate();
    let mut closed = Certificate::new(alloc, open.primary.member)?;
    add_hangs(&mut closed, &open.hangs)?;
    for component in &open.components {
        add_component(&mut closed, component)?;
    }
    // Called for its contract: what was added makes a certificate.
    let _packets = closed.packets();
    Ok(closed)
}

/// Adds a component behind the packets that are there. Fails only when out of memory.
fn add_component(closed: &mut Certificate, component: &OpenComponent<'_>) -> Result<(), OutOfMemory>
    requires { IsComponent component.now }
    ensures { OnOk result (certificate_packets closed.new
        ≡ certificate_packets closed.old ++ component_packets component.now) }
{
    let OpenComponent { head, hangs } = component;
    closed.add(head.member)?;
    add_hangs(closed, hangs)
}

/// Adds signatures and fillers behind the packets that are there. Fails only when out of memory.
fn add_hangs(closed: &mut Certificate, hangs: &[OpenPacket<'_>]) -> Result<(), OutOfMemory>
    requires { All IsHung hangs.now }
    ensures { OnOk result (certificate_packets closed.new
        ≡ certificate_packets closed.old ++ hangs.now) }
{
    for packet in hangs {
        closed.add(packet.member)?;
    }
    Ok(())
}
