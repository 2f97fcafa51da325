//! What stays of the packets of a certificate.

ghost use Rattle.std.specs.Prelude.{◌≡◌, ◌++◌, ◌∷◌, [], All, IfOk, OnOk};
ghost use Rattle.std.specs.Prelude.{if◌then◌else◌};
ghost use Rattle.std.specs.List.{filter, flat_map};
ghost use Rattle.opgp_keyring.specs.Keyring.{IsCertificate, IsHead, IsHung, IsPrimary};
ghost use Rattle.opgp_keyring.specs.Keyring.{certificate_packets, component_packets};
ghost use Rattle.opgp_keyring.specs.Member.{member_packet};
ghost use Rattle.opgp_bound.specs.Bound.{component_stays, is_bound, is_genuine, kept};
ghost use Rattle.opgp_bound.specs.Bound.{kept_certificate, kept_component, kept_components};
ghost use Rattle.opgp_bound.specs.Bound.{left_behind, packets_of, revokes, role_stays};
ghost use Rattle.opgp_bound.specs.Judged.{IsJudgedComponent};

use crate::judged::{Judged, JudgedComponent};
use crate::role::Role;
use opgp_keyring::{Certificate, Member};
use opgp_octets::OutOfMemory;
use std::alloc::Global;

/// Whether it is a genuine self-signature.
pub(crate) fn is_genuine(role: Role) -> bool
    ensures { result ≡ is_genuine role }
{
    match role {
        Role::SelfSignature { is_genuine } => is_genuine,
        Role::KeyRevocation | Role::Other => false,
    }
}

/// Whether a genuine self-signature is among packets.
fn is_bound(hangs: &[Judged<'_>]) -> bool
    ensures { result ≡ is_bound hangs.now }
{
    hangs.iter().any(|judged| is_genuine(judged.role))
}

/// Whether a packet stays.
fn role_stays(role: Role) -> bool
    ensures { result ≡ role_stays role }
{
    match role {
        Role::SelfSignature { is_genuine } => is_genuine,
        Role::KeyRevocation | Role::Other => true,
    }
}

/// Whether a component stays: a genuine self-signature is on it, or its key made a good revocation.
fn component_stays(component: &JudgedComponent<'_>) -> bool
    ensures { result ≡ component_stays component.now }
{
    is_bound(&component.hangs) || component.is_issuer
}

/// Adds a copy of a packet, if it stays.
pub(crate) fn add_if(
    chosen: &mut Certificate,
    member: Member<'_>,
    stays: bool,
) -> Result<(), OutOfMemory>
    requires { IsHung (member_packet member) }
    ensures { OnOk result (certificate_packets chosen.new ≡ certificate_packets chosen.old
        ++ (if stays then member_packet member.entry ∷ [] else [])) }
{
    if stays {
        chosen.add(member)?;
    }
    Ok(())
}

/// Adds copies of the packets on a key or a component that stay. Fails only when out of memory.
fn add_kept(chosen: &mut Certificate, hangs: &[Judged<'_>]) -> Result<(), OutOfMemory>
    requires { All (λ j. IsHung j.packet) hangs.now }
    ensures { OnOk result (certificate_packets chosen.new
        ≡ certificate_packets chosen.old ++ kept hangs.now) }
{
    let mut rest = hangs;
    'hangs: while let [judged, more @ ..] = rest {
        add_if(chosen, judged.member, role_stays(judged.role))?;
        rest = more;
    }
    Ok(())
}

/// Adds copies of the key revocations among packets. Fails only when out of memory.
fn add_revocations(chosen: &mut Certificate, hangs: &[Judged<'_>]) -> Result<(), OutOfMemory>
    requires { All (λ j. IsHung j.packet) hangs.now }
    ensures { OnOk result (certificate_packets chosen.new ≡ certificate_packets chosen.old
        ++ packets_of (filter (λ j. revokes j.role) hangs.now)) }
{
    let mut rest = hangs;
    'hangs: while let [judged, more @ ..] = rest {
        add_if(chosen, judged.member, revokes(judged.role))?;
        rest = more;
    }
    Ok(())
}

/// Whether it is a key revocation.
fn revokes(role: Role) -> bool
    ensures { result ≡ revokes role }
{
    matches!(role, Role::KeyRevocation)
}

/// Adds copies of the key revocations on a component, if that goes.
fn add_if_left(chosen: &mut Certificate, component: &JudgedComponent<'_>) -> Result<(), OutOfMemory>
    requires { IsJudgedComponent component.now }
    ensures { OnOk result (certificate_packets chosen.new
        ≡ certificate_packets chosen.old ++ left_behind component.now) }
{
    if !component_stays(component) {
        add_revocations(chosen, &component.hangs)?;
    }
    Ok(())
}

/// Adds copies of the key revocations on the components that go. Fails only when out of memory.
fn add_left(chosen: &mut Certificate, components: &[JudgedComponent<'_>]) -> Result<(), OutOfMemory>
    requires { All IsJudgedComponent components.now }
    ensures { OnOk result (certificate_packets chosen.new
        ≡ certificate_packets chosen.old ++ flat_map left_behind components.now) }
{
    let mut rest = components;
    'components: while let [component, more @ ..] = rest {
        add_if_left(chosen, component)?;
        rest = more;
    }
    Ok(())
}

/// Adds a copy of a component, with the packets that stay, if it stays itself.
fn add_if_staying(
    chosen: &mut Certificate,
    component: &JudgedComponent<'_>,
) -> Result<(), OutOfMemory>
    requires { IsJudgedComponent component.now }
    ensures { OnOk result (certificate_packets chosen.new ≡ certificate_packets chosen.old
        ++ (if component_stays component.now
        then component_packets (kept_component component.now) else [])) }
{
    if component_stays(component) {
        chosen.add(component.head)?;
        add_kept(chosen, &component.hangs)?;
    }
    Ok(())
}

/// Adds copies of the components that stay. Fails only when out of memory.
fn add_components(
    chosen: &mut Certificate,
    components: &[JudgedComponent<'_>],
) -> Result<(), OutOfMemory>
    requires { All IsJudgedComponent components.now }
    ensures { OnOk result (certificate_packets chosen.new ≡ certificate_packets chosen.old
        ++ flat_map component_packets (kept_components components.now)) }
{
    let mut rest = components;
    'components: while let [component, more @ ..] = rest {
        add_if_staying(chosen, component)?;
        rest = more;
    }
    Ok(())
}

/// The certificate of what stays. Fails only when out of memory.
pub(crate) fn keep(
    alloc: Global,
    primary: Member<'_>,
    hangs: &[Judged<'_>],
    components: &[JudgedComponent<'_>],
) -> Result<Certificate, OutOfMemory>
    requires primary { IsPrimary (member_packet primary) }
    requires hangs { All (λ j. IsHung j.packet) hangs.now }
    requires components { All IsJudgedComponent components.now }
    ensures value { IfOk result (λ c. c
        ≡ kept_certificate (member_packet primary.entry) hangs.now components.now) }
    ensures certificate { IfOk result (λ c. IsCertificate c) }
{
    let mut chosen = Certificate::new(alloc, primary)?;
    add_kept(&mut chosen, hangs)?;
    add_left(&mut chosen, components)?;
    add_components(&mut chosen, components)?;
    // Called for its contract: what was added makes a certificate.
    let _packets = chosen.packets();
    opgp_keyring::laws::one_certificate();
    Ok(chosen)
}
