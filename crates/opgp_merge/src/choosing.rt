//! Choosing parts of certificates.

ghost use Rattle.std.specs.Prelude.{◌≡◌, ◌+◌, ◌<◌, ◌^◌, ◌++◌, ◌∷◌, [], All, length, map, IfOk};
ghost use Rattle.std.specs.Prelude.{OnOk, if◌then◌else◌};
ghost use Rattle.std.specs.List.{flat_map};
ghost use Rattle.opgp_keyring.specs.Grouped.{component_of, components_left};
ghost use Rattle.opgp_keyring.specs.Keyring.{IsCertificate, IsComponent, certificate_packets};
ghost use Rattle.opgp_keyring.specs.Keyring.{component_packets};
ghost use Rattle.opgp_merge.specs.Chosen.{chosen_certificate, chosen_component, chosen_keyring};
ghost use Rattle.opgp_merge.specs.Chosen.{component_stays, components_from, is_chosen};
ghost use Rattle.opgp_merge.specs.Chosen.{next_number, owner};

use crate::choice::Choice;
use crate::own::add_own;
use opgp_hash::{Fingerprint, fingerprint_of_view};
use opgp_keyring::{Certificate, Component, Components, Keyring};
use opgp_octets::{OutOfMemory, PacketType};
use std::alloc::Global;

/// The keyring of whose certificates the chosen parts stay, in their order and as they are framed.
/// A certificate stays even if only its primary key does, and what precedes the first one as it is.
///
/// What stays of a certificate is copied, and then the certificate is freed. Fails only when out of
/// memory.
pub fn choose(ring: Keyring, choice: Choice<'_>) -> Result<Keyring, OutOfMemory>
    ensures { IfOk result (λ r. r ≡ chosen_keyring choice.entry ring) }
{
    let (lead, certificates, alloc) = ring.into_parts();
    let mut chosen = Vec::new(alloc);
    for certificate in certificates {
        chosen.push(choose_certificate(alloc, certificate, choice)?)?;
    }
    Ok(Keyring::new(alloc, lead, chosen))
}

/// The certificate whose chosen parts stay, in their order and as they are framed.
///
/// What stays is copied. Fails only when out of memory.
pub fn choose_certificate(
    alloc: Global,
    certificate: Certificate,
    choice: Choice<'_>,
) -> Result<Certificate, OutOfMemory>
    ensures value { IfOk result (λ c. c ≡ chosen_certificate choice.entry certificate) }
    ensures certificate { IfOk result (λ c. IsCertificate c) }
{
    let own = owner(&certificate, choice);
    let mut chosen = Certificate::new(alloc, certificate.primary())?;
    add_own(&mut chosen, certificate.hangs(), own)?;
    add_components(&mut chosen, certificate.components(), choice, own)?;
    // Called for its contract: what was added makes a certificate.
    let _packets = chosen.packets();
    opgp_keyring::laws::one_certificate();
    Ok(chosen)
}

/// The key whose signatures alone stay, if all others go: the primary key.
fn owner(certificate: &Certificate, choice: Choice<'_>) -> Option<Fingerprint>
    ensures { result ≡ owner choice.entry certificate.now }
{
    if !choice.own_signatures {
        return None;
    }
    let key = certificate.key();
    // Called for their contracts, which tie the version that is hashed to the body's first octet.
    let _body = key.body();
    let _version = key.version();
    Some(fingerprint_of_view(key))
}

/// Adds copies of the components that stay, each with the signatures that stay.
fn add_components(
    chosen: &mut Certificate,
    mut components: Components<'_>,
    choice: Choice<'_>,
    own: Option<Fingerprint>,
) -> Result<(), OutOfMemory>
    requires few { length (components_left components) < 2 ^ 64 }
    requires sound { All IsComponent (components_left components) }
    ensures { OnOk result (certificate_packets chosen.new ≡ certificate_packets chosen.old
        ++ flat_map component_packets (map (chosen_component own)
        (components_from 0 choice.entry (components_left components.entry)))) }
{
    let mut number = 0;
    'components: while let Some(component) = components.next() {
        let stays = component_stays(choice, number, component);
        number = next_number(number, component);
        add_component(chosen, component, stays, own)?;
    }
    Ok(())
}

/// Whether a component stays, before which this many user IDs are.
fn component_stays(choice: Choice<'_>, number: u64, component: Component<'_>) -> bool
    ensures { result ≡ component_stays choice.entry number (component_of component.entry) }
{
    let kind = component.head().kind();
    if kind == PacketType::UserId.number() {
        is_chosen(choice.user_ids, number)
    } else if kind == PacketType::UserAttribute.number() {
        !choice.no_attributes
    } else {
        true
    }
}

/// Whether the user ID of a number stays: the number is among those that are named, or none is.
fn is_chosen(named: &[u64], number: u64) -> bool
    ensures { result ≡ is_chosen named.now number }
{
    named.is_empty() || named.contains(&number)
}

/// How many user IDs there are up to a component, before which this many are.
fn next_number(number: u64, component: Component<'_>) -> u64
    requires { number + 1 < 2 ^ 64 }
    ensures { result ≡ next_number number (component_of component.entry) }
{
    if component.head().kind() == PacketType::UserId.number() {
        number + 1
    } else {
        number
    }
}

/// Adds a copy of a component, with the signatures that stay, if it stays itself.
fn add_component(
    chosen: &mut Certificate,
    component: Component<'_>,
    stays: bool,
    own: Option<Fingerprint>,
) -> Result<(), OutOfMemory>
    requires { IsComponent (component_of component) }
    ensures { OnOk result (certificate_packets chosen.new ≡ certificate_packets chosen.old
        ++ flat_map component_packets (map (chosen_component own)
        (if stays then component_of component.entry ∷ [] else []))) }
{
    if stays {
        chosen.add(component.head())?;
        add_own(chosen, component.hangs(), own)?;
    }
    Ok(())
}
