//! The walk over the packets of a keyring's certificates, in order.

ghost use Rattle.std.specs.Prelude.{◌≡◌, ◌∷◌, ◌++◌, [], ◌<◌, ◌^◌, List, length, None, Some};
ghost use Rattle.std.specs.Prelude.{IfOk, OnOk};
ghost use Rattle.std.specs.List.{flat_map};
ghost use Rattle.opgp_keyring.specs.Grouped.{component_of, components_left, hangs_left};
ghost use Rattle.opgp_keyring.specs.Keyring.{component_packets};
ghost use Rattle.opgp_keyring.specs.Member.{member_packet};
ghost use Rattle.opgp_difference.specs.Entries.{Entry, Standing, certificate_standing};
ghost use Rattle.opgp_difference.specs.Entries.{component_standing, hang_standing, hangs_on, numbered};
ghost use Rattle.opgp_difference.specs.Entries.{packet_name, standing_in};

use crate::place::PacketPlace;
use opgp_keyring::{Certificate, Component, Components, Hangs, Keyring, Member};
use opgp_octets::{OutOfMemory, PacketType};

/// A visitor of the packets of a keyring's certificates, one after the other.
pub(crate) trait Visitor<'a> {
    /// What it knows a packet by.
    type Node: Copy + Drop;

    // What it has once it has met these.
    ghost has: { Self → List Standing → Type 0 };

    // That it knows an entry, or what entries hang on, by this.
    ghost knows: { Self → Entry → Self.Node → Type 0 };

    /// Meets a packet that hangs on what it knows by `above`. Fails only when out of memory.
    fn meet(
        &mut self,
        above: Self::Node,
        packet: Member<'a>,
        place: PacketPlace,
    ) -> Result<Self::Node, OutOfMemory>
        ensures met { (met : List Standing) (e : Entry) → has self.old met
            → knows self.old e above → OnOk result (has self.new (met
            ++ hangs_on e place (member_packet packet.entry) ∷ [])) }
        ensures node { (met : List Standing) (e : Entry) → has self.old met
            → knows self.old e above → IfOk result (λ node. knows self.new
            (packet_name (member_packet packet.entry) ∷ e) node) }
        ensures keeps { (met : List Standing) (e : Entry) → has self.old met
            → knows self.old e above → OnOk result ((f : Entry) (n : Self.Node)
            → knows self.old f n → knows self.new f n) };
}

/// Meets the signatures on a primary key or a component, which the visitor knows by `node`.
fn visit_hangs<'a, V: Visitor<'a>>(
    visitor: &mut V,
    node: V::Node,
    certificate: usize,
    component: Option<usize>,
    mut hangs: Hangs<'a>,
) -> Result<(), OutOfMemory>
    requires few { length (hangs_left hangs) < 2 ^ 64 }
    ensures met { (met : List Standing) (e : Entry) → V.has visitor.old met
        → V.knows visitor.old e node → OnOk result (V.has visitor.new (met
        ++ numbered (hang_standing e certificate component) 0
        (hangs_left hangs.entry))) }
    ensures keeps { (met : List Standing) (e : Entry) → V.has visitor.old met
        → V.knows visitor.old e node → OnOk result ((f : Entry) (n : V.Node)
        → V.knows visitor.old f n → V.knows visitor.new f n) }
{
    let mut number = 0usize;
    'hangs: while let Some(hang) = hangs.next() {
        if hang.kind() == PacketType::Signature.number() {
            let place = PacketPlace {
                certificate,
                component,
                hang: Some(number),
            };
            visitor.meet(node, hang, place)?;
        }
        number += 1;
    }
    Ok(())
}

/// Meets a component of the primary key that the visitor knows by `node`, and the signatures on it.
fn visit_component<'a, V: Visitor<'a>>(
    visitor: &mut V,
    node: V::Node,
    certificate: usize,
    number: usize,
    component: Component<'a>,
) -> Result<(), OutOfMemory>
    requires few { length (component_packets (component_of component)) < 2 ^ 64 }
    ensures met { (met : List Standing) (e : Entry) → V.has visitor.old met
        → V.knows visitor.old e node → OnOk result (V.has visitor.new (met
        ++ component_standing e certificate number (component_of component.entry))) }
    ensures keeps { (met : List Standing) (e : Entry) → V.has visitor.old met
        → V.knows visitor.old e node → OnOk result ((f : Entry) (n : V.Node)
        → V.knows visitor.old f n → V.knows visitor.new f n) }
{
    let place = PacketPlace {
        certificate,
        component: Some(number),
        hang: None,
    };
    let head = visitor.meet(node, component.head(), place)?;
    visit_hangs(visitor, head, certificate, Some(number), component.hangs())?;
    Ok(())
}

/// Meets the components of the primary key that the visitor knows by `node`.
fn visit_components<'a, V: Visitor<'a>>(
    visitor: &mut V,
    node: V::Node,
    certificate: usize,
    mut components: Components<'a>,
) -> Result<(), OutOfMemory>
    requires few { length (flat_map component_packets (components_left components)) < 2 ^ 64 }
    ensures met { (met : List Standing) (e : Entry) → V.has visitor.old met
        → V.knows visitor.old e node → OnOk result (V.has visitor.new (met
        ++ numbered (component_standing e certificate) 0
        (components_left components.entry))) }
    ensures keeps { (met : List Standing) (e : Entry) → V.has visitor.old met
        → V.knows visitor.old e node → OnOk result ((f : Entry) (n : V.Node)
        → V.knows visitor.old f n → V.knows visitor.new f n) }
{
    let mut number = 0usize;
    'components: while let Some(component) = components.next() {
        visit_component(visitor, node, certificate, number, component)?;
        number += 1;
    }
    Ok(())
}

/// Meets the packets of a certificate that has this number. `root` is what the visitor knows the
/// keyring by.
fn visit_certificate<'a, V: Visitor<'a>>(
    visitor: &mut V,
    root: V::Node,
    number: usize,
    certificate: &'a Certificate,
) -> Result<(), OutOfMemory>
    ensures met { (met : List Standing) → V.has visitor.old met
        → V.knows visitor.old [] root → OnOk result (V.has visitor.new (met
        ++ certificate_standing number certificate.now)) }
    ensures keeps { (met : List Standing) → V.has visitor.old met
        → V.knows visitor.old [] root → OnOk result ((f : Entry) (n : V.Node)
        → V.knows visitor.old f n → V.knows visitor.new f n) }
{
    let place = PacketPlace {
        certificate: number,
        component: None,
        hang: None,
    };
    let primary = visitor.meet(root, certificate.primary(), place)?;
    visit_hangs(visitor, primary, number, None, certificate.hangs())?;
    visit_components(visitor, primary, number, certificate.components())?;
    Ok(())
}

/// Meets the packets of a keyring's certificates, in order: each primary key with the signatures on
/// it, and each component with those on that. `root` is what the visitor knows the keyring by.
///
/// Fails only when out of memory.
pub(crate) fn visit<'a, V: Visitor<'a>>(
    visitor: &mut V,
    root: V::Node,
    keyring: &'a Keyring,
) -> Result<(), OutOfMemory>
    ensures met { V.has visitor.old [] → V.knows visitor.old [] root
        → OnOk result (V.has visitor.new (standing_in keyring.now)) }
    ensures keeps { V.has visitor.old [] → V.knows visitor.old [] root
        → OnOk result ((f : Entry) (n : V.Node)
        → V.knows visitor.old f n → V.knows visitor.new f n) }
{
    let mut number = 0usize;
    let mut rest = keyring.certificates();
    'certificates: while let [certificate, more @ ..] = rest {
        visit_certificate(visitor, root, number, certificate)?;
        number += 1;
        rest = more;
    }
    Ok(())
}
