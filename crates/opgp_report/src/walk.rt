//! The walk over the signatures of a keyring, in order.

ghost use Rattle.std.specs.Prelude.{◌≡◌, ◌∷◌, ◌++◌, [], ◌+◌, ◌<◌, ◌≤◌, ◌^◌, length, List, ℕ};
ghost use Rattle.std.specs.Prelude.{Ok, Result, IfOk, Some, true};
ghost use Rattle.std.specs.List.{flat_map};
ghost use Rattle.opgp_packet.specs.Parsed.{body_octets};
ghost use Rattle.opgp_packet.specs.SignatureBody.{signature_at};
ghost use Rattle.opgp_packet.specs.SigView.{sig_view_value};
ghost use Rattle.opgp_packet.specs.Subs.{subs_to_come};
ghost use Rattle.opgp_hash.specs.CertificateHasher.{hasher_subject};
ghost use Rattle.opgp_hash.specs.Subject.{subject_value};
ghost use Rattle.opgp_hash.specs.SubjectValue.{first_key, is_within};
ghost use Rattle.opgp_keyring.specs.Grouped.{component_of, components_left, hangs_left};
ghost use Rattle.opgp_keyring.specs.Keyring.{component_packets};
ghost use Rattle.opgp_report.specs.Asked.{IsMet};
ghost use Rattle.opgp_report.specs.Standing.{Standing, bodies_within, by_number};
ghost use Rattle.opgp_report.specs.Standing.{certificate_standing, component_standing};
ghost use Rattle.opgp_report.specs.Standing.{hangs_standing, held_bodies};
ghost use Rattle.opgp_report.specs.Standing.{nested_standing, on_head, standing_in, stands};
ghost use Rattle.opgp_report.specs.Visitor.{Shown};

use crate::met::{Met, read};
use crate::place::Place;
use opgp_hash::{CertificateHasher, Site, Subject};
use opgp_keyring::{Certificate, Component, Components, Content, Hangs, Head, Keyring};
use opgp_octets::{SignatureType, SubpacketKind};
use opgp_packet::{KeyView, SigView, Subs};

/// A visitor of the signatures of a keyring, one after the other.
pub trait Visitor<'a> {
    /// Why the walk stops early.
    type Stop;

    // What a list of signatures makes of it: its state after them, or what stops it.
    ghost becomes: { Self → List Standing → Result Self Self.Stop → Type 0 };

    /// Visits a signature over the hasher's subject, or octets that aren't one.
    fn meet(&mut self, hasher: &mut CertificateHasher<'a>, met: &Met<'a>) -> Result<(), Self::Stop>
        ensures subject { hasher_subject hasher.new ≡ hasher_subject hasher.old }
        ensures shown { (body : List ℕ) → IsMet met.now.signature (signature_at body)
            → Shown becomes self.old
            (stands met.now.site met.now.place (hasher_subject hasher.old) body ∷ []) result
            self.new };
}

/// Visits the signatures embedded in an area, numbered from here, and returns the number after the
/// last.
fn visit_area<'a, V: Visitor<'a>>(
    visitor: &mut V,
    hasher: &mut CertificateHasher<'a>,
    place: Place,
    first: usize,
    mut subpackets: Subs<'a>,
) -> Result<usize, V::Stop>
    requires few { first + length (subs_to_come subpackets) < 2 ^ 64 }
    ensures subject { hasher_subject hasher.new ≡ hasher_subject hasher.old }
    ensures shown { Shown V.becomes visitor.old (by_number
        (nested_standing place (hasher_subject hasher.old)) first
        (held_bodies (subs_to_come subpackets.entry))) result visitor.new }
    ensures number { IfOk result (λ n. n
        ≡ first + length (held_bodies (subs_to_come subpackets.entry))) }
    ensures most { IfOk result (λ n. n ≤ first + length (subs_to_come subpackets.entry)) }
{
    let mut number = first;
    'subpackets: while let Some(subpacket) = subpackets.next() {
        if subpacket.kind() == SubpacketKind::EmbeddedSignature.number() {
            let place = Place {
                nested: Some(number),
                ..place
            };
            let met = Met {
                site: Site::Embedded,
                place,
                signature: read(subpacket.octets()),
            };
            visitor.meet(hasher, &met)?;
            number += 1;
        }
    }
    Ok(number)
}

/// Visits the signatures embedded in both areas.
fn visit_areas<'a, V: Visitor<'a>>(
    visitor: &mut V,
    hasher: &mut CertificateHasher<'a>,
    place: Place,
    hashed: Subs<'a>,
    unhashed: Subs<'a>,
) -> Result<(), V::Stop>
    requires hashed { length (subs_to_come hashed) ≤ 4294967295 }
    requires unhashed { length (subs_to_come unhashed) ≤ 4294967295 }
    ensures subject { hasher_subject hasher.new ≡ hasher_subject hasher.old }
    ensures shown { Shown V.becomes visitor.old (by_number
        (nested_standing place (hasher_subject hasher.old)) 0
        (held_bodies (subs_to_come hashed.entry)
        ++ held_bodies (subs_to_come unhashed.entry))) result visitor.new }
{
    let number = visit_area(visitor, hasher, place, 0, hashed)?;
    visit_area(visitor, hasher, place, number, unhashed)?;
    Ok(())
}

/// Visits the signatures embedded in a signature over the hasher's subject.
fn visit_embedded<'a, V: Visitor<'a>>(
    visitor: &mut V,
    hasher: &mut CertificateHasher<'a>,
    place: Place,
    signature: SigView<'a>,
) -> Result<(), V::Stop>
    ensures subject { hasher_subject hasher.new ≡ hasher_subject hasher.old }
    ensures shown { Shown V.becomes visitor.old (by_number
        (nested_standing place (hasher_subject hasher.old)) 0
        (bodies_within (hasher_subject hasher.old) (Ok (sig_view_value signature.entry)))) result
        visitor.new }
{
    let Subject::Two(_, _) = hasher.subject() else {
        return Ok(());
    };
    let binding = SignatureType::SubkeyBinding.number();
    match signature {
        SigView::Four(view) if view.kind() == binding => {
            visit_areas(visitor, hasher, place, view.hashed(), view.unhashed())
        }
        SigView::Six(view) if view.kind() == binding => {
            visit_areas(visitor, hasher, place, view.hashed(), view.unhashed())
        }
        _ => Ok(()),
    }
}

/// Visits the signatures on a primary key or a component, each followed by those embedded in it.
fn visit_hangs<'a, V: Visitor<'a>>(
    visitor: &mut V,
    hasher: &mut CertificateHasher<'a>,
    certificate: usize,
    component: Option<usize>,
    mut hangs: Hangs<'a>,
) -> Result<(), V::Stop>
    requires few { length (hangs_left hangs) < 2 ^ 64 }
    ensures subject { hasher_subject hasher.new ≡ hasher_subject hasher.old }
    ensures shown { Shown V.becomes visitor.old (hangs_standing certificate component
        (hasher_subject hasher.old) (hangs_left hangs.entry)) result visitor.new }
{
    opgp_packet::signature_laws::signatures_are_read();
    let mut number = 0usize;
    'hangs: while let Some(hang) = hangs.next() {
        let mut met = Met {
            site: Site::Hung,
            place: Place {
                certificate,
                component,
                hang: number,
                nested: None,
            },
            signature: None,
        };
        match hang.content() {
            Content::Signature(signature) => {
                // Called for its contract: the body is that of this signature.
                let _body = signature.body();
                met.signature = Some(signature);
                visitor.meet(hasher, &met)?;
                visit_embedded(visitor, hasher, met.place, signature)?;
            }
            Content::Malformed(_) => visitor.meet(hasher, &met)?,
            _ => {}
        }
        number += 1;
    }
    Ok(())
}

/// What signatures on a component are made over.
fn subject_on<'a>(primary: KeyView<'a>, component: Component<'a>) -> Subject<'a>
    ensures value { subject_value result
        ≡ on_head (body_octets primary.entry) (component_of component.entry).head }
    ensures first { first_key (subject_value result) ≡ Some (body_octets primary.entry) }
    ensures within { is_within (subject_value result) ≡ true }
{
    match component.head().head() {
        Head::UserId(id) => Subject::OnUserId(primary, id),
        Head::Attribute(attribute) => Subject::OnAttribute(primary, attribute),
        Head::Subkey(key) => Subject::Two(primary, key),
    }
}

/// Visits the signatures on the components of the hasher's certificate.
fn visit_components<'a, V: Visitor<'a>>(
    visitor: &mut V,
    hasher: &mut CertificateHasher<'a>,
    primary: KeyView<'a>,
    certificate: usize,
    mut components: Components<'a>,
) -> Result<(), V::Stop>
    requires first { first_key (hasher_subject hasher.old) ≡ Some (body_octets primary) }
    requires few { length (flat_map component_packets (components_left components)) < 2 ^ 64 }
    ensures { Shown V.becomes visitor.old (by_number
        (component_standing (body_octets primary.entry) certificate) 0
        (components_left components.entry)) result visitor.new }
{
    let mut number = 0usize;
    'components: while let Some(component) = components.next() {
        hasher.turn_to(subject_on(primary, component));
        visit_hangs(
            visitor,
            hasher,
            certificate,
            Some(number),
            component.hangs(),
        )?;
        number += 1;
    }
    Ok(())
}

/// Visits the signatures of one certificate, which gets this number in their places. Allocates
/// nothing itself, and hashes nothing that the visitor doesn't ask for.
///
/// The error is what stops the visitor.
pub fn visit_certificate<'a, V: Visitor<'a>>(
    visitor: &mut V,
    number: usize,
    certificate: &'a Certificate,
) -> Result<(), V::Stop>
    ensures { Shown V.becomes visitor.old (certificate_standing number certificate.now) result
        visitor.new }
{
    let primary = certificate.key();
    let mut hasher = CertificateHasher::new(primary);
    match visit_hangs(visitor, &mut hasher, number, None, certificate.hangs()) {
        Ok(()) => visit_components(
            visitor,
            &mut hasher,
            primary,
            number,
            certificate.components(),
        ),
        Err(stop) => Err(stop),
    }
}

/// Visits the signatures of a keyring, in the order of its report: each signature packet of a
/// certificate, and after a subkey binding each signature that is embedded in it (RFC 9580, 5.2.4,
/// 5.2.3.34). Allocates nothing itself, and hashes nothing that the visitor doesn't ask for.
///
/// The error is what stops the visitor.
pub fn visit<'a, V: Visitor<'a>>(visitor: &mut V, keyring: &'a Keyring) -> Result<(), V::Stop>
    ensures { Shown V.becomes visitor.old (standing_in keyring.now) result visitor.new }
{
    let mut number = 0usize;
    let mut rest = keyring.certificates();
    'certificates: while let [certificate, more @ ..] = rest {
        visit_certificate(visitor, number, certificate)?;
        number += 1;
        rest = more;
    }
    Ok(())
}
