//! Certificates of whose self-signatures those stay that are heard at a time.

ghost use Rattle.std.specs.Prelude.{◌≡◌, ◌++◌, ◌<◌, ◌^◌, [], All, IfOk, OnOk, drop, length};
ghost use Rattle.std.specs.Prelude.{if◌then◌else◌, take, true};
ghost use Rattle.std.specs.List.{flat_map};
ghost use Rattle.opgp_packet.specs.Parsed.{body_octets};
ghost use Rattle.opgp_hash.specs.Subject.{subject_value};
ghost use Rattle.opgp_hash.specs.SubjectValue.{is_within};
ghost use Rattle.opgp_keyring.specs.Grouped.{component_of, components_left, hangs_left};
ghost use Rattle.opgp_keyring.specs.Keyring.{IsCertificate, IsComponent, IsHung, certificate_packets};
ghost use Rattle.opgp_keyring.specs.Keyring.{component_packets};
ghost use Rattle.opgp_report.specs.First.{print_of};
ghost use Rattle.opgp_valid.specs.KnownKeys.{knowns};
ghost use Rattle.opgp_bound.specs.Judged.{certificate_rows, component_rows, components_rows};
ghost use Rattle.opgp_bound.specs.Judged.{rows_on};
ghost use Rattle.opgp_bound.specs.Newest.{certificate_verdicts, newest_certificate};
ghost use Rattle.opgp_bound.specs.Newest.{newest_component, newest_component_rows};
ghost use Rattle.opgp_bound.specs.Newest.{newest_components};
ghost use Rattle.opgp_bound.specs.Newest.{newest_components_rows, newest_hangs, newest_keyring};
ghost use Rattle.opgp_bound.specs.Newest.{newest_rows, newest_verdicts};
ghost use Rattle.opgp_bound.specs.Replacing.{time_of};

use crate::ahead::Ahead;
use crate::judging::{behind, first_verdict, subject_on};
use crate::keeping::add_if;
use crate::replaced::{Times, newest_stays};
use crate::role::Context;
use opgp_hash::Subject;
use opgp_keyring::{Certificate, Component, Components, Hangs, Keyring};
use opgp_octets::OutOfMemory;
use opgp_packet::KeyView;
use opgp_report::{KeyIndex, Verdict, print_of};
use opgp_valid::{Certified, KnownKeys, Policy, Statement};
use std::alloc::Global;

/// The first of these verdicts, of which there are this many.
fn first_rows(verdicts: &[Verdict], rows: usize) -> &[Verdict]
    ensures { result.now ≡ take rows verdicts.now }
{
    &verdicts[..rows.min(verdicts.len())]
}

/// Adds the verdicts on the rows of a packet, if it stays. Fails only when out of memory.
fn add_rows_if(founds: &mut Vec<Verdict>, rows: &[Verdict], stays: bool) -> Result<(), OutOfMemory>
    ensures { OnOk result
        (founds.new.items ≡ founds.old.items ++ (if stays then rows.now else [])) }
{
    if stays {
        founds.extend_from_slice(rows)?;
    }
    Ok(())
}

impl Context<'_> {
    /// Adds copies of the packets on a subject that stay, and the verdicts on their rows, by the
    /// verdicts from their first row on; and gives the verdicts behind. Fails only when out of
    /// memory.
    fn add_newest_hangs<'v>(
        &self,
        chosen: &mut Certificate,
        founds: &mut Vec<Verdict>,
        times: Times,
        subject: Subject<'_>,
        mut hangs: Hangs<'_>,
        verdicts: &'v [Verdict],
    ) -> Result<&'v [Verdict], OutOfMemory>
        requires within { is_within (subject_value subject) ≡ true }
        requires hung { All IsHung (hangs_left hangs) }
        ensures packets { OnOk result (certificate_packets chosen.new
            ≡ certificate_packets chosen.old ++ newest_hangs (time_of times)
            (knowns self.now.known.now) self.now.primary (subject_value subject.entry)
            (hangs_left hangs.entry) verdicts.now) }
        ensures founds { OnOk result (founds.new.items ≡ founds.old.items
            ++ newest_rows (time_of times) (knowns self.now.known.now) self.now.primary
            (subject_value subject.entry) (hangs_left hangs.entry) verdicts.now) }
        ensures rest { IfOk result (λ x. x.now ≡ drop (rows_on (subject_value subject.entry)
            (hangs_left hangs.entry)) verdicts.now) }
    {
        let mut rest = verdicts;
        'hangs: while let Some(member) = hangs.next() {
            let (judged, rows) = self.judge(subject, first_verdict(rest), member);
            let stays = newest_stays(times, &judged);
            add_if(chosen, member, stays)?;
            add_rows_if(founds, first_rows(rest, rows), stays)?;
            rest = behind(rest, rows);
        }
        Ok(rest)
    }

    /// The same of a component, which stays itself.
    fn add_newest_component<'v>(
        &self,
        chosen: &mut Certificate,
        founds: &mut Vec<Verdict>,
        times: Times,
        primary: KeyView<'_>,
        component: Component<'_>,
        verdicts: &'v [Verdict],
    ) -> Result<&'v [Verdict], OutOfMemory>
        requires { IsComponent (component_of component) }
        ensures packets { OnOk result (certificate_packets chosen.new
            ≡ certificate_packets chosen.old ++ component_packets (newest_component (time_of times)
            (knowns self.now.known.now) self.now.primary (body_octets primary.entry)
            (component_of component.entry) verdicts.now)) }
        ensures founds { OnOk result (founds.new.items ≡ founds.old.items
            ++ newest_component_rows (time_of times) (knowns self.now.known.now) self.now.primary
            (body_octets primary.entry) (component_of component.entry) verdicts.now) }
        ensures rest { IfOk result (λ x. x.now ≡ drop (component_rows
            (body_octets primary.entry) (component_of component.entry)) verdicts.now) }
    {
        let subject = subject_on(primary, component);
        chosen.add(component.head())?;
        self.add_newest_hangs(chosen, founds, times, subject, component.hangs(), verdicts)
    }

    /// The same of the components of a certificate, of which this is said.
    fn add_newest_components<'v>(
        &self,
        chosen: &mut Certificate,
        founds: &mut Vec<Verdict>,
        statements: &[Statement],
        at: u64,
        primary: KeyView<'_>,
        mut components: Components<'_>,
        verdicts: &'v [Verdict],
    ) -> Result<&'v [Verdict], OutOfMemory>
        requires sound { All IsComponent (components_left components) }
        requires few { length (flat_map component_packets (components_left components)) < 2 ^ 64 }
        requires primary { self.now.primary ≡ print_of (body_octets primary) }
        ensures packets { OnOk result (certificate_packets chosen.new
            ≡ certificate_packets chosen.old ++ flat_map component_packets (newest_components at
            (knowns self.now.known.now) statements.now (body_octets primary.entry) 0
            (components_left components.entry) verdicts.now)) }
        ensures founds { OnOk result (founds.new.items ≡ founds.old.items
            ++ newest_components_rows at (knowns self.now.known.now) statements.now
            (body_octets primary.entry) 0 (components_left components.entry) verdicts.now) }
        ensures rest { IfOk result (λ x. x.now ≡ drop (components_rows
            (body_octets primary.entry) (components_left components.entry)) verdicts.now) }
    {
        let mut ahead = Ahead::new(statements);
        let mut number = 0usize;
        let mut rest = verdicts;
        'components: while let Some(component) = components.next() {
            let (times, next) = ahead.next(number, at);
            rest = self.add_newest_component(chosen, founds, times, primary, component, rest)?;
            ahead = next;
            number += 1;
        }
        Ok(rest)
    }
}

/// A certificate of whose self-signatures those stay that are heard at a time, by the verdicts from
/// its first row on; and the verdicts behind. The verdicts on the rows that stay are added. Fails
/// only when out of memory.
fn newest_certificate<'v>(
    alloc: Global,
    known: &KnownKeys,
    issuers: &KeyIndex,
    founds: &mut Vec<Verdict>,
    certificate: &Certificate,
    at: u64,
    verdicts: &'v [Verdict],
) -> Result<(Certificate, &'v [Verdict]), OutOfMemory>
    ensures value { IfOk result (λ x. x.0
        ≡ newest_certificate at (knowns known.now) certificate.now verdicts.now) }
    ensures certificate { IfOk result (λ x. IsCertificate x.0) }
    ensures founds { OnOk result (founds.new.items ≡ founds.old.items
        ++ certificate_verdicts at (knowns known.now) certificate.now verdicts.now) }
    ensures rest { IfOk result (λ x. x.1.now
        ≡ drop (certificate_rows certificate.now) verdicts.now) }
{
    let certified = Certified::of(alloc, known, Policy::Usual, certificate, verdicts)?;
    let statements = certified.facts().statements;
    let key = certificate.key();
    let context = Context {
        known,
        issuers,
        primary: print_of(&key),
    };
    let mut chosen = Certificate::new(alloc, certificate.primary())?;
    let rest = context.add_newest_hangs(
        &mut chosen,
        founds,
        Times::on(statements, None, at),
        Subject::One(key),
        certificate.hangs(),
        verdicts,
    )?;
    let rest = context.add_newest_components(
        &mut chosen,
        founds,
        statements,
        at,
        key,
        certificate.components(),
        rest,
    )?;
    // Called for its contract: what was added makes a certificate.
    let _packets = chosen.packets();
    opgp_keyring::laws::one_certificate();
    Ok((chosen, rest))
}

/// The keyring of whose genuine self-signatures only those stay that may be heard at a time, in
/// seconds since 1970, by these verdicts on the rows of its report (a row without one is
/// undecided); and the verdicts on the rows of what stays, in order. What stays keeps its framing
/// and its order.
///
/// - A genuine self-signature is as [`keep_bound`] has it.
/// - It goes if a newer one of its sort is on the same key, user ID or attribute that counts at
///   that time: it is good by the usual policy, the primary key made it and hasn't revoked it (RFC
///   9580, 5.2.1.13), nothing critical in it is unknown (5.2.3.7), and it was made by then and
///   hasn't expired (5.2.3.11, 5.2.3.18).
/// - The sorts are direct key signatures (5.2.1.10), certifications (5.2.1.4 to 5.2.1.7) and subkey
///   bindings (5.2.1.8).
/// - Of several that are equally new each stays. So does one that doesn't state one creation time,
///   and one that names a key which may revoke (5.2.3.23).
/// - All else stays: keys, user IDs and attributes, revocations, signatures of others,
///   self-signatures that aren't genuine, malformed ones and fillers.
///
/// Each key is hashed once; the rest of the work is linear in the keyring's octets, but that an
/// issuer is found in time that grows with the logarithm of the number of keys. What stays of a
/// certificate is copied, and then the certificate is freed. Fails only when out of memory.
///
/// [`keep_bound`]: crate::keep_bound
pub fn keep_newest(
    alloc: Global,
    ring: Keyring,
    verdicts: &[Verdict],
    at: u64,
) -> Result<(Keyring, Vec<Verdict>), OutOfMemory>
    ensures { IfOk result (λ x. (x.0 ≡ newest_keyring ring verdicts.now at)
        × (x.1.items ≡ newest_verdicts ring verdicts.now at)) }
{
    let known = KnownKeys::of(alloc, &ring)?;
    let issuers = KeyIndex::new(alloc);
    let (lead, certificates, _alloc) = ring.into_parts();
    let mut kept = Vec::new(alloc);
    let mut founds = Vec::new(alloc);
    let mut rest = verdicts;
    for certificate in certificates {
        let (newest, behind) = newest_certificate(
            alloc,
            &known,
            &issuers,
            &mut founds,
            &certificate,
            at,
            rest,
        )?;
        kept.push(newest)?;
        rest = behind;
    }
    Ok((Keyring::new(alloc, lead, kept), founds))
}
