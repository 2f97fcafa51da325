//! Whether a key of a keyring is believed, by verdicts on the rows of the keyring's report.

ghost use Rattle.std.specs.Prelude.{◌≡◌, List, drop, length, IfOk, MatchOption, None, Some};
ghost use Rattle.std.specs.Prelude.{slice_get};
ghost use Rattle.opgp_keyring.specs.Grouped.{component_of, components_left};
ghost use Rattle.opgp_keyring.specs.Keyring.{KeyringValue};
ghost use Rattle.opgp_report.specs.declared.verifier.Verdict.{Verdict};
ghost use Rattle.opgp_report.specs.Standing.{certificate_standing};
ghost use Rattle.std.specs.Option.{option_map};
ghost use Rattle.opgp_valid.specs.Judgement.{judged, judgement_of, key_at, subkey_at, verdicts_from};
ghost use Rattle.opgp_valid.specs.KnownKeys.{known_in, knowns};

use crate::cause::{Cause, cause_of};
use crate::certified::{Certified, created_of};
use crate::facts::Key;
use crate::known_keys::KnownKeys;
use crate::policy::Policy;
use opgp_keyring::{Certificate, Component, Components, Head, Keyring};
use opgp_octets::OutOfMemory;
use opgp_report::{Verdict, rows_left};
use std::alloc::Global;

/// Whether a key of a keyring is believed.
#[derive(Clone, Copy, Debug, PartialEq, Eq)]
pub enum Judgement {
    /// It is.
    Stands,
    /// It isn't, and this is what makes it so: the first reason, and more.
    Fails(Cause),
    /// There is no such key.
    NoKey,
}

/// Where a key is in a keyring.
#[derive(Clone, Copy, Debug, PartialEq, Eq)]
pub struct KeyPlace {
    /// The number of its certificate, from 0.
    pub certificate: usize,
    /// The number of the component that it is, from 0; None for the primary key.
    pub component: Option<usize>,
}

/// The verdicts behind those on the rows of a certificate in a report. The work is linear in the
/// certificate's octets.
pub fn verdicts_behind<'v>(certificate: &Certificate, verdicts: &'v [Verdict]) -> &'v [Verdict]
    ensures { result.now ≡ drop (length (certificate_standing 0 certificate.now)) verdicts.now }
{
    match rows_left(certificate, verdicts.len()) {
        Some(left) => &verdicts[verdicts.len() - left..],
        None => &verdicts[verdicts.len()..],
    }
}

/// A subkey as a key of its certificate; None for a user ID or attribute.
fn subkey_of(number: usize, component: Component<'_>) -> Option<Key>
    ensures { result ≡ subkey_at number (Some (component_of component.entry)) }
{
    match component.head().head() {
        Head::Subkey(key) => Some(Key::Subkey {
            number,
            created: created_of(key),
        }),
        Head::UserId(_) | Head::Attribute(_) => None,
    }
}

/// The component of this number.
pub(crate) fn component_at<'a>(
    mut components: Components<'a>,
    number: usize,
) -> Option<Component<'a>>
    ensures { option_map (λ c. component_of c) result
        ≡ slice_get (components_left components.entry) number }
{
    let mut left = number;
    'components: while let Some(component) = components.next() {
        if left == 0 {
            return Some(component);
        }
        left -= 1;
    }
    None
}

/// The key that is this component of a certificate, or its primary key.
fn key_at(certificate: &Certificate, component: Option<usize>) -> Option<Key>
    ensures { result ≡ key_at certificate.now component }
{
    match component {
        None => Some(Key::Primary),
        Some(number) => match component_at(certificate.components(), number) {
            Some(component) => subkey_of(number, component),
            None => None,
        },
    }
}

/// The certificate of this number, and the verdicts on its rows and on those behind it.
pub(crate) fn certificate_at<'a>(
    certificates: &'a [Certificate],
    number: usize,
    verdicts: &'a [Verdict],
) -> Option<(&'a Certificate, &'a [Verdict])>
    ensures { MatchOption result (slice_get certificates.now number ≡ None) (λ x.
        (slice_get certificates.now number ≡ Some x.0.now)
        × (x.1.now ≡ verdicts_from certificates.now number verdicts.now)) }
{
    let mut rest = certificates;
    let mut left = number;
    let mut found = verdicts;
    'certificates: while let [certificate, more @ ..] = rest {
        if left == 0 {
            return Some((certificate, found));
        }
        found = verdicts_behind(certificate, found);
        left -= 1;
        rest = more;
    }
    None
}

/// Whether a key is believed that has this cause not to be, or none.
fn judged(cause: Option<Cause>) -> Judgement
    ensures { result ≡ judged cause }
{
    match cause {
        Some(cause) => Judgement::Fails(cause),
        None => Judgement::Stands,
    }
}

/// Whether the key at a place of a keyring is believed for a signature that was made then and is
/// read now, in seconds since 1970, by this policy and by these verdicts: one for each row of the
/// keyring's report, in order. A row without one is undecided. [`standing`] has the rule, [`cause_of`]
/// what is told of a key that isn't, and [`Certified::of`] says what the verdicts are about.
///
/// Each key of the keyring is hashed once; the rest of the work is linear in the keyring's
/// certificates up to this one, and in this one's octets. Fails only when out of memory.
///
/// [`standing`]: crate::standing
pub fn judge(
    alloc: Global,
    keyring: &Keyring,
    verdicts: &[Verdict],
    policy: Policy,
    at: KeyPlace,
    made: u64,
    now: u64,
) -> Result<Judgement, OutOfMemory>
    ensures { IfOk result (λ j.
        j ≡ judgement_of keyring.now policy verdicts.now at made now) }
{
    let known = KnownKeys::of(alloc, keyring)?;
    judge_among(alloc, &known, keyring, verdicts, policy, at, made, now)
}

/// The same, where these are the keyring's keys.
fn judge_among(
    alloc: Global,
    known: &KnownKeys,
    keyring: &Keyring,
    verdicts: &[Verdict],
    policy: Policy,
    at: KeyPlace,
    made: u64,
    now: u64,
) -> Result<Judgement, OutOfMemory>
    requires { knowns known.now ≡ known_in keyring.now }
    ensures { IfOk result (λ j.
        j ≡ judgement_of keyring.now policy verdicts.now at made now) }
{
    let certificates = keyring.certificates();
    let Some((certificate, found)) = certificate_at(certificates, at.certificate, verdicts) else {
        return Ok(Judgement::NoKey);
    };
    judge_in(alloc, known, certificate, found, policy, at, made, now)
}

/// The same of the key at a place that is in this certificate, by the verdicts from its first row
/// on.
pub(crate) fn judge_in(
    alloc: Global,
    known: &KnownKeys,
    certificate: &Certificate,
    verdicts: &[Verdict],
    policy: Policy,
    at: KeyPlace,
    made: u64,
    now: u64,
) -> Result<Judgement, OutOfMemory>
    ensures { IfOk result (λ j. (r : KeyringValue) (founds : List Verdict)
        → knowns known.now ≡ known_in r
        → slice_get r.certificates at.certificate ≡ Some certificate.now
        → verdicts.now ≡ verdicts_from r.certificates at.certificate founds
        → j ≡ judgement_of r policy founds at made now) }
{
    let Some(key) = key_at(certificate, at.component) else {
        return Ok(Judgement::NoKey);
    };
    let certified = Certified::of(alloc, known, policy, certificate, verdicts)?;
    Ok(judged(cause_of(certified.facts(), key, made, now)))
}
