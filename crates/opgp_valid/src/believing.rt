//! Whether a signature over a document is believed.

ghost use Rattle.std.specs.Prelude.{◌≡◌, ◌≤◌, ◌⊎◌, ◌||◌, [], List, IfOk, IfSome, None, Some, map};
ghost use Rattle.std.specs.Prelude.{slice_get};
ghost use Rattle.opgp_keyring.specs.Keyring.{CertificateValue, KeyringValue};
ghost use Rattle.opgp_report.specs.declared.verifier.Verdict.{Verdict};
ghost use Rattle.opgp_valid.specs.Judgement.{verdicts_from};
ghost use Rattle.opgp_valid.specs.Reached.{IsReached};
ghost use Rattle.opgp_packet.specs.SigView.{sig_view_value};
ghost use Rattle.opgp_valid.specs.Believed.{belief_of, believed_as, flaw_of, has_lapsed, made_by};
ghost use Rattle.opgp_valid.specs.Believed.{print_in, signs_document, subkey_print};
ghost use Rattle.opgp_valid.specs.KnownKeys.{known_in, knowns};
ghost use Rattle.opgp_valid.specs.FlawText.{flaw_text};
ghost use Rattle.opgp_valid.specs.Told.{life_in};

use crate::cause::Cause;
use crate::context::{is_print, is_understood, life_in, parts_of, relies_with};
use crate::judgement::{Judgement, KeyPlace, component_at, judge_in};
use crate::known_keys::KnownKeys;
use crate::policy::Policy;
use crate::reached::{Reached, first, go_on};
use crate::statement::Life;
use crate::subpackets::has_unfit;
use opgp_hash::Fingerprint;
use opgp_keyring::{Certificate, Head, Keyring};
use opgp_octets::{OutOfMemory, SignatureType};
use opgp_packet::SigView;
use opgp_report::{Verdict, print_of};
use std::alloc::Global;

/// What is wrong with a signature over a document itself, whatever its key.
#[derive(Clone, Copy, Debug, PartialEq, Eq)]
pub enum Flaw {
    /// It isn't one over a document (RFC 9580, 5.2.1.1, 5.2.1.2), or of another version than 4 and
    /// 6.
    Kind,
    /// It names another key first than the one that is asked for (5.2.3.12, 5.2.3.35).
    Issuer,
    /// Something critical in it is unknown, or a hashed subpacket hasn't the form of its kind
    /// (5.2.3.7).
    Critical,
    /// The policy doesn't rely on its hash algorithm, or on its key.
    Weak,
    /// It states no creation time in its hashed area, or several (5.2.3.11).
    Time,
    /// It has expired (5.2.3.18).
    Lapsed,
}

impl Flaw {
    /// The name in lower case, as it is printed.
    pub fn name(self) -> &'static str
        ensures { result.now ≡ flaw_text self }
    {
        match self {
            Flaw::Kind => "type",
            Flaw::Issuer => "issuer",
            Flaw::Critical => "critical",
            Flaw::Weak => "weak",
            Flaw::Time => "time",
            Flaw::Lapsed => "lapsed",
        }
    }
}

/// Whether a signature over a document is believed.
#[derive(Clone, Copy, Debug, PartialEq, Eq)]
pub enum Belief {
    /// It is.
    Believed,
    /// Not believed; the first flaw.
    Flawed(Flaw),
    /// Not believed, since its key isn't; what makes it so.
    Unbelieved(Cause),
    /// There is no such key.
    NoKey,
}

/// Whether signatures of this type are over documents.
fn signs_document(kind: SignatureType) -> bool
    ensures { result ≡ signs_document kind }
{
    matches!(kind, SignatureType::Binary | SignatureType::Text)
}

/// Whether a signature of this life has expired by now.
fn has_lapsed(life: Option<Life>, now: u64) -> bool
    ensures { result ≡ has_lapsed now life }
{
    match life {
        Some(life) => life.lasts != 0 && u64::from(life.made) + u64::from(life.lasts) <= now,
        None => false,
    }
}

/// The first that is wrong with a signature by the key of this fingerprint.
fn flaw_of(
    known: &KnownKeys,
    policy: Policy,
    print: Fingerprint,
    signature: SigView<'_>,
    now: u64,
) -> Option<Flaw>
    ensures { result
        ≡ flaw_of (knowns known.now) policy print now (sig_view_value signature.entry) }
{
    let Some(read) = parts_of(signature) else {
        return Some(Flaw::Kind);
    };
    let issuer = known.issuer(signature);
    let life = life_in(read.hashed);
    if !signs_document(read.kind) {
        Some(Flaw::Kind)
    } else if !is_print(print, issuer) {
        Some(Flaw::Issuer)
    } else if !is_understood(&read) || has_unfit(read.hashed) {
        Some(Flaw::Critical)
    } else if !relies_with(policy, read.hash, issuer) {
        Some(Flaw::Weak)
    } else if life.is_none() {
        Some(Flaw::Time)
    } else if has_lapsed(life, now) {
        Some(Flaw::Lapsed)
    } else {
        None
    }
}

/// When a signature was made, in seconds since 1970; 0 if it doesn't state one time.
fn made_by(signature: SigView<'_>) -> u64
    ensures { result ≡ made_by (life_in (sig_view_value signature.entry)) }
{
    let Some(read) = parts_of(signature) else {
        return 0;
    };
    match life_in(read.hashed) {
        Some(life) => u64::from(life.made),
        None => 0,
    }
}

/// The fingerprint of a component of a certificate that is a subkey, or of its primary key.
fn print_in(certificate: &Certificate, component: Option<usize>) -> Option<Fingerprint>
    ensures { result ≡ print_in certificate.now component }
{
    let Some(number) = component else {
        return Some(print_of(&certificate.key()));
    };
    let component = component_at(certificate.components(), number)?;
    match component.head().head() {
        Head::Subkey(key) => Some(print_of(&key)),
        Head::UserId(_) | Head::Attribute(_) => None,
    }
}

/// A signature is believed as its key is.
fn believed_as(judgement: Judgement) -> Belief
    ensures { result ≡ believed_as judgement }
{
    match judgement {
        Judgement::Stands => Belief::Believed,
        Judgement::Fails(cause) => Belief::Unbelieved(cause),
        Judgement::NoKey => Belief::NoKey,
    }
}

/// Whether a signature is believed as one by the key at a place that is in this certificate, by the
/// verdicts from its first row on. Fails only when out of memory.
fn believe_in(
    alloc: Global,
    known: &KnownKeys,
    certificate: &Certificate,
    verdicts: &[Verdict],
    policy: Policy,
    at: KeyPlace,
    signature: SigView<'_>,
    now: u64,
) -> Result<Belief, OutOfMemory>
    ensures { IfOk result (λ b. (r : KeyringValue) (founds : List Verdict)
        → knowns known.now ≡ known_in r
        → slice_get r.certificates at.certificate ≡ Some certificate.now
        → verdicts.now ≡ verdicts_from r.certificates at.certificate founds
        → b ≡ belief_of r policy founds at now (sig_view_value signature.entry)) }
{
    let Some(print) = print_in(certificate, at.component) else {
        return Ok(Belief::NoKey);
    };
    if let Some(flaw) = flaw_of(known, policy, print, signature, now) {
        return Ok(Belief::Flawed(flaw));
    }
    let made = made_by(signature);
    let judgement = judge_in(alloc, known, certificate, verdicts, policy, at, made, now)?;
    Ok(believed_as(judgement))
}

/// The same of a place whose certificate was reached, if the keyring has it.
fn believe_there(
    alloc: Global,
    known: &KnownKeys,
    reached: Reached<'_>,
    policy: Policy,
    at: KeyPlace,
    signature: SigView<'_>,
    now: u64,
) -> Result<Belief, OutOfMemory>
    requires there { (reached.number ≡ at.certificate) ⊎ (reached.certificates.now ≡ []) }
    requires before { reached.number ≤ at.certificate }
    ensures { IfOk result (λ b. (r : KeyringValue) (founds : List Verdict)
        → knowns known.now ≡ known_in r → IsReached r.certificates founds reached.entry
        → b ≡ belief_of r policy founds at now (sig_view_value signature.entry)) }
{
    let Some((certificate, _behind)) = reached.certificates.split_first() else {
        return Ok(Belief::NoKey);
    };
    believe_in(
        alloc,
        known,
        certificate,
        reached.verdicts,
        policy,
        at,
        signature,
        now,
    )
}

/// Whether a signature over a document, which a verifier found good by arithmetic, is believed as
/// one by the key at a place of a keyring, and is read now, in seconds since 1970. The policy and
/// the verdicts are as [`judge`] takes them.
///
/// Nothing is said of whether it is good: that is the verifier's. Fails only when out of memory.
///
/// [`judge`]: crate::judge
pub fn believe(
    alloc: Global,
    keyring: &Keyring,
    verdicts: &[Verdict],
    policy: Policy,
    at: KeyPlace,
    signature: SigView<'_>,
    now: u64,
) -> Result<Belief, OutOfMemory>
    ensures { IfOk result (λ b. b
        ≡ belief_of keyring.now policy verdicts.now at now (sig_view_value signature.entry)) }
{
    let known = KnownKeys::of(alloc, keyring)?;
    let reached = go_on(first(keyring.certificates(), verdicts), at.certificate);
    believe_there(alloc, &known, reached, policy, at, signature, now)
}

/// The same of each of several places, in order: [`believe`] says what of one.
///
/// Each key of the keyring is hashed once. Where the places come in the order of their
/// certificates, the rest of the work is linear in the keyring's certificates up to the last one,
/// and for each place in the octets of its own. Fails only when out of memory.
pub fn believe_at(
    alloc: Global,
    keyring: &Keyring,
    verdicts: &[Verdict],
    policy: Policy,
    places: &[KeyPlace],
    signature: SigView<'_>,
    now: u64,
) -> Result<Vec<Belief>, OutOfMemory>
    ensures { IfOk result (λ bs. bs.items ≡ map (λ at.
        belief_of keyring.now policy verdicts.now at now (sig_view_value signature.entry))
        places.now) }
{
    let known = KnownKeys::of(alloc, keyring)?;
    let begin = first(keyring.certificates(), verdicts);
    let mut reached = begin;
    let mut beliefs = Vec::new(alloc);
    let mut rest = places;
    'places: while let Some((at, more)) = rest.split_first() {
        reached = go_on(nearest(begin, reached, at.certificate), at.certificate);
        let belief = believe_there(alloc, &known, reached, policy, *at, signature, now)?;
        beliefs.push(belief)?;
        rest = more;
    }
    Ok(beliefs)
}

/// From where a certificate can be reached: from here, or else from the first one.
fn nearest<'a>(begin: Reached<'a>, reached: Reached<'a>, number: usize) -> Reached<'a>
    requires { begin.number ≡ 0 }
    ensures reached { (all : List CertificateValue) (founds : List Verdict)
        → IsReached all founds begin.entry → IsReached all founds reached.entry
        → IsReached all founds result }
    ensures before { result.number ≤ number }
{
    if reached.number <= number {
        reached
    } else {
        begin
    }
}
