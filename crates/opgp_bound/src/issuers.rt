//! The keys that made the revocations of a keyring.

ghost use Rattle.std.specs.Prelude.{◌≡◌, ◌++◌, IfOk, OnOk};
ghost use Rattle.opgp_octets.specs.SignatureType.{signature_type_of};
ghost use Rattle.opgp_packet.specs.SigView.{sig_view_value};
ghost use Rattle.opgp_keyring.specs.Grouped.{component_of};
ghost use Rattle.opgp_report.specs.KeyIndex.{prints_shown};
ghost use Rattle.opgp_valid.specs.KnownKeys.{known_in, knowns};
ghost use Rattle.opgp_valid.specs.Told.{first_verdict, rest_of};
ghost use Rattle.opgp_bound.specs.Gathering.{GathersIssuers};
ghost use Rattle.opgp_bound.specs.Issuers.{is_issuer, is_revocation, issuer_by, revocation_issuers};
ghost use Rattle.opgp_bound.specs.Issuers.{revokes_typed};
ghost use Rattle.opgp_bound.specs.Role.{kind_in};

use crate::role::kind_in;
use opgp_hash::{CertificateHasher, Fingerprint};
use opgp_keyring::{Component, Head, Keyring};
use opgp_octets::{OutOfMemory, SignatureType};
use opgp_packet::SigView;
use opgp_report::{IssuerName, KeyIndex, Met, Verdict, Visitor, print_of, visit};
use opgp_valid::KnownKeys;
use std::alloc::Global;

/// Adds the fingerprints of the keys that made good revocations.
#[derive(Drop)]
pub(crate) struct Issuers<'v> {
    pub(crate) known: &'v KnownKeys,
    pub(crate) verdicts: &'v [Verdict],
    pub(crate) prints: Vec<Fingerprint>,
}

/// Whether signatures of this type revoke a key, a subkey or a certification (RFC 9580, 5.2.1.11 to
/// 5.2.1.13).
fn is_revocation(kind: SignatureType) -> bool
    ensures { result ≡ is_revocation kind }
{
    matches!(
        kind,
        SignatureType::KeyRevocation
            | SignatureType::SubkeyRevocation
            | SignatureType::CertificationRevocation
    )
}

/// Whether a signature is a revocation.
fn revokes(signature: SigView<'_>) -> bool
    ensures { result ≡ revokes_typed (kind_in (sig_view_value signature.entry)) }
{
    match kind_in(signature) {
        Some(kind) => is_revocation(SignatureType::from(kind)),
        None => false,
    }
}

/// The first of these verdicts, and the others; where there is none it is undecided.
fn next_verdict(verdicts: &[Verdict]) -> (Verdict, &[Verdict])
    ensures first { result.0 ≡ first_verdict verdicts.now }
    ensures rest { result.1.now ≡ rest_of verdicts.now }
{
    match verdicts {
        [verdict, more @ ..] => (*verdict, more),
        [] => (Verdict::Undecided, verdicts),
    }
}

impl Issuers<'_> {
    /// Adds the key that made a signature, if this is a revocation and good. Fails only when out of
    /// memory.
    fn add(&mut self, found: Verdict, signature: SigView<'_>) -> Result<(), OutOfMemory>
        ensures prints { OnOk result (self.new.prints.items ≡ self.old.prints.items
            ++ issuer_by (knowns self.old.known.now) found (sig_view_value signature.entry)) }
        ensures known { self.new.known ≡ self.old.known }
        ensures verdicts { self.new.verdicts ≡ self.old.verdicts }
    {
        if matches!(found, Verdict::Good) && revokes(signature) {
            if let Some(known) = self.known.issuer(signature) {
                self.prints.push(known.print)?;
            }
        }
        Ok(())
    }
}

impl<'a> Visitor<'a> for Issuers<'_> {
    type Stop = OutOfMemory;

    ghost becomes = { GathersIssuers };

    fn meet(
        &mut self,
        _hasher: &mut CertificateHasher<'a>,
        met: &Met<'a>,
    ) -> Result<(), OutOfMemory> {
        let (verdict, rest) = next_verdict(self.verdicts);
        self.verdicts = rest;
        match met.signature {
            Some(signature) => self.add(verdict, signature),
            None => Ok(()),
        }
    }
}

/// The index of the keys that made the good revocations of a keyring, by these verdicts on the rows
/// of its report. Fails only when out of memory.
pub(crate) fn revocation_issuers(
    alloc: Global,
    known: &KnownKeys,
    keyring: &Keyring,
    verdicts: &[Verdict],
) -> Result<KeyIndex, OutOfMemory>
    requires { knowns known.now ≡ known_in keyring.now }
    ensures { IfOk result (λ k.
        prints_shown k ≡ revocation_issuers keyring.now verdicts.now) }
{
    let mut issuers = Issuers {
        known,
        verdicts,
        prints: Vec::new(alloc),
    };
    visit(&mut issuers, keyring)?;
    let index = index_of(alloc, &issuers.prints)?;
    Ok(index)
}

/// The index of these fingerprints. Fails only when out of memory.
fn index_of(alloc: Global, prints: &[Fingerprint]) -> Result<KeyIndex, OutOfMemory>
    ensures { IfOk result (λ k. prints_shown k ≡ prints.now) }
{
    let mut index = KeyIndex::new(alloc);
    let mut rest = prints;
    'prints: while let [print, more @ ..] = rest {
        index = index.with(*print)?;
        rest = more;
    }
    Ok(index)
}

/// Whether a component is a subkey that is among these keys.
pub(crate) fn is_issuer(issuers: &KeyIndex, component: Component<'_>) -> bool
    ensures { result ≡ is_issuer (prints_shown issuers.now) (component_of component.entry) }
{
    match component.head().head() {
        Head::Subkey(key) => issuers.find(IssuerName::Print(print_of(&key))).is_some(),
        Head::UserId(_) | Head::Attribute(_) => false,
    }
}
