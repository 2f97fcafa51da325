//! The signatures whose claims are looked at, one after the other.

ghost use Rattle.std.specs.Prelude.{◌≡◌, [], ℕ, List, false};
ghost use Rattle.std.specs.List.{list_any};
ghost use Rattle.opgp_packet.specs.SignatureBody.{signature_at};
ghost use Rattle.opgp_packet.specs.Subs.{subs_to_come};
ghost use Rattle.opgp_hash.specs.CertificateHasher.{hasher_subject};
ghost use Rattle.opgp_hash.specs.SubjectValue.{SubjectValue};
ghost use Rattle.opgp_hash.specs.declared.site.Site.{Site};
ghost use Rattle.opgp_report.specs.Asked.{IsMet};
ghost use Rattle.opgp_report.specs.IssuerName.{name_value};
ghost use Rattle.opgp_report.specs.Standing.{stands};
ghost use Rattle.opgp_state.specs.Claiming.{AddsClaims, claim, has_name, has_revokers};
ghost use Rattle.opgp_state.specs.Claiming.{is_heard, is_of_revoker};

use opgp_hash::{CertificateHasher, Fingerprint};
use opgp_octets::{OutOfMemory, SubpacketKind};
use opgp_packet::{SigView, Subs};
use opgp_report::{
    IssuerName, Job, LeftOctets, Met, Posed, Verdict, Verifier, Visitor, issuer_named,
};
use std::alloc::Global;

/// Adds a verdict for each signature: what it claims, or that it is undecided if it isn't looked
/// at.
#[derive(Drop)]
pub(crate) struct Claiming {
    /// The fingerprint of the key whose signatures are looked at, and those that are embedded;
    /// None: all are.
    pub(crate) own: Option<Fingerprint>,
    pub(crate) verdicts: Vec<Verdict>,
    /// Whether one that was looked at names a key that may revoke.
    pub(crate) names_revokers: bool,
}

impl Claiming {
    /// No verdicts yet.
    pub(crate) fn new(alloc: Global, own: Option<Fingerprint>) -> Claiming
        ensures own { result.own ≡ own }
        ensures verdicts { result.verdicts.items ≡ [] }
        ensures revokers { result.names_revokers ≡ false }
    {
        Claiming {
            own,
            verdicts: Vec::new(alloc),
            names_revokers: false,
        }
    }
}

/// Whether the key of this fingerprint has this name.
fn has_name(name: IssuerName, print: Fingerprint) -> bool
    ensures { result ≡ has_name (name_value name) print }
{
    match name {
        IssuerName::Print(named) => {
            named.version() == print.version() && named.octets() == print.octets()
        }
        IssuerName::Id(id) => print.key_id() == id,
        IssuerName::Unnamed => false,
    }
}

/// Whether a signature is looked at.
fn is_heard(own: Option<Fingerprint>, met: &Met<'_>) -> bool
    ensures { (body : List ℕ) (site : Site) (subject : SubjectValue)
        → IsMet met.now.signature (signature_at body)
        → result ≡ is_heard own (stands site met.now.place subject body) }
{
    let Some(print) = own else {
        return true;
    };
    if met.place.nested.is_some() {
        return true;
    }
    match met.signature {
        Some(signature) => has_name(issuer_named(signature), print),
        None => false,
    }
}

/// Whether there is a subpacket in an area that names a key which may revoke (RFC 9580, 5.2.3.23).
fn names_revoker(area: Subs<'_>) -> bool
    ensures { result ≡ list_any is_of_revoker (subs_to_come area.entry) }
{
    for subpacket in area {
        if subpacket.kind() == SubpacketKind::RevocationKey.number() {
            return true;
        }
    }
    false
}

/// Whether what is met names such a key in its hashed area.
fn has_revokers(met: &Met<'_>) -> bool
    ensures { (body : List ℕ) → IsMet met.now.signature (signature_at body)
        → result ≡ has_revokers (signature_at body) }
{
    match met.signature {
        Some(SigView::Four(view)) => names_revoker(view.hashed()),
        Some(SigView::Six(view)) => names_revoker(view.hashed()),
        Some(SigView::Three(_)) | Some(SigView::Other(_)) | None => false,
    }
}

/// What is met claims this: it is bad if its digest doesn't begin with the octets that it states,
/// else good.
fn claim<'a>(hasher: &mut CertificateHasher<'a>, met: &Met<'a>) -> Verdict
    ensures subject { hasher_subject hasher.new ≡ hasher_subject hasher.old }
    ensures claim { (body : List ℕ) → IsMet met.now.signature (signature_at body)
        → result ≡ claim (stands met.now.site met.now.place (hasher_subject hasher.old) body) }
{
    match met.asked(hasher) {
        Posed::Question(signature, question) => {
            let job = Job {
                signature,
                digest: hasher.digest(&question),
                signer: None,
            };
            match LeftOctets.verify(&job) {
                Verdict::Bad => Verdict::Bad,
                Verdict::Good | Verdict::Undecided => Verdict::Good,
            }
        }
        Posed::Nothing(_) => Verdict::Good,
    }
}

impl<'a> Visitor<'a> for Claiming {
    type Stop = OutOfMemory;

    ghost becomes = { AddsClaims };

    fn meet(
        &mut self,
        hasher: &mut CertificateHasher<'a>,
        met: &Met<'a>,
    ) -> Result<(), OutOfMemory> {
        if !is_heard(self.own, met) {
            return Ok(self.verdicts.push(Verdict::Undecided)?);
        }
        if has_revokers(met) {
            self.names_revokers = true;
        }
        Ok(self.verdicts.push(claim(hasher, met))?)
    }
}
