//! The keys that a certificate names as ones that may revoke its keys.

ghost use Rattle.std.specs.Prelude.{◌≡◌, ◌++◌, IfOk, OnOk, length, map};
ghost use Rattle.opgp_packet.specs.Subs.{subs_to_come};
ghost use Rattle.opgp_packet.specs.SigView.{sig_view_value};
ghost use Rattle.opgp_hash.specs.declared.fingerprints.Fingerprint.TheVariants.{Four};
ghost use Rattle.opgp_report.specs.KeyIndex.{prints_shown};
ghost use Rattle.opgp_valid.specs.KnownKeys.{knowns};
ghost use Rattle.opgp_valid.specs.Gathering.{Names};
ghost use Rattle.opgp_valid.specs.Subpackets.{revokers_in};
ghost use Rattle.opgp_valid.specs.Told.{named_by, names_revokers, revokers_of};
ghost use Rattle.opgp_report.specs.First.{print_of};

use crate::asking::{is_genuine, next_verdict};
use crate::context::{Context, is_print, parts_of};
use crate::group::certifies;
use crate::subpackets::revoker_stated;
use opgp_hash::{CertificateHasher, Fingerprint};
use opgp_keyring::Certificate;
use opgp_octets::{OutOfMemory, SignatureType};
use opgp_packet::{SigView, Subs};
use opgp_report::{KeyIndex, Met, Verdict, Visitor, visit_certificate};
use std::alloc::Global;

/// Adds the fingerprints that signatures name, where those may name revokers.
#[derive(Drop)]
pub(crate) struct Namer<'v> {
    pub(crate) context: Context<'v>,
    pub(crate) verdicts: &'v [Verdict],
    pub(crate) prints: Vec<Fingerprint>,
}

/// Whether signatures of this type may name keys that may revoke (RFC 9580, 5.2.3.23).
fn names_revokers(kind: SignatureType) -> bool
    ensures { result ≡ names_revokers kind }
{
    matches!(kind, SignatureType::DirectKey) || certifies(kind)
}

/// The version 4 fingerprint of these octets.
fn print_of_four(octets: &[u8]) -> Fingerprint
    requires { length octets.now ≡ 20 }
    ensures { result ≡ Four octets.now }
{
    let mut four = [0; 20];
    four.copy_from_slice(octets);
    Fingerprint::Four(four)
}

/// Adds the fingerprints that an area names. Fails only when out of memory.
fn add_revokers(prints: &mut Vec<Fingerprint>, area: Subs<'_>) -> Result<(), OutOfMemory>
    ensures { OnOk result (prints.new.items
        ≡ prints.old.items ++ map Four (revokers_in (subs_to_come area.entry))) }
{
    for subpacket in area {
        if let Some(octets) = revoker_stated(subpacket) {
            prints.push(print_of_four(octets))?;
        }
    }
    Ok(())
}

impl Namer<'_> {
    /// Adds what a genuine signature names. Fails only when out of memory.
    fn add(&mut self, signature: SigView<'_>) -> Result<(), OutOfMemory>
        ensures prints { OnOk result (self.new.prints.items ≡ self.old.prints.items
            ++ named_by (knowns self.old.context.known.now) self.old.context.primary
            (sig_view_value signature.entry)) }
        ensures context { self.new.context ≡ self.old.context }
        ensures verdicts { self.new.verdicts ≡ self.old.verdicts }
    {
        let context = self.context;
        let Some(parts) = parts_of(signature) else {
            return Ok(());
        };
        if names_revokers(parts.kind)
            && is_print(context.primary, context.known.issuer(signature))
        {
            add_revokers(&mut self.prints, parts.hashed)?;
        }
        Ok(())
    }
}

/// The index of the keys that a certificate names as ones that may revoke its keys, by these
/// verdicts on its rows in a report. Fails only when out of memory.
pub(crate) fn revokers_of(
    alloc: Global,
    context: Context<'_>,
    certificate: &Certificate,
    verdicts: &[Verdict],
) -> Result<KeyIndex, OutOfMemory>
    requires { context.primary ≡ print_of certificate.now.primary.body }
    ensures { IfOk result (λ k. prints_shown k ≡ revokers_of (knowns context.entry.known.now)
        certificate.now verdicts.now) }
{
    let mut namer = Namer {
        context,
        verdicts,
        prints: Vec::new(alloc),
    };
    visit_certificate(&mut namer, 0, certificate)?;
    let index = index_of(alloc, &namer.prints)?;
    Ok(index)
}

/// The index of these fingerprints. Fails only when out of memory.
fn index_of(alloc: Global, prints: &[Fingerprint]) -> Result<KeyIndex, OutOfMemory>
    ensures { IfOk result (λ k. prints_shown k ≡ prints.now) }
{
    let mut index = KeyIndex::new(alloc);
    let mut rest = prints;
    'prints: while let [print, more @ ..] = rest {
        index = index.with(*print)?;
        rest = more;
    }
    Ok(index)
}

impl<'a> Visitor<'a> for Namer<'_> {
    type Stop = OutOfMemory;

    ghost becomes = { Names };

    fn meet(
        &mut self,
        hasher: &mut CertificateHasher<'a>,
        met: &Met<'a>,
    ) -> Result<(), OutOfMemory> {
        let (verdict, rest) = next_verdict(self.verdicts);
        self.verdicts = rest;
        let Some(signature) = met.signature else {
            return Ok(());
        };
        if met.place.nested.is_none() && is_genuine(hasher, met, verdict) {
            self.add(signature)
        } else {
            Ok(())
        }
    }
}
