//! The rows for the signatures of a keyring.

ghost use Rattle.std.specs.Prelude.{◌≡◌, ◌++◌, [], map};
ghost use Rattle.std.specs.Option.{option_map};
ghost use Rattle.opgp_hash.specs.CertificateHasher.{hasher_subject};
ghost use Rattle.opgp_hash.specs.Question.{question_value};
ghost use Rattle.opgp_packet.specs.Parsed.{body_octets};
ghost use Rattle.opgp_packet.specs.SigView.{sig_view_value};
ghost use Rattle.opgp_report.specs.Reporter.{AddsRows, reporter_keys};
ghost use Rattle.opgp_report.specs.Report.{finding_by};
ghost use Rattle.opgp_report.specs.Row.{finding_value, row_value};
ghost use Rattle.opgp_report.specs.Signers.{signers_keys};

use crate::met::{Met, Posed};
use crate::row::{Finding, Row};
use crate::signers::{Signer, Signers};
use crate::verifier::{Job, Verifier};
use crate::walk::Visitor;
use opgp_hash::{CertificateHasher, Question};
use opgp_octets::OutOfMemory;
use opgp_packet::SigView;
use std::alloc::Global;

/// Adds a row for each signature: has the keys that may be signers, and the verifier.
#[derive(Drop)]
pub(crate) struct Reporter<'a, V> {
    signers: Signers<'a>,
    verifier: &'a V,
    pub(crate) rows: Vec<Row>,
}

impl<'a, V: Verifier> Reporter<'a, V> {
    pub(crate) fn new(alloc: Global, signers: Signers<'a>, verifier: &'a V) -> Reporter<'a, V>
        ensures keys { reporter_keys result ≡ signers_keys signers.entry }
        ensures verifier { result.verifier.now ≡ verifier.now }
        ensures rows { map row_value result.rows.items ≡ [] }
    {
        Reporter {
            signers,
            verifier,
            rows: Vec::new(alloc),
        }
    }
}

/// What is found of a signature that is hashed, over the hasher's current subject, and whose
/// issuer's key is this one.
pub(crate) fn found<V: Verifier>(
    hasher: &mut CertificateHasher<'_>,
    signature: SigView<'_>,
    question: &Question<'_>,
    signer: Option<Signer<'_>>,
    verifier: &V,
) -> Finding
    requires { (question_value question.now).subject ≡ hasher_subject hasher.old }
    ensures subject { hasher_subject hasher.new ≡ hasher_subject hasher.old }
    ensures value { finding_value result ≡ finding_by (V.says verifier.now)
        (option_map (λ s. body_octets s.key) signer.entry) (sig_view_value signature.entry)
        (question_value question.now) }
{
    let digest = hasher.digest(question);
    let job = Job {
        signature,
        digest,
        signer: signer.map(|s| s.key),
    };
    Finding::Asked {
        kind: question.kind(),
        hash: question.hash(),
        signer: signer.map(|s| s.id),
        digest,
        verdict: verifier.verify(&job),
    }
}

impl<'a, V: Verifier> Visitor<'a> for Reporter<'a, V> {
    type Stop = OutOfMemory;

    ghost becomes = { AddsRows V.says };

    fn meet(
        &mut self,
        hasher: &mut CertificateHasher<'a>,
        met: &Met<'a>,
    ) -> Result<(), OutOfMemory> {
        let place = met.place;
        match met.asked(hasher) {
            Posed::Question(signature, question) => {
                let signer = self.signers.find(signature);
                let finding = found(hasher, signature, &question, signer, self.verifier);
                Ok(self.rows.push(Row { place, finding })?)
            }
            Posed::Nothing(why) => {
                let finding = Finding::NotAsked(why);
                Ok(self.rows.push(Row { place, finding })?)
            }
        }
    }
}
