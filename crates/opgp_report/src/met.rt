//! What the walk over a keyring's signatures meets.

ghost use Rattle.std.specs.Prelude.{◌≡◌, IfOk, Result};
ghost use Rattle.opgp_octets.specs.Octets.{IsBodySized};
ghost use Rattle.opgp_octets.specs.declared.fault.BodyFault.{BodyFault};
ghost use Rattle.opgp_packet.specs.SignatureBody.{SignatureValue, signature_at};
ghost use Rattle.opgp_hash.specs.CertificateHasher.{hasher_subject};
ghost use Rattle.opgp_report.specs.Asked.{IsMet, posed_in, posed_value};

use crate::place::Place;
use opgp_hash::{CertificateHasher, Question, Site, Why, ask_at};
use opgp_packet::SigView;

/// The question of what the walk meets, or why there is none.
#[derive(Clone, Copy)]
pub enum Posed<'a> {
    /// This signature hashes this.
    Question(SigView<'a>, Question<'a>),
    /// Nothing is hashed, for this reason.
    Nothing(Why),
}

/// A signature where the walk meets it, or octets there that aren't one.
#[derive(Clone, Copy)]
pub struct Met<'a> {
    pub(crate) site: Site,
    /// Its place in the keyring.
    pub place: Place,
    /// The signature; None for octets that aren't one.
    pub signature: Option<SigView<'a>>,
}

impl<'a> Met<'a> {
    /// What it hashes over the hasher's subject, or why nothing is. It is made only here, so that
    /// who doesn't ask doesn't pay. Inlined, so that the question isn't copied from place to place.
    #[inline(always)]
    pub fn asked(&self, hasher: &CertificateHasher<'a>) -> Posed<'a>
        ensures exact { (read : Result SignatureValue BodyFault) → IsMet self.now.signature read
            → posed_in self.now.site (hasher_subject hasher.now) read ≡ posed_value result }
        ensures subject { IfOk (posed_value result) (λ x.
            x.1.subject ≡ hasher_subject hasher.now) }
    {
        let Some(signature) = self.signature else {
            return Posed::Nothing(Why::Opaque);
        };
        match ask_at(self.site, signature, hasher.subject()) {
            Ok(question) => Posed::Question(signature, question),
            Err(why) => Posed::Nothing(why),
        }
    }
}

/// Reads octets in the role of a signature.
pub(crate) fn read(octets: &[u8]) -> Option<SigView<'_>>
    requires { IsBodySized octets.now }
    ensures { IsMet result (signature_at octets.now) }
{
    match SigView::parse_body(octets) {
        Ok(signature) => Some(signature),
        Err(_) => None,
    }
}
