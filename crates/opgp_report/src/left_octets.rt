//! The verifier that compares the left 16 bits of the digest.

ghost use Rattle.opgp_report.specs.Left.{says_left};

use crate::verifier::{Job, Verdict, Verifier};

/// A verifier without arithmetic: a signature is bad if its digest doesn't begin with the left 16
/// bits of the hash that the signature states (RFC 9580, 5.2.3); else nothing can be said.
/// Allocates nothing.
#[derive(Clone, Copy, Debug)]
pub struct LeftOctets;

impl Verifier for LeftOctets {
    ghost says = { λ _ job. says_left job };

    fn verify(&self, job: &Job<'_>) -> Verdict {
        match job.signature.left() {
            None => Verdict::Undecided,
            Some(left) => {
                if job.digest.octets().starts_with(&left) {
                    Verdict::Undecided
                } else {
                    Verdict::Bad
                }
            }
        }
    }
}
