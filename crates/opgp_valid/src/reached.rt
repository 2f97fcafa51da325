//! A walk over the certificates of a keyring, with the verdicts on their rows.

ghost use Rattle.std.specs.Prelude.{◌≡◌, ◌≤◌, ◌⊎◌, [], List};
ghost use Rattle.opgp_keyring.specs.Keyring.{CertificateValue};
ghost use Rattle.opgp_report.specs.declared.verifier.Verdict.{Verdict};
ghost use Rattle.opgp_valid.specs.Reached.{IsReached};

use crate::judgement::verdicts_behind;
use opgp_keyring::Certificate;
use opgp_report::Verdict;

/// The certificates that are left, the number of the first of them, and the verdicts on their rows.
#[derive(Clone, Copy)]
pub(crate) struct Reached<'a> {
    pub(crate) number: usize,
    pub(crate) certificates: &'a [Certificate],
    pub(crate) verdicts: &'a [Verdict],
}

/// At the first certificate.
#[tactic(auto, using(crate::proofs::WalkOn::reached_first))]
pub(crate) fn first<'a>(certificates: &'a [Certificate], verdicts: &'a [Verdict]) -> Reached<'a>
    ensures reached { IsReached certificates.now verdicts.now result }
    ensures number { result.number ≡ 0 }
{
    Reached {
        number: 0,
        certificates,
        verdicts,
    }
}

/// Goes on to the certificate of this number, or to the end, if that comes before.
pub(crate) fn go_on<'a>(from: Reached<'a>, number: usize) -> Reached<'a>
    ensures reached { (all : List CertificateValue) (founds : List Verdict)
        → IsReached all founds from.entry → IsReached all founds result }
    ensures number { from.entry.number ≤ number → result.number ≤ number }
    ensures there { from.entry.number ≤ number
        → (result.number ≡ number) ⊎ (result.certificates.now ≡ []) }
{
    let mut reached = from;
    'certificates: while reached.number < number {
        let Some((certificate, more)) = reached.certificates.split_first() else {
            return reached;
        };
        reached = Reached {
            number: reached.number + 1,
            certificates: more,
            verdicts: verdicts_behind(certificate, reached.verdicts),
        };
    }
    reached
}
