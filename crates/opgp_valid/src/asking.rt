//! Whether a signature is good by arithmetic, over what it is made over.

ghost use Rattle.std.specs.Prelude.{◌≡◌, ⊤, MatchOption, is_ok};
ghost use Rattle.opgp_packet.specs.SigView.{sig_view_value};
ghost use Rattle.opgp_hash.specs.Asking.{ask_at_of};
ghost use Rattle.opgp_hash.specs.CertificateHasher.{hasher_subject};
ghost use Rattle.opgp_valid.specs.Told.{first_verdict, is_asked, is_good_verdict, is_right, rest_of};
ghost use Rattle.opgp_valid.specs.Told.{revokes_key, type_in};

use crate::context::is_asked_alone;
use opgp_hash::CertificateHasher;
use opgp_octets::SignatureType;
use opgp_packet::SigView;
use opgp_report::{Met, Posed, Verdict};

/// The first of these verdicts, and the others; where there is none it is undecided.
pub(crate) fn next_verdict(verdicts: &[Verdict]) -> (Verdict, &[Verdict])
    ensures first { result.0 ≡ first_verdict verdicts.now }
    ensures rest { result.1.now ≡ rest_of verdicts.now }
{
    match verdicts {
        [verdict, more @ ..] => (*verdict, more),
        [] => (Verdict::Undecided, verdicts),
    }
}

/// The type of a signature of version 4 or 6 (RFC 9580, 5.2.1).
pub(crate) fn type_of(signature: SigView<'_>) -> SignatureType
    ensures { result ≡ type_in (sig_view_value signature.entry) }
{
    match signature {
        SigView::Four(view) => SignatureType::from(view.kind()),
        SigView::Six(view) => SignatureType::from(view.kind()),
        SigView::Three(_) | SigView::Other(_) => SignatureType::Other(0),
    }
}

/// Whether signatures of this type revoke primary keys (RFC 9580, 5.2.1.11).
pub(crate) fn revokes_key(kind: SignatureType) -> bool
    ensures { result ≡ revokes_key kind }
{
    matches!(kind, SignatureType::KeyRevocation)
}

/// Whether what is met is hashed where it is.
fn is_hashed<'a>(hasher: &CertificateHasher<'a>, met: &Met<'a>) -> bool
    ensures { MatchOption met.now.signature ⊤ (λ view. result
        ≡ is_ok (ask_at_of met.now.site (sig_view_value view) (hasher_subject hasher.now))) }
{
    match met.asked(hasher) {
        Posed::Question(_, _) => true,
        Posed::Nothing(_) => false,
    }
}

/// Whether what is met is hashed: where it is, or, if it revokes the primary key, over that alone.
fn is_asked<'a>(hasher: &CertificateHasher<'a>, met: &Met<'a>) -> bool
    ensures { MatchOption met.now.signature ⊤ (λ view. result
        ≡ is_asked met.now.site met.now.place (hasher_subject hasher.now) (sig_view_value view)) }
{
    let Some(signature) = met.signature else {
        return false;
    };
    is_hashed(hasher, met)
        || (met.place.nested.is_none()
            && revokes_key(type_of(signature))
            && is_asked_alone(hasher.subject(), signature))
}

/// Whether what is met is hashed, and good by this verdict.
pub(crate) fn is_genuine<'a>(
    hasher: &CertificateHasher<'a>,
    met: &Met<'a>,
    verdict: Verdict,
) -> bool
    ensures { MatchOption met.now.signature ⊤ (λ view. result
        ≡ is_right met.now.site met.now.place (hasher_subject hasher.now) verdict
        (sig_view_value view)) }
{
    match verdict {
        Verdict::Good => is_asked(hasher, met),
        Verdict::Bad | Verdict::Undecided => false,
    }
}
