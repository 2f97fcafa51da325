//! Signatures that name a key as their issuer.

ghost use Rattle.std.specs.Prelude.{◌≡◌};
ghost use Rattle.opgp_packet.specs.SigView.{sig_view_value};
ghost use Rattle.opgp_report.specs.IssuerName.{name_value};
ghost use Rattle.opgp_report.specs.Named.{named_of};
ghost use Rattle.opgp_merge.specs.Chosen.{is_name_of};

use opgp_hash::{Fingerprint, KeyId};
use opgp_packet::SigView;
use opgp_report::{IssuerName, issuer_named};

/// The name that a signature gives its issuer: in version 3 its field of a key ID (RFC 9580,
/// 5.2.2), in versions 4 and 6 as a report reads it.
fn named_by(signature: SigView<'_>) -> IssuerName
    ensures { name_value result ≡ named_of (sig_view_value signature.entry) }
{
    match signature {
        SigView::Three(view) => IssuerName::Id(KeyId(view.issuer())),
        SigView::Four(_) | SigView::Six(_) | SigView::Other(_) => issuer_named(signature),
    }
}

/// Whether a signature names the key of this fingerprint as its issuer.
pub(crate) fn is_named_by(print: Fingerprint, signature: SigView<'_>) -> bool
    ensures { result ≡ is_name_of (named_of (sig_view_value signature.entry)) print }
{
    match named_by(signature) {
        IssuerName::Print(named) => match print {
            Fingerprint::Four(octets) => {
                named.version() == 4 && octets.as_slice() == named.octets()
            }
            Fingerprint::Six(octets) => named.version() == 6 && octets.as_slice() == named.octets(),
        },
        IssuerName::Id(id) => print.key_id().0 == id.0,
        IssuerName::Unnamed => false,
    }
}
