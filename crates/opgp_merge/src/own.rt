//! Signatures that name the primary key of their certificate as their issuer.

ghost use Rattle.std.specs.Prelude.{◌≡◌, ◌++◌, ◌∷◌, [], All, OnOk};
ghost use Rattle.opgp_packet.specs.SignatureBody.{signature_at};
ghost use Rattle.opgp_packet.specs.SigView.{sig_view_octets, sig_view_value};
ghost use Rattle.opgp_report.specs.IssuerName.{name_value};
ghost use Rattle.opgp_report.specs.Named.{named_of};
ghost use Rattle.opgp_keyring.specs.Grouped.{hangs_left};
ghost use Rattle.opgp_keyring.specs.Keyring.{IsHung, certificate_packets};
ghost use Rattle.opgp_keyring.specs.Member.{member_packet};
ghost use Rattle.opgp_merge.specs.Chosen.{is_name_of, is_own, names_key, own_hangs};

use opgp_hash::{Fingerprint, KeyId};
use opgp_keyring::{Certificate, Content, Hangs, Member};
use opgp_octets::OutOfMemory;
use opgp_packet::SigView;
use opgp_report::{IssuerName, issuer_named};

/// Adds copies of these packets behind those that are there, but not of the signatures that don't
/// name this key as their issuer, if there is one. Fails only when out of memory.
pub(crate) fn add_own(
    chosen: &mut Certificate,
    mut hangs: Hangs<'_>,
    own: Option<Fingerprint>,
) -> Result<(), OutOfMemory>
    requires { All IsHung (hangs_left hangs) }
    ensures { OnOk result (certificate_packets chosen.new
        ≡ certificate_packets chosen.old ++ own_hangs own (hangs_left hangs.entry)) }
{
    'hangs: while let Some(hang) = hangs.next() {
        add_if_own(chosen, hang, own)?;
    }
    Ok(())
}

/// Adds a copy of one of them, if it stays.
fn add_if_own(
    chosen: &mut Certificate,
    hang: Member<'_>,
    own: Option<Fingerprint>,
) -> Result<(), OutOfMemory>
    requires { IsHung (member_packet hang) }
    ensures { OnOk result (certificate_packets chosen.new
        ≡ certificate_packets chosen.old ++ own_hangs own (member_packet hang.entry ∷ [])) }
{
    let stays = match own {
        Some(print) => is_own(hang, print),
        None => true,
    };
    if stays {
        chosen.add(hang)?;
    }
    Ok(())
}

/// Whether a packet is a filler, or a signature that names this key as its issuer.
fn is_own(hang: Member<'_>, print: Fingerprint) -> bool
    ensures { result ≡ is_own print (member_packet hang.entry) }
{
    match hang.content() {
        Content::Signature(signature) => names_key(signature, print),
        Content::Malformed(_) => false,
        Content::Primary(_)
        | Content::Subkey(_)
        | Content::UserId(_)
        | Content::Attribute(_)
        | Content::Filler(_, _) => true,
    }
}

/// Whether a signature names this key as its issuer.
fn names_key(signature: SigView<'_>, print: Fingerprint) -> bool
    ensures { result ≡ names_key print (signature_at (sig_view_octets signature.entry)) }
{
    opgp_packet::signature_laws::signatures_are_read();
    // Called for its contract: the octets are read as this signature.
    let _body = signature.body();
    is_name_of(named_by(signature), print)
}

/// The name that a signature gives its issuer: in version 3 its field of a key ID (RFC 9580,
/// 5.2.2), in versions 4 and 6 as a report reads it.
fn named_by(signature: SigView<'_>) -> IssuerName
    ensures { name_value result ≡ named_of (sig_view_value signature.entry) }
{
    match signature {
        SigView::Three(view) => IssuerName::Id(KeyId(view.issuer())),
        SigView::Four(_) | SigView::Six(_) | SigView::Other(_) => issuer_named(signature),
    }
}

/// Whether this is a name of the key with this fingerprint.
fn is_name_of(name: IssuerName, print: Fingerprint) -> bool
    ensures { result ≡ is_name_of (name_value name) print }
{
    match name {
        IssuerName::Print(named) => match print {
            Fingerprint::Four(octets) => {
                named.version() == 4 && octets.as_slice() == named.octets()
            }
            Fingerprint::Six(octets) => named.version() == 6 && octets.as_slice() == named.octets(),
        },
        IssuerName::Id(id) => print.key_id().0 == id.0,
        IssuerName::Unnamed => false,
    }
}
