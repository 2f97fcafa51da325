//! The issuer's key, as a signature names it.

ghost use Rattle.std.specs.Prelude.{◌≡◌, ℕ, List};
ghost use Rattle.std.specs.Option.{option_map};
ghost use Rattle.opgp_hash.specs.Fingerprint.{print_octets, print_version};
ghost use Rattle.opgp_packet.specs.SigView.{sig_view_value};
ghost use Rattle.opgp_packet.specs.Subs.{subs_to_come};
ghost use Rattle.opgp_packet.specs.SubView.{issuer_in, issuer_fingerprint_in};
ghost use Rattle.opgp_report.specs.IssuerName.{name_value};
ghost use Rattle.opgp_report.specs.KeyIndex.{prints_shown};
ghost use Rattle.opgp_report.specs.Signer.{IsPrint, first_some, issuer_by, issuer_of, signer_of};

use crate::issuer_name::IssuerName;
use crate::key_index::KeyIndex;
use opgp_hash::{Fingerprint, KeyId};
use opgp_packet::{SigView, Subs};

/// The place of the issuer's key: the first key with the fingerprint that the signature's hashed
/// area names, or else with the key ID that one of its areas names (RFC 9580, 5.2.3.12, 5.2.3.35).
pub fn signer(names: &KeyIndex, signature: SigView<'_>) -> Option<usize>
    ensures { result ≡ signer_of (prints_shown names.now) (sig_view_value signature.entry) }
{
    names.find(issuer_named(signature))
}

/// The name that a signature gives its issuer: the first fingerprint that fits in its hashed area,
/// or else the first key ID in one of its areas, the hashed one first (RFC 9580, 5.2.3.12,
/// 5.2.3.35). Allocates nothing.
pub fn issuer_named(signature: SigView<'_>) -> IssuerName
    ensures { name_value result ≡ issuer_of (sig_view_value signature.entry) }
{
    match signature {
        SigView::Three(_) | SigView::Other(_) => IssuerName::Unnamed,
        SigView::Four(four) => issuer_by(four.hashed(), four.unhashed()),
        SigView::Six(six) => issuer_by(six.hashed(), six.unhashed()),
    }
}

fn issuer_by(hashed: Subs<'_>, unhashed: Subs<'_>) -> IssuerName
    ensures { name_value result
        ≡ issuer_by (subs_to_come hashed.entry) (subs_to_come unhashed.entry) }
{
    if let Some(print) = first_print(hashed) {
        return IssuerName::Print(print);
    }
    if let Some(id) = first_id(hashed) {
        return IssuerName::Id(KeyId(id));
    }
    match first_id(unhashed) {
        Some(id) => IssuerName::Id(KeyId(id)),
        None => IssuerName::Unnamed,
    }
}

/// The fingerprint in the first subpacket that has one.
fn first_print(subs: Subs<'_>) -> Option<Fingerprint>
    ensures { option_map (λ f. (print_version f, print_octets f)) result
        ≡ first_some issuer_fingerprint_in (subs_to_come subs.entry) }
{
    for sub in subs {
        if let Some((version, octets)) = sub.issuer_fingerprint() {
            return Some(print_of_version(version, octets));
        }
    }
    None
}

/// The fingerprint of this version with these octets.
fn print_of_version(version: u8, octets: &[u8]) -> Fingerprint
    requires { IsPrint version octets.now }
    ensures version { print_version result ≡ version }
    ensures octets { print_octets result ≡ octets.now }
{
    if version == 4 {
        let mut four = [0; 20];
        four.copy_from_slice(octets);
        Fingerprint::Four(four)
    } else {
        let mut six = [0; 32];
        six.copy_from_slice(octets);
        Fingerprint::Six(six)
    }
}

/// The key ID in the first subpacket that has one.
fn first_id(subs: Subs<'_>) -> Option<[u8; 8]>
    ensures { result ≡ first_some issuer_in (subs_to_come subs.entry) }
{
    for sub in subs {
        if let Some(id) = sub.issuer() {
            return Some(id);
        }
    }
    None
}
