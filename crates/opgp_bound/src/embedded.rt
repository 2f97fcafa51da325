//! How many signatures are embedded in a subkey binding.

ghost use Rattle.std.specs.Prelude.{◌≡◌, ◌≤◌, ◌*◌, Ok, length};
ghost use Rattle.opgp_packet.specs.SigView.{sig_view_value};
ghost use Rattle.opgp_packet.specs.Subs.{subs_to_come};
ghost use Rattle.opgp_hash.specs.Subject.{subject_value};
ghost use Rattle.opgp_report.specs.Standing.{bodies_within, held_bodies};

use opgp_hash::Subject;
use opgp_octets::{SignatureType, SubpacketKind};
use opgp_packet::{SigView, Subs};

/// How many signatures are embedded in an area (RFC 9580, 5.2.3.34).
fn embedded_in_area(mut subpackets: Subs<'_>) -> usize
    requires { length (subs_to_come subpackets) ≤ 4294967295 }
    ensures value { result ≡ length (held_bodies (subs_to_come subpackets.entry)) }
    ensures few { result ≤ 4294967295 }
{
    let mut number = 0usize;
    'subpackets: while let Some(subpacket) = subpackets.next() {
        if subpacket.kind() == SubpacketKind::EmbeddedSignature.number() {
            number += 1;
        }
    }
    number
}

/// How many signatures are embedded in a signature on this subject, if it binds a subkey.
pub(crate) fn embedded(subject: Subject<'_>, signature: SigView<'_>) -> usize
    ensures value { result ≡ length (bodies_within (subject_value subject.entry)
        (Ok (sig_view_value signature.entry))) }
    ensures few { result ≤ 2 * 4294967295 }
{
    let Subject::Two(_, _) = subject else {
        return 0;
    };
    let binding = SignatureType::SubkeyBinding.number();
    match signature {
        SigView::Four(view) if view.kind() == binding => {
            embedded_in_area(view.hashed()) + embedded_in_area(view.unhashed())
        }
        SigView::Six(view) if view.kind() == binding => {
            embedded_in_area(view.hashed()) + embedded_in_area(view.unhashed())
        }
        _ => 0,
    }
}
