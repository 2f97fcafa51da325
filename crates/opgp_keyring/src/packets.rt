//! The packets of a keyring, one after the other.

ghost use Rattle.std.specs.Prelude.{◌≡◌, ◌∷◌, [], MatchOption};
ghost use Rattle.opgp_keyring.specs.Keyring.{certificate_packets, flat};
ghost use Rattle.opgp_keyring.specs.Member.{member_packet};

use crate::certificate::Certificate;
use crate::keyring::Keyring;
use crate::lead::Lead;
use crate::member::Member;
use crate::members::Members;

/// The packets of a keyring that are left to be visited, in order (RFC 9580, 10.1). Allocates
/// nothing.
#[derive(Clone, Copy)]
pub struct Packets<'a> {
    members: Members<'a>,
    certificates: &'a [Certificate],
}

impl<'a> Packets<'a> {
    ghost use Rattle.opgp_keyring.specs.Packets.{packets_left};

    /// The packets of a keyring.
    pub fn of(keyring: &'a Keyring) -> Packets<'a>
        ensures { packets_left result ≡ flat keyring.now }
    {
        Packets {
            members: keyring.lead(),
            certificates: keyring.certificates(),
        }
    }

    /// The fillers before the first certificate.
    pub fn of_lead(lead: &'a Lead) -> Packets<'a>
        ensures { packets_left result ≡ lead.now }
    {
        Packets {
            members: lead.packets(),
            certificates: &[],
        }
    }

    /// The packets of a certificate.
    pub fn of_certificate(certificate: &'a Certificate) -> Packets<'a>
        ensures { packets_left result ≡ certificate_packets certificate.now }
    {
        Packets {
            members: certificate.packets(),
            certificates: &[],
        }
    }

    /// The next packet, or None at the end.
    pub fn next(&mut self) -> Option<Member<'a>>
        ensures { MatchOption result ((packets_left self.old ≡ []) × (packets_left self.new ≡ []))
            (λ m. packets_left self.old ≡ member_packet m ∷ packets_left self.new) }
    {
        if let Some(member) = self.members.next() {
            return Some(member);
        }
        let [certificate, rest @ ..] = self.certificates else {
            return None;
        };
        self.certificates = rest;
        self.members = certificate.packets();
        self.members.next()
    }
}
