//! What a composer hands out.

ghost use Rattle.std.specs.Prelude.{◌≡◌, [], List, MatchOption};
ghost use Rattle.opgp_frame.specs.Packet.{PacketValue};
ghost use Rattle.opgp_keyring.specs.Composed.{of_certificate, of_lead};
ghost use Rattle.opgp_keyring.specs.Packets.{packets_left};
ghost use Rattle.opgp_keyring.specs.Parts.{normal_part, part_packets};
ghost use Rattle.opgp_keyring.specs.State.{part_of};

use crate::certificate::Certificate;
use crate::lead::Lead;
use crate::packed::Packed;
use crate::packets::Packets;
use crate::reframing::Reframe;

/// A complete part of a keyring.
#[derive(Drop)]
pub enum Ready {
    /// The fillers before the first certificate, where there are any.
    Lead(Lead),
    /// A certificate.
    Certificate(Certificate),
}

impl Ready {
    /// The certificate; None if it is fillers, which are dropped.
    pub fn certificate(self) -> Option<Certificate>
        ensures { MatchOption result ((lead : List PacketValue) × (part_of self ≡ of_lead lead))
            (λ c. part_of self ≡ of_certificate c) }
    {
        match self {
            Ready::Lead(lead) => {
                drop(lead);
                None
            }
            Ready::Certificate(certificate) => Some(certificate),
        }
    }

    /// No packets, in the memory of its own.
    pub(crate) fn emptied(self) -> Packed
        ensures { result ≡ [] }
    {
        match self {
            Ready::Lead(lead) => lead.into_packed().emptied(),
            Ready::Certificate(certificate) => certificate.emptied(),
        }
    }

    /// Its packets, in order.
    pub fn packets(&self) -> Packets<'_>
        ensures { packets_left result ≡ part_packets (part_of self.now) }
    {
        match self {
            Ready::Lead(lead) => Packets::of_lead(lead),
            Ready::Certificate(certificate) => Packets::of_certificate(certificate),
        }
    }

    /// The same packets in the same places, each in the current format with its shortest length,
    /// never partial (RFC 9580, 4.2.1). No body is changed or copied. Allocates nothing.
    pub fn normalise(self) -> Ready
        ensures { part_of result ≡ normal_part (part_of self) }
    {
        match self {
            Ready::Lead(mut lead) => {
                lead.reframe();
                Ready::Lead(lead)
            }
            Ready::Certificate(mut certificate) => {
                certificate.reframe();
                Ready::Certificate(certificate)
            }
        }
    }
}
