//! A signature of an unsupported version, with a body of its own.

ghost use Rattle.std.specs.Prelude.{◌≡◌, ◌≤◌, length, Ok, IfOk};
ghost use Rattle.opgp_octets.specs.Octets.{IsOctets, IsBodySized};
ghost use Rattle.opgp_packet.specs.SignatureBody.{signature_at, of_other};

use crate::other_view::OtherView;
use opgp_octets::OutOfMemory;
use std::alloc::Global;

/// A signature that isn't parsed and owns its body: its version isn't 3, 4 or 6, or it is 3 and the
/// body isn't one that is supported (RFC 9580, 5.2).
#[derive(Drop)]
pub struct OtherSignature {
    pub(crate) body: Vec<u8>,
    ghost octets: { IsOctets body.items },
    ghost small: { IsBodySized body.items },
    ghost parses: { signature_at body.items ≡ Ok (of_other body.items) },
}

impl OtherSignature {
    ghost use Rattle.opgp_packet.specs.OtherSignature.{other_signature_octets};
    ghost use Rattle.opgp_packet.specs.OtherView.{other_view_octets};
    ghost use Rattle.opgp_packet.specs.SignatureBody.{IsOther};

    /// A copy of the viewed signature, which owns its body.
    ///
    /// Fails only when out of memory.
    pub fn of(alloc: Global, view: OtherView<'_>) -> Result<OtherSignature, OutOfMemory>
        ensures { IfOk result (λ s. other_signature_octets s ≡ other_view_octets view.entry) }
    {
        Ok(OtherSignature {
            body: Vec::from_slice(alloc, view.body)?,
        })
    }

    /// Its body, as a vector. Allocates nothing.
    pub fn into_body(self) -> Vec<u8>
        ensures value { result.items ≡ other_signature_octets self }
        ensures small { IsBodySized result.items }
    {
        let OtherSignature { body } = self;
        body
    }

    /// A view of it. Allocates nothing, and reads nothing again.
    pub fn view(&self) -> OtherView<'_>
        ensures { other_view_octets result ≡ other_signature_octets self.now }
    {
        OtherView { body: &self.body }
    }

    /// The octets of its body.
    pub fn body(&self) -> &[u8]
        ensures value { result.now ≡ other_signature_octets self.now }
        ensures small { IsBodySized result.now }
        // The fields of versions 3, 4 and 6 don't encode such a body.
        ensures other { IsOther result.now }
    {
        self.view().body()
    }

    /// A copy of this signature.
    ///
    /// Fails only when out of memory.
    pub fn copy(&self, alloc: Global) -> Result<OtherSignature, OutOfMemory>
        ensures { IfOk result (λ s. other_signature_octets s ≡ other_signature_octets self.now) }
    {
        OtherSignature::of(alloc, self.view())
    }
}
