//! A signature of an unsupported version, over a borrowed body.

ghost use Rattle.std.specs.Prelude.{◌≡◌, ◌≤◌, length, Ok};
ghost use Rattle.opgp_octets.specs.Octets.{IsOctets, IsBodySized};
ghost use Rattle.opgp_packet.specs.SignatureBody.{signature_at, of_other};

/// A signature that isn't parsed: its version isn't 3, 4 or 6, or it is 3 and the body isn't one
/// that is supported (RFC 9580, 5.2).
#[derive(Clone, Copy)]
pub struct OtherView<'a> {
    pub(crate) body: &'a [u8],
    ghost octets: { IsOctets body.now },
    ghost small: { IsBodySized body.now },
    ghost parses: { signature_at body.now ≡ Ok (of_other body.now) },
}

impl<'a> OtherView<'a> {
    ghost use Rattle.opgp_packet.specs.OtherView.{other_view_octets};
    ghost use Rattle.opgp_packet.specs.SignatureBody.{IsOther};

    /// The octets of its body.
    pub fn body(&self) -> &'a [u8]
        ensures value { result.now ≡ other_view_octets self.now }
        ensures small { IsBodySized result.now }
        // The fields of versions 3, 4 and 6 don't encode such a body.
        ensures other { IsOther result.now }
    {
        self.body
    }
}
