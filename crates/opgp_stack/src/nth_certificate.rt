//! The certificate of a number, looked for among the parts of a keyring.

ghost use Rattle.std.specs.Prelude.{◌≡◌, ◌++◌, ◌∷◌, [], ℕ, List, OnOk};
ghost use Rattle.opgp_keyring.specs.Composed.{PartValue};
ghost use Rattle.opgp_keyring.specs.State.{part_of};
ghost use Rattle.opgp_stack.specs.OnePart.{IsNth, certificates_in};

use opgp_keyring::{Certificate, Ready};
use opgp_octets::OutOfMemory;
use std::mem;

/// The certificate of a number, once it has come. No other is kept.
#[derive(Drop)]
pub(crate) struct NthCertificate {
    left: usize,
    found: Option<Certificate>,
}

impl NthCertificate {
    /// Looks for the certificate of this number, counted from 0.
    pub(crate) fn new(number: usize) -> NthCertificate
        ensures { IsNth number result.left result.found [] }
    {
        NthCertificate {
            left: number,
            found: None,
        }
    }

    /// Keeps the next part, if it is the certificate of the number, else gives back a part whose
    /// memory the next one may use. Never fails.
    pub(crate) fn keep(&mut self, part: Ready) -> Result<Option<Ready>, OutOfMemory>
        ensures { OnOk result ((number : ℕ) (parts : List PartValue)
            → IsNth number self.old.left self.old.found (certificates_in parts)
            → IsNth number self.new.left self.new.found
            (certificates_in (parts ++ part_of part ∷ []))) }
    {
        let Some(certificate) = part.certificate() else {
            return Ok(None);
        };
        if self.found.is_some() {
            return Ok(Some(Ready::Certificate(certificate)));
        }
        if self.left > 0 {
            self.left -= 1;
            return Ok(Some(Ready::Certificate(certificate)));
        }
        drop(mem::replace(&mut self.found, Some(certificate)));
        Ok(None)
    }

    /// The certificate, if it has come.
    pub(crate) fn found(self) -> Option<Certificate>
        ensures { result ≡ self.found }
    {
        self.found
    }
}
