//! The certificate that has the row of a number in a keyring's report, looked for among its parts.

ghost use Rattle.std.specs.Prelude.{◌≡◌, ◌++◌, ◌∷◌, [], ℕ, List, OnOk};
ghost use Rattle.opgp_keyring.specs.Composed.{PartValue};
ghost use Rattle.opgp_keyring.specs.State.{part_of};
ghost use Rattle.opgp_stack.specs.OnePart.{IsRow, certificates_in};

use opgp_keyring::{Keyring, Ready};
use opgp_octets::OutOfMemory;
use opgp_report::rows_left;
use std::alloc::Global;
use std::mem;

/// The certificate that has the row of a number, once it has come. No other is kept.
#[derive(Drop)]
pub(crate) struct RowFound {
    alloc: Global,
    left: usize,
    found: Option<Keyring>,
}

impl RowFound {
    /// Looks for the row of this number, counted from 0.
    pub(crate) fn new(alloc: Global, number: usize) -> RowFound
        ensures { IsRow number result.left result.found [] }
    {
        RowFound {
            alloc,
            left: number,
            found: None,
        }
    }

    /// Keeps the next part, if it is the certificate that has the row, else gives back a part whose
    /// memory the next one may use. Fails only when out of memory.
    pub(crate) fn keep(&mut self, part: Ready) -> Result<Option<Ready>, OutOfMemory>
        ensures { OnOk result ((number : ℕ) (parts : List PartValue)
            → IsRow number self.old.left self.old.found (certificates_in parts)
            → IsRow number self.new.left self.new.found
            (certificates_in (parts ++ part_of part ∷ []))) }
    {
        let Some(certificate) = part.certificate() else {
            return Ok(None);
        };
        if self.found.is_some() {
            return Ok(Some(Ready::Certificate(certificate)));
        }
        if let Some(left) = rows_left(&certificate, self.left) {
            self.left = left;
            return Ok(Some(Ready::Certificate(certificate)));
        }
        let ring = Keyring::of(self.alloc, certificate)?;
        drop(mem::replace(&mut self.found, Some(ring)));
        Ok(None)
    }

    /// A keyring of the certificate alone, if it has come, and the row's number in its report.
    pub(crate) fn found(self) -> (Option<Keyring>, usize)
        ensures ring { result.0 ≡ self.found }
        ensures left { result.1 ≡ self.left }
    {
        (self.found, self.left)
    }
}
