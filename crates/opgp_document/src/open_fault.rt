//! Why no document is begun.

ghost use Rattle.std.specs.Prelude.{Some};
ghost use Rattle.opgp_document.specs.OpenFault.{open_fault_text};

use std::error::Error;
use std::fmt;

/// Why no document is begun for these signatures.
#[derive(Clone, Copy, Debug, PartialEq, Eq)]
pub enum OpenFault {
    /// There are more than [`MOST_SIGNATURES`](crate::MOST_SIGNATURES).
    TooManySignatures,
    /// An allocation failed.
    Memory,
}

/// `too many signatures` or `out of memory`.
impl fmt::Display for OpenFault {
    ghost output = { λ fault. Some (open_fault_text fault) };

    fn fmt<W: fmt::Write>(&self, f: &mut fmt::Formatter<W>) -> fmt::Result {
        match self {
            OpenFault::TooManySignatures => f.write_str("too many signatures"),
            OpenFault::Memory => f.write_str("out of memory"),
        }
    }
}

impl Error for OpenFault {}
