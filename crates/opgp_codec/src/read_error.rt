//! The errors of reading.

ghost use Rattle.std.specs.Prelude.{◌≡◌};

use opgp_octets::{Fault, OutOfMemory};
use thiserror::Error;

/// An error of reading.
#[derive(Debug, Drop, Error)]
pub enum ReadError {
    /// The input is refused: the fault of the lowest layer that does.
    #[error("{0}")]
    Refused(Fault),
    /// A read failed.
    #[error("read failed")]
    Read,
    /// Out of memory.
    #[error("out of memory")]
    Memory,
}

impl From<OutOfMemory> for ReadError {
    ghost use Rattle.opgp_codec.specs.declared.read_error.ReadError.TheVariants.{Memory};

    ghost from_gives = { λ _ e. e ≡ Memory };

    fn from(_refused: OutOfMemory) -> ReadError {
        ReadError::Memory
    }
}
