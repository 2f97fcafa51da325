//! The errors of reading and writing.

ghost use Rattle.std.specs.Prelude.{◌≡◌};
ghost use Rattle.opgp_codec.specs.Errors.{engine_number};

use thiserror::Error;

/// An error of reading or writing.
#[derive(Debug, Drop, Error)]
pub enum EngineError {
    /// A read failed.
    #[error("read failed")]
    Read,
    /// A write failed.
    #[error("write failed")]
    Write,
    /// Out of memory.
    #[error("out of memory")]
    Memory,
}

impl EngineError {
    /// The number, which never changes.
    pub fn number(&self) -> u8
        ensures { result ≡ engine_number self.now }
    {
        match self {
            EngineError::Read => 60,
            EngineError::Write => 61,
            EngineError::Memory => 62,
        }
    }
}
