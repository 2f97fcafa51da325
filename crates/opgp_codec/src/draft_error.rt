//! The errors of writing a draft.

use thiserror::Error;

/// Why a draft isn't written.
#[derive(Debug, Drop, Error)]
pub enum DraftError {
    /// A write failed.
    #[error("write failed")]
    Write,
    /// The spool failed.
    #[error("spool failed")]
    Spool,
}
