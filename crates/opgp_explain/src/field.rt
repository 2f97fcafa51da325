//! A field of what a signature hashes.

use crate::meaning::Meaning;

/// A field of what a signature hashes: where it is, and what it means.
#[derive(Clone, Copy, PartialEq, Eq)]
pub struct Field {
    /// How many hashed octets come before it.
    pub offset: u64,
    /// How many octets it has; a body may have none.
    pub length: u64,
    /// What it means.
    pub meaning: Meaning,
}
