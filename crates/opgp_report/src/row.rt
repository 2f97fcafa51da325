//! Rows of a report.

use crate::place::Place;
use crate::verifier::Verdict;
use opgp_hash::{Digest, KeyId, Why};

/// What is found of a signature.
#[derive(Clone, Copy)]
pub enum Finding {
    /// It is hashed.
    Asked {
        /// The signature's type (RFC 9580, 5.2.1).
        kind: u8,
        /// The number of its hash algorithm (9.5).
        hash: u8,
        /// The key ID of the key that it names as its issuer, where the keyring has it.
        signer: Option<KeyId>,
        /// The digest of what it hashes.
        digest: Digest,
        /// The verdict of the verifier.
        verdict: Verdict,
    },
    /// It isn't hashed, for this reason.
    NotAsked(Why),
}

/// A signature of a keyring: its place, and what is found of it.
#[derive(Clone, Copy)]
pub struct Row {
    /// Its place in the keyring.
    pub place: Place,
    /// What is found of it.
    pub finding: Finding,
}
