//! How signatures name their issuers.

use opgp_hash::{Fingerprint, KeyId};

/// The name that a signature gives its issuer's key, whether or not there is such a key.
#[derive(Clone, Copy, Debug, PartialEq, Eq)]
pub enum IssuerName {
    /// The key with this fingerprint (RFC 9580, 5.2.3.35).
    Print(Fingerprint),
    /// The first key with this key ID (RFC 9580, 5.2.3.12).
    Id(KeyId),
    /// It names none.
    Unnamed,
}
