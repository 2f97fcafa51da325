//! Why a signature of a certificate says nothing.

/// Why a genuine signature isn't good.
#[derive(Clone, Copy, Debug, PartialEq, Eq)]
pub enum Doubt {
    /// The policy doesn't rely on its hash algorithm, or on its key.
    Weak,
    /// A hashed subpacket hasn't the form of its kind (RFC 9580, 5.2.3.7).
    Malformed,
    /// It states no creation time in its hashed area, or several (5.2.3.11).
    Undated,
    /// It is older than its issuer's key.
    Young,
}

/// What a signature lacks to speak for a key at a time.
#[derive(Clone, Copy, Debug, PartialEq, Eq)]
pub enum Lack {
    /// It was made later.
    Newer,
    /// It has expired (RFC 9580, 5.2.3.18).
    Lapsed,
    /// The policy doesn't rely on its hash algorithm, or on its key.
    Weak,
    /// A hashed subpacket hasn't the form of its kind (5.2.3.7).
    Malformed,
    /// It states no creation time in its hashed area, or several (5.2.3.11).
    Undated,
    /// It is older than its issuer's key.
    Young,
    /// Something critical in it is unknown (5.2.3.7).
    Critical,
}
