//! How a keyring is written.

/// How a keyring is written.
#[derive(Clone, Copy, Debug, PartialEq, Eq)]
pub enum Out {
    /// As armored text (RFC 9580, 6.2).
    Armor,
    /// As packets (RFC 9580, 4).
    Binary,
}
