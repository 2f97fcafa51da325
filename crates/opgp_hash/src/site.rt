//! Where in a certificate a signature is.

/// Where in a certificate a signature is (RFC 9580, 5.2.1.9, 10.1).
#[derive(Clone, Copy, PartialEq, Eq)]
pub enum Site {
    /// It is a packet after the primary key, a subkey, a user ID or a user attribute.
    Hung,
    /// It is embedded in a subkey binding signature.
    Embedded,
}
