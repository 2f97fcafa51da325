//! The packet that begins a component, borrowed.

use opgp_packet::{AttributeView, KeyView};

/// The packet that begins a component of a certificate (RFC 9580, 10.1).
#[derive(Clone, Copy)]
pub enum Head<'a> {
    /// A user ID's octets (5.11).
    UserId(&'a [u8]),
    /// A user attribute (5.12).
    Attribute(AttributeView<'a>),
    /// A subkey (5.5.1.2).
    Subkey(KeyView<'a>),
}
