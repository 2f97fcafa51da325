//! The contents of a keyring's packets.

use opgp_packet::{AttributeView, KeyView, SigView};

/// The body of a packet of a keyring, read according to the packet's type (RFC 9580, 10.1).
#[derive(Clone, Copy)]
pub enum Content<'a> {
    /// A primary key (5.5.1.1).
    Primary(KeyView<'a>),
    /// A subkey (5.5.1.2).
    Subkey(KeyView<'a>),
    /// A user ID's octets (5.11).
    UserId(&'a [u8]),
    /// A user attribute (5.12).
    Attribute(AttributeView<'a>),
    /// A signature (5.2).
    Signature(SigView<'a>),
    /// The body of a signature packet that is no signature's, where malformed ones are kept
    /// (5.2.5).
    Malformed(&'a [u8]),
    /// A filler's type and body: a marker, trust or padding packet (5.8, 5.10, 5.14), or one of a
    /// type that isn't critical (4.3), which is kept in its place.
    Filler(u8, &'a [u8]),
}
