//! A certificate, as its signatures have it.

use crate::statement::Statement;

/// A certificate: its primary key, and what its signatures say.
#[derive(Clone, Copy)]
pub struct Facts<'a> {
    /// The version of its primary key: 4 or 6.
    pub version: u8,
    /// When its primary key was created, in seconds since 1970.
    pub created: u32,
    /// What its signatures say, in any order.
    pub statements: &'a [Statement],
}

/// A key of a certificate.
#[derive(Clone, Copy, Debug, PartialEq, Eq)]
pub enum Key {
    /// The primary key.
    Primary,
    /// A subkey.
    Subkey {
        /// The number of the component that it is.
        number: usize,
        /// When it was created, in seconds since 1970.
        created: u32,
    },
}
