//! Places of keys, for other languages.

/// The place of a key in a keyring: `opgp_place` of the header.
#[repr(C)]
#[derive(Clone, Copy)]
pub struct PlaceRow {
    /// The number of its certificate, from 0.
    pub certificate: u64,
    /// The number of the component that it is, from 0; `NONE` for the primary key.
    pub component: u64,
}
