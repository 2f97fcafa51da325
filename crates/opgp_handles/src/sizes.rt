//! How much a table wants.

/// How many rows and octets there are.
#[repr(C)]
#[derive(Clone, Copy)]
pub struct Sizes {
    /// The rows.
    pub rows: u64,
    /// The octets that they point into.
    pub bytes: u64,
}
