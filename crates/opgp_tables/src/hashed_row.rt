//! A row of what signatures hash.

/// What a signature hashes (RFC 9580, 5.2.4): `bytes[at .. at + size)` of the octets beside the
/// table.
#[repr(C)]
#[derive(Clone, Copy)]
pub struct HashedRow {
    /// Its number in the table of jobs, counted from the first row that was asked for.
    pub row: u64,
    /// Where its octets begin.
    pub at: u64,
    /// How many there are.
    pub size: u64,
}
