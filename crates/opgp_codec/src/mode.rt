//! How an input is read.

/// How an input is read.
#[derive(Clone, Copy, Debug, PartialEq, Eq)]
pub enum Mode {
    /// Its first octet decides: 128 or more is binary, and so is an empty input.
    Auto,
    /// As armored text (RFC 9580, 6.2).
    Armor,
    /// As packets (RFC 9580, 4).
    Binary,
}
