//! What becomes of the lines outside of armored blocks.

/// What a reader of armored text does with a line outside of blocks that begins none; RFC 9580,
/// 6.2, doesn't forbid such lines.
#[derive(Clone, Copy, Debug, PartialEq, Eq)]
pub enum Outside {
    /// Passes over it, whatever it is.
    Skip,
    /// Refuses it, unless it is blank: a line of spaces, tabs and carriage returns, or of nothing.
    Refuse,
}
