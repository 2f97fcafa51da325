//! What a step over octets has found.

use opgp_frame::{Placed, Spot};

/// A block that begins: its number, and whether its label is accepted.
#[derive(Clone, Copy)]
pub(crate) struct Opening {
    pub(crate) number: u64,
    pub(crate) fits: bool,
}

/// The packet that a step over octets has found.
#[derive(Drop)]
pub(crate) enum Found {
    /// None.
    Nothing,
    /// One that lies in the octets.
    Lent(Spot),
    /// One whose octets came in several pieces.
    Whole(Placed),
}
