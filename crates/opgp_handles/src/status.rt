//! What a call answers.

/// It is done.
pub(crate) const DONE: u32 = 0;
/// The input is refused: the fault says where and why.
pub(crate) const REFUSED: u32 = 1;
/// A table has less room than the sizes say.
pub(crate) const ROOM: u32 = 2;
/// Out of memory.
pub(crate) const MEMORY: u32 = 3;
/// A limit is out of its range.
pub(crate) const LIMITS: u32 = 4;
/// The handle holds nothing.
pub(crate) const CLOSED: u32 = 5;
/// There is no such row, or its signature isn't hashed.
pub(crate) const NO_ROW: u32 = 6;
/// The input has ended.
pub(crate) const ENDED: u32 = 7;
/// There are more signatures than one document is hashed for.
pub(crate) const MANY: u32 = 8;
/// The document hasn't ended.
pub(crate) const GOING: u32 = 9;
