//! The section of an armored text that a line is in.

use crate::label::Label;

/// The section that a line is in: outside of all blocks, or a part of a block with that label.
#[derive(Clone, Copy)]
pub(crate) enum Section {
    Outside,
    Headers(Label),
    Data(Label),
    AfterChecksum(Label),
}
