//! The armored blocks in a text as mail programs meet it: quoted by `> `, indented, with a break of
//! HTML at the end of a line, behind a byte order mark, among other text.
//!
//! [`Blocks`] finds each line that begins a block (RFC 9580, 6.2.1), and says where the block is in
//! the text. [`FoundBlock::write`] writes it cleaned, for a strict reader, which decides what it
//! is. A block without its end is given too, so that nothing is passed over in silence.
#![tactic(auto)]

mod blocks;
mod found;
mod kind;
pub mod laws;
mod line;
mod searching;

pub use blocks::Blocks;
pub use found::FoundBlock;
