//! ASCII armor (RFC 9580, 6): armored blocks among other text, read in pieces of any size, and
//! written.
#![tactic(auto)]

mod block;
mod dearmoring;
mod event;
mod label;
pub mod laws;
mod letters;
mod lines;
mod pending;
mod reader;
mod refusal;
mod section;
mod spare;
mod writing;

pub use block::Block;
pub use dearmoring::dearmor;
pub use event::ArmorEvent;
pub use label::Label;
pub use reader::Dearmor;
pub use writing::{armor, encode_row};
