//! Input and output: where octets come from, where they go, and output through one buffer of fixed
//! size.
//!
//! An output takes octets, words of lines ([`Output`]) and blocks of armor ([`Armoring`]). The only
//! memory that it needs is its [`Buffer`], which is allocated before anything is written.
#![tactic(auto)]

mod armoring;
mod buffer;
mod held;
pub mod laws;
mod line;
mod output;
mod place;
mod row;
mod sink;
mod source;
mod watched;
mod words;
mod writing;

pub use armoring::Armoring;
pub use buffer::Buffer;
pub use held::Held;
pub use line::Word;
pub use output::Output;
pub use sink::Sink;
pub use source::Source;
pub use watched::Watched;
pub use writing::put_all;
