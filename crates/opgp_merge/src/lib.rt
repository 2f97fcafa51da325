//! Keyrings merged: certificates of one primary key become one (RFC 9580, 10.1); and certificates
//! of which only chosen parts stay, or that are picked.
#![tactic(auto)]

mod choice;
mod choosing;
mod closing;
mod gathering;
mod joining;
pub mod laws;
mod merging;
mod open;
mod own;
mod picking;
mod slots;

pub use choice::Choice;
pub use choosing::{choose, choose_certificate};
pub use merging::merge;
pub use picking::pick;
