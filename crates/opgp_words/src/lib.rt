//! The program's command line, as `clap` reads it: its commands, their options, and the help.
#![tactic(auto)]

mod command;
mod help;

pub use crate::command::program;
