//! The calls and types that users of one layer name, each by the crate that has it: what compiles
//! here has the name and the signature that was promised.
#![tactic(auto)]

mod armor;
mod bodies;
mod frame;
mod hash;
mod octets;
mod ring;
mod stack;
